//! Who takes the lines of a log.

ghost use Rattle.wsm_turns.specs.Clocks.{AreClocks};
ghost use Rattle.wsm_live_run.specs.Known.{AreClocks-prop};

use std::alloc::{AllocError, Global};
use wsm_intake::Intake;
use wsm_lines::Source;
use wsm_live::LineTaker;
use wsm_rules::Verified;
use wsm_turns::Clocks;

/// Takes the lines of a log, by a source and clocks, and writes what a query does. What the lines came to can be saved, and others
/// go on from that.
#[derive(Drop)]
pub struct LogLines {
    alloc: Global,
    intake: Intake,
    clocks: Option<Clocks>,
    ghost are_clocks: { AreClocks clocks } by { AreClocks-prop clocks },
}

impl LogLines {
    ghost use Rattle.std.specs.Prelude.{◌≡◌, [], IfOk};
    ghost use Rattle.wsm_turns.specs.Clocks.{AreClocks};
    ghost use Rattle.wsm_live_run.specs.Turns.{taken_by};
    ghost use Rattle.wsm_live_run.specs.Seen.{Stands, intake_of};

    /// Before the first line.
    ///
    /// # Errors
    ///
    /// Memory was refused.
    pub fn open(
        alloc: Global,
        verified: Verified,
        source: Source,
        clocks: Option<Clocks>,
    ) -> Result<LogLines, AllocError>
        requires { AreClocks clocks }
        ensures { IfOk result (λ lines. Stands lines (taken_by source clocks verified) []) }
    {
        let intake = Intake::open_kept(alloc, verified, source, clocks)?;
        Ok(LogLines {
            alloc,
            intake,
            clocks,
        })
    }

    /// What the lines so far come to.
    pub fn intake(&self) -> &Intake
        ensures { result.now ≡ intake_of self.now }
    {
        &self.intake
    }
}

impl LineTaker for LogLines {
    ghost use Rattle.wsm_live_run.specs.Turns.{TakenBy, turn_of};
    ghost use Rattle.wsm_live_run.specs.Seen.{SavedBy, Stands, bytes_of, can_say_of};

    ghost By = { TakenBy };

    ghost turn = { turn_of };

    ghost stands = { Stands };

    ghost written = { bytes_of };

    ghost states = { SavedBy };

    ghost can_say = { can_say_of };

    fn take(&mut self, line: &[u8]) -> Result<(), AllocError> {
        self.intake.take(line)
    }

    fn written(&self) -> &[u8] {
        self.intake.lines()
    }

    fn save(&mut self, text: &mut Vec<u8>) -> Result<bool, AllocError> {
        self.intake.save(text)
    }

    fn resume(self, text: &[u8]) -> Result<Option<Self>, AllocError> {
        match self.intake.resume(self.alloc, self.clocks, text)? {
            Some(intake) => Ok(Some(LogLines {
                alloc: self.alloc,
                intake,
                clocks: self.clocks,
            })),
            None => Ok(None),
        }
    }
}
