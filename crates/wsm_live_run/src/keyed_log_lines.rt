//! Who takes the lines of a log by any number of names.

ghost use Rattle.std.specs.Prelude.{◌≡◌, true};
ghost use Rattle.wsm_turns.specs.Clocks.{AreClocks};
ghost use Rattle.wsm_live_run.specs.Known.{AreClocks-prop, have_names, have_names-prop};

use std::alloc::{AllocError, Global};
use wsm_key_names::KeyNames;
use wsm_keyed_intake::{KeyedIntake, KeyedLogStop, open_keyed_log};
use wsm_lines::Source;
use wsm_live::LineTaker;
use wsm_rules::Verified;
use wsm_turns::Clocks;

/// Takes the lines of a log, by a source, clocks and any number of names, and writes what a query over all of them does. Lines teach
/// names, in their order, so whoever takes the same lines again gives each name the same number.
#[derive(Drop)]
pub struct KeyedLogLines {
    alloc: Global,
    intake: KeyedIntake,
    clocks: Option<Clocks>,
    ghost are_clocks: { AreClocks clocks } by { AreClocks-prop clocks },
    ghost are_named: { have_names clocks ≡ true } by { have_names-prop clocks },
    // The names before the first line.
    first: usize,
}

impl KeyedLogLines {
    ghost use Rattle.std.specs.Prelude.{◌≡◌, [], IfErr, IfOk};
    ghost use Rattle.wsm_turns.specs.Clocks.{AreClocks};
    ghost use Rattle.wsm_keyed_intake.specs.Stops.{IsUnrun};
    ghost use Rattle.wsm_live_run.specs.KeyedSeen.{KeyedStands, keyed_intake_of};

    /// Before the first line, by these names, of which there may be so many.
    ///
    /// # Errors
    ///
    /// The program, the source or the clocks aren't run so, or memory was refused.
    pub fn open(
        alloc: Global,
        verified: Verified,
        source: Source,
        clocks: Option<Clocks>,
        names: KeyNames,
        most: u32,
    ) -> Result<KeyedLogLines, KeyedLogStop>
        requires { AreClocks clocks }
        ensures stands { IfOk result (λ lines.
            KeyedStands lines (record { program = verified; source = source; clocks = clocks; names = names; most = most }) []) }
        ensures unrun { IfErr result (IsUnrun (record { program = verified; source = source; clocks = clocks; names = names; most = most })) }
    {
        let first = names.len();
        match open_keyed_log(alloc, verified, source, clocks, names, most) {
            Ok(intake) => Ok(KeyedLogLines {
                alloc,
                intake,
                clocks,
                first,
            }),
            Err(stop) => Err(stop),
        }
    }

    /// What the lines so far come to.
    pub fn intake(&self) -> &KeyedIntake
        ensures { result.now ≡ keyed_intake_of self.now }
    {
        &self.intake
    }

    /// How many names came with the lines so far.
    pub fn new_names(&self) -> usize {
        self.intake.name_count().saturating_sub(self.first)
    }
}

impl LineTaker for KeyedLogLines {
    ghost use Rattle.wsm_keyed_intake.specs.KeyedLog.{KeyedLog};
    ghost use Rattle.wsm_live_run.specs.KeyedTurns.{keyed_turn_of};
    ghost use Rattle.wsm_live_run.specs.KeyedSeen.{KeyedSavedBy, KeyedStands, keyed_bytes_of, keyed_can_say};

    ghost By = { KeyedLog };

    ghost turn = { keyed_turn_of };

    ghost stands = { KeyedStands };

    ghost written = { keyed_bytes_of };

    ghost states = { KeyedSavedBy };

    ghost can_say = { keyed_can_say };

    fn take(&mut self, line: &[u8]) -> Result<(), AllocError> {
        self.intake.take(line)
    }

    fn written(&self) -> &[u8] {
        self.intake.lines()
    }

    fn save(&mut self, text: &mut Vec<u8>) -> Result<bool, AllocError> {
        self.intake.save(text)
    }

    fn resume(self, text: &[u8]) -> Result<Option<Self>, AllocError> {
        match self.intake.resume(self.alloc, self.clocks, text)? {
            Some(intake) => Ok(Some(KeyedLogLines {
                alloc: self.alloc,
                intake,
                clocks: self.clocks,
                first: self.first,
            })),
            None => Ok(None),
        }
    }
}
