//! An engine that goes on from events which stand for all that came.

ghost use Rattle.std.specs.Prelude.{◌≡◌, List, map};
ghost use Rattle.wsm_record.specs.Event.{Event as AnyEvent, event_of};
ghost use Rattle.wsm_engine.specs.Meaning.{Fits};
ghost use Rattle.wsm_log_text.specs.Needed.{fed_all};

use crate::told::{Told, opened};
use std::alloc::{AllocError, Global};
use wsm_engine::Engine;
use wsm_head::with_records;
use wsm_log_text::fewer_records;
use wsm_program::Program;
use wsm_record::Event;
use wsm_turns::Taker;

impl Told {
    ghost use Rattle.std.specs.Prelude.{◌≡◌, List, IfOk, IfSome, IsTrue, OnOk, map};
    ghost use Rattle.wsm_record.specs.Event.{Event as AnyEvent, event_of};
    ghost use Rattle.wsm_program.specs.Program.{Program as AnyProgram, is_program};
    ghost use Rattle.wsm_machine.specs.Meaning.{query_of};
    ghost use Rattle.wsm_head.specs.StandsFor.{program_with};
    ghost use Rattle.wsm_intake.specs.Tells.{Serves};
    ghost use Rattle.wsm_intake.specs.Resuming.{GoesOnFrom};
    ghost use Rattle.wsm_log_text.specs.Needed.{fed_all, left_behind};

    /// The program.
    pub fn program(&self) -> &Program
        ensures { result.now ≡ self.now.engine.program }
    {
        self.engine.program()
    }

    /// How many RECORDS may still be taken.
    pub fn records_left(&self) -> u64
        ensures lawful { IsTrue (is_program self.now.engine.program) }
        ensures left { (p : AnyProgram) (past : List AnyEvent) → Serves p self.now past → result ≡ left_behind (query_of p) past }
    {
        let records = self.engine.program().header().clock.records;
        records
            .unsigned_abs()
            .saturating_sub(self.engine.totals().admitted)
    }

    /// The program goes on from events, the oldest first, which stand for all that came, with so many RECORDS that as many are left
    /// behind them. None where these would be more than the query has.
    ///
    /// # Errors
    ///
    /// Memory was refused.
    pub fn resume(
        self,
        alloc: Global,
        records: i64,
        left: u64,
        events: &[Event],
    ) -> Result<Option<Told>, AllocError>
        ensures { IfOk result (λ o. IfSome o (λ told. GoesOnFrom (program_with records self.engine.program) left (map event_of events.now) told)) }
    {
        let verified = self.into_engine().into_program();
        let Some(whole) = with_records(alloc, verified, records)? else {
            return Ok(None);
        };
        let mut engine = opened(alloc, whole)?;
        feed_all(&mut engine, events);
        let Some(fewer) = fewer_records(left, engine.totals().admitted, records) else {
            drop(engine);
            return Ok(None);
        };
        let Some(lesser) = with_records(alloc, engine.into_program(), fewer)? else {
            return Ok(None);
        };
        let mut told = Told::open_kept(alloc, lesser)?;
        told.take_all(events)?;
        Ok(Some(told))
    }

    // Takes the turns of events, of which nothing is written.
    fn take_all(&mut self, events: &[Event]) -> Result<(), AllocError>
        ensures { (p : AnyProgram) (past : List AnyEvent) → Serves p self.old past → OnOk result (Serves p self.new (fed_all past (map event_of events.now))) }
    {
        for event in events {
            self.take(0, event)?;
            self.lines.clear();
        }
        Ok(())
    }
}

// Feeds an engine events.
fn feed_all(engine: &mut Engine, events: &[Event])
    ensures program { engine.new.program ≡ engine.old.program }
    ensures fits { (past : List AnyEvent) → Fits engine.old past → Fits engine.new (fed_all past (map event_of events.now)) }
{
    for event in events {
        let _ = engine.feed(event);
    }
}
