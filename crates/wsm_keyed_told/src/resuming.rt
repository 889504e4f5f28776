//! Parts that go on from events which stand for all that came.

ghost use Rattle.std.specs.Prelude.{◌≡◌, [], ℕ, List, IfOk, IfSome, IsTrue, length, map};
ghost use Rattle.wsm_record.specs.declared.words.Form.TheVariants.{Panes};
ghost use Rattle.wsm_record.specs.Event.{Event as AnyEvent, event_of};
ghost use Rattle.wsm_program.specs.Program.{Program as AnyProgram, is_program};
ghost use Rattle.wsm_head.specs.StandsFor.{program_with};
ghost use Rattle.wsm_part_engines.specs.Fits.{Fits};
ghost use Rattle.wsm_log_text.specs.Needed.{fed_all};
ghost use Rattle.wsm_keyed_told.specs.Resuming.{IsLeft};

use crate::told::{KeyedTold, is_named};
use std::alloc::{AllocError, Global};
use wsm_admission::has_fitting_values;
use wsm_head::with_records;
use wsm_key_names::KeyNames;
use wsm_log_text::fewer_records;
use wsm_part_engines::Parts;
use wsm_program::Program;
use wsm_record::Event;
use wsm_turns::Taker;
use wsm_verifier::verify;

impl KeyedTold {
    ghost use Rattle.std.specs.Prelude.{◌≡◌, [], ℕ, ℤ, List, IfOk, IfSome, IsTrue, OnOk, map};
    ghost use Rattle.wsm_record.specs.Event.{Event as AnyEvent, event_of};
    ghost use Rattle.wsm_program.specs.Program.{Program as AnyProgram, is_program};
    ghost use Rattle.wsm_head.specs.StandsFor.{program_with};
    ghost use Rattle.wsm_part_programs.specs.Names.{of_names};
    ghost use Rattle.wsm_part_engines.specs.Fits.{AreNamed};
    ghost use Rattle.wsm_log_text.specs.Needed.{fed_all, left_behind};
    ghost use Rattle.wsm_keyed_told.specs.Tells.{Serves};
    ghost use Rattle.wsm_keyed_told.specs.Resuming.{GoesOnFrom};

    /// How many RECORDS may still be taken.
    pub fn records_left(&self) -> u64
        ensures lawful { IsTrue (is_program self.now.parts.program) }
        ensures left { (p : AnyProgram) (past : List AnyEvent) → Serves p self.now past → (all : List (List ℕ)) → AreNamed all past →
            result ≡ left_behind (of_names p all) past }
    {
        let records = self.parts.header().clock.records;
        records
            .unsigned_abs()
            .saturating_sub(self.parts.totals().admitted)
    }

    /// The program goes on from events, the oldest first, which stand for all that came by these names, with so many RECORDS that as
    /// many are left behind them. None where these would be more than the query has, or the key of an event has no name.
    ///
    /// # Errors
    ///
    /// Memory was refused.
    pub fn resume(
        self,
        alloc: Global,
        names: KeyNames,
        records: i64,
        left: u64,
        events: &[Event],
    ) -> Result<Option<KeyedTold>, AllocError>
        ensures { IfOk result (λ o. IfSome o (λ told. GoesOnFrom (program_with records self.parts.program) left names (map event_of events.now) told)) }
    {
        let Some(parts) = opened_behind(alloc, self.into_program(), &names, records, left, events)?
        else {
            return Ok(None);
        };
        let mut told = KeyedTold::of(alloc, parts, names);
        told.keep(alloc);
        told.take_all(events)?;
        Ok(Some(told))
    }

    // The program alone.
    fn into_program(self) -> Program
        ensures { result ≡ self.parts.program }
    {
        let KeyedTold {
            parts,
            names: _,
            lines: _,
            staying: _,
        } = self;
        parts.into_program()
    }

    // Takes the turns of events, of which nothing is written.
    fn take_all(&mut self, events: &[Event]) -> Result<(), AllocError>
        ensures { (p : AnyProgram) (past : List AnyEvent) → Serves p self.old past →
            OnOk result (Serves p self.new (fed_all past (map event_of events.now)) × (self.new.names ≡ self.old.names)) }
    {
        for event in events {
            self.take(0, event)?;
            self.lines.clear();
        }
        Ok(())
    }
}

// Parts of a program that was verified before, before their first event, with so many RECORDS that as many are left behind events, the
// oldest first, by these names. None as `resume` says.
fn opened_behind(
    alloc: Global,
    program: Program,
    names: &KeyNames,
    records: i64,
    left: u64,
    events: &[Event],
) -> Result<Option<Parts>, AllocError>
    ensures { IfOk result (λ o. IfSome o (λ parts. IsLeft (program_with records program) left (map event_of events.now) parts)) }
{
    let Some(fresh) = opened_with(alloc, program, records)? else {
        return Ok(None);
    };
    let Some(parts) = fed(fresh, events, names.len())? else {
        return Ok(None);
    };
    let Some(fewer) = fewer_records(left, parts.totals().admitted, records) else {
        return Ok(None);
    };
    let Some(lesser) = opened_with(alloc, parts.into_program(), fewer)? else {
        return Ok(None);
    };
    Ok(Some(lesser))
}

// Parts of a program that was verified before, with so many RECORDS, before their first event. None where it isn't accepted with these.
fn opened_with(alloc: Global, program: Program, records: i64) -> Result<Option<Parts>, AllocError>
    ensures program { IfOk result (λ o. IfSome o (λ parts. parts.program ≡ program_with records program)) }
    ensures lawful { IfOk result (λ o. IfSome o (λ parts. IsTrue (is_program parts.program))) }
    ensures panes { IfOk result (λ o. IfSome o (λ parts. parts.program.header.form ≡ Panes)) }
    ensures fits { (names : List (List ℕ)) → IfOk result (λ o. IfSome o (λ parts. Fits parts.program names parts [])) }
{
    let Ok(verified) = verify(alloc, program) else {
        return Err(AllocError);
    };
    let Some(other) = with_records(alloc, verified, records)? else {
        return Ok(None);
    };
    let Ok(parts) = Parts::open(alloc, other) else {
        return Err(AllocError);
    };
    Ok(Some(parts))
}

// Parts that have taken events, where the key of each is the number of one of so many names.
fn fed(mut parts: Parts, events: &[Event], count: usize) -> Result<Option<Parts>, AllocError>
    ensures program { IfOk result (λ o. IfSome o (λ new. new.program ≡ parts.program)) }
    ensures fits { (p : AnyProgram) (names : List (List ℕ)) (past : List AnyEvent) → length names ≡ count → Fits p names parts past →
        IfOk result (λ o. IfSome o (λ new. Fits p names new (fed_all past (map event_of events.now)))) }
{
    for event in events {
        if !is_named(event, count) {
            return Ok(None);
        }
        let values_fit = has_fitting_values(parts.schema(), event);
        parts.feed_numbered(event, values_fit)?;
    }
    Ok(Some(parts))
}
