//! A run that is counted, and not written.

ghost use Rattle.std.specs.Prelude.{◌≡◌, length};
ghost use Rattle.wsm_semantics.specs.Lines.{refusal_lines};

use crate::counts::Counts;
use csv::ByteRecord;
use std::alloc::{AllocError, Global};
use wsm_admission::Refusal;
use wsm_csv::{EventReader, RowRefusal};
use wsm_cut::{Cutter, judge_event};
use wsm_engine::Engine;
use wsm_keep::Judged;
use wsm_rules::Verified;
use wsm_semantics::OutRow;

/// What the turns so far come to, of which no line is written.
pub struct Run {
    engine: Engine,
    events: EventReader,
    counts: Counts,
}

impl Drop for Run {
    fn drop(self) {
        let Run {
            engine: _,
            events: _,
            counts: _,
        } = self;
    }
}

impl Run {
    ghost use Rattle.std.specs.Prelude.{◌≡◌, ◌+◌, ◌∷◌, List, [], Ok, map, IfOk, OnOk};
    ghost use Rattle.csv.specs.Records.{fields_of};
    ghost use Rattle.wsm_record.specs.Event.{Event as AnyEvent};
    ghost use Rattle.wsm_admission.specs.Admission.{counter};
    ghost use Rattle.wsm_admission.specs.Clock.{fits_declared};
    ghost use Rattle.wsm_semantics.specs.Lines.{Row, events};
    ghost use Rattle.wsm_semantics.specs.Relation.{turn_rows};
    ghost use Rattle.wsm_program.specs.Program.{Program};
    ghost use Rattle.wsm_machine.specs.Meaning.{query_of};
    ghost use Rattle.wsm_keep.specs.Holds.{Written, read};
    ghost use Rattle.wsm_keep.specs.Keeper.{IsTold};
    ghost use Rattle.wsm_cut.specs.Cutter as cutter;
    ghost use Rattle.wsm_csv.specs.Cells.{event_of_cells};
    ghost use Rattle.wsm_csv.specs.EventReader.{event_read, fits_read};
    ghost use Rattle.wsm_kept.specs.Run.{EngineFits, Fits, HasRows, Tells, admitted_by};

    /// Before the first row.
    pub fn open(alloc: Global, verified: Verified) -> Result<Run, AllocError>
        ensures program { IfOk result (λ run. run.engine.program ≡ verified) }
        ensures fits { IfOk result (λ run. Fits verified run []) }
    {
        let Ok(engine) = Engine::open(alloc, verified) else {
            return Err(AllocError);
        };
        Ok(Run {
            engine,
            events: EventReader::new(alloc),
            counts: Counts::none(),
        })
    }

    /// What is kept of the rows of its program, before the first.
    pub fn cutter(&self, alloc: Global) -> Cutter
        ensures ready { cutter.IsReady result }
        ensures begins { result.keeper.begins.items ≡ [] }
        ensures fits { (p : Program) → Fits p self.now [] → cutter.Fits p result [] }
    {
        Cutter::open(alloc, self.engine.program(), self.engine.mark())
    }

    /// Takes the turn of a row, and tells what its event does, if it is one.
    pub fn take(&mut self, row: &ByteRecord) -> Result<Option<Judged>, AllocError>
        ensures program { self.new.engine.program ≡ self.old.engine.program }
        ensures fits { (p : Program) (before : List Row) → Fits p self.old before →
            OnOk result (Fits p self.new (event_of_cells p.header.schema (fields_of row.now) ∷ before)) }
        ensures told { (p : Program) (before : List Written) → Fits p self.old (map read before) →
            IfOk result (Tells (query_of p) before (event_of_cells p.header.schema (fields_of row.now))) }
        ensures rows { (p : Program) (before : List Row) → Fits p self.old before →
            OnOk result (HasRows (query_of p) (events before) (event_of_cells p.header.schema (fields_of row.now)) self.new.engine.rows) }
    {
        match self.events.read(self.engine.schema(), row) {
            Ok(()) => Ok(Some(self.feed())),
            Err(RowRefusal::Fault(_)) => {
                self.count(1);
                Ok(None)
            }
            Err(RowRefusal::Memory) => Err(AllocError),
        }
    }

    // The turn of the event that was read by the engine's schema, and what it does.
    fn feed(&mut self) -> Judged
        requires { fits_read self.old.events ≡ fits_declared self.old.engine.program.header.schema (event_read self.old.events) }
        ensures program { self.new.engine.program ≡ self.old.engine.program }
        ensures fits { (p : Program) (before : List Row) → Fits p self.old before → Fits p self.new (Ok (event_read self.old.events) ∷ before) }
        ensures told { (p : Program) (before : List Written) → Fits p self.old (map read before) →
            IsTold (query_of p) before (event_read self.old.events) result }
        ensures rows { (p : Program) (before : List Row) → Fits p self.old before →
            self.new.engine.rows ≡ turn_rows (query_of p) (events before) (event_read self.old.events) }
    {
        let before = self.engine.mark();
        let values_fit = self.events.values_fit();
        let event = self.events.event();
        let reply = self.engine.feed_judged(event, values_fit);
        let mark = self.engine.mark();
        let judged = judge_event(event, &reply, before, mark);
        let written = self.engine.rows().len() as u64;
        self.count(lines_of(reply.refusal).saturating_add(written));
        judged
    }

    // Counts a row of which so many lines are written.
    fn count(&mut self, lines: u64)
        ensures rows { self.new.counts.rows ≡ counter (self.old.counts.rows + 1) }
        ensures lines { self.new.counts.lines ≡ counter (self.old.counts.lines + lines) }
        ensures admitted { (p : Program) (past : List AnyEvent) → EngineFits p self.old.engine past → self.new.counts.admitted ≡ admitted_by p past }
        ensures others { self.new ≡ record self.old { counts = self.new.counts } }
    {
        self.counts = Counts {
            rows: self.counts.rows.saturating_add(1),
            lines: self.counts.lines.saturating_add(lines),
            admitted: self.engine.totals().admitted,
        };
    }

    /// The rows that the last turn of an event wrote.
    pub fn rows(&self) -> &[OutRow]
        ensures { result.now ≡ self.now.engine.rows }
    {
        self.engine.rows()
    }

    /// What the rows so far come to.
    pub fn counts(&self) -> Counts
        ensures { result ≡ self.now.counts }
    {
        self.counts
    }

    /// The program that was run.
    pub fn into_program(self) -> Verified
        ensures { result ≡ self.engine.program }
    {
        let Run {
            engine,
            events: _,
            counts: _,
        } = self;
        engine.into_program()
    }
}

// How many lines tell of a refusal: none of a late record.
fn lines_of(refusal: Option<Refusal>) -> u64
    ensures { result ≡ length (refusal_lines 0 refusal) }
{
    match refusal {
        None | Some(Refusal::Late) => 0,
        Some(_) => 1,
    }
}
