//! The turns of a run.

ghost use Rattle.std.specs.Prelude.{◌≡◌, ◌++◌, OnOk};
ghost use Rattle.wsm_semantics.specs.Lines.{refusal_lines};
ghost use Rattle.wsm_record.specs.Schema.{Declared};
ghost use Rattle.wsm_semantics.specs.Text.{lines_text};

use csv::ByteRecord;
use std::alloc::{AllocError, Global};
use wsm_admission::Refusal;
use wsm_csv::{
    Device, DeviceFault, EventReader, RowRefusal, end_text, fault_text, refusal_text, rows_text,
    write_out,
};
use wsm_engine::{Engine, Totals};
use wsm_record::RowFault;
use wsm_rules::Verified;

/// What the turns so far come to: an engine, and the lines of the last turn.
#[derive(Drop)]
pub struct Turns {
    engine: Engine,
    lines: Vec<u8>,
    events: EventReader,
    // The rows that were no event.
    faults: u64,
}

impl Turns {
    ghost use Rattle.std.specs.Prelude.{◌≡◌, ◌++◌, true, false, List, [], length, Ok, Err, IfOk, OnErr, OnOk};
    ghost use Rattle.std.specs.Io.KnownBytes.{Appends};
    ghost use Rattle.csv.specs.Records.{fields_of};
    ghost use Rattle.wsm_admission.specs.Admission.{counter};
    ghost use Rattle.wsm_admission.specs.Clock.{fits_declared};
    ghost use Rattle.wsm_semantics.specs.Lines.{Row, end_line};
    ghost use Rattle.wsm_semantics.specs.Text.{line_text};
    ghost use Rattle.wsm_program.specs.Program.{Program};
    ghost use Rattle.wsm_machine.specs.Meaning.{query_of};
    ghost use Rattle.wsm_csv.specs.Cells.{event_of_cells};
    ghost use Rattle.wsm_csv.specs.EventReader.{event_read, fits_read};
    ghost use Rattle.wsm_csv.specs.Device.{TakesPart};
    ghost use Rattle.wsm.specs.Written.{line_of};
    ghost use Rattle.wsm.specs.Turns.{Adds, Ends, Fits, Turned};

    /// Before the first row.
    pub fn open(alloc: Global, verified: Verified) -> Result<Turns, AllocError>
        ensures { IfOk result (λ turns. Fits verified turns []) }
    {
        let Ok(engine) = Engine::open(alloc, verified) else {
            return Err(AllocError);
        };
        Ok(Turns {
            engine,
            lines: Vec::new(alloc),
            events: EventReader::new(alloc),
            faults: 0,
        })
    }

    /// Takes the turn of a row. The lines are then those of the turn.
    pub fn take(&mut self, row: &ByteRecord) -> Result<(), AllocError>
        ensures { (p : Program) (before : List Row) → Fits p self.old before →
            OnOk result (Turned p self.new before (event_of_cells p.header.schema (fields_of row.now))) }
    {
        self.lines.clear();
        match self.events.read(self.engine.schema(), row) {
            Ok(()) => self.feed(),
            Err(RowRefusal::Fault(why)) => self.refuse(why),
            Err(RowRefusal::Memory) => Err(AllocError),
        }
    }

    // The turn of the event that was read by the engine's schema.
    fn feed(&mut self) -> Result<(), AllocError>
        requires { fits_read self.old.events ≡ fits_declared self.old.engine.program.header.schema (event_read self.old.events) }
        ensures { (p : Program) (before : List Row) → Fits p self.old before → OnOk result (Adds p self.old self.new before (Ok (event_read self.old.events))) }
    {
        let values_fit = self.events.values_fit();
        let reply = self.engine.feed_judged(self.events.event(), values_fit);
        self.tell(reply.refusal)?;
        rows_text(self.engine.schema(), self.engine.rows(), &mut self.lines)?;
        Ok(())
    }

    // Adds the line of the last row's refusal, if there is one.
    fn tell(&mut self, refusal: Option<Refusal>) -> Result<(), AllocError>
        ensures lines { (p : Program) (rows : List Row) → Fits p self.old rows → (declared : Declared) →
            OnOk result (self.new.lines.items ≡ self.old.lines.items ++ lines_text declared (refusal_lines (counter (length rows)) refusal)) }
        ensures others { self.new ≡ record self.old { lines = self.new.lines } }
    {
        refusal_text(self.row_count(), refusal, &mut self.lines)
    }

    // The turn of a row that is no event.
    fn refuse(&mut self, why: RowFault) -> Result<(), AllocError>
        ensures { (p : Program) (before : List Row) → Fits p self.old before → OnOk result (Adds p self.old self.new before (Err why)) }
    {
        self.faults = self.faults.saturating_add(1);
        fault_text(self.row_count(), why, &mut self.lines)?;
        Ok(())
    }

    // How many rows there were, events or not.
    fn row_count(&self) -> u64
        ensures { (p : Program) (rows : List Row) → Fits p self.now rows → result ≡ counter (length rows) }
    {
        let events = self.engine.totals().rows;
        events.saturating_add(self.faults)
    }

    /// Ends the turns. The lines are then the last line, whose numbers are answered.
    pub fn end(&mut self) -> Result<Totals, AllocError>
        ensures { (p : Program) (rows : List Row) → Fits p self.old rows → IfOk result (λ totals. Ends p self.new rows totals) }
    {
        let totals = self.totals();
        self.lines.clear();
        end_text(totals, &mut self.lines)?;
        Ok(totals)
    }

    /// Gives a device the lines. Where it can't, it took a beginning of them and has failed.
    pub fn write<D: Device>(&self, out: &mut D) -> Result<(), DeviceFault>
        requires { D.has_failed out.old ≡ false }
        ensures all { OnOk result (Appends (D.taken out.old) (D.taken out.new) self.now.lines.items) }
        ensures works { OnOk result (D.has_failed out.new ≡ false) }
        ensures part { OnErr result (TakesPart (D.taken out.old) (D.taken out.new) self.now.lines.items) }
        ensures fails { OnErr result (D.has_failed out.new ≡ true) }
    {
        // Most turns have no lines.
        if self.lines.is_empty() {
            return Ok(());
        }
        write_out(out, &self.lines)
    }

    // What all turns come to.
    fn totals(&self) -> Totals
        ensures { (p : Program) (rows : List Row) → Fits p self.now rows → line_of result ≡ end_line (query_of p) rows }
    {
        let totals = self.engine.totals();
        Totals {
            rows: self.row_count(),
            admitted: totals.admitted,
            late: totals.late,
            refused: self.faults.saturating_add(totals.refused),
            panes: totals.panes,
        }
    }
}
