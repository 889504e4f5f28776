//! The turns of a run by any number of names.

use csv::ByteRecord;
use std::alloc::{AllocError, Global};
use wsm_admission::Refusal;
use wsm_csv::{Device, DeviceFault, RowRefusal, end_text, fault_text, refusal_text, write_out};
use wsm_engine::Totals;
use wsm_key_names::{KeyNames, NamedEvents};
use wsm_keyed_told::add_rows;
use wsm_part_engines::Parts;
use wsm_record::RowFault;

/// What the turns so far come to: the names and the reader of rows by them, the engines of parts, and the lines of the last turn.
pub struct KeyedTurns {
    parts: Parts,
    events: NamedEvents,
    lines: Vec<u8>,
    // The rows that were no event.
    faults: u64,
}

impl Drop for KeyedTurns {
    fn drop(self) {
        let KeyedTurns {
            parts: _,
            events: _,
            lines: _,
            faults: _,
        } = self;
    }
}

impl KeyedTurns {
    ghost use Rattle.std.specs.Prelude.{◌≡◌, ◌++◌, ◌∷◌, ℕ, true, false, IsTrue, List, [], length, Ok, Err, IfOk, OnErr, OnOk, map};
    ghost use Rattle.std.specs.Io.KnownBytes.{Appends};
    ghost use Rattle.csv.specs.Records.{fields_of};
    ghost use Rattle.wsm_record.specs.declared.words.Form.TheVariants.{Panes};
    ghost use Rattle.wsm_record.specs.Schema.{Declared};
    ghost use Rattle.wsm_admission.specs.Admission.{counter};
    ghost use Rattle.wsm_admission.specs.Clock.{fits_declared};
    ghost use Rattle.wsm_semantics.specs.Lines.{Row, refusal_lines};
    ghost use Rattle.wsm_semantics.specs.Text.{lines_text};
    ghost use Rattle.wsm_program.specs.Program.{Program, is_program};
    ghost use Rattle.wsm_csv.specs.Device.{TakesPart};
    ghost use Rattle.wsm_key_names.specs.Reading.{IsInBlock, numbered};
    ghost use Rattle.wsm_part_engines.specs.Fits.{Fits as PartsFit};
    ghost use Rattle.wsm_keyed_run.specs.Keyed.{Keyed, last_line};
    ghost use Rattle.wsm_keyed_run.specs.Turns.{Adds, Counts, Ends, Fits, HasBlocks, Ready, Turned};
    ghost use Rattle.wsm.specs.Written.{Cells, line_of};

    /// Before the first row, by these names, of which there may be so many.
    pub fn of(alloc: Global, parts: Parts, names: KeyNames, most: u32) -> KeyedTurns
        requires lawful { IsTrue (is_program parts.program) }
        requires panes { parts.program.header.form ≡ Panes }
        requires fits { (all : List (List ℕ)) → PartsFit parts.program all parts [] }
        ensures blocks { HasBlocks result }
        ensures fits { Fits (record { program = parts.program; names = names; most = most }) result [] }
    {
        let block = parts.block() as u32;
        KeyedTurns {
            parts,
            events: NamedEvents::new(alloc, names, most, block),
            lines: Vec::new(alloc),
            faults: 0,
        }
    }

    /// Takes the turn of a row. The lines are then those of the turn.
    pub fn take(&mut self, row: &ByteRecord) -> Result<(), AllocError>
        requires { HasBlocks self.old }
        ensures blocks { HasBlocks self.new }
        ensures turned { (k : Keyed) (cells : List Cells) → Fits k self.old cells → OnOk result (Turned k self.new cells (fields_of row.now)) }
    {
        self.lines.clear();
        match self.events.read(self.parts.schema(), row) {
            Ok(()) => self.feed(),
            Err(RowRefusal::Fault(why)) => self.refuse(why),
            Err(RowRefusal::Memory) => Err(AllocError),
        }
    }

    // The turn of the event that was read.
    fn feed(&mut self) -> Result<(), AllocError>
        requires placed { IsInBlock (length self.old.parts.program.header.schema.keys) self.old.events.event }
        requires blocks { HasBlocks self.old }
        requires judged { self.old.events.fits ≡ fits_declared self.old.parts.program.header.schema self.old.events.event }
        ensures blocks { HasBlocks self.new }
        ensures adds { (p : Program) (before : List Row) → Ready p self.old before (Ok (numbered self.old.events)) →
            OnOk result (Adds p self.old self.new before (Ok (numbered self.old.events))) }
    {
        let reply = self.parts.feed(
            self.events.part(),
            self.events.event(),
            self.events.values_fit(),
        )?;
        self.tell(reply.refusal)?;
        add_rows(&self.parts, self.events.names(), &mut self.lines)
    }

    // Adds the line of the last row's refusal, if there is one.
    fn tell(&mut self, refusal: Option<Refusal>) -> Result<(), AllocError>
        ensures lines { (p : Program) (rows : List Row) → Counts p self.old rows → (declared : Declared) →
            OnOk result (self.new.lines.items ≡ self.old.lines.items ++ lines_text declared (refusal_lines (counter (length rows)) refusal)) }
        ensures others { self.new ≡ record self.old { lines = self.new.lines } }
    {
        refusal_text(self.row_count(), refusal, &mut self.lines)
    }

    // The turn of a row that is no event.
    fn refuse(&mut self, why: RowFault) -> Result<(), AllocError>
        ensures blocks { HasBlocks self.old → HasBlocks self.new }
        ensures adds { (p : Program) (before : List Row) → Ready p self.old before (Err why) → OnOk result (Adds p self.old self.new before (Err why)) }
    {
        self.faults = self.faults.saturating_add(1);
        fault_text(self.row_count(), why, &mut self.lines)
    }

    // How many rows there were, events or not.
    fn row_count(&self) -> u64
        ensures { (p : Program) (rows : List Row) → Counts p self.now rows → result ≡ counter (length rows) }
    {
        let events = self.parts.totals().rows;
        events.saturating_add(self.faults)
    }

    /// Ends the turns. The lines are then the last line, whose numbers are answered.
    pub fn end(&mut self) -> Result<Totals, AllocError>
        ensures { (k : Keyed) (cells : List Cells) → Fits k self.old cells → IfOk result (λ totals. Ends k self.new cells totals) }
    {
        let totals = self.totals();
        self.lines.clear();
        end_text(totals, &mut self.lines)?;
        Ok(totals)
    }

    /// Gives a device the lines. Where it can't, it took a beginning of them and has failed.
    pub fn write<D: Device>(&self, out: &mut D) -> Result<(), DeviceFault>
        requires { D.has_failed out.old ≡ false }
        ensures all { OnOk result (Appends (D.taken out.old) (D.taken out.new) self.now.lines.items) }
        ensures works { OnOk result (D.has_failed out.new ≡ false) }
        ensures part { OnErr result (TakesPart (D.taken out.old) (D.taken out.new) self.now.lines.items) }
        ensures fails { OnErr result (D.has_failed out.new ≡ true) }
    {
        write_out(out, &self.lines)
    }

    // What all turns come to.
    fn totals(&self) -> Totals
        ensures { (k : Keyed) (cells : List Cells) → Fits k self.now cells → line_of result ≡ last_line k cells }
    {
        let totals = self.parts.totals();
        Totals {
            rows: self.row_count(),
            admitted: totals.admitted,
            late: totals.late,
            refused: self.faults.saturating_add(totals.refused),
            panes: totals.panes,
        }
    }

    /// How many names there are.
    pub fn name_count(&self) -> usize
        ensures { result ≡ length self.now.events.names }
    {
        self.events.names().len()
    }

    /// How many parts have an engine.
    pub fn part_count(&self) -> usize {
        self.parts.opened()
    }
}
