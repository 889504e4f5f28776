//! What an intake has come to as a text, and an intake that goes on from it.

ghost use Rattle.std.specs.Prelude.{◌≡◌, ◌&&◌, ◌++◌, ◌∷◌, List, ℕ, ℤ, [], Option, IfOk, IfSome, OnOk, length, map, take, true};
ghost use Rattle.wsm_record.specs.Event.{event_of};
ghost use Rattle.wsm_program.specs.Program.{Program as AnyProgram};
ghost use Rattle.wsm_lines.specs.declared.source.Source.{Source as AnySource};
ghost use Rattle.wsm_lines.specs.Reader.{Follows};
ghost use Rattle.wsm_turns.specs.declared.clocks.Clocks.{Clocks as AnyClocks};
ghost use Rattle.wsm_doubles.specs.Memory.{Memory, Recalls};
ghost use Rattle.wsm_turns.specs.Clocks.{AreClocks};
ghost use Rattle.wsm_turns.specs.Known.{Remembers};
ghost use Rattle.wsm_intake.specs.Turns.{setting_by};
ghost use Rattle.wsm_intake.specs.GoesOn.{GoesOn};
ghost use Rattle.wsm_intake.specs.Saved.{IsRead, Saved, can_say, keeps_events};

use crate::intake::Intake;
use crate::told::Told;
use std::alloc::{AllocError, Global};
use wsm_doubles::Doubles;
use wsm_lines::{LineReader, LineRefusal};
use wsm_log_text::Standing;
use wsm_program::Program;
use wsm_record::{Event, Schema};
use wsm_saved::{Restoring, restore_all, save_bytes, save_number};
use wsm_saved_turns::{save_clocks, save_doubles, save_names};
use wsm_turns::{Clocks, Identifiers, count_in};

impl Intake {
    /// Adds a text from which [`Intake::resume`] goes on, and answers whether it did. It doesn't where no line was taken,
    /// all RECORDS of the query are used up, or the events that it needs aren't kept.
    ///
    /// # Errors
    ///
    /// Memory was refused. A part may have been added, and the intake can't go on.
    pub fn save(&mut self, text: &mut Vec<u8>) -> Result<bool, AllocError>
        ensures goes_on { (s : AnySource) (clocks : Option AnyClocks) (p : AnyProgram) (before : List (List ℕ)) → GoesOn s clocks p self.old before →
            OnOk result (GoesOn s clocks p self.new before) }
        ensures saved { (s : AnySource) (clocks : Option AnyClocks) (p : AnyProgram) (before : List (List ℕ)) → GoesOn s clocks p self.old before →
            IfOk result (λ is_saved. is_saved ≡ true → (t : List ℕ) × (text.new.items ≡ text.old.items ++ t) × Saved s clocks p before t) }
        ensures when { (s : AnySource) (clocks : Option AnyClocks) (p : AnyProgram) (before : List (List ℕ)) → GoesOn s clocks p self.old before →
            IfOk result (λ is_saved. is_saved ≡ (can_say s clocks p before && keeps_events self.old)) }
        ensures grows { OnOk result (take (length text.old.items) text.new.items ≡ text.old.items) }
    {
        let left = self.told.records_left();
        if self.taken == 0 || left == 0 {
            return Ok(false);
        }
        save_number(self.taken, text)?;
        save_bytes(&self.first, text)?;
        save_number(left, text)?;
        save_clocks(&self.waiting, text)?;
        save_names(&self.names, text)?;
        save_doubles(self.identifiers.doubles(), text)?;
        self.told.save_needed(text)
    }

    /// An intake that goes on from a text: it writes for the lines that come what one writes that took the lines itself. None where
    /// the text is no such one.
    ///
    /// # Errors
    ///
    /// Memory was refused.
    pub fn resume(
        self,
        alloc: Global,
        clocks: Option<Clocks>,
        text: &[u8],
    ) -> Result<Option<Intake>, AllocError>
        requires { AreClocks clocks }
        ensures { (s : AnySource) (p : AnyProgram) (before : List (List ℕ)) → GoesOn s clocks p self [] → Saved s clocks p before text.now →
            IfOk result (λ o. IfSome o (λ intake. GoesOn s clocks p intake before)) }
    {
        let mut from = Restoring::new(text);
        let count = count_in(clocks, self.told.schema().key_count());
        let Some(standing) = Standing::restore(alloc, clocks, count, &mut from)? else {
            return Ok(None);
        };
        let Some(events) = restore_all::<Event>(alloc, &mut from)? else {
            return Ok(None);
        };
        self.go_on(alloc, standing, &events)
    }

    // The same by what was read from the text: what is kept of the lines, and the events that are needed.
    fn go_on(
        self,
        alloc: Global,
        standing: Standing,
        events: &[Event],
    ) -> Result<Option<Intake>, AllocError>
        ensures { (s : AnySource) (clocks : Option AnyClocks) (p : AnyProgram) (before : List (List ℕ)) (text : List ℕ) (saved : Saved s clocks p before text) →
            GoesOn s clocks p self [] → IsRead s clocks p before text saved standing (map event_of events.now) →
            IfOk result (λ o. IfSome o (λ intake. GoesOn s clocks p intake before)) }
    {
        let (told, mut reader, records) = self.into_parts();
        read_first(&mut reader, told.schema(), &standing.first)?;
        let Some(told) = told.resume(alloc, records, standing.left, events)? else {
            return Ok(None);
        };
        Ok(Some(standing_behind(told, reader, records, standing)))
    }
}

// Reads the first line of a log, whatever it says: a heading is that of the first line.
fn read_first(reader: &mut LineReader, schema: &Schema, line: &[u8]) -> Result<(), AllocError>
    ensures { (s : AnySource) → Follows s [] reader.old → OnOk result (Follows s (line.now ∷ []) reader.new) }
{
    match reader.read(schema, line) {
        Ok(()) => Ok(()),
        Err(LineRefusal::Fault(_)) => Ok(()),
        Err(LineRefusal::Memory) => Err(AllocError),
    }
}

// An intake with what is kept of lines beside its engine and its reader.
fn standing_behind(told: Told, reader: LineReader, records: i64, standing: Standing) -> Intake
    ensures told { result.told ≡ told }
    ensures reader { result.reader ≡ reader }
    ensures waiting { result.waiting ≡ standing.waiting }
    ensures names { result.names ≡ standing.names }
    ensures identifiers { (clocks : Option AnyClocks) (mark : ℤ) (memory : Memory) →
        let w = setting_by clocks told.engine.program in Recalls w.clock w.shape mark standing.known memory → Remembers w mark result.identifiers memory }
    ensures records { result.records ≡ records }
    ensures first { result.first.items ≡ standing.first.items }
    ensures taken { result.taken ≡ standing.taken }
{
    let (taken, first, waiting, names, known) = standing.into_parts();
    let identifiers = resumed(known, told.program());
    Intake {
        told,
        reader,
        waiting,
        names,
        identifiers,
        records,
        first,
        taken,
        faults: 0,
        doubles: 0,
        silent: 0,
    }
}

// The identifiers that others have come to, by a program's clock and windows.
fn resumed(known: Doubles, program: &Program) -> Identifiers
    ensures { (clocks : Option AnyClocks) (mark : ℤ) (memory : Memory) → let w = setting_by clocks program.now in Recalls w.clock w.shape mark known memory →
        Remembers w mark result memory }
{
    let header = program.header();
    Identifiers::resume(known, header.clock, header.shape)
}
