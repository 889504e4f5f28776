//! What a keyed intake has come to as a text, and one that goes on from it.

ghost use Rattle.std.specs.Prelude.{◌≡◌, List, ℕ, ℤ, Option};
ghost use Rattle.wsm_record.specs.Event.{event_of};
ghost use Rattle.wsm_turns.specs.declared.clocks.Clocks.{Clocks as AnyClocks};
ghost use Rattle.wsm_doubles.specs.Memory.{Memory, Recalls};
ghost use Rattle.wsm_turns.specs.Known.{Remembers};
ghost use Rattle.wsm_keyed_intake.specs.KeyedLog.{setting_by};

use crate::intake::KeyedIntake;
use crate::key_names::{restore_key_names, save_key_names};
use std::alloc::{AllocError, Global};
use wsm_doubles::Doubles;
use wsm_key_names::KeyNames;
use wsm_keyed_told::KeyedTold;
use wsm_log_text::Standing;
use wsm_named_lines::NamedLines;
use wsm_part_engines::Parts;
use wsm_record::Event;
use wsm_saved::{Restoring, restore_all, save_bytes, save_number};
use wsm_saved_turns::{save_clocks, save_doubles, save_names};
use wsm_turns::{Clocks, Identifiers, count_in};

impl KeyedIntake {
    ghost use Rattle.std.specs.Prelude.{◌≡◌, ◌&&◌, ◌++◌, List, ℕ, [], IfOk, IfSome, OnOk, length, map, take, true};
    ghost use Rattle.wsm_record.specs.Event.{event_of};
    ghost use Rattle.wsm_turns.specs.Clocks.{AreClocks};
    ghost use Rattle.wsm_keyed_intake.specs.KeyedLog.{KeyedLog};
    ghost use Rattle.wsm_keyed_intake.specs.Turns.{AreNamed};
    ghost use Rattle.wsm_keyed_intake.specs.GoesOn.{GoesOn};
    ghost use Rattle.wsm_keyed_intake.specs.Saved.{IsRead, Saved, can_say, keeps_events};

    /// Adds a text from which [`KeyedIntake::resume`] goes on, and answers whether it did. It doesn't where no line was taken,
    /// all RECORDS of the query are used up, or the events that its parts need aren't kept.
    ///
    /// # Errors
    ///
    /// Memory was refused. A part may have been added, and the intake can't go on.
    pub fn save(&mut self, text: &mut Vec<u8>) -> Result<bool, AllocError>
        ensures goes_on { (g : KeyedLog) (before : List (List ℕ)) → GoesOn g self.old before → OnOk result (GoesOn g self.new before) }
        ensures saved { (g : KeyedLog) (before : List (List ℕ)) → GoesOn g self.old before →
            IfOk result (λ is_saved. is_saved ≡ true → (t : List ℕ) × (text.new.items ≡ text.old.items ++ t) × Saved g before t) }
        ensures when { (g : KeyedLog) (before : List (List ℕ)) → GoesOn g self.old before →
            IfOk result (λ is_saved. is_saved ≡ (can_say g before && keeps_events self.old)) }
        ensures grows { OnOk result (take (length text.old.items) text.new.items ≡ text.old.items) }
    {
        let left = self.told.records_left();
        if self.taken == 0 || left == 0 {
            return Ok(false);
        }
        save_number(self.taken, text)?;
        save_bytes(&self.first, text)?;
        save_number(left, text)?;
        save_clocks(&self.waiting, text)?;
        save_names(&self.voices, text)?;
        save_doubles(self.identifiers.doubles(), text)?;
        save_key_names(&self.told.names, text)?;
        self.told.save_needed(text)
    }

    /// A keyed intake that goes on from a text, by the names that it says: it writes for the lines that come what one writes that took
    /// the lines itself. None where the text is no such one.
    ///
    /// # Errors
    ///
    /// Memory was refused.
    pub fn resume(
        self,
        alloc: Global,
        clocks: Option<Clocks>,
        text: &[u8],
    ) -> Result<Option<KeyedIntake>, AllocError>
        requires clocks { AreClocks clocks }
        requires named { AreNamed clocks }
        ensures { (log : KeyedLog) (before : List (List ℕ)) → let g = record log { clocks = clocks } in GoesOn g self [] → Saved g before text.now →
            IfOk result (λ o. IfSome o (λ intake. GoesOn g intake before)) }
    {
        let mut from = Restoring::new(text);
        let count = count_in(clocks, self.told.parts.block());
        let Some(standing) = Standing::restore(alloc, clocks, count, &mut from)? else {
            return Ok(None);
        };
        let Some(names) = restore_key_names(alloc, &mut from)? else {
            return Ok(None);
        };
        let Some(events) = restore_all::<Event>(alloc, &mut from)? else {
            return Ok(None);
        };
        self.go_on(alloc, standing, names, &events)
    }

    // The same by what was read from the text: what is kept of the lines, the names, and the events that are needed.
    fn go_on(
        self,
        alloc: Global,
        standing: Standing,
        names: KeyNames,
        events: &[Event],
    ) -> Result<Option<KeyedIntake>, AllocError>
        ensures { (g : KeyedLog) (before : List (List ℕ)) (text : List ℕ) (saved : Saved g before text) →
            GoesOn g self [] → IsRead g before text saved standing names (map event_of events.now) →
            IfOk result (λ o. IfSome o (λ intake. GoesOn g intake before)) }
    {
        let (told, mut reader, records) = self.into_parts();
        reader.read_first(&standing.first)?;
        let Some(told) = told.resume(alloc, names, records, standing.left, events)? else {
            return Ok(None);
        };
        Ok(Some(standing_behind(told, reader, records, standing)))
    }
}

// A keyed intake with what is kept of lines beside its parts and its reader.
fn standing_behind(
    told: KeyedTold,
    reader: NamedLines,
    records: i64,
    standing: Standing,
) -> KeyedIntake
    ensures told { result.told ≡ told }
    ensures reader { result.reader ≡ reader }
    ensures waiting { result.waiting ≡ standing.waiting }
    ensures voices { result.voices ≡ standing.names }
    ensures identifiers { (clocks : Option AnyClocks) (all : List (List ℕ)) (mark : ℤ) (memory : Memory) →
        let w = setting_by clocks told.parts.program all in Recalls w.clock w.shape mark standing.known memory → Remembers w mark result.identifiers memory }
    ensures records { result.records ≡ records }
    ensures first { result.first.items ≡ standing.first.items }
    ensures taken { result.taken ≡ standing.taken }
{
    let (taken, first, waiting, voices, known) = standing.into_parts();
    let identifiers = resumed(known, &told.parts);
    KeyedIntake {
        told,
        reader,
        waiting,
        voices,
        identifiers,
        records,
        first,
        taken,
        faults: 0,
        doubles: 0,
        silent: 0,
    }
}

// The identifiers that others have come to, by the clock and windows of the program of parts.
fn resumed(known: Doubles, parts: &Parts) -> Identifiers
    ensures { (clocks : Option AnyClocks) (all : List (List ℕ)) (mark : ℤ) (memory : Memory) →
        let w = setting_by clocks parts.now.program all in Recalls w.clock w.shape mark known memory → Remembers w mark result memory }
{
    let header = parts.header();
    Identifiers::resume(known, header.clock, header.shape)
}
