//! Engines by any number of names, and what they have told.

ghost use Rattle.std.specs.Prelude.{◌≡◌, ℕ, List, length};
ghost use Rattle.wsm_record.specs.Event.{event_of};
ghost use Rattle.wsm_part_engines.specs.Fits.{is_named};

use crate::rows::add_rows;
use crate::staying::{KeyedStaying, note};
use std::alloc::{AllocError, Global};
use wsm_admission::{Refusal, has_fitting_values};
use wsm_csv::refusal_text;
use wsm_key_names::KeyNames;
use wsm_part_engines::Parts;
use wsm_record::{Event, Schema};
use wsm_turns::Taker;

/// The engines of parts, the names of their keys, and the bytes of the lines that are written.
#[derive(Drop)]
pub struct KeyedTold {
    pub parts: Parts,
    pub names: KeyNames,
    pub lines: Vec<u8>,
    // What stays of the events, where that is kept.
    pub staying: Option<KeyedStaying>,
}

impl KeyedTold {
    ghost use Rattle.std.specs.Prelude.{◌≡◌, ◌++◌, [], ℕ, List, true, is_some, length, take, IfOk, IsTrue, OnOk};
    ghost use Rattle.wsm_record.specs.declared.words.Form.TheVariants.{Panes};
    ghost use Rattle.wsm_record.specs.Event.{Event as AnyEvent};
    ghost use Rattle.wsm_record.specs.Schema.{Declared};
    ghost use Rattle.wsm_semantics.specs.Query.{mark};
    ghost use Rattle.wsm_semantics.specs.Lines.{refusal_lines};
    ghost use Rattle.wsm_semantics.specs.Text.{lines_text};
    ghost use Rattle.wsm_program.specs.Program.{Program, is_program};
    ghost use Rattle.wsm_part_programs.specs.Names.{of_names};
    ghost use Rattle.wsm_part_engines.specs.Fits.{AreNamed, Fits as PartsFit};
    ghost use Rattle.wsm_log_text.specs.Needed.{IsListed};
    ghost use Rattle.wsm_keyed_told.specs.Tells.{Serves};

    /// Before the first event, by these names.
    pub fn of(alloc: Global, parts: Parts, names: KeyNames) -> KeyedTold
        requires lawful { IsTrue (is_program parts.program) }
        requires panes { parts.program.header.form ≡ Panes }
        requires fits { (all : List (List ℕ)) → PartsFit parts.program all parts [] }
        ensures serves { Serves parts.program result [] }
        ensures names { result.names ≡ names }
        ensures lines { result.lines.items ≡ [] }
    {
        KeyedTold {
            parts,
            names,
            lines: Vec::new(alloc),
            staying: None,
        }
    }

    /// Keeps what stays of the events from now on, where none came yet.
    pub fn keep(&mut self, alloc: Global)
        ensures serves { (p : Program) → Serves p self.old [] → Serves p self.new [] }
        ensures keeps { is_some self.new.staying ≡ true }
        ensures others { self.new ≡ record self.old { staying = self.new.staying } }
    {
        self.staying = Some(KeyedStaying::open(alloc, &self.parts));
    }

    /// Adds the list of the events that are needed, the oldest first, behind a text, where what stays is kept, and answers whether it
    /// is.
    ///
    /// # Errors
    ///
    /// Memory was refused. A part may have been added, and no event may be taken any more.
    pub fn save_needed(&mut self, text: &mut Vec<u8>) -> Result<bool, AllocError>
        ensures serves { (p : Program) (past : List AnyEvent) → Serves p self.old past → OnOk result (Serves p self.new past) }
        ensures saved { (p : Program) (past : List AnyEvent) → Serves p self.old past →
            IfOk result (λ is_saved. is_saved ≡ true → (all : List (List ℕ)) → AreNamed all past → IsListed (of_names p all) past text.old.items text.new.items) }
        ensures grows { OnOk result (take (length text.old.items) text.new.items ≡ text.old.items) }
        ensures is_saved { IfOk result (λ is_saved. is_saved ≡ is_some self.old.staying) }
        ensures others { self.new ≡ record self.old { staying = self.new.staying } }
    {
        match &mut self.staying {
            Some(staying) => {
                staying.add_list(text)?;
                Ok(true)
            }
            None => Ok(false),
        }
    }

    /// The watermark.
    pub fn mark(&self) -> i64
        ensures { (p : Program) (past : List AnyEvent) → Serves p self.now past → result ≡ mark (of_names p self.now.names) past }
    {
        self.parts.mark()
    }

    /// What the program declares of its records. Its keys are the places of a part.
    pub fn schema(&self) -> &Schema
        ensures { result.now ≡ self.now.parts.program.header.schema }
    {
        self.parts.schema()
    }

    // Adds the line of a refusal, if there is one.
    fn tell(&mut self, number: u64, refusal: Option<Refusal>) -> Result<(), AllocError>
        ensures lines { (declared : Declared) →
            OnOk result (self.new.lines.items ≡ self.old.lines.items ++ lines_text declared (refusal_lines number refusal)) }
        ensures others { self.new ≡ record self.old { lines = self.new.lines } }
    {
        refusal_text(number, refusal, &mut self.lines)
    }
}

impl Taker for KeyedTold {
    ghost use Rattle.wsm_keyed_told.specs.Tells.{Took, Took-join, Took-none};

    ghost took = { Took };

    ghost none = { Took-none };

    ghost join = { Took-join };

    // Takes the turn of an event, and adds its bytes. An event whose key has a number past the names is of no line that was read.
    fn take(&mut self, number: u64, event: &Event) -> Result<(), AllocError> {
        if !is_named(event, self.names.len()) {
            return Err(AllocError);
        }
        let values_fit = has_fitting_values(self.parts.schema(), event);
        let before = self.parts.mark();
        let reply = self.parts.feed_numbered(event, values_fit)?;
        let now = self.parts.mark();
        note(&mut self.staying, event, &reply, before, now)?;
        self.tell(number, reply.refusal)?;
        add_rows(&self.parts, &self.names, &mut self.lines)
    }
}

/// Whether the key of an event, if it has one, is one of so many.
pub fn is_named(event: &Event, names: usize) -> bool
    ensures { (all : List (List ℕ)) → length all ≡ names → result ≡ is_named all (event_of event.now) }
{
    match event {
        Event::Record {
            key: Some(number),
            ..
        } => (*number as usize) < names,
        Event::Record { key: None, .. } => true,
        Event::Watermark { .. } => true,
    }
}
