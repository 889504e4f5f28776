//! Lines read as events of keys that names are learned of.

use std::alloc::{AllocError, Global};
use std::marker::Model;
use wsm_key_names::KeyNames;
use wsm_lines::{LineReader, LineRefusal, Source};
use wsm_record::Event;

/// Reads lines as events with their identifiers and clocks, each in place of the last, by any number of names, which are
/// handed in. An event that was read has its key by its number among all of them, and a key that has no name is none.
#[derive(Drop)]
pub struct NamedLines {
    // There may be so many names.
    most: u32,
    reader: LineReader,
}

impl Model for NamedLines {
    ghost use Rattle.std.specs.Prelude.{◌≡◌, true};
    ghost use Rattle.wsm_lines.specs.Key.{are_same};
    ghost use Rattle.wsm_named_lines.specs.Reading.{Reading};

    ghost Value = { Reading };

    ghost view = { λ a. record { most = a.most; reader = a.reader } };

    ghost invariant = { λ a. are_same a.reader.source.key.names ≡ true };
}

impl NamedLines {
    ghost use Rattle.std.specs.Prelude.{◌≡◌, ◌≢◌, ◌∷◌, [], ℕ, List, true, IfErr, OnErr, OnOk, Err, Ok, bytes_eq, option_map, position};
    ghost use Rattle.wsm_record.specs.Event.{event_of};
    ghost use Rattle.wsm_record.specs.Schema.{Declared};
    ghost use Rattle.wsm_key_names.specs.Names.{learned};
    ghost use Rattle.wsm_key_names.specs.Reading.{by_names, is_named};
    ghost use Rattle.wsm_lines.specs.declared.source.Source.{Source as AnySource};
    ghost use Rattle.wsm_lines.specs.Fault.{IfFault};
    ghost use Rattle.wsm_lines.specs.Key.{are_same, with_key};
    ghost use Rattle.wsm_lines.specs.Reader.{Follows, clock_read, event_read, identifier_read, key_read};
    ghost use Rattle.wsm_lines.specs.Said.{clock_of, identifier_of, said_of};
    ghost use Rattle.wsm_named_lines.specs.Names.{names_after_line};

    /// A reader by a source that has read no line. Names are learned as long as there are fewer than so many: with 0 none
    /// is.
    pub fn new(alloc: Global, source: Source, most: u32) -> NamedLines
        requires { are_same source.key.names ≡ true }
        ensures reader { Follows source [] result.reader }
        ensures most { result.most ≡ most }
    {
        NamedLines {
            most,
            reader: LineReader::new(alloc, source),
        }
    }

    /// Reads the event, the identifier and the clock of a line, which comes without its line feed. A line that says an
    /// event teaches its name where this is a new one and may be learned; one that is no event teaches none. After a
    /// refusal any of them stand there.
    ///
    /// # Errors
    ///
    /// The first fault, which no name has a part in. After want of memory the names are those that there were.
    pub fn read(&mut self, names: &mut KeyNames, line: &[u8]) -> Result<(), LineRefusal>
        ensures event { (s : AnySource) (d : Declared) (before : List (List ℕ)) → Follows s before self.old.reader →
            OnOk result (said_of s (by_names names.new d) before line.now ≡ Ok (event_read self.new.reader)) }
        ensures named { OnOk result (is_named names.new (event_read self.new.reader) ≡ true) }
        ensures identifier { (s : AnySource) (before : List (List ℕ)) → Follows s before self.old.reader →
            OnOk result (identifier_of s before line.now ≡ identifier_read self.new.reader) }
        ensures clock { (s : AnySource) (before : List (List ℕ)) → Follows s before self.old.reader →
            OnOk result (clock_of s before line.now ≡ clock_read self.new.reader) }
        ensures fault { (s : AnySource) (d : Declared) (before : List (List ℕ)) → Follows s before self.old.reader →
            IfErr result (λ r. IfFault r (λ f. said_of s d before line.now ≡ Err f)) }
        ensures names { (s : AnySource) (before : List (List ℕ)) → Follows s before self.old.reader → result ≢ Err LineRefusal.Memory →
            names.new ≡ names_after_line self.old.most s names.old before line.now }
        ensures unchanged { result ≡ Err LineRefusal.Memory → names.new ≡ names.old }
        ensures follows { (s : AnySource) (before : List (List ℕ)) → Follows s before self.old.reader → result ≢ Err LineRefusal.Memory →
            Follows s (line.now ∷ before) self.new.reader }
        ensures most { self.new.most ≡ self.old.most }
    {
        self.reader.read_unnamed(line)?;
        match names.number_of(self.reader.key()) {
            Some(number) => {
                self.reader.set_key(Some(number));
                Ok(())
            }
            None => self.learn(names),
        }
    }

    // Learns the text of the key of the event that was read last, where it may be, and numbers it.
    #[cold]
    fn learn(&mut self, names: &mut KeyNames) -> Result<(), LineRefusal>
        ensures event { OnOk result (event_read self.new.reader ≡ with_key (position (bytes_eq (key_read self.old.reader)) names.new) (event_read self.old.reader)) }
        ensures identifier { identifier_read self.new.reader ≡ identifier_read self.old.reader }
        ensures clock { clock_read self.new.reader ≡ clock_read self.old.reader }
        ensures follows { (s : AnySource) (before : List (List ℕ)) → Follows s before self.old.reader → Follows s before self.new.reader }
        ensures names { OnOk result (names.new ≡ learned self.old.most names.old (key_read self.old.reader)) }
        ensures memory { IfErr result (λ r. r ≡ LineRefusal.Memory) }
        ensures unchanged { OnErr result (names.new ≡ names.old) }
        ensures most { self.new.most ≡ self.old.most }
    {
        let number = names.number_or_next(self.reader.key(), self.most)?;
        self.reader.set_key(number);
        Ok(())
    }

    /// Reads the first line of a log whose names are known: for its heading alone, whatever it says, so it teaches no
    /// name. What a reader that goes on behind other lines begins with.
    pub fn read_first(&mut self, line: &[u8]) -> Result<(), AllocError>
        ensures follows { (s : AnySource) → Follows s [] self.old.reader → OnOk result (Follows s (line.now ∷ []) self.new.reader) }
        ensures most { self.new.most ≡ self.old.most }
    {
        match self.reader.read_unnamed(line) {
            Ok(()) => Ok(()),
            Err(LineRefusal::Fault(_)) => Ok(()),
            Err(LineRefusal::Memory) => Err(AllocError),
        }
    }

    /// The event that was read last, with its key by its number among the names.
    pub fn event(&self) -> &Event
        ensures { event_of result.now ≡ event_read self.now.reader }
    {
        self.reader.event()
    }

    /// The identifier of the line that was read last, if it has one: 1 to 255 bytes.
    pub fn identifier(&self) -> Option<&[u8]>
        ensures { option_map (λ t. t.now) result ≡ identifier_read self.now.reader }
    {
        self.reader.identifier()
    }

    /// The name of the clock that the line names which was read last, if it names one: 1 to 255 bytes.
    pub fn clock(&self) -> Option<&[u8]>
        ensures { option_map (λ t. t.now) result ≡ clock_read self.now.reader }
    {
        self.reader.clock()
    }

    /// Names are learned as long as there are fewer than so many.
    pub fn most(&self) -> u32
        ensures { result ≡ self.now.most }
    {
        self.most
    }
}
