//! Lines read as events with their identifiers and clocks, each in place of the last.
ghost use Rattle.std.specs.Prelude.{◌≡◌, option_map};
ghost use Rattle.wsm_lines.specs.Identifier.{identifier_held};
ghost use Rattle.wsm_lines.specs.Members.{PassesSource};

use crate::fault::LineRefusal;
use crate::heading::Heading;
use crate::line::read_line;
use crate::lookup::Lookup;
use crate::name_filter::NameFilter;
use crate::reading::Reading;
use crate::room::Room;
use crate::short_text::ShortText;
use crate::source::Source;
use crate::text::bare;
use std::alloc::Global;
use wsm_record::{Event, Schema};

/// Reads lines as events with their identifiers and clocks, each in place of the last. What it needs for a
/// line keeps its room.
#[derive(Drop)]
pub struct LineReader {
    alloc: Global,
    source: Source,
    // Passes the members that the source asks for.
    filter: NameFilter,
    reading: Reading,
    // What stands above the rows, of CSV, and whether a line was read.
    heading: Heading,
    room: Room,
    ghost passes: { PassesSource filter.buckets source },
}

impl LineReader {
    ghost use Rattle.std.specs.Prelude.{◌≡◌, ◌≢◌, ◌∷◌, ℕ, List, [], IfErr, OnOk, Err, Ok, Some, option_map};
    ghost use Rattle.wsm_record.specs.Event.{event_of};
    ghost use Rattle.wsm_lines.specs.declared.source.Source.{Source};
    ghost use Rattle.wsm_lines.specs.Fault.{IfFault};
    ghost use Rattle.wsm_lines.specs.Key.{declared_by, key_text_of, no_names, with_key};
    ghost use Rattle.wsm_lines.specs.Reader.{Follows, clock_read, event_read, identifier_read, key_read};
    ghost use Rattle.wsm_lines.specs.Said.{clock_of, identifier_of, said_of};

    /// A reader by a source, that has read no line. A record without values stands there.
    pub fn new(alloc: Global, source: Source) -> LineReader
        ensures { Follows source [] result }
    {
        let filter = NameFilter::of(&source);
        LineReader {
            alloc,
            source,
            filter,
            reading: Reading {
                event: Event::Record {
                    key: None,
                    time: 0,
                    values: Vec::new(alloc),
                },
                identifier: ShortText::new(),
                clock: ShortText::new(),
                key: ShortText::new(),
            },
            heading: Heading::Unread,
            room: Room::new(alloc),
        }
    }

    /// Reads the event, the identifier and the clock of a line, which comes without its line feed, or tells
    /// the first fault. After a refusal any of them stand there.
    pub fn read(&mut self, schema: &Schema, line: &[u8]) -> Result<(), LineRefusal>
        ensures event { (s : Source) (before : List (List ℕ)) → Follows s before self.old →
            OnOk result (said_of s schema.now before line.now ≡ Ok (event_read self.new)) }
        ensures identifier { (s : Source) (before : List (List ℕ)) → Follows s before self.old →
            OnOk result (identifier_of s before line.now ≡ identifier_read self.new) }
        ensures clock { (s : Source) (before : List (List ℕ)) → Follows s before self.old → OnOk result (clock_of s before line.now ≡ clock_read self.new) }
        ensures fault { (s : Source) (before : List (List ℕ)) → Follows s before self.old →
            IfErr result (λ r. IfFault r (λ f. said_of s schema.now before line.now ≡ Err f)) }
        ensures follows { (s : Source) (before : List (List ℕ)) → Follows s before self.old → (result ≢ Err LineRefusal.Memory) →
            Follows s (line.now ∷ before) self.new }
    {
        self.read_by(Lookup::In(schema), line)
    }

    /// The same, but the text of the key isn't looked up among names: it stands there, and the event has no
    /// key, unless the source has a number for the text.
    pub fn read_unnamed(&mut self, line: &[u8]) -> Result<(), LineRefusal>
        ensures event { (s : Source) (before : List (List ℕ)) → Follows s before self.old →
            OnOk result (said_of s no_names before line.now ≡ Ok (event_read self.new)) }
        ensures key { (s : Source) (before : List (List ℕ)) → Follows s before self.old → OnOk result (key_text_of s before line.now ≡ Some (key_read self.new)) }
        ensures identifier { (s : Source) (before : List (List ℕ)) → Follows s before self.old →
            OnOk result (identifier_of s before line.now ≡ identifier_read self.new) }
        ensures clock { (s : Source) (before : List (List ℕ)) → Follows s before self.old → OnOk result (clock_of s before line.now ≡ clock_read self.new) }
        ensures fault { (s : Source) (before : List (List ℕ)) → Follows s before self.old →
            IfErr result (λ r. IfFault r (λ f. said_of s no_names before line.now ≡ Err f)) }
        ensures follows { (s : Source) (before : List (List ℕ)) → Follows s before self.old → (result ≢ Err LineRefusal.Memory) →
            Follows s (line.now ∷ before) self.new }
        ensures source { self.new.source ≡ self.old.source }
    {
        self.read_by(Lookup::Later, line)
    }

    // Reads what a line says, with its key from there.
    #[inline(always)]
    fn read_by(&mut self, lookup: Lookup<'_>, line: &[u8]) -> Result<(), LineRefusal>
        ensures event { (s : Source) (before : List (List ℕ)) → Follows s before self.old →
            OnOk result (said_of s (declared_by lookup.entry) before line.now ≡ Ok (event_read self.new)) }
        ensures key { lookup.entry ≡ Lookup.Later → (s : Source) (before : List (List ℕ)) → Follows s before self.old →
            OnOk result (key_text_of s before line.now ≡ Some (key_read self.new)) }
        ensures identifier { (s : Source) (before : List (List ℕ)) → Follows s before self.old →
            OnOk result (identifier_of s before line.now ≡ identifier_read self.new) }
        ensures clock { (s : Source) (before : List (List ℕ)) → Follows s before self.old → OnOk result (clock_of s before line.now ≡ clock_read self.new) }
        ensures fault { (s : Source) (before : List (List ℕ)) → Follows s before self.old →
            IfErr result (λ r. IfFault r (λ f. said_of s (declared_by lookup.entry) before line.now ≡ Err f)) }
        ensures follows { (s : Source) (before : List (List ℕ)) → Follows s before self.old → (result ≢ Err LineRefusal.Memory) →
            Follows s (line.now ∷ before) self.new }
        ensures source { self.new.source ≡ self.old.source }
    {
        read_line(
            self.alloc,
            &self.source,
            &self.filter,
            lookup,
            bare(line),
            &mut self.heading,
            &mut self.room,
            &mut self.reading,
        )
    }

    /// Has the event that was read last have this key.
    pub fn set_key(&mut self, number: Option<u32>)
        ensures event { event_read self.new ≡ with_key number (event_read self.old) }
        ensures identifier { identifier_read self.new ≡ identifier_read self.old }
        ensures clock { clock_read self.new ≡ clock_read self.old }
        ensures follows { (s : Source) (before : List (List ℕ)) → Follows s before self.old → Follows s before self.new }
        ensures source { self.new.source ≡ self.old.source }
    {
        if let Event::Record { key, .. } = &mut self.reading.event {
            *key = number;
        }
    }

    /// The event that was read last.
    pub fn event(&self) -> &Event
        ensures { event_of result.now ≡ event_read self.now }
    {
        &self.reading.event
    }

    /// The identifier of the line that was read last, if it has one: 1 to 255 bytes.
    pub fn identifier(&self) -> Option<&[u8]>
        ensures { option_map (λ t. t.now) result ≡ identifier_read self.now }
    {
        held(self.reading.identifier.as_slice())
    }

    /// The name of the clock that the line names which was read last, if it names one: 1 to 255 bytes.
    pub fn clock(&self) -> Option<&[u8]>
        ensures { option_map (λ t. t.now) result ≡ clock_read self.now }
    {
        held(self.reading.clock.as_slice())
    }

    /// The text of the key of the line that [`LineReader::read_unnamed`] read last: 1 to 255 bytes.
    pub fn key(&self) -> &[u8]
        ensures { result.now ≡ key_read self.now }
    {
        self.reading.key.as_slice()
    }
}

// The text that bytes keep: none where there is no byte.
fn held(bytes: &[u8]) -> Option<&[u8]>
    ensures { option_map (λ t. t.now) result ≡ identifier_held bytes.now }
{
    if bytes.is_empty() { None } else { Some(bytes) }
}
