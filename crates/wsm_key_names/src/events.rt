//! Rows read as events of keys that names are learned of.

ghost use Rattle.std.specs.Prelude.{◌≡◌, ◌∷◌, ℕ, List, bytes_eq, option_map};
ghost use Rattle.csv.specs.Records.{fields_of};
ghost use Rattle.wsm_csv.specs.Cells.{record_tag};
ghost use Rattle.wsm_key_names.specs.Reading.{key_cell};

use crate::names::KeyNames;
use csv::ByteRecord;
use std::alloc::Global;
use std::marker::Model;
use wsm_csv::{EventReader, RowRefusal};
use wsm_record::{Event, Schema};

/// Reads rows as events, each in place of the last, by any number of names. Names are of parts of so many,
/// in their order. An event that was read has its key by its place in a part, and a key that has no name is
/// none. A clause sees the event by its number too.
#[derive(Drop)]
pub struct NamedEvents {
    names: KeyNames,
    // There may be so many names.
    most: u32,
    // So many names are of a part.
    block: u32,
    // The part of the event that was read last.
    part: u32,
    events: EventReader,
}

impl Model for NamedEvents {
    ghost use Rattle.std.specs.Prelude.{◌<◌, ◌≤◌, ◌^◌};
    ghost use Rattle.wsm_csv.specs.EventReader.{event_read, fits_read};
    ghost use Rattle.wsm_key_names.specs.Reading.{Reading};

    ghost Value = { Reading };

    ghost view = { λ a. record { names = a.names; most = a.most; block = a.block; part = a.part; event = event_read a.events; fits = fits_read a.events } };

    ghost invariant = { λ a. (0 < a.block) × (a.block ≤ 2 ^ 16) };
}

impl NamedEvents {
    ghost use Rattle.std.specs.Prelude.{◌≡◌, ◌≢◌, ◌<◌, ◌≤◌, ◌^◌, true, IfErr, OnOk, Err, Ok, Some};
    ghost use Rattle.csv.specs.Records.{fields_of};
    ghost use Rattle.wsm_record.specs.Event.{event_of};
    ghost use Rattle.wsm_admission.specs.Clock.{fits_declared};
    ghost use Rattle.wsm_csv.specs.Cells.{event_of_cells};
    ghost use Rattle.wsm_csv.specs.KeyedRows.{event_as};
    ghost use Rattle.wsm_csv.specs.Refused.{IfFault};
    ghost use Rattle.wsm_key_names.specs.Reading.{IsInBlock, by_names, is_named, key_cell, names_after, numbered};

    /// A reader by these names that has read no row. Names are learned as long as there are fewer than so
    /// many: with 0 none is. A part has so many names, in their order.
    pub fn new(alloc: Global, names: KeyNames, most: u32, block: u32) -> NamedEvents
        requires { (0 < block) × (block ≤ 2 ^ 16) }
        ensures names { result.names ≡ names }
        ensures most { result.most ≡ most }
        ensures block { result.block ≡ block }
    {
        NamedEvents {
            names,
            most,
            block,
            part: 0,
            events: EventReader::new(alloc),
        }
    }

    /// Reads the event of a row. A record teaches its name where this is a new one and may be learned; a row
    /// that is no event teaches none. After a refusal any event stands there.
    ///
    /// # Errors
    ///
    /// The first fault from the left, which no name has a part in. After want of memory it isn't said which
    /// of the names that may have come is there.
    pub fn read(&mut self, schema: &Schema, row: &ByteRecord) -> Result<(), RowRefusal>
        ensures event { OnOk result (event_of_cells (by_names self.new.names schema.now) (fields_of row.now) ≡ Ok (numbered self.new)) }
        ensures place { OnOk result (IsInBlock self.old.block self.new.event) }
        ensures named { OnOk result (is_named self.new.names (numbered self.new) ≡ true) }
        ensures fits { OnOk result (self.new.fits ≡ fits_declared schema.now self.new.event) }
        ensures fault { IfErr result (λ r. IfFault r (λ f. event_of_cells (by_names self.new.names schema.now) (fields_of row.now) ≡ Err f)) }
        ensures names { result ≢ Err RowRefusal.Memory → self.new.names ≡ names_after self.old.most schema.now self.old.names (fields_of row.now) }
        ensures kept { (self.new.most ≡ self.old.most) × (self.new.block ≡ self.old.block) }
    {
        match key_of(row) {
            Some(name) => match self.names.number_of(name) {
                Some(number) => self.read_numbered(schema, row, number),
                None => self.read_unknown(schema, row, name),
            },
            None => self.events.read_as(schema, row, None),
        }
    }

    // Reads the event of a row whose key has a number.
    #[inline(always)]
    fn read_numbered(
        &mut self,
        schema: &Schema,
        row: &ByteRecord,
        number: u32,
    ) -> Result<(), RowRefusal>
        ensures event { OnOk result (event_as schema.now (Some number) (fields_of row.now) ≡ Ok (numbered self.new)) }
        ensures place { OnOk result (IsInBlock self.old.block self.new.event) }
        ensures fits { OnOk result (self.new.fits ≡ fits_declared schema.now self.new.event) }
        ensures fault { IfErr result (λ r. IfFault r (λ f. event_of_cells schema.now (fields_of row.now) ≡ Err f)) }
        ensures names { self.new.names ≡ self.old.names }
        ensures kept { (self.new.most ≡ self.old.most) × (self.new.block ≡ self.old.block) }
    {
        self.part = number / self.block;
        let place = number % self.block;
        self.events.read_as(schema, row, Some(place))
    }

    // Reads the event of a record whose key has no number so far.
    #[cold]
    fn read_unknown(
        &mut self,
        schema: &Schema,
        row: &ByteRecord,
        name: &[u8],
    ) -> Result<(), RowRefusal>
        requires { key_cell (fields_of row.now) ≡ Some name.now }
        ensures event { OnOk result (event_of_cells (by_names self.new.names schema.now) (fields_of row.now) ≡ Ok (numbered self.new)) }
        ensures place { OnOk result (IsInBlock self.old.block self.new.event) }
        ensures fits { OnOk result (self.new.fits ≡ fits_declared schema.now self.new.event) }
        ensures fault { IfErr result (λ r. IfFault r (λ f. event_of_cells schema.now (fields_of row.now) ≡ Err f)) }
        ensures names { result ≢ Err RowRefusal.Memory → self.new.names ≡ names_after self.old.most schema.now self.old.names (fields_of row.now) }
        ensures kept { (self.new.most ≡ self.old.most) × (self.new.block ≡ self.old.block) }
    {
        self.events.read_as(schema, row, None)?;
        match self.names.number_or_next(name, self.most)? {
            Some(number) => self.read_numbered(schema, row, number),
            None => Ok(()),
        }
    }

    /// The part of the event that was read last. Of a watermark, or a record of no key, it is of no account.
    pub fn part(&self) -> u32
        ensures { result ≡ self.now.part }
    {
        self.part
    }

    /// The event that was read last, with its key by its place in the part.
    pub fn event(&self) -> &Event
        ensures { event_of result.now ≡ self.now.event }
    {
        self.events.event()
    }

    /// Whether the values of the event that was read last fit the schema that it was read by. A watermark
    /// has none to judge.
    pub fn values_fit(&self) -> bool
        ensures { result ≡ self.now.fits }
    {
        self.events.values_fit()
    }

    /// The names so far.
    pub fn names(&self) -> &KeyNames
        ensures { result.now ≡ self.now.names }
    {
        &self.names
    }
}

// The cell of a row that has the name of its key, where it may be a record.
fn key_of(row: &ByteRecord) -> Option<&[u8]>
    ensures { option_map (λ s. s.now) result ≡ key_cell (fields_of row.now) }
{
    match row.get(0) {
        Some(tag) => key_behind(tag, row),
        None => None,
    }
}

// The same by its tag.
fn key_behind<'a>(tag: &[u8], row: &'a ByteRecord) -> Option<&'a [u8]>
    ensures { (cells : List (List ℕ)) → fields_of row.now ≡ tag.now ∷ cells → option_map (λ s. s.now) result ≡ key_cell (tag.now ∷ cells) }
{
    if is_record_tag(tag) { row.get(1) } else { None }
}

fn is_record_tag(tag: &[u8]) -> bool
    ensures { result ≡ bytes_eq tag.now record_tag }
{
    match tag {
        b"r" => true,
        _ => false,
    }
}
