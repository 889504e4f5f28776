//! What a source says, with what it leaves out filled in.

ghost use Rattle.std.specs.Prelude.{◌≡◌};

use std::marker::Model;
use wsm_values::{Fold, Unit, Word};

/// What form a line has.
#[derive(Clone, Copy, Debug, PartialEq, Eq)]
pub enum Format {
    /// A text of JSON.
    Json,
    /// A line of the combined access form.
    Access,
    /// A row of CSV, with this byte between its cells.
    Csv(u8),
    /// A row as a run of a query takes it: `r`, the key, the time, and a cell for each field.
    Rows,
}

/// A text, and the name that it stands for.
#[derive(Drop)]
pub struct Entry {
    pub text: Word,
    pub name: Word,
}

/// Texts and what they stand for, in their order.
#[derive(Drop)]
pub struct Entries {
    items: Vec<Entry>,
}

impl Model for Entries {
    ghost use Rattle.std.specs.Prelude.{List};
    ghost use Rattle.wsm_description.specs.declared.description.Entry.{Entry};

    ghost Value = { List Entry };

    ghost view = { λ a. a.items.items };
}

impl Entries {
    /// Of these entries.
    pub fn new(items: Vec<Entry>) -> Entries
        ensures { result ≡ items.items }
    {
        Entries { items }
    }

    /// The entries.
    pub fn items(&self) -> &[Entry]
        ensures { result.now ≡ self.now }
    {
        self.items.as_slice()
    }
}

/// Which key a text names.
#[derive(Drop)]
pub enum KeyNaming {
    /// The text is the key's name.
    Same,
    /// The file of this name has it, or it is the other one.
    File {
        file: Word,
        other: Option<Word>,
    },
    /// That of the first of these that the text begins with, or the other one. The greater text stands
    /// in front of the smaller, so of those that fit it is the longest.
    Prefixes {
        entries: Entries,
        other: Option<Word>,
    },
}

/// Where the key stands, and how its text names it.
#[derive(Drop)]
pub struct KeyDescription {
    pub at: Word,
    pub naming: KeyNaming,
}

/// How a time is written.
#[derive(Drop)]
pub enum FormDescription {
    /// A date, a time and an offset by RFC 3339.
    Instant,
    /// A whole number of such units since 1970.
    Epoch(Unit),
    /// Seconds since 1970, with at most nine digits of a fraction.
    Fraction,
    /// By a pattern that has an offset or an instant.
    Stamped(Word),
    /// By a pattern that has neither, in the zone of this name.
    Local {
        pattern: Word,
        zone: Word,
        fold: Fold,
    },
}

/// Where the time stands, and how it is written. The unit is that of the query's clock.
#[derive(Drop)]
pub struct TimeDescription {
    pub at: Word,
    pub form: FormDescription,
    pub unit: Unit,
}

/// How a decimal is written, as far as it is said: how many digits behind the point count, the point,
/// and what stands between groups of digits.
#[derive(Clone, Copy)]
pub struct DecimalDescription {
    pub scale: Option<u8>,
    pub point: Option<u8>,
    pub group: Option<u8>,
}

/// What a field is where a line hasn't got it.
#[derive(Drop)]
pub enum DefaultValue {
    Whole(i64),
    Truth(bool),
    Name(Word),
}

/// The words for true and false.
#[derive(Drop)]
pub struct Truths {
    pub yes: Word,
    pub no: Word,
}

/// What is said of a field. It stands under its own name where no place is said.
#[derive(Drop)]
pub struct FieldDescription {
    pub name: Word,
    pub at: Word,
    pub decimal: DecimalDescription,
    pub default: Option<DefaultValue>,
    pub truths: Option<Truths>,
    pub words: Option<Entries>,
}

/// What is said of fields, in the order of their names.
#[derive(Drop)]
pub struct FieldDescriptions {
    items: Vec<FieldDescription>,
}

impl Model for FieldDescriptions {
    ghost use Rattle.std.specs.Prelude.{List};
    ghost use Rattle.wsm_description.specs.declared.description.FieldDescription.{FieldDescription};

    ghost Value = { List FieldDescription };

    ghost view = { λ a. a.items.items };
}

impl FieldDescriptions {
    /// Of these fields.
    pub fn new(items: Vec<FieldDescription>) -> FieldDescriptions
        ensures { result ≡ items.items }
    {
        FieldDescriptions { items }
    }

    /// The fields.
    pub fn items(&self) -> &[FieldDescription]
        ensures { result.now ≡ self.now }
    {
        self.items.as_slice()
    }
}

/// Where a line names the clock of its record, and how many clocks there may be.
#[derive(Drop)]
pub struct NamedClocks {
    pub at: Word,
    pub most: u64,
}

/// How clocks make watermarks, in units of the query's clock: how many agree, how far a record may be
/// late, how far a watermark rises at least, how many records a clock counts for, and how many records
/// may wait that are too far ahead of the watermark.
#[derive(Drop)]
pub struct ClockDescription {
    pub agree: u64,
    pub bound: u64,
    pub step: u64,
    pub forget: u64,
    pub room: u64,
    /// None where the clock of a record is its key.
    pub named: Option<NamedClocks>,
}

/// What a source says. Of rows the format says where the key, the time and the fields stand, and how they
/// are written: they are read plainly, each time as whole units of the query's clock.
#[derive(Drop)]
pub struct Description {
    pub format: Format,
    /// The most bytes of a line.
    pub longest: u64,
    /// The file of the names of any number of keys; none where the query has the keys.
    pub keys: Option<Word>,
    pub key: KeyDescription,
    pub time: TimeDescription,
    pub fields: FieldDescriptions,
    /// None where the source has no watermarks.
    pub clock: Option<ClockDescription>,
    /// Where a record has its identifier; none where the source says no such place.
    pub identifier: Option<Word>,
}
