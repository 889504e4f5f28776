//! What a source says of a line.
ghost use Rattle.std.specs.Prelude.{◌≡◌};

use crate::table::{Prefixes, Table};
use std::marker::Model;
use wsm_record::Value;
use wsm_values::{DecimalForm, TimeForm, Unit, Word};

/// Several words in their order.
#[derive(Drop)]
pub struct Words {
    items: Vec<Word>,
}

impl Model for Words {
    ghost use Rattle.std.specs.Prelude.{ℕ, List};

    ghost Value = { List (List ℕ) };

    ghost view = { λ a. a.items.items };
}

impl Words {
    /// These words.
    pub fn new(items: Vec<Word>) -> Words
        ensures { result ≡ items.items }
    {
        Words { items }
    }

    /// The words.
    pub fn items(&self) -> &[Word]
        ensures { result.now ≡ self.now }
    {
        self.items.as_slice()
    }
}

/// Where a value stands in a line.
#[derive(Drop)]
pub enum Place {
    /// Under these names of members, from the whole line inward. Of a name that comes twice the last
    /// member counts.
    Path(Words),
    /// In the cell of this number, from 0 on: of an access line's parts, of the columns that a CSV source
    /// asks for, or of a row's cells.
    Column(usize),
}

/// The form of a source's lines.
#[derive(Drop)]
pub enum Format {
    /// A value of JSON in each line.
    Json,
    /// The combined form of an access log.
    Access,
    /// A row of CSV in each line, below a header.
    Csv(CsvForm),
    /// A row of a query's own form in each line: the cell `r`, a key, a time, and a cell for each field.
    /// [`Place::Column`] counts its cells: the key is in 1, the time in 2, and the fields from 3 on.
    Rows,
}

/// How rows of CSV are written, and which columns of theirs are asked for.
#[derive(Drop)]
pub struct CsvForm {
    /// What stands between cells: no quote.
    pub separator: u8,
    /// The names of columns, as the header has them. [`Place::Column`] counts these.
    pub names: Words,
}

/// Where a key stands, and how its text names a key of the query.
#[derive(Drop)]
pub struct KeyForm {
    pub at: Place,
    pub names: KeyNames,
}

/// How a text names a key of the query.
#[derive(Drop)]
pub enum KeyNames {
    /// It is the key's name.
    Same,
    /// By a table, and where it isn't there another key, if there is one.
    Table(Table, Option<u16>),
    /// By what it begins with, and where that isn't there another key, if there is one.
    Prefixes(Prefixes, Option<u16>),
}

impl KeyNames {
    ghost use Rattle.wsm_lines.specs.Key.{are_same};

    /// Whether a key is named by its own text.
    pub fn are_same(&self) -> bool
        ensures { result ≡ are_same self.now }
    {
        matches!(self, KeyNames::Same)
    }
}

/// Where a time stands, and how it is read.
#[derive(Drop)]
pub struct TimeAt {
    pub at: Place,
    pub form: TimeForm,
    /// What the query's clock counts.
    pub unit: Unit,
}

/// The words for true and false.
#[derive(Drop)]
pub struct BoolWords {
    pub yes: Word,
    pub no: Word,
}

/// How a text becomes a value.
#[derive(Drop)]
pub enum Kind {
    /// A whole number of 64 bits.
    Whole,
    /// A number with a fraction, counted in parts. What JSON itself writes as a number has a point and
    /// no groups, whatever the form says.
    Decimal(DecimalForm),
    /// One of two words.
    Bool(BoolWords),
    /// A word of a table.
    Enum(Table),
}

/// Where the value of a field stands, and how it is read.
#[derive(Drop)]
pub struct Field {
    pub at: Place,
    pub kind: Kind,
    /// The value where nothing stands there.
    pub default: Option<Value>,
}

/// Fields in the order of the query's.
#[derive(Drop)]
pub struct Fields {
    items: Vec<Field>,
}

impl Model for Fields {
    ghost use Rattle.std.specs.Prelude.{List};
    ghost use Rattle.wsm_lines.specs.declared.source.Field.{Field};

    ghost Value = { List Field };

    ghost view = { λ a. a.items.items };
}

impl Fields {
    /// These fields.
    pub fn new(items: Vec<Field>) -> Fields
        ensures { result ≡ items.items }
    {
        Fields { items }
    }

    /// The fields.
    pub fn items(&self) -> &[Field]
        ensures { result.now ≡ self.now }
    {
        self.items.as_slice()
    }
}

/// How lines are read.
#[derive(Drop)]
pub struct Source {
    pub format: Format,
    /// How many bytes a line may have, without a carriage return at its end.
    pub longest: usize,
    pub key: KeyForm,
    pub time: TimeAt,
    pub fields: Fields,
    /// Where a record has its identifier, if the source says so. A record of which nothing stands there
    /// has none.
    pub identifier: Option<Place>,
    /// Where a line names the clock of its record, if the source says so. A line of which no text of 1 to
    /// 255 bytes stands there names none.
    pub clock: Option<Place>,
}
