//! The cells of a row as words.

ghost use Rattle.std.specs.Prelude.{◌≡◌, ◌≤◌, ◌/◌, ◌%◌, [], length};
ghost use Rattle.wsm_record.specs.declared.cell.Cell.TheVariants as cells;
ghost use Rattle.wsm_record.specs.declared.limits.TheConstants.{MAX_COLUMNS};
ghost use Rattle.wsm_slots.specs.RowWords.{cell_by, cells_by};
ghost use Rattle.wsm_slots.specs.RowWords as spec;

use wsm_record::{Cell, Columns};

/// The cells of a row, each as a word of 8 bytes.
#[derive(Clone, Copy)]
pub(crate) struct RowWords<'a> {
    /// Which kind of cell each is: the digits of a number in base 4, the first cell's lowest.
    pub(crate) kinds: u32,
    /// The words, from the left.
    pub(crate) words: &'a [i64],
}

impl<'a> RowWords<'a> {
    /// No cells.
    pub(crate) fn empty() -> RowWords<'a>
        ensures { result.words.now ≡ [] }
    {
        RowWords {
            kinds: 0,
            words: &[],
        }
    }

    /// Has columns of the cells where there are none.
    pub(crate) fn fill(&self, columns: &mut Columns)
        requires empty { columns.old ≡ [] }
        requires few { length self.now.words.now ≤ MAX_COLUMNS }
        ensures { columns.new ≡ cells_by self.now.kinds self.now.words.now }
    {
        let mut kinds = self.kinds;
        for word in self.words {
            columns.push(cell_of(kinds % 4, *word));
            kinds /= 4;
        }
    }
}

/// Writes the cells of a row as words, and tells their kinds.
pub(crate) fn write_cells(words: &mut [i64], cells: &[Cell]) -> u32
    requires few { length cells.now ≤ MAX_COLUMNS }
    requires room { length words.old ≡ length cells.now }
    ensures room { length words.new ≡ length words.old }
    ensures cells { cells_by result words.new ≡ cells.now }
{
    let mut kinds = 0;
    for place in (0..cells.len()).rev() {
        let cell = cells[place];
        words[place] = word_of(cell);
        kinds = kinds * 4 + kind_of(cell);
    }
    kinds
}

// The number of a cell's kind.
fn kind_of(cell: Cell) -> u32
    ensures { result ≡ spec.kind_of cell }
{
    match cell {
        Cell::Int(_) => 0,
        Cell::Bool(_) => 1,
        Cell::Enum(_, _) => 2,
    }
}

// The word of a cell.
fn word_of(cell: Cell) -> i64
    ensures { cell_by (spec.kind_of cell) result ≡ cell }
{
    match cell {
        Cell::Int(number) => number,
        Cell::Bool(truth) => i64::from(truth),
        Cell::Enum(number, name) => i64::from(u32::from(number) * 65_536 + u32::from(name)),
    }
}

// The cell of a kind that a word stands for.
fn cell_of(kind: u32, word: i64) -> Cell
    ensures { result ≡ cell_by kind word }
{
    match kind {
        0 => Cell::Int(word),
        1 => Cell::Bool(word != 0),
        _ => name_of(word.unsigned_abs()),
    }
}

// The name of an ENUM that a number stands for.
fn name_of(number: u64) -> Cell
    ensures { result ≡ cells.Enum (number / 65536 % 256) (number % 65536) }
{
    Cell::Enum((number / 65_536 % 256) as u8, (number % 65_536) as u16)
}
