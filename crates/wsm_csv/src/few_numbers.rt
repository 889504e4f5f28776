//! Columns that are a few numbers, written together from their end on.

ghost use Rattle.std.specs.Prelude.{◌≡◌, ◌≤◌, ◌+◌, ◌*◌, ◌++◌, ◌∷◌, true, drop, length, map, take};
ghost use Rattle.std.specs.List.{list_all};
ghost use Rattle.wsm_csv.specs.Lines.{cells_text, is_a_number, number_text};

use crate::from_end::{CELL, write_cell};
use wsm_record::Cell;

/// How many numbers of a row are written together with its window.
pub(crate) const TOGETHER: usize = 4;

/// The most bytes of a window and those numbers.
pub(crate) const CELLS: usize = (2 + TOGETHER) * CELL;

/// How many numbers columns begin with, of those that are written together.
#[tactic(auto, using(crate::proofs::LineLemmas::numbers_more))]
pub(crate) fn count_numbers(columns: &[Cell]) -> usize
    ensures few { result ≤ TOGETHER }
    ensures within { result ≤ length columns.now }
    ensures numbers { list_all is_a_number (take result columns.now) ≡ true }
{
    let most = columns.len().min(TOGETHER);
    for place in 0..most {
        if !is_number(columns[place]) {
            return place;
        }
    }
    most
}

/// Whether columns are numbers, and no more than are written together.
pub(crate) fn are_few_numbers(columns: &[Cell]) -> bool
    ensures few { result ≡ true → length columns.now ≤ TOGETHER }
    ensures numbers { result ≡ true → list_all is_a_number columns.now ≡ true }
{
    count_numbers(columns) == columns.len()
}

fn is_number(column: Cell) -> bool
    ensures { result ≡ is_a_number column }
{
    matches!(column, Cell::Int(_))
}

/// Writes a comma and a number for each of some numbers so that they end at a place, and tells where
/// they begin.
#[inline(always)]
pub(crate) fn write_numbers(numbers: &[Cell], cells: &mut [u8], end: usize) -> usize
    requires numbers { list_all is_a_number numbers.now ≡ true }
    requires room { length numbers.now * CELL ≤ end }
    requires within { end ≤ length cells.old }
    ensures start { end ≤ result + length numbers.now * CELL }
    ensures begins { result ≤ end }
    ensures written { drop result cells.new ≡ cells_text (map number_text numbers.now) ++ drop end cells.old }
{
    let mut start = end;
    for place in (0..numbers.len()).rev() {
        start = write_column(numbers[place], cells, start);
    }
    start
}

// Writes a comma and a number so that they end at a place, and tells where they begin.
#[inline(always)]
fn write_column(number: Cell, cells: &mut [u8], end: usize) -> usize
    requires number { is_a_number number ≡ true }
    requires room { CELL ≤ end }
    requires within { end ≤ length cells.old }
    ensures start { end ≤ result + CELL }
    ensures begins { result ≤ end }
    ensures written { drop result cells.new ≡ 44 ∷ number_text number ++ drop end cells.old }
{
    match number {
        Cell::Int(number) => write_cell(number, cells, end),
        _ => end,
    }
}
