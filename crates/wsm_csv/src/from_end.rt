//! Cells that are written from their end on, into a buffer.
//!
//! A number's digits are made from the last one on, so a row whose cells are written so needs no copy
//! of them.

ghost use Rattle.std.specs.Prelude.{◌≡◌, ◌≤◌, ◌<ℤ◌, ◌+◌, ◌++◌, ◌∷◌, drop, length, pos};
ghost use Rattle.std.specs.Fmt.{signed_decimal};

use itoa::write_digits;

/// The most bytes of a comma and a number behind it, with its sign.
pub(crate) const CELL: usize = 21;

/// Writes a comma and a number so that they end at a place, and tells where they begin.
#[inline(always)]
pub(crate) fn write_cell(number: i64, cells: &mut [u8], end: usize) -> usize
    requires room { CELL ≤ end }
    requires within { end ≤ length cells.old }
    ensures start { end ≤ result + CELL }
    ensures begins { result ≤ end }
    ensures written { drop result cells.new ≡ 44 ∷ signed_decimal number ++ drop end cells.old }
{
    let start = write_number(number, cells, end) - 1;
    cells[start] = b',';
    start
}

// Writes a number so that it ends at a place, and tells where it begins.
#[inline(always)]
fn write_number(number: i64, cells: &mut [u8], end: usize) -> usize
    requires room { CELL ≤ end }
    requires within { end ≤ length cells.old }
    ensures start { end + 1 ≤ result + CELL }
    ensures begins { result ≤ end }
    ensures written { drop result cells.new ≡ signed_decimal number ++ drop end cells.old }
{
    if number < 0 {
        return write_negative(number, cells, end);
    }
    write_digits(number.unsigned_abs(), cells, end)
}

// Writes a minus and the digits of a number below 0 so that they end at a place, and tells where
// they begin. Few numbers are below 0, so this stands by itself.
#[inline(never)]
fn write_negative(number: i64, cells: &mut [u8], end: usize) -> usize
    requires negative { number <ℤ pos 0 }
    requires room { CELL ≤ end }
    requires within { end ≤ length cells.old }
    ensures start { end + 1 ≤ result + CELL }
    ensures begins { result ≤ end }
    ensures written { drop result cells.new ≡ signed_decimal number ++ drop end cells.old }
{
    let start = write_digits(number.unsigned_abs(), cells, end) - 1;
    cells[start] = b'-';
    start
}

/// Writes a text so that it ends at a place, and tells where it begins.
pub(crate) fn write_text(text: &[u8], cells: &mut [u8], end: usize) -> usize
    requires room { length text.now ≤ end }
    requires within { end ≤ length cells.old }
    ensures start { result + length text.now ≡ end }
    ensures written { drop result cells.new ≡ text.now ++ drop end cells.old }
{
    let start = end - text.len();
    cells[start..end].copy_from_slice(text);
    start
}
