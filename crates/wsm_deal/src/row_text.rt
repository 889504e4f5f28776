//! The text of a row, which is read back as the row.

ghost use Rattle.std.specs.Prelude.{◌≡◌, ◌<◌, ◌≤◌, ◌+◌, ◌++◌, ◌∷◌, [], ℕ, List, false, get_or, length, not, take, true, vec_capacity, vec_len, if◌then◌else◌, IfSome, OnOk};
ghost use Rattle.std.specs.List.{list_any};
ghost use Rattle.csv.specs.Records.{fields_of};
ghost use Rattle.csv.specs.Writing as csv;
ghost use Rattle.wsm_deal.specs.Adding.{Adds, AreFew};

use csv::ByteRecord;
use std::alloc::AllocError;
use std::mem;

// How many cells a row of few has at most.
const FEW: usize = 8;

// How many bytes are asked for a row of few short cells: for 15 in each and one behind it, and one for the end.
const SHORT_ROOM: usize = 16 * FEW + 1;

/// Adds the text of a row, as `csv` writes it. It is read back as the row.
///
/// # Errors
///
/// Memory was refused.
#[inline(always)]
pub fn add_row(row: &ByteRecord, out: &mut Vec<u8>) -> Result<(), AllocError>
    ensures { OnOk result (out.new.items ≡ out.old.items ++ csv.row_text csv.default_writer (fields_of row.now)) }
{
    match short_tag(row) {
        Some(tag) => add_tagged_row(tag, row, out),
        None => add_long_row(row, out),
    }
}

// The first cell of a row of three to eight cells, where it is one byte that needs no quotes, as the tag of most
// records is.
fn short_tag(row: &ByteRecord) -> Option<u8>
    ensures { IfSome result (λ tag. AreFew tag (fields_of row.now)) }
{
    if row.len() < 3 || FEW < row.len() {
        return None;
    }
    match cell_at(row, 0) {
        [tag] if is_bare(*tag) => Some(*tag),
        _ => None,
    }
}

// Adds the text of a row of three to eight cells of which the first is this byte.
#[inline(always)]
fn add_tagged_row(tag: u8, row: &ByteRecord, out: &mut Vec<u8>) -> Result<(), AllocError>
    requires few { AreFew tag (fields_of row.now) }
    ensures { OnOk result (out.new.items ≡ out.old.items ++ csv.row_text csv.default_writer (fields_of row.now)) }
{
    let start = out.len();
    make_short_room(out)?;
    if add_short_row(tag, row, out) {
        return Ok(());
    }
    out.truncate(start);
    add_long_row(row, out)
}

// Has room for the text of a row of short cells.
fn make_short_room(out: &mut Vec<u8>) -> Result<(), AllocError>
    ensures same { out.new.items ≡ out.old.items }
    ensures room { OnOk result (vec_len out.new + SHORT_ROOM ≤ vec_capacity out.new) }
{
    if out.capacity() - out.len() < SHORT_ROOM {
        out.reserve(SHORT_ROOM)?;
    }
    Ok(())
}

// Adds the text of a row of three to eight cells of which the first is this byte, where the others are short and
// need no quotes, as in most records, and answers whether it did. Of another one a part may be added.
#[inline(always)]
fn add_short_row(tag: u8, row: &ByteRecord, out: &mut Vec<u8>) -> bool
    requires few { AreFew tag (fields_of row.now) }
    requires room { vec_len out.old + SHORT_ROOM ≤ vec_capacity out.old }
    ensures { Adds result (csv.row_text csv.default_writer (fields_of row.now)) out.old.items out.new.items }
{
    let empty = Vec::new(*out.allocator());
    let (is_short, text) = with_short_row(tag, row, mem::replace(out, empty));
    // What is let go is empty, so it holds no memory.
    mem::forget(mem::replace(out, text));
    is_short
}

// The same to a text by value, whose length can stay in a register. Four cells, as most records have, take no loop.
#[inline(always)]
fn with_short_row(tag: u8, row: &ByteRecord, mut text: Vec<u8>) -> (bool, Vec<u8>)
    requires few { AreFew tag (fields_of row.now) }
    requires room { vec_len text + SHORT_ROOM ≤ vec_capacity text }
    ensures { Adds result.0 (csv.row_text csv.default_writer (fields_of row.now)) text.items result.1.items }
{
    if !add_three(tag, row, &mut text) {
        return (false, text);
    }
    let cells = row.len();
    if cells == 4 {
        let is_short = add_short(cell_at(row, 3), b'\n', &mut text);
        return (is_short, text);
    }
    for place in 3..cells {
        if !add_short(cell_at(row, place), b',', &mut text) {
            return (false, text);
        }
    }
    end_line(&mut text);
    (true, text)
}

// Adds the first three cells of a row, of which the first is this byte, where the others are short and need no
// quotes, with a comma behind each, and answers whether it did. Of others a part may be added.
#[inline(always)]
fn add_three(tag: u8, row: &ByteRecord, out: &mut Vec<u8>) -> bool
    requires cells { 3 ≤ length (fields_of row.now) }
    requires tag { csv.field_text csv.default_writer (get_or (fields_of row.now) 0 []) ≡ tag ∷ [] }
    requires room { vec_len out.old + 48 ≤ vec_capacity out.old }
    ensures room { (vec_len out.new ≤ vec_len out.old + 48) × (vec_capacity out.new ≡ vec_capacity out.old) }
    ensures adds { Adds result (csv.row_body csv.default_writer (take 3 (fields_of row.now)) ++ 44 ∷ []) out.old.items out.new.items }
{
    push_two(tag, b',', out);
    if !add_short(cell_at(row, 1), b',', out) {
        return false;
    }
    add_short(cell_at(row, 2), b',', out)
}

// Ends a row in the place of the comma behind its last cell.
fn end_line(out: &mut Vec<u8>)
    requires { vec_len out.old < vec_capacity out.old }
    ensures { (line : List ℕ) → out.old.items ≡ line ++ 44 ∷ [] → out.new.items ≡ line ++ 10 ∷ [] }
{
    let _comma = out.pop();
    out.push_reserved(b'\n');
}

// Adds a cell of 15 bytes or less that needs no quotes, and a byte behind it, and answers whether it did.
#[inline(always)]
fn add_short(cell: &[u8], end: u8, out: &mut Vec<u8>) -> bool
    requires { vec_len out.old + 16 ≤ vec_capacity out.old }
    ensures room { (vec_len out.new ≤ vec_len out.old + 16) × (vec_capacity out.new ≡ vec_capacity out.old) }
    ensures adds { Adds result (csv.field_text csv.default_writer cell.now ++ end ∷ []) out.old.items out.new.items }
{
    let behind_four = add_four(cell, out);
    let behind_eight = add_four(behind_four, out);
    let rest = add_four(behind_eight, out);
    add_few(rest, end, out)
}

// Adds the first four bytes of a cell at once, where there are so many and none needs quotes, and gives the rest.
#[inline(always)]
fn add_four<'a>(cell: &'a [u8], out: &mut Vec<u8>) -> &'a [u8]
    requires { vec_len out.old + 4 ≤ vec_capacity out.old }
    ensures room { (vec_len out.new ≤ vec_len out.old + 4) × (vec_capacity out.new ≡ vec_capacity out.old) }
    ensures text { out.new.items ++ result.now ≡ out.old.items ++ cell.now }
    ensures needs { csv.needs_quotes csv.default_writer result.now ≡ csv.needs_quotes csv.default_writer cell.now }
    ensures kept { take (length out.old.items) out.new.items ≡ out.old.items }
{
    match cell {
        [a, b, c, d, rest @ ..] if are_bare(*a, *b, *c, *d) => {
            push_four(*a, *b, *c, *d, out);
            rest
        }
        _ => cell,
    }
}

// Adds a cell of three bytes or less that needs no quotes, and a byte behind it, and answers whether it did.
// Of another one nothing is added.
#[inline(always)]
fn add_few(cell: &[u8], end: u8, out: &mut Vec<u8>) -> bool
    requires { vec_len out.old + 4 ≤ vec_capacity out.old }
    ensures room { (vec_len out.new ≤ vec_len out.old + 4) × (vec_capacity out.new ≡ vec_capacity out.old) }
    ensures all { out.new.items ≡ (if result then out.old.items ++ (cell.now ++ end ∷ []) else out.old.items) }
    ensures needs { result ≡ true → csv.needs_quotes csv.default_writer cell.now ≡ false }
{
    match cell {
        [] => {
            out.push_reserved(end);
            true
        }
        [a] if is_bare(*a) => {
            push_two(*a, end, out);
            true
        }
        [a, b] if is_bare(*a) && is_bare(*b) => {
            push_three(*a, *b, end, out);
            true
        }
        [a, b, c] if is_bare(*a) && is_bare(*b) && is_bare(*c) => {
            push_four(*a, *b, *c, end, out);
            true
        }
        _ => false,
    }
}

// Whether no byte of four needs quotes, where it is told at once.
fn are_bare(a: u8, b: u8, c: u8, d: u8) -> bool
    ensures { result ≡ true → (rest : List ℕ) → csv.needs_quotes csv.default_writer (a ∷ b ∷ c ∷ d ∷ rest) ≡ csv.needs_quotes csv.default_writer rest }
{
    is_bare(a) & is_bare(b) & is_bare(c) & is_bare(d)
}

// Whether a byte is past all that need quotes.
fn is_bare(byte: u8) -> bool
    ensures { result ≡ true → csv.needs_byte csv.default_writer byte ≡ false }
{
    b',' < byte
}

// Adds two bytes, where there is room for them.
fn push_two(a: u8, b: u8, out: &mut Vec<u8>)
    requires { vec_len out.old + 2 ≤ vec_capacity out.old }
    ensures room { (vec_len out.new ≡ vec_len out.old + 2) × (vec_capacity out.new ≡ vec_capacity out.old) }
    ensures items { out.new.items ≡ out.old.items ++ (a ∷ b ∷ []) }
{
    out.push_reserved(a);
    out.push_reserved(b);
}

// Adds three.
fn push_three(a: u8, b: u8, c: u8, out: &mut Vec<u8>)
    requires { vec_len out.old + 3 ≤ vec_capacity out.old }
    ensures room { (vec_len out.new ≡ vec_len out.old + 3) × (vec_capacity out.new ≡ vec_capacity out.old) }
    ensures items { out.new.items ≡ out.old.items ++ (a ∷ b ∷ c ∷ []) }
{
    push_two(a, b, out);
    out.push_reserved(c);
}

// Adds four.
fn push_four(a: u8, b: u8, c: u8, d: u8, out: &mut Vec<u8>)
    requires { vec_len out.old + 4 ≤ vec_capacity out.old }
    ensures room { (vec_len out.new ≡ vec_len out.old + 4) × (vec_capacity out.new ≡ vec_capacity out.old) }
    ensures items { out.new.items ≡ out.old.items ++ (a ∷ b ∷ c ∷ d ∷ []) }
{
    push_two(a, b, out);
    push_two(c, d, out);
}

// Adds the text of a row that may have any number of cells, long ones too.
fn add_long_row(row: &ByteRecord, out: &mut Vec<u8>) -> Result<(), AllocError>
    ensures { OnOk result (out.new.items ≡ out.old.items ++ csv.row_text csv.default_writer (fields_of row.now)) }
{
    let start = out.len();
    make_room(row, out)?;
    if add_plain_row(row, out) {
        return Ok(());
    }
    out.truncate(start);
    add_any_row(row, out)
}

// Has room for the text of a row without quotes.
fn make_room(row: &ByteRecord, out: &mut Vec<u8>) -> Result<(), AllocError>
    ensures { out.new.items ≡ out.old.items }
{
    let need = row.as_slice().len().saturating_add(row.len());
    if out.capacity() - out.len() < need {
        out.reserve(need)?;
    }
    Ok(())
}

// Adds the text of a row of two cells or more that needs no quotes, where there is room for it, and answers
// whether it did. Of another one a part may be added.
fn add_plain_row(row: &ByteRecord, out: &mut Vec<u8>) -> bool
    ensures { Adds result (csv.row_text csv.default_writer (fields_of row.now)) out.old.items out.new.items }
{
    let empty = Vec::new(*out.allocator());
    let (is_plain, text) = with_plain_row(row, mem::replace(out, empty));
    mem::replace(out, text).destroy_empty();
    is_plain
}

// The same to a text by value, whose length can stay in a register.
fn with_plain_row(row: &ByteRecord, mut text: Vec<u8>) -> (bool, Vec<u8>)
    ensures { Adds result.0 (csv.row_text csv.default_writer (fields_of row.now)) text.items result.1.items }
{
    if row.len() < 2 || !add_plain_cell(cell_at(row, 0), &mut text) {
        return (false, text);
    }
    for place in 1..row.len() {
        if !add_next_cell(cell_at(row, place), &mut text) {
            return (false, text);
        }
    }
    text.push_reserved(b'\n');
    (true, text)
}

// Adds a comma and a cell, as the next one does.
fn add_next_cell(cell: &[u8], out: &mut Vec<u8>) -> bool
    requires { vec_len out.old < vec_capacity out.old }
    ensures adds { Adds result (44 ∷ csv.field_text csv.default_writer cell.now) out.old.items out.new.items }
    ensures room { result ≡ true → vec_len out.new < vec_capacity out.new }
{
    out.push_reserved(b',');
    add_plain_cell(cell, out)
}

// Adds a cell that needs no quotes, where it leaves room for a byte, and answers whether it did.
fn add_plain_cell(cell: &[u8], out: &mut Vec<u8>) -> bool
    ensures adds { Adds result (csv.field_text csv.default_writer cell.now) out.old.items out.new.items }
    ensures room { result ≡ true → vec_len out.new < vec_capacity out.new }
{
    out.capacity() - out.len() > cell.len() && add_plain(cell, out)
}

// Adds the bytes of a cell, up to the first that needs quotes, and answers whether there is none.
fn add_plain(cell: &[u8], out: &mut Vec<u8>) -> bool
    requires { vec_len out.old + length cell.now ≤ vec_capacity out.old }
    ensures room { (vec_len out.new ≤ vec_len out.old + length cell.now) × (vec_capacity out.new ≡ vec_capacity out.old) }
    ensures adds { Adds result cell.now out.old.items out.new.items }
    ensures needs { result ≡ not (csv.needs_quotes csv.default_writer cell.now) }
{
    for place in 0..cell.len() {
        let byte = cell[place];
        if needs_byte(byte) {
            return false;
        }
        out.push_reserved(byte);
    }
    true
}

// Adds the text of any row.
#[inline(never)]
fn add_any_row(row: &ByteRecord, out: &mut Vec<u8>) -> Result<(), AllocError>
    ensures { OnOk result (out.new.items ≡ out.old.items ++ csv.row_text csv.default_writer (fields_of row.now)) }
{
    for place in 0..row.len() {
        add_cell(place, cell_at(row, place), out)?;
    }
    end_row(row, out)
}

// The cell at a place that the row has.
fn cell_at(row: &ByteRecord, place: usize) -> &[u8]
    requires { place < length (fields_of row.now) }
    ensures { result.now ≡ get_or (fields_of row.now) place [] }
{
    row.get(place).unwrap()
}

// Adds the text of the cell at a place, and a comma in front of each but the first.
fn add_cell(place: usize, cell: &[u8], out: &mut Vec<u8>) -> Result<(), AllocError>
    ensures { OnOk result (out.new.items ≡ out.old.items ++ (csv.next_sep csv.default_writer place ++ csv.field_text csv.default_writer cell.now)) }
{
    if place != 0 {
        out.push(b',')?;
    }
    add_field(cell, out)
}

fn add_field(cell: &[u8], out: &mut Vec<u8>) -> Result<(), AllocError>
    ensures { OnOk result (out.new.items ≡ out.old.items ++ csv.field_text csv.default_writer cell.now) }
{
    if needs_quotes(cell) {
        return add_quoted(cell, out);
    }
    out.extend_from_slice(cell)
}

fn needs_quotes(cell: &[u8]) -> bool
    ensures { result ≡ csv.needs_quotes csv.default_writer cell.now }
{
    cell.iter().any(|byte| needs_byte(*byte))
}

fn needs_byte(byte: u8) -> bool
    ensures { result ≡ csv.needs_byte csv.default_writer byte }
{
    byte == b',' || byte == b'"' || byte == b'\r' || byte == b'\n'
}

#[inline(never)]
fn add_quoted(cell: &[u8], out: &mut Vec<u8>) -> Result<(), AllocError>
    ensures { OnOk result (out.new.items ≡ out.old.items ++ csv.quoted csv.default_writer cell.now) }
{
    out.push(b'"')?;
    for byte in cell {
        add_escaped(*byte, out)?;
    }
    Ok(out.push(b'"')?)
}

// Adds a byte that stands between quotes.
fn add_escaped(byte: u8, out: &mut Vec<u8>) -> Result<(), AllocError>
    ensures { OnOk result (out.new.items ≡ out.old.items ++ csv.escaped csv.default_writer (byte ∷ [])) }
{
    if byte == b'"' {
        out.push(b'"')?;
    }
    Ok(out.push(byte)?)
}

// Ends a row, with two quotes where it shows no byte.
fn end_row(row: &ByteRecord, out: &mut Vec<u8>) -> Result<(), AllocError>
    ensures { OnOk result (out.new.items ≡ out.old.items ++ ((if csv.is_blank csv.default_writer (fields_of row.now) then 34 ∷ 34 ∷ [] else []) ++ 10 ∷ [])) }
{
    if is_blank(row) {
        out.extend_from_slice(b"\"\"")?;
    }
    Ok(out.push(b'\n')?)
}

#[tactic(auto, using(crate::proofs::RowTexts::blank_of_more))]
fn is_blank(row: &ByteRecord) -> bool
    ensures { result ≡ csv.is_blank csv.default_writer (fields_of row.now) }
{
    match row.len() {
        0 => true,
        1 => cell_at(row, 0).is_empty(),
        _ => false,
    }
}
