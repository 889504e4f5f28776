//! The lines that are written: rows, refusals and the end, as text.
//!
//! A line is its cells with commas between them and a line feed behind. No cell needs a quote. Each
//! call adds one line to a buffer; after a refusal of memory the buffer has what it had, and perhaps
//! a beginning of the line.

ghost use Rattle.std.specs.Prelude.{◌≡◌, ◌≤◌, ◌++◌, ◌∷◌, [], Some, true, codes, length, map, option_map, unwrap_or, OnOk};
ghost use Rattle.std.specs.List.{list_all};
ghost use Rattle.std.specs.Fmt.{decimal, signed_decimal};
ghost use Rattle.wsm_record.specs.Schema.{Declared};
ghost use Rattle.wsm_semantics.specs.Lines.{Out, Faulty, Refused, End, refusal_lines};
ghost use Rattle.wsm_semantics.specs.Text as text;
ghost use Rattle.wsm_csv.specs.Lines.{cells_text, is_a_number, number_text};
ghost use Rattle.wsm_csv.specs.KeyedLines.{IsLineOf, key_text, keyed_cells, keyed_text};

use crate::few_numbers::{CELLS, TOGETHER, are_few_numbers, count_numbers, write_numbers};
use crate::from_end::{CELL, write_cell, write_text};
use crate::short_line::{FIRST, add_short_line, write_first};
use crate::window_text::WindowText;
use itoa::Buffer;
use std::alloc::AllocError;
use wsm_admission::Refusal;
use wsm_record::limits::MAX_NAME;
use wsm_record::{Cell, Columns, Names, RowFault, Schema};
use wsm_semantics::{OutRow, Totals};
use wsm_windows::{PaneKind, Window};

// The most bytes of the word of a stream.
const STREAM: usize = 7;

/// Adds the lines of rows, in their order. A number that stands for no name is an empty cell.
#[inline(always)]
pub fn rows_text(schema: &Schema, rows: &[OutRow], out: &mut Vec<u8>) -> Result<(), AllocError>
    ensures { OnOk result (out.new.items ≡ out.old.items ++ text.lines_text schema.now (map Out rows.now)) }
{
    // Most turns have no rows.
    if rows.is_empty() {
        return Ok(());
    }
    add_rows(schema, rows, out)
}

/// Adds the line of a row. A number that stands for no name is an empty cell. For users of the library;
/// the program writes by [`rows_text`].
pub fn row_text(schema: &Schema, row: &OutRow, out: &mut Vec<u8>) -> Result<(), AllocError>
    ensures { OnOk result (out.new.items ≡ out.old.items ++ text.line_text schema.now (Out row.now)) }
{
    let mut last = no_window();
    add_line(schema, row, &mut last, out)
}

/// Adds the line of a row whose key is written by this text, in place of the name that its number has in the schema. The text is
/// that of the window that was written last. A row of a stream has no key.
pub fn keyed_row_text(
    schema: &Schema,
    key: &[u8],
    row: &OutRow,
    last: &mut WindowText,
    out: &mut Vec<u8>,
) -> Result<(), AllocError>
    ensures text { OnOk result (out.new.items ≡ out.old.items ++ keyed_text schema.now key.now row.now) }
    ensures line { IsLineOf schema.now key.now row.now (keyed_text schema.now key.now row.now) }
{
    add_keyed_line(schema, key, row, last, out)
}

/// Adds the line of a row that is no event.
pub fn fault_text(row: u64, why: RowFault, out: &mut Vec<u8>) -> Result<(), AllocError>
    ensures { (declared : Declared) → OnOk result (out.new.items ≡ out.old.items ++ text.line_text declared (Faulty row why)) }
{
    add_refused(row, fault_word(why), out)
}

/// Adds the line of a row whose event is refused, if it is one; a late record has none.
pub fn refusal_text(row: u64, refusal: Option<Refusal>, out: &mut Vec<u8>) -> Result<(), AllocError>
    ensures { (declared : Declared) → OnOk result (out.new.items ≡ out.old.items ++ text.lines_text declared (refusal_lines row refusal)) }
{
    match refusal {
        Some(why) => add_refusal(row, why, out),
        None => Ok(()),
    }
}

// Adds the line of a refusal.
fn add_refusal(row: u64, why: Refusal, out: &mut Vec<u8>) -> Result<(), AllocError>
    ensures { (declared : Declared) → OnOk result (out.new.items ≡ out.old.items ++ text.lines_text declared (refusal_lines row (Some why))) }
{
    match why {
        Refusal::Late => Ok(()),
        _ => add_refusal_line(row, why, out),
    }
}

// The same of one that has a line.
fn add_refusal_line(row: u64, why: Refusal, out: &mut Vec<u8>) -> Result<(), AllocError>
    ensures { (declared : Declared) → OnOk result (out.new.items ≡ out.old.items ++ text.line_text declared (Refused row why)) }
{
    add_refused(row, refusal_word(why), out)
}

/// Adds the last line.
pub fn end_text(totals: Totals, out: &mut Vec<u8>) -> Result<(), AllocError>
    ensures { (declared : Declared) →
        OnOk result (out.new.items ≡ out.old.items ++ text.line_text declared (End totals.rows totals.admitted totals.late totals.refused totals.panes)) }
{
    out.extend_from_slice(b"end")?;
    add_count(totals.rows, out)?;
    add_count(totals.admitted, out)?;
    add_count(totals.late, out)?;
    add_count(totals.refused, out)?;
    add_count(totals.panes, out)?;
    end_line(out)
}

// The lines of rows.
fn add_rows(schema: &Schema, rows: &[OutRow], out: &mut Vec<u8>) -> Result<(), AllocError>
    ensures { OnOk result (out.new.items ≡ out.old.items ++ text.lines_text schema.now (map Out rows.now)) }
{
    let mut last = no_window();
    for row in rows {
        add_line(schema, row, &mut last, out)?;
    }
    Ok(())
}

// The text of a window before any is written.
fn no_window() -> WindowText {
    WindowText::of(Window { start: 0, end: 0 })
}

// The line of a row. The text is that of the window that was written last.
fn add_line(
    schema: &Schema,
    row: &OutRow,
    last: &mut WindowText,
    out: &mut Vec<u8>,
) -> Result<(), AllocError>
    ensures { OnOk result (out.new.items ≡ out.old.items ++ text.line_text schema.now (Out row.now)) }
{
    add_keyed_line(schema, name_of(schema, row), row, last, out)
}

// The name of the key of a row, or no byte.
fn name_of<'a>(schema: &'a Schema, row: &OutRow) -> &'a [u8]
    ensures { result.now ≡ key_text schema.now.keys row.now }
{
    match row {
        OutRow::Pane { key, .. } => name_text(Some(schema.keys()), *key),
        OutRow::Retract { key, .. } => name_text(Some(schema.keys()), *key),
        _ => b"",
    }
}

// The line of a row whose key is written by this text.
#[inline(always)]
fn add_keyed_line(
    schema: &Schema,
    name: &[u8],
    row: &OutRow,
    last: &mut WindowText,
    out: &mut Vec<u8>,
) -> Result<(), AllocError>
    ensures { OnOk result (out.new.items ≡ out.old.items ++ keyed_text schema.now name.now row.now) }
{
    if let OutRow::Pane {
        kind,
        window,
        columns,
        ..
    } = row
    {
        let columns = columns.as_slice();
        if name.len() <= MAX_NAME && are_few_numbers(columns) {
            last.set(*window);
            return add_short_line(*kind, name, last, columns, out);
        }
    }
    add_row(schema, name, row, out)?;
    end_line(out)
}

// The cells of a row whose key is written by this text.
fn add_row(schema: &Schema, name: &[u8], row: &OutRow, out: &mut Vec<u8>) -> Result<(), AllocError>
    ensures { OnOk result (out.new.items ≡ out.old.items ++ text.joined (keyed_cells schema.now name.now row.now)) }
{
    match row {
        OutRow::Pane {
            kind,
            window,
            columns,
            ..
        } => {
            add_pane(*kind, name, out)?;
            add_window(schema, *window, columns.as_slice(), out)
        }
        OutRow::Retract {
            window,
            columns,
            ..
        } => {
            add_withdrawn(name, out)?;
            add_window(schema, *window, columns.as_slice(), out)
        }
        OutRow::Istream { mark, columns } => add_stream(schema, b"istream", *mark, columns, out),
        OutRow::Dstream { mark, columns } => add_stream(schema, b"dstream", *mark, columns, out),
        OutRow::Rstream { mark, columns } => add_stream(schema, b"rstream", *mark, columns, out),
    }
}

// The cells of a pane in front of its window.
fn add_pane(kind: PaneKind, name: &[u8], out: &mut Vec<u8>) -> Result<(), AllocError>
    ensures { OnOk result (out.new.items ≡ out.old.items ++ (codes "pane" ++ cells_text (text.kind_word kind ∷ name.now ∷ []))) }
{
    let mut first = [0; FIRST];
    let start = write_first(kind, &mut first, FIRST);
    out.extend_from_slice(&first[start..])?;
    out.extend_from_slice(name)
}

// The cells of a pane that is withdrawn in front of its window.
fn add_withdrawn(name: &[u8], out: &mut Vec<u8>) -> Result<(), AllocError>
    ensures { OnOk result (out.new.items ≡ out.old.items ++ (codes "retract" ++ cells_text (name.now ∷ []))) }
{
    out.extend_from_slice(b"retract")?;
    add_cell(name, out)
}

// The cells of a window and of the columns behind it.
fn add_window(
    schema: &Schema,
    window: Window,
    columns: &[Cell],
    out: &mut Vec<u8>,
) -> Result<(), AllocError>
    ensures { OnOk result (out.new.items ≡ out.old.items
        ++ cells_text (signed_decimal window.start ∷ signed_decimal window.end ∷ map (text.cell_text schema.now) columns.now)) }
{
    let count = count_numbers(columns);
    add_numbers(window, &columns[..count], out)?;
    add_columns(schema, &columns[count..], out)
}

// The cells of a window and of a few numbers behind it.
fn add_numbers(window: Window, numbers: &[Cell], out: &mut Vec<u8>) -> Result<(), AllocError>
    requires numbers { list_all is_a_number numbers.now ≡ true }
    requires few { length numbers.now ≤ TOGETHER }
    ensures { OnOk result (out.new.items ≡ out.old.items
        ++ cells_text (signed_decimal window.start ∷ signed_decimal window.end ∷ map number_text numbers.now)) }
{
    let mut cells = [0; CELLS];
    let first = write_numbers(numbers, &mut cells, CELLS);
    let end = write_cell(window.end, &mut cells, first);
    let start = write_cell(window.start, &mut cells, end);
    out.extend_from_slice(&cells[start..])
}

// The cells of a row of a stream.
fn add_stream(
    schema: &Schema,
    word: &[u8],
    mark: i64,
    columns: &Columns,
    out: &mut Vec<u8>,
) -> Result<(), AllocError>
    requires { length word.now ≤ STREAM }
    ensures { OnOk result (out.new.items ≡ out.old.items ++ (word.now ++ cells_text (signed_decimal mark ∷ map (text.cell_text schema.now) columns.now))) }
{
    let columns = columns.as_slice();
    let count = count_numbers(columns);
    add_marked_numbers(word, mark, &columns[..count], out)?;
    add_columns(schema, &columns[count..], out)
}

// The word of a stream, and the cells of a mark and of a few numbers behind it.
fn add_marked_numbers(
    word: &[u8],
    mark: i64,
    numbers: &[Cell],
    out: &mut Vec<u8>,
) -> Result<(), AllocError>
    requires word { length word.now ≤ STREAM }
    requires numbers { list_all is_a_number numbers.now ≡ true }
    requires few { length numbers.now ≤ TOGETHER }
    ensures { OnOk result (out.new.items ≡ out.old.items ++ (word.now ++ cells_text (signed_decimal mark ∷ map number_text numbers.now))) }
{
    let mut cells = [0; STREAM + CELLS];
    let first = write_numbers(numbers, &mut cells, STREAM + CELLS);
    let marked = write_cell(mark, &mut cells, first);
    let start = write_text(word, &mut cells, marked);
    out.extend_from_slice(&cells[start..])
}

// The line of a refused row, with the word of its refusal.
fn add_refused(row: u64, word: &[u8], out: &mut Vec<u8>) -> Result<(), AllocError>
    ensures { OnOk result (out.new.items ≡ out.old.items ++ (codes "refused" ++ cells_text (decimal row ∷ word.now ∷ []) ++ 10 ∷ [])) }
{
    out.extend_from_slice(b"refused")?;
    add_count(row, out)?;
    add_cell(word, out)?;
    end_line(out)
}

// The cells of columns.
#[inline(always)]
fn add_columns(schema: &Schema, columns: &[Cell], out: &mut Vec<u8>) -> Result<(), AllocError>
    ensures { OnOk result (out.new.items ≡ out.old.items ++ cells_text (map (text.cell_text schema.now) columns.now)) }
{
    for column in columns {
        add_column(schema, *column, out)?;
    }
    Ok(())
}

#[inline(never)]
fn add_column(schema: &Schema, column: Cell, out: &mut Vec<u8>) -> Result<(), AllocError>
    ensures { OnOk result (out.new.items ≡ out.old.items ++ 44 ∷ text.cell_text schema.now column) }
{
    match column {
        Cell::Int(number) => add_number(number, out),
        Cell::Bool(true) => add_cell(b"true", out),
        Cell::Bool(false) => add_cell(b"false", out),
        Cell::Enum(number, name) => add_cell(name_text(schema.enum_names(number), name), out),
    }
}

fn add_number(number: i64, out: &mut Vec<u8>) -> Result<(), AllocError>
    ensures { OnOk result (out.new.items ≡ out.old.items ++ 44 ∷ signed_decimal number) }
{
    let mut cell = [0; CELL];
    let start = write_cell(number, &mut cell, CELL);
    out.extend_from_slice(&cell[start..])
}

fn add_count(count: u64, out: &mut Vec<u8>) -> Result<(), AllocError>
    ensures { OnOk result (out.new.items ≡ out.old.items ++ 44 ∷ decimal count) }
{
    let mut digits = Buffer::new();
    add_cell(digits.format(count).as_bytes(), out)
}

// A comma and a cell.
fn add_cell(cell: &[u8], out: &mut Vec<u8>) -> Result<(), AllocError>
    ensures { OnOk result (out.new.items ≡ out.old.items ++ 44 ∷ cell.now) }
{
    out.push(b',')?;
    out.extend_from_slice(cell)
}

fn end_line(out: &mut Vec<u8>) -> Result<(), AllocError>
    ensures { OnOk result (out.new.items ≡ out.old.items ++ 10 ∷ []) }
{
    Ok(out.push(b'\n')?)
}

// The name that a number stands for, or no byte.
fn name_text<'a>(names: Option<&'a Names>, number: u16) -> &'a [u8]
    ensures { result.now ≡ text.name_at (unwrap_or (option_map (λ names. names.now) names.entry) []) number }
{
    match names {
        Some(names) if (number as usize) < names.len() => names.text_of(number),
        _ => b"",
    }
}

fn fault_word(why: RowFault) -> &'static [u8]
    ensures { result.now ≡ text.fault_word why }
{
    match why {
        RowFault::BadTag => b"BadTag",
        RowFault::CellCount => b"CellCount",
        RowFault::BadNumber => b"BadNumber",
        RowFault::BadName => b"BadName",
    }
}

fn refusal_word(why: Refusal) -> &'static [u8]
    ensures { result.now ≡ text.refusal_word why }
{
    match why {
        Refusal::UnknownKey => b"UnknownKey",
        Refusal::FieldRange => b"FieldRange",
        Refusal::TimeRange => b"TimeRange",
        Refusal::TooFarAhead => b"TooFarAhead",
        Refusal::Late => b"Late",
        Refusal::RecordLimit => b"RecordLimit",
        Refusal::NotRising => b"NotRising",
        Refusal::UnknownSource => b"UnknownSource",
    }
}
