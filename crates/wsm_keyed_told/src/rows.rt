//! The lines of what parts answer.

ghost use Rattle.std.specs.Prelude.{◌≡◌, ◌++◌, ◌<◌, ◌≤◌, ◌+◌, ◌*◌, ◌^◌, length, map, slice_get, OnOk, Some};
ghost use Rattle.wsm_record.specs.declared.limits.TheConstants.{MAX_NAMES};
ghost use Rattle.wsm_semantics.specs.Lines.{Out};
ghost use Rattle.wsm_semantics.specs.declared.out_row.OutRow.{OutRow as AnyRow};
ghost use Rattle.wsm_key_parts.specs.Merged.{place_of as row_place};
ghost use Rattle.wsm_keyed_told.specs.KeyedLines.{keyed_line, keyed_lines};

use std::alloc::AllocError;
use wsm_csv::{WindowText, keyed_row_text};
use wsm_key_names::KeyNames;
use wsm_part_engines::Parts;
use wsm_semantics::OutRow;
use wsm_windows::Window;

/// Adds the lines of the rows of the last event, each key by the cell of its name.
///
/// # Errors
///
/// Memory was refused.
pub fn add_rows(parts: &Parts, names: &KeyNames, lines: &mut Vec<u8>) -> Result<(), AllocError>
    ensures { OnOk result (lines.new.items ≡ lines.old.items ++ keyed_lines parts.now.program.header.schema names.now (map Out parts.now.rows)) }
{
    // Most turns have no rows.
    if parts.row_count() == 0 {
        return Ok(());
    }
    add_all_rows(parts, names, lines)
}

// The same where there are some.
fn add_all_rows(parts: &Parts, names: &KeyNames, lines: &mut Vec<u8>) -> Result<(), AllocError>
    ensures { OnOk result (lines.new.items ≡ lines.old.items ++ keyed_lines parts.now.program.header.schema names.now (map Out parts.now.rows)) }
{
    let mut last = WindowText::of(Window { start: 0, end: 0 });
    for i in 0..parts.row_count() {
        add_row(parts, names, i, &mut last, lines)?;
    }
    Ok(())
}

// Adds the line of one of them. The text is that of the window that was written last.
fn add_row(
    parts: &Parts,
    names: &KeyNames,
    i: usize,
    last: &mut WindowText,
    lines: &mut Vec<u8>,
) -> Result<(), AllocError>
    requires { i < length parts.now.rows }
    ensures { (row : AnyRow) → slice_get parts.now.rows i ≡ Some row →
        OnOk result (lines.new.items ≡ lines.old.items ++ keyed_line parts.now.program.header.schema names.now (Out row)) }
{
    let row = parts.row(i);
    let number = number_of(row.part, parts.block(), place_of(row.row));
    keyed_row_text(parts.schema(), names.cell(number), row.row, last, lines)
}

// The number of a name by its part, of so many, and its place there.
fn number_of(part: u32, block: usize, place: usize) -> usize
    requires block { block ≤ MAX_NAMES }
    requires place { place < 2 ^ 16 }
    ensures { result ≡ part * block + place }
{
    part as usize * block + place
}

// The place of the key of a row; 0 for one of a stream, which has no key.
fn place_of(row: &OutRow) -> usize
    ensures key { result ≡ (row_place row.now).key }
    ensures few { result < 2 ^ 16 }
{
    match row {
        OutRow::Pane { key, .. } => *key as usize,
        OutRow::Retract { key, .. } => *key as usize,
        _ => 0,
    }
}
