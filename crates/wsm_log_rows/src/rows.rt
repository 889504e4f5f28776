//! The rows of a log's lines.

ghost use Rattle.std.specs.Prelude.{◌≡◌, ◌++◌, ◌∷◌, ℕ, List, [], Option, Ok, Err, true, false, IfErr, IfOk, OnOk, map};
ghost use Rattle.std.specs.Fmt.{signed_decimal};
ghost use Rattle.wsm_record.specs.Event.{event_of};
ghost use Rattle.wsm_record.specs.Fields.{field_seen, type_seen};
ghost use Rattle.wsm_log.specs.Lines.{Follows as FollowsLines};
ghost use Rattle.wsm_lines.specs.declared.source.Source.{Source as AnySource};
ghost use Rattle.wsm_log_rows.specs.Rows.{HasRead, HasWritten, RowsEnd, RowsWritten, event_row, key_text, row_text, value_text, values_text};

use crate::end::LogEnd;
use itoa::Buffer;
use std::alloc::{AllocError, Global};
use std::io::Read;
use wsm_csv::{Device, DeviceFault, write_out};
use wsm_lines::{LineFault, LineReader, LineRefusal, Source};
use wsm_log::Lines;
use wsm_record::{DeclaredField, Event, FieldType, Schema, Value};

/// Reads lines by a source, and has the row of the last one.
#[derive(Drop)]
pub struct RowWriter {
    reader: LineReader,
    text: Vec<u8>,
}

impl RowWriter {
    ghost use Rattle.std.specs.Prelude.{◌≡◌, true, false, ℕ, List, [], OnErr, OnOk};
    ghost use Rattle.std.specs.Io.KnownBytes.{Appends};
    ghost use Rattle.wsm_csv.specs.Device.{TakesPart};
    ghost use Rattle.wsm_lines.specs.declared.source.Source.{Source as AnySource};
    ghost use Rattle.wsm_log_rows.specs.Rows.{HasRead, Rows};

    /// A writer that has read no line.
    pub fn new(alloc: Global, source: Source) -> RowWriter
        ensures { HasRead source result [] }
    {
        RowWriter {
            reader: LineReader::new(alloc, source),
            text: Vec::new(alloc),
        }
    }

    /// Reads a line. The bytes are then its row.
    pub fn take(&mut self, schema: &Schema, line: &[u8]) -> Result<(), AllocError>
        ensures { (s : AnySource) (before : List (List ℕ)) → HasRead s self.old before → OnOk result (Rows s schema.now self.new before line.now) }
    {
        self.text.clear();
        match self.reader.read(schema, line) {
            Ok(()) => add_event(schema, self.reader.event(), &mut self.text),
            Err(LineRefusal::Fault(why)) => add_unread(why, &mut self.text),
            Err(LineRefusal::Memory) => Err(AllocError),
        }
    }

    /// Gives a device the bytes. Where it can't, it took a beginning of them and has failed.
    pub fn write<D: Device>(&self, out: &mut D) -> Result<(), DeviceFault>
        requires { D.has_failed out.old ≡ false }
        ensures all { OnOk result (Appends (D.taken out.old) (D.taken out.new) self.now.text.items) }
        ensures works { OnOk result (D.has_failed out.new ≡ false) }
        ensures part { OnErr result (TakesPart (D.taken out.old) (D.taken out.new) self.now.text.items) }
        ensures fails { OnErr result (D.has_failed out.new ≡ true) }
    {
        write_out(out, &self.text)
    }
}

/// Adds the row of a record: `r,KEY,TIME` and a cell for each field.
///
/// # Errors
///
/// Memory was refused.
pub fn add_event(schema: &Schema, event: &Event, out: &mut Vec<u8>) -> Result<(), AllocError>
    ensures { OnOk result (out.new.items ≡ out.old.items ++ event_row schema.now (event_of event.now)) }
{
    match event {
        Event::Record { key, time, values } => {
            out.extend_from_slice(b"r,")?;
            out.extend_from_slice(key_text(schema, *key))?;
            add_number(*time, out)?;
            add_values(schema.fields(), values, out)?;
            Ok(out.push(b'\n')?)
        }
        Event::Watermark { .. } => Ok(()),
    }
}

// The row of a line that is no event.
fn add_unread(why: LineFault, out: &mut Vec<u8>) -> Result<(), AllocError>
    ensures { OnOk result (out.new.items ≡ out.old.items ++ row_text record { keys = []; fields = []; sources = [] } (Err why)) }
{
    out.extend_from_slice(b"unread,")?;
    out.extend_from_slice(why.word().as_bytes())?;
    Ok(out.push(b'\n')?)
}

// A key's name, or no byte.
fn key_text(schema: &Schema, key: Option<u32>) -> &[u8]
    ensures { result.now ≡ key_text schema.now key }
{
    match key {
        Some(key) if (key as usize) < schema.keys().len() => schema.keys().text_of(key as u16),
        _ => b"",
    }
}

// The cells of values, each behind a comma.
fn add_values(
    fields: &[DeclaredField],
    values: &[Value],
    out: &mut Vec<u8>,
) -> Result<(), AllocError>
    ensures { OnOk result (out.new.items ≡ out.old.items ++ values_text (map field_seen fields.now) values.now) }
{
    match (fields.split_first(), values.split_first()) {
        (Some((field, fields)), Some((value, values))) => {
            add_value(&field.ty, *value, out)?;
            add_values(fields, values, out)
        }
        _ => Ok(()),
    }
}

// The cell of a value behind a comma.
fn add_value(ty: &FieldType, value: Value, out: &mut Vec<u8>) -> Result<(), AllocError>
    ensures { OnOk result (out.new.items ≡ out.old.items ++ 44 ∷ value_text (type_seen ty.now) value) }
{
    match value {
        Value::Int(number) => add_number(number, out),
        Value::Bool(true) => add_cell(b"true", out),
        Value::Bool(false) => add_cell(b"false", out),
        Value::Enum(number) => add_cell(name_text(ty, number), out),
    }
}

// The name that a number stands for, or no byte.
fn name_text(ty: &FieldType, number: u16) -> &[u8]
    ensures { result.now ≡ value_text (type_seen ty.now) (Value.Enum number) }
{
    match ty {
        FieldType::Enum(names) if (number as usize) < names.len() => names.text_of(number),
        _ => b"",
    }
}

fn add_number(number: i64, out: &mut Vec<u8>) -> Result<(), AllocError>
    ensures { OnOk result (out.new.items ≡ out.old.items ++ 44 ∷ signed_decimal number) }
{
    let mut digits = Buffer::new();
    add_cell(digits.format(number).as_bytes(), out)
}

fn add_cell(cell: &[u8], out: &mut Vec<u8>) -> Result<(), AllocError>
    ensures { OnOk result (out.new.items ≡ out.old.items ++ 44 ∷ cell.now) }
{
    out.push(b',')?;
    out.extend_from_slice(cell)
}

/// Writes the rows of the lines of a reader by a source, one for each line: `r,KEY,TIME` and a cell for each field, or `unread`
/// with the word of the fault of a line that is no event. The device is given the row of a line before the next line is asked
/// for, and is flushed at last.
///
/// # Errors
///
/// After [`LogEnd::Memory`] or [`LogEnd::ReadFailed`] the device took the rows of the first lines; after
/// [`LogEnd::WriteFailed`] it took a beginning of them.
pub fn write_rows<R: Read + Drop, D: Device>(
    alloc: Global,
    schema: &Schema,
    source: Source,
    reader: R,
    out: &mut D,
) -> Result<(), LogEnd>
    requires { D.has_failed out.old ≡ false }
    ensures written { IfOk result (λ _. (lines : List (List ℕ))
        × RowsWritten (R.remaining reader) source schema.now (D.taken out.old) (D.taken out.new) lines) }
    ensures broken { IfErr result (λ end. (lines : List (List ℕ))
        × RowsEnd (R.remaining reader) source schema.now (D.taken out.old) (D.taken out.new) lines end) }
    ensures flushed { OnOk result (D.is_flushed out.new ≡ true) }
    ensures write_failed { result ≡ Err LogEnd.WriteFailed → D.has_failed out.new ≡ true }
{
    let mut lines = Lines::new(alloc, reader, source.longest)?;
    let mut rows = RowWriter::new(alloc, source);
    while lines.advance()? {
        rows.take(schema, lines.line())?;
        rows.write(out)?;
    }
    Ok(out.flush()?)
}
