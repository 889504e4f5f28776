//! Reading rows as events.

ghost use Rattle.std.specs.Prelude.{◌≡◌, ◌≢◌, ◌+◌, ◌<◌, ◌≤◌, [], drop, length, map, max, vec_capacity, IfErr, IfOk, IsOk, OnOk, Err, Ok, Some, slice_get};
ghost use Rattle.csv.specs.Records.{fields_of};
ghost use Rattle.wsm_record.specs.Event.{event_of};
ghost use Rattle.wsm_record.specs.Fields.{field_seen, type_seen};
ghost use Rattle.wsm_record.specs.Schema.{Truth, Enum, fit_fields};
ghost use Rattle.wsm_csv.specs.Cells.{Fits, Puts, event_of_cells, mark_of, record_tag, time_of, truth_of, value_of, values_of};
ghost use Rattle.wsm_csv.specs.Refused.{IfFault};
ghost use Rattle.wsm_csv.specs.Tags.{row_tag, tag_of};

use crate::event_reader::EventReader;
use crate::number::read_number;
use csv::ByteRecord;
use std::alloc::{AllocError, Global};
use wsm_record::{DeclaredField, Event, FieldType, Names, RowFault, Schema, Value};

/// The cells of a record in front of its fields: its tag, its key and its time.
pub(crate) const RECORD_HEAD: usize = 3;

/// The cells of a watermark where no sources are declared: its tag and its time.
const WATERMARK_CELLS: usize = 2;

/// The cells of a watermark of one of several sources: its tag, its source and its time.
const SOURCED_CELLS: usize = 3;

/// Why a row is not read.
#[derive(Clone, Copy, Debug, PartialEq, Eq)]
pub enum RowRefusal {
    /// The row is no event.
    Fault(RowFault),
    /// Memory was refused.
    Memory,
}

/// What a row is, by its first cell.
#[derive(Clone, Copy)]
pub(crate) enum Tag {
    Record,
    Watermark,
}

impl From<RowFault> for RowRefusal {
    ghost use Rattle.std.specs.Prelude.{◌≡◌};
    ghost use Rattle.wsm_csv.specs.declared.row.RowRefusal.TheVariants.{Fault};

    ghost from_gives = { λ f r. r ≡ Fault f };

    fn from(fault: RowFault) -> RowRefusal {
        RowRefusal::Fault(fault)
    }
}

impl From<AllocError> for RowRefusal {
    ghost use Rattle.std.specs.Prelude.{◌≡◌};
    ghost use Rattle.wsm_csv.specs.declared.row.RowRefusal.TheVariants.{Memory};

    ghost from_gives = { λ _ r. r ≡ Memory };

    fn from(_error: AllocError) -> RowRefusal {
        RowRefusal::Memory
    }
}

/// The event that a row says, or the first fault from the left. `r,KEY,TIME,` and a cell for each
/// field is a record, `w,TIME` a watermark, or `w,SOURCE,TIME` where sources are declared. Cells are
/// compared as bytes. A key or a source that isn't declared is no fault here, nor is a number outside
/// its field's interval or a time outside its range. Memory is asked for a record's values alone. For
/// users of the library; the program reads by [`EventReader`](crate::EventReader).
pub fn read_row(alloc: Global, schema: &Schema, row: &ByteRecord) -> Result<Event, RowRefusal>
    ensures event { IfOk result (λ e. event_of_cells schema.now (fields_of row.now) ≡ Ok (event_of e)) }
    ensures fault { IfErr result (λ r. IfFault r (λ f. event_of_cells schema.now (fields_of row.now) ≡ Err f)) }
    ensures memory { result ≡ Err RowRefusal.Memory → slice_get (fields_of row.now) 0 ≡ Some record_tag }
{
    let mut events = EventReader::new(alloc);
    events.read(schema, row)?;
    Ok(events.into_event())
}

/// What a row is, by its first cell.
pub(crate) fn read_tag(row: &ByteRecord) -> Option<Tag>
    ensures { result ≡ row_tag (fields_of row.now) }
{
    cell_tag(row.get(0)?)
}

fn cell_tag(cell: &[u8]) -> Option<Tag>
    ensures { result ≡ tag_of cell.now }
{
    match cell {
        b"r" => Some(Tag::Record),
        b"w" => Some(Tag::Watermark),
        _ => None,
    }
}

/// The watermark of a row, where these sources are declared.
pub(crate) fn read_mark(sources: &Names, row: &ByteRecord) -> Result<Event, RowFault>
    ensures event { IfOk result (λ e. mark_of sources.now (drop 1 (fields_of row.now)) ≡ Ok (event_of e)) }
    ensures fault { IfErr result (λ f. mark_of sources.now (drop 1 (fields_of row.now)) ≡ Err f) }
{
    if sources.len() == 0 {
        return read_only_mark(row);
    }
    if row.len() != SOURCED_CELLS {
        return Err(RowFault::CellCount);
    }
    let time = read_time(cell_at(row, 2))?;
    let source = sources.number_of(cell_at(row, 1));
    Ok(Event::Watermark { source, time })
}

// The watermark of a row, where no sources are declared.
fn read_only_mark(row: &ByteRecord) -> Result<Event, RowFault>
    ensures event { IfOk result (λ e. mark_of [] (drop 1 (fields_of row.now)) ≡ Ok (event_of e)) }
    ensures fault { IfErr result (λ f. mark_of [] (drop 1 (fields_of row.now)) ≡ Err f) }
{
    if row.len() != WATERMARK_CELLS {
        return Err(RowFault::CellCount);
    }
    let time = read_time(cell_at(row, 1))?;
    Ok(Event::Watermark {
        source: Some(0),
        time,
    })
}

/// Reads the values of a record in place of those that are there, up to the first fault. Answers
/// whether each lies in the interval of its field.
#[inline(always)]
pub(crate) fn read_values(
    fields: &[DeclaredField],
    row: &ByteRecord,
    values: &mut Vec<Value>,
) -> Result<bool, RowRefusal>
    requires { length (fields_of row.now) ≡ RECORD_HEAD + length fields.now }
    ensures values { OnOk result (values_of (map field_seen fields.now) (drop RECORD_HEAD (fields_of row.now)) ≡ Ok values.new.items) }
    ensures fits { IfOk result (λ fits. fits ≡ fit_fields (map field_seen fields.now) values.new.items) }
    ensures fault { IfErr result (λ r. IfFault r (λ f. values_of (map field_seen fields.now) (drop RECORD_HEAD (fields_of row.now)) ≡ Err f)) }
    ensures room { length fields.now ≤ vec_capacity values.old → result ≢ Err RowRefusal.Memory }
    ensures kept { vec_capacity values.old ≤ vec_capacity values.new }
    ensures few { vec_capacity values.new ≤ max (vec_capacity values.old) (length fields.now) }
{
    fit(values, fields.len())?;
    let mut fits = true;
    for (place, field) in fields.iter().enumerate() {
        fits &= read_value(&field.ty, cell_at(row, RECORD_HEAD + place), values, place)?;
    }
    Ok(fits)
}

// Has there be so many values, whatever they are, and room for no more than there was, or for these.
fn fit(values: &mut Vec<Value>, count: usize) -> Result<(), AllocError>
    ensures count { OnOk result (length values.new.items ≡ count) }
    ensures room { count ≤ vec_capacity values.old → IsOk result }
    ensures kept { vec_capacity values.old ≤ vec_capacity values.new }
    ensures few { vec_capacity values.new ≤ max (vec_capacity values.old) count }
{
    if values.len() == count {
        return Ok(());
    }
    resize(values, count)
}

#[inline(never)]
fn resize(values: &mut Vec<Value>, count: usize) -> Result<(), AllocError>
    ensures count { OnOk result (length values.new.items ≡ count) }
    ensures room { count ≤ vec_capacity values.old → IsOk result }
    ensures kept { vec_capacity values.old ≤ vec_capacity values.new }
    ensures few { vec_capacity values.new ≤ max (vec_capacity values.old) count }
{
    values.truncate(count);
    values.reserve_exact(count - values.len())?;
    for made in values.len()..count {
        values.push_reserved(Value::Int(0));
    }
    Ok(())
}

// Reads the value of a field in place of the one that is there, and answers whether it lies in the
// interval of its type; a truth and a name always do. Most are numbers, so these are read here, and
// others by a call. A value is put there in each case by itself, so that it isn't moved.
#[inline(always)]
fn read_value(
    ty: &FieldType,
    cell: &[u8],
    values: &mut Vec<Value>,
    place: usize,
) -> Result<bool, RowFault>
    requires { place < length values.old.items }
    ensures value { OnOk result (Puts (value_of (type_seen ty.now) cell.now) place values.old.items values.new.items) }
    ensures fits { IfOk result (λ fits. Fits (type_seen ty.now) cell.now fits) }
    ensures fault { IfErr result (λ f. value_of (type_seen ty.now) cell.now ≡ Err f) }
    ensures count { length values.new.items ≡ length values.old.items }
    ensures room { vec_capacity values.new ≡ vec_capacity values.old }
{
    match ty {
        FieldType::Int { lo, hi } => {
            let number = read_number(cell).ok_or(RowFault::BadNumber)?;
            values[place] = Value::Int(number);
            Ok(*lo <= number && number <= *hi)
        }
        FieldType::Bool => {
            read_truth_value(cell, values, place)?;
            Ok(true)
        }
        FieldType::Enum(names) => {
            read_name_value(names, cell, values, place)?;
            Ok(true)
        }
    }
}

// Reads the value of a field of truth values.
#[inline(never)]
fn read_truth_value(cell: &[u8], values: &mut Vec<Value>, place: usize) -> Result<(), RowFault>
    requires { place < length values.old.items }
    ensures value { OnOk result (Puts (value_of Truth cell.now) place values.old.items values.new.items) }
    ensures fault { IfErr result (λ f. value_of Truth cell.now ≡ Err f) }
    ensures count { length values.new.items ≡ length values.old.items }
    ensures room { vec_capacity values.new ≡ vec_capacity values.old }
{
    let truth = read_truth(cell).ok_or(RowFault::BadName)?;
    values[place] = Value::Bool(truth);
    Ok(())
}

// Reads the value of a field of names.
#[inline(never)]
fn read_name_value(
    names: &Names,
    cell: &[u8],
    values: &mut Vec<Value>,
    place: usize,
) -> Result<(), RowFault>
    requires { place < length values.old.items }
    ensures value { OnOk result (Puts (value_of (Enum names.now) cell.now) place values.old.items values.new.items) }
    ensures fault { IfErr result (λ f. value_of (Enum names.now) cell.now ≡ Err f) }
    ensures count { length values.new.items ≡ length values.old.items }
    ensures room { vec_capacity values.new ≡ vec_capacity values.old }
{
    let number = names.number_of(cell).ok_or(RowFault::BadName)?;
    values[place] = Value::Enum(number);
    Ok(())
}

fn read_truth(cell: &[u8]) -> Option<bool>
    ensures { result ≡ truth_of cell.now }
{
    match cell {
        b"true" => Some(true),
        b"false" => Some(false),
        _ => None,
    }
}

// The time that a cell writes.
fn read_time(cell: &[u8]) -> Result<i64, RowFault>
    ensures { result ≡ time_of cell.now }
{
    read_number(cell).ok_or(RowFault::BadNumber)
}

/// The cell at a place that the row has.
pub(crate) fn cell_at(row: &ByteRecord, place: usize) -> &[u8]
    requires { place < length (fields_of row.now) }
    ensures { slice_get (fields_of row.now) place ≡ Some result.now }
{
    row.get(place).unwrap()
}
