//! Rows read as events, each in place of the last.

ghost use Rattle.std.specs.Prelude.{◌≡◌, ◌≢◌, ◌≤◌, drop, length, max, vec_capacity, IfErr, IfOk, OnOk, Err, Ok};
ghost use Rattle.csv.specs.Records.{fields_of};
ghost use Rattle.wsm_record.specs.Event.{Record, event_of};
ghost use Rattle.wsm_admission.specs.Clock.{fits_declared};
ghost use Rattle.wsm_csv.specs.Cells.{record_of, watermark_of};
ghost use Rattle.wsm_csv.specs.InPlace.{room_in, spare_in, values_in};
ghost use Rattle.wsm_csv.specs.KeyedRows.{said_from};
ghost use Rattle.wsm_csv.specs.Refused.{IfFault};

use crate::number::Fronts;
use crate::row::{RECORD_HEAD, RowRefusal, Tag, cell_at, read_mark, read_tag, read_values};
use csv::ByteRecord;
use std::alloc::Global;
use std::mem;
use wsm_record::{Event, RowFault, Schema, Value};

// Where the key of a record is found: in its cell, or it is handed in.
#[derive(Clone, Copy)]
enum KeyFrom {
    Cell,
    Number(Option<u32>),
}

/// Reads rows as events, each in place of the last. The values of a record are read into the vector of
/// the record before.
#[derive(Drop)]
pub struct EventReader {
    // Before the first event, a record without values.
    event: Event,
    // The vector of the last record, where the event is a watermark.
    spare: Vec<Value>,
    // Whether the values of the event fit the schema that it was read by.
    values_fit: bool,
    // What the times of the last records began with.
    fronts: Fronts,
}

impl EventReader {
    ghost use Rattle.std.specs.Prelude.{◌≡◌, ◌≢◌, ◌≤◌, [], length, max, pos, IfErr, OnOk, Err, None, Ok, Some, slice_get};
    ghost use Rattle.csv.specs.Records.{fields_of};
    ghost use Rattle.wsm_record.specs.Event.{Record, event_of};
    ghost use Rattle.wsm_admission.specs.Clock.{fits_declared};
    ghost use Rattle.wsm_csv.specs.Cells.{event_of_cells, record_tag};
    ghost use Rattle.wsm_csv.specs.KeyedRows.{event_as, said_from};
    ghost use Rattle.wsm_csv.specs.Refused.{IfFault};
    ghost use Rattle.wsm_csv.specs.EventReader.{event_read, fits_read, room_of, spare_of};

    /// A reader that has read no row. A record without values stands there.
    pub fn new(alloc: Global) -> EventReader
        ensures event { event_read result ≡ Record None (pos 0) [] }
        ensures room { (room_of result ≡ 0) × (spare_of result ≡ 0) }
    {
        EventReader {
            event: Event::Record {
                key: None,
                time: 0,
                values: Vec::new(alloc),
            },
            spare: Vec::new(alloc),
            values_fit: true,
            fronts: Fronts::new(),
        }
    }

    /// Reads the event of a row, as [`read_row`](crate::read_row) does. Where there is room for a value
    /// of each field no memory is asked for, and no room is given back; else there is room for these
    /// and no more. A second vector beside the record's gets no more room. After a refusal any event stands there.
    #[inline(always)]
    pub fn read(&mut self, schema: &Schema, row: &ByteRecord) -> Result<(), RowRefusal>
        ensures event { OnOk result (event_of_cells schema.now (fields_of row.now) ≡ Ok (event_read self.new)) }
        ensures fits { OnOk result (fits_read self.new ≡ fits_declared schema.now (event_read self.new)) }
        ensures fault { IfErr result (λ r. IfFault r (λ f. event_of_cells schema.now (fields_of row.now) ≡ Err f)) }
        ensures memory { result ≡ Err RowRefusal.Memory → slice_get (fields_of row.now) 0 ≡ Some record_tag }
        ensures room { length schema.now.fields ≤ room_of self.old → result ≢ Err RowRefusal.Memory }
        ensures kept { room_of self.old ≤ room_of self.new }
        ensures few { room_of self.new ≤ max (room_of self.old) (length schema.now.fields) }
        ensures spare { spare_of self.new ≤ spare_of self.old }
    {
        self.read_from(schema, row, KeyFrom::Cell)
    }

    /// The same, but a record has this key: its cell is of any text, and isn't looked up.
    pub fn read_as(
        &mut self,
        schema: &Schema,
        row: &ByteRecord,
        key: Option<u32>,
    ) -> Result<(), RowRefusal>
        ensures event { OnOk result (event_as schema.now key (fields_of row.now) ≡ Ok (event_read self.new)) }
        ensures fits { OnOk result (fits_read self.new ≡ fits_declared schema.now (event_read self.new)) }
        ensures fault { IfErr result (λ r. IfFault r (λ f. event_of_cells schema.now (fields_of row.now) ≡ Err f)) }
        ensures memory { result ≡ Err RowRefusal.Memory → slice_get (fields_of row.now) 0 ≡ Some record_tag }
        ensures room { length schema.now.fields ≤ room_of self.old → result ≢ Err RowRefusal.Memory }
        ensures kept { room_of self.old ≤ room_of self.new }
        ensures few { room_of self.new ≤ max (room_of self.old) (length schema.now.fields) }
        ensures spare { spare_of self.new ≤ spare_of self.old }
    {
        self.read_from(schema, row, KeyFrom::Number(key))
    }

    // Reads the event of a row, with its key from there.
    #[inline(always)]
    fn read_from(
        &mut self,
        schema: &Schema,
        row: &ByteRecord,
        from: KeyFrom,
    ) -> Result<(), RowRefusal>
        ensures event { OnOk result (said_from from (event_of_cells schema.now (fields_of row.now)) ≡ Ok (event_read self.new)) }
        ensures fits { OnOk result (fits_read self.new ≡ fits_declared schema.now (event_read self.new)) }
        ensures fault { IfErr result (λ r. IfFault r (λ f. event_of_cells schema.now (fields_of row.now) ≡ Err f)) }
        ensures memory { result ≡ Err RowRefusal.Memory → slice_get (fields_of row.now) 0 ≡ Some record_tag }
        ensures room { length schema.now.fields ≤ room_of self.old → result ≢ Err RowRefusal.Memory }
        ensures kept { room_of self.old ≤ room_of self.new }
        ensures few { room_of self.new ≤ max (room_of self.old) (length schema.now.fields) }
        ensures spare { spare_of self.new ≤ spare_of self.old }
    {
        match read_tag(row) {
            Some(Tag::Record) => {
                let fronts = &mut self.fronts;
                self.values_fit = read_record(
                    schema,
                    row,
                    from,
                    fronts,
                    &mut self.event,
                    &mut self.spare,
                )?;
                Ok(())
            }
            Some(Tag::Watermark) => {
                read_watermark(schema, row, &mut self.event, &mut self.spare)?;
                self.values_fit = true;
                Ok(())
            }
            None => Err(RowRefusal::Fault(RowFault::BadTag)),
        }
    }

    /// The event that was read last.
    pub fn event(&self) -> &Event
        ensures { event_of result.now ≡ event_read self.now }
    {
        &self.event
    }

    /// Whether the values of the event that was read last fit the schema that it was read by. A
    /// watermark has none to judge.
    pub fn values_fit(&self) -> bool
        ensures { result ≡ fits_read self.now }
    {
        self.values_fit
    }

    /// The event that was read last, by itself.
    pub(crate) fn into_event(self) -> Event
        ensures { event_of result ≡ event_read self }
    {
        self.event
    }
}

// Reads a record in place of an event, up to the first fault, with its key from there. Answers whether
// its values fit the schema.
#[inline(always)]
fn read_record(
    schema: &Schema,
    row: &ByteRecord,
    from: KeyFrom,
    fronts: &mut Fronts,
    event: &mut Event,
    spare: &mut Vec<Value>,
) -> Result<bool, RowRefusal>
    ensures event { OnOk result (said_from from (record_of schema.now (drop 1 (fields_of row.now))) ≡ Ok (event_of event.new)) }
    ensures fits { IfOk result (λ fits. fits ≡ fits_declared schema.now (event_of event.new)) }
    ensures fault { IfErr result (λ r. IfFault r (λ f. record_of schema.now (drop 1 (fields_of row.now)) ≡ Err f)) }
    ensures room { length schema.now.fields ≤ room_in event.old (vec_capacity spare.old) → result ≢ Err RowRefusal.Memory }
    ensures kept { room_in event.old (vec_capacity spare.old) ≤ room_in event.new (vec_capacity spare.new) }
    ensures few { room_in event.new (vec_capacity spare.new) ≤ max (room_in event.old (vec_capacity spare.old)) (length schema.now.fields) }
    ensures spare { spare_in event.new (vec_capacity spare.new) ≤ spare_in event.old (vec_capacity spare.old) }
{
    let fields = schema.fields();
    if row.len() != RECORD_HEAD + fields.len() {
        return Err(RowRefusal::Fault(RowFault::CellCount));
    }
    let key = match from {
        KeyFrom::Cell => schema.key_number(cell_at(row, 1)),
        KeyFrom::Number(key) => key,
    };
    let time = fronts
        .read_number(cell_at(row, 2))
        .ok_or(RowFault::BadNumber)?;
    begin_record(event, spare, key, time);
    match event {
        Event::Record { values, .. } => read_values(fields, row, values),
        // A record was begun.
        Event::Watermark { .. } => Ok(true),
    }
}

// Has a record of a key and a time stand there, with the vector of the record that stood there or else
// the spare one.
#[inline(always)]
fn begin_record(event: &mut Event, spare: &mut Vec<Value>, key: Option<u32>, time: i64)
    ensures begun { event_of event.new ≡ Record key time (values_in event.new) }
    ensures room { room_in event.new (vec_capacity spare.new) ≡ room_in event.old (vec_capacity spare.old) }
    ensures spare { spare_in event.new (vec_capacity spare.new) ≤ spare_in event.old (vec_capacity spare.old) }
{
    match event {
        Event::Record { key: place, .. } => *place = key,
        Event::Watermark { .. } => {
            let alloc = *spare.allocator();
            *event = Event::Record {
                key,
                time,
                values: mem::replace(spare, Vec::new(alloc)),
            };
        }
    }
    if let Event::Record { time: place, .. } = event {
        *place = time;
    }
}

// Reads a watermark in place of an event, whose vector is then the spare one if it was a record.
#[cold]
fn read_watermark(
    schema: &Schema,
    row: &ByteRecord,
    event: &mut Event,
    spare: &mut Vec<Value>,
) -> Result<(), RowFault>
    ensures event { OnOk result (watermark_of schema.now (drop 1 (fields_of row.now)) ≡ Ok (event_of event.new)) }
    ensures fault { IfErr result (λ f. watermark_of schema.now (drop 1 (fields_of row.now)) ≡ Err f) }
    ensures kept { room_in event.new (vec_capacity spare.new) ≡ room_in event.old (vec_capacity spare.old) }
    ensures spare { spare_in event.new (vec_capacity spare.new) ≤ spare_in event.old (vec_capacity spare.old) }
{
    let mark = read_mark(schema.sources(), row)?;
    if let Event::Record { values, .. } = mem::replace(event, mark) {
        *spare = values;
    }
    Ok(())
}
