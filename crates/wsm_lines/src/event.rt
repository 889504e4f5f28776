//! From a line taken apart to an event.
ghost use Rattle.std.specs.Prelude.{◌≡◌, IfErr, OnOk, Err, Ok, Some, bytes_eq, position};
ghost use Rattle.std.specs.Result.{result_map_both};
ghost use Rattle.wsm_record.specs.Event.{Record, event_of};
ghost use Rattle.wsm_lines.specs.Event.{decimal_in, field_in, field_value, has_line_feed, is_key, key_number, key_of, bad_kind, or_other, record_in, text_of, time_at, time_in, truth_of, value_in, values_of, word_in};
ghost use Rattle.wsm_lines.specs.Fault.{IfFault, or_fault};
ghost use Rattle.wsm_lines.specs.InPlace.{values_held};
ghost use Rattle.wsm_lines.specs.Key.{declared_by, key_at};
ghost use Rattle.wsm_lines.specs.Seen.{scalar_seen, taken_seen};

use crate::fault::{LineFault, LineRefusal};
use crate::lookup::Lookup;
use crate::scalar::{Scalar, Taken, scalar_at};
use crate::short_text::ShortText;
use crate::source::{BoolWords, Field, KeyForm, KeyNames, Kind, Source, TimeAt};
use std::alloc::Global;
use wsm_record::{Event, Value};
use wsm_values::{DecimalForm, decimal_of, plain, time_of};

/// The most bytes of a key.
const LONGEST_KEY: usize = 255;

// The text of what stands at a place.
fn text_of<'a>(
    missing: LineFault,
    bad: LineFault,
    scalar: Scalar<'a>,
) -> Result<&'a [u8], LineFault>
    ensures { result_map_both (λ s. s.now) (λ e. e) result ≡ text_of missing bad (scalar_seen scalar.entry) }
{
    match scalar {
        Scalar::Absent => Err(missing),
        Scalar::Odd => Err(bad),
        Scalar::Text(text) | Scalar::Number(text) => Ok(text),
    }
}

fn has_line_feed(text: &[u8]) -> bool
    ensures { result ≡ has_line_feed text.now }
{
    for byte in text {
        if *byte == b'\n' {
            return true;
        }
    }
    false
}

// Whether a text may name a key.
fn is_key(text: &[u8]) -> bool
    ensures { result ≡ is_key text.now }
{
    !text.is_empty() && text.len() <= LONGEST_KEY && !has_line_feed(text)
}

// A number, or else another.
fn or_other(other: Option<u16>, found: Option<u16>) -> Option<u16>
    ensures { result ≡ or_other other found }
{
    match found {
        Some(number) => Some(number),
        None => other,
    }
}

// The number of the key of this name.
fn number_in(lookup: Lookup<'_>, text: &[u8]) -> Option<u32>
    ensures { result ≡ position (bytes_eq text.now) (declared_by lookup.entry).keys }
{
    match lookup {
        Lookup::In(schema) => schema.key_number(text),
        Lookup::Later => None,
    }
}

// The number of the key that a text names.
fn key_number(names: &KeyNames, lookup: Lookup<'_>, text: &[u8]) -> Option<u32>
    ensures { result ≡ key_number names.now (declared_by lookup.entry) text.now }
{
    match names {
        KeyNames::Same => number_in(lookup, text),
        KeyNames::Table(table, other) => or_other(*other, table.number_of(text)).map(u32::from),
        KeyNames::Prefixes(prefixes, other) => or_other(*other, prefixes.number_of(text)).map(
            u32::from,
        ),
    }
}

// Reads the key of a line. Where it is looked up later its text stands there in place of another.
fn read_key(
    key: &KeyForm,
    lookup: Lookup<'_>,
    taken: &Taken<'_>,
    kept: &mut ShortText,
) -> Result<Option<u32>, LineFault>
    ensures number { result ≡ key_of key.now (declared_by lookup.entry) (taken_seen taken.now) }
    ensures kept { lookup.entry ≡ Lookup.Later → OnOk result (key_at key.now (taken_seen taken.now) ≡ Ok kept.new) }
{
    let text = match text_of(
        LineFault::NoKey,
        LineFault::BadKey,
        scalar_at(taken, &key.at),
    ) {
        Ok(text) => text,
        Err(fault) => return Err(fault),
    };
    if !is_key(text) {
        return Err(LineFault::BadKey);
    }
    if let Lookup::Later = lookup {
        kept.set(text);
    }
    Ok(key_number(&key.names, lookup, text))
}

// The time of a text.
fn time_in(time: &TimeAt, text: &[u8]) -> Option<i64>
    ensures { result ≡ time_in time.now text.now }
{
    match str::from_utf8(text) {
        Ok(text) => time_of(&time.form, time.unit, text),
        Err(_) => None,
    }
}

// The time of a line.
fn time_at(time: &TimeAt, taken: &Taken<'_>) -> Result<i64, LineFault>
    ensures { result ≡ time_at time.now (taken_seen taken.now) }
{
    let text = match text_of(
        LineFault::NoTime,
        LineFault::BadTime,
        scalar_at(taken, &time.at),
    ) {
        Ok(text) => text,
        Err(fault) => return Err(fault),
    };
    match time_in(time, text) {
        Some(at) => Ok(at),
        None => Err(LineFault::BadTime),
    }
}

// A number by a form. What JSON itself writes as a number has a point and no groups.
fn decimal_in(form: DecimalForm, scalar: Scalar<'_>) -> Option<i64>
    ensures { result ≡ decimal_in form (scalar_seen scalar.entry) }
{
    match scalar {
        Scalar::Absent | Scalar::Odd => None,
        Scalar::Text(text) => decimal_of(form, text),
        Scalar::Number(text) => decimal_of(plain(form.scale), text),
    }
}

// What a word says, by the words for true and false.
fn truth_of(words: &BoolWords, text: &[u8]) -> Option<bool>
    ensures { result ≡ truth_of words.now text.now }
{
    if words.yes.as_str().as_bytes() == text {
        Some(true)
    } else if words.no.as_str().as_bytes() == text {
        Some(false)
    } else {
        None
    }
}

// The value of a text or of what JSON itself writes as a number, by its field's kind.
fn value_in(kind: &Kind, scalar: Scalar<'_>, text: &[u8]) -> Option<Value>
    requires { word_in (scalar_seen scalar) ≡ Some text.now }
    ensures { result ≡ value_in kind.now (scalar_seen scalar.entry) }
{
    match kind {
        Kind::Whole => Some(Value::Int(decimal_in(plain(0), scalar)?)),
        Kind::Decimal(form) => Some(Value::Int(decimal_in(*form, scalar)?)),
        Kind::Bool(words) => Some(Value::Bool(truth_of(words, text)?)),
        Kind::Enum(table) => Some(Value::Enum(table.number_of(text)?)),
    }
}

// Why a field has no value.
fn bad_kind(kind: &Kind) -> LineFault
    ensures { result ≡ bad_kind kind.now }
{
    match kind {
        Kind::Whole => LineFault::BadWhole,
        Kind::Decimal(_) => LineFault::BadDecimal,
        Kind::Bool(_) => LineFault::BadBool,
        Kind::Enum(_) => LineFault::BadEnum,
    }
}

// The value of a text or of what JSON itself writes as a number, or why it has none.
fn field_of(field: &Field, scalar: Scalar<'_>, text: &[u8]) -> Result<Value, LineFault>
    requires { word_in (scalar_seen scalar) ≡ Some text.now }
    ensures { result ≡ or_fault (bad_kind field.now.kind) (value_in field.now.kind (scalar_seen scalar.entry)) }
{
    match value_in(&field.kind, scalar, text) {
        Some(value) => Ok(value),
        None => Err(bad_kind(&field.kind)),
    }
}

// The value of a field, by what stands at its place.
fn field_in(field: &Field, scalar: Scalar<'_>) -> Result<Value, LineFault>
    ensures { result ≡ field_in field.now (scalar_seen scalar.entry) }
{
    match scalar {
        Scalar::Absent => match field.default {
            Some(value) => Ok(value),
            None => Err(LineFault::NoField),
        },
        Scalar::Odd => Err(bad_kind(&field.kind)),
        Scalar::Text(text) => field_of(field, Scalar::Text(text), text),
        Scalar::Number(text) => field_of(field, Scalar::Number(text), text),
    }
}

// The value of a field.
fn field_value(field: &Field, taken: &Taken<'_>) -> Result<Value, LineFault>
    ensures { result ≡ field_value field.now (taken_seen taken.now) }
{
    field_in(field, scalar_at(taken, &field.at))
}

// Reads the values of all fields in place of those that are there, up to the first fault.
fn read_values(
    fields: &[Field],
    taken: &Taken<'_>,
    values: &mut Vec<Value>,
) -> Result<(), LineRefusal>
    ensures values { OnOk result (values_of fields.now (taken_seen taken.now) ≡ Ok values.new.items) }
    ensures fault { IfErr result (λ r. IfFault r (λ f. values_of fields.now (taken_seen taken.now) ≡ Err f)) }
{
    values.clear();
    for field in fields {
        let value = field_value(field, taken)?;
        values.push(value)?;
    }
    Ok(())
}

// Has a record of a key and a time stand there, with the values that stood there.
fn begin_record(alloc: Global, event: &mut Event, key: Option<u32>, time: i64)
    ensures { event_of event.new ≡ Record key time (values_held event.new) }
{
    match event {
        Event::Record { key: place, .. } => *place = key,
        Event::Watermark { .. } => {
            *event = Event::Record {
                key,
                time,
                values: Vec::new(alloc),
            };
        }
    }
    if let Event::Record { time: place, .. } = event {
        *place = time;
    }
}

/// Reads the record of a line in place of another event. Where its key is looked up later the key's text
/// stands there in place of another.
pub(crate) fn read_record(
    alloc: Global,
    source: &Source,
    lookup: Lookup<'_>,
    taken: &Taken<'_>,
    event: &mut Event,
    kept: &mut ShortText,
) -> Result<(), LineRefusal>
    ensures event { OnOk result (record_in source.now (declared_by lookup.entry) (taken_seen taken.now) ≡ Ok (event_of event.new)) }
    ensures key { lookup.entry ≡ Lookup.Later → OnOk result (key_at source.now.key (taken_seen taken.now) ≡ Ok kept.new) }
    ensures fault { IfErr result (λ r. IfFault r (λ f. record_in source.now (declared_by lookup.entry) (taken_seen taken.now) ≡ Err f)) }
{
    let key = read_key(&source.key, lookup, taken, kept)?;
    let time = time_at(&source.time, taken)?;
    begin_record(alloc, event, key, time);
    match event {
        Event::Record { values, .. } => read_values(source.fields.items(), taken, values),
        // A record was begun.
        Event::Watermark { .. } => Ok(()),
    }
}
