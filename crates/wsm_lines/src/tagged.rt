//! Lines that are rows of a query's own form.
ghost use Rattle.std.specs.Prelude.{◌≡◌, IfErr, IfOk, OnOk, length};
ghost use Rattle.wsm_lines.specs.Fault.{IfFault, on_ok};
ghost use Rattle.wsm_lines.specs.Key.{declared_by};
ghost use Rattle.wsm_lines.specs.Reading.{HoldsClock, HoldsEvent, HoldsIdentifier, HoldsKey, TellsFault};
ghost use Rattle.wsm_lines.specs.Said.{if_record, taken_record};
ghost use Rattle.wsm_lines.specs.Text.{text_in};

use crate::fault::{LineFault, LineRefusal};
use crate::lookup::Lookup;
use crate::reading::{Reading, read_taken};
use crate::room::Room;
use crate::scalar::Taken;
use crate::source::{Field, Source};
use crate::text::text_in;
use std::alloc::{AllocError, Global};
use wsm_parts::{Span, Texts, find_cells};

/// What stands between the cells of a row.
const SEPARATOR: u8 = b',';

/// The cells of a record in front of those of its fields: the tag, the key and the time.
const CELLS_AHEAD: usize = 3;

// Takes the text of a row apart, and answers whether it is one of a record with these fields.
fn take_record(
    alloc: Global,
    fields: &[Field],
    text: &[u8],
    spans: &mut Vec<Span>,
    texts: &mut Texts,
) -> Result<bool, AllocError>
    ensures { IfOk result (λ whole. taken_record (length fields.now) text.now ≡ if_record whole texts.new) }
{
    if !find_cells(SEPARATOR, text, spans)? {
        return Ok(false);
    }
    if spans.len() != CELLS_AHEAD + fields.len() {
        return Ok(false);
    }
    texts.read_all(alloc, text, spans)?;
    Ok(texts.at(0) == b"r".as_slice())
}

/// Reads what a line says that is a row of a query's own form.
pub(crate) fn read_tagged_row(
    alloc: Global,
    source: &Source,
    lookup: Lookup<'_>,
    first: bool,
    line: &[u8],
    room: &mut Room,
    reading: &mut Reading,
) -> Result<(), LineRefusal>
    ensures event { OnOk result (HoldsEvent source.now (declared_by lookup.entry)
        (on_ok (text_in first source.now.longest line.now) (taken_record (length source.now.fields))) reading.new) }
    ensures identifier { OnOk result
        (HoldsIdentifier source.now (on_ok (text_in first source.now.longest line.now) (taken_record (length source.now.fields))) reading.new) }
    ensures key { lookup.entry ≡ Lookup.Later → OnOk result (HoldsKey source.now
        (on_ok (text_in first source.now.longest line.now) (taken_record (length source.now.fields))) reading.new) }
    ensures clock { OnOk result (HoldsClock source.now
        (on_ok (text_in first source.now.longest line.now) (taken_record (length source.now.fields))) reading.new) }
    ensures fault { IfErr result (λ r. IfFault r
        (TellsFault source.now (declared_by lookup.entry) (on_ok (text_in first source.now.longest line.now) (taken_record (length source.now.fields))))) }
{
    let text = text_in(first, source.longest, line)?.as_bytes();
    let fields = source.fields.items();
    if take_record(alloc, fields, text, &mut room.spans, &mut room.texts)? {
        read_taken(alloc, source, lookup, &Taken::Csv(&room.texts), reading)
    } else {
        Err(LineRefusal::Fault(LineFault::NotRow))
    }
}
