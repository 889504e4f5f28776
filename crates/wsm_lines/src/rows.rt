//! Lines of CSV: a header, and the rows below it. Rows of a query's own form are read in `tagged`.
ghost use Rattle.std.specs.Prelude.{◌≡◌, ◌≢◌, IfErr, OnOk, Err, false};
ghost use Rattle.wsm_parts.specs.Csv.{cells_of};
ghost use Rattle.wsm_lines.specs.Fault.{IfFault, on_ok};
ghost use Rattle.wsm_lines.specs.Heading.{headed, is_unread};
ghost use Rattle.wsm_lines.specs.Key.{declared_by};
ghost use Rattle.wsm_lines.specs.Reading.{HoldsClock, HoldsEvent, HoldsIdentifier, HoldsKey, TellsFault};
ghost use Rattle.wsm_lines.specs.Said.{taken_below, taken_row};
ghost use Rattle.wsm_lines.specs.Seen.{header_seen, heading_seen};
ghost use Rattle.wsm_lines.specs.Text.{text_in};

use crate::fault::{LineFault, LineRefusal};
use crate::heading::{Header, Heading, read_first};
use crate::lookup::Lookup;
use crate::reading::{Reading, read_taken};
use crate::room::Room;
use crate::scalar::Taken;
use crate::source::{CsvForm, Source};
use crate::text::text_in;
use std::alloc::Global;
use wsm_parts::find_cells;

// Reads what a row below a header says.
fn read_row(
    alloc: Global,
    source: &Source,
    separator: u8,
    lookup: Lookup<'_>,
    header: &Header,
    text: &[u8],
    room: &mut Room,
    reading: &mut Reading,
) -> Result<(), LineRefusal>
    ensures event { OnOk result (HoldsEvent source.now (declared_by lookup.entry)
        (taken_row header.now.columns.items header.now.count (cells_of separator text.now)) reading.new) }
    ensures identifier { OnOk result
        (HoldsIdentifier source.now (taken_row header.now.columns.items header.now.count (cells_of separator text.now)) reading.new) }
    ensures key { lookup.entry ≡ Lookup.Later → OnOk result (HoldsKey source.now (taken_row header.now.columns.items header.now.count (cells_of separator text.now)) reading.new) }
    ensures clock { OnOk result (HoldsClock source.now (taken_row header.now.columns.items header.now.count (cells_of separator text.now)) reading.new) }
    ensures fault { IfErr result (λ r. IfFault r
        (TellsFault source.now (declared_by lookup.entry) (taken_row header.now.columns.items header.now.count (cells_of separator text.now)))) }
{
    if !find_cells(separator, text, &mut room.spans)? {
        return Err(LineRefusal::Fault(LineFault::NotCsv));
    }
    if room.spans.len() != header.count {
        return Err(LineRefusal::Fault(LineFault::CellCount));
    }
    room.texts.read(alloc, text, &room.spans, &header.columns)?;
    read_taken(alloc, source, lookup, &Taken::Csv(&room.texts), reading)
}

// Reads what a line below a header says.
fn read_below(
    alloc: Global,
    source: &Source,
    form: &CsvForm,
    lookup: Lookup<'_>,
    header: &Header,
    line: &[u8],
    room: &mut Room,
    reading: &mut Reading,
) -> Result<(), LineRefusal>
    ensures event { OnOk result (HoldsEvent source.now (declared_by lookup.entry)
        (on_ok (text_in false source.now.longest line.now) (taken_below form.now (header_seen header.now))) reading.new) }
    ensures identifier { OnOk result
        (HoldsIdentifier source.now (on_ok (text_in false source.now.longest line.now) (taken_below form.now (header_seen header.now))) reading.new) }
    ensures key { lookup.entry ≡ Lookup.Later → OnOk result (HoldsKey source.now
        (on_ok (text_in false source.now.longest line.now) (taken_below form.now (header_seen header.now))) reading.new) }
    ensures clock { OnOk result (HoldsClock source.now
        (on_ok (text_in false source.now.longest line.now) (taken_below form.now (header_seen header.now))) reading.new) }
    ensures fault { IfErr result (λ r. IfFault r
        (TellsFault source.now (declared_by lookup.entry) (on_ok (text_in false source.now.longest line.now) (taken_below form.now (header_seen header.now))))) }
{
    let text = text_in(false, source.longest, line)?.as_bytes();
    if text == header.text.as_slice() {
        return Err(LineRefusal::Fault(LineFault::Header));
    }
    read_row(
        alloc,
        source,
        form.separator,
        lookup,
        header,
        text,
        room,
        reading,
    )
}

/// Reads what a line of CSV says.
pub(crate) fn read_csv(
    alloc: Global,
    source: &Source,
    form: &CsvForm,
    lookup: Lookup<'_>,
    line: &[u8],
    heading: &mut Heading,
    room: &mut Room,
    reading: &mut Reading,
) -> Result<(), LineRefusal>
    ensures event { OnOk result (HoldsEvent source.now (declared_by lookup.entry)
        (on_ok (text_in (is_unread (heading_seen heading.old)) source.now.longest line.now) (taken_below form.now (heading_seen heading.old))) reading.new) }
    ensures identifier { OnOk result
        (HoldsIdentifier source.now
        (on_ok (text_in (is_unread (heading_seen heading.old)) source.now.longest line.now) (taken_below form.now (heading_seen heading.old))) reading.new) }
    ensures key { lookup.entry ≡ Lookup.Later → OnOk result (HoldsKey source.now
        (on_ok (text_in (is_unread (heading_seen heading.old)) source.now.longest line.now) (taken_below form.now (heading_seen heading.old))) reading.new) }
    ensures clock { OnOk result (HoldsClock source.now
        (on_ok (text_in (is_unread (heading_seen heading.old)) source.now.longest line.now) (taken_below form.now (heading_seen heading.old))) reading.new) }
    ensures fault { IfErr result (λ r. IfFault r
        (TellsFault source.now (declared_by lookup.entry)
        (on_ok (text_in (is_unread (heading_seen heading.old)) source.now.longest line.now) (taken_below form.now (heading_seen heading.old))))) }
    ensures heading { result ≢ Err LineRefusal.Memory → heading_seen heading.new ≡ headed form.now source.now.longest (heading_seen heading.old) line.now }
{
    match heading {
        Heading::Unread => {
            let fault = read_first(alloc, form, source.longest, line, heading, &mut room.spans)?;
            Err(LineRefusal::Fault(fault))
        }
        Heading::Broken => {
            text_in(false, source.longest, line)?;
            Err(LineRefusal::Fault(LineFault::BadHeader))
        }
        Heading::Known(header) => read_below(
            alloc, source, form, lookup, header, line, room, reading,
        ),
    }
}
