//! From a line to what it says.
ghost use Rattle.std.specs.Prelude.{◌≡◌, ◌≢◌, IfErr, OnOk, Err};
ghost use Rattle.wsm_lines.specs.Fault.{IfFault, on_ok};
ghost use Rattle.wsm_lines.specs.Heading.{headed_in};
ghost use Rattle.wsm_lines.specs.Key.{declared_by};
ghost use Rattle.wsm_lines.specs.Members.{PassesSource};
ghost use Rattle.wsm_lines.specs.Reading.{HoldsClock, HoldsEvent, HoldsIdentifier, HoldsKey, TellsFault};
ghost use Rattle.wsm_lines.specs.Said.{taken_access, taken_json, taken_under};
ghost use Rattle.wsm_lines.specs.Seen.{heading_seen};
ghost use Rattle.wsm_lines.specs.Text.{text_in};

use crate::fault::{LineFault, LineRefusal};
use crate::heading::{Heading, begin};
use crate::lookup::Lookup;
use crate::members::sift;
use crate::name_filter::NameFilter;
use crate::reading::{Reading, read_taken};
use crate::room::Room;
use crate::rows::read_csv;
use crate::scalar::Taken;
use crate::source::{Format, Source};
use crate::tagged::read_tagged_row;
use crate::text::text_in;
use json::{Error, Scratch};
use std::alloc::Global;
use wsm_parts::access_of;

// Reads what a line of JSON says.
fn read_json(
    alloc: Global,
    source: &Source,
    filter: &NameFilter,
    lookup: Lookup<'_>,
    first: bool,
    line: &[u8],
    scratch: &mut Scratch,
    reading: &mut Reading,
) -> Result<(), LineRefusal>
    requires { PassesSource filter.now.buckets source.now }
    ensures event { OnOk result (HoldsEvent source.now (declared_by lookup.entry) (on_ok (text_in first source.now.longest line.now) taken_json) reading.new) }
    ensures identifier { OnOk result (HoldsIdentifier source.now (on_ok (text_in first source.now.longest line.now) taken_json) reading.new) }
    ensures key { lookup.entry ≡ Lookup.Later → OnOk result (HoldsKey source.now (on_ok (text_in first source.now.longest line.now) taken_json) reading.new) }
    ensures clock { OnOk result (HoldsClock source.now (on_ok (text_in first source.now.longest line.now) taken_json) reading.new) }
    ensures fault { IfErr result (λ r. IfFault r (TellsFault source.now (declared_by lookup.entry) (on_ok (text_in first source.now.longest line.now) taken_json))) }
{
    let text = text_in(first, source.longest, line)?;
    match sift(alloc, filter, text, scratch) {
        Ok(value) => read_taken(alloc, source, lookup, &Taken::Json(value), reading),
        Err(Error::Invalid) => Err(LineRefusal::Fault(LineFault::NotJson)),
        Err(_) => Err(LineRefusal::Memory),
    }
}

// Reads what a line of an access log says.
fn read_access(
    alloc: Global,
    source: &Source,
    lookup: Lookup<'_>,
    first: bool,
    line: &[u8],
    reading: &mut Reading,
) -> Result<(), LineRefusal>
    ensures event { OnOk result (HoldsEvent source.now (declared_by lookup.entry) (on_ok (text_in first source.now.longest line.now) taken_access) reading.new) }
    ensures identifier { OnOk result (HoldsIdentifier source.now (on_ok (text_in first source.now.longest line.now) taken_access) reading.new) }
    ensures key { lookup.entry ≡ Lookup.Later → OnOk result (HoldsKey source.now (on_ok (text_in first source.now.longest line.now) taken_access) reading.new) }
    ensures clock { OnOk result (HoldsClock source.now (on_ok (text_in first source.now.longest line.now) taken_access) reading.new) }
    ensures fault { IfErr result (λ r. IfFault r (TellsFault source.now (declared_by lookup.entry) (on_ok (text_in first source.now.longest line.now) taken_access))) }
{
    let text = text_in(first, source.longest, line)?;
    match access_of(text.as_bytes()) {
        Some(access) => read_taken(alloc, source, lookup, &Taken::Access(access), reading),
        None => Err(LineRefusal::Fault(LineFault::NotAccess)),
    }
}

/// Reads what a line says, which comes without a carriage return, below a heading.
pub(crate) fn read_line(
    alloc: Global,
    source: &Source,
    filter: &NameFilter,
    lookup: Lookup<'_>,
    line: &[u8],
    heading: &mut Heading,
    room: &mut Room,
    reading: &mut Reading,
) -> Result<(), LineRefusal>
    requires { PassesSource filter.now.buckets source.now }
    ensures event { OnOk result (HoldsEvent source.now (declared_by lookup.entry) (taken_under source.now (heading_seen heading.old) line.now) reading.new) }
    ensures identifier { OnOk result (HoldsIdentifier source.now (taken_under source.now (heading_seen heading.old) line.now) reading.new) }
    ensures key { lookup.entry ≡ Lookup.Later → OnOk result (HoldsKey source.now (taken_under source.now (heading_seen heading.old) line.now) reading.new) }
    ensures clock { OnOk result (HoldsClock source.now (taken_under source.now (heading_seen heading.old) line.now) reading.new) }
    ensures fault { IfErr result (λ r. IfFault r (TellsFault source.now (declared_by lookup.entry) (taken_under source.now (heading_seen heading.old) line.now))) }
    ensures heading { result ≢ Err LineRefusal.Memory →
        heading_seen heading.new ≡ headed_in source.now.format source.now.longest (heading_seen heading.old) line.now }
{
    match &source.format {
        Format::Json => {
            let first = begin(heading);
            read_json(
                alloc,
                source,
                filter,
                lookup,
                first,
                line,
                &mut room.scratch,
                reading,
            )
        }
        Format::Access => {
            let first = begin(heading);
            read_access(alloc, source, lookup, first, line, reading)
        }
        Format::Rows => {
            let first = begin(heading);
            read_tagged_row(alloc, source, lookup, first, line, room, reading)
        }
        Format::Csv(form) => read_csv(alloc, source, form, lookup, line, heading, room, reading),
    }
}
