//! What was read of a line.
ghost use Rattle.std.specs.Prelude.{◌≡◌, IfErr, OnOk, Err, Ok};
ghost use Rattle.wsm_record.specs.Event.{event_of};
ghost use Rattle.wsm_lines.specs.ClockName.{clock_at};
ghost use Rattle.wsm_lines.specs.Event.{event_in};
ghost use Rattle.wsm_lines.specs.Fault.{IfFault};
ghost use Rattle.wsm_lines.specs.Identifier.{identifier_at, identifier_held};
ghost use Rattle.wsm_lines.specs.Key.{declared_by, key_at};
ghost use Rattle.wsm_lines.specs.Seen.{taken_seen};

use crate::clock_name::read_clock;
use crate::event::read_record;
use crate::fault::LineRefusal;
use crate::identifier::read_identifier;
use crate::lookup::Lookup;
use crate::scalar::Taken;
use crate::short_text::ShortText;
use crate::source::Source;
use std::alloc::Global;
use wsm_record::Event;

/// What was read of a line. It keeps its room from line to line.
#[derive(Drop)]
pub struct Reading {
    /// Before the first event, a record without values.
    pub event: Event,
    /// The bytes of the identifier: none where there is no identifier, since no identifier is empty.
    pub identifier: ShortText,
    /// The bytes of the clock's name: none where the line names no clock.
    pub clock: ShortText,
    /// The text of the key of the last line whose key was to be looked up later.
    pub key: ShortText,
}

/// Reads what a line says, its event, its identifier and the clock that it names, in place of what was
/// read. Where the key is looked up later its text stands there too.
pub(crate) fn read_taken(
    alloc: Global,
    source: &Source,
    lookup: Lookup<'_>,
    taken: &Taken<'_>,
    reading: &mut Reading,
) -> Result<(), LineRefusal>
    ensures event { OnOk result (event_in source.now (declared_by lookup.entry) (taken_seen taken.now) ≡ Ok (event_of reading.new.event)) }
    ensures identifier { OnOk result (identifier_at source.now.identifier (taken_seen taken.now) ≡ Ok (identifier_held reading.new.identifier)) }
    ensures key { lookup.entry ≡ Lookup.Later → OnOk result (key_at source.now.key (taken_seen taken.now) ≡ Ok reading.new.key) }
    ensures clock { OnOk result (clock_at source.now.clock (taken_seen taken.now) ≡ identifier_held reading.new.clock) }
    ensures fault { IfErr result (λ r. IfFault r (λ f. event_in source.now (declared_by lookup.entry) (taken_seen taken.now) ≡ Err f)) }
{
    read_record(
        alloc,
        source,
        lookup,
        taken,
        &mut reading.event,
        &mut reading.key,
    )?;
    read_identifier(&source.identifier, taken, &mut reading.identifier)?;
    read_clock(&source.clock, taken, &mut reading.clock);
    Ok(())
}
