//! What of an event passes to the engines.

ghost use Rattle.std.specs.Prelude.{◌≡◌, ◌<◌, ◌^◌, [], ℤ, ℕ, List, Option, IfOk, IsTrue, option_map, length};
ghost use Rattle.wsm_record.specs.Event.{event_of};
ghost use Rattle.wsm_record.specs.Schema.{Declared};
ghost use Rattle.wsm_program.specs.Program.{Program, is_program};
ghost use Rattle.wsm_turns.specs.declared.clocks.Clocks.{Clocks as AnyClocks};
ghost use Rattle.wsm_turns.specs.Known.{Passes, Remembers};
ghost use Rattle.wsm_turns.specs.Turns.{Kept, stamp_of, watermark};
ghost use Rattle.wsm_keyed_told.specs.Tells.{Serves};
ghost use Rattle.wsm_keyed_intake.specs.KeyedLog.{setting_by};

use std::alloc::{AllocError, Global};
use wsm_admission::has_fitting_values;
use wsm_keyed_told::KeyedTold;
use wsm_part_engines::Parts;
use wsm_record::{Event, Schema};
use wsm_turns::{Identifiers, Stamp};
use wsm_windows::is_time;

/// What an event says of time, where its key is one of so many and its values fit what a schema declares: on the clock of its key.
pub fn stamp_among(keys: usize, schema: &Schema, event: &Event) -> Option<Stamp>
    ensures { (d : Declared) → length d.keys ≡ keys → d.fields ≡ schema.now.fields → result ≡ stamp_of d (event_of event.now) }
{
    match event {
        Event::Record {
            key: Some(key),
            time,
            ..
        } => {
            let clock = *key as usize;
            if clock < keys && (has_fitting_values(schema, event) && is_time(*time)) {
                Some(Stamp {
                    clock,
                    time: time.unsigned_abs(),
                })
            } else {
                None
            }
        }
        Event::Record { key: None, .. } => None,
        Event::Watermark { .. } => None,
    }
}

/// No identifier of the records of a program that parts run has come.
pub fn identifiers_of(alloc: Global, parts: &Parts) -> Identifiers
    ensures none { (clocks : Option AnyClocks) (all : List (List ℕ)) (mark : ℤ) → Remembers (setting_by clocks parts.now.program all) mark result [] }
    ensures lawful { IsTrue (is_program parts.now.program) }
{
    let header = parts.header();
    Identifiers::new(alloc, header.clock, header.shape)
}

/// Whether a record with an identifier, if it has one, passes. Takes note of it then.
pub fn passes(
    identifier: Option<&[u8]>,
    time: u64,
    told: &KeyedTold,
    identifiers: &mut Identifiers,
) -> Result<bool, AllocError>
    requires { time < 2 ^ 63 }
    ensures { (clocks : Option AnyClocks) (p : Program) (all : List (List ℕ)) (k : Kept) → Serves p told.now k.fed →
        let w = setting_by clocks p all in Remembers w (watermark w k.fed) identifiers.old k.memory →
        IfOk result (Passes w (watermark w k.fed) identifiers.new (option_map (λ t. t.now) identifier.entry) time k.memory) }
{
    match identifier {
        Some(identifier) => identifiers.pass(identifier, time, told.mark()),
        None => Ok(true),
    }
}
