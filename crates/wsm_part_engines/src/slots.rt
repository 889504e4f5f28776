//! Engines by the numbers of their parts.

ghost use Rattle.std.specs.Prelude.{◌≡◌, ◌↔◌, ◌<◌, ◌≤◌, ◌^◌, ℕ, List, length, Some, None, IsSome, IsTrue, OnOk, OnErr};
ghost use Rattle.wsm_record.specs.Event.{Event as AnyEvent, event_of};
ghost use Rattle.wsm_part_engines.specs.Fits.{engine_at};
ghost use Rattle.wsm_part_engines.specs.Slots.{Feeds, FeedsAll, FeedsOne, Holds, IsAdmitted, IsJudged, Puts, one_if_some, open_count, rows_of, selected_on};

use std::alloc::AllocError;
use wsm_engine::Engine;
use wsm_record::Event;
use wsm_semantics::OutRow;

/// What an engine did with an event.
#[derive(Clone, Copy)]
pub struct Fed {
    /// How many panes fired.
    pub fired: u64,
    /// Whether it selected a record.
    pub selected: bool,
}

/// Whether a part has an engine.
pub fn is_open(slots: &[Option<Engine>], part: usize) -> bool
    ensures { IsTrue result ↔ IsSome (engine_at slots.now part) }
{
    match slots.get(part) {
        Some(slot) => slot.is_some(),
        None => false,
    }
}

/// How many parts have an engine.
pub fn count_open(slots: &[Option<Engine>]) -> usize
    ensures { result ≡ open_count slots.now }
{
    let mut open = 0;
    for slot in slots {
        open += one_if_open(slot);
    }
    open
}

fn one_if_open(slot: &Option<Engine>) -> usize
    ensures count { result ≡ one_if_some slot.now }
    ensures most { result ≤ 1 }
{
    match slot {
        Some(_) => 1,
        None => 0,
    }
}

/// Puts an engine there for a part that has room and no engine.
pub fn put(slots: &mut Vec<Option<Engine>>, part: usize, engine: Engine)
    requires { part < length slots.old.items }
    ensures many { length slots.new.items ≡ length slots.old.items }
    ensures put { Puts part engine slots.old.items slots.new.items }
{
    // One call, where an assignment lets each part of what was there go.
    drop(slots[part].replace(engine));
}

/// Makes room for the engine of a part, and of all before it.
pub fn make_room(slots: &mut Vec<Option<Engine>>, part: usize) -> Result<(), AllocError>
    requires part { part < 2 ^ 32 }
    requires few { length slots.old.items ≤ 2 ^ 32 }
    ensures few { length slots.new.items ≤ 2 ^ 32 }
    ensures room { OnOk result (part < length slots.new.items) }
    ensures same { (other : ℕ) → engine_at slots.new.items other ≡ engine_at slots.old.items other }
{
    while slots.len() <= part {
        slots.push(None)?;
    }
    Ok(())
}

/// Feeds the engine of a part a record, if there is one. No rule of it refuses the record.
pub fn feed_one(slots: &mut [Option<Engine>], part: usize, event: &Event) -> Fed
    requires { IsAdmitted (event_of event.now) (engine_at slots.old part) }
    ensures feeds { FeedsOne part slots.old slots.new (event_of event.now) result.fired }
    ensures selected { (fed : List AnyEvent) → Holds (engine_at slots.old part) fed →
        result.selected ≡ selected_on (engine_at slots.old part) fed (event_of event.now) }
{
    if part < slots.len() {
        feed_record(&mut slots[part], event)
    } else {
        Fed {
            fired: 0,
            selected: false,
        }
    }
}

// Feeds an engine a record that none of its rules refuses, if there is one.
fn feed_record(slot: &mut Option<Engine>, event: &Event) -> Fed
    requires { IsAdmitted (event_of event.now) slot.old }
    ensures feeds { Feeds slot.old slot.new (event_of event.now) result.fired }
    ensures selected { (fed : List AnyEvent) → Holds slot.old fed → result.selected ≡ selected_on slot.old fed (event_of event.now) }
{
    match slot {
        Some(engine) => {
            let reply = engine.feed_admitted(event);
            Fed {
                fired: reply.fired,
                selected: reply.selected,
            }
        }
        None => Fed {
            fired: 0,
            selected: false,
        },
    }
}

/// Feeds each engine an event, and answers how many panes fire together, at most the greatest `u64`.
pub fn feed_all(slots: &mut [Option<Engine>], event: &Event, values_fit: bool) -> u64
    requires { (part : ℕ) → IsJudged values_fit (event_of event.now) (engine_at slots.old part) }
    ensures { FeedsAll slots.old slots.new (event_of event.now) result }
{
    let mut fired = 0u64;
    for slot in slots.iter_mut() {
        fired = fired.saturating_add(feed_slot(slot, event, values_fit).fired);
    }
    fired
}

// Feeds an engine an event, if there is one.
fn feed_slot(slot: &mut Option<Engine>, event: &Event, values_fit: bool) -> Fed
    requires { IsJudged values_fit (event_of event.now) slot.old }
    ensures feeds { Feeds slot.old slot.new (event_of event.now) result.fired }
    ensures selected { (fed : List AnyEvent) → Holds slot.old fed → result.selected ≡ selected_on slot.old fed (event_of event.now) }
{
    match slot {
        Some(engine) => {
            let reply = engine.feed_judged(event, values_fit);
            Fed {
                fired: reply.fired,
                selected: reply.selected,
            }
        }
        None => Fed {
            fired: 0,
            selected: false,
        },
    }
}

/// The rows of the last event that the engine of a part was fed, if it has one.
pub fn rows(slots: &[Option<Engine>], part: usize) -> &[OutRow]
    ensures { result.now ≡ rows_of (engine_at slots.now part) }
{
    match slots.get(part) {
        Some(slot) => rows_of_slot(slot),
        None => &[],
    }
}

fn rows_of_slot(slot: &Option<Engine>) -> &[OutRow]
    ensures { result.now ≡ rows_of slot.now }
{
    match slot {
        Some(engine) => engine.rows(),
        None => &[],
    }
}
