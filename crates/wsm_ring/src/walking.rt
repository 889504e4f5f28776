//! Entries of a ring in the order of their places.

ghost use Rattle.std.specs.Prelude.{◌≡◌, ◌+◌, ◌^◌, ◌≤◌, ◌<◌, Some, None, IfSome, length, option_map};
ghost use Rattle.std.specs.Option.{is_some};
ghost use Rattle.wsm_ring.specs.Ring.{CanWalk, IsFirstInRow, IsFoundUntil, at_slot, row_of};
ghost use Rattle.wsm_slots.specs.Slots.{slot_at};
ghost use Rattle.wsm_ring.specs.Ring as spec;
ghost use Rattle.wsm_slots.specs.Walk.{place_found};

use crate::ring::Ring;
use wsm_slots::{Slots, Spot};

/// The slot of the first entry from a window and a key on, if that window starts by a last time.
pub(crate) fn first_until(
    ring: Ring,
    slots: &Slots,
    start: i64,
    key: usize,
    last: i64,
) -> Option<usize>
    requires { CanWalk ring slots.now.slots start last }
    ensures { IsFoundUntil ring slots.now.slots start key last result }
{
    let mut start = start;
    let mut key = key;
    while start <= last {
        let found = first_in_row(slots, ring.row(start), start, key, ring.keys);
        if found.is_some() {
            return found;
        }
        start += ring.period;
        key = 0;
    }
    None
}

/// The slot of the first entry from a window and a key on, if that window starts by a last time. The
/// row is the window's.
pub(crate) fn first_on(
    ring: Ring,
    slots: &Slots,
    row: usize,
    start: i64,
    key: usize,
    last: i64,
) -> Option<usize>
    requires can { CanWalk ring slots.now.slots start last }
    requires row { row ≡ row_of ring start }
    requires within { row + ring.keys ≤ length slots.now.slots }
    ensures { IsFoundUntil ring slots.now.slots start key last result }
{
    if last < start {
        return None;
    }
    // Mostly one of the next keys has a pane of the same window.
    let found = first_in_row(slots, row, start, key, ring.keys);
    if found.is_some() {
        return found;
    }
    first_until(ring, slots, start, ring.keys, last)
}

/// Where the entry in a slot is, if one was found.
pub(crate) fn spot_in(slots: &Slots, found: Option<usize>) -> Option<Spot>
    requires { is_some (at_slot slots.now.slots found) ≡ is_some found }
    ensures place { place_found result ≡ option_map (λ e. e.0) (at_slot slots.now.slots found) }
    ensures at { IfSome result (λ spot. found ≡ Some spot.at) }
{
    match found {
        Some(at) => spot_at(slots, at),
        None => None,
    }
}

// The spot of the entry in a slot, if there is one.
fn spot_at(slots: &Slots, at: usize) -> Option<Spot>
    requires { at < length slots.now.slots }
    ensures place { place_found result ≡ option_map (λ e. e.0) (slot_at slots.now.slots at) }
    ensures at { IfSome result (λ spot. spot.at ≡ at) }
{
    match slots.place(at) {
        Some(place) => Some(Spot { place, at }),
        None => None,
    }
}

// The slot of the first entry of a window from a key on.
#[inline(always)]
fn first_in_row(slots: &Slots, row: usize, start: i64, key: usize, keys: usize) -> Option<usize>
    requires within { row + keys ≤ length slots.now.slots }
    requires few { length slots.now.slots ≤ 2 ^ 32 }
    ensures first { IsFirstInRow slots.now.slots row start key keys (at_slot slots.now.slots result) }
    ensures there { is_some (at_slot slots.now.slots result) ≡ is_some result }
{
    for key in key..keys {
        if starts_at(slots, row + key, start) {
            return Some(row + key);
        }
    }
    None
}

// Whether a slot has an entry of the window that starts at a time.
fn starts_at(slots: &Slots, slot: usize, start: i64) -> bool
    requires { slot < length slots.now.slots }
    ensures { result ≡ spec.starts_at start (slot_at slots.now.slots slot) }
{
    match slots.place(slot) {
        Some(place) => place.start == start,
        None => false,
    }
}
