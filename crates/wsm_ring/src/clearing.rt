//! Slots of a ring that are cleared as their windows expire.

ghost use Rattle.std.specs.Prelude.{◌≡◌, ◌⊎◌, ◌+◌, ◌^◌, ◌≤◌, ◌<◌, ℕ, Some, length};
ghost use Rattle.wsm_slots.specs.Layout.{with_slot};
ghost use Rattle.wsm_ring.specs.Ring.{AreBetween, AreCleared, AreOfRing, IsOnGrid, held, kept_slot};
ghost use Rattle.wsm_slots.specs.Slots.{slot_at};

use crate::ring::Ring;
use wsm_slots::Slots;

/// Clears the slots of windows from a first to a last one that expire. Tells the first window that
/// doesn't, and how many entries are gone.
pub(crate) fn clear_expired(
    ring: Ring,
    slots: &mut Slots,
    first: i64,
    last: i64,
    limit: i64,
) -> (i64, usize)
    requires all { AreOfRing ring slots.old.slots }
    requires between { AreBetween first last slots.old.slots }
    requires first { IsOnGrid ring first }
    ensures cleared { AreCleared slots.old slots.new result.1 }
    ensures kept { (i : ℕ) → slot_at slots.new.slots i ≡ kept_slot limit (slot_at slots.old.slots i) }
    ensures first { IsOnGrid ring result.0 }
    ensures between { AreBetween result.0 last slots.new.slots }
{
    let mut start = first;
    let mut cleared = 0;
    if let Some(latest) = limit.checked_sub(ring.size) {
        let last = last.min(latest);
        while start <= last {
            cleared += clear_row(slots, ring.row(start), ring.keys, limit);
            start += ring.period;
        }
    }
    (start, cleared)
}

// Clears the slots of a row whose entries expire, and tells how many they were.
fn clear_row(slots: &mut Slots, row: usize, keys: usize, limit: i64) -> usize
    requires within { row + keys ≤ length slots.old.slots }
    requires few { length slots.old.slots ≤ 2 ^ 32 }
    ensures cleared { AreCleared slots.old slots.new result }
    ensures inside { (i : ℕ) → row ≤ i → i < row + keys → slot_at slots.new.slots i ≡ kept_slot limit (slot_at slots.old.slots i) }
    ensures outside { (i : ℕ) → (i < row) ⊎ (row + keys ≤ i) → slot_at slots.new.slots i ≡ slot_at slots.old.slots i }
{
    let mut cleared = 0;
    for i in row..row + keys {
        cleared += clear_slot(slots, i, limit);
    }
    cleared
}

// Clears a slot whose entry expires, and tells how many fewer entries there are.
fn clear_slot(slots: &mut Slots, slot: usize, limit: i64) -> usize
    requires { slot < length slots.old.slots }
    ensures slots { slots.new ≡ with_slot slot (kept_slot limit (slot_at slots.old.slots slot)) slots.old }
    ensures len { length (held slots.new.slots) + result ≡ length (held slots.old.slots) }
{
    match slots.place(slot) {
        Some(place) if place.end <= limit => {
            slots.clear(slot);
            1
        }
        _ => 0,
    }
}
