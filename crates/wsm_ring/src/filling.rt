//! Entries that are put into slots of a ring, and taken out.

ghost use Rattle.std.specs.Prelude.{◌≡◌, ◌+◌, ◌<◌, List, Some, None, IfSome, IsTrue, length};
ghost use Rattle.wsm_record.specs.declared.event.Value.{Value as OneValue};
ghost use Rattle.wsm_windows.specs.declared.place.Place.{Place as AnyPlace};
ghost use Rattle.wsm_semantics.specs.Summaries.{Pane as AnyPane};
ghost use Rattle.wsm_fold.specs.Fold.{are_of_kinds};
ghost use Rattle.wsm_slots.specs.Panes.{CanRecord, with_one_more};
ghost use Rattle.wsm_slots.specs.Layout.{IsAsWide, with_slot};
ghost use Rattle.wsm_ring.specs.Ring.{IsTakenOut, held};
ghost use Rattle.wsm_slots.specs.Slots.{pane_of, slot_at};

use wsm_record::{Kind, Value};
use wsm_slots::{Pane, Slots, is_at, rebuilt_place};
use wsm_windows::Place;

/// Puts a record into the pane at a place, which its slot has, and makes a pane of it where the slot
/// has no such pane. The record is folded by the values. Tells how many more entries there are.
#[inline(always)]
pub(crate) fn record_in(
    slots: &mut Slots,
    slot: usize,
    place: Place,
    kinds: &[Kind],
    values: &[Value],
) -> usize
    requires slot { slot < length slots.old.slots }
    // It is the slot of one key's panes.
    requires own { (e : AnyPlace × AnyPane (List OneValue)) → slot_at slots.old.slots slot ≡ Some e → e.0.start ≡ place.start → e.0 ≡ place }
    requires wide { length values.now ≡ slots.old.widths.accumulators }
    requires types { IsTrue (are_of_kinds kinds.now values.now) }
    requires takes { IfSome (pane_of place (slot_at slots.old.slots slot)) (CanRecord kinds.now values.now) }
    ensures slots { slots.new ≡ with_slot slot (Some (place, with_one_more kinds.now values.now (pane_of place (slot_at slots.old.slots slot)))) slots.old }
    ensures len { length (held slots.new.slots) ≡ length (held slots.old.slots) + result }
{
    match slots.place(slot) {
        Some(other) if other.start == place.start => {
            slots.record(slot, kinds, values);
            0
        }
        Some(_) => {
            slots.start(slot, rebuilt_place(place), values);
            0
        }
        None => {
            slots.start(slot, rebuilt_place(place), values);
            1
        }
    }
}

/// Puts a pane into a slot, and tells how many more entries there are.
pub(crate) fn fill(slots: &mut Slots, slot: usize, place: Place, pane: &Pane) -> usize
    requires slot { slot < length slots.old.slots }
    requires wide { IsAsWide slots.old.widths pane.now }
    ensures slots { slots.new ≡ with_slot slot (Some (place, pane.now)) slots.old }
    ensures len { length (held slots.new.slots) ≡ length (held slots.old.slots) + result }
{
    let more = if slots.place(slot).is_none() { 1 } else { 0 };
    slots.put(slot, place, &pane.view());
    more
}

/// Clears a slot where it has the pane at a place, and tells how many fewer entries there are.
pub(crate) fn take_out(slots: &mut Slots, slot: usize, place: Place) -> usize
    ensures widths { slots.new.widths ≡ slots.old.widths }
    ensures slots { IsTakenOut place slot slots.old.slots slots.new.slots }
    ensures len { length (held slots.new.slots) + result ≡ length (held slots.old.slots) }
{
    if is_at(slots, slot, place) {
        slots.clear(slot);
        1
    } else {
        0
    }
}
