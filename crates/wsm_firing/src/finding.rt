//! Where the panes are that can fire.

ghost use Rattle.std.specs.Prelude.{◌≡◌, ◌≢◌, ◌≤ℤ◌, ℕ, ℤ, map, IfSome};
ghost use Rattle.wsm_windows.specs.declared.window.Shape.TheVariants.{Session};
ghost use Rattle.wsm_windows.specs.Life as life;
ghost use Rattle.wsm_windows.specs.Windows.{IsTime};
ghost use Rattle.wsm_windows.specs.Places.{at};
ghost use Rattle.wsm_panes.specs.Held.{IsHeldAt, IsSpot, entries_of};
ghost use Rattle.wsm_slots.specs.Walk.{place_found};
ghost use Rattle.wsm_firing.specs.ByRecord.{AreInOrder};
ghost use Rattle.wsm_firing.specs.ByWatermark.{IsNextBehind, IsNextToFire};

use wsm_panes::{HeldPanes, Spot};
use wsm_rules::Verified;
use wsm_windows::{Windows, live_windows_of};

/// The windows that a record of a time was put into at a mark, where windows lie on a grid.
pub fn windows_of_record(verified: &Verified, time: i64, mark: i64) -> Windows
    requires grid { (gap : ℤ) → verified.now.header.shape ≢ Session gap }
    requires timely { IsTime time }
    requires marked { IsTime mark }
    ensures list { result ≡ life.live_windows_of verified.now.header.shape time verified.now.header.clock.lateness mark }
    ensures order { (key : ℕ) → AreInOrder (map (at key) result) }
{
    let header = verified.program().header();
    live_windows_of(header.shape, time, header.clock.lateness, mark)
}

/// Where the first pane is that can fire as a watermark rises from one mark to another. `expired` is the last end of windows that
/// aren't live at the new one.
#[inline(always)]
pub fn first_to_fire(held: &HeldPanes, expired: i64, old: i64, new: i64) -> Option<Spot>
    requires { expired ≤ℤ new }
    ensures next { IsNextToFire expired old new (entries_of held.now) 0 (place_found result) }
    ensures spot { IfSome result (IsSpot held.now) }
{
    match Spot::rebuilt_found(held.first_due(new)) {
        // Those that don't expire yet may have come on time before.
        Some(spot) if spot.place.end > expired => {
            Spot::rebuilt_found(held.first_due_after(old.max(expired), new))
        }
        found => found,
    }
}

/// Where the pane behind one is that can fire. Between those that expire and those that come on time
/// there can be many that have fired and are still held.
#[inline(always)]
pub fn next_to_fire(held: &HeldPanes, spot: Spot, expired: i64, old: i64, new: i64) -> Option<Spot>
    requires order { expired ≤ℤ new }
    requires held { IsHeldAt held.now spot }
    ensures next { IsNextBehind expired old new (entries_of held.now) spot.place (place_found result) }
    ensures spot { IfSome result (IsSpot held.now) }
{
    if spot.place.end > expired {
        return held.next_due(spot, new);
    }
    let next = held.next_due(spot, expired);
    if next.is_some() {
        return next;
    }
    Spot::rebuilt_found(held.first_due_after(old.max(expired), new))
}
