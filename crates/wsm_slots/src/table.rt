//! What a table of panes does.

ghost use Rattle.std.specs.Prelude.{◌≡◌, ◌↔◌, List, IfSome, IsSome, IsTrue, option_map, slice_get};
ghost use Rattle.std.specs.FinMap as map;
ghost use Rattle.wsm_slots.specs.declared.spot.Spot.{Spot as AnySpot};
ghost use Rattle.wsm_slots.specs.Place.{is_kept};
ghost use Rattle.wsm_slots.specs.Walk.{first_past, following, place_due, place_found};
ghost use Rattle.wsm_record.specs.declared.event.Value.{Value as OneValue};
ghost use Rattle.wsm_windows.specs.Places.{place_cmp};
ghost use Rattle.wsm_windows.specs.declared.place.Place.{Place as AnyPlace};
ghost use Rattle.wsm_fold.specs.Fold.{are_of_kinds};

use crate::recording::TakesRecords;
use crate::spot::Spot;
use wsm_record::{Kind, Value};
use wsm_windows::Place;

/// A finite map from places to panes, with room for some of them.
///
/// No call takes memory: the room was reserved when the table was opened.
pub trait PaneTable<P: TakesRecords> {
    ghost Room: { Type 0 };

    ghost panes: { Self → map.FinMap place_cmp P };

    ghost room: { Self → Room };

    // With this room and beside these panes there can be a pane at the place.
    ghost Admits: { Room → map.FinMap place_cmp P → AnyPlace → Type 0 };

    // There is room for these values in a pane.
    ghost Fits: { Room → List OneValue → Type 0 };

    // There is room for what a pane has.
    ghost Holds: { Room → P → Type 0 };

    // Where a spot says its place is, as far as that needn't be asked.
    ghost IsSpot: { Room → AnySpot → Type 0 };

    /// The pane at a place, if one is there.
    fn get(&self, place: Place) -> Option<P>
        ensures pane { result ≡ map.get (panes self.now) place }
        ensures holds { IfSome result (Holds (room self.now)) };

    /// Whether a pane can be set at a place.
    fn admits(&self, place: Place) -> bool
        ensures { IsTrue result ↔ Admits (room self.now) (panes self.now) place };

    /// Sets the pane at a place.
    fn put(&mut self, place: Place, pane: P)
        requires holds { Holds (room self.old) pane }
        requires admits { Admits (room self.old) (panes self.old) place }
        ensures panes { panes self.new ≡ map.insert (panes self.old) place pane }
        ensures room { room self.new ≡ room self.old };

    /// Removes the pane at a place, if one is there.
    fn remove(&mut self, place: Place)
        ensures panes { panes self.new ≡ map.remove (panes self.old) place }
        ensures room { room self.new ≡ room self.old };

    /// Removes the panes of windows with an end of at most the limit, which is in event time.
    fn drop_expired(&mut self, limit: i64)
        ensures panes { panes self.new ≡ map.retain_keys (panes self.old) (is_kept limit) }
        ensures room { room self.new ≡ room self.old };

    /// How many panes there are.
    fn len(&self) -> usize
        ensures { result ≡ map.len (panes self.now) };

    /// Puts a record into the pane at a place, and makes a pane of it where none is. The record is
    /// folded by the values.
    fn enter(&mut self, place: Place, kinds: &[Kind], values: &[Value])
        requires fits { Fits (room self.old) values.now }
        requires types { IsTrue (are_of_kinds kinds.now values.now) }
        requires admits { Admits (room self.old) (panes self.old) place }
        requires takes { IfSome (map.get (panes self.old) place) (P.CanTakeRecord kinds.now values.now) }
        ensures panes { panes self.new ≡ map.insert (panes self.old) place (P.with_record kinds.now values.now (map.get (panes self.old) place)) }
        ensures room { room self.new ≡ room self.old };

    /// Where the pane at a place is, if one is there.
    fn find(&self, place: Place) -> Option<Spot>
        ensures place { place_found result ≡ option_map (λ _. place) (map.get (panes self.now) place) }
        ensures spot { IfSome result (IsSpot (room self.now)) };

    /// Where the first pane is in the order of the places, if its window ends by a limit, which is in
    /// event time.
    fn first_due(&self, limit: i64) -> Option<Spot>
        ensures place { place_found result ≡ place_due limit (slice_get (map.entries (panes self.now)) 0) }
        ensures spot { IfSome result (IsSpot (room self.now)) };

    /// Where the first pane is, in the order of the places, of those whose windows end past a time, if
    /// its window ends by a limit.
    fn first_due_after(&self, after: i64, limit: i64) -> Option<Spot>
        ensures place { place_found result ≡ place_due limit (first_past after (map.entries (panes self.now))) }
        ensures spot { IfSome result (IsSpot (room self.now)) };

    /// Where the pane behind one is, in the order of the places, if its window ends by a limit.
    fn next_due(&self, spot: Spot, limit: i64) -> Option<Spot>
        requires there { IsSome (map.get (panes self.now) spot.place) }
        requires spot { IsSpot (room self.now) spot }
        ensures place { place_found result ≡ place_due limit (following spot.place (map.entries (panes self.now))) }
        ensures spot { IfSome result (IsSpot (room self.now)) };
}
