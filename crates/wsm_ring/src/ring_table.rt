//! A table kept as a ring of slots.

ghost use Rattle.std.specs.Prelude.{◌≡◌, ◌⊎◌, ◌<◌, ◌≤◌, ◌+ℤ◌, ◌≤ℤ◌, ◌∷◌, [], FitsSigned, List, IfOk, IfSome, IsSome, IsTrue, Some, length, option_map};
ghost use Rattle.std.specs.FinMap as map;
ghost use Rattle.std.specs.Int.{w64};
ghost use Rattle.wsm_record.specs.declared.event.Value.{Value as OneValue};
ghost use Rattle.wsm_record.specs.declared.limits.TheConstants.{MAX_ACCUMULATORS, MAX_COLUMNS};
ghost use Rattle.wsm_record.specs.Modes.{retracts};
ghost use Rattle.wsm_fold.specs.Fold.{are_of_kinds};
ghost use Rattle.wsm_windows.specs.Windows.{IsTime, first_start, greatest_span, window};
ghost use Rattle.wsm_semantics.specs.Summaries.{Pane as AnyPane};
ghost use Rattle.wsm_slots.specs.Panes.{CanRecord, with_one_more, FiresAt};
ghost use Rattle.wsm_ring.specs.Entering.{windows_past};
ghost use Rattle.wsm_ring.specs.RingState.{IsAsLarge};
ghost use Rattle.wsm_ring.specs.Ring.{HasSlot, IsFirstPast, IsLastDue, IsOnGrid, IsRing, IsRow, RingAdmits, slot_of};

use crate::clearing::clear_expired;
use crate::filling::{fill, record_in, take_out};
use crate::ring::{Ring, Row};
use crate::walking::{first_on, first_until, spot_in};
use std::alloc::{AllocError, Global};
use std::marker::Model;
use wsm_record::{Cell, Kind, Mode, Value};
use wsm_slots::{Pane, PaneTable, PaneView, Slots, Spot, Widths, is_at};
use wsm_windows::Place;

/// A table kept as a ring of slots: each place has one slot, which is found without a search.
#[derive(Drop)]
pub struct RingTable {
    ring: Ring,
    slots: Slots,
    len: usize,
    // No pane is held of a window that starts before the first start or after the last one.
    first: i64,
    last: i64,
    // That of the first window that was asked for last, mostly for the last record.
    row: Row,
}

impl Model for RingTable {
    ghost use Rattle.wsm_ring.specs.Ring.{held};
    ghost use Rattle.wsm_ring.specs.RingState.{RingState, coded_ring_state};
    ghost use Rattle.std.specs.FinMap as map;
    ghost use Rattle.std.specs.Coded.{codes};
    ghost use Rattle.std.specs.Prelude.{List};
    ghost use Rattle.wsm_record.specs.declared.event.Value.{Value as OneValue};
    ghost use Rattle.wsm_semantics.specs.Summaries.{Pane as AnyPane};
    ghost use Rattle.wsm_slots.specs.contracts.pane.Pane as one_pane;

    ghost Value = { RingState (AnyPane (List OneValue)) };

    ghost coded = { coded_ring_state (Prim.hlevel (codes, one_pane.the_row.coded)) };

    ghost use Rattle.wsm_ring.specs.RingTable.{IsSound};

    ghost view = { λ a. record { panes = map.from_entries (held a.slots.slots); ring = a.ring; widths = a.slots.widths } };

    ghost invariant = { λ a. IsSound a };
}

impl RingTable {
    /// An empty table with the slots of a ring. No later call takes memory.
    ///
    /// # Errors
    ///
    /// Where there is no memory for the slots.
    pub fn open(alloc: Global, ring: Ring, widths: Widths) -> Result<Self, AllocError>
        requires ring { IsRing ring }
        requires accumulators { widths.accumulators ≤ MAX_ACCUMULATORS }
        requires columns { widths.columns ≤ MAX_COLUMNS }
        ensures { IfOk result (λ t. t ≡ record { panes = map.empty; ring = ring; widths = widths }) }
    {
        Ok(RingTable {
            ring,
            slots: Slots::open(alloc, widths, ring.bound * ring.keys)?,
            len: 0,
            first: 0,
            last: 0,
            row: Row { start: 0, slot: 0 },
        })
    }

    /// The ring that it is kept in.
    pub(crate) fn ring(&self) -> Ring
        ensures { result ≡ self.now.ring }
    {
        self.ring
    }

    /// The row of the only window that has a time inside and ends past another, where windows are fixed and it is that of
    /// the last record. Mostly it is, and no row is looked for.
    pub(crate) fn only_row(&self, time: i64, past: i64) -> Option<Row>
        requires size { self.now.ring.size ≤ℤ greatest_span }
        requires time { IsTime time }
        requires past { IsTime past }
        requires after { time ≤ℤ past }
        ensures row { IfSome result (IsRow self.now.ring) }
        ensures only { IfSome result (λ row. windows_past self.now.ring past time ≡ window row.start (row.start +ℤ self.now.ring.size) ∷ []) }
        ensures end { IfSome result (λ row. FitsSigned w64 (row.start +ℤ self.now.ring.size)) }
    {
        if self.ring.is_alone(self.row, time, past) {
            Some(self.row)
        } else {
            None
        }
    }

    /// The row of the first window that has a time inside. It is taken note of.
    pub(crate) fn first_row(&mut self, time: i64) -> Row
        requires size { self.old.ring.size ≤ℤ greatest_span }
        requires time { IsTime time }
        ensures row { IsRow self.old.ring result }
        ensures start { result.start ≡ first_start self.old.ring.size self.old.ring.period time }
        ensures same { self.new ≡ self.old }
    {
        self.row = self.ring.first_row(self.row, time);
        self.row
    }

    /// Puts a record into the pane at a place, whose slot is told, and makes a pane of it where none
    /// is. The record is folded by the values.
    #[inline(always)]
    pub(crate) fn enter_at(&mut self, slot: usize, place: Place, kinds: &[Kind], values: &[Value])
        requires slot { slot ≡ slot_of self.old.ring place }
        requires wide { length values.now ≡ self.old.widths.accumulators }
        requires types { IsTrue (are_of_kinds kinds.now values.now) }
        requires admits { RingAdmits self.old.ring self.old.panes place }
        requires takes { IfSome (map.get self.old.panes place) (CanRecord kinds.now values.now) }
        ensures panes { self.new.panes ≡ map.insert self.old.panes place (with_one_more kinds.now values.now (map.get self.old.panes place)) }
        ensures keeps { IsAsLarge self.old self.new }
    {
        let more = record_in(&mut self.slots, slot, place, kinds, values);
        if more > 0 {
            (self.first, self.last) = stretched(self.len, self.first, self.last, place.start);
            self.len += more;
        }
    }

    /// Has the pane at a spot have fired.
    #[inline(always)]
    pub fn fire(&mut self, spot: Spot, mode: Mode, row: Option<&[Cell]>)
        requires there { IsSome (map.get self.old.panes spot.place) }
        requires spot { HasSlot self.old.ring spot }
        requires wide { IfSome row (λ cells. length cells.now ≡ self.old.widths.columns) }
        requires windows { self.old.widths.windows ≡ retracts mode }
        ensures panes { FiresAt mode spot.place (option_map (λ cells. cells.now) row.entry) self.old.panes self.new.panes }
        ensures keeps { IsAsLarge self.old self.new }
    {
        self.slots.fire(spot.at, mode, row);
    }

    /// How many records of the pane at a place no firing showed yet, if one is there.
    #[inline(always)]
    pub fn unshown(&self, place: Place) -> Option<u64>
        ensures { result ≡ option_map (λ h. h.unshown) (map.get self.now.panes place) }
    {
        match self.find(place) {
            Some(spot) => Some(self.pane(spot).unshown()),
            None => None,
        }
    }

    /// The pane at a spot.
    pub fn pane(&self, spot: Spot) -> PaneView<'_>
        requires there { IsSome (map.get self.now.panes spot.place) }
        requires spot { HasSlot self.now.ring spot }
        ensures { map.get self.now.panes spot.place ≡ Some result }
    {
        self.slots.pane(spot.at)
    }
}

impl PaneTable<Pane> for RingTable {
    ghost use Rattle.wsm_ring.specs.declared.ring.Ring.{Ring as AnyRing};
    ghost use Rattle.wsm_slots.specs.declared.widths.Widths.{Widths as AnyWidths};
    ghost use Rattle.wsm_slots.specs.Layout.{IsAsWide};
    ghost use Rattle.wsm_ring.specs.Ring.{HasSlot};

    ghost Room = { AnyRing × AnyWidths };

    ghost panes = { λ t. t.panes };

    ghost room = { λ t. (t.ring, t.widths) };

    ghost Admits = { λ room ps place. RingAdmits room.0 ps place };

    ghost Fits = { λ room values. length values ≡ room.1.accumulators };

    ghost Holds = { λ room pane. IsAsWide room.1 pane };

    ghost IsSpot = { λ room spot. HasSlot room.0 spot };

    fn get(&self, place: Place) -> Option<Pane> {
        let slot = self.ring.slot(place);
        if is_at(&self.slots, slot, place) {
            Some(Pane::of_view(&self.slots.pane(slot)))
        } else {
            None
        }
    }

    fn admits(&self, place: Place) -> bool {
        self.ring.has(place)
            && match self.slots.place(self.ring.slot(place)) {
                Some(other) => other == place,
                None => true,
            }
    }

    fn put(&mut self, place: Place, pane: Pane) {
        let slot = self.ring.slot(place);
        (self.first, self.last) = stretched(self.len, self.first, self.last, place.start);
        self.len += fill(&mut self.slots, slot, place, &pane);
    }

    fn remove(&mut self, place: Place) {
        let slot = self.ring.slot(place);
        self.len -= take_out(&mut self.slots, slot, place);
    }

    fn enter(&mut self, place: Place, kinds: &[Kind], values: &[Value]) {
        let slot = self.ring.slot(place);
        self.enter_at(slot, place, kinds, values);
    }

    fn drop_expired(&mut self, limit: i64) {
        let (first, cleared) = clear_expired(
            self.ring,
            &mut self.slots,
            self.first,
            self.last,
            limit,
        );
        self.first = first;
        self.len -= cleared;
    }

    fn len(&self) -> usize {
        self.len
    }

    #[inline(always)]
    fn find(&self, place: Place) -> Option<Spot> {
        let at = self.ring.slot_beside(self.row, place);
        if is_at(&self.slots, at, place) {
            Some(Spot { place, at })
        } else {
            None
        }
    }

    fn first_due(&self, limit: i64) -> Option<Spot> {
        let last = last_due(self.ring, self.first, self.last, limit)?;
        let found = first_until(self.ring, &self.slots, self.first, 0, last);
        spot_in(&self.slots, found)
    }

    fn first_due_after(&self, after: i64, limit: i64) -> Option<Spot> {
        let last = last_due(self.ring, self.first, self.last, limit)?;
        let start = first_past(self.ring, self.first, after);
        let found = first_until(self.ring, &self.slots, start, 0, last);
        spot_in(&self.slots, found)
    }

    #[inline(always)]
    fn next_due(&self, spot: Spot, limit: i64) -> Option<Spot> {
        let last = last_due(self.ring, self.first, self.last, limit)?;
        let key = spot.place.key as usize;
        let row = spot.at - key;
        let found = first_on(self.ring, &self.slots, row, spot.place.start, key + 1, last);
        spot_in(&self.slots, found)
    }
}

// The last start of a window that ends by a limit, of those from a first start to a last one, if one
// does.
fn last_due(ring: Ring, first: i64, last: i64, limit: i64) -> Option<i64>
    requires { IsRing ring }
    ensures { IsLastDue ring first last limit result }
{
    let latest = limit.checked_sub(ring.size)?;
    if latest < first {
        None
    } else {
        Some(last.min(latest))
    }
}

// The first start on the grid, of those from a first start on, of a window that ends past a time.
fn first_past(ring: Ring, first: i64, after: i64) -> i64
    requires ring { IsRing ring }
    requires first { IsOnGrid ring first }
    ensures { IsFirstPast ring first after result }
{
    match after.checked_sub(ring.size) {
        // The next start on the grid begins a window that ends past the time.
        Some(before) => first.max(ring.start_past(before)),
        None => first,
    }
}

// The first and the last start, of so many panes and one more.
fn stretched(len: usize, first: i64, last: i64, start: i64) -> (i64, i64)
    ensures first { (result.0 ≡ start) ⊎ (result.0 ≡ first) }
    ensures last { (result.1 ≡ start) ⊎ (result.1 ≡ last) }
    ensures around { (result.0 ≤ℤ start) × (start ≤ℤ result.1) }
    ensures wider { 0 < len → (result.0 ≤ℤ first) × (last ≤ℤ result.1) }
{
    if len == 0 {
        (start, start)
    } else {
        (first.min(start), last.max(start))
    }
}
