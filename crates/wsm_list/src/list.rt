//! A table kept as a sorted list.

ghost use Rattle.std.specs.Prelude.{◌≡◌, ◌⊎◌, ◌<◌, ◌≤◌, ◌^◌, List, None, Some, IfOk, IfSome, IsSome, length, option_map, slice_get, take};
ghost use Rattle.std.specs.FinMap as map;
ghost use Rattle.wsm_record.specs.declared.event.Value.{Value as OneValue};
ghost use Rattle.wsm_record.specs.declared.limits.TheConstants.{MAX_ACCUMULATORS, MAX_COLUMNS};
ghost use Rattle.wsm_record.specs.Modes.{retracts};
ghost use Rattle.wsm_windows.specs.Places.{place_cmp};
ghost use Rattle.wsm_semantics.specs.Summaries.{Pane as AnyPane};
ghost use Rattle.wsm_slots.specs.Panes.{FiresAt};
ghost use Rattle.wsm_list.specs.Recorded.{CanMove, HasMoved, IsAsRoomy};
ghost use Rattle.wsm_slots.specs.Layout.{IsAsWide};
ghost use Rattle.wsm_list.specs.Search.{IsSlotOf};
ghost use Rattle.wsm_list.specs.Stored.{AreFreed, AreIn, AreListed, AreStored, shown};
ghost use Rattle.wsm_slots.specs.Walk.{place_due, place_found};

use crate::search::{count_before, ended, number_at, number_of, place_at, search};
use crate::slot_row::SlotRow;
use std::alloc::{AllocError, Global};
use std::marker::Model;
use wsm_record::{Cell, Kind, Mode, Value};
use wsm_slots::{Pane, PaneTable, PaneView, Slots, Spot, Widths, due, is_at};
use wsm_windows::Place;

/// A table kept as a sorted list: a row of slots, in the order of the places of their panes. A place
/// is found by binary search, and the slot of a new one moves those behind it in the row. Panes stay
/// in their slots.
#[derive(Drop)]
pub struct ListTable {
    slots: Slots,
    row: SlotRow,
}

impl Model for ListTable {
    ghost use Rattle.std.specs.Coded.{codes};
    ghost use Rattle.std.specs.FinMap as map;
    ghost use Rattle.std.specs.Prelude.{List};
    ghost use Rattle.wsm_record.specs.declared.event.Value.{Value as OneValue};
    ghost use Rattle.wsm_semantics.specs.Summaries.{Pane as AnyPane};
    ghost use Rattle.wsm_list.specs.Stored.{shown};
    ghost use Rattle.wsm_list.specs.Table.{Table, coded_table};
    ghost use Rattle.wsm_slots.specs.contracts.pane.Pane as one_pane;

    ghost Value = { Table (AnyPane (List OneValue)) };

    ghost coded = { coded_table (Prim.hlevel (codes, one_pane.the_row.coded)) };

    ghost view = { λ a. record { panes = map.from_sorted (shown a.slots.slots a.row.row); room = a.row.room; widths = a.slots.widths } };

    ghost use Rattle.wsm_list.specs.ListState.{IsSound};

    ghost invariant = { λ a. IsSound a };
}

impl ListTable {
    /// An empty table, with room for so many panes. No later call takes memory.
    ///
    /// # Errors
    ///
    /// Where there is no memory for the room.
    pub fn open(alloc: Global, room: usize, widths: Widths) -> Result<Self, AllocError>
        requires room { room ≤ 2 ^ 32 }
        requires accumulators { widths.accumulators ≤ MAX_ACCUMULATORS }
        requires columns { widths.columns ≤ MAX_COLUMNS }
        ensures { IfOk result (λ t. t ≡ record { panes = map.empty; room = room; widths = widths }) }
    {
        Ok(ListTable {
            slots: Slots::open(alloc, widths, room)?,
            row: SlotRow::open(alloc, room)?,
        })
    }

    /// The pane at a spot.
    pub fn pane(&self, spot: Spot) -> PaneView<'_>
        requires { IsSome (map.get self.now.panes spot.place) }
        ensures { map.get self.now.panes spot.place ≡ Some result }
    {
        let at = number_of(&self.row, &self.slots, spot);
        self.slots.pane(self.row.get(at))
    }

    /// How many records of the pane at a place no firing showed yet, if one is there. A slot that is guessed is looked at
    /// first.
    pub fn unshown(&self, guess: usize, place: Place) -> Option<u64>
        ensures { result ≡ option_map (λ h. h.unshown) (map.get self.now.panes place) }
    {
        if is_at(&self.slots, guess, place) {
            return Some(self.slots.pane(guess).unshown());
        }
        match self.find(place) {
            Some(spot) => Some(self.pane(spot).unshown()),
            None => None,
        }
    }

    /// Puts a record into the pane at a place, which goes to another place then. The pane stays in its
    /// slot, which is told. A slot that is guessed is looked at first.
    pub(crate) fn enter_moved(
        &mut self,
        guess: usize,
        from: Place,
        to: Place,
        kinds: &[Kind],
        values: &[Value],
    ) -> usize
        requires { CanMove kinds.now values.now from to self.old }
        ensures { HasMoved kinds.now values.now from to self.old self.new }
    {
        if from == to {
            self.record_at(guess, to, kinds, values)
        } else {
            self.move_in(guess, from, to, kinds, values)
        }
    }

    // Puts a record into the pane at a place, which is there, and tells its slot.
    fn record_at(&mut self, guess: usize, place: Place, kinds: &[Kind], values: &[Value]) -> usize
        requires { CanMove kinds.now values.now place place self.old }
        ensures { HasMoved kinds.now values.now place place self.old self.new }
    {
        let slot = slot_of(&self.row, &self.slots, guess, place);
        self.slots.record(slot, kinds, values);
        slot
    }

    // The same where it goes to another place, whose slot stands elsewhere in the row then.
    fn move_in(
        &mut self,
        guess: usize,
        from: Place,
        to: Place,
        kinds: &[Kind],
        values: &[Value],
    ) -> usize
        requires { CanMove kinds.now values.now from to self.old }
        ensures { HasMoved kinds.now values.now from to self.old self.new }
    {
        let old = number_at(&self.row, &self.slots, guess, from);
        let gap = count_before(&self.row, &self.slots, to);
        let new = if old < gap { gap - 1 } else { gap };
        let slot = self.row.shift(old, new);
        self.slots.record(slot, kinds, values);
        self.slots.move_to(slot, to);
        slot
    }

    // Where the entry of a number is, if there is one and its window ends by a limit.
    fn due_at(&self, at: usize, limit: i64) -> Option<Spot>
        ensures { place_found result ≡ place_due limit (slice_get (map.entries self.now.panes) at) }
    {
        if at < self.row.len() {
            due(place_at(&self.row, &self.slots, at), at, limit)
        } else {
            None
        }
    }

    /// Has the pane at a spot have fired.
    pub fn fire(&mut self, spot: Spot, mode: Mode, row: Option<&[Cell]>)
        requires there { IsSome (map.get self.old.panes spot.place) }
        requires wide { IfSome row (λ cells. length cells.now ≡ self.old.widths.columns) }
        requires windows { self.old.widths.windows ≡ retracts mode }
        ensures panes { FiresAt mode spot.place (option_map (λ cells. cells.now) row.entry) self.old.panes self.new.panes }
        ensures keeps { IsAsRoomy self.old self.new }
    {
        let at = number_of(&self.row, &self.slots, spot);
        self.slots.fire(self.row.get(at), mode, row);
    }
}

impl PaneTable<Pane> for ListTable {
    ghost use Rattle.std.specs.Prelude.{ℕ, true};
    ghost use Rattle.wsm_slots.specs.declared.widths.Widths.{Widths as AnyWidths};

    ghost Room = { ℕ × AnyWidths };

    ghost panes = { λ t. t.panes };

    ghost room = { λ t. (t.room, t.widths) };

    ghost Admits = { λ room ps place. (map.contains_key ps place ≡ true) ⊎ (map.len ps < room.0) };

    ghost Fits = { λ room values. length values ≡ room.1.accumulators };

    ghost Holds = { λ room pane. IsAsWide room.1 pane };

    ghost IsSpot = { λ room spot. Unit {0} };

    fn get(&self, place: Place) -> Option<Pane> {
        match search(&self.row, &self.slots, place) {
            Ok(i) => Some(Pane::of_view(&self.slots.pane(self.row.get(i)))),
            Err(_) => None,
        }
    }

    fn admits(&self, place: Place) -> bool {
        self.row.len() < self.row.room() || self.find(place).is_some()
    }

    fn put(&mut self, place: Place, pane: Pane) {
        match search(&self.row, &self.slots, place) {
            Ok(i) => self.slots.put(self.row.get(i), place, &pane.view()),
            Err(i) => self.slots.put(self.row.insert(i), place, &pane.view()),
        }
    }

    fn remove(&mut self, place: Place) {
        if let Ok(i) = search(&self.row, &self.slots, place) {
            self.slots.clear(self.row.get(i));
            self.row.remove(i);
        }
    }

    fn drop_expired(&mut self, limit: i64) {
        let count = ended(&self.row, &self.slots, limit);
        clear_first(&self.row, &mut self.slots, count);
        self.row.drop_first(count);
    }

    fn len(&self) -> usize {
        self.row.len()
    }

    fn enter(&mut self, place: Place, kinds: &[Kind], values: &[Value]) {
        match search(&self.row, &self.slots, place) {
            Ok(i) => self.slots.record(self.row.get(i), kinds, values),
            Err(i) => self.slots.start(self.row.insert(i), place, values),
        }
    }

    fn find(&self, place: Place) -> Option<Spot> {
        match search(&self.row, &self.slots, place) {
            Ok(at) => Some(Spot { place, at }),
            Err(_) => None,
        }
    }

    fn first_due(&self, limit: i64) -> Option<Spot> {
        self.due_at(0, limit)
    }

    fn first_due_after(&self, after: i64, limit: i64) -> Option<Spot> {
        let at = ended(&self.row, &self.slots, after);
        self.due_at(at, limit)
    }

    fn next_due(&self, spot: Spot, limit: i64) -> Option<Spot> {
        let at = number_of(&self.row, &self.slots, spot);
        self.due_at(at + 1, limit)
    }
}

// The slot of the pane at a place, which is there. One that is guessed is looked at first.
fn slot_of(row: &SlotRow, slots: &Slots, guess: usize, place: Place) -> usize
    requires stored { AreStored slots.now.slots row.now.row }
    requires listed { AreListed slots.now.slots row.now.row }
    requires there { IsSome (map.find place_cmp place (shown slots.now.slots row.now.row)) }
    ensures { IsSlotOf slots.now.slots row.now.row place result }
{
    if is_at(slots, guess, place) {
        guess
    } else {
        row.get(count_before(row, slots, place))
    }
}

// Has the first slots of a row be free, so many.
fn clear_first(row: &SlotRow, slots: &mut Slots, count: usize)
    requires there { AreIn slots.old.slots row.now.row }
    requires within { count ≤ length row.now.row }
    ensures cleared { AreFreed (take count row.now.row) slots.old.slots slots.new.slots }
    ensures widths { slots.new.widths ≡ slots.old.widths }
{
    for i in 0..count {
        slots.clear(row.get(i));
    }
}
