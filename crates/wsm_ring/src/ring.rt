//! Where a ring has its slots.

ghost use Rattle.std.specs.Prelude.{◌≡◌, ◌↔◌, ◌+◌, ◌*◌, ◌≤◌, ◌<◌, ◌+ℤ◌, ◌-ℤ◌, ◌<ℤ◌, ◌≤ℤ◌, pos, true, IsTrue};
ghost use Rattle.std.specs.Int.{w64};
ghost use Rattle.std.specs.Int.RustNames.{FitsSigned};
ghost use Rattle.wsm_windows.specs.Windows.{IsTime, greatest_span, window};
ghost use Rattle.wsm_windows.specs.Windows as windows;
ghost use Rattle.wsm_windows.specs.Places.{at};
ghost use Rattle.wsm_ring.specs.Ring as ring;
ghost use Rattle.wsm_ring.specs.Ring.{IsAlone, IsRing, IsNextOnGrid, IsOfRing, IsRow};

use wsm_slots::rebuilt_place;
use wsm_windows::Place;

/// A ring of slots for the windows of a size, one beginning at each multiple of a period. A window
/// has a row of slots, one for each key, and shares it with the windows that are a multiple of the
/// bound away from it.
#[derive(Clone, Copy, Debug, PartialEq, Eq)]
pub struct Ring {
    /// How long a window is, in event time.
    pub size: i64,
    /// How far the starts of windows are apart.
    pub period: i64,
    /// How many keys there are.
    pub keys: usize,
    /// How many windows have rows of their own.
    pub bound: usize,
}

/// A window of a ring, and where its slots are.
#[derive(Clone, Copy)]
pub struct Row {
    /// When the window starts.
    pub start: i64,
    /// The first of its slots.
    pub slot: usize,
}

impl Ring {
    // The first slot of the window that starts at a time.
    pub(crate) fn row(self, start: i64) -> usize
        requires { IsRing self }
        ensures row { result ≡ ring.row_of self start }
        ensures within { result + self.keys ≤ self.bound * self.keys }
    {
        let number = start.div_euclid(self.period);
        number.rem_euclid(self.bound as i64) as usize * self.keys
    }

    // The first time on the grid behind a time.
    pub(crate) fn start_past(self, time: i64) -> i64
        requires ring { IsRing self }
        requires next { FitsSigned w64 (time +ℤ self.period) }
        ensures { IsNextOnGrid self.period time result }
    {
        time + (self.period - time.rem_euclid(self.period))
    }

    // Whether windows are fixed, and that of a row has a time inside and ends past another, so that no other does.
    pub(crate) fn is_alone(self, row: Row, time: i64, past: i64) -> bool
        requires size { self.size ≤ℤ greatest_span }
        requires low { pos 1 ≤ℤ self.size }
        requires past { IsTime past }
        ensures { result ≡ true → IsAlone self row.start time past }
    {
        self.size == self.period && row.start <= time && past - self.size < row.start
    }

    // The row of the first window that has a time inside, where the row of another is known. Records
    // come nearly in the order of their times, so mostly it is that row or one beside it, and nothing is
    // divided.
    pub(crate) fn first_row(self, known: Row, time: i64) -> Row
        requires ring { IsRing self }
        requires size { self.size ≤ℤ greatest_span }
        requires known { IsRow self known }
        requires time { IsTime time }
        ensures row { IsRow self result }
        ensures start { result.start ≡ windows.first_start self.size self.period time }
    {
        self.row_past(known, time - self.size)
    }

    // The row of the first window that starts past a time, where the row of another is known.
    fn row_past(self, known: Row, time: i64) -> Row
        requires ring { IsRing self }
        requires known { IsRow self known }
        requires next { FitsSigned w64 (time +ℤ self.period) }
        ensures row { IsRow self result }
        ensures past { time <ℤ result.start }
        ensures close { result.start ≤ℤ (time +ℤ self.period) }
    {
        if known.start <= time {
            let next = self.next_row(known);
            if time < next.start {
                return next;
            }
        } else {
            if known.start <= time + self.period {
                return known;
            }
            let previous = self.previous_row(known);
            if previous.start <= time + self.period {
                return previous;
            }
        }
        let start = self.start_past(time);
        let slot = self.row(start);
        Row { start, slot }
    }

    // The row of the window that starts a period later.
    pub(crate) fn next_row(self, row: Row) -> Row
        requires ring { IsRing self }
        requires row { IsRow self row }
        requires next { FitsSigned w64 (row.start +ℤ self.period) }
        ensures row { IsRow self result }
        ensures start { result.start ≡ row.start +ℤ self.period }
    {
        let start = row.start + self.period;
        let slot = row.slot + self.keys;
        if slot == self.bound * self.keys {
            Row { start, slot: 0 }
        } else {
            Row { start, slot }
        }
    }

    // The row of the window that starts a period sooner.
    fn previous_row(self, row: Row) -> Row
        requires ring { IsRing self }
        requires row { IsRow self row }
        requires previous { FitsSigned w64 (row.start -ℤ self.period) }
        ensures row { IsRow self result }
        ensures start { result.start ≡ row.start -ℤ self.period }
    {
        let start = row.start - self.period;
        if row.slot == 0 {
            let slot = (self.bound - 1) * self.keys;
            Row { start, slot }
        } else {
            let slot = row.slot - self.keys;
            Row { start, slot }
        }
    }

    // The place of a key in a row.
    pub(crate) fn place(self, row: Row, key: u16) -> Place
        requires { FitsSigned w64 (row.start +ℤ self.size) }
        ensures { result ≡ at key (window row.start (row.start +ℤ self.size)) }
    {
        Place {
            end: row.start + self.size,
            start: row.start,
            key,
        }
    }

    // The slot of a place.
    pub(crate) fn slot(self, place: Place) -> usize
        requires { IsRing self }
        ensures { result ≡ ring.slot_of self place }
    {
        self.row(place.start) + place.key as usize
    }

    // The slot of a place, where the row of a window is known. The last record was put into the first of its
    // windows, so mostly it is that row, and nothing is divided.
    pub(crate) fn slot_beside(self, known: Row, place: Place) -> usize
        requires ring { IsRing self }
        requires known { IsRow self known }
        ensures { result ≡ ring.slot_of self place }
    {
        if place.start == known.start {
            known.slot + place.key as usize
        } else {
            self.far_slot(rebuilt_place(place))
        }
    }

    // The slot of a place whose row isn't known. That is seldom asked, so it isn't inlined.
    #[cold]
    fn far_slot(self, place: Place) -> usize
        requires { IsRing self }
        ensures { result ≡ ring.slot_of self place }
    {
        self.slot(place)
    }

    // Whether a place has a window of this shape and one of the keys.
    pub(crate) fn has(self, place: Place) -> bool
        requires { IsRing self }
        ensures { IsTrue result ↔ IsOfRing self place }
    {
        (place.key as usize) < self.keys
            && place.start.rem_euclid(self.period) == 0
            && place.start.checked_add(self.size) == Some(place.end)
    }
}
