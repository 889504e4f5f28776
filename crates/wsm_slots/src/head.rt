//! What a slot has beside the values of its pane.

ghost use Rattle.std.specs.Prelude.{◌≡◌, ◌+◌, ◌<◌, ◌^◌, true, false};
ghost use Rattle.wsm_slots.specs.Layout.{head_of, head_of_one, head_fired, head_with_one_more, holds_by, is_folded, is_held, place_by, unfolded};

use crate::view::PaneView;
use wsm_record::Mode;
use wsm_windows::Place;

/// What a slot holds.
#[derive(Clone, Copy)]
pub(crate) enum Holds {
    /// No entry.
    Nothing,
    /// A pane with no records that the next firing is computed over.
    Unfolded,
    /// A pane with such records, which are folded.
    Folded,
}

/// What stands for a pane. The words of a row lie beside it.
#[derive(Clone, Copy)]
pub(crate) enum Stands {
    /// Nothing, as no part of the pane fired.
    Unfired,
    /// No row, as HAVING was false.
    NoRow,
    /// The row of a firing.
    FiredRow,
    /// Nothing, as two parts that fired were joined since.
    Joined,
}

/// What a slot has of its entry, if there is one, beside the values.
#[derive(Clone, Copy)]
pub(crate) struct Head {
    // Of its window, in event time.
    end: i64,
    start: i64,
    pub(crate) count: u64,
    pub(crate) unshown: u64,
    // Which kind of cell each word of its row stands for.
    pub(crate) kinds: u32,
    // The number of its key.
    key: u16,
    pub(crate) holds: Holds,
    pub(crate) stands: Stands,
}

impl Head {
    /// That of a free slot.
    pub(crate) fn free() -> Head
        ensures { is_held result.holds ≡ false }
    {
        Head {
            end: 0,
            start: 0,
            count: 0,
            unshown: 0,
            kinds: 0,
            key: 0,
            holds: Holds::Nothing,
            stands: Stands::Unfired,
        }
    }

    /// That of a place with a pane of one record.
    pub(crate) fn of_one(place: Place) -> Head
        ensures { result ≡ head_of_one place }
    {
        Head {
            end: place.end,
            start: place.start,
            count: 1,
            unshown: 1,
            kinds: 0,
            key: place.key,
            holds: Holds::Folded,
            stands: Stands::Unfired,
        }
    }

    /// That of a place with a pane, whose row has these kinds of cells.
    pub(crate) fn of_pane(place: Place, pane: &PaneView<'_>, kinds: u32) -> Head
        ensures { result ≡ head_of place pane.now kinds }
    {
        Head {
            end: place.end,
            start: place.start,
            count: pane.count,
            unshown: pane.unshown,
            kinds,
            key: place.key,
            holds: holding(pane.is_folded),
            stands: pane.stands,
        }
    }

    /// Whether there is an entry.
    pub(crate) fn is_held(&self) -> bool
        ensures { result ≡ is_held self.now.holds }
    {
        match self.holds {
            Holds::Nothing => false,
            Holds::Unfolded | Holds::Folded => true,
        }
    }

    /// Whether there are records that the next firing is computed over.
    pub(crate) fn is_folded(&self) -> bool
        ensures { result ≡ is_folded self.now.holds }
    {
        match self.holds {
            Holds::Folded => true,
            Holds::Nothing | Holds::Unfolded => false,
        }
    }

    /// The place of its entry.
    pub(crate) fn place(&self) -> Place
        ensures { result ≡ place_by self.now }
    {
        Place {
            end: self.end,
            start: self.start,
            key: self.key,
        }
    }

    /// Has its entry be at another place.
    pub(crate) fn move_to(&mut self, place: Place)
        ensures { self.new ≡ record self.old { end = place.end; start = place.start; key = place.key } }
    {
        self.end = place.end;
        self.start = place.start;
        self.key = place.key;
    }

    /// Counts one record more, which is folded.
    pub(crate) fn record(&mut self)
        requires count { self.old.count < 2 ^ 63 }
        requires unshown { self.old.unshown < 2 ^ 63 }
        ensures { self.new ≡ head_with_one_more self.old }
    {
        self.count += 1;
        self.unshown += 1;
        self.holds = Holds::Folded;
    }

    /// Has the pane have fired, with a row of these kinds of cells or with none.
    pub(crate) fn fire(&mut self, mode: Mode, has_row: bool, kinds: u32)
        ensures { self.new ≡ head_fired mode has_row kinds self.old }
    {
        self.unshown = 0;
        self.kinds = kinds;
        if !mode.is_over_all() {
            self.holds = emptied(self.holds);
        }
        self.stands = if has_row {
            Stands::FiredRow
        } else {
            Stands::NoRow
        };
    }
}

// What a slot with a pane holds.
fn holding(is_folded: bool) -> Holds
    ensures { result ≡ holds_by is_folded }
{
    if is_folded {
        Holds::Folded
    } else {
        Holds::Unfolded
    }
}

// What is held with no records that the next firing is computed over.
fn emptied(holds: Holds) -> Holds
    ensures { result ≡ unfolded holds }
{
    match holds {
        Holds::Nothing => Holds::Nothing,
        Holds::Unfolded | Holds::Folded => Holds::Unfolded,
    }
}

// There may be a head for each of very many panes.
const _: () = prove!(size_of::<Head>() == 40);
