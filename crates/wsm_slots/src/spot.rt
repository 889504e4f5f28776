//! Where panes are found.

ghost use Rattle.std.specs.Prelude.{◌≡◌, None, Some, if◌then◌else◌};
ghost use Rattle.wsm_slots.specs.Place.{is_kept};
ghost use Rattle.wsm_slots.specs.Walk.{place_found};

use wsm_windows::{Place, Window};

/// A place at which a pane is held, and where its table has it, so that a walk over panes need not
/// search for each of them.
#[derive(Clone, Copy, Debug)]
pub struct Spot {
    /// The place.
    pub place: Place,
    /// The number of its entry in a list, if none came or went since, or its slot in a ring.
    pub at: usize,
}

impl Spot {
    /// The same spot, put together anew from its fields. A copy would carry along the bytes between them.
    pub fn rebuilt(self) -> Spot
        ensures { result ≡ self }
    {
        Spot {
            place: rebuilt_place(self.place),
            at: self.at,
        }
    }

    /// The same spot, if a call found one. A call hands its answer over in memory, where all that is merged with
    /// it would lie too.
    pub fn rebuilt_found(found: Option<Spot>) -> Option<Spot>
        ensures { result ≡ found }
    {
        match found {
            Some(spot) => Some(spot.rebuilt()),
            None => None,
        }
    }
}

/// The same place, put together anew from its fields, for a call that is seldom made. What it is handed
/// lies in memory, and the place itself need not.
pub fn rebuilt_place(place: Place) -> Place
    ensures { result ≡ place }
{
    let Place { end, start, key } = place;
    Place { end, start, key }
}

/// The same window, put together anew from its fields, for the same reason.
pub fn rebuilt_window(window: Window) -> Window
    ensures { result ≡ window }
{
    let Window { start, end } = window;
    Window { start, end }
}

/// The spot of an entry at a place that is the one of a number, if its window ends by a limit.
pub fn due(place: Place, at: usize, limit: i64) -> Option<Spot>
    ensures { place_found result ≡ (if is_kept limit place then None else Some place) }
{
    if place.end <= limit {
        Some(Spot { place, at })
    } else {
        None
    }
}
