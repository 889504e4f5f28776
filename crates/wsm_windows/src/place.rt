//! Where a pane stands.

ghost use Rattle.std.specs.Prelude.{◌≡◌};
ghost use Rattle.std.proofs.Common.{rules};
ghost use Rattle.std.specs.Cmp.{partial_order_from_own_ties, partial_order_from_total};
ghost use Rattle.std.specs.Cmp.Rules.{comparing};
ghost use Rattle.std.specs.Ordering.{as_partial_cmp};
ghost use Rattle.wsm_windows.specs.PlaceOrder.{places_total};
ghost use Rattle.wsm_windows.specs.Places.{at, place_cmp, window_of};

use crate::window::Window;
use std::cmp::Ordering;

/// Where a pane stands: a window and a key. Places are ordered as panes fire, by end, then start,
/// then key.
#[derive(Clone, Copy, Debug, PartialEq, Eq)]
pub struct Place {
    /// The end of the window, in event time.
    pub end: i64,
    /// The start of the window, in event time.
    pub start: i64,
    /// The number of the key.
    pub key: u16,
}

impl Place {
    /// The place of a key and a window.
    pub fn at(key: u16, window: Window) -> Place
        ensures { result ≡ at key window }
    {
        Place {
            end: window.end,
            start: window.start,
            key,
        }
    }

    /// Its window.
    pub fn window(self) -> Window
        ensures { result ≡ window_of self }
    {
        Window {
            start: self.start,
            end: self.end,
        }
    }
}

impl Ord for Place {
    ghost cmp = { place_cmp };

    ghost total = { places_total };

    ghost matches_partial_cmp = { Prim.search (comparing, rules) };

    ghost matches_eq = { Prim.search (comparing, rules) };

    fn cmp(&self, other: &Place) -> Ordering {
        match self.end.cmp(&other.end) {
            Ordering::Equal => match self.start.cmp(&other.start) {
                Ordering::Equal => self.key.cmp(&other.key),
                order => order,
            },
            order => order,
        }
    }
}

impl PartialOrd for Place {
    ghost partial_cmp = { as_partial_cmp place_cmp };

    ghost laws = { partial_order_from_own_ties (partial_order_from_total places_total) (Prim.search (comparing, rules)) };

    fn partial_cmp(&self, other: &Place) -> Option<Ordering> {
        Some(self.cmp(other))
    }
}
