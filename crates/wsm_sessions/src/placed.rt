//! What a time does to sessions.

ghost use Rattle.std.specs.Prelude.{◌≡◌};
ghost use Rattle.wsm_sessions.specs.Placing.{place_of};

use wsm_windows::Window;

/// What a time that was placed did, and at which place among the sessions by rising start.
#[derive(Clone, Copy, Debug, PartialEq, Eq)]
pub enum Placed {
    /// It is linked to no session, and began the one that is now at this place.
    New(usize),
    /// It is linked to the one at this place alone, which holds it now.
    Extends(usize),
    /// It is linked to the one at this place and to the next, which are now one, at this place.
    Joins(usize),
}

/// The sessions that a time is linked to, by rising start: at most two.
#[derive(Clone, Copy, Debug, PartialEq, Eq)]
pub enum Linked {
    /// None is less than a gap away.
    None,
    /// One, which the time extends or is in.
    One(Window),
    /// Two, which the time joins.
    Two(Window, Window),
}

/// What a time that entered was linked to, and where it is now.
#[derive(Clone, Copy, Debug, PartialEq, Eq)]
pub struct Entry {
    /// The sessions that it was linked to, as they were.
    pub linked: Linked,
    /// The session that it is in now.
    pub session: Window,
}

impl Placed {
    /// The place of the session that holds the time now, counted from 0.
    pub fn index(self) -> usize
        ensures { result ≡ place_of self }
    {
        match self {
            Placed::New(i) => i,
            Placed::Extends(i) => i,
            Placed::Joins(i) => i,
        }
    }
}
