//! The sessions of one key.

ghost use Rattle.std.specs.Prelude.{◌≡◌, ◌<◌, ℤ, pos, ◌≤ℤ◌, List, [], ◌∷◌, length, filter, Contains, IfOk, true, Some, slice_get, ◌⊎◌, ◌+◌};
ghost use Rattle.std.specs.List.Sorted.{IsPartitionedBy};
ghost use Rattle.std.specs.List.{list_any};
ghost use Rattle.wsm_windows.specs.Windows.{IsTime, greatest_span, has_inside};
ghost use Rattle.wsm_semantics.specs.Sessions.{with_session, session_of, links, ends_after, ends_by};
ghost use Rattle.wsm_sessions.specs.Classes.{IsClass};
ghost use Rattle.wsm_sessions.specs.Live.{Fits, IsApart, times_left, IsOfTimes};
ghost use Rattle.wsm_sessions.specs.Placing.{placed, those_linked, is_any_linked, joined_at};
ghost use Rattle.wsm_sessions.specs.Placing as spec;

use crate::linking::{alone, count_ended, extended, find, first_ends_by, joined, linked_at};
use crate::placed::{Entry, Linked, Placed};
use std::alloc::{AllocError, Global};
use std::marker::Model;
use wsm_tiers::TieredList;
use wsm_windows::Window;

/// The sessions of the times that were placed and not dropped, by rising start. A clause sees their
/// windows, the gap and the room.
#[derive(Drop)]
pub struct Sessions {
    gap: i64,
    windows: TieredList<Window>,
    // What was noted last.
    note: usize,
}

impl Model for Sessions {
    ghost use Rattle.std.specs.Prelude.{◌≤ℤ◌, pos};
    ghost use Rattle.wsm_windows.specs.Windows.{greatest_span};
    ghost use Rattle.wsm_sessions.specs.Live.{Live, IsOfTimes};

    ghost Value = { Live };

    ghost view = { λ a. record { gap = a.gap; room = a.windows.room; windows = a.windows.items } };

    ghost invariant = { λ a. (pos 1 ≤ℤ a.gap) × (a.gap ≤ℤ greatest_span) × IsOfTimes a.gap a.windows.items };
}

impl Sessions {
    /// No session yet, with room for so many. No later call takes memory.
    ///
    /// # Errors
    ///
    /// Where there is no memory for the room.
    pub fn open(alloc: Global, gap: i64, room: usize) -> Result<Self, AllocError>
        requires gap_low { pos 1 ≤ℤ gap }
        requires gap_high { gap ≤ℤ greatest_span }
        ensures empty { IfOk result (λ s. s ≡ record { gap = gap; room = room; windows = [] }) }
        ensures fits { IfOk result (λ s. Fits s []) }
    {
        Ok(Sessions {
            gap,
            windows: TieredList::open(alloc, room)?,
            note: 0,
        })
    }

    /// The number that was noted last, or 0. A clause doesn't see it, so it is a guess.
    pub fn noted(&self) -> usize {
        self.note
    }

    /// Notes a number, as where the caller keeps what belongs to the session of the last time.
    pub fn note(&mut self, number: usize)
        ensures { self.new ≡ self.old }
    {
        self.note = number;
    }

    /// Whether a time can be placed: room is left, or it is linked to a session.
    pub fn admits(&self, time: i64) -> bool
        requires { IsTime time }
        ensures { result ≡ spec.admits self.now time }
    {
        self.len() < self.windows.room() || self.is_linked(time)
    }

    // Whether a session has a time less than a gap from this one.
    fn is_linked(&self, time: i64) -> bool
        requires { IsTime time }
        ensures { result ≡ spec.is_linked self.now time }
    {
        match find(&self.windows, self.gap, time) {
            Placed::New(_) => false,
            Placed::Extends(_) => true,
            Placed::Joins(_) => true,
        }
    }

    /// The sessions that a time is linked to.
    pub fn linked(&self, time: i64) -> Linked
        requires { IsTime time }
        ensures { those_linked result ≡ filter (links self.now.gap time) self.now.windows }
    {
        let found = find(&self.windows, self.gap, time);
        linked_at(&self.windows, self.gap, time, found)
    }

    /// Places a time, and tells the sessions that it was linked to and the one that it is in now.
    pub fn enter(&mut self, time: i64) -> Entry
        requires time { IsTime time }
        requires admits { spec.admits self.old time ≡ true }
        ensures windows { self.new ≡ record self.old { windows = with_session self.old.gap time self.old.windows } }
        ensures linked { those_linked result.linked ≡ filter (links self.old.gap time) self.old.windows }
        ensures session { result.session ≡ session_of self.old.gap time (filter (links self.old.gap time) self.old.windows) }
        ensures fits { (times : List ℤ) → Fits self.old times → Fits self.new (time ∷ times) }
    {
        let found = find(&self.windows, self.gap, time);
        let linked = linked_at(&self.windows, self.gap, time, found);
        self.put(time, found);
        Entry {
            linked,
            session: self.windows.get(found.index()),
        }
    }

    /// Puts a time into the sessions that it is linked to, or into one of its own.
    pub fn place(&mut self, time: i64) -> Placed
        requires time { IsTime time }
        requires admits { spec.admits self.old time ≡ true }
        ensures windows { self.new ≡ record self.old { windows = with_session self.old.gap time self.old.windows } }
        ensures placed { result ≡ placed self.old.gap time self.old.windows }
        // Of whatever times it had the sessions, it has those of one time more.
        ensures fits { (times : List ℤ) → Fits self.old times → Fits self.new (time ∷ times) }
    {
        let found = find(&self.windows, self.gap, time);
        self.put(time, found);
        found
    }

    // Puts a time into the sessions that it is linked to, or into one of its own, as was found.
    #[inline(always)]
    fn put(&mut self, time: i64, found: Placed)
        requires time { IsTime time }
        requires admits { spec.admits self.old time ≡ true }
        requires found { found ≡ placed self.old.gap time self.old.windows }
        ensures windows { self.new ≡ record self.old { windows = with_session self.old.gap time self.old.windows } }
        ensures fits { (times : List ℤ) → Fits self.old times → Fits self.new (time ∷ times) }
    {
        put_time(&mut self.windows, self.gap, time, found);
    }

    /// Drops the sessions that end by a limit, which is in event time, and their times.
    pub fn drop_expired(&mut self, limit: i64)
        ensures windows { self.new ≡ record self.old { windows = filter (ends_after limit) self.old.windows } }
        // Of whatever times it had the sessions, it has those of the times that aren't in a dropped one.
        ensures fits { (times : List ℤ) → Fits self.old times → Fits self.new (times_left self.old.gap limit times) }
    {
        keep_past(&mut self.windows, limit);
    }

    /// The session at place `i`, by rising start.
    pub fn at(&self, i: usize) -> Window
        requires { i < length self.now.windows }
        ensures session { slice_get self.now.windows i ≡ Some result }
        ensures apart { IsApart self.now i result }
        // Of whatever times it has the sessions, this is a class of the chains of links.
        ensures class { (times : List ℤ) → Fits self.now times → IsClass self.now.gap times result }
    {
        self.windows.get(i)
    }

    /// How many sessions there are.
    pub fn len(&self) -> usize
        ensures len { result ≡ length self.now.windows }
        // Of whatever times it has the sessions, each is in one.
        ensures covers { (times : List ℤ) → Fits self.now times → (t : ℤ) → Contains times t → list_any (has_inside t) self.now.windows ≡ true }
    {
        self.windows.len()
    }
}

// Puts a time into sessions, where it was found what it does to them, and room is left or it is
// linked to one.
#[inline(always)]
fn put_time(windows: &mut TieredList<Window>, gap: i64, time: i64, found: Placed)
    requires gap_low { pos 1 ≤ℤ gap }
    requires gap_high { gap ≤ℤ greatest_span }
    requires time { IsTime time }
    requires sessions { IsOfTimes gap windows.old.items }
    requires found { found ≡ placed gap time windows.old.items }
    requires room { (is_any_linked gap time windows.old.items ≡ true) ⊎ (length windows.old.items < windows.old.room) }
    ensures items { windows.new.items ≡ with_session gap time windows.old.items }
    ensures room { windows.new.room ≡ windows.old.room }
{
    match found {
        Placed::New(i) => windows.insert(i, alone(gap, time)),
        Placed::Extends(i) => windows.set(i, extended(windows.get(i), gap, time)),
        Placed::Joins(i) => join(windows, i),
    }
}

// Puts the sessions at a place and at the next together.
fn join(windows: &mut TieredList<Window>, i: usize)
    requires { i + 1 < length windows.old.items }
    ensures items { windows.new.items ≡ joined_at windows.old.items i }
    ensures room { windows.new.room ≡ windows.old.room }
{
    let first = windows.remove(i);
    windows.set(i, joined(first, windows.get(i)));
}

// Keeps the windows that end after a limit, where those that end by it come first.
fn keep_past(windows: &mut TieredList<Window>, limit: i64)
    requires { IsPartitionedBy (ends_by limit) windows.old.items }
    ensures items { windows.new.items ≡ filter (ends_after limit) windows.old.items }
    ensures room { windows.new.room ≡ windows.old.room }
{
    if first_ends_by(windows, limit) {
        let count = count_ended(windows, limit);
        windows.drop_first(count);
    }
}
