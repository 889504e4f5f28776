//! Which sessions a time is linked to, and what windows come of it.

ghost use Rattle.std.specs.Prelude.{◌≡◌, ◌<◌, ◌≤◌, ◌^◌, ◌+ℤ◌, ◌≤ℤ◌, pos, int_le, int_lt, length, filter};
ghost use Rattle.std.specs.Int.{int_max, int_min};
ghost use Rattle.std.specs.List.Sorted.{IsPartitionedBy};
ghost use Rattle.wsm_windows.specs.Windows.{IsTime, window, greatest_span};
ghost use Rattle.wsm_semantics.specs.Sessions.{links, ends_by};
ghost use Rattle.wsm_sessions.specs.Live.{IsOfTimes};
ghost use Rattle.wsm_sessions.specs.Placing.{placed, those_linked};
ghost use Rattle.wsm_sessions.specs.Placing as spec;

use crate::placed::{Linked, Placed};
use wsm_tiers::TieredList;
use wsm_windows::Window;

/// What a time does to sessions: which it is linked to, and at what place.
#[inline(always)]
pub fn find(windows: &TieredList<Window>, gap: i64, time: i64) -> Placed
    requires gap_low { pos 1 ≤ℤ gap }
    requires gap_high { gap ≤ℤ greatest_span }
    requires time { IsTime time }
    requires sessions { IsOfTimes gap windows.now.items }
    ensures found { result ≡ placed gap time windows.now.items }
    ensures countable { length windows.now.items < 2 ^ 64 }
{
    let i = ended_by(windows, time);
    let reach = time + gap;
    if !starts_before(windows, i, reach) {
        Placed::New(i)
    } else if !starts_before(windows, i + 1, reach) {
        Placed::Extends(i)
    } else {
        Placed::Joins(i)
    }
}

/// The sessions that a time is linked to, where it was found what it does to them.
#[inline(always)]
pub fn linked_at(windows: &TieredList<Window>, gap: i64, time: i64, found: Placed) -> Linked
    requires gap_low { pos 1 ≤ℤ gap }
    requires time { IsTime time }
    requires sessions { IsOfTimes gap windows.now.items }
    requires found { found ≡ placed gap time windows.now.items }
    requires countable { length windows.now.items < 2 ^ 64 }
    ensures { those_linked result ≡ filter (links gap time) windows.now.items }
{
    match found {
        Placed::New(_) => Linked::None,
        Placed::Extends(i) => Linked::One(windows.get(i)),
        Placed::Joins(i) => Linked::Two(windows.get(i), windows.get(i + 1)),
    }
}

/// The session of one time.
pub(crate) fn alone(gap: i64, time: i64) -> Window
    requires gap_low { pos 1 ≤ℤ gap }
    requires gap_high { gap ≤ℤ greatest_span }
    requires time { IsTime time }
    ensures { result ≡ window time (time +ℤ gap) }
{
    Window {
        start: time,
        end: time + gap,
    }
}

/// A session with a time that is linked to it alone.
pub(crate) fn extended(session: Window, gap: i64, time: i64) -> Window
    requires gap_low { pos 1 ≤ℤ gap }
    requires gap_high { gap ≤ℤ greatest_span }
    requires time { IsTime time }
    ensures { result ≡ window (int_min session.start time) (int_max session.end (time +ℤ gap)) }
{
    Window {
        start: session.start.min(time),
        end: session.end.max(time + gap),
    }
}

/// A session and the next, which a time between them links.
pub(crate) fn joined(session: Window, next: Window) -> Window
    ensures { result ≡ window session.start next.end }
{
    Window {
        start: session.start,
        end: next.end,
    }
}

// How many windows end by a time, where those come first. Mostly they are all, or all but the newest.
fn ended_by(windows: &TieredList<Window>, time: i64) -> usize
    requires { IsPartitionedBy (ends_by time) windows.now.items }
    ensures count { result ≡ length (filter (ends_by time) windows.now.items) }
    ensures within { result ≤ length windows.now.items }
    ensures countable { length windows.now.items < 2 ^ 64 }
{
    let count = windows.len();
    if is_ended_at(windows, count, time) {
        count
    } else if is_ended_at(windows, count - 1, time) {
        count - 1
    } else {
        count_ended(windows, time)
    }
}

/// How many windows end by a time, where those come first.
#[inline(never)]
pub(crate) fn count_ended(windows: &TieredList<Window>, time: i64) -> usize
    requires { IsPartitionedBy (ends_by time) windows.now.items }
    ensures count { result ≡ length (filter (ends_by time) windows.now.items) }
    ensures within { result ≤ length windows.now.items }
{
    let mut low = 0;
    let mut high = windows.len();
    while low < high {
        let middle = low + (high - low) / 2;
        if ends_by(windows.get(middle), time) {
            low = middle + 1;
        } else {
            high = middle;
        }
    }
    low
}

// Whether the window in front of a place ends by a time, if there is one.
fn is_ended_at(windows: &TieredList<Window>, place: usize, time: i64) -> bool
    requires { place ≤ length windows.now.items }
    ensures { result ≡ spec.is_ended_at time windows.now.items place }
{
    place == 0 || ends_by(windows.get(place - 1), time)
}

// Whether a window ends by a time.
fn ends_by(window: Window, time: i64) -> bool
    ensures { result ≡ int_le window.end time }
{
    window.end <= time
}

// Whether there is a window at a place, and it starts before a time.
fn starts_before(windows: &TieredList<Window>, i: usize, time: i64) -> bool
    ensures { result ≡ spec.starts_before time windows.now.items i }
{
    i < windows.len() && is_before(windows.get(i), time)
}

// Whether a window starts before a time.
fn is_before(window: Window, time: i64) -> bool
    ensures { result ≡ int_lt window.start time }
{
    window.start < time
}

/// Whether there is a window, and the first ends by a time.
pub(crate) fn first_ends_by(windows: &TieredList<Window>, time: i64) -> bool
    ensures { result ≡ spec.first_ends_by time windows.now.items }
{
    windows.len() > 0 && ends_by(windows.get(0), time)
}
