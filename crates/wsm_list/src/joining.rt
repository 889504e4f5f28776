//! What a record does to a table of panes whose windows are sessions.

ghost use Rattle.std.specs.Prelude.{◌≡◌, ◌<◌, ◌≤◌, ◌≤ℤ◌, ℤ, pos, true, false, ◌∷◌, List, length, nat_eq, nat_lt, Some, IsSome};
ghost use Rattle.std.specs.FinMap as map;
ghost use Rattle.wsm_windows.specs.Places.{at};
ghost use Rattle.wsm_windows.specs.Windows.{IsTime};
ghost use Rattle.wsm_semantics.specs.Sessions.{with_session};
ghost use Rattle.wsm_semantics.specs.Summaries.{joined, linked};
ghost use Rattle.wsm_sessions.specs.Live.{Fits};
ghost use Rattle.wsm_list.specs.Joining.{CanJoinAll, first_two, CanJoinAt, JoinedAt, of_key, parts_of, session_of, with_merged};
ghost use Rattle.wsm_slots.specs.Panes.{windows_of_key};
ghost use Rattle.wsm_list.specs.Recorded.{CanFold, IsAsRoomy};
ghost use Rattle.wsm_slots.specs.Layout.{IsAsWide};

use crate::list::ListTable;
use wsm_record::{Kind, Value};
use wsm_sessions::{Linked, Sessions};
use wsm_slots::{Pane, PaneTable, PaneView, TakesRecords, rebuilt_place};
use wsm_windows::{Place, Window};

/// Puts a record into its session, which joins the panes that it is linked to. Gives the window of
/// the session, and tells whether two were joined. Its frame is large, so it isn't inlined.
#[inline(never)]
pub fn enter_session(
    table: &mut ListTable,
    sessions: &mut Sessions,
    kinds: &[Kind],
    key: u16,
    time: i64,
    values: &[Value],
) -> (Window, bool)
    requires time { IsTime time }
    requires gap { pos 1 ≤ℤ sessions.old.gap }
    requires times { (times : List ℤ) × Fits sessions.old times }
    requires agree { windows_of_key key (map.entries table.old.panes) ≡ sessions.old.windows }
    requires values { CanFold kinds.now values.now table.old }
    requires joins { CanJoinAll kinds.now values.now (parts_of sessions.old.gap key time (map.entries table.old.panes)) }
    requires room { length (with_merged kinds.now values.now sessions.old.gap key time (map.entries table.old.panes)) ≤ table.old.room }
    requires live { length (of_key key (with_merged kinds.now values.now sessions.old.gap key time (map.entries table.old.panes))) ≤ sessions.old.room }
    ensures panes { map.entries table.new.panes ≡ with_merged kinds.now values.now sessions.old.gap key time (map.entries table.old.panes) }
    ensures keeps { IsAsRoomy table.old table.new }
    ensures session { result.0 ≡ session_of sessions.old.gap key time (map.entries table.old.panes) }
    ensures joined { result.1 ≡ nat_lt 1 (length (parts_of sessions.old.gap key time (map.entries table.old.panes))) }
    ensures sessions { sessions.new ≡ record sessions.old { windows = with_session sessions.old.gap time sessions.old.windows } }
    ensures fits { (times : List ℤ) → Fits sessions.old times → Fits sessions.new (time ∷ times) }
    ensures agree { windows_of_key key (map.entries table.new.panes) ≡ sessions.new.windows }
    ensures others { (k : _) → nat_eq key k ≡ false → windows_of_key k (map.entries table.new.panes) ≡ windows_of_key k (map.entries table.old.panes) }
{
    let entry = sessions.enter(time);
    let place = Place::at(key, entry.session);
    match entry.linked {
        Linked::None => {
            table.enter(rebuilt_place(place), kinds, values);
            (entry.session, false)
        }
        Linked::One(window) => {
            let guess = sessions.noted();
            let slot = table.enter_moved(guess, Place::at(key, window), place, kinds, values);
            sessions.note(slot);
            (entry.session, false)
        }
        Linked::Two(first, second) => {
            enter_joined(
                table,
                key,
                first,
                second,
                rebuilt_place(place),
                kinds,
                values,
            );
            (entry.session, true)
        }
    }
}

// Puts a record into what the panes of two windows of a key come to together, which goes to another
// place. Its frame is large, so it isn't inlined, and it makes the places of the two itself, so that no
// room for them is cleared where none are joined.
#[inline(never)]
fn enter_joined(
    table: &mut ListTable,
    key: u16,
    first: Window,
    second: Window,
    to: Place,
    kinds: &[Kind],
    values: &[Value],
)
    requires values { CanFold kinds.now values.now table.old }
    requires can { CanJoinAt kinds.now values.now (at key first) (at key second) to table.old.panes table.old.room }
    ensures panes { JoinedAt kinds.now values.now (at key first) (at key second) to table.old.panes table.new.panes }
    ensures keeps { IsAsRoomy table.old table.new }
{
    let first = Place::at(key, first);
    let second = Place::at(key, second);
    let mut pane = take(table, first);
    let other = take(table, second);
    pane.join(kinds, &other);
    pane.record(kinds, values);
    table.put(to, pane);
}

/// The panes of the two sessions that a record joins, where it joins two. Its answer is large, so it
/// isn't inlined.
#[inline(never)]
pub fn linked_pair<'a>(
    table: &'a ListTable,
    sessions: &Sessions,
    key: u16,
    time: i64,
) -> Option<(PaneView<'a>, PaneView<'a>)>
    requires time { IsTime time }
    requires agree { windows_of_key key (map.entries table.now.panes) ≡ sessions.now.windows }
    ensures pair { result ≡ first_two (parts_of sessions.now.gap key time (map.entries table.now.panes)) }
    ensures few { length (parts_of sessions.now.gap key time (map.entries table.now.panes)) ≤ 2 }
{
    match sessions.linked(time) {
        Linked::None => None,
        Linked::One(_) => None,
        Linked::Two(first, second) => {
            let pane = seen(table, Place::at(key, first));
            let other = seen(table, Place::at(key, second));
            Some((pane, other))
        }
    }
}

// The pane at a place, as it is read where it lies.
fn seen(table: &ListTable, place: Place) -> PaneView<'_>
    requires { IsSome (map.get table.now.panes place) }
    ensures { map.get table.now.panes place ≡ Some result }
{
    let spot = table.find(place).unwrap();
    table.pane(spot)
}

// Takes the pane at a place out.
fn take(table: &mut ListTable, place: Place) -> Pane
    requires { IsSome (map.get table.old.panes place) }
    ensures pane { map.get table.old.panes place ≡ Some result }
    ensures wide { IsAsWide table.old.widths result }
    ensures panes { table.new.panes ≡ map.remove table.old.panes place }
    ensures keeps { IsAsRoomy table.old table.new }
{
    let pane = table.get(place).unwrap();
    table.remove(place);
    pane
}
