//! What a record does to a table of panes whose windows lie on a grid.

ghost use Rattle.std.specs.Prelude.{◌≡◌, ◌∷◌, [], length, IfSome};
ghost use Rattle.std.specs.FinMap as map;
ghost use Rattle.wsm_ring.specs.Entering.{CanAssign, HasAssigned, windows_past};

use crate::ring_table::RingTable;
use wsm_record::{Kind, Value};
use wsm_windows::Window;

/// Puts a record into the panes of the windows that have its time inside and end past another. Tells how many they
/// are, and which it is where there is one alone that is at hand.
pub fn enter_windows(
    table: &mut RingTable,
    kinds: &[Kind],
    key: u16,
    time: i64,
    values: &[Value],
    past: i64,
) -> (u64, Option<Window>)
    requires { CanAssign kinds.now values.now key time past table.old }
    ensures enters { HasAssigned kinds.now values.now key time past table.old table.new }
    ensures count { result.0 ≡ length (windows_past table.old.ring past time) }
    ensures alone { IfSome result.1 (λ w. windows_past table.old.ring past time ≡ w ∷ []) }
{
    match table.only_row(time, past) {
        Some(row) => {
            let place = table.ring().place(row, key);
            table.enter_at(row.slot + key as usize, place, kinds, values);
            (1, Some(place.window()))
        }
        None => (enter_each(table, kinds, key, time, values, past), None),
    }
}

// Puts a record into the panes of those windows one after the other, and tells how many they are.
fn enter_each(
    table: &mut RingTable,
    kinds: &[Kind],
    key: u16,
    time: i64,
    values: &[Value],
    past: i64,
) -> u64
    requires { CanAssign kinds.now values.now key time past table.old }
    ensures enters { HasAssigned kinds.now values.now key time past table.old table.new }
    ensures count { result ≡ length (windows_past table.old.ring past time) }
{
    let ring = table.ring();
    let mut row = table.first_row(past);
    let mut count = 0;
    while row.start <= time {
        let slot = row.slot + key as usize;
        table.enter_at(slot, ring.place(row, key), kinds, values);
        row = ring.next_row(row);
        count += 1;
    }
    count
}
