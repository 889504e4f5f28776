//! Where a row stands among steps.

ghost use Rattle.std.specs.Prelude.{◌≡◌, ◌≢◌, ◌<◌, ◌≤◌, length, pos};
ghost use Rattle.wsm_relation.specs.Rows.{IsInOrder, passed};
ghost use Rattle.wsm_relation.specs.Delta.{rows_of, number_of, steps_in, IsDelta};

use crate::order::row_order;
use crate::steps::{Step, cells_at};
use std::cmp::Ordering;
use wsm_record::{Cell, Columns};

/// How many of the rows stand before a row.
pub(crate) fn place_among(rows: &[Columns], steps: &[Step], row: &[Cell]) -> usize
    requires { IsInOrder (rows_of (steps_in rows.now steps.now)) }
    ensures place { result ≡ passed row.now (rows_of (steps_in rows.now steps.now)) }
    ensures within { result ≤ length steps.now }
{
    let mut low = 0;
    let mut high = place_within(rows, steps, row);
    while low < high {
        let middle = low + (high - low) / 2;
        match row_order(row, cells_at(rows, steps[middle].place)) {
            Ordering::Greater => low = middle + 1,
            _ => high = middle,
        }
    }
    low
}

// A place up to which all rows stand that are before a row, found by doubling: at most twice as far.
fn place_within(rows: &[Columns], steps: &[Step], row: &[Cell]) -> usize
    ensures place { passed row.now (rows_of (steps_in rows.now steps.now)) ≤ result }
    ensures within { result ≤ length steps.now }
{
    let mut high = 0usize;
    while high < steps.len() {
        match row_order(row, cells_at(rows, steps[high].place)) {
            Ordering::Greater => high = high.saturating_mul(2).saturating_add(1),
            _ => return high,
        }
    }
    steps.len()
}

/// The number of a row that so many stand before, 0 where it is not there.
pub(crate) fn number_at(rows: &[Columns], steps: &[Step], at: usize, row: &[Cell]) -> i64
    requires delta { IsDelta (steps_in rows.now steps.now) }
    requires at { at ≡ passed row.now (rows_of (steps_in rows.now steps.now)) }
    requires within { at ≤ length steps.now }
    ensures number { result ≡ number_of row.now (steps_in rows.now steps.now) }
    ensures there { result ≢ pos 0 → at < length steps.now }
{
    let (_, behind) = steps.split_at(at);
    first_number(rows, behind, row)
}

// The number of a row that no other stands before, 0 where it is not there.
fn first_number(rows: &[Columns], steps: &[Step], row: &[Cell]) -> i64
    requires delta { IsDelta (steps_in rows.now steps.now) }
    requires first { passed row.now (rows_of (steps_in rows.now steps.now)) ≡ 0 }
    ensures { result ≡ number_of row.now (steps_in rows.now steps.now) }
{
    if steps.is_empty() {
        return 0;
    }
    let step = steps[0];
    match row_order(row, cells_at(rows, step.place)) {
        Ordering::Equal => step.number,
        _ => 0,
    }
}
