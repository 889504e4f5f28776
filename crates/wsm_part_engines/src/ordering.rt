//! Rows of several engines in the order of a turn.

ghost use Rattle.std.specs.Prelude.{◌≡◌, ◌++◌, ◌≤◌, ◌^◌, [], length, OnErr, OnOk};
ghost use Rattle.wsm_key_parts.specs.Merged.{rank as rank_of_row, place_of as place_of_row};
ghost use Rattle.wsm_part_engines.specs.Ordered.{place_in, places_from, all_places, are_of, are_of_one, arranged};
ghost use Rattle.wsm_part_engines.specs.Slots.{rows_of};
ghost use Rattle.wsm_part_engines.specs.Fits.{engine_at};

use crate::row_place::RowPlace;
use crate::slots::rows;
use std::alloc::AllocError;
use wsm_engine::Engine;
use wsm_semantics::OutRow;
use wsm_windows::{Place, Window};

/// Places the rows of a part alone.
pub fn place_one(
    order: &mut Vec<RowPlace>,
    slots: &[Option<Engine>],
    part: u32,
) -> Result<(), AllocError>
    ensures placed { OnOk result (order.new.items ≡ places_from part 0 (rows_of (engine_at slots.now part))) }
    ensures none { OnErr result (order.new.items ≡ []) }
{
    order.clear();
    match rows(slots, part as usize) {
        // Most records fire no pane.
        [] => Ok(()),
        rows => match add_rows(order, part, rows) {
            Ok(()) => Ok(()),
            Err(refused) => {
                order.clear();
                Err(refused)
            }
        },
    }
}

/// Places the rows of all parts, in the order of a turn.
pub fn place_all(order: &mut Vec<RowPlace>, slots: &[Option<Engine>]) -> Result<(), AllocError>
    requires { length slots.now ≤ 2 ^ 32 }
    ensures placed { OnOk result (order.new.items ≡ arranged (all_places 0 slots.now)) }
    ensures none { OnErr result (order.new.items ≡ []) }
{
    order.clear();
    match add_all(order, slots) {
        Ok(()) => {
            arrange(order);
            Ok(())
        }
        Err(refused) => {
            order.clear();
            Err(refused)
        }
    }
}

// Adds the places of the rows of all parts.
fn add_all(order: &mut Vec<RowPlace>, slots: &[Option<Engine>]) -> Result<(), AllocError>
    requires { length slots.now ≤ 2 ^ 32 }
    ensures { OnOk result (order.new.items ≡ order.old.items ++ all_places 0 slots.now) }
{
    for part in 0..slots.len() {
        add_rows(order, part as u32, rows(slots, part))?;
    }
    Ok(())
}

// Adds the places of the rows of a part.
fn add_rows(order: &mut Vec<RowPlace>, part: u32, rows: &[OutRow]) -> Result<(), AllocError>
    ensures { OnOk result (order.new.items ≡ order.old.items ++ places_from part 0 rows.now) }
{
    for (i, row) in rows.iter().enumerate() {
        order.push(place_in(part, i, row))?;
    }
    Ok(())
}

// The place of a row of a part.
fn place_in(part: u32, i: usize, row: &OutRow) -> RowPlace
    ensures { result ≡ place_in part i row.now }
{
    let place = place_of(row);
    RowPlace {
        rank: rank_of(row),
        end: place.end,
        start: place.start,
        part,
        key: place.key,
        row: i,
    }
}

fn rank_of(row: &OutRow) -> u8
    ensures { result ≡ rank_of_row row.now }
{
    match row {
        OutRow::Retract { .. } => 0,
        OutRow::Pane { .. } => 1,
        OutRow::Istream { .. } | OutRow::Dstream { .. } | OutRow::Rstream { .. } => 2,
    }
}

fn place_of(row: &OutRow) -> Place
    ensures { result ≡ place_of_row row.now }
{
    match row {
        OutRow::Retract { key, window, .. } | OutRow::Pane { key, window, .. } => {
            Place::at(*key, *window)
        }
        OutRow::Istream { mark, .. }
        | OutRow::Dstream { mark, .. }
        | OutRow::Rstream { mark, .. } => Place::at(
            0,
            Window {
                start: *mark,
                end: *mark,
            },
        ),
    }
}

// Puts the places of rows into the order of a turn, in which those of one part stand.
fn arrange(order: &mut Vec<RowPlace>)
    ensures { order.new.items ≡ arranged order.old.items }
{
    if !are_of_one(order) {
        order.sort_unstable();
    }
}

// Whether all are of one part.
fn are_of_one(order: &[RowPlace]) -> bool
    ensures { result ≡ are_of_one order.now }
{
    match order {
        [] => true,
        [first, others @ ..] => are_of(first.part, others),
    }
}

fn are_of(part: u32, order: &[RowPlace]) -> bool
    ensures { result ≡ are_of part order.now }
{
    order.iter().all(|place| place.part == part)
}
