//! Where a place stands in a row of slots, or would go.

ghost use Rattle.std.specs.Prelude.{◌≡◌, ◌<◌, ◌≤◌, ◌+◌, ◌^◌, ℕ, Some, None, IfOk, IfErr, IfSome, IsSome, drop, filter, int_lt, length, not, option_map, slice_get, true};
ghost use Rattle.std.specs.FinMap as map;
ghost use Rattle.std.specs.Ordering.{is_gt};
ghost use Rattle.wsm_windows.specs.Places.{place_cmp};
ghost use Rattle.wsm_list.specs.Search.{before, AreBeforeAllOf, IsAt, IsGapFor, IsSlotOf};
ghost use Rattle.wsm_slots.specs.Place.{is_kept};
ghost use Rattle.wsm_list.specs.Stored.{AreListed, AreStored, shown};
ghost use Rattle.wsm_slots.specs.Walk.{first_past};

use crate::slot_row::SlotRow;
use std::cmp::Ordering;
use wsm_slots::{Slots, Spot, is_at};
use wsm_windows::Place;

// As many numbers as may lie side by side, a power of two. Were it less, more would be searched.
const MOST_BESIDE: usize = 2048;

/// The place of the entry of a number.
pub(crate) fn place_at(row: &SlotRow, slots: &Slots, at: usize) -> Place
    requires stored { AreStored slots.now.slots row.now.row }
    requires within { at < length row.now.row }
    ensures { option_map (λ e. e.0) (slice_get (shown slots.now.slots row.now.row) at) ≡ Some result }
{
    slots.held_place(row.get(at))
}

/// The number of the entry at a spot.
pub(crate) fn number_of(row: &SlotRow, slots: &Slots, spot: Spot) -> usize
    requires stored { AreStored slots.now.slots row.now.row }
    requires there { IsSome (map.find place_cmp spot.place (shown slots.now.slots row.now.row)) }
    ensures at { IsAt (shown slots.now.slots row.now.row) spot.place result }
    ensures within { result < length row.now.row }
    ensures countable { length row.now.row < 2 ^ 64 }
{
    if spot.at < row.len() {
        if let Ordering::Equal = spot.place.cmp(&place_at(row, slots, spot.at)) {
            return spot.at;
        }
    }
    search(row, slots, spot.place).unwrap()
}

/// How many entries have a window that ends by a time: the first ones.
pub(crate) fn ended(row: &SlotRow, slots: &Slots, time: i64) -> usize
    requires { AreStored slots.now.slots row.now.row }
    ensures within { result ≤ length row.now.row }
    ensures next { first_past time (shown slots.now.slots row.now.row) ≡ slice_get (shown slots.now.slots row.now.row) result }
    ensures left { filter (λ e. is_kept time e.0) (shown slots.now.slots row.now.row) ≡ drop result (shown slots.now.slots row.now.row) }
{
    let mut low = 0;
    let mut high = row.len();
    while low < high {
        let middle = low + (high - low) / 2;
        if expires(place_at(row, slots, middle), time) {
            low = middle + 1;
        } else {
            high = middle;
        }
    }
    low
}

// Whether a place has a window with an end of at most the limit.
fn expires(place: Place, limit: i64) -> bool
    ensures { result ≡ not (is_kept limit place) }
{
    place.end <= limit
}

/// Where the place is, or where it would go.
pub(crate) fn search(row: &SlotRow, slots: &Slots, place: Place) -> Result<usize, usize>
    requires { AreStored slots.now.slots row.now.row }
    ensures found { IfOk result (IsAt (shown slots.now.slots row.now.row) place) }
    ensures absent { IfErr result (IsGapFor (shown slots.now.slots row.now.row) place) }
    ensures within { IfOk result (λ i. i < length row.now.row) }
    ensures until { IfErr result (λ i. i ≤ length row.now.row) }
{
    let at = count_before(row, slots, place);
    if at == row.len() {
        Err(at)
    } else if place_at(row, slots, at) == place {
        Ok(at)
    } else {
        Err(at)
    }
}

/// How many entries stand before a place.
#[inline(always)]
pub(crate) fn count_before(row: &SlotRow, slots: &Slots, place: Place) -> usize
    requires { AreStored slots.now.slots row.now.row }
    ensures count { result ≡ before place_cmp place (shown slots.now.slots row.now.row) }
    ensures within { result ≤ length row.now.row }
{
    match row.numbers() {
        Some(numbers) => count_in(numbers, slots, place),
        None => count_by_number(row, slots, place),
    }
}

// How many entries stand before a place, where the numbers lie side by side. In which half it is can't
// be foretold, so no branch is taken by it.
fn count_in(numbers: &[u32], slots: &Slots, place: Place) -> usize
    requires { AreStored slots.now.slots numbers.now }
    ensures count { result ≡ before place_cmp place (shown slots.now.slots numbers.now) }
    ensures within { result ≤ length numbers.now }
{
    let mut low = 0;
    let mut size = numbers.len();
    while size > 1 {
        let half = size / 2;
        if is_before(place_of(numbers, slots, low + half - 1), place) {
            low += half;
        }
        size -= half;
    }
    if size > 0 && is_before(place_of(numbers, slots, low), place) {
        low + 1
    } else {
        low
    }
}

/// The number of the entry at a place, which is there. Where a slot that is guessed has it, the slot is
/// looked for, and no place compared.
pub(crate) fn number_at(row: &SlotRow, slots: &Slots, guess: usize, place: Place) -> usize
    requires stored { AreStored slots.now.slots row.now.row }
    requires listed { AreListed slots.now.slots row.now.row }
    requires there { IsSome (map.find place_cmp place (shown slots.now.slots row.now.row)) }
    ensures { result ≡ before place_cmp place (shown slots.now.slots row.now.row) }
{
    if is_at(slots, guess, place) {
        if let Some(number) = number_of_slot(row, slots, guess, place) {
            return number;
        }
    }
    count_before(row, slots, place)
}

// The number of the slot that has the place, where numbers lie side by side and it is one of the first
// whose windows end when the place's does.
fn number_of_slot(row: &SlotRow, slots: &Slots, slot: usize, place: Place) -> Option<usize>
    requires stored { AreStored slots.now.slots row.now.row }
    requires there { IsSlotOf slots.now.slots row.now.row place slot }
    ensures { IfSome result (λ number. number ≡ before place_cmp place (shown slots.now.slots row.now.row)) }
{
    let numbers = row.numbers()?;
    let first = count_ending_before(numbers, slots, place.end);
    let second = past_another(numbers, slot, first);
    let third = past_another(numbers, slot, second);
    let last = past_another(numbers, slot, third);
    if numbers[last] as usize == slot {
        Some(last)
    } else {
        None
    }
}

// The next number, or the same where the slot stands there. No branch is taken by it.
fn past_another(numbers: &[u32], slot: usize, at: usize) -> usize
    requires { at < length numbers.now }
    ensures { (number : ℕ) → slice_get numbers.now number ≡ Some slot → at ≤ number → result ≤ number }
{
    at + (numbers[at] as usize != slot) as usize
}

// How many entries have windows that end before a time, and so stand before each place that ends
// then. One comparison halves what is left, by a number that the compiler knows, and no branch is taken
// by it.
#[inline(never)]
fn count_ending_before(numbers: &[u32], slots: &Slots, end: i64) -> usize
    requires { AreStored slots.now.slots numbers.now }
    ensures { AreBeforeAllOf end result (shown slots.now.slots numbers.now) }
{
    if numbers.is_empty() {
        return 0;
    }
    let top = 1 << numbers.len().ilog2();
    let mut low = 0;
    if ends_before(numbers, slots, top - 1, end) {
        low = numbers.len() - top + 1;
    }
    let mut half = MOST_BESIDE / 2;
    while half > 0 {
        if half <= top / 2 {
            if ends_before(numbers, slots, low + half - 1, end) {
                low += half;
            }
        }
        half /= 2;
    }
    low
}

// Whether the entry of a number has a window that ends before a time.
fn ends_before(numbers: &[u32], slots: &Slots, at: usize, end: i64) -> bool
    requires stored { AreStored slots.now.slots numbers.now }
    requires within { at < length numbers.now }
    ensures { result ≡ true → AreBeforeAllOf end (at + 1) (shown slots.now.slots numbers.now) }
{
    ends_earlier(place_of(numbers, slots, at), end)
}

// Whether a place has a window that ends before a time.
fn ends_earlier(place: Place, end: i64) -> bool
    ensures { result ≡ int_lt place.end end }
{
    place.end < end
}

// The place of the entry of a number, where the numbers lie side by side.
fn place_of(numbers: &[u32], slots: &Slots, at: usize) -> Place
    requires stored { AreStored slots.now.slots numbers.now }
    requires within { at < length numbers.now }
    ensures { option_map (λ e. e.0) (slice_get (shown slots.now.slots numbers.now) at) ≡ Some result }
{
    slots.held_place(numbers[at] as usize)
}

// How many entries stand before a place, where each number is asked for. No branch is taken by what it
// finds here either.
#[cold]
fn count_by_number(row: &SlotRow, slots: &Slots, place: Place) -> usize
    requires { AreStored slots.now.slots row.now.row }
    ensures count { result ≡ before place_cmp place (shown slots.now.slots row.now.row) }
    ensures within { result ≤ length row.now.row }
{
    let mut low = 0;
    let mut size = row.len();
    while size > 1 {
        let half = size / 2;
        if is_before(place_at(row, slots, low + half - 1), place) {
            low += half;
        }
        size -= half;
    }
    if size > 0 && is_before(place_at(row, slots, low), place) {
        low + 1
    } else {
        low
    }
}

// Whether a place stands before another. All parts are compared, so that no branch is taken.
fn is_before(place: Place, other: Place) -> bool
    ensures { result ≡ is_gt (place_cmp other place) }
{
    (place.end < other.end)
        | ((place.end == other.end)
            & ((place.start < other.start)
                | ((place.start == other.start) & (place.key < other.key))))
}
