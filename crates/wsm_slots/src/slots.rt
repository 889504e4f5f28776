//! Panes in slots.

ghost use Rattle.std.specs.Prelude.{◌≡◌, ◌<◌, ◌≤◌, ◌^◌, List, Some, None, true, IfOk, IfSome, IsTrue, length, option_map, replicate, slice_get};
ghost use Rattle.std.specs.Box.{boxed_slice_items};
ghost use Rattle.std.specs.Option.{is_some};
ghost use Rattle.wsm_record.specs.declared.words.Kind.{Kind as OneKind};
ghost use Rattle.wsm_record.specs.declared.limits.TheConstants.{MAX_ACCUMULATORS, MAX_COLUMNS};
ghost use Rattle.wsm_record.specs.Modes.{retracts};
ghost use Rattle.wsm_fold.specs.Fold.{are_of_kinds};
ghost use Rattle.wsm_slots.specs.Panes.{CanRecord, CanTake, with_one_more, entry_recorded, entry_fired};
ghost use Rattle.wsm_slots.specs.Layout.{HasPart, IsAsWide, IsRowWritten, IsWritten, folded_on, part_at, windows_kept, with_any, with_part, with_window, with_slot};
ghost use Rattle.wsm_slots.specs.Slots.{pane_of, slot_at};

use crate::head::{Head, Holds};
use crate::row_words::{RowWords, write_cells};
use crate::view::{PaneView, RowView};
use crate::widths::Widths;
use std::alloc::{AllocError, Global};
use std::boxed::BoxedSlice;
use std::marker::Model;
use wsm_fold::fold_into;
use wsm_record::{Cell, Columns, Kind, Mode, Value};
use wsm_windows::{Place, Window};

// Until one is written.
const NO_WINDOW: Window = Window { start: 0, end: 0 };

/// Slots, each of which is free or has a place with its pane. The values of all panes lie beside one
/// another, as many for each as it has accumulators, and so do the words of their rows, as many as it
/// has columns, and the windows of what stands, where they are kept. A boxed slice can't grow, so no
/// slot takes memory once they are open. A clause sees the entries.
#[derive(Drop)]
pub struct Slots {
    widths: Widths,
    heads: BoxedSlice<Head>,
    folds: BoxedSlice<Value>,
    words: BoxedSlice<i64>,
    // Of each slot, where windows are kept, and else none.
    windows: BoxedSlice<Window>,
}

impl Model for Slots {
    ghost use Rattle.std.specs.Box.{boxed_slice_items};
    ghost use Rattle.wsm_slots.specs.Layout.{IsLaidOut, Slotted, entries_by};

    ghost Value = { Slotted };

    ghost view = { λ a. record {
      widths = a.widths;
      slots =
          entries_by a.widths.accumulators a.widths.columns (boxed_slice_items a.heads) (boxed_slice_items a.folds) (boxed_slice_items a.words) (boxed_slice_items a.windows);
    } };

    ghost invariant = { λ a. IsLaidOut a.widths (boxed_slice_items a.heads) (boxed_slice_items a.folds) (boxed_slice_items a.words) (boxed_slice_items a.windows) };
}

impl Slots {
    /// So many slots, each of which is free. No later call takes memory.
    ///
    /// # Errors
    ///
    /// Where there is no memory for them.
    pub fn open(alloc: Global, widths: Widths, count: usize) -> Result<Slots, AllocError>
        requires count { count ≤ 2 ^ 32 }
        requires accumulators { widths.accumulators ≤ MAX_ACCUMULATORS }
        requires columns { widths.columns ≤ MAX_COLUMNS }
        ensures { IfOk result (λ s. s ≡ record { widths = widths; slots = replicate count None }) }
    {
        Ok(Slots {
            widths,
            heads: copies(alloc, Head::free(), count)?,
            folds: copies(alloc, Value::Int(0), count * widths.accumulators)?,
            words: copies(alloc, 0, count * widths.columns)?,
            windows: copies(alloc, NO_WINDOW, window_count(widths, count))?,
        })
    }

    /// How many slots there are.
    pub fn len(&self) -> usize
        ensures { result ≡ length self.now.slots }
    {
        self.heads.len()
    }

    /// The place of the entry in a slot, if there is one.
    pub fn place(&self, slot: usize) -> Option<Place>
        requires { slot < length self.now.slots }
        ensures { result ≡ option_map (λ e. e.0) (slot_at self.now.slots slot) }
    {
        let head = &self.heads[slot];
        if head.is_held() {
            Some(head.place())
        } else {
            None
        }
    }

    /// The place of the entry in a slot.
    pub fn held_place(&self, slot: usize) -> Place
        requires { IsTrue (is_some (slot_at self.now.slots slot)) }
        ensures { option_map (λ e. e.0) (slot_at self.now.slots slot) ≡ Some result }
    {
        self.heads[slot].place()
    }

    /// The pane in a slot.
    pub fn pane(&self, slot: usize) -> PaneView<'_>
        requires { IsTrue (is_some (slot_at self.now.slots slot)) }
        ensures same { option_map (λ e. e.1) (slot_at self.now.slots slot) ≡ Some result }
        ensures wide { IsAsWide self.now.widths result }
        ensures few { IfSome result.folded (λ values. length values ≤ MAX_ACCUMULATORS) }
    {
        let head = &self.heads[slot];
        PaneView {
            count: head.count,
            unshown: head.unshown,
            is_folded: head.is_folded(),
            stands: head.stands,
            folds: part(&self.folds, slot, self.widths.accumulators),
            row: RowView::Part(RowWords {
                kinds: head.kinds,
                words: part(&self.words, slot, self.widths.columns),
            }),
            stood: window_at(&self.windows, slot),
        }
    }

    /// Has a slot have a place with a pane of one record, which is folded by the values.
    #[cold]
    pub fn start(&mut self, slot: usize, place: Place, values: &[Value])
        requires slot { slot < length self.old.slots }
        requires wide { length values.now ≡ self.old.widths.accumulators }
        ensures { (kinds : List OneKind) → self.new ≡ with_slot slot (Some (place, with_one_more kinds values.now None)) self.old }
    {
        self.heads[slot] = Head::of_one(place);
        write_part(&mut self.folds, slot, values);
    }

    /// Has a slot have a place with a pane.
    pub fn put(&mut self, slot: usize, place: Place, pane: &PaneView<'_>)
        requires slot { slot < length self.old.slots }
        requires wide { IsAsWide self.old.widths pane.now }
        ensures { self.new ≡ with_slot slot (Some (place, pane.now)) self.old }
    {
        let row = pane.standing_row();
        let kinds = write_row(&mut self.words, slot, cells_of(&row));
        self.heads[slot] = Head::of_pane(place, pane, kinds);
        write_any(&mut self.folds, slot, pane.folded());
        write_window(&mut self.windows, slot, pane.window());
    }

    /// Puts a record into the pane in a slot, which is folded by the values.
    #[inline(always)]
    pub fn record(&mut self, slot: usize, kinds: &[Kind], values: &[Value])
        requires there { IsTrue (is_some (slot_at self.old.slots slot)) }
        requires wide { length values.now ≡ self.old.widths.accumulators }
        requires types { IsTrue (are_of_kinds kinds.now values.now) }
        requires takes { IfSome (slot_at self.old.slots slot) (λ e. CanRecord kinds.now values.now e.1) }
        ensures { self.new ≡ with_slot slot (entry_recorded kinds.now values.now (slot_at self.old.slots slot)) self.old }
    {
        let head = &mut self.heads[slot];
        let is_folded = head.is_folded();
        head.record();
        fold_part(&mut self.folds, slot, is_folded, kinds, values);
    }

    /// Has the entry in a slot, if there is one, be at another place.
    pub fn move_to(&mut self, slot: usize, place: Place)
        requires { slot < length self.old.slots }
        ensures { self.new ≡ with_slot slot (option_map (λ e. (place, e.1)) (slot_at self.old.slots slot)) self.old }
    {
        self.heads[slot].move_to(place);
    }

    /// Has the pane in a slot, if there is one, have fired.
    pub fn fire(&mut self, slot: usize, mode: Mode, row: Option<&[Cell]>)
        requires slot { slot < length self.old.slots }
        requires wide { IfSome row (λ cells. length cells.now ≡ self.old.widths.columns) }
        requires windows { self.old.widths.windows ≡ retracts mode }
        ensures { self.new ≡ with_slot slot (entry_fired mode (option_map (λ cells. cells.now) row.entry) (slot_at self.old.slots slot)) self.old }
    {
        let kinds = write_row(&mut self.words, slot, row);
        let head = &mut self.heads[slot];
        head.fire(mode, row.is_some(), kinds);
        let window = head.place().window();
        write_window(&mut self.windows, slot, Some(window));
    }

    /// Has a slot be free.
    pub fn clear(&mut self, slot: usize)
        requires { slot < length self.old.slots }
        ensures { self.new ≡ with_slot slot None self.old }
    {
        self.heads[slot].holds = Holds::Nothing;
    }
}

/// Whether a slot has the pane at a place.
pub fn is_at(slots: &Slots, slot: usize, place: Place) -> bool
    ensures { result ≡ is_some (pane_of place (slot_at slots.now.slots slot)) }
{
    if slot < slots.len() {
        match slots.place(slot) {
            Some(other) => other == place,
            None => false,
        }
    } else {
        false
    }
}

// The values of a slot, among those of slots that have so many each.
fn part<T: Copy>(values: &[T], slot: usize, width: usize) -> &[T]
    requires { HasPart slot width values.now }
    ensures { result.now ≡ part_at slot width values.now }
{
    let at = slot * width;
    &values[at..at + width]
}

// Writes the values of a slot, among those of slots that have as many each.
fn write_part<T: Copy>(values: &mut [T], slot: usize, part: &[T])
    requires { HasPart slot (length part.now) values.old }
    ensures { values.new ≡ with_part slot (length part.now) values.old part.now }
{
    let at = slot * part.len();
    values[at..at + part.len()].copy_from_slice(part);
}

// Writes the values of a slot, if there are any, among those of slots that have as many each.
fn write_any<T: Copy>(values: &mut [T], slot: usize, part: Option<&[T]>)
    requires { IfSome part (λ written. HasPart slot (length written.now) values.old) }
    ensures { values.new ≡ with_any slot values.old (option_map (λ written. written.now) part.entry) }
{
    if let Some(part) = part {
        write_part(values, slot, part);
    }
}

// Writes the row of a slot, if there is one, as words among those of slots that have as many each.
// Tells the kinds of its cells.
fn write_row(words: &mut [i64], slot: usize, row: Option<&[Cell]>) -> u32
    requires few { IfSome row (λ cells. length cells.now ≤ MAX_COLUMNS) }
    requires part { IfSome row (λ cells. HasPart slot (length cells.now) words.old) }
    ensures { IsWritten slot (option_map (λ cells. cells.now) row.entry) words.old words.new result }
{
    match row {
        Some(cells) => write_row_part(words, slot, cells),
        None => 0,
    }
}

// Writes a row as the words of a slot, among those of slots that have as many each. Tells the kinds
// of its cells.
fn write_row_part(words: &mut [i64], slot: usize, row: &[Cell]) -> u32
    requires few { length row.now ≤ MAX_COLUMNS }
    requires part { HasPart slot (length row.now) words.old }
    ensures { IsRowWritten slot row.now words.old words.new result }
{
    let at = slot * row.len();
    write_cells(&mut words[at..at + row.len()], row)
}

// The cells of a row, if there is one.
fn cells_of(row: &Option<Columns>) -> Option<&[Cell]>
    ensures { option_map (λ cells. cells.now) result ≡ row.now }
{
    match row {
        Some(columns) => Some(columns.as_slice()),
        None => None,
    }
}

// The window of a slot, among those of slots, where they are kept.
fn window_at(windows: &[Window], slot: usize) -> Option<Window>
    ensures { result ≡ slice_get windows.now slot }
{
    windows.get(slot).copied()
}

// Writes the window of a slot, if there is one, among those of slots, where they are kept.
fn write_window(windows: &mut [Window], slot: usize, window: Option<Window>)
    ensures { windows.new ≡ with_window slot windows.old window }
{
    if let Some(window) = window {
        if slot < windows.len() {
            windows[slot] = window;
        }
    }
}

// How many windows are kept of so many slots.
fn window_count(widths: Widths, count: usize) -> usize
    ensures { result ≡ windows_kept widths count }
{
    if widths.windows { count } else { 0 }
}

// Folds a row into the values of a slot, among those of slots that have as many each, where something
// is folded there already. Else writes it there.
#[inline(always)]
fn fold_part(values: &mut [Value], slot: usize, is_folded: bool, kinds: &[Kind], row: &[Value])
    requires part { HasPart slot (length row.now) values.old }
    requires types { IsTrue (are_of_kinds kinds.now row.now) }
    requires takes { is_folded ≡ true → CanTake kinds.now row.now (part_at slot (length row.now) values.old) }
    ensures { values.new ≡ with_part slot (length row.now) values.old (folded_on is_folded kinds.now (part_at slot (length row.now) values.old) row.now) }
{
    let at = slot * row.len();
    let held = &mut values[at..at + row.len()];
    if is_folded {
        fold_into(kinds, held, row);
    } else {
        write_over(held, row);
    }
}

// Writes values over as many others. In line, each record would prepare for a copy that it seldom makes.
#[inline(never)]
fn write_over(values: &mut [Value], others: &[Value])
    requires { length values.old ≡ length others.now }
    ensures { values.new ≡ others.now }
{
    values.copy_from_slice(others);
}

// So many copies of a value, which stay as many.
fn copies<T: Copy>(alloc: Global, value: T, count: usize) -> Result<BoxedSlice<T>, AllocError>
    ensures { IfOk result (λ s. boxed_slice_items s ≡ replicate count value) }
{
    let mut values = Vec::with_capacity(alloc, count)?;
    for _ in 0..count {
        values.push_reserved(value);
    }
    Ok(values.into_boxed_slice())
}
