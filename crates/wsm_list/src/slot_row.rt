//! Slots in a row, and those that are free.

ghost use Rattle.std.specs.Prelude.{◌≡◌, ◌+◌, ◌++◌, ◌<◌, ◌≤◌, ◌^◌, ℕ, [], Some, IfOk, IfSome, if◌then◌else◌, drop, insert, length, nat_lt, slice_get, take, vec_len, vec_capacity};
ghost use Rattle.std.specs.List.{remove};
ghost use Rattle.wsm_list.specs.Stored.{listed};

use std::alloc::{AllocError, Global};
use std::marker::Model;
use wsm_tiers::TieredList;

/// Numbers of slots, from 0 on. Some slots stand in a row, and the others are free. A clause sees the
/// row, and how many slots there are.
#[derive(Drop)]
pub(crate) struct SlotRow {
    row: TieredList<u32>,
    free: Vec<u32>,
}

impl Model for SlotRow {
    ghost use Rattle.std.specs.Prelude.{◌≡◌, vec_capacity};
    ghost use Rattle.wsm_list.specs.Stored.{AreApart, Taken};

    ghost Value = { Taken };

    ghost view = { λ a. record { row = a.row.items; room = a.row.room } };

    ghost invariant = { λ a. AreApart a.row.room a.row.items a.free.items × (vec_capacity a.free ≡ a.row.room) };
}

impl SlotRow {
    /// So many slots, each of which is free. No later call takes memory.
    ///
    /// # Errors
    ///
    /// Where there is no memory for the numbers.
    pub(crate) fn open(alloc: Global, room: usize) -> Result<SlotRow, AllocError>
        requires { room ≤ 2 ^ 32 }
        ensures empty { IfOk result (λ r. r.row ≡ []) }
        ensures room { IfOk result (λ r. r.room ≡ room) }
    {
        Ok(SlotRow {
            row: TieredList::open(alloc, room)?,
            free: numbers(alloc, room)?,
        })
    }

    /// How many slots stand in the row.
    pub(crate) fn len(&self) -> usize
        ensures { result ≡ length self.now.row }
    {
        self.row.len()
    }

    /// How many slots there are.
    pub(crate) fn room(&self) -> usize
        ensures { result ≡ self.now.room }
    {
        self.row.room()
    }

    /// The slot that stands at a number.
    pub(crate) fn get(&self, at: usize) -> usize
        requires { at < length self.now.row }
        ensures here { slice_get self.now.row at ≡ Some result }
        ensures once { listed result self.now.row ≡ 1 }
    {
        self.row.get(at) as usize
    }

    /// The slots of the row, where so few are there that they lie side by side.
    pub(crate) fn numbers(&self) -> Option<&[u32]>
        ensures { IfSome result (λ numbers. numbers.now ≡ self.now.row) }
    {
        self.row.as_row()
    }

    /// Has the slot that was freed last stand at a number, in front of those from there on, and gives it.
    pub(crate) fn insert(&mut self, at: usize) -> usize
        requires at { at ≤ length self.old.row }
        requires room { length self.old.row < self.old.room }
        ensures row { self.new.row ≡ insert self.old.row at result }
        ensures fresh { listed result self.old.row ≡ 0 }
        ensures within { result < self.old.room }
        ensures room { self.new.room ≡ self.old.room }
    {
        let slot = self.free.pop().unwrap();
        self.row.insert(at, slot);
        slot as usize
    }

    /// Has the slot at a number be free.
    pub(crate) fn remove(&mut self, at: usize)
        requires { at < length self.old.row }
        ensures row { self.new.row ≡ remove self.old.row at }
        ensures room { self.new.room ≡ self.old.room }
        ensures left { length self.new.row < self.new.room }
    {
        let slot = self.row.remove(at);
        self.free.push_reserved(slot);
    }

    /// Has the slot at a number stand at another, as those of the others are counted, and gives it.
    pub(crate) fn shift(&mut self, from: usize, to: usize) -> usize
        requires from { from < length self.old.row }
        requires to { to < length self.old.row }
        ensures here { slice_get self.old.row from ≡ Some result }
        ensures row { self.new.row ≡ insert (remove self.old.row from) to result }
        ensures fresh { listed result (remove self.old.row from) ≡ 0 }
        ensures room { self.new.room ≡ self.old.room }
    {
        self.row.shift(from, to) as usize
    }

    /// Has the first slots of the row be free, so many.
    pub(crate) fn drop_first(&mut self, count: usize)
        requires { count ≤ length self.old.row }
        ensures row { self.new.row ≡ drop count self.old.row }
        ensures room { self.new.room ≡ self.old.room }
    {
        if count > 0 {
            add_first(&mut self.free, &self.row, count);
            self.row.drop_first(count);
        }
    }
}

// The numbers below a count.
fn numbers(alloc: Global, count: usize) -> Result<Vec<u32>, AllocError>
    requires { count ≤ 2 ^ 32 }
    ensures once { IfOk result (λ v. (s : ℕ) → listed s v.items ≡ (if nat_lt s count then 1 else 0)) }
    ensures count { IfOk result (λ v. length v.items ≡ count) }
    ensures room { IfOk result (λ v. vec_capacity v ≡ count) }
{
    let mut numbers = Vec::with_capacity(alloc, count)?;
    for number in 0..count {
        numbers.push_reserved(number as u32);
    }
    Ok(numbers)
}

// Adds the first numbers of others, so many.
fn add_first(numbers: &mut Vec<u32>, others: &TieredList<u32>, count: usize)
    requires within { count ≤ length others.now.items }
    requires room { vec_len numbers.old + count ≤ vec_capacity numbers.old }
    ensures items { numbers.new.items ≡ numbers.old.items ++ take count others.now.items }
    ensures capacity { vec_capacity numbers.new ≡ vec_capacity numbers.old }
{
    for i in 0..count {
        numbers.push_reserved(others.get(i));
    }
}
