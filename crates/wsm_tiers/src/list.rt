//! A list with room for a number of items.

ghost use Rattle.std.specs.Prelude.{◌≡◌, ◌+◌, ◌-◌, ◌<◌, ◌≤◌, [], ◌++◌, IfOk, IfSome, Some, drop, insert, length, set, slice_get, vec_capacity, vec_len};
ghost use Rattle.std.specs.List.{remove};

use crate::far::{Far, TIER};
use std::alloc::{AllocError, Global};
use std::marker::Model;

/// A list with room for a number of items. A clause sees the items, and for how many there is room.
///
/// Its first items lie in a row, up to 2,048, and are read as those of a `Vec`. Those behind them lie
/// in rings of as many, each full but the last. So where an item goes in or comes out, at most as many
/// are moved as one of these has, and one of each behind it.
#[derive(Drop)]
pub struct TieredList<T> {
    near: Vec<T>,
    far: Far<T>,
    len: usize,
    room: usize,
}

impl<T> Model for TieredList<T> {
    ghost use Rattle.std.specs.Prelude.{◌++◌, vec_capacity};
    ghost use Rattle.wsm_tiers.specs.Listed.{Listed, listed_code};
    ghost use Rattle.wsm_tiers.specs.Near.{IsNearFirst};

    ghost Value = { Listed T };

    ghost coded = { listed_code T.code };

    ghost view = { λ a. record { items = a.near.items ++ a.far.items; room = a.room } };

    ghost invariant = { λ a. IsNearFirst a.room a.len a.near.items (vec_capacity a.near) a.far };
}

impl<T: Copy + Drop> TieredList<T> {
    /// No item, with room for so many. No later call takes memory.
    ///
    /// # Errors
    ///
    /// Where there is no memory for the room.
    pub fn open(alloc: Global, room: usize) -> Result<TieredList<T>, AllocError>
        ensures empty { IfOk result (λ list. list.items ≡ []) }
        ensures room { IfOk result (λ list. list.room ≡ room) }
    {
        Ok(TieredList {
            near: Vec::with_capacity(alloc, room.min(TIER))?,
            far: Far::open(alloc, room.saturating_sub(TIER))?,
            len: 0,
            room,
        })
    }

    /// How many items there are.
    pub fn len(&self) -> usize
        ensures len { result ≡ length self.now.items }
        ensures within { result ≤ self.now.room }
    {
        self.len
    }

    /// For how many items there is room.
    pub fn room(&self) -> usize
        ensures { result ≡ self.now.room }
    {
        self.room
    }

    /// The item of a number.
    pub fn get(&self, at: usize) -> T
        requires { at < length self.now.items }
        ensures { slice_get self.now.items at ≡ Some result }
    {
        if at < TIER {
            self.near[at]
        } else {
            self.far.get(at - TIER)
        }
    }

    /// The items, where no more are there than lie in a row.
    pub fn as_row(&self) -> Option<&[T]>
        ensures { IfSome result (λ row. row.now ≡ self.now.items) }
    {
        if self.len <= TIER {
            Some(self.near.as_slice())
        } else {
            None
        }
    }

    /// Puts an item in front of the one of a number, and of those behind it.
    #[inline(never)]
    pub fn insert(&mut self, at: usize, item: T)
        requires at { at ≤ length self.old.items }
        requires room { length self.old.items < self.old.room }
        ensures items { self.new.items ≡ insert self.old.items at item }
        ensures room { self.new.room ≡ self.old.room }
    {
        self.len += 1;
        if at < TIER {
            if self.near.len() == TIER {
                let last = self.near.pop().unwrap();
                self.far.insert(0, last);
            }
            self.near.insert(at, item).unwrap();
        } else {
            self.far.insert(at - TIER, item);
        }
    }

    /// Takes the item of a number out.
    #[inline(never)]
    pub fn remove(&mut self, at: usize) -> T
        requires { at < length self.old.items }
        ensures item { slice_get self.old.items at ≡ Some result }
        ensures items { self.new.items ≡ remove self.old.items at }
        ensures room { self.new.room ≡ self.old.room }
    {
        self.len -= 1;
        if at < TIER {
            let item = self.near.remove(at);
            if !self.far.is_empty() {
                self.near.push_reserved(self.far.remove(0));
            }
            item
        } else {
            self.far.remove(at - TIER)
        }
    }

    /// Has another item stand at a number.
    pub fn set(&mut self, at: usize, item: T)
        requires { at < length self.old.items }
        ensures items { self.new.items ≡ set self.old.items at item }
        ensures room { self.new.room ≡ self.old.room }
    {
        if at < TIER {
            self.near[at] = item;
        } else {
            self.far.set(at - TIER, item);
        }
    }

    /// Has the item of a number stand at another, as those of the others are counted, and gives it.
    pub fn shift(&mut self, from: usize, to: usize) -> T
        requires from { from < length self.old.items }
        requires to { to < length self.old.items }
        ensures here { slice_get self.old.items from ≡ Some result }
        ensures items { self.new.items ≡ insert (remove self.old.items from) to result }
        ensures room { self.new.room ≡ self.old.room }
    {
        if from < TIER && to < TIER {
            shift_within(&mut self.near, from, to)
        } else {
            let item = self.remove(from);
            self.insert(to, item);
            item
        }
    }

    /// Drops the first items, so many.
    pub fn drop_first(&mut self, count: usize)
        requires { count ≤ length self.old.items }
        ensures items { self.new.items ≡ drop count self.old.items }
        ensures room { self.new.room ≡ self.old.room }
    {
        let mut left = count;
        while left >= TIER && self.len() > TIER {
            self.drop_tier();
            left -= TIER;
        }
        self.drop_near(left);
    }

    // Drops the first items, as many as a tier has, where there are more.
    fn drop_tier(&mut self)
        requires { TIER < length self.old.items }
        ensures items { self.new.items ≡ drop TIER self.old.items }
        ensures room { self.new.room ≡ self.old.room }
    {
        self.near.clear();
        self.far.pour_first(&mut self.near);
        self.len -= TIER;
    }

    // Drops the first items, so many, which are no more than a tier's.
    fn drop_near(&mut self, count: usize)
        requires within { count ≤ length self.old.items }
        requires near { count ≤ TIER }
        ensures items { self.new.items ≡ drop count self.old.items }
        ensures room { self.new.room ≡ self.old.room }
    {
        drop_items(&mut self.near, count);
        refill(&mut self.near, &mut self.far, count);
        self.len -= count;
    }
}

// Has the item of a number stand at another, as those of the others are counted, and gives it. Those
// between are moved at once.
fn shift_within<T: Copy>(items: &mut Vec<T>, from: usize, to: usize) -> T
    requires from { from < length items.old.items }
    requires to { to < length items.old.items }
    ensures here { slice_get items.old.items from ≡ Some result }
    ensures items { items.new.items ≡ insert (remove items.old.items from) to result }
    ensures capacity { vec_capacity items.new ≡ vec_capacity items.old }
{
    let item = items[from];
    if from < to {
        items.copy_within(from + 1..to + 1, from);
    } else {
        items.copy_within(to..from, to + 1);
    }
    items[to] = item;
    item
}

// Drops the first items, so many.
fn drop_items<T: Copy + Drop>(items: &mut Vec<T>, count: usize)
    requires { count ≤ length items.old.items }
    ensures items { items.new.items ≡ drop count items.old.items }
    ensures capacity { vec_capacity items.new ≡ vec_capacity items.old }
{
    let left = items.len() - count;
    items.copy_within(count.., 0);
    items.truncate(left);
}

// Takes the first of the items behind, so many or all, and adds them to those before.
fn refill<T: Copy + Drop>(near: &mut Vec<T>, far: &mut Far<T>, count: usize)
    requires { vec_len near.old + count ≤ vec_capacity near.old }
    ensures items { near.new.items ++ far.new.items ≡ near.old.items ++ far.old.items }
    ensures left { length far.new.items ≡ length far.old.items - count }
    ensures capacity { vec_capacity near.new ≡ vec_capacity near.old }
    ensures room { far.new.room ≡ far.old.room }
{
    for _ in 0..count {
        if far.is_empty() {
            return;
        }
        near.push_reserved(far.remove(0));
    }
}
