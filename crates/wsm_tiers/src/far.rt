//! Items in tiers.

ghost use Rattle.std.specs.Prelude.{◌≡◌, ◌==◌, ℕ, ◌+◌, ◌*◌, ◌<◌, ◌≤◌, [], ◌∷◌, ◌++◌, IfOk, Some, drop, insert, length, set, slice_get, take, vec_capacity, vec_len};
ghost use Rattle.std.specs.List.{remove};
ghost use Rattle.std.specs.VecDeque.{deque_capacity, deque_len};
ghost use Rattle.wsm_tiers.specs.Tiers.{AreFilled, joined};

use std::alloc::{AllocError, Global};
use std::collections::VecDeque;
use std::marker::Model;

/// How many items a tier has at most.
pub(crate) const TIER: usize = 2048;

/// Items in tiers, each of which is full but the last that has any. A clause sees the items in their
/// order, and for how many there is room.
#[derive(Drop)]
pub(crate) struct Far<T> {
    tiers: Vec<VecDeque<T>>,
    len: usize,
    room: usize,
}

impl<T> Model for Far<T> {
    ghost use Rattle.std.specs.Prelude.{◌≡◌, ◌+◌, ◌*◌, ◌<◌, ◌≤◌, length, vec_capacity};
    ghost use Rattle.wsm_tiers.specs.Listed.{Listed, listed_code};

    ghost Value = { Listed T };

    ghost coded = { listed_code T.code };

    ghost use Rattle.wsm_tiers.specs.Tiers.{AreFilled, joined};
    ghost use Rattle.wsm_tiers.specs.declared.far.TheConstants.{TIER};

    ghost view = { λ a. record { items = joined a.tiers.items; room = a.room } };

    ghost invariant = { λ a. AreFilled a.len a.tiers.items × (a.len ≤ a.room) × (a.room ≤ TIER * length a.tiers.items) × (TIER * length a.tiers.items < a.room + TIER) × (vec_capacity a.tiers ≡ length a.tiers.items) };
}

impl<T: Copy + Drop> Far<T> {
    /// No item, with room for so many. No later call takes memory.
    ///
    /// # Errors
    ///
    /// Where there is no memory for the room.
    pub(crate) fn open(alloc: Global, room: usize) -> Result<Far<T>, AllocError>
        ensures empty { IfOk result (λ far. far.items ≡ []) }
        ensures room { IfOk result (λ far. far.room ≡ room) }
    {
        Ok(Far {
            tiers: tiers(alloc, room.div_ceil(TIER))?,
            len: 0,
            room,
        })
    }

    /// Whether there is no item.
    pub(crate) fn is_empty(&self) -> bool
        ensures { result ≡ (length self.now.items == 0) }
    {
        self.len == 0
    }

    /// The item of a number.
    #[cold]
    pub(crate) fn get(&self, at: usize) -> T
        requires { at < length self.now.items }
        ensures { slice_get self.now.items at ≡ Some result }
    {
        self.tiers[at / TIER][at % TIER]
    }

    /// Puts an item in front of the one of a number, and of those behind it.
    pub(crate) fn insert(&mut self, at: usize, item: T)
        requires at { at ≤ length self.old.items }
        requires room { length self.old.items < self.old.room }
        ensures items { self.new.items ≡ insert self.old.items at item }
        ensures room { self.new.room ≡ self.old.room }
    {
        put(&mut self.tiers, self.len, at, item);
        self.len += 1;
    }

    /// Takes the item of a number out.
    pub(crate) fn remove(&mut self, at: usize) -> T
        requires { at < length self.old.items }
        ensures item { slice_get self.old.items at ≡ Some result }
        ensures items { self.new.items ≡ remove self.old.items at }
        ensures room { self.new.room ≡ self.old.room }
    {
        let item = take(&mut self.tiers, self.len, at);
        self.len -= 1;
        item
    }

    /// Has another item stand at a number.
    #[cold]
    pub(crate) fn set(&mut self, at: usize, item: T)
        requires { at < length self.old.items }
        ensures items { self.new.items ≡ set self.old.items at item }
        ensures room { self.new.room ≡ self.old.room }
    {
        let tier = &mut self.tiers[at / TIER];
        tier[at % TIER] = item;
    }

    /// Takes the first items out, as many as a tier has, and adds them to others.
    pub(crate) fn pour_first(&mut self, into: &mut Vec<T>)
        requires some { 0 < length self.old.items }
        requires room { vec_len into.old + TIER ≤ vec_capacity into.old }
        ensures poured { into.new.items ≡ into.old.items ++ take TIER self.old.items }
        ensures left { self.new.items ≡ drop TIER self.old.items }
        ensures room { self.new.room ≡ self.old.room }
        ensures capacity { vec_capacity into.new ≡ vec_capacity into.old }
    {
        let mut first = self.tiers.remove(0);
        append(into, &first);
        first.clear();
        self.tiers.push_reserved(first);
        self.len = self.len.saturating_sub(TIER);
    }
}

// So many tiers, each with its room.
fn tiers<T: Drop>(alloc: Global, count: usize) -> Result<Vec<VecDeque<T>>, AllocError>
    ensures filled { IfOk result (λ tiers. AreFilled 0 tiers.items) }
    ensures count { IfOk result (λ tiers. length tiers.items ≡ count) }
    ensures capacity { IfOk result (λ tiers. vec_capacity tiers ≡ count) }
{
    let mut tiers = Vec::with_capacity(alloc, count)?;
    for made in 0..count {
        tiers.push_reserved(VecDeque::with_capacity(alloc, TIER)?);
    }
    Ok(tiers)
}

// Puts an item in front of the one of a number. The last of each full tier from there on goes to the
// front of the next.
fn put<T>(tiers: &mut Vec<VecDeque<T>>, len: usize, at: usize, item: T)
    requires filled { AreFilled len tiers.old.items }
    requires at { at ≤ len }
    requires room { len < TIER * length tiers.old.items }
    ensures items { joined tiers.new.items ≡ insert (joined tiers.old.items) at item }
    ensures filled { AreFilled (len + 1) tiers.new.items }
    ensures room { length tiers.new.items ≡ length tiers.old.items }
    ensures capacity { vec_capacity tiers.new ≡ vec_capacity tiers.old }
{
    let first = at / TIER;
    let last = len / TIER;
    if first == last {
        place(&mut tiers[first], at % TIER, item);
    } else {
        let mut carried = squeeze(&mut tiers[first], at % TIER, item);
        for tier in first + 1..last {
            carried = pass(&mut tiers[tier], carried);
        }
        tiers[last].push_front_reserved(carried);
    }
}

// Puts an item in front of the one of a number, where the tier has room.
fn place<T>(tier: &mut VecDeque<T>, at: usize, value: T)
    requires at { at ≤ deque_len tier.old }
    requires room { deque_len tier.old < deque_capacity tier.old }
    ensures items { tier.new.items ≡ insert tier.old.items at value }
    ensures len { deque_len tier.new ≡ deque_len tier.old + 1 }
    ensures capacity { deque_capacity tier.new ≡ deque_capacity tier.old }
{
    tier.rotate_left(at);
    tier.push_front_reserved(value);
    tier.rotate_right(at);
}

// Puts an item into a full tier, and takes its last out.
fn squeeze<T>(tier: &mut VecDeque<T>, at: usize, item: T) -> T
    requires at { at < deque_len tier.old }
    ensures items { insert tier.old.items at item ≡ tier.new.items ++ result ∷ [] }
    ensures len { deque_len tier.new ≡ deque_len tier.old }
    ensures capacity { deque_capacity tier.new ≡ deque_capacity tier.old }
{
    let last = tier.pop_back().unwrap();
    place(tier, at, item);
    last
}

// Puts an item in front of a full tier, and takes its last out.
fn pass<T>(tier: &mut VecDeque<T>, item: T) -> T
    requires some { 0 < deque_len tier.old }
    ensures items { item ∷ tier.old.items ≡ tier.new.items ++ result ∷ [] }
    ensures len { deque_len tier.new ≡ deque_len tier.old }
    ensures capacity { deque_capacity tier.new ≡ deque_capacity tier.old }
{
    let last = tier.pop_back().unwrap();
    tier.push_front_reserved(item);
    last
}

// Takes the item of a number out. The first of each tier behind it goes to the end of the one before.
fn take<T>(tiers: &mut Vec<VecDeque<T>>, len: usize, at: usize) -> T
    requires filled { AreFilled len tiers.old.items }
    requires at { at < len }
    ensures item { slice_get (joined tiers.old.items) at ≡ Some result }
    ensures items { joined tiers.new.items ≡ remove (joined tiers.old.items) at }
    ensures filled { (n : ℕ) → n + 1 ≡ len → AreFilled n tiers.new.items }
    ensures room { length tiers.new.items ≡ length tiers.old.items }
    ensures capacity { vec_capacity tiers.new ≡ vec_capacity tiers.old }
{
    let first = at / TIER;
    let item = tiers[first].remove(at % TIER).unwrap();
    for tier in first..(len - 1) / TIER {
        let next = tiers[tier + 1].pop_front().unwrap();
        tiers[tier].push_back_reserved(next);
    }
    item
}

// Adds the items of a tier.
fn append<T: Copy>(items: &mut Vec<T>, tier: &VecDeque<T>)
    requires { vec_len items.old + deque_len tier.now ≤ vec_capacity items.old }
    ensures items { items.new.items ≡ items.old.items ++ tier.now.items }
    ensures capacity { vec_capacity items.new ≡ vec_capacity items.old }
{
    for i in 0..tier.len() {
        items.push_reserved(tier[i]);
    }
}
