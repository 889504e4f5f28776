//! The last stamp of each clock.

ghost use Rattle.std.specs.Prelude.{◌≡◌, ◌+◌, ◌-◌, ◌^◌, ◌<◌, ◌≤◌, if◌then◌else◌, IfOk, List, None, Option, Some, get_or, length, nat_lt, replicate, set, vec_len};
ghost use Rattle.wsm_watermarks.specs.declared.stamp.Stamp.{Stamp as AnyStamp};
ghost use Rattle.wsm_watermarks.specs.Clocks.{Fits};
ghost use Rattle.wsm_watermarks.specs.Table.{counted, is_counted, speaking};

use crate::clocks::Clocks;
use crate::stamp::Stamp;
use std::alloc::{AllocError, Global};
use std::marker::Model;

/// The most clocks that there may be.
pub const MOST_CLOCKS: usize = 16_777_216;

/// The most stamps that may come.
pub const MOST_STAMPS: u64 = u64::MAX;

/// The last stamp of a clock.
#[derive(Clone, Copy, Debug, PartialEq, Eq)]
pub struct Said {
    /// The time that it told.
    pub time: u64,
    /// Which stamp of all it was, counted from 1.
    pub number: u64,
}

/// The last stamps of clocks by their numbers, and how many of them are counted: those that came behind
/// the stamp of the number `since`, with a time of `need` or later.
#[derive(Drop)]
pub struct Table {
    said: Vec<Option<Said>>,
    // How many stamps have come.
    heard: u64,
    since: u64,
    need: u64,
    // How many are counted.
    ahead: usize,
}

impl Model for Table {
    ghost use Rattle.std.specs.Prelude.{◌≡◌, ◌≤◌, length};
    ghost use Rattle.wsm_watermarks.specs.Table.{Sayings, counted};

    ghost Value = { Sayings };

    ghost view = { λ a. record { said = a.said.items; heard = a.heard; since = a.since; need = a.need } };

    ghost invariant = { λ a. (a.ahead ≡ counted a.since a.need a.said.items (length a.said.items))
        × (a.since ≤ a.heard) × (length a.said.items ≤ 16777216) };
}

impl Table {
    /// No clock has spoken. No later call takes memory.
    ///
    /// # Errors
    ///
    /// Memory was refused.
    pub fn open(alloc: Global, clocks: usize, need: u64) -> Result<Table, AllocError>
        requires { clocks ≤ MOST_CLOCKS }
        ensures { IfOk result (λ table. table ≡ record { said = replicate clocks None; heard = 0; since = 0; need = need }) }
    {
        Ok(Table {
            said: vec![in alloc; None; clocks]?,
            heard: 0,
            since: 0,
            need,
            ahead: 0,
        })
    }

    /// The last stamps of clocks that another has, of so many stamps that came, of which those that came behind the
    /// stamp of the number `since` are counted, with a time of `need` or later.
    pub fn resume(said: Vec<Option<Said>>, heard: u64, since: u64, need: u64) -> Table
        requires clocks { length said.items ≤ MOST_CLOCKS }
        requires since { since ≤ heard }
        ensures { result ≡ record { said = said.items; heard = heard; since = since; need = need } }
    {
        let ahead = count_of(&said, since, need);
        Table {
            said,
            heard,
            since,
            need,
            ahead,
        }
    }

    /// Of each clock its last stamp.
    pub fn said(&self) -> &[Option<Said>]
        ensures { result.now ≡ self.now.said }
    {
        &self.said
    }

    /// How many clocks there are.
    pub fn clocks(&self) -> usize
        ensures { result ≡ length self.now.said }
    {
        self.said.len()
    }

    /// How many stamps have come.
    pub fn heard(&self) -> u64
        ensures { result ≡ self.now.heard }
    {
        self.heard
    }

    /// How many clocks are counted.
    pub fn ahead(&self) -> usize
        ensures { result ≡ counted self.now.since self.now.need self.now.said (length self.now.said) }
    {
        self.ahead
    }

    /// How many clocks spoke behind the stamp of a number. All clocks are looked at.
    pub fn voices(&self, since: u64) -> usize
        ensures { result ≡ counted since 0 self.now.said (length self.now.said) }
    {
        count_of(&self.said, since, 0)
    }

    /// Takes note of a stamp.
    pub fn put(&mut self, stamp: Stamp)
        requires clock { stamp.clock < length self.old.said }
        requires room { self.old.heard < MOST_STAMPS }
        ensures { self.new ≡ record self.old {
          said = set self.old.said stamp.clock (Some (record { time = stamp.time; number = self.old.heard + 1 }));
          heard = self.old.heard + 1;
        } }
    {
        self.heard += 1;
        let said = Some(Said {
            time: stamp.time,
            number: self.heard,
        });
        let was = is_counted(self.since, self.need, self.said[stamp.clock]);
        let is = is_counted(self.since, self.need, said);
        self.said[stamp.clock] = said;
        self.ahead = recounted(self.ahead, was, is);
    }

    /// Counts those that came behind another stamp, with another time or a later one, from now on.
    pub fn count(&mut self, since: u64, need: u64)
        requires { since ≤ self.old.heard }
        ensures { self.new ≡ record self.old { since = since; need = need } }
    {
        self.since = since;
        self.need = need;
        self.ahead = count_of(&self.said, since, need);
    }

    /// Gathers the last stamps that came behind a stamp, with the time that is needed or a later one.
    pub fn gather(&self, since: u64, clocks: &mut Clocks)
        ensures most { clocks.new.most ≡ clocks.old.most }
        ensures fits { Fits clocks.new (speaking since self.now.need self.now.said (length self.now.said)) }
    {
        gather(&self.said, since, self.need, clocks);
    }
}

// Whether a last stamp is counted.
fn is_counted(since: u64, need: u64, said: Option<Said>) -> bool
    ensures { result ≡ is_counted since need said }
{
    match said {
        Some(said) => since < said.number && need <= said.time,
        None => false,
    }
}

// How many are counted where one was, or wasn't, and now is, or isn't.
fn recounted(count: usize, was: bool, is: bool) -> usize
    requires some { (if was then 1 else 0) ≤ count }
    requires room { count < 2 ^ 64 - 1 }
    ensures { result + (if was then 1 else 0) ≡ count + (if is then 1 else 0) }
{
    match (was, is) {
        (true, false) => count - 1,
        (false, true) => count + 1,
        _ => count,
    }
}

// How many last stamps are counted.
fn count_of(said: &[Option<Said>], since: u64, need: u64) -> usize
    ensures { result ≡ counted since need said.now (length said.now) }
{
    let mut count = 0;
    for one in said {
        if is_counted(since, need, *one) {
            count += 1;
        }
    }
    count
}

// Gathers the last stamps that came behind a stamp, with a time or a later one.
fn gather(said: &[Option<Said>], since: u64, need: u64, clocks: &mut Clocks)
    ensures most { clocks.new.most ≡ clocks.old.most }
    ensures fits { Fits clocks.new (speaking since need said.now (length said.now)) }
{
    clocks.clear();
    for (clock, one) in said.iter().enumerate() {
        if let Some(last) = one {
            if since < last.number && need <= last.time {
                clocks.tell(Stamp {
                    clock,
                    time: last.time,
                });
            }
        }
    }
}
