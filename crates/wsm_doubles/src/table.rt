//! Identifiers that are found by their hashes.

ghost use Rattle.std.specs.Prelude.{◌≡◌, ◌<◌, ◌∷◌, ◌++◌, [], length, map, slice_index_or, true, IfOk, OnErr, OnOk};
ghost use Rattle.wsm_doubles.specs.Entries.{Tabled, counts_as, entry_of, hash_of, no_entry};
ghost use Rattle.wsm_doubles.specs.Memory.{knows, live};

use crate::chains::Chains;
use crate::entries::Entries;
use crate::entry::Entry;
use crate::hash::hash_of;
use crate::late::Moment;
use std::alloc::{AllocError, Global};
use std::marker::Model;

// Identifiers with the times of their records, in the order in which they came.
#[derive(Drop)]
pub(crate) struct Table {
    entries: Entries,
    // The hash of each, by which it is found.
    chains: Chains,
}

impl Model for Table {
    ghost use Rattle.std.specs.Prelude.{◌≡◌, []};
    ghost use Rattle.wsm_doubles.specs.Entries.{Tabled, hashes_in};

    ghost Value = { Tabled };

    ghost view = { λ t. record { entries = t.entries; buckets = t.chains.buckets } };

    ghost invariant = { λ t. (t.chains.hashes ≡ hashes_in t.entries) × (t.chains.buckets ≡ 0 → t.entries ≡ []) };
}

impl Table {
    // No identifier and no bucket, which takes no memory.
    pub(crate) fn new(alloc: Global) -> Table
        ensures { result ≡ record { entries = []; buckets = 0 } }
    {
        Table {
            entries: Entries::new(alloc),
            chains: Chains::new(alloc),
        }
    }

    // No identifier, with so many buckets and room for as many identifiers, and for as many bytes as these here have.
    fn empty_as(&self, alloc: Global, buckets: usize) -> Result<Table, AllocError>
        ensures { IfOk result (λ t. t ≡ record { entries = []; buckets = buckets }) }
    {
        Ok(Table {
            entries: self.entries.empty_as(alloc, buckets)?,
            chains: Chains::with_buckets(alloc, buckets)?,
        })
    }

    pub(crate) fn len(&self) -> usize
        ensures { result ≡ length self.now.entries }
    {
        self.entries.len()
    }

    pub(crate) fn buckets(&self) -> usize
        ensures { result ≡ self.now.buckets }
    {
        self.chains.buckets()
    }

    // Whether an identifier with its hash is known at a moment.
    #[inline(always)]
    pub(crate) fn knows(&self, identifier: &[u8], hash: u32, moment: Moment) -> bool
        requires { hash ≡ hash_of identifier.now }
        ensures { result ≡ knows identifier.now (live moment.clock moment.shape moment.mark self.now.entries) }
    {
        if self.chains.buckets() == 0 {
            return false;
        }
        let mut at = self.chains.last(hash);
        while at > 0 {
            let number = at - 1;
            if self.is_at(number, identifier, hash, moment) {
                return true;
            }
            at = self.chains.before(number);
        }
        false
    }

    // Whether the entry of a number has an identifier with its hash, and may count at a moment.
    fn is_at(&self, number: usize, identifier: &[u8], hash: u32, moment: Moment) -> bool
        requires hash { hash ≡ hash_of identifier.now }
        requires within { number < length self.now.entries }
        ensures { result ≡ counts_as moment.clock moment.shape moment.mark identifier.now (slice_index_or self.now.entries number no_entry) }
    {
        self.chains.hash(number) == hash && self.is_entry(number, identifier, moment)
    }

    // Whether the entry of a number has an identifier, and may count at a moment. It is a call of its own, since hardly any but a
    // double's hash leads here.
    #[inline(never)]
    fn is_entry(&self, number: usize, identifier: &[u8], moment: Moment) -> bool
        requires { number < length self.now.entries }
        ensures { result ≡ counts_as moment.clock moment.shape moment.mark identifier.now (slice_index_or self.now.entries number no_entry) }
    {
        identifier == self.entries.text(number) && !moment.is_late(self.entries.time(number))
    }

    // Adds an identifier with its hash and a time.
    #[inline(always)]
    pub(crate) fn push(&mut self, text: &[u8], hash: u32, time: i64) -> Result<(), AllocError>
        requires hash { hash ≡ hash_of text.now }
        requires buckets { 0 < self.old.buckets }
        ensures added { OnOk result (self.new ≡ record { entries = self.old.entries ++ (text.now, time) ∷ []; buckets = self.old.buckets }) }
        ensures unchanged { OnErr result (self.new ≡ self.old) }
    {
        self.entries.push(text, time)?;
        if self.chains.push(hash).is_err() {
            self.entries.pop();
            return Err(AllocError);
        }
        Ok(())
    }

    // These identifiers, with so many buckets.
    pub(crate) fn of_entries(
        alloc: Global,
        buckets: usize,
        entries: &[Entry],
    ) -> Result<Table, AllocError>
        requires { 0 < buckets }
        ensures { IfOk result (λ t. t ≡ record { entries = map entry_of entries.now; buckets = buckets }) }
    {
        let mut table = Table::new(alloc).empty_as(alloc, buckets)?;
        for entry in entries {
            let text = entry.identifier.as_slice();
            table.push(text, hash_of(text), entry.time)?;
        }
        Ok(table)
    }

    // The identifier of a number.
    pub(crate) fn identifier(&self, number: usize) -> &[u8]
        requires { number < length self.now.entries }
        ensures { result.now ≡ (slice_index_or self.now.entries number no_entry).0 }
    {
        self.entries.text(number)
    }

    // The time of a number.
    pub(crate) fn time(&self, number: usize) -> i64
        requires { number < length self.now.entries }
        ensures { result ≡ (slice_index_or self.now.entries number no_entry).1 }
    {
        self.entries.time(number)
    }

    // Whether all may count at a moment.
    pub(crate) fn is_live(&self, moment: Moment) -> bool
        ensures { result ≡ true → live moment.clock moment.shape moment.mark self.now.entries ≡ self.now.entries }
    {
        for number in 0..self.entries.len() {
            if moment.is_late(self.entries.time(number)) {
                return false;
            }
        }
        true
    }

    // Has so many buckets.
    pub(crate) fn spread(&mut self, alloc: Global, buckets: usize) -> Result<(), AllocError>
        requires { 0 < buckets }
        ensures spread { OnOk result (self.new ≡ record { entries = self.old.entries; buckets = buckets }) }
        ensures unchanged { OnErr result (self.new ≡ self.old) }
    {
        let chains = self.chains.spread(alloc, buckets)?;
        self.chains = chains;
        Ok(())
    }

    // What may count at a moment, with so many buckets.
    pub(crate) fn live(
        &self,
        alloc: Global,
        buckets: usize,
        moment: Moment,
    ) -> Result<Table, AllocError>
        requires { 0 < buckets }
        ensures { IfOk result (λ t. t ≡ record { entries = live moment.clock moment.shape moment.mark self.now.entries; buckets = buckets }) }
    {
        let mut kept = self.empty_as(alloc, buckets)?;
        for number in 0..self.entries.len() {
            let time = self.entries.time(number);
            if !moment.is_late(time) {
                kept.push(self.entries.text(number), self.chains.hash(number), time)?;
            }
        }
        Ok(kept)
    }
}
