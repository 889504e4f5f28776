//! Identifiers with their times, behind one another.

ghost use Rattle.std.specs.Prelude.{◌≡◌, ◌-◌, ◌<◌, ◌∷◌, ◌++◌, [], length, take, slice_index_or, IfOk, OnOk, OnErr};
ghost use Rattle.wsm_doubles.specs.Entries.{no_entry};

use std::alloc::{AllocError, Global};
use std::marker::Model;

// Where an identifier stands, and the time of its record.
#[derive(Clone, Copy)]
pub(crate) struct Spot {
    pub(crate) start: usize,
    pub(crate) end: usize,
    pub(crate) time: i64,
}

// Identifiers with the times of their records, in the order in which they came.
#[derive(Drop)]
pub(crate) struct Entries {
    // The bytes of all identifiers, behind one another.
    texts: Vec<u8>,
    spots: Vec<Spot>,
}

impl Model for Entries {
    ghost use Rattle.std.specs.List.{All};
    ghost use Rattle.wsm_doubles.specs.Entries.{Lies, entries_of};
    ghost use Rattle.wsm_doubles.specs.Memory.{Memory};

    ghost Value = { Memory };

    ghost view = { λ e. entries_of e.texts.items e.spots.items };

    ghost invariant = { λ e. All (Lies e.texts.items) e.spots.items };
}

impl Entries {
    // No identifier, which takes no memory.
    pub(crate) fn new(alloc: Global) -> Entries
        ensures { result ≡ [] }
    {
        Entries {
            texts: Vec::new(alloc),
            spots: Vec::new(alloc),
        }
    }

    // No identifier, with room for so many, and for as many bytes as these here have.
    pub(crate) fn empty_as(&self, alloc: Global, most: usize) -> Result<Entries, AllocError>
        ensures { IfOk result (λ e. e ≡ []) }
    {
        Ok(Entries {
            texts: Vec::with_capacity(alloc, self.texts.len())?,
            spots: Vec::with_capacity(alloc, most)?,
        })
    }

    pub(crate) fn len(&self) -> usize
        ensures { result ≡ length self.now }
    {
        self.spots.len()
    }

    // The identifier of a number.
    pub(crate) fn text(&self, number: usize) -> &[u8]
        requires { number < length self.now }
        ensures { result.now ≡ (slice_index_or self.now number no_entry).0 }
    {
        let spot = self.spots[number];
        &self.texts[spot.start..spot.end]
    }

    // The time of a number.
    pub(crate) fn time(&self, number: usize) -> i64
        requires { number < length self.now }
        ensures { result ≡ (slice_index_or self.now number no_entry).1 }
    {
        self.spots[number].time
    }

    // Adds an identifier with a time.
    pub(crate) fn push(&mut self, text: &[u8], time: i64) -> Result<(), AllocError>
        ensures added { OnOk result (self.new ≡ self.old ++ (text.now, time) ∷ []) }
        ensures unchanged { OnErr result (self.new ≡ self.old) }
    {
        let start = self.texts.len();
        self.texts.extend_from_slice(text)?;
        let end = self.texts.len();
        self.spots.push(Spot { start, end, time })?;
        Ok(())
    }

    // Drops the last.
    pub(crate) fn pop(&mut self)
        requires { 0 < length self.old }
        ensures { self.new ≡ take (length self.old - 1) self.old }
    {
        let _ = self.spots.pop();
    }
}
