//! What a run folds.

ghost use Rattle.std.specs.Prelude.{◌≡◌, ◌<◌, ◌≤◌, Some, None, length, take, replicate, slice_get, slice_set, is_some, Option};
ghost use Rattle.wsm_record.specs.declared.event.Value.{Value};
ghost use Rattle.std.specs.List.{list_all};

use std::marker::Model;
use wsm_record::Value;
use wsm_record::limits::MAX_ACCUMULATORS;

/// The value that a run folds into each accumulator, held inline: none until it is folded.
#[derive(Drop)]
pub struct Folds {
    places: [Option<Value>; MAX_ACCUMULATORS],
    len: usize,
}

impl Model for Folds {
    ghost use Rattle.std.specs.Prelude.{List, Option, take, ◌≤◌};
    ghost use Rattle.wsm_record.specs.declared.event.Value.{Value as OneValue};
    ghost use Rattle.wsm_record.specs.declared.limits.TheConstants.{MAX_ACCUMULATORS};

    ghost Value = { List (Option OneValue) };

    ghost view = { λ a. take a.len a.places };

    ghost invariant = { λ a. a.len ≤ MAX_ACCUMULATORS };
}

impl Folds {
    /// Nothing folded yet, into so many accumulators.
    pub fn open(len: usize) -> Self
        requires { len ≤ MAX_ACCUMULATORS }
        ensures { result ≡ replicate len None }
    {
        Folds {
            places: [None; MAX_ACCUMULATORS],
            len,
        }
    }

    /// What is folded, by accumulator.
    pub fn values(&self) -> &[Option<Value>]
        ensures values { result.now ≡ self.now }
        ensures room { length result.now ≤ MAX_ACCUMULATORS }
    {
        &self.places[..self.len]
    }

    /// Whether an accumulator is folded.
    pub(crate) fn is_folded(&self, a: u8) -> bool
        requires { a < length self.now }
        ensures { (o : Option Value) → slice_get self.now a ≡ Some o → result ≡ is_some o }
    {
        self.places[a as usize].is_some()
    }

    /// Folds a value into an accumulator.
    pub(crate) fn fold(&mut self, a: u8, value: Value)
        requires { a < length self.old }
        ensures { self.new ≡ slice_set self.old a (Some value) }
    {
        self.places[a as usize] = Some(value);
    }

    /// Whether each accumulator is folded.
    pub(crate) fn are_complete(&self) -> bool
        ensures { result ≡ list_all is_some self.now }
    {
        self.places[..self.len].iter().all(|place| place.is_some())
    }
}
