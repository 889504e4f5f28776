//! The accumulators of a pane.

ghost use Rattle.std.specs.Prelude.{◌≡◌, ◌≤◌, ◌∷◌, [], ◌++◌, List, Some, length, take, drop, IsTrue};
ghost use Rattle.wsm_record.specs.declared.event.Value.{Value as OneValue};
ghost use Rattle.wsm_fold.specs.Fold.{is_of_kind, are_of_kinds, number_of, truth_of, join as join_of, joins, folds_of};
ghost use Rattle.wsm_fold.specs.Accumulators.{SumFits, SumsFit};

use crate::fold::{All, Any, Fold, Max, Min, Sum};
use std::marker::Model;
use wsm_record::limits::MAX_ACCUMULATORS;
use wsm_record::{Kind, Value};

/// What the accumulators of a pane hold, inline: a value each. No call takes memory.
///
/// A clause sees the values. What they are is said of every bag of rows: where they are the folds of
/// a bag before a call, they are the folds of the bag with the row more after it.
#[derive(Clone, Copy, Debug)]
pub struct Folded {
    values: [Value; MAX_ACCUMULATORS],
    len: usize,
}

impl Model for Folded {
    ghost use Rattle.std.specs.Prelude.{◌≡◌, ◌≤◌, ◌-◌, ◌++◌, List, length, take, drop, replicate, pos};
    ghost use Rattle.std.proofs.Common.{arith, sym, ap, ◌∙◌, take-append-drop, length-take-le};
    ghost use Rattle.wsm_record.specs.declared.event.Value.{Value as OneValue};
    ghost use Rattle.wsm_record.specs.declared.event.Value.TheVariants.{Int};
    ghost use Rattle.wsm_record.specs.declared.limits.TheConstants.{MAX_ACCUMULATORS};

    ghost Value = { List OneValue };

    ghost view = { λ f. take f.len f.values };

    // The places behind the values hold 0, so that equal values are equal bit by bit.
    ghost invariant = { λ f. (f.len ≤ MAX_ACCUMULATORS) × (length f.values ≡ MAX_ACCUMULATORS) × (drop f.len f.values ≡ replicate (MAX_ACCUMULATORS - f.len) (Int (pos 0))) };

    ghost inverse = { λ xs. record { values = xs ++ replicate (MAX_ACCUMULATORS - length xs) (Int (pos 0)); len = length xs } };

    ghost inverse_ok = { λ f h i. record {
      values = (ap (λ n. take f.len f.values ++ replicate (MAX_ACCUMULATORS - n) (Int (pos 0))) (length-take-le f.len f.values (omega (arith, h.0, h.1))) ∙ ap (λ rest. take f.len f.values ++ rest) (sym h.2) ∙ take-append-drop f.len f.values) i;
      len = length-take-le f.len f.values (omega (arith, h.0, h.1)) i;
    } };
}

impl Folded {
    /// What a first row of values comes to.
    pub fn start(values: &[Value]) -> Self
        requires { length values.now ≤ MAX_ACCUMULATORS }
        ensures { result ≡ values.now }
    {
        let mut held = [Value::Int(0); MAX_ACCUMULATORS];
        let len = values.len();
        held[..len].copy_from_slice(values);
        Folded { values: held, len }
    }

    /// Folds a row of values, one for each accumulator of these kinds.
    pub fn fold(&mut self, kinds: &[Kind], values: &[Value])
        requires held { IsTrue (are_of_kinds kinds.now self.old) }
        requires types { IsTrue (are_of_kinds kinds.now values.now) }
        requires sums { SumsFit kinds.now self.old values.now }
        ensures joined { self.new ≡ joins kinds.now self.old values.now }
        ensures bag { (rows : List (List OneValue)) → folds_of kinds.now rows ≡ Some self.old → folds_of kinds.now (rows ++ values.now ∷ []) ≡ Some self.new }
    {
        join_all(kinds, &mut self.values, values);
    }

    /// Folds what other accumulators of the same kinds hold.
    pub fn merge(&mut self, kinds: &[Kind], other: &Folded)
        requires held { IsTrue (are_of_kinds kinds.now self.old) }
        requires types { IsTrue (are_of_kinds kinds.now other.now) }
        requires sums { SumsFit kinds.now self.old other.now }
        ensures joined { self.new ≡ joins kinds.now self.old other.now }
        ensures bag { (xs ys : List (List OneValue)) → folds_of kinds.now xs ≡ Some self.old → folds_of kinds.now ys ≡ Some other.now →
            folds_of kinds.now (xs ++ ys) ≡ Some self.new }
    {
        self.fold(kinds, other.values());
    }

    /// What each accumulator holds, in their order.
    pub fn values(&self) -> &[Value]
        ensures { result.now ≡ self.now }
    {
        &self.values[..self.len]
    }
}

/// Folds a row of values into what accumulators of these kinds hold, a value each, where they are.
#[inline(always)]
pub fn fold_into(kinds: &[Kind], held: &mut [Value], values: &[Value])
    requires held { IsTrue (are_of_kinds kinds.now held.old) }
    requires types { IsTrue (are_of_kinds kinds.now values.now) }
    requires sums { SumsFit kinds.now held.old values.now }
    ensures { held.new ≡ joins kinds.now held.old values.now }
{
    join_all(kinds, held, values);
}

// Joins a row of values to those in the first places.
#[inline(always)]
fn join_all(kinds: &[Kind], places: &mut [Value], values: &[Value])
    requires kinds { length values.now ≤ length kinds.now }
    requires places { length values.now ≤ length places.old }
    requires sums { SumsFit kinds.now places.old values.now }
    ensures joined { take (length values.now) places.new ≡ joins kinds.now places.old values.now }
    ensures rest { drop (length values.now) places.new ≡ drop (length values.now) places.old }
{
    for (i, value) in values.iter().enumerate() {
        join_in(kinds[i], &mut places[i], *value);
    }
}

// Joins a value to the one in a place. Of two numbers only the number is written. A record is folded in several
// places, and none of them should call for it.
#[inline(always)]
fn join_in(kind: Kind, place: &mut Value, value: Value)
    requires { SumFits kind place.old value }
    ensures { place.new ≡ join_of kind place.old value }
{
    if let Value::Int(held) = place {
        if let Value::Int(number) = value {
            match kind {
                Kind::Sum => *held = Sum::join(*held, number),
                Kind::Min => *held = Min::join(*held, number),
                Kind::Max => *held = Max::join(*held, number),
                Kind::Any | Kind::All => *place = join(kind, *place, value),
            }
            return;
        }
    }
    *place = join(kind, *place, value);
}

// Two values in one.
fn join(kind: Kind, left: Value, right: Value) -> Value
    requires { SumFits kind left right }
    ensures { result ≡ join_of kind left right }
{
    match kind {
        Kind::Sum => Value::Int(Sum::join(number(left), number(right))),
        Kind::Min => Value::Int(Min::join(number(left), number(right))),
        Kind::Max => Value::Int(Max::join(number(left), number(right))),
        Kind::Any => Value::Bool(Any::join(truth(left), truth(right))),
        Kind::All => Value::Bool(All::join(truth(left), truth(right))),
    }
}

fn number(value: Value) -> i64
    ensures { result ≡ number_of value }
{
    match value {
        Value::Int(n) => n,
        _ => 0,
    }
}

fn truth(value: Value) -> bool
    ensures { result ≡ truth_of value }
{
    match value {
        Value::Bool(b) => b,
        _ => false,
    }
}
