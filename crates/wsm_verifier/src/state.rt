//! What is known before an instruction.

ghost use Rattle.std.specs.Prelude.{false, true, ◌≡◌, ◌≤◌, ◌<◌, [], ◌++◌, length, drop, replicate, slice_index_or, slice_set, IsTrue, IfOk, OnOk};
ghost use Rattle.std.specs.Option.{option_to_list};
ghost use Rattle.wsm_rules.specs.Labels as spec;

use crate::types::have_types_of;
use std::alloc::{AllocError, Global};
use std::marker::Model;
use wsm_program::FieldTest;
use wsm_rules::Known;

/// The stack, its last value first, which accumulators are folded, and what is known of each field.
#[derive(Drop)]
pub(crate) struct State {
    stack: Vec<Known>,
    folded: Vec<bool>,
    fields: Vec<Known>,
}

impl Model for State {
    ghost use Rattle.wsm_rules.specs.Labels.{State as StateValue};

    ghost Value = { StateValue };

    ghost view = { λ a. record { stack = a.stack.items; folded = a.folded.items; fields = a.fields.items } };
}

impl State {
    /// The state at the entry: nothing is on the stack, and nothing is folded.
    pub(crate) fn entry(
        alloc: Global,
        accumulators: usize,
        fields: &[Known],
    ) -> Result<State, AllocError>
        ensures { IfOk result (λ s. s ≡ record { stack = []; folded = replicate accumulators false; fields = fields.now }) }
    {
        Ok(State {
            stack: Vec::new(alloc),
            folded: vec![in alloc; false; accumulators]?,
            fields: fields.iter().copied().collect(alloc)?,
        })
    }

    pub(crate) fn stack(&self) -> &[Known]
        ensures { result.now ≡ self.now.stack }
    {
        &self.stack
    }

    pub(crate) fn folded(&self) -> &[bool]
        ensures { result.now ≡ self.now.folded }
    {
        &self.folded
    }

    /// What is known of a field.
    pub(crate) fn field(&self, field: u8) -> Known
        ensures { result ≡ slice_index_or self.now.fields field Known.Truth }
    {
        self.fields
            .get(field as usize)
            .copied()
            .unwrap_or(Known::Truth)
    }

    /// Takes values from the stack, and pushes one, if there is one.
    pub(crate) fn replace(&mut self, taken: usize, pushed: Option<Known>) -> Result<(), AllocError>
        requires { taken ≤ length self.old.stack }
        ensures { OnOk result (self.new ≡ record self.old { stack = option_to_list pushed ++ drop taken self.old.stack }) }
    {
        for _ in 0..taken {
            self.stack.remove(0);
        }
        if let Some(known) = pushed {
            self.stack.insert(0, known)?;
        }
        Ok(())
    }

    /// Counts an accumulator as folded, if there is one.
    pub(crate) fn fold(&mut self, accumulator: u8)
        ensures { self.new ≡ record self.old { folded = slice_set self.old.folded accumulator true } }
    {
        let accumulator = accumulator as usize;
        if accumulator < self.folded.len() {
            self.folded[accumulator] = true;
        }
    }

    /// Narrows what is known of a field to where a test is true.
    pub(crate) fn narrow(&mut self, test: FieldTest)
        ensures { self.new ≡ spec.narrowed test self.old }
    {
        let known = self.field(test.field).narrowed(test);
        let field = test.field as usize;
        if field < self.fields.len() {
            self.fields[field] = known;
        }
    }

    /// Whether both have the same height, types and folded accumulators.
    pub(crate) fn agrees(&self, other: &State) -> bool
        ensures { result ≡ spec.agree self.now other.now }
    {
        have_types_of(&self.stack, &other.stack)
            && have_flags_of(&self.folded, &other.folded)
            && have_types_of(&self.fields, &other.fields)
    }

    /// Widens each value to what is known of this or of the other one.
    pub(crate) fn widen(&mut self, other: &State)
        requires { IsTrue (spec.agree self.old other.now) }
        ensures { self.new ≡ spec.hull_states self.old other.now }
    {
        widen_all(&mut self.stack, &other.stack);
        widen_all(&mut self.fields, &other.fields);
    }

    /// The same state once more.
    pub(crate) fn try_clone(&self, alloc: Global) -> Result<State, AllocError>
        ensures { IfOk result (λ s. s ≡ self.now) }
    {
        Ok(State {
            stack: self.stack.iter().copied().collect(alloc)?,
            folded: self.folded.iter().copied().collect(alloc)?,
            fields: self.fields.iter().copied().collect(alloc)?,
        })
    }
}

// Whether the same accumulators are folded.
fn have_flags_of(folded: &[bool], other: &[bool]) -> bool
    ensures { result ≡ spec.same_flags folded.now other.now }
{
    let Some((flag, flags)) = folded.split_first() else {
        return other.is_empty();
    };
    let Some((other_flag, other_flags)) = other.split_first() else {
        return false;
    };
    flag == other_flag && have_flags_of(flags, other_flags)
}

// Widens each value to what is known of this or of the one at its place in the other list.
fn widen_all(known: &mut [Known], other: &[Known])
    ensures { known.new ≡ spec.hull_lists known.old other.now }
{
    for place in 0..known.len().min(other.len()) {
        known[place] = known[place].hull(other[place]);
    }
}
