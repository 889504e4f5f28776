//! What instructions may push.

ghost use Rattle.std.specs.Prelude.{◌≡◌, [], ◌∷◌, option_map, slice_index_or};
ghost use Rattle.std.specs.Option.{option_to_list};
ghost use Rattle.wsm_interval.specs.Interval.{computed as interval_of, neg};
ghost use Rattle.wsm_rules.specs.Labels as spec;

use crate::state::State;
use std::marker::Model;
use wsm_interval::{Arithmetic, Interval};
use wsm_program::Instr;
use wsm_rules::Known;

/// What is known of the number of records in a firing, and of the accumulators.
#[derive(Drop)]
pub(crate) struct Ranges {
    pub(crate) count: Interval,
    pub(crate) accumulators: Vec<Known>,
}

impl Model for Ranges {
    ghost use Rattle.wsm_rules.specs.Labels.{Ranges as RangesValue};

    ghost Value = { RangesValue };

    ghost view = { λ a. record { count = a.count; accumulators = a.accumulators.items } };
}

impl Ranges {
    /// What an instruction pushes, or `None` where its arithmetic may leave 64 bits. The last value
    /// of a stack is the first of its list.
    pub(crate) fn pushed(&self, instr: Instr, state: &State) -> Option<Option<Known>>
        ensures { option_map option_to_list result ≡ spec.pushed self.now instr state.now }
    {
        match instr {
            Instr::PushInt(n) => Some(Some(Known::Number(Interval { lo: n, hi: n }))),
            Instr::PushBool(_) => Some(Some(Known::Truth)),
            Instr::PushEnum(e, _) => Some(Some(Known::NameOf(e))),
            Instr::Field(field) => Some(Some(state.field(field))),
            Instr::Key => Some(Some(Known::NameOf(0))),
            Instr::Acc(accumulator) => Some(Some(self.accumulator(accumulator))),
            Instr::Count => Some(Some(Known::Number(self.count))),
            Instr::Compute(arithmetic) => Some(Some(computed(arithmetic, state.stack())?)),
            Instr::Neg => Some(Some(negated(state.stack())?)),
            Instr::Compare(_) | Instr::Not => Some(Some(Known::Truth)),
            Instr::Jump(_) | Instr::JumpIfFalse(_) | Instr::Test(_, _) => Some(None),
            Instr::Fold(_) | Instr::Return => Some(None),
        }
    }

    fn accumulator(&self, accumulator: u8) -> Known
        ensures { result ≡ slice_index_or self.now.accumulators accumulator Known.Truth }
    {
        self.accumulators
            .get(accumulator as usize)
            .copied()
            .unwrap_or(Known::Truth)
    }
}

// What arithmetic on the last two values gives, or `None` where it may leave 64 bits.
fn computed(arithmetic: Arithmetic, stack: &[Known]) -> Option<Known>
    ensures { option_map (λ k. k ∷ []) result ≡ spec.of_two (interval_of arithmetic) stack.now }
{
    match stack {
        [Known::Number(y), Known::Number(x), ..] => Some(Known::Number(x.compute(arithmetic, *y)?)),
        _ => None,
    }
}

// The last value with its sign changed, or `None` where it may leave 64 bits.
fn negated(stack: &[Known]) -> Option<Known>
    ensures { option_map (λ k. k ∷ []) result ≡ spec.of_one neg stack.now }
{
    match stack {
        [Known::Number(x), ..] => Some(Known::Number(x.neg()?)),
        _ => None,
    }
}
