//! The rules that are tried at a place, in their order.
//!
//! The running example has a field n from 0 to 100, at most 1,000 records, one SUM, which folds n,
//! and one column of numbers:
//!
//! ```text
//! where 0 PUSHB 1      update 0 FIELD 0      fire 0 PUSHI 100
//! where 1 RET          update 1 FOLD 0       fire 1 ACC 0
//!                      update 2 RET          fire 2 PUSHI 1
//!                                            fire 3 ADD
//!                                            fire 4 DIV
//!                                            fire 5 PUSHB 1
//!                                            fire 6 RET
//! ```
//!
//! It is accepted: the sum lies in 0 to 100,000, the divisor in 1 to 100,001, the column in 0 to
//! 100. Sections are tried in this order, and their places from 0 on. At a place the first rule
//! that holds is the fault; beside each is a change of the example that it refuses.
//!
//! - `Unreachable`: no edge leads here. `JMP 6` at fire 4 leaves fire 5 without one.
//! - `Join`: edges into the place differ in height, types or what is folded. `PUSHB 0`, `JF 4` in
//!   front of `FIELD 0`, `FOLD 0`: update 4 is come to with the sum folded and not folded.
//! - `NotHere`: `COUNT` at where 0.
//! - `StackUnderflow`: no `PUSHI 100`, so that `DIV` finds one number.
//! - `Type`: `PUSHB 1` at fire 2, where `ADD` takes numbers; or no `PUSHB 1` at fire 5, where the
//!   stack at `RET` isn't the section's result.
//! - `FoldTwice`: `FIELD 0`, `FOLD 0` once more behind update 1.
//! - `MayDivideByZero`: `PUSHI 0` at fire 2, with a divisor from 0 to 100,000.
//! - `MayOverflow`: `PUSHI 9223372036854775807` at fire 2, so that `ADD` may leave 64 bits.
//! - `AccumulatorRange`: a field up to 10^18, of which 1,000 may not have a sum of 64 bits.
//! - `StackOverflow`: 33 times `PUSHI 100` in front.
//! - `FoldMissing`: update with `RET` alone.
//! - `BadJump`: `JMP 0` at fire 5, which doesn't lead forward.
//! - `NoReturn`: no `RET` at the end of a section; one without instructions has it at place 0.
//!
//! Behind the sections come the stated numbers: `BudgetRecord` below 5 (2 instructions of where, 3
//! of update), `BudgetPane` below 7, and `BudgetHeld` below the keys times the most live windows.

ghost use Rattle.std.specs.Prelude.{◌≡◌, ◌≤◌, ◌&&◌, Some, suc, nat_eq};
ghost use Rattle.std.specs.List.{list_all};
ghost use Rattle.std.specs.Option.{option_to_list};
ghost use Rattle.wsm_rules.specs.Rules as rules;
ghost use Rattle.wsm_rules.specs.Rules.{first_of, operand_tests, result_tests, tests};
ghost use Rattle.wsm_verifier.specs.Trying.{setting_of};

use crate::ranges::Ranges;
use crate::state::State;
use crate::types::{fit, may_divide_by_zero, sum_may_leave};
use wsm_program::{Instr, SectionId};
use wsm_record::Kind;
use wsm_record::limits::MAX_STACK;
use wsm_rules::{Known, Rule};

/// Where rules are tried.
#[derive(Clone, Copy)]
pub(crate) struct Setting<'a> {
    pub(crate) section: SectionId,
    pub(crate) kinds: &'a [Kind],
    /// The most records that are admitted.
    pub(crate) records: i64,
    /// What the section's stack is at its end, the last value first.
    pub(crate) ends: &'a [Known],
    pub(crate) ranges: &'a Ranges,
    /// The number of the section's instructions.
    pub(crate) length: usize,
}

impl Setting<'_> {
    /// The first rule that holds of an instruction at a place, before which a state is known.
    pub(crate) fn first_rule(&self, place: usize, instr: Instr, state: &State) -> Option<Rule>
        ensures { result ≡ first_of (tests (setting_of self.now) place instr state.now) }
    {
        match self.operand_rule(instr, state) {
            Some(rule) => Some(rule),
            None => self.result_rule(place, instr, state),
        }
    }

    // The first rule of an instruction's operands.
    fn operand_rule(&self, instr: Instr, state: &State) -> Option<Rule>
        ensures { result ≡ first_of (operand_tests (setting_of self.now) instr state.now) }
    {
        let stack = state.stack();
        if !instr.may_stand(self.section) {
            return Some(Rule::NotHere);
        }
        if stack.len() < instr.pops() {
            return Some(Rule::StackUnderflow);
        }
        if !fit(self.kinds, self.ends, instr, stack) {
            return Some(Rule::Type);
        }
        if folds_again(instr, state.folded()) {
            return Some(Rule::FoldTwice);
        }
        if may_divide_by_zero(instr, stack) {
            return Some(Rule::MayDivideByZero);
        }
        None
    }

    // The first rule of what an instruction makes of its operands, and of where it goes.
    fn result_rule(&self, place: usize, instr: Instr, state: &State) -> Option<Rule>
        ensures { result ≡ first_of (result_tests (setting_of self.now) place instr state.now) }
    {
        let stack = state.stack();
        let Some(pushed) = self.ranges.pushed(instr, state) else {
            return Some(Rule::MayOverflow);
        };
        if sum_may_leave(self.records, self.kinds, instr, stack) {
            return Some(Rule::AccumulatorRange);
        }
        if overflows(stack, pushed, instr.pops()) {
            return Some(Rule::StackOverflow);
        }
        if misses_fold(self.section, instr, state.folded()) {
            return Some(Rule::FoldMissing);
        }
        if instr.is_bad_jump(self.length, place) {
            return Some(Rule::BadJump);
        }
        if instr.goes_on() && is_last(self.length, place) {
            return Some(Rule::NoReturn);
        }
        None
    }
}

// Whether an instruction folds an accumulator that is folded.
fn folds_again(instr: Instr, folded: &[bool]) -> bool
    ensures { result ≡ rules.folds_again instr folded.now }
{
    match instr.folds() {
        Some(accumulator) => folded.get(accumulator as usize).copied().unwrap_or(false),
        None => false,
    }
}

// Whether a stack has too many values once some are taken and one is pushed.
fn overflows(stack: &[Known], pushed: Option<Known>, taken: usize) -> bool
    requires { taken ≤ 2 }
    ensures { result ≡ rules.overflows stack.now (Some (option_to_list pushed)) taken }
{
    MAX_STACK + taken < stack.len() + pushed.is_some() as usize
}

// Whether the update section ends there, with an accumulator that isn't folded.
fn misses_fold(section: SectionId, instr: Instr, folded: &[bool]) -> bool
    ensures { result ≡ rules.fold_missing section instr folded.now }
{
    instr.ends() && section == SectionId::Update && !are_all(folded)
}

fn are_all(folded: &[bool]) -> bool
    ensures { result ≡ list_all (λ b. b) folded.now }
{
    folded.iter().all(|is_folded| *is_folded)
}

// Whether no place is behind a place.
fn is_last(length: usize, place: usize) -> bool
    ensures { result ≡ nat_eq (suc place) length }
{
    place.checked_add(1) == Some(length)
}
