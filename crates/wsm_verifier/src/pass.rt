//! The pass over one section: from the first place to the last, each place's label is taken out and
//! judged, and what its instruction leaves is joined to the labels of the places that come after it.

ghost use Rattle.std.specs.Prelude.{◌≡◌, ℕ, suc, ◌<◌, ◌≤◌, ◌&&◌, false, None, Some, length, nat_eq, replicate, slice_index_or, slice_set, IfOk, IfErr, OnOk};
ghost use Rattle.wsm_program.specs.Instructions as table;
ghost use Rattle.wsm_program.specs.declared.Edges.TheVariants.{Tested};
ghost use Rattle.wsm_rules.specs.Labels as spec;
ghost use Rattle.wsm_rules.specs.Labels.{Unreached, Reached, visits};
ghost use Rattle.wsm_rules.specs.Rules as rules;
ghost use Rattle.wsm_rules.specs.declared.rejection.Part.TheVariants.{Code};
ghost use Rattle.wsm_rules.specs.Rules.{section_fault, fault_of, hull_options, value_folded, values_folded};
ghost use Rattle.wsm_verifier.specs.Trying.{setting_of};
ghost use Rattle.wsm_verifier.specs.Turning.{unfolded, label_in, joined_along, turned};

use crate::label::Label;
use crate::ranges::Ranges;
use crate::rules::Setting;
use crate::state::State;
use std::alloc::{AllocError, Global};
use std::mem;
use wsm_interval::Interval;
use wsm_program::{Edges, FieldTest, Instr, SectionId};
use wsm_rules::{Known, Part, Rejection, Rule};

/// The first fault of a section, or else the hull of the numbers that are folded into each
/// accumulator.
pub(crate) fn judge_section(
    alloc: Global,
    setting: &Setting,
    accumulators: usize,
    fields: &[Known],
    code: &[Instr],
) -> Result<Result<Vec<Option<Interval>>, Rejection>, AllocError>
    requires { setting.now.length ≡ length code.now }
    ensures refused { IfOk result (λ judged. IfErr judged (λ rejection.
        section_fault (setting_of setting.now) (visits (unfolded accumulators fields.now) setting.now.ranges.now code.now) ≡ Some rejection)) }
    ensures passed { IfOk result (λ judged. IfOk judged (λ folded.
        section_fault (setting_of setting.now) (visits (unfolded accumulators fields.now) setting.now.ranges.now code.now) ≡ None)) }
    ensures accumulators { IfOk result (λ judged. IfOk judged (λ folded. length folded.items ≡ accumulators)) }
    ensures folded { IfOk result (λ judged. IfOk judged (λ folded. (a : ℕ) → a < accumulators →
        slice_index_or folded.items a None ≡ values_folded a (visits (unfolded accumulators fields.now) setting.now.ranges.now code.now))) }
{
    if code.is_empty() {
        return Ok(Err(rejection_at(setting.section, 0, Rule::NoReturn)));
    }
    let mut labels = unreached(alloc, code.len())?;
    labels[0].join(State::entry(alloc, accumulators, fields)?);
    let mut folded = vec![in alloc; None; accumulators]?;
    for place in 0..code.len() {
        if let Some(rule) = turn(alloc, setting, place, code[place], &mut labels, &mut folded)? {
            return Ok(Err(rejection_at(setting.section, place, rule)));
        }
    }
    Ok(Ok(folded))
}

fn rejection_at(section: SectionId, place: usize, rule: Rule) -> Rejection
    ensures { result ≡ record { part = Code section; place = place; rule = rule } }
{
    Rejection {
        part: Part::Code(section),
        place,
        rule,
    }
}

/// The labels of a section before anything is joined.
pub(crate) fn unreached(alloc: Global, length: usize) -> Result<Vec<Label>, AllocError>
    ensures { IfOk result (λ labels. labels.items ≡ replicate length Unreached) }
{
    let mut labels = Vec::with_capacity(alloc, length)?;
    for _ in 0..length {
        labels.push(Label::unreached())?;
    }
    Ok(labels)
}

/// Judges the instruction at a place by the label that is kept for it: the rule that holds, or else
/// what it folds is noted, and what it leaves is joined to the labels of the places that come next.
pub(crate) fn turn(
    alloc: Global,
    setting: &Setting,
    place: usize,
    instr: Instr,
    labels: &mut [Label],
    folded: &mut [Option<Interval>],
) -> Result<Option<Rule>, AllocError>
    requires place { place < length labels.old }
    requires length { setting.now.length ≡ length labels.old }
    ensures fault { IfOk result (λ rule. fault_of (setting_of setting.now) place instr (label_in labels.old place) ≡ rule) }
    ensures labels { IfOk result (λ rule. rule ≡ None → labels.new ≡ turned setting.now.ranges.now place instr labels.old) }
    ensures folded { IfOk result (λ rule. rule ≡ None → (a : ℕ) → a < length folded.old →
        slice_index_or folded.new a None ≡ hull_options (value_folded a instr (label_in labels.old place)) (slice_index_or folded.old a None)) }
    ensures accumulators { length folded.new ≡ length folded.old }
{
    let label = mem::replace(&mut labels[place], Label::unreached());
    let state = match judged(setting, place, instr, label) {
        Ok(state) => state,
        Err(rule) => return Ok(Some(rule)),
    };
    note_fold(folded, instr, &state);
    if let Some(left) = after(setting.ranges, instr, state)? {
        carry(alloc, labels, place, instr.edges(), left)?;
    }
    Ok(None)
}

// The state before an instruction, or the first rule that holds of it.
fn judged(setting: &Setting, place: usize, instr: Instr, label: Label) -> Result<State, Rule>
    ensures state { IfOk result (λ state. label ≡ Reached state) }
    ensures passed { IfOk result (λ state. fault_of (setting_of setting.now) place instr (Reached state) ≡ None) }
    ensures refused { IfErr result (λ rule. fault_of (setting_of setting.now) place instr label ≡ Some rule) }
{
    let state = label.into_state()?;
    match setting.first_rule(place, instr, &state) {
        Some(rule) => Err(rule),
        None => Ok(state),
    }
}

// Widens what is folded into an accumulator by the number that an instruction folds.
fn note_fold(folded: &mut [Option<Interval>], instr: Instr, state: &State)
    ensures length { length folded.new ≡ length folded.old }
    ensures folded { (a : ℕ) → a < length folded.old →
        slice_index_or folded.new a None ≡ hull_options (value_folded a instr (Reached state.now)) (slice_index_or folded.old a None) }
{
    let Some(accumulator) = instr.folds() else {
        return;
    };
    let Some(number) = last_number(state.stack()) else {
        return;
    };
    let accumulator = accumulator as usize;
    if accumulator < folded.len() {
        folded[accumulator] = Some(widened(number, folded[accumulator]));
    }
}

fn widened(number: Interval, known: Option<Interval>) -> Interval
    ensures { Some result ≡ hull_options (Some number) known }
{
    match known {
        None => number,
        Some(known) => number.hull(known),
    }
}

fn last_number(stack: &[Known]) -> Option<Interval>
    ensures { result ≡ rules.last_number stack.now }
{
    match stack {
        [Known::Number(x), ..] => Some(*x),
        _ => None,
    }
}

// What an instruction leaves, or nothing where its arithmetic may leave 64 bits.
fn after(ranges: &Ranges, instr: Instr, mut state: State) -> Result<Option<State>, AllocError>
    requires { spec.pops instr ≤ length state.stack }
    ensures { IfOk result (λ left. left ≡ spec.after ranges.now instr state) }
{
    let Some(pushed) = ranges.pushed(instr, &state) else {
        return Ok(None);
    };
    state.replace(instr.pops(), pushed)?;
    if let Some(accumulator) = instr.folds() {
        state.fold(accumulator);
    }
    Ok(Some(state))
}

// Joins what an instruction leaves to the labels of the places that its edges lead to.
fn carry(
    alloc: Global,
    labels: &mut [Label],
    place: usize,
    edges: Edges,
    state: State,
) -> Result<(), AllocError>
    requires place { place < length labels.old }
    requires jumps { table.is_bad (length labels.old) place (table.target_of edges) ≡ false }
    requires ends { (table.lead_on edges && nat_eq (suc place) (length labels.old)) ≡ false }
    ensures { OnOk result (labels.new ≡ joined_along edges place state labels.old) }
{
    match edges {
        Edges::Nowhere => {}
        Edges::Next => labels[place + 1].join(state),
        Edges::Target(target) => labels[target as usize].join(state),
        Edges::Either(target) => {
            let target = target as usize;
            if target != place + 1 {
                labels[target].join(state.try_clone(alloc)?);
            }
            labels[place + 1].join(state);
        }
        Edges::Tested(test, target) => carry_tested(alloc, labels, place, test, target, state)?,
    }
    Ok(())
}

// Joins what a test leaves to the labels of the next place, where it is true, and of its target.
fn carry_tested(
    alloc: Global,
    labels: &mut [Label],
    place: usize,
    test: FieldTest,
    target: u16,
    mut state: State,
) -> Result<(), AllocError>
    requires place { place < length labels.old }
    requires jumps { table.is_bad (length labels.old) place (table.target_of (Tested test target)) ≡ false }
    requires ends { nat_eq (suc place) (length labels.old) ≡ false }
    ensures { OnOk result (labels.new ≡ joined_along (Tested test target) place state labels.old) }
{
    let target = target as usize;
    if target == place + 1 {
        labels[target].join(state);
        return Ok(());
    }
    let mut other = state.try_clone(alloc)?;
    other.narrow(test.opposite());
    labels[target].join(other);
    state.narrow(test);
    labels[place + 1].join(state);
    Ok(())
}
