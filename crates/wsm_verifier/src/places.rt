//! What is known of the numbers of an accepted program: of those that its instructions push, and of
//! those that a firing hands on for its columns.

ghost use Rattle.std.specs.Prelude.{◌≡◌, ◌≤◌, None, drop, length, map, reverse, IfOk, OnOk};
ghost use Rattle.wsm_record.specs.declared.limits.TheConstants.{MAX_ACCUMULATORS};
ghost use Rattle.wsm_rules.specs.Labels.{visits};
ghost use Rattle.wsm_rules.specs.Rules.{ranges_of, section_fault};
ghost use Rattle.wsm_verifier.specs.Places as spec;
ghost use Rattle.wsm_verifier.specs.Trying.{setting_of};
ghost use Rattle.wsm_verifier.specs.Turning.{unfolded};

use crate::judging::{ends_of, ranges_with, setting};
use crate::label::Label;
use crate::pass::{turn, unreached};
use crate::ranges::Ranges;
use crate::reads::{known_fields, known_ranges};
use crate::rules::Setting;
use crate::state::State;
use std::alloc::{AllocError, Global};
use wsm_interval::Interval;
use wsm_program::{Instr, SectionId};
use wsm_rules::{Known, Verified};

/// An instruction, with what is known of the number that it pushes.
#[derive(Clone, Copy, Debug, PartialEq, Eq)]
pub struct Place {
    /// The instruction.
    pub instr: Instr,
    /// The interval of the number that it pushes; none where it pushes no number.
    pub number: Option<Interval>,
}

// What a walk over a section finds: its places, and the hull of all that it ends with.
#[derive(Drop)]
struct Walk {
    places: Vec<Place>,
    end: Label,
}

/// The places of a section of an accepted program, in their order.
///
/// A place has what the verifier knows there: over all ways that lead to it.
pub fn places_in(alloc: Global, program: &Verified, id: SectionId) -> Result<Vec<Place>, AllocError>
    ensures { IfOk result (λ places. places.items ≡ spec.places_in program.now id) }
{
    let walk = walked(alloc, program, id)?;
    Ok(walk.places)
}

/// The interval of the number that a firing hands on for each column; none of a column of others.
pub fn column_ranges(alloc: Global, program: &Verified) -> Result<Vec<Option<Interval>>, AllocError>
    ensures { IfOk result (λ ranges. ranges.items ≡ spec.column_ranges program.now) }
{
    let walk = walked(alloc, program, SectionId::Fire)?;
    columns_in(alloc, &walk.end)
}

// The numbers of the columns, where the label behind a firing's end is known.
fn columns_in(alloc: Global, end: &Label) -> Result<Vec<Option<Interval>>, AllocError>
    ensures { IfOk result (λ ranges. ranges.items ≡ spec.columns_of (spec.state_in end.now)) }
{
    match end.state() {
        None => Ok(Vec::new(alloc)),
        Some(state) => columns_of(alloc, state.stack()),
    }
}

fn columns_of(alloc: Global, stack: &[Known]) -> Result<Vec<Option<Interval>>, AllocError>
    ensures { IfOk result (λ ranges. ranges.items ≡ reverse (map spec.number_of (drop 1 stack.now))) }
{
    let mut numbers = numbers_of(alloc, behind_first(stack))?;
    numbers.reverse();
    Ok(numbers)
}

fn behind_first(stack: &[Known]) -> &[Known]
    ensures { result.now ≡ drop 1 stack.now }
{
    match stack.split_first() {
        Some((_, rest)) => rest,
        None => &[],
    }
}

fn numbers_of(alloc: Global, stack: &[Known]) -> Result<Vec<Option<Interval>>, AllocError>
    ensures { IfOk result (λ ranges. ranges.items ≡ map spec.number_of stack.now) }
{
    stack.iter().map(|known| number_of(*known)).collect(alloc)
}

fn number_of(known: Known) -> Option<Interval>
    ensures { result ≡ spec.number_of known }
{
    match known {
        Known::Number(x) => Some(x),
        Known::Truth | Known::NameOf(_) => None,
    }
}

// Walks over a section of an accepted program.
fn walked(alloc: Global, program: &Verified, id: SectionId) -> Result<Walk, AllocError>
    ensures places { IfOk result (λ walk. walk.places.items ≡ spec.places_in program.now id) }
    ensures end { IfOk result (λ walk. walk.end ≡ spec.returned_with (spec.visits_in program.now id)) }
{
    let ranges = ranges_in(alloc, program, id)?;
    let program = program.program();
    let header = program.header();
    let fields = known_fields(alloc, header.schema.fields())?;
    let ends = ends_of(alloc, program, id)?;
    let setting = setting(program, id, &ends, &ranges);
    walk_section(
        alloc,
        &setting,
        header.kinds.len(),
        &fields,
        program.section(id),
    )
}

// What instructions of a section may push.
fn ranges_in(alloc: Global, program: &Verified, id: SectionId) -> Result<Ranges, AllocError>
    ensures { IfOk result (λ ranges. ranges ≡ spec.ranges_in program.now id) }
{
    let accumulators = accumulators_in(alloc, program, id)?;
    Ok(ranges_with(program.program(), accumulators))
}

// What is known of the accumulators in a section: in that of a record nothing, since none may stand there.
fn accumulators_in(
    alloc: Global,
    program: &Verified,
    id: SectionId,
) -> Result<Vec<Known>, AllocError>
    ensures { IfOk result (λ known. known.items ≡ spec.accumulators_in program.now id) }
{
    match id {
        SectionId::Where | SectionId::Update => Ok(Vec::new(alloc)),
        SectionId::Fire => {
            let ranges = accumulated(alloc, program)?;
            known_ranges(alloc, &ranges)
        }
    }
}

// The ranges of all accumulators.
fn accumulated(alloc: Global, program: &Verified) -> Result<Vec<Option<Interval>>, AllocError>
    ensures { IfOk result (λ ranges. ranges.items ≡ ranges_of program.now) }
{
    let count = program.program().header().kinds.len();
    ranges_up_to(alloc, program, count)
}

// Those of so many accumulators, which are all.
fn ranges_up_to(
    alloc: Global,
    program: &Verified,
    count: usize,
) -> Result<Vec<Option<Interval>>, AllocError>
    requires few { count ≤ MAX_ACCUMULATORS }
    requires all { count ≡ length program.now.header.kinds }
    ensures { IfOk result (λ ranges. ranges.items ≡ ranges_of program.now) }
{
    let mut ranges = Vec::with_capacity(alloc, count)?;
    for accumulator in 0..count {
        ranges.push(program.range(accumulator as u8))?;
    }
    Ok(ranges)
}

// Walks over a section without a fault, as the verifier does.
fn walk_section(
    alloc: Global,
    setting: &Setting,
    accumulators: usize,
    fields: &[Known],
    code: &[Instr],
) -> Result<Walk, AllocError>
    requires length { setting.now.length ≡ length code.now }
    requires faultless { section_fault (setting_of setting.now) (visits (unfolded accumulators fields.now) setting.now.ranges.now code.now) ≡ None }
    ensures places { IfOk result (λ walk. walk.places.items
        ≡ spec.places_of setting.now.ranges.now (visits (unfolded accumulators fields.now) setting.now.ranges.now code.now)) }
    ensures end { IfOk result (λ walk. walk.end
        ≡ spec.returned_with (visits (unfolded accumulators fields.now) setting.now.ranges.now code.now)) }
{
    let mut labels = unreached(alloc, code.len())?;
    labels[0].join(State::entry(alloc, accumulators, fields)?);
    let mut folded = vec![in alloc; None; accumulators]?;
    let mut places = Vec::with_capacity(alloc, code.len())?;
    let mut end = Label::unreached();
    for place in 0..code.len() {
        places.push(place_of(setting.ranges, code[place], &labels[place]))?;
        note_end(alloc, &mut end, code[place], &labels[place])?;
        // No rule holds, since the section has no fault.
        let _rule = turn(alloc, setting, place, code[place], &mut labels, &mut folded)?;
    }
    Ok(Walk { places, end })
}

fn place_of(ranges: &Ranges, instr: Instr, label: &Label) -> Place
    ensures { result ≡ record { instr = instr; number = spec.number_pushed ranges.now instr label.now } }
{
    Place {
        instr,
        number: number_pushed(ranges, instr, label),
    }
}

// The number that an instruction pushes where a label is known, if it pushes one.
fn number_pushed(ranges: &Ranges, instr: Instr, label: &Label) -> Option<Interval>
    ensures { result ≡ spec.number_pushed ranges.now instr label.now }
{
    number_of(ranges.pushed(instr, label.state()?)??)
}

// Joins what a section ends with, where an instruction ends it.
fn note_end(alloc: Global, end: &mut Label, instr: Instr, label: &Label) -> Result<(), AllocError>
    ensures { OnOk result (end.new ≡ spec.joined_with (spec.returned instr label.now) end.old) }
{
    if !instr.ends() {
        return Ok(());
    }
    if let Some(state) = label.state() {
        end.join(state.try_clone(alloc)?);
    }
    Ok(())
}
