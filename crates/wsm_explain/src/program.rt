//! A program and what it needs, as JSON.

ghost use Rattle.std.specs.Prelude.{◌≡◌, ◌≤◌, IfOk, None, map, slice_index_or};
ghost use Rattle.serde_json.specs.View.{view};
ghost use Rattle.wsm_program.specs.View.{header_of};
ghost use Rattle.wsm_query.specs.Print as rule;
ghost use Rattle.wsm_sums.specs.Crc.{sum_of};
ghost use Rattle.wsm_bytecode.specs.Spelling.{spelling};
ghost use Rattle.wsm_record.specs.declared.limits.TheConstants.{MAX_ACCUMULATORS};
ghost use Rattle.wsm_explain.specs.Json.{list_data, or_null};
ghost use Rattle.wsm_explain.specs.Declarations.{interval_data};
ghost use Rattle.wsm_explain.specs.Program as spec;

use crate::declared::{
    clock_value, column_value, costs_value, fields_value, firing_value, maybe_interval,
    window_value,
};
use crate::texts::names_value;
use serde_json::{Value, json};
use std::alloc::{AllocError, Global};
use wsm_bytecode::encode;
use wsm_interval::Interval;
use wsm_program::{CellType, Costs, Header, Instr, Program, SectionId};
use wsm_record::{Kind, Schema};
use wsm_rules::Verified;
use wsm_sums::Crc32;
use wsm_verifier::{Place, column_ranges, needed, places_in};

/// A program that is accepted, with what it needs and what is known of its numbers.
pub fn accepted_value(alloc: Global, program: &Verified) -> Result<Value, AllocError>
    ensures { IfOk result (λ v. view v ≡ spec.accepted_data program.now) }
{
    let code = code_value(alloc, program)?;
    let ranges = column_ranges(alloc, program)?;
    let columns = columns_value(alloc, &program.program().header().columns, &ranges)?;
    program_value(alloc, program.program(), program.costs(), code, columns)
}

/// The same of one that is rejected, of whose numbers nothing is known.
pub fn rejected_value(alloc: Global, program: &Program) -> Result<Value, AllocError>
    ensures { IfOk result (λ v. view v ≡ spec.rejected_data program.now) }
{
    let code = bare_code_value(alloc, program)?;
    let columns = columns_value(alloc, &program.header().columns, &[])?;
    let needs = needed(alloc, program)?;
    program_value(alloc, program, needs, code, columns)
}

fn program_value(
    alloc: Global,
    program: &Program,
    needs: Costs,
    code: Value,
    columns: Value,
) -> Result<Value, AllocError>
    ensures { IfOk result (λ v. view v ≡ spec.program_data program.now needs (view code) (view columns)) }
{
    let header = program.header();
    let clock = clock_value(alloc, &header.clock)?;
    let costs = both_value(alloc, needs, header.budget)?;
    let declares = declares_value(alloc, &header.schema)?;
    let output = output_value(alloc, header, columns)?;
    let sum = program_sum(alloc, program)?;
    json!(in alloc; {
        "clock": clock,
        "code": code,
        "costs": costs,
        "declares": declares,
        "output": output,
        "sum": sum
    })
}

/// What each accumulator of an accepted program may hold in a firing; null for one of truths.
pub fn ranges_value(alloc: Global, program: &Verified) -> Result<Value, AllocError>
    ensures { IfOk result (λ v. view v ≡ spec.ranges_data program.now) }
{
    let count = program.program().header().kinds.len();
    Ok(Value::from(ranges_up_to(alloc, program, count)?))
}

fn ranges_up_to(alloc: Global, program: &Verified, count: usize) -> Result<Vec<Value>, AllocError>
    requires { count ≤ MAX_ACCUMULATORS }
    ensures { IfOk result (λ list. map view list.items ≡ spec.ranges_up_to program.now count) }
{
    let mut list = Vec::with_capacity(alloc, count)?;
    for accumulator in 0..count {
        list.push(maybe_interval(alloc, program.range(accumulator as u8))?)?;
    }
    Ok(list)
}

// The sum of a program's bytes in the version that is written.
fn program_sum(alloc: Global, program: &Program) -> Result<u32, AllocError>
    ensures { IfOk result (λ sum. sum ≡ sum_of (spelling program.now)) }
{
    let bytes = encode(alloc, program)?;
    let mut sum = Crc32::new();
    sum.add(&bytes);
    Ok(sum.sum())
}

fn both_value(alloc: Global, needs: Costs, states: Costs) -> Result<Value, AllocError>
    ensures { IfOk result (λ v. view v ≡ spec.both_data needs states) }
{
    let needs = costs_value(alloc, needs)?;
    let states = costs_value(alloc, states)?;
    json!(in alloc; {"needs": needs, "states": states})
}

fn declares_value(alloc: Global, schema: &Schema) -> Result<Value, AllocError>
    ensures { IfOk result (λ v. view v ≡ spec.declares_data schema.now) }
{
    let fields = fields_value(alloc, schema.fields())?;
    let keys = names_value(alloc, schema.keys())?;
    let sources = names_value(alloc, schema.sources())?;
    json!(in alloc; {"fields": fields, "keys": keys, "sources": sources})
}

fn output_value(alloc: Global, header: &Header, columns: Value) -> Result<Value, AllocError>
    ensures { IfOk result (λ v. view v ≡ spec.output_data (header_of header.now) (view columns)) }
{
    let firing = firing_value(alloc, header.mode, header.early, header.late, header.form)?;
    let window = window_value(alloc, header.shape)?;
    json!(in alloc; {"columns": columns, "firing": firing, "window": window})
}

// The columns, with those of their ranges that are known.
fn columns_value(
    alloc: Global,
    columns: &[CellType],
    ranges: &[Option<Interval>],
) -> Result<Value, AllocError>
    ensures { IfOk result (λ v. view v ≡ spec.columns_data columns.now ranges.now) }
{
    let mut list = Vec::with_capacity(alloc, columns.len())?;
    for place in 0..columns.len() {
        list.push(column_value(alloc, columns[place], range_at(ranges, place))?)?;
    }
    Ok(Value::from(list))
}

fn range_at(ranges: &[Option<Interval>], place: usize) -> Option<Interval>
    ensures { result ≡ slice_index_or ranges.now place None }
{
    ranges.get(place).copied().unwrap_or(None)
}

// The instructions of an accepted program, with the intervals of the numbers that they push.
fn code_value(alloc: Global, program: &Verified) -> Result<Value, AllocError>
    ensures { IfOk result (λ v. view v ≡ spec.code_data program.now) }
{
    let fire = places_in(alloc, program, SectionId::Fire)?;
    let update = places_in(alloc, program, SectionId::Update)?;
    let selection = places_in(alloc, program, SectionId::Where)?;
    let kinds = &program.program().header().kinds;
    sections_value(alloc, kinds, &fire, &update, &selection)
}

// The instructions of another program.
fn bare_code_value(alloc: Global, program: &Program) -> Result<Value, AllocError>
    ensures { IfOk result (λ v. view v ≡ spec.bare_code program.now) }
{
    let fire = bare_places(alloc, program.section(SectionId::Fire))?;
    let update = bare_places(alloc, program.section(SectionId::Update))?;
    let selection = bare_places(alloc, program.section(SectionId::Where))?;
    let kinds = &program.header().kinds;
    sections_value(alloc, kinds, &fire, &update, &selection)
}

fn bare_places(alloc: Global, code: &[Instr]) -> Result<Vec<Place>, AllocError>
    ensures { IfOk result (λ places. places.items ≡ map spec.bare code.now) }
{
    code.iter().map(|instr| bare(*instr)).collect(alloc)
}

fn bare(instr: Instr) -> Place
    ensures { result ≡ spec.bare instr }
{
    Place {
        instr,
        number: None,
    }
}

// The places of each section, and how the accumulators fold that they name.
fn sections_value(
    alloc: Global,
    kinds: &[Kind],
    fire: &[Place],
    update: &[Place],
    selection: &[Place],
) -> Result<Value, AllocError>
    ensures { IfOk result (λ v. view v ≡ spec.code_of kinds.now fire.now update.now selection.now) }
{
    let accumulators = kinds_value(alloc, kinds)?;
    let fire = section_value(alloc, fire)?;
    let update = section_value(alloc, update)?;
    let selection = section_value(alloc, selection)?;
    json!(in alloc; {
        "accumulators": accumulators,
        "fire": fire,
        "update": update,
        "where": selection
    })
}

fn kinds_value(alloc: Global, kinds: &[Kind]) -> Result<Value, AllocError>
    ensures { IfOk result (λ v. view v ≡ list_data spec.kind_data kinds.now) }
{
    let mut list = Vec::with_capacity(alloc, kinds.len())?;
    for kind in kinds {
        list.push(kind_value(alloc, kind)?)?;
    }
    Ok(Value::from(list))
}

fn kind_value(alloc: Global, kind: &Kind) -> Result<Value, AllocError>
    ensures { IfOk result (λ v. view v ≡ spec.kind_data kind.now) }
{
    Value::try_from_str(alloc, kind_word(*kind))
}

fn kind_word(kind: Kind) -> &'static str
    ensures { result.now ≡ rule.kind_word kind }
{
    match kind {
        Kind::Sum => "SUM",
        Kind::Min => "MIN",
        Kind::Max => "MAX",
        Kind::Any => "ANY",
        Kind::All => "ALL",
    }
}

fn section_value(alloc: Global, places: &[Place]) -> Result<Value, AllocError>
    ensures { IfOk result (λ v. view v ≡ list_data spec.place_data places.now) }
{
    let mut list = Vec::with_capacity(alloc, places.len())?;
    for place in places {
        list.push(place_value(alloc, place)?)?;
    }
    Ok(Value::from(list))
}

fn place_value(alloc: Global, place: &Place) -> Result<Value, AllocError>
    ensures { IfOk result (λ v. view v ≡ spec.place_data place.now) }
{
    let range = maybe_interval(alloc, place.number)?;
    let text = format!(in alloc; "{}", place.instr)?;
    json!(in alloc; {"range": range, "text": text})
}
