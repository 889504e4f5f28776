//! The checks of what a query declares and of its numbers, in their order: the first that fails
//! refuses it.

ghost use Rattle.std.specs.Prelude.{◌≡◌, ◌≤◌, [], length, map, true, not, IfOk, OnOk};
ghost use Rattle.wsm_record.specs.Fields.{declared_field, declared_type, field_seen, type_seen};
ghost use Rattle.wsm_record.specs.Schema.{are_fields_after, are_names_after, are_sources, is_field_after, is_field_type, is_name_list, is_schema};
ghost use Rattle.wsm_windows.specs.Limits.{is_shape};
ghost use Rattle.wsm_admission.specs.Clock.{is_limited};
ghost use Rattle.wsm_query.specs.Seen.{seen};
ghost use Rattle.wsm_check.specs.Names.{field_names, has_repeats, schema_of};
ghost use Rattle.wsm_check.specs.Checks.{Judges, declared_refusal, field_refusal, fields_refusal, names_refusal, numbers_refusal, sources_refusal, ty_refusal, unless};

use crate::limits::{budget_fits, every_fits};
use crate::refusal::{CheckFault, CheckRefusal, Part};
use std::alloc::Global;
use wsm_query::Query;
use wsm_record::limits::{MAX_FIELDS, MAX_NAMES};
use wsm_record::{
    DeclaredField, Field, FieldType, Name, Names, Schema, SchemaRefusal, Ty, has_field,
    is_source_count,
};

/// A refusal where the condition fails.
pub fn want(holds: bool, fault: CheckFault, part: Part) -> Result<(), CheckRefusal>
    ensures judged { Judges result (unless holds fault part) }
    ensures holds { OnOk result (holds ≡ true) }
{
    if holds {
        Ok(())
    } else {
        Err(CheckRefusal::Fault(fault, part))
    }
}

// 1 to 1,000 names, none of them twice.
#[tactic(auto, using(crate::proofs::ChecksInOrder::steps))]
fn judge_names(alloc: Global, part: Part, names: &[Name]) -> Result<Names, CheckRefusal>
    ensures judged { Judges result (names_refusal part names.now) }
    ensures all { IfOk result (λ list. list ≡ names.now) }
    ensures lawful { IfOk result (λ list. is_name_list list ≡ true) }
{
    let is_count = !names.is_empty() && names.len() <= MAX_NAMES;
    want(is_count, CheckFault::Limit, part)?;
    judge_repeats(alloc, part, names)
}

// None of the names stands twice.
#[tactic(auto, using(crate::proofs::Repeats::repeats_is))]
fn judge_repeats(alloc: Global, part: Part, names: &[Name]) -> Result<Names, CheckRefusal>
    requires { length names.now ≤ MAX_NAMES }
    ensures judged { Judges result (unless (not (has_repeats names.now)) CheckFault.Duplicate part) }
    ensures all { IfOk result (λ list. list ≡ names.now) }
    ensures lawful { IfOk result (λ list. are_names_after [] list ≡ true) }
{
    match Names::collect(alloc, names) {
        Ok(list) => Ok(list),
        Err(SchemaRefusal::DuplicateName) => Err(CheckRefusal::Fault(CheckFault::Duplicate, part)),
        Err(_) => Err(CheckRefusal::Memory),
    }
}

// The type as a schema keeps it, where it has values and no name twice.
fn judge_ty(alloc: Global, part: Part, ty: &Ty) -> Result<FieldType, CheckRefusal>
    ensures judged { Judges result (ty_refusal part (declared_type ty.now)) }
    ensures kept { IfOk result (λ t. type_seen t ≡ declared_type ty.now) }
    ensures lawful { IfOk result (λ t. is_field_type (type_seen t) ≡ true) }
{
    match ty {
        Ty::Int { lo, hi } => {
            want(lo <= hi, CheckFault::Limit, part)?;
            Ok(FieldType::Int { lo: *lo, hi: *hi })
        }
        Ty::Bool => Ok(FieldType::Bool),
        Ty::Enum(names) => Ok(FieldType::Enum(judge_names(alloc, part, names)?)),
    }
}

// At most 16 fields, and none of a name twice.
#[tactic(auto, using(crate::proofs::ChecksInOrder::next_passed, crate::proofs::ChecksInOrder::next_refused))]
fn judge_fields(alloc: Global, fields: &[Field]) -> Result<Vec<DeclaredField>, CheckRefusal>
    ensures judged { Judges result (fields_refusal [] (map declared_field fields.now)) }
    ensures few { OnOk result (length fields.now ≤ MAX_FIELDS) }
    ensures kept { IfOk result (λ kept. map field_seen kept.items ≡ map declared_field fields.now) }
    ensures lawful { IfOk result (λ kept. are_fields_after [] (map field_seen kept.items) ≡ true) }
{
    let mut kept = Vec::new(alloc);
    for field in fields {
        let declared = judge_field(alloc, &kept, field)?;
        kept.push(declared)?;
    }
    Ok(kept)
}

// A field behind others.
#[tactic(auto, using(crate::proofs::ChecksInOrder::steps, crate::proofs::ChecksInOrder::counted_names, crate::proofs::ChecksInOrder::among_fields))]
fn judge_field(
    alloc: Global,
    before: &[DeclaredField],
    field: &Field,
) -> Result<DeclaredField, CheckRefusal>
    ensures judged { Judges result (field_refusal (field_names (map field_seen before.now)) (declared_field field.now)) }
    ensures kept { IfOk result (λ declared. field_seen declared ≡ declared_field field.now) }
    ensures lawful { IfOk result (λ declared. is_field_after (field_names (map field_seen before.now)) (field_seen declared) ≡ true) }
{
    let part = Part::Field(before.len() as u64 + 1);
    want(before.len() < MAX_FIELDS, CheckFault::Limit, part)?;
    let is_fresh = !has_field(before, &field.name);
    want(is_fresh, CheckFault::Duplicate, part)?;
    let ty = judge_ty(alloc, part, &field.ty)?;
    let name = field.name.copied();
    Ok(DeclaredField { name, ty })
}

// Where sources are declared, 2 to 16 of them, none of them twice.
#[tactic(auto, using(crate::proofs::ChecksInOrder::steps, crate::proofs::ChecksInOrder::few_sources))]
fn judge_sources(alloc: Global, sources: &[Name]) -> Result<Names, CheckRefusal>
    ensures judged { Judges result (sources_refusal sources.now) }
    ensures all { IfOk result (λ list. list ≡ sources.now) }
    ensures lawful { IfOk result (λ list. are_sources list ≡ true) }
{
    let is_count = is_source_count(sources.len());
    want(is_count, CheckFault::Limit, Part::Sources)?;
    judge_repeats(alloc, Part::Sources, sources)
}

/// The clauses of numbers, and the form.
#[tactic(auto, using(crate::proofs::ChecksInOrder::steps))]
pub fn judge_numbers(query: &Query) -> Result<(), CheckRefusal>
    ensures judged { Judges result (numbers_refusal (seen query.now)) }
    ensures clock { OnOk result (is_limited query.now.clock ≡ true) }
    ensures shape { OnOk result (is_shape query.now.output.shape ≡ true) }
{
    let clock_fits = query.clock.is_within_limits();
    want(clock_fits, CheckFault::Limit, Part::Clock)?;
    want(budget_fits(query.budget), CheckFault::Limit, Part::Budget)?;
    let shape_fits = query.output.shape.is_within_limits();
    want(shape_fits, CheckFault::Limit, Part::Window)?;
    let ends_stand = query.clock.is_timely(query.output.shape);
    want(ends_stand, CheckFault::SessionLateness, Part::Window)?;
    let counts_fit = every_fits(query.output.early) && every_fits(query.output.late);
    want(counts_fit, CheckFault::Limit, Part::Trigger)?;
    let may_be_written = query.output.mode.may_write(query.output.form);
    want(
        may_be_written,
        CheckFault::StreamNeedsAccumulating,
        Part::Emit,
    )
}

/// The schema of the query: its keys, fields and sources.
#[tactic(auto, using(crate::proofs::ChecksInOrder::steps))]
pub fn judge_declared(alloc: Global, query: &Query) -> Result<Schema, CheckRefusal>
    ensures judged { Judges result (declared_refusal (seen query.now)) }
    ensures schema { IfOk result (λ schema. schema ≡ schema_of (seen query.now)) }
    ensures lawful { OnOk result (is_schema (schema_of (seen query.now)) ≡ true) }
    ensures keys { OnOk result (length query.now.keys.items ≤ MAX_NAMES) }
    ensures fields { OnOk result (length query.now.fields.items ≤ MAX_FIELDS) }
{
    let keys = judge_names(alloc, Part::Keys, &query.keys)?;
    let fields = judge_fields(alloc, &query.fields)?;
    let sources = judge_sources(alloc, &query.sources)?;
    Ok(Schema::of_parts(keys, fields, sources))
}
