//! Fields.

ghost use Rattle.std.specs.Prelude.{◌≡◌, [], map};
ghost use Rattle.wsm_record.specs.Fields.{type_seen, field_seen};
ghost use Rattle.wsm_bytecode.specs.Steps.{type_tag_at, field_type_at, new_field_at, fields_after, fields_at, interval_at};
ghost use Rattle.wsm_bytecode.specs.Reading.{Gives};

use crate::limits::MAX_FIELDS;
use crate::reading::names::{name_of, names_of};
use crate::reading::numbers::{byte_of, byte_within, i64_of};
use crate::tags::{TypeTag, type_by};
use std::alloc::Global;
use wsm_program::DecodeRefusal;
use wsm_record::{DeclaredField, FieldType, has_field};

/// At most 16 fields, no name twice.
#[tactic(auto, unfolding(crate::specs::Steps::fields_at))]
pub(crate) fn fields_of(
    alloc: Global,
    bytes: &[u8],
) -> Result<(Vec<DeclaredField>, &[u8]), DecodeRefusal>
    ensures { Gives (λ x. (map field_seen x.0.items, x.1.now)) result (fields_at bytes.now) }
{
    let (count, rest) = byte_within(bytes, 0, MAX_FIELDS)?;
    so_many_fields(alloc, rest, count)
}

fn so_many_fields(
    alloc: Global,
    bytes: &[u8],
    count: u8,
) -> Result<(Vec<DeclaredField>, &[u8]), DecodeRefusal>
    ensures { Gives (λ x. (map field_seen x.0.items, x.1.now)) result (fields_after [] count bytes.now) }
{
    let mut fields = Vec::new(alloc);
    let mut rest = bytes;
    for _ in 0..count {
        let (field, after) = new_field_of(alloc, rest, &fields)?;
        fields.push(field)?;
        rest = after;
    }
    Ok((fields, rest))
}

// A field whose name is none of those before.
#[tactic(auto, unfolding(crate::specs::Steps::new_field_at))]
fn new_field_of<'a>(
    alloc: Global,
    bytes: &'a [u8],
    before: &[DeclaredField],
) -> Result<(DeclaredField, &'a [u8]), DecodeRefusal>
    ensures { Gives (λ x. (field_seen x.0, x.1.now)) result (new_field_at (map (λ f. f.name) before.now) bytes.now) }
{
    let (name, rest) = name_of(bytes)?;
    if has_field(before, &name) {
        return Err(DecodeRefusal::Operand);
    }
    let (ty, rest) = type_of(alloc, rest)?;
    Ok((DeclaredField { name, ty }, rest))
}

#[tactic(auto, unfolding(crate::specs::Steps::field_type_at, crate::specs::Steps::interval_at, crate::specs::Steps::enum_at))]
fn type_of(alloc: Global, bytes: &[u8]) -> Result<(FieldType, &[u8]), DecodeRefusal>
    ensures { Gives (λ x. (type_seen x.0, x.1.now)) result (field_type_at bytes.now) }
{
    let (tag, rest) = type_tag_of(bytes)?;
    match tag {
        TypeTag::Int => interval_of(rest),
        TypeTag::Bool => Ok((FieldType::Bool, rest)),
        TypeTag::Enum => {
            let (names, rest) = names_of(alloc, rest)?;
            Ok((FieldType::Enum(names), rest))
        }
    }
}

/// What a field or a column is, without its bounds or its names.
#[tactic(auto, unfolding(crate::specs::Steps::type_tag_at))]
pub(crate) fn type_tag_of(bytes: &[u8]) -> Result<(TypeTag, &[u8]), DecodeRefusal>
    ensures { Gives (λ x. (x.0, x.1.now)) result (type_tag_at bytes.now) }
{
    let (tag, rest) = byte_of(bytes)?;
    let ty = type_by(tag).ok_or(DecodeRefusal::Operand)?;
    Ok((ty, rest))
}

// Two numbers, judged together at the later one.
#[tactic(auto, unfolding(crate::specs::Steps::interval_at))]
fn interval_of(bytes: &[u8]) -> Result<(FieldType, &[u8]), DecodeRefusal>
    ensures { Gives (λ x. (type_seen x.0, x.1.now)) result (interval_at bytes.now) }
{
    let (lo, rest) = i64_of(bytes)?;
    let (hi, rest) = i64_of(rest)?;
    if hi < lo {
        return Err(DecodeRefusal::Operand);
    }
    Ok((FieldType::Int { lo, hi }, rest))
}
