//! What sections read, and what they end with.

ghost use Rattle.std.specs.Prelude.{◌≡◌, ◌∷◌, ◌<◌, ◌≤◌, length, map, reverse, suc, IfOk};
ghost use Rattle.wsm_record.specs.declared.limits.TheConstants.{MAX_FIELDS};
ghost use Rattle.wsm_record.specs.Fields.{field_seen, type_seen};
ghost use Rattle.wsm_rules.specs.Rules as rules;
ghost use Rattle.wsm_rules.specs.Rules.{column_known, known_range};

use std::alloc::{AllocError, Global};
use wsm_interval::Interval;
use wsm_program::CellType;
use wsm_record::{DeclaredField, FieldType};
use wsm_rules::Known;

/// What is known of each field.
pub(crate) fn known_fields(
    alloc: Global,
    fields: &[DeclaredField],
) -> Result<Vec<Known>, AllocError>
    requires { length fields.now ≤ MAX_FIELDS }
    ensures { IfOk result (λ known. known.items ≡ rules.known_fields 0 (map field_seen fields.now)) }
{
    let mut known = Vec::with_capacity(alloc, fields.len())?;
    for (place, field) in fields.iter().enumerate() {
        known.push(known_field(place as u8, &field.ty))?;
    }
    Ok(known)
}

// What is known of a field. ENUM `f + 1` is field `f`.
fn known_field(place: u8, ty: &FieldType) -> Known
    requires { place < MAX_FIELDS }
    ensures { result ≡ rules.known_field place (type_seen ty.now) }
{
    match ty {
        FieldType::Int { lo, hi } => Known::Number(Interval { lo: *lo, hi: *hi }),
        FieldType::Bool => Known::Truth,
        FieldType::Enum(_) => Known::NameOf(place + 1),
    }
}

/// What is known of each accumulator by its range.
pub(crate) fn known_ranges(
    alloc: Global,
    ranges: &[Option<Interval>],
) -> Result<Vec<Known>, AllocError>
    ensures { IfOk result (λ known. known.items ≡ map known_range ranges.now) }
{
    ranges
        .iter()
        .map(|range| known_range(*range))
        .collect(alloc)
}

fn known_range(range: Option<Interval>) -> Known
    ensures { result ≡ rules.known_range range }
{
    match range {
        Some(interval) => Known::Number(interval),
        None => Known::Truth,
    }
}

/// What the section of a firing ends with: the columns, the last first, below whether it is shown.
pub(crate) fn firing_ends(alloc: Global, columns: &[CellType]) -> Result<Vec<Known>, AllocError>
    ensures { IfOk result (λ ends. ends.items ≡ Known.Truth ∷ reverse (map column_known columns.now)) }
{
    let mut ends = known_columns(alloc, columns)?;
    ends.push(Known::Truth)?;
    ends.reverse();
    Ok(ends)
}

fn known_columns(alloc: Global, columns: &[CellType]) -> Result<Vec<Known>, AllocError>
    ensures { IfOk result (λ known. known.items ≡ map column_known columns.now) }
{
    columns
        .iter()
        .map(|column| Known::of_column(*column))
        .collect(alloc)
}
