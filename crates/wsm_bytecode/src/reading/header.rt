//! The version and the header.

ghost use Rattle.std.specs.Prelude.{◌≡◌};
ghost use Rattle.wsm_program.specs.View.{header_of as seen};
ghost use Rattle.wsm_bytecode.specs.Steps.{enum_number_at, column_at, columns_at};
ghost use Rattle.wsm_bytecode.specs.Reading.{Gives, back_seen, settings_seen, after_magic, version_at, settings_at, header_at, back_at};

use crate::limits::{MAGIC, MAX_COLUMNS};
use crate::reading::names::names_of;
use crate::reading::numbers::{byte_of, byte_within, several_of};
use crate::reading::schema::{fields_of, type_tag_of};
use crate::reading::settings::{Settings, budget_of, kinds_of, times_of};
use crate::reading::{version1, version2};
use crate::tags::TypeTag;
use crate::version::Version;
use std::alloc::Global;
use wsm_program::named::name_count;
use wsm_program::{Costs, DecodeRefusal, Header};
use wsm_record::{CellType, Kind, Schema};

// What a header has behind its settings.
#[derive(Drop)]
struct Back {
    kinds: Vec<Kind>,
    columns: Vec<CellType>,
    budget: Costs,
}

/// What stands behind the version and in front of the sections.
#[tactic(auto, unfolding(crate::specs::Reading::header_at))]
pub(crate) fn header_of(
    alloc: Global,
    version: Version,
    bytes: &[u8],
) -> Result<(Header, &[u8]), DecodeRefusal>
    ensures { Gives (λ x. (seen x.0, x.1.now)) result (header_at version bytes.now) }
{
    let (keys, rest) = names_of(alloc, bytes)?;
    let (fields, rest) = fields_of(alloc, rest)?;
    let (times, rest) = times_of(rest)?;
    let (settings, rest) = settings_of(alloc, version, rest)?;
    let clock = settings.clock(times);
    let schema = Schema::of_parts(keys, fields, settings.sources);
    let (back, rest) = back_of(alloc, &schema, rest)?;
    let header = Header {
        schema,
        clock,
        shape: settings.shape,
        mode: settings.mode,
        early: settings.early,
        late: settings.late,
        form: settings.form,
        kinds: back.kinds,
        columns: back.columns,
        budget: back.budget,
    };
    Ok((header, rest))
}

// The accumulators, the columns and the budget. The schema stays with the caller, who lets it go in
// one place.
#[tactic(auto, unfolding(crate::specs::Reading::back_at))]
fn back_of<'a>(
    alloc: Global,
    schema: &Schema,
    bytes: &'a [u8],
) -> Result<(Back, &'a [u8]), DecodeRefusal>
    ensures { Gives (λ x. (back_seen x.0, x.1.now)) result (back_at schema.now bytes.now) }
{
    let (kinds, rest) = kinds_of(alloc, bytes)?;
    let (columns, rest) = columns_of(alloc, schema, rest)?;
    let (budget, rest) = budget_of(rest)?;
    let back = Back {
        kinds,
        columns,
        budget,
    };
    Ok((back, rest))
}

fn settings_of(
    alloc: Global,
    version: Version,
    bytes: &[u8],
) -> Result<(Settings, &[u8]), DecodeRefusal>
    ensures { Gives (λ x. (settings_seen x.0, x.1.now)) result (settings_at version bytes.now) }
{
    match version {
        Version::One => version1::settings_of(alloc, bytes),
        Version::Two => version2::settings_of(alloc, bytes),
    }
}

/// The version, which stands behind `WSMP`.
#[tactic(auto, unfolding(crate::specs::Reading::version_at))]
pub(crate) fn version_of(bytes: &[u8]) -> Result<(Version, &[u8]), DecodeRefusal>
    ensures { Gives (λ x. (x.0, x.1.now)) result (version_at bytes.now) }
{
    let rest = skip_magic(bytes)?;
    let (number, rest) = byte_of(rest)?;
    let version = Version::of_number(number).ok_or(DecodeRefusal::Version)?;
    Ok((version, rest))
}

/// The bytes after `WSMP`.
#[tactic(auto, unfolding(crate::specs::Reading::after_magic))]
fn skip_magic(bytes: &[u8]) -> Result<&[u8], DecodeRefusal>
    ensures { Gives (λ x. x.now) result (after_magic bytes.now) }
{
    if bytes.len() < MAGIC.len() {
        return Err(DecodeRefusal::Truncated);
    }
    let (front, rest) = bytes.split_at(MAGIC.len());
    if front != MAGIC {
        return Err(DecodeRefusal::BadMagic);
    }
    Ok(rest)
}

/// The types of 1 to 16 columns.
#[tactic(auto, unfolding(crate::specs::Steps::columns_at))]
fn columns_of<'a>(
    alloc: Global,
    schema: &Schema,
    bytes: &'a [u8],
) -> Result<(Vec<CellType>, &'a [u8]), DecodeRefusal>
    ensures { Gives (λ x. (x.0.items, x.1.now)) result (columns_at schema.now bytes.now) }
{
    let (count, rest) = byte_within(bytes, 1, MAX_COLUMNS)?;
    several_of(
        alloc,
        rest,
        u16::from(count),
        |rest| column_of(schema, rest),
    )
}

#[tactic(auto, unfolding(crate::specs::Steps::column_at, crate::specs::Steps::enum_column_at))]
fn column_of<'a>(schema: &Schema, bytes: &'a [u8]) -> Result<(CellType, &'a [u8]), DecodeRefusal>
    ensures { Gives (λ x. (x.0, x.1.now)) result (column_at schema.now bytes.now) }
{
    let (tag, rest) = type_tag_of(bytes)?;
    match tag {
        TypeTag::Int => Ok((CellType::Int, rest)),
        TypeTag::Bool => Ok((CellType::Bool, rest)),
        TypeTag::Enum => {
            let (number, rest) = enum_of(schema, rest)?;
            Ok((CellType::Enum(number), rest))
        }
    }
}

/// The number of an ENUM that there is.
#[tactic(auto, unfolding(crate::specs::Steps::enum_number_at))]
pub(crate) fn enum_of<'a>(schema: &Schema, bytes: &'a [u8]) -> Result<(u8, &'a [u8]), DecodeRefusal>
    ensures { Gives (λ x. (x.0, x.1.now)) result (enum_number_at schema.now bytes.now) }
{
    let (number, rest) = byte_of(bytes)?;
    match name_count(schema, number) {
        Some(_) => Ok((number, rest)),
        None => Err(DecodeRefusal::Operand),
    }
}
