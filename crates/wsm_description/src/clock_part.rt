//! How clocks make watermarks.

ghost use Rattle.std.specs.Prelude.{◌≡◌, ◌⊎◌, IfOk, IfErr, None, Ok, Err, option_map};
ghost use Rattle.toml.specs.View.{table_view};
ghost use Rattle.wsm_description.specs.ClockPart.{bound_of, clock_in, clock_of, may_be_named, named_by, named_of};

use crate::description::{ClockDescription, Format, NamedClocks};
use crate::keys::{Section, require_known};
use crate::reading::{number_at, require_absent, table_at, text_at};
use crate::refusal::{Refusal, SourceFault, refuse};
use std::alloc::Global;
use toml::Table;
use wsm_values::Word;

/// The most clocks that may have to agree.
pub const MOST_AGREE: u64 = 1_000;

/// The longest span of time: a record may be late so far, or a watermark rise.
pub const MOST_SPAN: u64 = 1_000_000_000_000;

/// The most records that may wait.
pub const MOST_ROOM: u64 = 1_000_000;

/// The most clocks that lines may name.
pub const MOST_NAMED: u64 = 1_000_000;

// How many clocks lines may name where nothing is said.
const USUAL_NAMED: u64 = 10_000;

// How far a record may be late.
fn bound_of(alloc: Global, table: &Table) -> Result<u64, Refusal>
    ensures ok { IfOk result (λ n. bound_of (table_view table.now) ≡ Ok n) }
    ensures fault { IfErr result (λ r. (r ≡ Refusal.Memory) ⊎ (bound_of (table_view table.now) ≡ Err r)) }
{
    match number_at(alloc, "clock", table, "bound", 0, MOST_SPAN)? {
        Some(bound) => Ok(bound),
        None => Err(refuse(alloc, SourceFault::MissingKey, "clock", "bound")),
    }
}

// The clocks that are named at a place, if one is said, of which there may be so many.
fn named_by(
    alloc: Global,
    most: Option<u64>,
    at: Option<&str>,
) -> Result<Option<NamedClocks>, Refusal>
    ensures ok { IfOk result (λ n. named_by most (option_map (λ s. s.now) at.entry) ≡ Ok n) }
    ensures fault { IfErr result (λ r. (r ≡ Refusal.Memory) ⊎ (named_by most (option_map (λ s. s.now) at.entry) ≡ Err r)) }
{
    match at {
        Some(at) => Ok(Some(NamedClocks {
            at: Word::new(alloc, at)?,
            most: most.unwrap_or(USUAL_NAMED),
        })),
        None => none_named(alloc, most),
    }
}

// That none is named, of which nothing else may be said.
fn none_named(alloc: Global, most: Option<u64>) -> Result<Option<NamedClocks>, Refusal>
    ensures ok { IfOk result (λ n. named_by most None ≡ Ok n) }
    ensures fault { IfErr result (λ r. (r ≡ Refusal.Memory) ⊎ (named_by most None ≡ Err r)) }
{
    match most {
        Some(_) => Err(refuse(alloc, SourceFault::Conflict, "clock", "clocks")),
        None => Ok(None),
    }
}

// A row has no place for the name of a clock.
fn require_nameable(alloc: Global, format: Format, table: &Table) -> Result<(), Refusal>
    ensures ok { IfOk result (λ u. may_be_named format (table_view table.now) ≡ Ok u) }
    ensures fault { IfErr result (λ r. (r ≡ Refusal.Memory) ⊎ (may_be_named format (table_view table.now) ≡ Err r)) }
{
    match format {
        Format::Json => Ok(()),
        Format::Access => Ok(()),
        Format::Csv(_) => Ok(()),
        Format::Rows => require_absent(alloc, "clock", table, "at"),
    }
}

// Where lines name clocks, if they do.
fn named_of(alloc: Global, format: Format, table: &Table) -> Result<Option<NamedClocks>, Refusal>
    ensures ok { IfOk result (λ n. named_of format (table_view table.now) ≡ Ok n) }
    ensures fault { IfErr result (λ r. (r ≡ Refusal.Memory) ⊎ (named_of format (table_view table.now) ≡ Err r)) }
{
    require_nameable(alloc, format, table)?;
    let most = number_at(alloc, "clock", table, "clocks", 1, MOST_NAMED)?;
    let at = text_at(alloc, "clock", table, "at")?;
    named_by(alloc, most, at)
}

// What the table of watermarks says.
fn clock_in(alloc: Global, format: Format, table: &Table) -> Result<ClockDescription, Refusal>
    ensures ok { IfOk result (λ c. clock_in format (table_view table.now) ≡ Ok c) }
    ensures fault { IfErr result (λ r. (r ≡ Refusal.Memory) ⊎ (clock_in format (table_view table.now) ≡ Err r)) }
{
    require_known(alloc, Section::Clock, "clock", table)?;
    let agree = number_at(alloc, "clock", table, "agree", 1, MOST_AGREE)?;
    let bound = bound_of(alloc, table)?;
    let step = number_at(alloc, "clock", table, "step", 1, MOST_SPAN)?;
    let forget = number_at(alloc, "clock", table, "forget", 1, MOST_SPAN)?;
    let room = number_at(alloc, "clock", table, "room", 0, MOST_ROOM)?;
    let named = named_of(alloc, format, table)?;
    Ok(ClockDescription {
        agree: agree.unwrap_or(1),
        bound,
        step: step.unwrap_or(1),
        forget: forget.unwrap_or(1_000_000),
        room: room.unwrap_or(1_000),
        named,
    })
}

/// What is said of watermarks; none where nothing is said.
pub fn clock_of(
    alloc: Global,
    format: Format,
    table: &Table,
) -> Result<Option<ClockDescription>, Refusal>
    ensures ok { IfOk result (λ c. clock_of format (table_view table.now) ≡ Ok c) }
    ensures fault { IfErr result (λ r. (r ≡ Refusal.Memory) ⊎ (clock_of format (table_view table.now) ≡ Err r)) }
{
    match table_at(alloc, "", table, "clock")? {
        Some(clock) => Ok(Some(clock_in(alloc, format, clock)?)),
        None => Ok(None),
    }
}
