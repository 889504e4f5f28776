//! The format of lines, and how long they may be.

ghost use Rattle.std.specs.Prelude.{◌≡◌, ◌⊎◌, IfOk, IfErr, Ok, Err};
ghost use Rattle.toml.specs.View.{table_view};
ghost use Rattle.wsm_description.specs.FormatPart.{plain_format, csv_format, format_of, longest_of};

use crate::description::Format;
use crate::reading::{Mark, mark_at, number_at, require_absent, required_text};
use crate::refusal::{Refusal, SourceFault, refuse};
use std::alloc::Global;
use toml::Table;

/// The most bytes of a line that a source may ask for.
pub const LONGEST: u64 = 16_777_216;

// A format without cells, or whose cells are known, has no separator.
fn plain_format(alloc: Global, table: &Table, format: Format) -> Result<Format, Refusal>
    ensures ok { IfOk result (λ f. plain_format (table_view table.now) format ≡ Ok f) }
    ensures fault { IfErr result (λ r. (r ≡ Refusal.Memory) ⊎ (plain_format (table_view table.now) format ≡ Err r)) }
{
    require_absent(alloc, "", table, "separator")?;
    Ok(format)
}

// CSV with its separator.
fn csv_format(alloc: Global, table: &Table) -> Result<Format, Refusal>
    ensures ok { IfOk result (λ f. csv_format (table_view table.now) ≡ Ok f) }
    ensures fault { IfErr result (λ r. (r ≡ Refusal.Memory) ⊎ (csv_format (table_view table.now) ≡ Err r)) }
{
    let separator = mark_at(alloc, "", table, "separator", Mark::Separator)?;
    Ok(Format::Csv(separator.unwrap_or(b',')))
}

/// The format.
pub fn format_of(alloc: Global, table: &Table) -> Result<Format, Refusal>
    ensures ok { IfOk result (λ f. format_of (table_view table.now) ≡ Ok f) }
    ensures fault { IfErr result (λ r. (r ≡ Refusal.Memory) ⊎ (format_of (table_view table.now) ≡ Err r)) }
{
    let word = required_text(alloc, "", table, "format")?;
    if word == "json" {
        plain_format(alloc, table, Format::Json)
    } else if word == "access" {
        plain_format(alloc, table, Format::Access)
    } else if word == "rows" {
        plain_format(alloc, table, Format::Rows)
    } else if word == "csv" {
        csv_format(alloc, table)
    } else {
        Err(refuse(alloc, SourceFault::BadWord, "", "format"))
    }
}

/// The most bytes of a line.
pub fn longest_of(alloc: Global, table: &Table) -> Result<u64, Refusal>
    ensures ok { IfOk result (λ n. longest_of (table_view table.now) ≡ Ok n) }
    ensures fault { IfErr result (λ r. (r ≡ Refusal.Memory) ⊎ (longest_of (table_view table.now) ≡ Err r)) }
{
    let longest = number_at(alloc, "", table, "longest", 1, LONGEST)?;
    Ok(longest.unwrap_or(1_048_576))
}
