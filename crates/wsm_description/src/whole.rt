//! What a whole text says.

ghost use Rattle.std.specs.Prelude.{◌≡◌, ◌⊎◌, IfOk, IfErr, Ok, Err};
ghost use Rattle.toml.specs.View.{table_view};
ghost use Rattle.wsm_description.specs.Whole.{description_of};

use crate::clock_part::clock_of;
use crate::description::Description;
use crate::format_part::{format_of, longest_of};
use crate::keys::{Section, require_known};
use crate::reading::word_at;
use crate::record_part::record_of;
use crate::refusal::Refusal;
use std::alloc::Global;
use toml::Table;

/// What a table says of a source, or the first fault.
pub fn description_of(alloc: Global, table: &Table) -> Result<Description, Refusal>
    ensures ok { IfOk result (λ d. description_of (table_view table.now) ≡ Ok d) }
    ensures fault { IfErr result (λ r. (r ≡ Refusal.Memory) ⊎ (description_of (table_view table.now) ≡ Err r)) }
{
    require_known(alloc, Section::Whole, "", table)?;
    let format = format_of(alloc, table)?;
    let longest = longest_of(alloc, table)?;
    let keys = word_at(alloc, "", table, "keys")?;
    let clock = clock_of(alloc, format, table)?;
    let record = record_of(alloc, format, table)?;
    Ok(Description {
        format,
        longest,
        keys,
        key: record.key,
        time: record.time,
        fields: record.fields,
        clock,
        identifier: record.identifier,
    })
}
