//! Where a record has its identifier.

ghost use Rattle.std.specs.Prelude.{◌≡◌, ◌⊎◌, IfOk, IfErr, Ok, Err};
ghost use Rattle.toml.specs.View.{table_view};
ghost use Rattle.wsm_description.specs.IdentifierPart.{identifier_in, identifier_of};

use crate::keys::{Section, require_known};
use crate::reading::{required_text, table_at};
use crate::refusal::Refusal;
use std::alloc::Global;
use toml::Table;
use wsm_values::Word;

// The place that the table of identifiers says.
fn identifier_in(alloc: Global, table: &Table) -> Result<Word, Refusal>
    ensures ok { IfOk result (λ at. identifier_in (table_view table.now) ≡ Ok at) }
    ensures fault { IfErr result (λ r. (r ≡ Refusal.Memory) ⊎ (identifier_in (table_view table.now) ≡ Err r)) }
{
    require_known(alloc, Section::Identifier, "identifier", table)?;
    let at = required_text(alloc, "identifier", table, "at")?;
    Ok(Word::new(alloc, at)?)
}

/// Where a record has its identifier; none where nothing is said.
pub fn identifier_of(alloc: Global, table: &Table) -> Result<Option<Word>, Refusal>
    ensures ok { IfOk result (λ at. identifier_of (table_view table.now) ≡ Ok at) }
    ensures fault { IfErr result (λ r. (r ≡ Refusal.Memory) ⊎ (identifier_of (table_view table.now) ≡ Err r)) }
{
    match table_at(alloc, "", table, "identifier")? {
        Some(identifier) => Ok(Some(identifier_in(alloc, identifier)?)),
        None => Ok(None),
    }
}
