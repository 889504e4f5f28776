//! From a text of TOML to what it says of a source.

ghost use Rattle.std.specs.Prelude.{◌≡◌, ◌⊎◌, IfOk, IfErr, Ok, Err, Some, None};
ghost use Rattle.toml.specs.Parse.{parse_document};
ghost use Rattle.toml.specs.View.{table_view};
ghost use Rattle.wsm_description.specs.Told.{told};
ghost use Rattle.wsm_description.specs.Whole.{no_toml, described};

use crate::description::Description;
use crate::place::place_behind;
use crate::refusal::SourceFault;
use crate::told::{Refused, SourceRefusal};
use crate::whole::description_of;
use std::alloc::Global;
use toml::Table;
use toml::de::Error;
use wsm_values::Word;

// The refusal of a text that is no TOML.
fn not_toml(alloc: Global, text: &str, error: &Error) -> SourceRefusal
    ensures { (result ≡ SourceRefusal.Memory) ⊎ (told result ≡ no_toml) }
{
    let place = match error.span() {
        Some(span) => Some(place_behind(text, span.start)),
        None => None,
    };
    match Word::new(alloc, "") {
        Ok(path) => SourceRefusal::Fault(Refused {
            fault: SourceFault::NotToml,
            path,
            place,
        }),
        Err(_) => SourceRefusal::Memory,
    }
}

// The table that a text is.
fn table_of(alloc: Global, text: &str) -> Result<Table, SourceRefusal>
    ensures ok { IfOk result (λ table. parse_document text.now ≡ Some (table_view table)) }
    ensures fault { IfErr result (λ r. (r ≡ SourceRefusal.Memory) ⊎ ((parse_document text.now ≡ None) × (told r ≡ no_toml))) }
{
    match toml::table_from_str(alloc, text) {
        Ok(table) => Ok(table),
        Err(error) => {
            if error.is_memory() {
                Err(SourceRefusal::Memory)
            } else {
                Err(not_toml(alloc, text, &error))
            }
        }
    }
}

/// What a text of TOML says of a source, with what it leaves out filled in, or the first fault.
///
/// # Errors
///
/// The fault is that of the definition, and so is the key that it names. Where in the text it is no
/// clause says.
pub fn describe(alloc: Global, text: &str) -> Result<Description, SourceRefusal>
    ensures ok { IfOk result (λ d. described text.now ≡ Ok d) }
    ensures fault { IfErr result (λ r. (r ≡ SourceRefusal.Memory) ⊎ (described text.now ≡ Err (told r))) }
{
    let table = table_of(alloc, text)?;
    match description_of(alloc, &table) {
        Ok(description) => Ok(description),
        Err(refusal) => Err(SourceRefusal::of(refusal, text)),
    }
}
