//! Where the key stands, and how its text names it.

ghost use Rattle.std.specs.Prelude.{◌≡◌, ◌⊎◌, IfOk, IfErr, Ok, Err};
ghost use Rattle.toml.specs.View.{view, table_view};
ghost use Rattle.wsm_description.specs.KeyPart.{text_of, texts_from, texts_of, file_naming, prefix_naming, naming_without_file, naming_of, key_of};

use crate::description::{Entries, Entry, KeyDescription, KeyNaming};
use crate::keys::{Section, require_known};
use crate::reading::{require_absent, required_table, required_text, table_at, word_at};
use crate::refusal::{Refusal, SourceFault, refuse};
use std::alloc::Global;
use toml::{Table, Value};
use wsm_values::Word;

// The text of a member.
fn text_of(alloc: Global, section: &str, key: &str, value: &Value) -> Result<Word, Refusal>
    ensures ok { IfOk result (λ text. text_of section.now key.now (view value.now) ≡ Ok text) }
    ensures fault { IfErr result (λ r. (r ≡ Refusal.Memory) ⊎ (text_of section.now key.now (view value.now) ≡ Err r)) }
{
    match value.as_str() {
        Some(text) => Ok(Word::new(alloc, text)?),
        None => Err(refuse(alloc, SourceFault::BadType, section, key)),
    }
}

/// The members of a table whose values are texts, in the order of their keys' bytes.
pub fn texts_of(alloc: Global, section: &str, table: &Table) -> Result<Vec<Entry>, Refusal>
    ensures ok { IfOk result (λ entries. texts_of section.now (table_view table.now) ≡ Ok entries.items) }
    ensures fault { IfErr result (λ r. (r ≡ Refusal.Memory) ⊎ (texts_of section.now (table_view table.now) ≡ Err r)) }
{
    let mut entries = Vec::new(alloc);
    for (key, value) in table.iter() {
        let name = text_of(alloc, section, key.as_str(), value)?;
        let text = Word::new(alloc, key.as_str())?;
        entries.push(Entry { text, name })?;
    }
    Ok(entries)
}

// Keys by a file.
fn file_naming(alloc: Global, table: &Table, file: Word) -> Result<KeyNaming, Refusal>
    ensures ok { IfOk result (λ naming. file_naming (table_view table.now) file ≡ Ok naming) }
    ensures fault { IfErr result (λ r. (r ≡ Refusal.Memory) ⊎ (file_naming (table_view table.now) file ≡ Err r)) }
{
    require_absent(alloc, "key", table, "prefixes")?;
    let other = word_at(alloc, "key", table, "other")?;
    Ok(KeyNaming::File { file, other })
}

// Keys by what their text begins with.
fn prefix_naming(alloc: Global, table: &Table, prefixes: &Table) -> Result<KeyNaming, Refusal>
    ensures ok { IfOk result (λ naming. prefix_naming (table_view table.now) (table_view prefixes.now) ≡ Ok naming) }
    ensures fault { IfErr result (λ r. (r ≡ Refusal.Memory) ⊎ (prefix_naming (table_view table.now) (table_view prefixes.now) ≡ Err r)) }
{
    let other = word_at(alloc, "key", table, "other")?;
    let mut entries = texts_of(alloc, "key.prefixes", prefixes)?;
    entries.reverse();
    let entries = Entries::new(entries);
    Ok(KeyNaming::Prefixes { entries, other })
}

// Keys without a file.
fn naming_without_file(alloc: Global, table: &Table) -> Result<KeyNaming, Refusal>
    ensures ok { IfOk result (λ naming. naming_without_file (table_view table.now) ≡ Ok naming) }
    ensures fault { IfErr result (λ r. (r ≡ Refusal.Memory) ⊎ (naming_without_file (table_view table.now) ≡ Err r)) }
{
    match table_at(alloc, "key", table, "prefixes")? {
        Some(prefixes) => prefix_naming(alloc, table, prefixes),
        None => {
            require_absent(alloc, "key", table, "other")?;
            Ok(KeyNaming::Same)
        }
    }
}

// How the key's text names it.
fn naming_of(alloc: Global, table: &Table) -> Result<KeyNaming, Refusal>
    ensures ok { IfOk result (λ naming. naming_of (table_view table.now) ≡ Ok naming) }
    ensures fault { IfErr result (λ r. (r ≡ Refusal.Memory) ⊎ (naming_of (table_view table.now) ≡ Err r)) }
{
    match word_at(alloc, "key", table, "names")? {
        Some(file) => file_naming(alloc, table, file),
        None => naming_without_file(alloc, table),
    }
}

/// What is said of the key.
pub fn key_of(alloc: Global, table: &Table) -> Result<KeyDescription, Refusal>
    ensures ok { IfOk result (λ key. key_of (table_view table.now) ≡ Ok key) }
    ensures fault { IfErr result (λ r. (r ≡ Refusal.Memory) ⊎ (key_of (table_view table.now) ≡ Err r)) }
{
    let table = required_table(alloc, "", table, "key")?;
    require_known(alloc, Section::Key, "key", table)?;
    let at = required_text(alloc, "key", table, "at")?;
    let naming = naming_of(alloc, table)?;
    let at = Word::new(alloc, at)?;
    Ok(KeyDescription { at, naming })
}
