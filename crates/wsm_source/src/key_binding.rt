//! The key and the time of a source, bound to a query.

ghost use Rattle.std.specs.Prelude.{◌≡◌, ◌⊎◌, [], IfOk, IfErr, Ok, Err};
ghost use Rattle.wsm_source.specs.KeyBinding.{key_number, other_number, prefixes_of, key_names, key_form, time_form, time_at};

use crate::names_part::names_of;
use crate::place_part::place_of;
use std::alloc::{AllocError, Global};
use wsm_description::{
    Entry, FormDescription, Format, KeyDescription, KeyNaming, Refusal, SourceFault,
    TimeDescription, refuse,
};
use wsm_lines::{KeyForm, KeyNames, Prefixes, TimeAt};
use wsm_record::Schema;
use wsm_values::{Fold, LocalForm, TimeForm, Word, Zone};

// The number of a declared key.
fn key_number(
    alloc: Global,
    schema: &Schema,
    section: &str,
    key: &str,
    name: &Word,
) -> Result<u16, Refusal>
    ensures ok { IfOk result (λ n. key_number schema.now.keys section.now key.now name.now ≡ Ok n) }
    ensures fault { IfErr result (λ r. (r ≡ Refusal.Memory) ⊎ (key_number schema.now.keys section.now key.now name.now ≡ Err r)) }
{
    match schema.keys().number_of(name.as_str().as_bytes()) {
        Some(number) => Ok(number),
        None => Err(refuse(alloc, SourceFault::UnknownName, section, key)),
    }
}

// The number of the other key.
fn other_number(
    alloc: Global,
    schema: &Schema,
    other: &Option<Word>,
) -> Result<Option<u16>, Refusal>
    ensures ok { IfOk result (λ n. other_number schema.now.keys other.now ≡ Ok n) }
    ensures fault { IfErr result (λ r. (r ≡ Refusal.Memory) ⊎ (other_number schema.now.keys other.now ≡ Err r)) }
{
    match other {
        Some(name) => Ok(Some(key_number(alloc, schema, "key", "other", name)?)),
        None => Ok(None),
    }
}

// What texts begin with, and the numbers of their keys.
fn prefixes_of(
    alloc: Global,
    schema: &Schema,
    entries: &[Entry],
) -> Result<Vec<wsm_lines::Entry>, Refusal>
    ensures ok { IfOk result (λ es. prefixes_of schema.now.keys entries.now ≡ Ok es.items) }
    ensures fault { IfErr result (λ r. (r ≡ Refusal.Memory) ⊎ (prefixes_of schema.now.keys entries.now ≡ Err r)) }
{
    let mut bound = Vec::new(alloc);
    for entry in entries {
        let text = entry.text.as_str();
        let number = key_number(alloc, schema, "key.prefixes", text, &entry.name)?;
        let word = Word::new(alloc, text)?;
        bound.push(wsm_lines::Entry { word, number })?;
    }
    Ok(bound)
}

// How a text names a key of the query.
fn key_names(
    alloc: Global,
    schema: &Schema,
    names: &[u8],
    naming: &KeyNaming,
) -> Result<KeyNames, Refusal>
    ensures ok { IfOk result (λ n. key_names schema.now.keys names.now naming.now ≡ Ok n) }
    ensures fault { IfErr result (λ r. (r ≡ Refusal.Memory) ⊎ (key_names schema.now.keys names.now naming.now ≡ Err r)) }
{
    match naming {
        KeyNaming::Same => Ok(KeyNames::Same),
        KeyNaming::File { file: _file, other } => {
            let other = other_number(alloc, schema, other)?;
            let table = names_of(alloc, schema, names)?;
            Ok(KeyNames::Table(table, other))
        }
        KeyNaming::Prefixes { entries, other } => {
            let other = other_number(alloc, schema, other)?;
            let entries = prefixes_of(alloc, schema, entries.items())?;
            Ok(KeyNames::Prefixes(Prefixes::new(entries), other))
        }
    }
}

/// Where the key stands, and how its text names a key of the query.
pub fn key_form(
    alloc: Global,
    format: Format,
    schema: &Schema,
    names: &[u8],
    key: &KeyDescription,
) -> Result<KeyForm, Refusal>
    ensures ok { IfOk result (λ k. key_form format schema.now.keys names.now key.now ≡ Ok k) }
    ensures fault { IfErr result (λ r. (r ≡ Refusal.Memory) ⊎ (key_form format schema.now.keys names.now key.now ≡ Err r)) }
{
    let at = place_of(alloc, format, 0, "key", key.at.as_str())?;
    let names = key_names(alloc, schema, names, &key.naming)?;
    Ok(KeyForm { at, names })
}

// How a time is written, in its zone.
fn time_form(alloc: Global, form: &FormDescription, zone: Zone) -> Result<TimeForm, AllocError>
    ensures { IfOk result (λ f. f ≡ time_form zone form.now) }
{
    match form {
        FormDescription::Instant => Ok(TimeForm::Instant),
        FormDescription::Epoch(unit) => Ok(TimeForm::Epoch(*unit)),
        FormDescription::Fraction => Ok(TimeForm::Fraction),
        FormDescription::Stamped(pattern) => {
            let pattern = Word::new(alloc, pattern.as_str())?;
            let fold = Fold::Refused;
            Ok(TimeForm::Local(LocalForm {
                pattern,
                fold,
                zone,
            }))
        }
        FormDescription::Local {
            pattern,
            zone: _name,
            fold,
        } => {
            let pattern = Word::new(alloc, pattern.as_str())?;
            let fold = *fold;
            Ok(TimeForm::Local(LocalForm {
                pattern,
                fold,
                zone,
            }))
        }
    }
}

/// Where the time stands, and how it is written.
pub fn time_at(
    alloc: Global,
    format: Format,
    zone: Zone,
    time: &TimeDescription,
) -> Result<TimeAt, Refusal>
    ensures ok { IfOk result (λ t. time_at format zone time.now ≡ Ok t) }
    ensures fault { IfErr result (λ r. (r ≡ Refusal.Memory) ⊎ (time_at format zone time.now ≡ Err r)) }
{
    let at = place_of(alloc, format, 1, "time", time.at.as_str())?;
    let form = time_form(alloc, &time.form, zone)?;
    let unit = time.unit;
    Ok(TimeAt { at, form, unit })
}
