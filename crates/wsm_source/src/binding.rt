//! A source, bound to a query.

ghost use Rattle.std.specs.Prelude.{◌≡◌, ◌⊎◌, ◌+◌, ◌<◌, ◌^◌, [], ◌++◌, ◌∷◌, IfOk, IfErr, OnOk, Ok, Err, codes, map, option_map};
ghost use Rattle.wsm_record.specs.Fields.{field_seen};
ghost use Rattle.wsm_source.specs.Places.{place_if};
ghost use Rattle.wsm_source.specs.Binding.{place_said, identifier_column, clock_column, clock_said, columns_of, format_with, with_column, bound};

use crate::field_binding::{described_field, fields_of, require_declared};
use crate::key_binding::{key_form, time_at};
use crate::place_part::{place_if, text_or_none};
use std::alloc::{AllocError, Global};
use wsm_description::{
    ClockDescription, Description, FieldDescription, Format, NamedClocks, Refusal, SourceFault,
    refuse,
};
use wsm_lines::{CsvForm, Fields, Place, Source, Words};
use wsm_record::{DeclaredField, Schema};
use wsm_values::{Word, Zone};

// The place that is said of a declared field, or its name.
fn place_said(
    alloc: Global,
    fields: &[FieldDescription],
    declared: &DeclaredField,
) -> Result<Word, Refusal>
    ensures ok { IfOk result (λ at. place_said fields.now (field_seen declared.now) ≡ Ok at) }
    ensures fault { IfErr result (λ r. (r ≡ Refusal.Memory) ⊎ (place_said fields.now (field_seen declared.now) ≡ Err r)) }
{
    let name = declared.name.as_bytes();
    if let Some(field) = described_field(fields, name) {
        return Ok(Word::new(alloc, field.at.as_str())?);
    }
    match text_or_none(alloc, name)? {
        Some(name) => Ok(name),
        None => Err(refuse(alloc, SourceFault::BadWord, "", "fields")),
    }
}

// The number of the column that a CSV is asked for the identifier, behind those of the fields.
fn identifier_column(declared: &[DeclaredField]) -> usize
    ensures value { result ≡ identifier_column (map field_seen declared.now) }
    ensures few { result + 1 < 2 ^ 64 }
{
    declared.len() + 2
}

// The number of the column that a CSV is asked for the clock, behind that of the identifier, if there is one.
fn clock_column(identifier: &Option<Word>, declared: &[DeclaredField]) -> usize
    ensures value { result ≡ clock_column identifier.now (map field_seen declared.now) }
    ensures few { result + 1 < 2 ^ 64 }
{
    match identifier {
        Some(_) => declared.len() + 3,
        None => declared.len() + 2,
    }
}

// The place of the identifier, if it is said.
fn identifier_said(identifier: &Option<Word>) -> Option<&str>
    ensures { option_map (λ s. s.now) result ≡ identifier.now }
{
    match identifier {
        Some(at) => Some(at.as_str()),
        None => None,
    }
}

// The place of the names of clocks, if it is said.
fn clock_said(clock: &Option<ClockDescription>) -> Option<&str>
    ensures { option_map (λ s. s.now) result ≡ clock_said clock.now }
{
    match clock {
        Some(clock) => place_named(&clock.named),
        None => None,
    }
}

// Where clocks are named, if they are.
fn place_named(named: &Option<NamedClocks>) -> Option<&str>
    ensures { option_map (λ s. s.now) result ≡ option_map (λ n. n.at) named.now }
{
    match named {
        Some(named) => Some(named.at.as_str()),
        None => None,
    }
}

// Where a record has its identifier, if that is said.
fn identifier_place(
    alloc: Global,
    description: &Description,
    declared: &[DeclaredField],
) -> Result<Option<Place>, Refusal>
    ensures ok { IfOk result (λ place. place_if description.now.format (identifier_column (map field_seen declared.now))
        (codes "identifier") description.now.identifier ≡ Ok place) }
    ensures fault { IfErr result (λ r. (r ≡ Refusal.Memory)
        ⊎ (place_if description.now.format (identifier_column (map field_seen declared.now)) (codes "identifier") description.now.identifier ≡ Err r)) }
{
    let column = identifier_column(declared);
    let at = identifier_said(&description.identifier);
    place_if(alloc, description.format, column, "identifier", at)
}

// Where lines name the clocks of their records, if that is said.
fn clock_place(
    alloc: Global,
    description: &Description,
    declared: &[DeclaredField],
) -> Result<Option<Place>, Refusal>
    ensures ok { IfOk result (λ place. place_if description.now.format (clock_column description.now.identifier (map field_seen declared.now)) (codes "clock")
        (clock_said description.now.clock) ≡ Ok place) }
    ensures fault { IfErr result (λ r. (r ≡ Refusal.Memory)
        ⊎ (place_if description.now.format (clock_column description.now.identifier (map field_seen declared.now)) (codes "clock")
        (clock_said description.now.clock) ≡ Err r)) }
{
    let column = clock_column(&description.identifier, declared);
    let at = clock_said(&description.clock);
    place_if(alloc, description.format, column, "clock", at)
}

// Adds a column behind those that a CSV is asked for, if its place is said.
fn add_column(alloc: Global, at: Option<&str>, names: &mut Vec<Word>) -> Result<(), AllocError>
    ensures { OnOk result (names.new.items ≡ with_column (option_map (λ s. s.now) at.entry) names.old.items) }
{
    match at {
        Some(at) => Ok(names.push(Word::new(alloc, at)?)?),
        None => Ok(()),
    }
}

// The columns that a CSV is asked for.
fn columns_of(
    alloc: Global,
    description: &Description,
    declared: &[DeclaredField],
) -> Result<Words, Refusal>
    ensures ok { IfOk result (λ names. columns_of description.now (map field_seen declared.now) ≡ Ok names) }
    ensures fault { IfErr result (λ r. (r ≡ Refusal.Memory) ⊎ (columns_of description.now (map field_seen declared.now) ≡ Err r)) }
{
    let mut names = Vec::new(alloc);
    names.push(Word::new(alloc, description.key.at.as_str())?)?;
    names.push(Word::new(alloc, description.time.at.as_str())?)?;
    for field in declared {
        names.push(place_said(alloc, description.fields.items(), field)?)?;
    }
    add_column(alloc, identifier_said(&description.identifier), &mut names)?;
    add_column(alloc, clock_said(&description.clock), &mut names)?;
    Ok(Words::new(names))
}

// The format, with the columns that a CSV is asked for.
fn format_with(
    alloc: Global,
    description: &Description,
    declared: &[DeclaredField],
) -> Result<wsm_lines::Format, Refusal>
    ensures ok { IfOk result (λ f. format_with description.now (map field_seen declared.now) ≡ Ok f) }
    ensures fault { IfErr result (λ r. (r ≡ Refusal.Memory) ⊎ (format_with description.now (map field_seen declared.now) ≡ Err r)) }
{
    match description.format {
        Format::Json => Ok(wsm_lines::Format::Json),
        Format::Access => Ok(wsm_lines::Format::Access),
        Format::Rows => Ok(wsm_lines::Format::Rows),
        Format::Csv(separator) => {
            let names = columns_of(alloc, description, declared)?;
            Ok(wsm_lines::Format::Csv(CsvForm { separator, names }))
        }
    }
}

/// The source of lines that a description says, for a query of this schema, or the first fault. The zone
/// is the one that the description names, `Zone::Utc` where it names none; the bytes are those of the
/// file of names, none where it names none.
///
/// # Errors
///
/// The fault is that of the definition, and so is the key that it names. `SourceRefusal::of` has its
/// place in the text.
pub fn bind(
    alloc: Global,
    description: &Description,
    schema: &Schema,
    zone: Zone,
    names: &[u8],
) -> Result<Source, Refusal>
    ensures ok { IfOk result (λ s. bound description.now schema.now zone names.now ≡ Ok s) }
    ensures fault { IfErr result (λ r. (r ≡ Refusal.Memory) ⊎ (bound description.now schema.now zone names.now ≡ Err r)) }
{
    let format = description.format;
    let declared = schema.fields();
    let said = description.fields.items();
    require_declared(alloc, declared, said)?;
    let key = key_form(alloc, format, schema, names, &description.key)?;
    let time = time_at(alloc, format, zone, &description.time)?;
    let fields = fields_of(alloc, format, said, declared)?;
    let identifier = identifier_place(alloc, description, declared)?;
    let clock = clock_place(alloc, description, declared)?;
    let format = format_with(alloc, description, declared)?;
    Ok(Source {
        format,
        longest: description.longest as usize,
        key,
        time,
        fields: Fields::new(fields),
        identifier,
        clock,
    })
}
