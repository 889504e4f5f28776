//! The fields of a source, bound to those of a query.

ghost use Rattle.std.specs.Prelude.{◌+◌, ◌<◌, ◌^◌, ◌≡◌, ◌⊎◌, [], IfOk, IfErr, Ok, Err, map, option_map};
ghost use Rattle.wsm_record.specs.Fields.{type_seen, field_seen};
ghost use Rattle.wsm_source.specs.FieldBinding.{described_field, plain_field, is_declared, all_declared, unsaid, no_decimal, is_plain, number_kind, truth_words, named_table, word_number, words_added, enum_table, kind_of, typed_default, default_value, bound_field, field_with, fields_from, fields_of};

use crate::place_part::{place_of, text_or_none};
use std::alloc::{AllocError, Global};
use wsm_description::{
    DecimalDescription, DefaultValue, Entry, FieldDescription, Format, Refusal, SourceFault,
    Truths, dotted, refuse,
};
use wsm_lines::{BoolWords, Field, Kind, Table};
use wsm_record::{DeclaredField, FieldType, Names, Value};
use wsm_values::{DecimalForm, Word};

// What is said of the field of a name.
pub fn described_field<'d>(
    fields: &'d [FieldDescription],
    name: &[u8],
) -> Option<&'d FieldDescription>
    ensures { option_map (λ f. f.now) result ≡ described_field fields.now name.now }
{
    for field in fields {
        if field.name.as_str().as_bytes() == name {
            return Some(field);
        }
    }
    None
}

// A field of which nothing is said.
fn plain_field(alloc: Global, name: &[u8]) -> Result<FieldDescription, Refusal>
    ensures ok { IfOk result (λ f. plain_field name.now ≡ Ok f) }
    ensures fault { IfErr result (λ r. (r ≡ Refusal.Memory) ⊎ (plain_field name.now ≡ Err r)) }
{
    let Some(name) = text_or_none(alloc, name)? else {
        return Err(refuse(alloc, SourceFault::BadWord, "", "fields"));
    };
    let at = Word::new(alloc, name.as_str())?;
    let decimal = DecimalDescription {
        scale: None,
        point: None,
        group: None,
    };
    Ok(FieldDescription {
        name,
        at,
        decimal,
        default: None,
        truths: None,
        words: None,
    })
}

// Whether a query declares a field of this name.
fn is_declared(declared: &[DeclaredField], name: &[u8]) -> bool
    ensures { result ≡ is_declared name.now (map field_seen declared.now) }
{
    for field in declared {
        if field.name.as_bytes() == name {
            return true;
        }
    }
    false
}

/// Refuses what is said of a field that the query doesn't declare.
pub fn require_declared(
    alloc: Global,
    declared: &[DeclaredField],
    fields: &[FieldDescription],
) -> Result<(), Refusal>
    ensures ok { IfOk result (λ u. all_declared (map field_seen declared.now) fields.now ≡ Ok u) }
    ensures fault { IfErr result (λ r. (r ≡ Refusal.Memory) ⊎ (all_declared (map field_seen declared.now) fields.now ≡ Err r)) }
{
    for field in fields {
        let name = field.name.as_str();
        if !is_declared(declared, name.as_bytes()) {
            return Err(refuse(alloc, SourceFault::UnknownField, "fields", name));
        }
    }
    Ok(())
}

// Refuses a key that doesn't go with the field's type.
fn require_unsaid(alloc: Global, section: &str, key: &str, said: bool) -> Result<(), Refusal>
    ensures ok { IfOk result (λ u. unsaid section.now key.now said ≡ Ok u) }
    ensures fault { IfErr result (λ r. (r ≡ Refusal.Memory) ⊎ (unsaid section.now key.now said ≡ Err r)) }
{
    if said {
        Err(refuse(alloc, SourceFault::WrongType, section, key))
    } else {
        Ok(())
    }
}

// Refuses what is said of a decimal.
fn require_no_decimal(
    alloc: Global,
    section: &str,
    decimal: DecimalDescription,
) -> Result<(), Refusal>
    ensures ok { IfOk result (λ u. no_decimal section.now decimal ≡ Ok u) }
    ensures fault { IfErr result (λ r. (r ≡ Refusal.Memory) ⊎ (no_decimal section.now decimal ≡ Err r)) }
{
    require_unsaid(alloc, section, "scale", decimal.scale.is_some())?;
    require_unsaid(alloc, section, "point", decimal.point.is_some())?;
    require_unsaid(alloc, section, "group", decimal.group.is_some())
}

// Whether nothing is said of how a number is written.
fn is_plain(decimal: DecimalDescription) -> bool
    ensures { result ≡ is_plain decimal }
{
    decimal.scale.is_none() && decimal.point.is_none() && decimal.group.is_none()
}

// How a number is read.
fn number_kind(decimal: DecimalDescription) -> Kind
    ensures { result ≡ number_kind decimal }
{
    if is_plain(decimal) {
        Kind::Whole
    } else {
        Kind::Decimal(DecimalForm {
            point: decimal.point.unwrap_or(b'.'),
            group: decimal.group,
            scale: decimal.scale.unwrap_or(0),
        })
    }
}

// The words for true and false.
fn truth_words(alloc: Global, truths: &Option<Truths>) -> Result<BoolWords, AllocError>
    ensures { IfOk result (λ w. w ≡ truth_words truths.now) }
{
    match truths {
        Some(truths) => {
            let yes = Word::new(alloc, truths.yes.as_str())?;
            let no = Word::new(alloc, truths.no.as_str())?;
            Ok(BoolWords { yes, no })
        }
        None => {
            let yes = Word::new(alloc, "true")?;
            let no = Word::new(alloc, "false")?;
            Ok(BoolWords { yes, no })
        }
    }
}

// The declared names, each for itself.
fn named_table(alloc: Global, names: &Names) -> Result<Table, AllocError>
    ensures { IfOk result (λ table. table ≡ named_table names.now) }
{
    let mut table = Table::new(alloc);
    for number in 0..names.len() {
        table.add(alloc, names.text_of(number as u16), number as u16)?;
    }
    Ok(table)
}

// The number of the name that a word stands for.
fn word_number(alloc: Global, section: &str, names: &Names, entry: &Entry) -> Result<u16, Refusal>
    ensures ok { IfOk result (λ n. word_number section.now names.now entry.now ≡ Ok n) }
    ensures fault { IfErr result (λ r. (r ≡ Refusal.Memory) ⊎ (word_number section.now names.now entry.now ≡ Err r)) }
{
    match names.number_of(entry.name.as_str().as_bytes()) {
        Some(number) => Ok(number),
        None => Err(refuse(
            alloc,
            SourceFault::UnknownName,
            section,
            entry.text.as_str(),
        )),
    }
}

// The table with further words for declared names.
fn words_added(
    alloc: Global,
    section: &str,
    names: &Names,
    mut table: Table,
    words: &[Entry],
) -> Result<Table, Refusal>
    ensures ok { IfOk result (λ t. words_added section.now names.now table words.now ≡ Ok t) }
    ensures fault { IfErr result (λ r. (r ≡ Refusal.Memory) ⊎ (words_added section.now names.now table words.now ≡ Err r)) }
{
    for entry in words {
        let number = word_number(alloc, section, names, entry)?;
        table.add(alloc, entry.text.as_str().as_bytes(), number)?;
    }
    Ok(table)
}

// The words of an ENUM.
fn enum_table(
    alloc: Global,
    section: &str,
    names: &Names,
    field: &FieldDescription,
) -> Result<Table, Refusal>
    ensures ok { IfOk result (λ t. enum_table section.now names.now field.now ≡ Ok t) }
    ensures fault { IfErr result (λ r. (r ≡ Refusal.Memory) ⊎ (enum_table section.now names.now field.now ≡ Err r)) }
{
    let table = named_table(alloc, names)?;
    match &field.words {
        Some(words) => {
            let inner = dotted(alloc, section, "words")?;
            words_added(alloc, inner.as_str(), names, table, words.items())
        }
        None => Ok(table),
    }
}

// How the values of a field are read, by its type.
fn kind_of(
    alloc: Global,
    section: &str,
    ty: &FieldType,
    field: &FieldDescription,
) -> Result<Kind, Refusal>
    ensures ok { IfOk result (λ k. kind_of section.now (type_seen ty.now) field.now ≡ Ok k) }
    ensures fault { IfErr result (λ r. (r ≡ Refusal.Memory) ⊎ (kind_of section.now (type_seen ty.now) field.now ≡ Err r)) }
{
    match ty {
        FieldType::Int { .. } => {
            require_unsaid(alloc, section, "true", field.truths.is_some())?;
            require_unsaid(alloc, section, "words", field.words.is_some())?;
            Ok(number_kind(field.decimal))
        }
        FieldType::Bool => {
            require_no_decimal(alloc, section, field.decimal)?;
            require_unsaid(alloc, section, "words", field.words.is_some())?;
            Ok(Kind::Bool(truth_words(alloc, &field.truths)?))
        }
        FieldType::Enum(names) => {
            require_no_decimal(alloc, section, field.decimal)?;
            require_unsaid(alloc, section, "true", field.truths.is_some())?;
            Ok(Kind::Enum(enum_table(alloc, section, names, field)?))
        }
    }
}

// A default of a field's type.
fn typed_default(ty: &FieldType, default: &DefaultValue) -> Result<Value, SourceFault>
    ensures { result ≡ typed_default (type_seen ty.now) default.now }
{
    match (ty, default) {
        (FieldType::Int { lo, hi }, DefaultValue::Whole(number)) => {
            if *lo <= *number && *number <= *hi {
                Ok(Value::Int(*number))
            } else {
                Err(SourceFault::BadRange)
            }
        }
        (FieldType::Bool, DefaultValue::Truth(truth)) => Ok(Value::Bool(*truth)),
        (FieldType::Enum(names), DefaultValue::Name(name)) => {
            match names.number_of(name.as_str().as_bytes()) {
                Some(number) => Ok(Value::Enum(number)),
                None => Err(SourceFault::UnknownName),
            }
        }
        _ => Err(SourceFault::BadType),
    }
}

// The default of a field.
fn default_value(
    alloc: Global,
    section: &str,
    ty: &FieldType,
    field: &FieldDescription,
) -> Result<Option<Value>, Refusal>
    ensures ok { IfOk result (λ v. default_value section.now (type_seen ty.now) field.now ≡ Ok v) }
    ensures fault { IfErr result (λ r. (r ≡ Refusal.Memory) ⊎ (default_value section.now (type_seen ty.now) field.now ≡ Err r)) }
{
    match &field.default {
        None => Ok(None),
        Some(default) => match typed_default(ty, default) {
            Ok(value) => Ok(Some(value)),
            Err(fault) => Err(refuse(alloc, fault, section, "default")),
        },
    }
}

// A field by its type and what is said of it.
fn bound_field(
    alloc: Global,
    format: Format,
    column: usize,
    ty: &FieldType,
    field: &FieldDescription,
) -> Result<Field, Refusal>
    requires { column + 1 < 2 ^ 64 }
    ensures ok { IfOk result (λ f. bound_field format column (type_seen ty.now) field.now ≡ Ok f) }
    ensures fault { IfErr result (λ r. (r ≡ Refusal.Memory) ⊎ (bound_field format column (type_seen ty.now) field.now ≡ Err r)) }
{
    let section = dotted(alloc, "fields", field.name.as_str())?;
    let section = section.as_str();
    let default = default_value(alloc, section, ty, field)?;
    let at = place_of(alloc, format, column, section, field.at.as_str())?;
    let kind = kind_of(alloc, section, ty, field)?;
    Ok(Field { at, kind, default })
}

// A declared field by what is said of fields.
fn field_with(
    alloc: Global,
    format: Format,
    column: usize,
    fields: &[FieldDescription],
    declared: &DeclaredField,
) -> Result<Field, Refusal>
    requires { column + 1 < 2 ^ 64 }
    ensures ok { IfOk result (λ f. field_with format column fields.now (field_seen declared.now) ≡ Ok f) }
    ensures fault { IfErr result (λ r. (r ≡ Refusal.Memory) ⊎ (field_with format column fields.now (field_seen declared.now) ≡ Err r)) }
{
    let name = declared.name.as_bytes();
    match described_field(fields, name) {
        Some(field) => bound_field(alloc, format, column, &declared.ty, field),
        None => {
            let field = plain_field(alloc, name)?;
            bound_field(alloc, format, column, &declared.ty, &field)
        }
    }
}

/// The fields of a query, in its order, by what is said of fields.
pub fn fields_of(
    alloc: Global,
    format: Format,
    fields: &[FieldDescription],
    declared: &[DeclaredField],
) -> Result<Vec<Field>, Refusal>
    ensures ok { IfOk result (λ fs. fields_of format fields.now (map field_seen declared.now) ≡ Ok fs.items) }
    ensures fault { IfErr result (λ r. (r ≡ Refusal.Memory) ⊎ (fields_of format fields.now (map field_seen declared.now) ≡ Err r)) }
{
    let mut bound = Vec::new(alloc);
    for (i, field) in declared.iter().enumerate() {
        bound.push(field_with(alloc, format, i + 2, fields, field)?)?;
    }
    Ok(bound)
}
