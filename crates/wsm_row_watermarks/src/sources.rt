//! What a query declares, with the source of which watermarks are written first.

ghost use Rattle.std.specs.Prelude.{◌≡◌, ◌<◌, ◌⊎◌, true, [], length, map, option_map, IfOk, IfSome};
ghost use Rattle.std.specs.List.{list_all};
ghost use Rattle.wsm_record.specs.Fields.{declared_field, declared_type, field_seen, type_seen};
ghost use Rattle.wsm_record.specs.Name.{is_name};
ghost use Rattle.wsm_record.specs.Schema.{DeclaredField as SeenField, is_field_type};
ghost use Rattle.wsm_row_watermarks.specs.Sources.{by_source, first_source, with_first, with_source_first};

use std::alloc::{AllocError, Global};
use wsm_record::{DeclaredField, Field, FieldType, Name, Names, Schema, Ty};

/// What a query declares, with the source of this name first, of which watermarks are written; as it stands where it has no sources
/// and none is named. There is none where it has sources and none is named, or one is named that it hasn't.
///
/// # Errors
///
/// Memory was refused.
pub fn schema_by_source(
    alloc: Global,
    schema: &Schema,
    source: Option<&[u8]>,
) -> Result<Option<Schema>, AllocError>
    ensures { IfOk result (λ found. found ≡ by_source schema.now (option_map (λ name. name.now) source.entry)) }
{
    match first_source(schema.sources(), source) {
        Some(first) => Ok(Some(with_source_first(alloc, schema, first)?)),
        None => Ok(None),
    }
}

// The number of the source of which watermarks are written.
fn first_source(sources: &Names, source: Option<&[u8]>) -> Option<usize>
    ensures found { result ≡ first_source (option_map (λ name. name.now) source.entry) sources.now }
    ensures within { IfSome result (λ first. (first < length sources.now) ⊎ (sources.now ≡ [])) }
{
    match source {
        None if sources.len() == 0 => Some(0),
        None => None,
        Some(name) => sources.number_of(name).map(usize::from),
    }
}

// The same schema, with the source of a number first.
fn with_source_first(alloc: Global, schema: &Schema, first: usize) -> Result<Schema, AllocError>
    requires { (first < length schema.now.sources) ⊎ (schema.now.sources ≡ []) }
    ensures { IfOk result (λ made. made ≡ with_source_first first schema.now) }
{
    // It is learnt that it is one.
    let _count = schema.source_count();
    let keys = names_in(alloc, schema.keys())?;
    let sources = names_in(alloc, schema.sources())?;
    let sources = put_first(sources, first)?;
    let fields = fields_in(alloc, schema.fields())?;
    match Schema::new(alloc, &keys, &fields, &sources) {
        Ok(made) => Ok(made),
        Err(_) => Err(AllocError),
    }
}

// Names, with the one of a number first.
fn put_first(mut names: Vec<Name>, first: usize) -> Result<Vec<Name>, AllocError>
    ensures { (first < length names.items) ⊎ (names.items ≡ []) → IfOk result (λ list. list.items ≡ with_first first names.items) }
{
    if first < names.len() {
        let name = names.remove(first);
        names.insert(0, name)?;
    }
    Ok(names)
}

// The names of a list.
fn names_in(alloc: Global, names: &Names) -> Result<Vec<Name>, AllocError>
    requires { list_all is_name names.now ≡ true }
    ensures { IfOk result (λ list. list.items ≡ names.now) }
{
    let mut list = Vec::with_capacity(alloc, names.len())?;
    for number in 0..names.len() {
        let name = Name::new(names.text_of(number as u16)).unwrap();
        list.push(name)?;
    }
    Ok(list)
}

// Fields as a query declares them.
fn fields_in(alloc: Global, fields: &[DeclaredField]) -> Result<Vec<Field>, AllocError>
    requires { list_all (λ (field : SeenField). is_field_type field.type) (map field_seen fields.now) ≡ true }
    ensures { IfOk result (λ list. map declared_field list.items ≡ map field_seen fields.now) }
{
    let mut list = Vec::with_capacity(alloc, fields.len())?;
    for field in fields {
        let name = field.name.copied();
        let ty = type_of(alloc, &field.ty)?;
        list.push(Field { name, ty })?;
    }
    Ok(list)
}

// A type as a query declares it.
fn type_of(alloc: Global, ty: &FieldType) -> Result<Ty, AllocError>
    requires { is_field_type (type_seen ty.now) ≡ true }
    ensures { IfOk result (λ declared. declared_type declared ≡ type_seen ty.now) }
{
    match ty {
        FieldType::Int { lo, hi } => Ok(Ty::Int { lo: *lo, hi: *hi }),
        FieldType::Bool => Ok(Ty::Bool),
        FieldType::Enum(names) => Ok(Ty::Enum(names_in(alloc, names)?)),
    }
}
