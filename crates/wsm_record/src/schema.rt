//! What a query declares of its records.

ghost use Rattle.std.specs.Prelude.{true, false, IsTrue, ◌≡◌, ◌≢◌, ◌<◌, ◌≤◌, ◌⊎◌, ℕ, List, [], length, map, option_map, position, bytes_eq, Some, None, Ok, Err, slice_get, IfOk, IfErr};
ghost use Rattle.wsm_record.specs.Schema.{is_schema, is_field_type, are_fields_after, enum_names, names_of_type, fits_type, fit_fields, type_refusal, fields_refusal, schema_refusal, is_too_many, is_source_count, has_too_many_names, source_count};
ghost use Rattle.std.specs.List.{list_any};
ghost use Rattle.wsm_record.specs.Fields.{declared_type, declared_field, type_seen, field_seen, declared_of, kept_of};

use crate::event::Value;
use crate::limits::{MAX_FIELDS, MAX_NAMES, MAX_SOURCES};
use crate::name::Name;
use crate::names::Names;
use std::alloc::{AllocError, AllocFailed, Global};
use std::marker::Model;
use thiserror::Error;

/// What a query declares a field as.
#[derive(Debug, Drop)]
pub enum Ty {
    /// A whole number from `lo` to `hi`.
    Int { lo: i64, hi: i64 },
    /// A truth.
    Bool,
    /// One of these names.
    Enum(Vec<Name>),
}

/// A field as a query declares it.
#[derive(Debug, Drop)]
pub struct Field {
    pub name: Name,
    pub ty: Ty,
}

/// Why keys, fields and sources make no schema. The order is that in which faults are found.
#[derive(Clone, Copy, Debug, PartialEq, Eq, Error)]
pub enum SchemaRefusal {
    /// There is no key.
    #[error("S4 NoKeys")]
    NoKeys,
    /// There are more than 1,000 keys, 16 fields, 1,000 names of a field or 16 sources, or one source.
    #[error("S3 TooMany")]
    TooMany,
    /// A name stands twice among the keys, the fields, the names of a field, or the sources.
    #[error("S1 DuplicateName")]
    DuplicateName,
    /// A field has no value: its interval is empty, or it has no names.
    #[error("S2 EmptyRange")]
    EmptyRange,
    /// Memory was refused.
    #[error("out of memory")]
    Memory,
}

impl From<AllocError> for SchemaRefusal {
    ghost use Rattle.std.specs.Prelude.{false, ◌≡◌};
    ghost use Rattle.wsm_record.specs.declared.schema.SchemaRefusal.TheVariants.{Memory};

    ghost from_gives = { λ _ e. e ≡ Memory };

    fn from(_e: AllocError) -> SchemaRefusal {
        SchemaRefusal::Memory
    }
}

impl<T: Drop> From<AllocFailed<T>> for SchemaRefusal {
    ghost use Rattle.std.specs.Prelude.{false, ◌≡◌};
    ghost use Rattle.wsm_record.specs.declared.schema.SchemaRefusal.TheVariants.{Memory};

    ghost from_gives = { λ _ e. e ≡ Memory };

    fn from(_e: AllocFailed<T>) -> SchemaRefusal {
        SchemaRefusal::Memory
    }
}

/// The type of a declared field.
#[derive(Drop)]
pub enum FieldType {
    /// A whole number from `lo` to `hi`.
    Int { lo: i64, hi: i64 },
    /// A truth.
    Bool,
    /// One of these names.
    Enum(Names),
}

impl FieldType {
    /// Whether a value is of the type: in its interval, or the number of one of its names.
    pub fn fits(&self, value: Value) -> bool
        ensures { result ≡ fits_type (type_seen self.now) value }
    {
        match (self, value) {
            (FieldType::Int { lo, hi }, Value::Int(n)) => *lo <= n && n <= *hi,
            (FieldType::Bool, Value::Bool(_)) => true,
            (FieldType::Enum(names), Value::Enum(i)) => (i as usize) < names.len(),
            _ => false,
        }
    }

    // The type as it is kept, where it has values and no name twice.
    fn declare(alloc: Global, ty: &Ty) -> Result<FieldType, SchemaRefusal>
        requires { has_too_many_names (declared_type ty.now) ≡ false }
        ensures kept { IfOk result (λ t. type_seen t ≡ declared_type ty.now) }
        ensures lawful { IfOk result (λ t. is_field_type (type_seen t) ≡ true) }
        ensures accepted { IfOk result (λ _. type_refusal (declared_type ty.now) ≡ None) }
        ensures refused { IfErr result (λ r. (r ≡ SchemaRefusal.Memory) ⊎ (type_refusal (declared_type ty.now) ≡ Some r)) }
    {
        match ty {
            Ty::Int { lo, hi } if hi < lo => Err(SchemaRefusal::EmptyRange),
            Ty::Int { lo, hi } => Ok(FieldType::Int { lo: *lo, hi: *hi }),
            Ty::Bool => Ok(FieldType::Bool),
            Ty::Enum(names) if names.is_empty() => Err(SchemaRefusal::EmptyRange),
            Ty::Enum(names) => Ok(FieldType::Enum(Names::collect(alloc, names)?)),
        }
    }
}

/// A declared field.
#[derive(Drop)]
pub struct DeclaredField {
    pub name: Name,
    pub ty: FieldType,
}

/// The declared keys, fields and sources: there are keys, names are names, none stands twice, and each
/// field has a value. A key's number is its place among the keys, a field's its place among the fields,
/// a source's its place among the sources. A clause sees the names as their bytes.
#[derive(Drop)]
pub struct Schema {
    keys: Names,
    fields: Vec<DeclaredField>,
    sources: Names,
}

impl Model for Schema {
    ghost use Rattle.std.specs.Prelude.{IsTrue};
    ghost use Rattle.wsm_record.specs.Schema.{Declared, is_schema};
    ghost use Rattle.wsm_record.specs.Fields.{kept_of};

    ghost Value = { Declared };

    ghost view = { λ a. kept_of a.keys a.fields.items a.sources };

    ghost invariant = { λ a. IsTrue (is_schema (kept_of a.keys a.fields.items a.sources)) };
}

impl Schema {
    /// The schema of these keys, fields and sources, or the first fault. No source is handed in where
    /// watermarks name none.
    pub fn new(
        alloc: Global,
        keys: &[Name],
        fields: &[Field],
        sources: &[Name],
    ) -> Result<Schema, SchemaRefusal>
        ensures declared { IfOk result (λ s. s ≡ declared_of keys.now fields.now sources.now) }
        ensures accepted { IfOk result (λ _. schema_refusal (declared_of keys.now fields.now sources.now) ≡ None) }
        ensures refused { IfErr result (λ r. (r ≡ SchemaRefusal.Memory) ⊎ (schema_refusal (declared_of keys.now fields.now sources.now) ≡ Some r)) }
    {
        if keys.is_empty() {
            return Err(SchemaRefusal::NoKeys);
        }
        if exceed(keys, fields, sources) {
            return Err(SchemaRefusal::TooMany);
        }
        let keys = Names::collect(alloc, keys)?;
        let fields = declare(alloc, fields)?;
        let sources = Names::collect(alloc, sources)?;
        Ok(Schema::of_parts(keys, fields, sources))
    }

    /// The schema of keys, fields and sources that were judged. It takes no memory.
    pub fn of_parts(keys: Names, fields: Vec<DeclaredField>, sources: Names) -> Schema
        requires { IsTrue (is_schema (kept_of keys fields.items sources)) }
        ensures parts { result ≡ kept_of keys fields.items sources }
        ensures lawful { IsTrue (is_schema result) }
    {
        Schema {
            keys,
            fields,
            sources,
        }
    }

    /// The declared keys.
    pub fn keys(&self) -> &Names
        ensures { result.now ≡ self.now.keys }
    {
        &self.keys
    }

    /// How many keys there are: 1 to 1,000.
    pub fn key_count(&self) -> usize
        ensures count { result ≡ length self.now.keys }
        ensures some { 0 < result }
        ensures most { result ≤ MAX_NAMES }
    {
        self.keys.len()
    }

    /// The number of the key with these bytes, if it is declared.
    #[inline(always)]
    pub fn key_number(&self, text: &[u8]) -> Option<u32>
        ensures { result ≡ position (bytes_eq text.now) self.now.keys }
    {
        self.keys.number_of(text).map(u32::from)
    }

    /// The declared fields, in their order.
    pub fn fields(&self) -> &[DeclaredField]
        ensures { map field_seen result.now ≡ self.now.fields }
    {
        &self.fields
    }

    /// The declared sources, in their order: none where all watermarks are of one source.
    pub fn sources(&self) -> &Names
        ensures { result.now ≡ self.now.sources }
    {
        &self.sources
    }

    /// How many sources watermarks have: 1 where none are declared, else 2 to 16. Whoever asks learns
    /// besides that the schema is one.
    pub fn source_count(&self) -> usize
        ensures count { result ≡ source_count self.now }
        ensures lawful { IsTrue (is_schema self.now) }
        ensures some { 1 ≤ result }
        ensures most { result ≤ MAX_SOURCES }
    {
        if self.sources.len() == 0 {
            1
        } else {
            self.sources.len()
        }
    }

    /// The names of the ENUM of a number, as in a `CellType`: those of the keys, or of a field.
    pub fn enum_names(&self, number: u8) -> Option<&Names>
        ensures { option_map (λ names. names.now) result ≡ enum_names self.now number }
    {
        if number == 0 {
            return Some(&self.keys);
        }
        let field = self.fields().get(number as usize - 1)?;
        type_names(&field.ty)
    }

    /// Whether there is one value for each field, of its type.
    pub fn fits(&self, values: &[Value]) -> bool
        ensures { result ≡ fit_fields self.now.fields values.now }
    {
        fit(&self.fields, values)
    }
}

fn fit(fields: &[DeclaredField], values: &[Value]) -> bool
    ensures { result ≡ fit_fields (map field_seen fields.now) values.now }
{
    if fields.len() != values.len() {
        return false;
    }
    for (i, field) in fields.iter().enumerate() {
        if !field.ty.fits(values[i]) {
            return false;
        }
    }
    true
}

// Whether there are more keys, fields or names than there may be, or not so many sources as there may be.
fn exceed(keys: &[Name], fields: &[Field], sources: &[Name]) -> bool
    ensures { result ≡ is_too_many (declared_of keys.now fields.now sources.now) }
{
    if keys.len() > MAX_NAMES {
        return true;
    }
    if fields.len() > MAX_FIELDS {
        return true;
    }
    if !is_source_count(sources.len()) {
        return true;
    }
    has_wide_field(fields)
}

/// Whether so many sources may be declared: none, or 2 to 16.
pub fn is_source_count(count: usize) -> bool
    ensures { result ≡ is_source_count count }
{
    count == 0 || 2 <= count && count <= MAX_SOURCES
}

fn has_wide_field(fields: &[Field]) -> bool
    ensures { result ≡ list_any (λ f. has_too_many_names (declared_type f.ty)) fields.now }
{
    fields.iter().any(|field| has_many_names(field))
}

fn has_many_names(field: &Field) -> bool
    ensures { result ≡ has_too_many_names (declared_type field.now.ty) }
{
    match &field.ty {
        Ty::Enum(names) => names.len() > MAX_NAMES,
        _ => false,
    }
}

// The fields as they are kept, or the first fault.
fn declare(alloc: Global, fields: &[Field]) -> Result<Vec<DeclaredField>, SchemaRefusal>
    requires { list_any (λ f. has_too_many_names (declared_type f.ty)) fields.now ≡ false }
    ensures kept { IfOk result (λ kept. map field_seen kept.items ≡ map declared_field fields.now) }
    ensures lawful { IfOk result (λ kept. are_fields_after [] (map field_seen kept.items) ≡ true) }
    ensures accepted { IfOk result (λ _. fields_refusal [] (map declared_field fields.now) ≡ None) }
    ensures refused { IfErr result (λ r. (r ≡ SchemaRefusal.Memory) ⊎ (fields_refusal [] (map declared_field fields.now) ≡ Some r)) }
{
    let mut kept: Vec<DeclaredField> = Vec::with_capacity(alloc, fields.len())?;
    for field in fields {
        if has_field(&kept, &field.name) {
            return Err(SchemaRefusal::DuplicateName);
        }
        let ty = FieldType::declare(alloc, &field.ty)?;
        let name = field.name.copied();
        kept.push(DeclaredField { name, ty })?;
    }
    Ok(kept)
}

/// Whether one of these fields has the name.
pub fn has_field(fields: &[DeclaredField], name: &Name) -> bool
    ensures { result ≡ list_any (λ f. bytes_eq name.now f.name) fields.now }
{
    fields.iter().any(|field| *name == field.name)
}

// The names of a type, if it is of names.
fn type_names(ty: &FieldType) -> Option<&Names>
    ensures { option_map (λ names. names.now) result ≡ names_of_type (type_seen ty.now) }
{
    match ty {
        FieldType::Enum(names) => Some(names),
        FieldType::Int { .. } | FieldType::Bool => None,
    }
}
