//! Names of expressions, found in the schema.

ghost use Rattle.std.specs.Prelude.{◌≡◌, ◌≤◌, suc, map, length, Ok, Some, true, false, IfOk, IfErr, MatchOption};
ghost use Rattle.wsm_record.specs.Name as rule;
ghost use Rattle.wsm_record.specs.Fields.{field_seen, type_seen};
ghost use Rattle.wsm_check.specs.Names.{Found, IsListed, field_names, field_place, name_place, names_of, place_of};
ghost use Rattle.wsm_check.specs.Checks.{typed_refusal};
ghost use Rattle.wsm_check.specs.Seen.{seen_term};
ghost use Rattle.wsm_check.specs.Terms as terms;
ghost use Rattle.wsm_check.specs.Types.{key_ty, name_ty, read_ty};

use crate::refusal::{CheckFault, CheckRefusal, Part};
use crate::resolve::Place;
use crate::term::Term;
use crate::types::{Around, declared_ty};
use wsm_record::limits::MAX_FIELDS;
use wsm_record::{CellType, DeclaredField, FieldType, Name, Names, Schema};

/// The type and the term of a field, where it may be read.
pub fn field_at(
    schema: &Schema,
    place: Place,
    name: &Name,
) -> Result<(CellType, Term), CheckRefusal>
    requires { length schema.now.fields ≤ MAX_FIELDS }
    ensures typed { IfOk result (λ t. read_ty schema.now.fields place.around name.now ≡ Ok t.0) }
    ensures term { IfOk result (λ t. seen_term t.1 ≡ terms.Field (field_place schema.now.fields name.now)) }
    ensures refused { IfErr result (λ r. typed_refusal place.part (read_ty schema.now.fields place.around name.now) ≡ Some r) }
{
    let Some((number, ty)) = field_named(schema.fields(), name) else {
        return Err(unknown(place.part));
    };
    match place.around {
        Around::InWhere | Around::InAggregate => {
            Ok((declared_ty(number, ty), Term::Field(number)))
        }
        Around::InColumn => Err(CheckRefusal::Fault(CheckFault::FieldOutsideAggregate, place.part)),
    }
}

/// The type and the term of a name of a field's ENUM.
pub fn name_at(
    schema: &Schema,
    part: Part,
    field: &Name,
    name: &Name,
) -> Result<(CellType, Term), CheckRefusal>
    requires { length schema.now.fields ≤ MAX_FIELDS }
    ensures typed { IfOk result (λ t. name_ty schema.now.fields field.now name.now ≡ Ok t.0) }
    ensures term { IfOk result (λ t. seen_term t.1
        ≡ terms.Name (suc (field_place schema.now.fields field.now)) (name_place schema.now.fields field.now name.now)) }
    ensures refused { IfErr result (λ r. typed_refusal part (name_ty schema.now.fields field.now name.now) ≡ Some r) }
{
    let Some((number, ty)) = field_named(schema.fields(), field) else {
        return Err(unknown(part));
    };
    match number_in_type(ty, name) {
        Some(place) => Ok((CellType::Enum(number + 1), Term::Name(number + 1, place))),
        None => Err(unknown(part)),
    }
}

/// The type and the term of a key.
pub fn key_at(schema: &Schema, part: Part, name: &Name) -> Result<(CellType, Term), CheckRefusal>
    ensures typed { IfOk result (λ t. key_ty schema.now.keys name.now ≡ Ok t.0) }
    ensures term { IfOk result (λ t. seen_term t.1 ≡ terms.Name 0 (place_of name.now schema.now.keys)) }
    ensures refused { IfErr result (λ r. typed_refusal part (key_ty schema.now.keys name.now) ≡ Some r) }
{
    match number_in(schema.keys(), name) {
        Some(number) => Ok((CellType::Enum(0), Term::Name(0, number))),
        None => Err(unknown(part)),
    }
}

fn unknown(part: Part) -> CheckRefusal
    ensures { result ≡ CheckRefusal.Fault CheckFault.UnknownName part }
{
    CheckRefusal::Fault(CheckFault::UnknownName, part)
}

// The first field of a name: its number and its type.
fn field_named<'a>(fields: &'a [DeclaredField], name: &Name) -> Option<(u8, &'a FieldType)>
    requires { length fields.now ≤ MAX_FIELDS }
    ensures { MatchOption result
        (rule.is_among name.now (field_names (map field_seen fields.now)) ≡ false)
        (λ found. Found (map field_seen fields.now) name.now found.0 (type_seen found.1.now)) }
{
    for (number, field) in fields.iter().enumerate() {
        if *name == field.name {
            return Some((number as u8, &field.ty));
        }
    }
    None
}

// The number of a name in the list of its type, which has one where it is an ENUM.
fn number_in_type(ty: &FieldType, name: &Name) -> Option<u16>
    ensures { MatchOption result (rule.is_among name.now (names_of (type_seen ty.now)) ≡ false) (λ n. IsListed (names_of (type_seen ty.now)) name.now n) }
{
    match ty {
        FieldType::Enum(names) => number_in(names, name),
        FieldType::Int { .. } | FieldType::Bool => None,
    }
}

fn number_in(names: &Names, name: &Name) -> Option<u16>
    ensures { MatchOption result (rule.is_among name.now names.now ≡ false) (λ n. IsListed names.now name.now n) }
{
    names.number_of(name.as_bytes())
}
