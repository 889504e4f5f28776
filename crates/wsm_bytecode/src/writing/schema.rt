//! Keys, fields and sources.

ghost use Rattle.std.specs.Prelude.{◌≡◌, ◌++◌, ◌<◌, ◌&&◌, map, length, OnOk, IsTrue};
ghost use Rattle.std.specs.List.{flat_map, list_all};
ghost use Rattle.wsm_record.specs.Name.{is_name};
ghost use Rattle.wsm_record.specs.Fields.{type_seen, field_seen};
ghost use Rattle.wsm_record.specs.Schema.{is_field_type};
ghost use Rattle.wsm_bytecode.specs.Parts.{name as name_bytes, names as names_bytes, sources as sources_bytes, field_type as type_bytes, field as field_bytes, fields as fields_bytes};

use crate::tags::{TypeTag, type_tag};
use crate::writing::numbers::{put_two, put_u8, put_u16};
use std::alloc::AllocError;
use wsm_record::{DeclaredField, FieldType, Names};

/// The number of fields, and these.
pub(crate) fn put_fields(out: &mut Vec<u8>, fields: &[DeclaredField]) -> Result<(), AllocError>
    requires count { length fields.now < 256 }
    requires lawful { IsTrue (list_all (λ f. is_name f.name && is_field_type (type_seen f.ty)) fields.now) }
    ensures { OnOk result (out.new.items ≡ out.old.items ++ fields_bytes (map field_seen fields.now)) }
{
    put_u8(out, fields.len() as u8)?;
    for field in fields {
        put_field(out, field)?;
    }
    Ok(())
}

fn put_field(out: &mut Vec<u8>, field: &DeclaredField) -> Result<(), AllocError>
    requires { IsTrue (is_name field.now.name && is_field_type (type_seen field.now.ty)) }
    ensures { OnOk result (out.new.items ≡ out.old.items ++ field_bytes (field_seen field.now)) }
{
    put_name(out, field.name.as_bytes())?;
    put_type(out, &field.ty)
}

fn put_type(out: &mut Vec<u8>, ty: &FieldType) -> Result<(), AllocError>
    requires { IsTrue (is_field_type (type_seen ty.now)) }
    ensures { OnOk result (out.new.items ≡ out.old.items ++ type_bytes (type_seen ty.now)) }
{
    match ty {
        FieldType::Int { lo, hi } => {
            put_u8(out, type_tag(TypeTag::Int))?;
            put_two(out, *lo, *hi)
        }
        FieldType::Bool => put_u8(out, type_tag(TypeTag::Bool)),
        FieldType::Enum(names) => {
            put_u8(out, type_tag(TypeTag::Enum))?;
            put_names(out, names)
        }
    }
}

/// The number of names in two bytes, and these.
pub(crate) fn put_names(out: &mut Vec<u8>, names: &Names) -> Result<(), AllocError>
    requires { IsTrue (list_all is_name names.now) }
    ensures { OnOk result (out.new.items ≡ out.old.items ++ names_bytes names.now) }
{
    put_u16(out, names.len() as u16)?;
    put_each(out, names)
}

/// The number of sources in one byte, and these.
pub(crate) fn put_sources(out: &mut Vec<u8>, sources: &Names) -> Result<(), AllocError>
    requires count { length sources.now < 256 }
    requires lawful { IsTrue (list_all is_name sources.now) }
    ensures { OnOk result (out.new.items ≡ out.old.items ++ sources_bytes sources.now) }
{
    put_u8(out, sources.len() as u8)?;
    put_each(out, sources)
}

fn put_each(out: &mut Vec<u8>, names: &Names) -> Result<(), AllocError>
    requires { IsTrue (list_all is_name names.now) }
    ensures { OnOk result (out.new.items ≡ out.old.items ++ flat_map name_bytes names.now) }
{
    for number in 0..names.len() as u16 {
        put_name(out, names.text_of(number))?;
    }
    Ok(())
}

fn put_name(out: &mut Vec<u8>, name: &[u8]) -> Result<(), AllocError>
    requires { length name.now < 256 }
    ensures { OnOk result (out.new.items ≡ out.old.items ++ name_bytes name.now) }
{
    put_u8(out, name.len() as u8)?;
    out.extend_from_slice(name)
}
