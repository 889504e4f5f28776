//! What an argument or a column may name: the names of an ENUM, and fields.

ghost use Rattle.std.specs.Prelude.{◌≡◌, length, slice_get};
ghost use Rattle.std.specs.Option.{option_map};
ghost use Rattle.wsm_record.specs.Fields.{type_seen};
ghost use Rattle.wsm_program.specs.Program.{is_name_of, is_number_field};
ghost use Rattle.wsm_record.specs.Schema.{enum_names, names_of_type};

use wsm_record::{FieldType, Schema};

/// How many names the ENUM of a number has, if there is one: 0 is the keys, f + 1 is field f.
pub fn name_count(schema: &Schema, number: u8) -> Option<usize>
    ensures { result ≡ option_map length (enum_names schema.now number) }
{
    if number == 0 {
        return Some(schema.key_count());
    }
    let field = schema.fields().get(number as usize - 1)?;
    count_of(&field.ty)
}

fn count_of(ty: &FieldType) -> Option<usize>
    ensures { result ≡ option_map length (names_of_type (type_seen ty.now)) }
{
    match ty {
        FieldType::Enum(names) => Some(names.len()),
        FieldType::Int { .. } | FieldType::Bool => None,
    }
}

/// Whether the ENUM of a number has a name of a number.
pub fn has_name(schema: &Schema, number: u8, name: u16) -> bool
    ensures { result ≡ is_name_of (enum_names schema.now number) name }
{
    match name_count(schema, number) {
        Some(count) => (name as usize) < count,
        None => false,
    }
}

/// Whether there is a field of a number, and it is one of numbers.
pub fn is_number_field(schema: &Schema, field: u8) -> bool
    ensures { result ≡ is_number_field (slice_get schema.now.fields field) }
{
    match schema.fields().get(field as usize) {
        Some(field) => matches!(field.ty, FieldType::Int { .. }),
        None => false,
    }
}
