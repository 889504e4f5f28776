//! Instructions and sections.

ghost use Rattle.std.specs.Prelude.{◌≡◌, ◌<◌, ◌^◌, ℕ, nat_lt};
ghost use Rattle.std.specs.Int.{w8};
ghost use Rattle.wsm_program.specs.View.{header_of};
ghost use Rattle.wsm_bytecode.specs.Steps.{judged, number_at};
ghost use Rattle.wsm_bytecode.specs.Reading.{Gives, push_int_at, push_bool_at, push_enum_at, index_at, target_at, comparison_at, number_field_at, field_test_at, test_at, test_by, instr_by, instr_at, code_at};
ghost use Rattle.wsm_program.specs.declared.instr.Instr.TheVariants.{Field, Acc, Fold, Jump, JumpIfFalse};

use crate::limits::MAX_SECTION;
use crate::reading::header::enum_of;
use crate::reading::numbers::{byte_of, i64_of, several_of, truth_of, u16_of, u16_within};
use crate::version::Version;
use std::alloc::Global;
use wsm_program::named::{has_name, is_number_field};
use wsm_program::{
    Comparison, DecodeRefusal, FieldTest, Header, Instr, Opcode, Section, comparison_of_number,
};
use wsm_record::Schema;

/// The number of instructions, and these.
#[tactic(auto, unfolding(crate::specs::Reading::code_at))]
pub(crate) fn section_of<'a>(
    alloc: Global,
    version: Version,
    header: &Header,
    bytes: &'a [u8],
) -> Result<(Section, &'a [u8]), DecodeRefusal>
    ensures { Gives (λ x. (x.0.items, x.1.now)) result (code_at version (header_of header.now) bytes.now) }
{
    let (count, rest) = u16_within(bytes, 0, MAX_SECTION)?;
    several_of(alloc, rest, count, |rest| instr_of(version, header, rest))
}

#[tactic(auto, unfolding(crate::specs::Reading::instr_at))]
fn instr_of<'a>(
    version: Version,
    header: &Header,
    bytes: &'a [u8],
) -> Result<(Instr, &'a [u8]), DecodeRefusal>
    ensures { Gives (λ x. (x.0, x.1.now)) result (instr_at version (header_of header.now) bytes.now) }
{
    let (code, rest) = byte_of(bytes)?;
    let opcode = Opcode::of_code(code).ok_or(DecodeRefusal::UnknownOpcode)?;
    instr_of_opcode(version, header, opcode, rest)
}

// The operands of the instruction of an opcode, which stand behind its code.
#[tactic(auto, unfolding(crate::specs::Reading::instr_by))]
fn instr_of_opcode<'a>(
    version: Version,
    header: &Header,
    opcode: Opcode,
    bytes: &'a [u8],
) -> Result<(Instr, &'a [u8]), DecodeRefusal>
    ensures { Gives (λ x. (x.0, x.1.now)) result (instr_by version (header_of header.now) opcode bytes.now) }
{
    match opcode {
        Opcode::PushInt => push_int_of(bytes),
        Opcode::PushBool => push_bool_of(bytes),
        Opcode::PushEnum => push_enum_of(&header.schema, bytes),
        Opcode::Field => index_of(header.schema.fields().len(), bytes, Instr::Field),
        Opcode::Key => Ok((Instr::Key, bytes)),
        Opcode::Acc => index_of(header.kinds.len(), bytes, Instr::Acc),
        Opcode::Count => Ok((Instr::Count, bytes)),
        Opcode::Compute(arithmetic) => Ok((Instr::Compute(arithmetic), bytes)),
        Opcode::Neg => Ok((Instr::Neg, bytes)),
        Opcode::Compare(comparison) => Ok((Instr::Compare(comparison), bytes)),
        Opcode::Not => Ok((Instr::Not, bytes)),
        Opcode::Jump => target_of(bytes, Instr::Jump),
        Opcode::JumpIfFalse => target_of(bytes, Instr::JumpIfFalse),
        Opcode::Test => test_in(version, &header.schema, bytes),
        Opcode::Fold => index_of(header.kinds.len(), bytes, Instr::Fold),
        Opcode::Return => Ok((Instr::Return, bytes)),
    }
}

#[tactic(auto, unfolding(crate::specs::Reading::push_int_at))]
fn push_int_of(bytes: &[u8]) -> Result<(Instr, &[u8]), DecodeRefusal>
    ensures { Gives (λ x. (x.0, x.1.now)) result (push_int_at bytes.now) }
{
    let (number, rest) = i64_of(bytes)?;
    Ok((Instr::PushInt(number), rest))
}

#[tactic(auto, unfolding(crate::specs::Reading::push_bool_at))]
fn push_bool_of(bytes: &[u8]) -> Result<(Instr, &[u8]), DecodeRefusal>
    ensures { Gives (λ x. (x.0, x.1.now)) result (push_bool_at bytes.now) }
{
    let (truth, rest) = truth_of(bytes)?;
    Ok((Instr::PushBool(truth), rest))
}

// The ENUM is judged at its own byte, its name's number behind it.
#[tactic(auto, unfolding(crate::specs::Reading::push_enum_at, crate::specs::Steps::enum_number_at))]
fn push_enum_of<'a>(schema: &Schema, bytes: &'a [u8]) -> Result<(Instr, &'a [u8]), DecodeRefusal>
    ensures { Gives (λ x. (x.0, x.1.now)) result (push_enum_at schema.now bytes.now) }
{
    let (number, rest) = enum_of(schema, bytes)?;
    let (name, rest) = u16_of(rest)?;
    if !has_name(schema, number, name) {
        return Err(DecodeRefusal::Operand);
    }
    Ok((Instr::PushEnum(number, name), rest))
}

// An instruction that names one of so many by its number.
#[tactic(auto, unfolding(crate::specs::Reading::index_at))]
fn index_of<F: Fn(u8) -> Instr>(
    count: usize,
    bytes: &[u8],
    instr: F,
) -> Result<(Instr, &[u8]), DecodeRefusal>
    requires { F.IsAlwaysCallable instr }
    ensures { (by : ℕ → Instr) → ((i : ℕ) (r : Instr) → i < 2 ^ 8 → F.post instr i r → r ≡ by i) → Gives (λ x. (x.0, x.1.now)) result (index_at count by bytes.now) }
{
    let (index, rest) = byte_below(bytes, count)?;
    Ok((instr(index), rest))
}

// An instruction that names a place.
#[tactic(auto, unfolding(crate::specs::Reading::target_at))]
fn target_of<F: Fn(u16) -> Instr>(bytes: &[u8], instr: F) -> Result<(Instr, &[u8]), DecodeRefusal>
    requires { F.IsAlwaysCallable instr }
    ensures { (by : ℕ → Instr) → ((i : ℕ) (r : Instr) → i < 2 ^ 16 → F.post instr i r → r ≡ by i) → Gives (λ x. (x.0, x.1.now)) result (target_at by bytes.now) }
{
    let (target, rest) = u16_of(bytes)?;
    Ok((instr(target), rest))
}

// Version 1 has no test.
fn test_in<'a>(
    version: Version,
    schema: &Schema,
    bytes: &'a [u8],
) -> Result<(Instr, &'a [u8]), DecodeRefusal>
    ensures { Gives (λ x. (x.0, x.1.now)) result (test_by version schema.now.fields bytes.now) }
{
    match version {
        Version::One => Err(DecodeRefusal::UnknownOpcode),
        Version::Two => test_of(schema, bytes),
    }
}

#[tactic(auto, unfolding(crate::specs::Reading::test_at))]
fn test_of<'a>(schema: &Schema, bytes: &'a [u8]) -> Result<(Instr, &'a [u8]), DecodeRefusal>
    ensures { Gives (λ x. (x.0, x.1.now)) result (test_at schema.now.fields bytes.now) }
{
    let (test, rest) = field_test_of(schema, bytes)?;
    let (target, rest) = u16_of(rest)?;
    Ok((Instr::Test(test, target), rest))
}

// The field and the comparison are judged at their own bytes.
#[tactic(auto, unfolding(crate::specs::Reading::field_test_at))]
fn field_test_of<'a>(
    schema: &Schema,
    bytes: &'a [u8],
) -> Result<(FieldTest, &'a [u8]), DecodeRefusal>
    ensures { Gives (λ x. (x.0, x.1.now)) result (field_test_at schema.now.fields bytes.now) }
{
    let (field, rest) = number_field_of(schema, bytes)?;
    let (comparison, rest) = comparison_of(rest)?;
    let (number, rest) = i64_of(rest)?;
    let test = FieldTest {
        field,
        comparison,
        number,
    };
    Ok((test, rest))
}

#[tactic(auto, unfolding(crate::specs::Reading::number_field_at))]
fn number_field_of<'a>(schema: &Schema, bytes: &'a [u8]) -> Result<(u8, &'a [u8]), DecodeRefusal>
    ensures { Gives (λ x. (x.0, x.1.now)) result (number_field_at schema.now.fields bytes.now) }
{
    let (field, rest) = byte_of(bytes)?;
    if !is_number_field(schema, field) {
        return Err(DecodeRefusal::Operand);
    }
    Ok((field, rest))
}

#[tactic(auto, unfolding(crate::specs::Reading::comparison_at))]
fn comparison_of(bytes: &[u8]) -> Result<(Comparison, &[u8]), DecodeRefusal>
    ensures { Gives (λ x. (x.0, x.1.now)) result (comparison_at bytes.now) }
{
    let (number, rest) = byte_of(bytes)?;
    let comparison = comparison_of_number(number).ok_or(DecodeRefusal::Operand)?;
    Ok((comparison, rest))
}

// A byte that is less than a count.
fn byte_below(bytes: &[u8], count: usize) -> Result<(u8, &[u8]), DecodeRefusal>
    ensures { Gives (λ x. (x.0, x.1.now)) result (judged (λ i. nat_lt i count) (number_at w8 bytes.now)) }
{
    let (number, rest) = byte_of(bytes)?;
    if number as usize >= count {
        return Err(DecodeRefusal::Operand);
    }
    Ok((number, rest))
}
