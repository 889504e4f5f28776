//! Instructions and sections.

ghost use Rattle.std.specs.Prelude.{◌≡◌, ◌<◌, ◌++◌, length, OnOk};
ghost use Rattle.wsm_program.specs.Comparisons.{comparison_number};
ghost use Rattle.wsm_bytecode.specs.Parts.{byte, number, signed, code as section_bytes, instr as instr_bytes, argument as argument_bytes};

use crate::writing::numbers::{put_i64, put_u8, put_u16};
use std::alloc::AllocError;
use wsm_program::{Argument, FieldTest, Instr, comparison_number};

/// The number of instructions, and these.
#[tactic(auto, unfolding(crate::specs::Parts::code))]
pub(crate) fn put_section(out: &mut Vec<u8>, instrs: &[Instr]) -> Result<(), AllocError>
    requires { length instrs.now < 65536 }
    ensures { OnOk result (out.new.items ≡ out.old.items ++ section_bytes instrs.now) }
{
    put_u16(out, instrs.len() as u16)?;
    for instr in instrs {
        put_instr(out, *instr)?;
    }
    Ok(())
}

#[tactic(auto, unfolding(crate::specs::Parts::instr))]
fn put_instr(out: &mut Vec<u8>, instr: Instr) -> Result<(), AllocError>
    ensures { OnOk result (out.new.items ≡ out.old.items ++ instr_bytes instr) }
{
    put_u8(out, instr.code())?;
    put_argument(out, instr.argument())
}

fn put_argument(out: &mut Vec<u8>, argument: Argument) -> Result<(), AllocError>
    ensures { OnOk result (out.new.items ≡ out.old.items ++ argument_bytes argument) }
{
    match argument {
        Argument::Nothing => Ok(()),
        Argument::Number(value) => put_i64(out, value),
        Argument::Truth(truth) => put_u8(out, u8::from(truth)),
        Argument::Name(list, name) => put_name_of(out, list, name),
        Argument::Field(index) | Argument::Accumulator(index) => put_u8(out, index),
        Argument::Target(target) => put_u16(out, target),
        Argument::Test(test, target) => {
            put_test(out, test)?;
            put_u16(out, target)
        }
    }
}

fn put_test(out: &mut Vec<u8>, test: FieldTest) -> Result<(), AllocError>
    ensures { OnOk result (out.new.items ≡ out.old.items ++ (byte test.field ++ (byte (comparison_number test.comparison) ++ signed test.number))) }
{
    put_u8(out, test.field)?;
    put_u8(out, comparison_number(test.comparison))?;
    put_i64(out, test.number)
}

fn put_name_of(out: &mut Vec<u8>, list: u8, name: u16) -> Result<(), AllocError>
    ensures { OnOk result (out.new.items ≡ out.old.items ++ (byte list ++ number name)) }
{
    put_u8(out, list)?;
    put_u16(out, name)
}
