//! What a section and an instruction are printed as.

use crate::comparison::comparison_number;
use crate::instr::{Argument, FieldTest, Instr, SectionId};
use std::fmt;

impl fmt::Display for SectionId {
    ghost use Rattle.std.specs.Prelude.{Some};
    ghost use Rattle.wsm_program.specs.Text.{section_name};

    ghost output = { λ id. Some (section_name id) };

    fn fmt<W: fmt::Write>(&self, f: &mut fmt::Formatter<W>) -> fmt::Result {
        match self {
            SectionId::Where => f.write_str("where"),
            SectionId::Update => f.write_str("update"),
            SectionId::Fire => f.write_str("fire"),
        }
    }
}

/// The name, and the operands in decimal.
impl fmt::Display for Instr {
    ghost use Rattle.std.specs.Prelude.{Some};
    ghost use Rattle.wsm_program.specs.Text.{instr_text};

    ghost output = { λ instr. Some (instr_text instr) };

    fn fmt<W: fmt::Write>(&self, f: &mut fmt::Formatter<W>) -> fmt::Result {
        let name = self.name();
        match self.argument() {
            Argument::Nothing => f.write_str(name),
            Argument::Number(value) => write!(f, "{name} {value}"),
            Argument::Truth(truth) => write!(f, "{name} {}", u8::from(truth)),
            Argument::Name(list, number) => write!(f, "{name} {list} {number}"),
            Argument::Field(index) | Argument::Accumulator(index) => write!(f, "{name} {index}"),
            Argument::Target(target) => write!(f, "{name} {target}"),
            Argument::Test(test, target) => {
                let FieldTest {
                    field,
                    comparison,
                    number,
                } = test;
                let comparison = comparison_number(comparison);
                write!(f, "{name} {field} {comparison} {number} {target}")
            }
        }
    }
}
