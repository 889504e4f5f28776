//! What an instruction takes from the stack.

ghost use Rattle.std.specs.Prelude.{◌≡◌, ◌≤◌};
ghost use Rattle.wsm_program.specs.Operands as spec;

use wsm_record::CellType;

/// What an instruction takes from the stack.
#[derive(Clone, Copy, Debug, PartialEq, Eq)]
pub enum Operands {
    /// Nothing.
    Nothing,
    /// A value of a type.
    One(CellType),
    /// Two numbers.
    Numbers,
    /// Two values of one type.
    Alike,
}

impl Operands {
    /// How many they are.
    pub fn count(self) -> usize
        ensures taken { result ≡ spec.how_many self }
        ensures few { result ≤ 2 }
    {
        match self {
            Operands::Nothing => 0,
            Operands::One(_) => 1,
            Operands::Numbers | Operands::Alike => 2,
        }
    }
}
