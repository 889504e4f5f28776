//! Values with their types.

ghost use Rattle.std.specs.Prelude.{◌≡◌};
ghost use Rattle.wsm_record.specs.Types.{cell_of, type_of, value_of};

use crate::event::Value;
use crate::words::CellType;

/// A value with its type. A name has its ENUM's number, as in [`CellType::Enum`], before its own.
#[derive(Clone, Copy, Debug, PartialEq, Eq)]
pub enum Cell {
    /// A whole number.
    Int(i64),
    /// A truth.
    Bool(bool),
    /// The numbers of an ENUM and of one of its names.
    Enum(u8, u16),
}

// What fills the places that hold no value.
impl Default for Cell {
    fn default() -> Self {
        Cell::Bool(false)
    }
}

impl Cell {
    /// A value, which belongs to this ENUM where it is a name.
    pub fn new(number: u8, value: Value) -> Self
        ensures { result ≡ cell_of number value }
    {
        match value {
            Value::Int(n) => Cell::Int(n),
            Value::Bool(b) => Cell::Bool(b),
            Value::Enum(i) => Cell::Enum(number, i),
        }
    }

    /// The type of the value.
    pub fn ty(self) -> CellType
        ensures { result ≡ type_of self }
    {
        match self {
            Cell::Int(_) => CellType::Int,
            Cell::Bool(_) => CellType::Bool,
            Cell::Enum(number, _) => CellType::Enum(number),
        }
    }

    /// The value without its ENUM.
    pub fn value(self) -> Value
        ensures { result ≡ value_of self }
    {
        match self {
            Cell::Int(n) => Value::Int(n),
            Cell::Bool(b) => Value::Bool(b),
            Cell::Enum(_, i) => Value::Enum(i),
        }
    }
}
