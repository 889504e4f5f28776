//! Values on the stack.

ghost use Rattle.std.specs.Prelude.{◌≡◌, Some, false};
ghost use Rattle.wsm_machine.specs.Step.{cell_of as the_cell, is_same as is_same_of, is_passed as is_passed_of, overflows};

use wsm_program::FieldTest;
use wsm_record::{Cell, Value};

/// A value, which belongs to this ENUM where it is a name.
pub(crate) fn cell_of(number: u8, value: Value) -> Cell
    ensures cell { result ≡ the_cell number value }
    ensures fits { overflows (Some result) ≡ false }
{
    Cell::new(number, value)
}

/// Whether two values of one type are the same.
pub(crate) fn is_same(left: Cell, right: Cell) -> bool
    ensures { result ≡ is_same_of left right }
{
    match (left, right) {
        (Cell::Int(x), Cell::Int(y)) => x == y,
        (Cell::Bool(x), Cell::Bool(y)) => x == y,
        (Cell::Enum(_, x), Cell::Enum(_, y)) => x == y,
        _ => false,
    }
}

/// Whether a test is true of a value of its field.
pub(crate) fn is_passed(test: FieldTest, value: Value) -> bool
    ensures { result ≡ is_passed_of test (Some value) }
{
    match value {
        Value::Int(n) => test.passes(n),
        Value::Bool(_) | Value::Enum(_) => false,
    }
}
