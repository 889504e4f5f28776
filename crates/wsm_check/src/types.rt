//! The types of expressions by those of their parts.

ghost use Rattle.std.specs.Prelude.{◌≡◌, ◌<◌};
ghost use Rattle.wsm_record.specs.Fields.{type_seen};
ghost use Rattle.wsm_check.specs.Types as rule;
ghost use Rattle.wsm_check.specs.Types.{choice_ty, logic_ty, op_ty, two_ints, wanted};

use crate::refusal::CheckFault;
use wsm_query::{Comparison, Op};
use wsm_record::limits::MAX_FIELDS;
use wsm_record::{CellType, FieldType};

/// Where an expression stands.
#[derive(Clone, Copy)]
pub enum Around {
    /// In WHERE.
    InWhere,
    /// In a column or in HAVING.
    InColumn,
    /// In the operand of an aggregate.
    InAggregate,
}

/// A type where the operands have the types that are asked for.
pub fn want(holds: bool, ty: CellType) -> Result<CellType, CheckFault>
    ensures { result ≡ wanted holds ty }
{
    if holds { Ok(ty) } else { Err(CheckFault::Type) }
}

/// The type of a choice by those of its test and of what it chooses from.
pub fn type_of_choice(
    test: CellType,
    first: CellType,
    second: CellType,
) -> Result<CellType, CheckFault>
    ensures { result ≡ choice_ty test first second }
{
    want(test == CellType::Bool && first == second, first)
}

/// The type of AND or OR by those of its operands.
pub fn type_of_logic(left: CellType, right: CellType) -> Result<CellType, CheckFault>
    ensures { result ≡ logic_ty left right }
{
    let are_truths = left == CellType::Bool && right == CellType::Bool;
    want(are_truths, CellType::Bool)
}

/// The type of an operator by those of its operands.
pub fn type_of_op(op: Op, left: CellType, right: CellType) -> Result<CellType, CheckFault>
    ensures { result ≡ op_ty op left right }
{
    match op {
        Op::Compute(_) => want(are_numbers(left, right), CellType::Int),
        Op::Compare(comparison) => want(are_comparable(comparison, left, right), CellType::Bool),
    }
}

// Whether values of these types may be compared so: equality takes two of one type, and order two
// numbers.
fn are_comparable(comparison: Comparison, left: CellType, right: CellType) -> bool
    ensures { result ≡ rule.are_comparable comparison left right }
{
    match comparison {
        Comparison::Eq | Comparison::Ne => left == right,
        Comparison::Lt | Comparison::Le | Comparison::Gt | Comparison::Ge => {
            are_numbers(left, right)
        }
    }
}

fn are_numbers(left: CellType, right: CellType) -> bool
    ensures { result ≡ two_ints left right }
{
    left == CellType::Int && right == CellType::Int
}

/// The type of the values of a field.
pub fn declared_ty(number: u8, ty: &FieldType) -> CellType
    requires { number < MAX_FIELDS }
    ensures { result ≡ rule.declared_ty number (type_seen ty.now) }
{
    match ty {
        FieldType::Int { .. } => CellType::Int,
        FieldType::Bool => CellType::Bool,
        FieldType::Enum(_) => CellType::Enum(number + 1),
    }
}
