//! Whether operands have the types that an instruction takes. The last value of a stack is the first
//! of its list.

ghost use Rattle.std.specs.Prelude.{◌≡◌, ◌*ℤ◌};
ghost use Rattle.wsm_record.specs.Schema.{is_i64};
ghost use Rattle.wsm_rules.specs.Labels as spec;
ghost use Rattle.wsm_rules.specs.Rules as rules;

use wsm_program::{CellType, Instr, Operands, kind_of};
use wsm_record::Kind;
use wsm_rules::Known;

/// Whether the values of two stacks have the same types.
pub(crate) fn have_types_of(stack: &[Known], other: &[Known]) -> bool
    ensures { result ≡ spec.same_types stack.now other.now }
{
    let Some((x, xs)) = stack.split_first() else {
        return other.is_empty();
    };
    let Some((y, ys)) = other.split_first() else {
        return false;
    };
    x.has_type_of(*y) && have_types_of(xs, ys)
}

fn last_has_type(ty: CellType, stack: &[Known]) -> bool
    ensures { result ≡ rules.last_is (rules.has_type ty) stack.now }
{
    match stack {
        [x, ..] => x.is_of(ty),
        [] => false,
    }
}

fn last_are_numbers(stack: &[Known]) -> bool
    ensures { result ≡ rules.last_two rules.numbers stack.now }
{
    matches!(stack, [Known::Number(_), Known::Number(_), ..])
}

fn last_have_one_type(stack: &[Known]) -> bool
    ensures { result ≡ rules.last_two spec.same_type stack.now }
{
    match stack {
        [y, x, ..] => x.has_type_of(*y),
        _ => false,
    }
}

/// Whether a divisor's interval has 0 inside.
pub(crate) fn may_divide_by_zero(instr: Instr, stack: &[Known]) -> bool
    ensures { result ≡ rules.may_divide_by_zero instr stack.now }
{
    instr.divides() && last_may_be_zero(stack)
}

// Whether the last of two values is a number whose interval has 0 inside.
fn last_may_be_zero(stack: &[Known]) -> bool
    ensures { result ≡ rules.last_two rules.has_zero stack.now }
{
    match stack {
        [Known::Number(divisor), _, ..] => divisor.holds(0),
        _ => false,
    }
}

// Whether the last values have the types of such operands.
fn have_types(operands: Operands, stack: &[Known]) -> bool
    ensures { result ≡ rules.operands_fit operands stack.now }
{
    match operands {
        Operands::Nothing => true,
        Operands::One(ty) => last_has_type(ty, stack),
        Operands::Numbers => last_are_numbers(stack),
        Operands::Alike => last_have_one_type(stack),
    }
}

/// Whether operands have the types that an instruction takes. At the end of a section the
/// stack is exactly what it ends with.
pub(crate) fn fit(kinds: &[Kind], ends: &[Known], instr: Instr, stack: &[Known]) -> bool
    ensures { result ≡ rules.types_fit kinds.now ends.now instr stack.now }
{
    if instr.ends() {
        have_types_of(stack, ends)
    } else {
        have_types(instr.operands(kinds), stack)
    }
}

/// Whether all records together could take a sum out of 64 bits, by what an instruction folds.
pub(crate) fn sum_may_leave(records: i64, kinds: &[Kind], instr: Instr, stack: &[Known]) -> bool
    ensures { result ≡ rules.accumulator_leaves records kinds.now instr stack.now }
{
    match (instr.folds(), stack) {
        (Some(accumulator), [value, ..]) => {
            sum_leaves(records, kind_of(kinds, accumulator), *value)
        }
        (Some(_), []) | (None, _) => false,
    }
}

fn sum_leaves(records: i64, kind: Kind, value: Known) -> bool
    ensures { result ≡ rules.sum_leaves records kind value }
{
    match (kind, value) {
        (Kind::Sum, Known::Number(x)) => {
            !(is_product_small(records, x.lo) && is_product_small(records, x.hi))
        }
        _ => false,
    }
}

// Whether a product has 64 bits.
fn is_product_small(a: i64, b: i64) -> bool
    ensures { result ≡ is_i64 (a *ℤ b) }
{
    a.checked_mul(b).is_some()
}
