//! Expressions, judged and resolved in one walk.

ghost use Rattle.std.specs.Prelude.{◌≡◌, ◌≤◌, ◌<◌, ◌⊎◌, map, length, true, Some, IfOk, IfErr, OnOk};
ghost use Rattle.wsm_record.specs.Types.{is_type, kind_type};
ghost use Rattle.wsm_record.specs.declared.words.CellType.TheVariants as types;
ghost use Rattle.wsm_query.specs.Tree.{Query, Aggregate};
ghost use Rattle.wsm_query.specs.Seen.{seen_expr};
ghost use Rattle.wsm_check.specs.Names.{schema_of};
ghost use Rattle.wsm_check.specs.Checks.{typed_refusal};
ghost use Rattle.wsm_check.specs.Resolved.{IsRefused, Resolves, ResolvesAs, joined, two_ty};
ghost use Rattle.wsm_check.specs.Seen.{seen_folding, seen_term};
ghost use Rattle.wsm_check.specs.Terms as terms;
ghost use Rattle.wsm_check.specs.Types.{InColumn, Typed, entered, typed, typed_as};

use crate::names::{field_at, key_at, name_at};
use crate::parts::Folding;
use crate::refusal::{CheckFault, CheckRefusal, Part};
use crate::term::Term;
use crate::types::{Around, type_of_choice, type_of_logic, type_of_op, want};
use std::alloc::Global;
use wsm_query::Expr;
use wsm_record::limits::MAX_FIELDS;
use wsm_record::{CellType, Kind, Schema};

/// Where an expression stands.
#[derive(Clone, Copy)]
pub struct Place {
    /// The part of the query that its faults are told of.
    pub part: Part,
    /// What may stand there.
    pub around: Around,
}

/// The type and the term of an expression, or its first fault: its parts are walked from the left,
/// and before itself. Each of its aggregates gets an accumulator behind those that are there.
#[cycle(resolve)]
#[tactic(auto, using(crate::proofs::Resolving::forms))]
pub fn resolve(
    alloc: Global,
    schema: &Schema,
    place: Place,
    expr: &Expr,
    foldings: &mut Vec<Folding>,
) -> Result<(CellType, Term), CheckRefusal>
    requires { length schema.now.fields ≤ MAX_FIELDS }
    ensures resolved { (q : Query) → schema.now ≡ schema_of q →
        IfOk result (λ t. Resolves q place.around (seen_expr expr.now) (map seen_folding foldings.old.items) (map seen_folding foldings.new.items) t.0 (seen_term t.1)) }
    ensures refused { (q : Query) → schema.now ≡ schema_of q → IfErr result (λ r. IsRefused place.part (typed q place.around (seen_expr expr.now)) r) }
{
    match expr {
        Expr::Number(number) => Ok((CellType::Int, Term::Number(*number))),
        Expr::Truth(truth) => Ok((CellType::Bool, Term::Truth(*truth))),
        Expr::Field(field) => field_at(schema, place, field),
        Expr::EnumName(field, name) => name_at(schema, place.part, field, name),
        Expr::Key => Ok((CellType::Enum(0), Term::Key)),
        Expr::KeyName(name) => key_at(schema, place.part, name),
        Expr::Count => count(place),
        Expr::Aggregate(kind, operand) => {
            aggregate(alloc, schema, place, *kind, operand, foldings)
        }
        Expr::If(test, first, second) => {
            let test = boxed(alloc, schema, place, test, foldings)?;
            let first = boxed(alloc, schema, place, first, foldings)?;
            let second = boxed(alloc, schema, place, second, foldings)?;
            let ty = told(place.part, type_of_choice(test.0, first.0, second.0))?;
            Ok((ty, Term::If(test.1, first.1, second.1)))
        }
        Expr::Brackets(inner) => resolve(alloc, schema, place, inner, foldings),
        Expr::Minus(operand) => {
            let operand = boxed_as(alloc, schema, place, CellType::Int, operand, foldings)?;
            Ok((CellType::Int, Term::Minus(operand)))
        }
        Expr::Not(operand) => {
            let operand = boxed_as(alloc, schema, place, CellType::Bool, operand, foldings)?;
            Ok((CellType::Bool, Term::Not(operand)))
        }
        Expr::Binary(_, left, right) | Expr::And(left, right) | Expr::Or(left, right) => {
            let left = boxed(alloc, schema, place, left, foldings)?;
            let right = boxed(alloc, schema, place, right, foldings)?;
            let ty = told(place.part, type_of_two(expr, left.0, right.0))?;
            Ok((ty, joined(expr, left.1, right.1)))
        }
    }
}

// The terms of two operands, joined as the expression joins them.
fn joined(expr: &Expr, left: Box<Term>, right: Box<Term>) -> Term
    ensures { seen_term result ≡ joined (seen_expr expr.now) (seen_term left.value) (seen_term right.value) }
{
    match expr {
        Expr::Binary(op, _, _) => Term::Binary(*op, left, right),
        Expr::And(_, _) => Term::And(left, right),
        _ => Term::Or(left, right),
    }
}

// The type of what joins two operands of these types, or its fault.
fn type_of_two(expr: &Expr, left: CellType, right: CellType) -> Result<CellType, CheckFault>
    ensures { result ≡ two_ty (seen_expr expr.now) left right }
{
    match expr {
        Expr::Binary(op, _, _) => type_of_op(*op, left, right),
        _ => type_of_logic(left, right),
    }
}

// A type, or a fault told of its part.
fn told(part: Part, ty: Result<CellType, CheckFault>) -> Result<CellType, CheckRefusal>
    ensures typed { IfOk result (λ t. ty ≡ Ok t) }
    ensures refused { IfErr result (λ r. typed_refusal part ty ≡ Some r) }
{
    match ty {
        Ok(ty) => Ok(ty),
        Err(fault) => Err(CheckRefusal::Fault(fault, part)),
    }
}

// The type and the term of COUNT(*), where it may stand.
fn count(place: Place) -> Result<(CellType, Term), CheckRefusal>
    ensures typed { IfOk result (λ t. entered place.around (Ok types.Int) ≡ Ok t.0) }
    ensures term { IfOk result (λ t. seen_term t.1 ≡ terms.Count) }
    ensures refused { IfErr result (λ r. typed_refusal place.part (entered place.around (Ok types.Int)) ≡ Some r) }
{
    enter(place)?;
    Ok((CellType::Int, Term::Count))
}

// That an aggregate may stand there, as COUNT(*) is one too.
fn enter(place: Place) -> Result<(), CheckRefusal>
    ensures column { OnOk result (place.around ≡ InColumn) }
    ensures refused { IfErr result (λ r. (x : Typed) → typed_refusal place.part (entered place.around x) ≡ Some r) }
{
    match place.around {
        Around::InColumn => Ok(()),
        Around::InWhere => Err(CheckRefusal::Fault(CheckFault::AggregateInWhere, place.part)),
        Around::InAggregate => Err(CheckRefusal::Fault(CheckFault::AggregateNested, place.part)),
    }
}

#[cycle(resolve)]
fn boxed(
    alloc: Global,
    schema: &Schema,
    place: Place,
    expr: &Expr,
    foldings: &mut Vec<Folding>,
) -> Result<(CellType, Box<Term>), CheckRefusal>
    requires { length schema.now.fields ≤ MAX_FIELDS }
    ensures resolved { (q : Query) → schema.now ≡ schema_of q →
        IfOk result (λ t. Resolves q place.around (seen_expr expr.now) (map seen_folding foldings.old.items) (map seen_folding foldings.new.items) t.0 (seen_term t.1.value)) }
    ensures refused { (q : Query) → schema.now ≡ schema_of q → IfErr result (λ r. IsRefused place.part (typed q place.around (seen_expr expr.now)) r) }
{
    let (ty, term) = resolve(alloc, schema, place, expr, foldings)?;
    Ok((ty, Box::new(alloc, term)?))
}

/// The term of an expression that is to have a type.
#[cycle(resolve)]
#[tactic(auto, using(crate::proofs::Resolving::forms))]
pub fn boxed_as(
    alloc: Global,
    schema: &Schema,
    place: Place,
    ty: CellType,
    expr: &Expr,
    foldings: &mut Vec<Folding>,
) -> Result<Box<Term>, CheckRefusal>
    requires { length schema.now.fields ≤ MAX_FIELDS }
    ensures resolved { (q : Query) → schema.now ≡ schema_of q →
        IfOk result (λ b. ResolvesAs q place.around ty (seen_expr expr.now) (map seen_folding foldings.old.items) (map seen_folding foldings.new.items) (seen_term b.value)) }
    ensures refused { (q : Query) → schema.now ≡ schema_of q →
        IfErr result (λ r. IsRefused place.part (typed_as ty (typed q place.around (seen_expr expr.now))) r) }
{
    let (given, term) = boxed(alloc, schema, place, expr, foldings)?;
    told(place.part, want(given == ty, ty))?;
    Ok(term)
}

// The accumulator of an aggregate, which stands in a column or in HAVING alone. Its operand has none.
#[cycle(resolve)]
#[tactic(auto, using(crate::proofs::Resolving::forms))]
fn aggregate(
    alloc: Global,
    schema: &Schema,
    place: Place,
    kind: Kind,
    operand: &Expr,
    foldings: &mut Vec<Folding>,
) -> Result<(CellType, Term), CheckRefusal>
    requires { length schema.now.fields ≤ MAX_FIELDS }
    ensures resolved { (q : Query) → schema.now ≡ schema_of q →
        IfOk result (λ t. Resolves q place.around (Aggregate kind (seen_expr operand.now)) (map seen_folding foldings.old.items) (map seen_folding foldings.new.items) t.0 (seen_term t.1)) }
    ensures refused { (q : Query) → schema.now ≡ schema_of q →
        IfErr result (λ r. IsRefused place.part (typed q place.around (Aggregate kind (seen_expr operand.now))) r) }
{
    enter(place)?;
    let inside = Place {
        around: Around::InAggregate,
        ..place
    };
    let mut none = Vec::new(alloc);
    let operand = boxed_as(alloc, schema, inside, kind.ty(), operand, &mut none)?;
    let number = next_number(foldings);
    let operand = Box::into_inner(operand);
    foldings.push(Folding { kind, operand })?;
    Ok((kind.ty(), Term::Accumulator(number)))
}

// The number of the next accumulator. A query that has more than there are numbers is refused.
fn next_number(foldings: &[Folding]) -> u8
    ensures { length foldings.now < 256 → result ≡ length foldings.now }
{
    foldings.len().min(255) as u8
}
