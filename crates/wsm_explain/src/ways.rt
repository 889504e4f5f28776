//! How columns of panes add up.

ghost use Rattle.std.specs.Prelude.{◌≡◌, IfOk, map};
ghost use Rattle.serde_json.specs.View.{view};
ghost use Rattle.wsm_query.specs.Seen.{seen_expr};
ghost use Rattle.wsm_query.specs.declared.expr.Op.TheVariants.{Compute};
ghost use Rattle.wsm_explain.specs.Json.{list_data};
ghost use Rattle.wsm_explain.specs.Ways as spec;

use serde_json::Value;
use std::alloc::{AllocError, Global};
use wsm_query::{Arithmetic, Expr, Op};
use wsm_record::Kind;

/// How a column of two panes that share no record comes to that of all their records.
#[derive(Clone, Copy, Debug, PartialEq, Eq)]
pub enum Way {
    /// It is the sum of both.
    Sum,
    /// It is the lesser of both; false is less than true.
    Least,
    /// It is the greater of both.
    Greatest,
    /// Both are the same, whatever their records are.
    Same,
    /// It isn't known by both.
    Not,
}

/// How each column adds up.
pub fn ways_of(alloc: Global, columns: &[Expr]) -> Result<Vec<Way>, AllocError>
    ensures { IfOk result (λ v. v.items ≡ map spec.way_of (map seen_expr columns.now)) }
{
    let mut ways = Vec::with_capacity(alloc, columns.len())?;
    for column in columns {
        ways.push(way_of(column))?;
    }
    Ok(ways)
}

/// The words of these, in their order.
pub fn ways_value(alloc: Global, ways: &[Way]) -> Result<Value, AllocError>
    ensures { IfOk result (λ v. view v ≡ list_data spec.way_data ways.now) }
{
    let mut list = Vec::with_capacity(alloc, ways.len())?;
    for way in ways {
        list.push(way_value(alloc, way)?)?;
    }
    Ok(Value::from(list))
}

fn way_value(alloc: Global, way: &Way) -> Result<Value, AllocError>
    ensures { IfOk result (λ v. view v ≡ spec.way_data way.now) }
{
    Value::try_from_str(alloc, way_word(*way))
}

fn way_word(way: Way) -> &'static str
    ensures { result.now ≡ spec.way_word way }
{
    match way {
        Way::Sum => "sum",
        Way::Least => "least",
        Way::Greatest => "greatest",
        Way::Same => "same",
        Way::Not => "not",
    }
}

// How an expression adds up.
fn way_of(expr: &Expr) -> Way
    ensures { result ≡ spec.way_of (seen_expr expr.now) }
{
    match expr {
        Expr::Number(_) | Expr::Truth(_) | Expr::EnumName(_, _) => Way::Same,
        Expr::Key | Expr::KeyName(_) => Way::Same,
        Expr::Count => Way::Sum,
        Expr::Aggregate(kind, _) => way_of_kind(*kind),
        Expr::Brackets(inner) => way_of(inner),
        Expr::Minus(operand) => turned(way_of(operand)),
        Expr::Binary(op, left, right) => combined(*op, way_of(left), way_of(right)),
        Expr::Field(_) | Expr::If(_, _, _) | Expr::Not(_) => Way::Not,
        Expr::And(_, _) | Expr::Or(_, _) => Way::Not,
    }
}

fn way_of_kind(kind: Kind) -> Way
    ensures { result ≡ spec.way_of_kind kind }
{
    match kind {
        Kind::Sum => Way::Sum,
        Kind::Min | Kind::All => Way::Least,
        Kind::Max | Kind::Any => Way::Greatest,
    }
}

// That of a number with its sign turned.
fn turned(way: Way) -> Way
    ensures { result ≡ spec.turned way }
{
    match way {
        Way::Least => Way::Greatest,
        Way::Greatest => Way::Least,
        Way::Sum | Way::Same | Way::Not => way,
    }
}

fn combined(op: Op, left: Way, right: Way) -> Way
    ensures { result ≡ spec.combined op left right }
{
    match op {
        Op::Compute(arithmetic) => computed(arithmetic, left, right),
        Op::Compare(_) => Way::Not,
    }
}

fn computed(arithmetic: Arithmetic, left: Way, right: Way) -> Way
    ensures { result ≡ spec.combined (Compute arithmetic) left right }
{
    match arithmetic {
        Arithmetic::Add | Arithmetic::Sub => added(left, right),
        Arithmetic::Mul => multiplied(left, right),
        Arithmetic::Div | Arithmetic::Rem => Way::Not,
    }
}

fn added(left: Way, right: Way) -> Way
    ensures { result ≡ spec.added left right }
{
    match (left, right) {
        (Way::Sum, Way::Sum) => Way::Sum,
        (Way::Same, Way::Same) => Way::Same,
        _ => Way::Not,
    }
}

fn multiplied(left: Way, right: Way) -> Way
    ensures { result ≡ spec.multiplied left right }
{
    match (left, right) {
        (Way::Sum, Way::Same) | (Way::Same, Way::Sum) => Way::Sum,
        (Way::Same, Way::Same) => Way::Same,
        _ => Way::Not,
    }
}
