//! The tree of an expression.

use wsm_interval::{Arithmetic, Comparison};
use wsm_record::{Kind, Name};

/// The operators whose two operands are always evaluated.
#[derive(Clone, Copy, Debug, PartialEq, Eq)]
pub enum Op {
    /// `+`, `-`, `*`, `/` or `%`, which give a number.
    Compute(Arithmetic),
    /// `=`, `<>`, `<`, `<=`, `>` or `>=`, which give a truth.
    Compare(Comparison),
}

/// An expression, with a case for each form of the grammar, brackets too.
#[derive(Drop)]
pub enum Expr {
    /// A whole number. Its sign, if it has one, is `Minus`.
    Number(i64),
    /// `TRUE` or `FALSE`.
    Truth(bool),
    /// A field of the record.
    Field(Name),
    /// `color.red`: the name `red` of the field `color`.
    EnumName(Name, Name),
    /// The key of the record or pane.
    Key,
    /// `KEY.a`: the key `a`.
    KeyName(Name),
    /// `COUNT(*)`: how many records there are.
    Count,
    /// `SUM(a)`: the values of the records, folded.
    Aggregate(Kind, Box<Expr>),
    /// `IF a THEN b ELSE c END`: the second where the first is true, else the third.
    If(Box<Expr>, Box<Expr>, Box<Expr>),
    /// `(a)`: the same, in brackets.
    Brackets(Box<Expr>),
    /// `-a`: the number with its sign turned.
    Minus(Box<Expr>),
    /// `NOT a`: whether it is false.
    Not(Box<Expr>),
    /// An operator between its two operands.
    Binary(Op, Box<Expr>, Box<Expr>),
    /// `a AND b`: whether both are true; the right one is evaluated only where the left is true.
    And(Box<Expr>, Box<Expr>),
    /// `a OR b`: whether one is true; the right one is evaluated only where the left is false.
    Or(Box<Expr>, Box<Expr>),
}
