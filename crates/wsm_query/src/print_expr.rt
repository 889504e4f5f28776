//! Printed expressions: a function for each form.

ghost use Rattle.std.specs.Prelude.{◌≡◌, ◌∷◌, ◌++◌, [], codes, OnOk};
ghost use Rattle.wsm_tokens.specs.Tokens.{Word, Mark, sign_text};
ghost use Rattle.wsm_tokens.specs.declared.token.Sign.TheVariants as signs;
ghost use Rattle.wsm_query.specs.Adds.{adds};
ghost use Rattle.wsm_query.specs.Print as rule;
ghost use Rattle.wsm_query.specs.Print.{bracketed, expr_tokens};
ghost use Rattle.wsm_query.specs.Seen.{seen_expr};

use crate::expr::{Expr, Op};
use crate::print_tokens::{number, sign, word};
use std::alloc::AllocError;
use wsm_interval::{Arithmetic, Comparison};
use wsm_record::{Kind, Name};
use wsm_tokens::Sign;

/// Adds the tokens of an expression.
#[cycle(expr)]
#[tactic(auto, using(crate::proofs::Written::parts))]
pub fn expr(text: &mut Vec<u8>, tree: &Expr) -> Result<(), AllocError>
    ensures { OnOk result (text.new.items ≡ adds text.old.items (expr_tokens (seen_expr tree.now))) }
{
    match tree {
        Expr::Number(value) => number(text, *value),
        Expr::Truth(truth) => word(text, truth_word(*truth)),
        Expr::Field(field) => word(text, field.as_bytes()),
        Expr::EnumName(field, name) => pointed(text, field.as_bytes(), name),
        Expr::Key => word(text, b"KEY"),
        Expr::KeyName(name) => pointed(text, b"KEY", name),
        Expr::Count => count(text),
        Expr::Aggregate(kind, operand) => aggregate(text, *kind, operand),
        Expr::If(test, first, second) => {
            behind(text, b"IF", test)?;
            behind(text, b"THEN", first)?;
            behind(text, b"ELSE", second)?;
            word(text, b"END")
        }
        Expr::Brackets(inner) => brackets(text, inner),
        Expr::Minus(operand) => behind(text, b"-", operand),
        Expr::Not(operand) => behind(text, b"NOT", operand),
        Expr::Binary(op, left, right) => {
            expr(text, left)?;
            behind(text, op_text(*op), right)
        }
        Expr::And(left, right) => {
            expr(text, left)?;
            behind(text, b"AND", right)
        }
        Expr::Or(left, right) => {
            expr(text, left)?;
            behind(text, b"OR", right)
        }
    }
}

// An aggregate's word, and its operand in brackets.
#[cycle(expr)]
#[tactic(auto, using(crate::proofs::Written::parts))]
fn aggregate(text: &mut Vec<u8>, kind: Kind, operand: &Expr) -> Result<(), AllocError>
    ensures { OnOk result (text.new.items ≡ adds text.old.items (Word (rule.kind_word kind) ∷ bracketed (expr_tokens (seen_expr operand.now)))) }
{
    word(text, kind_word(kind))?;
    brackets(text, operand)
}

// "(" inner ")"
#[cycle(expr)]
#[tactic(auto, using(crate::proofs::Written::parts))]
fn brackets(text: &mut Vec<u8>, inner: &Expr) -> Result<(), AllocError>
    ensures { OnOk result (text.new.items ≡ adds text.old.items (bracketed (expr_tokens (seen_expr inner.now)))) }
{
    sign(text, Sign::Open)?;
    expr(text, inner)?;
    sign(text, Sign::Close)
}

// An operand behind a token.
#[cycle(expr)]
#[tactic(auto, using(crate::proofs::Written::parts))]
fn behind(text: &mut Vec<u8>, token: &[u8], operand: &Expr) -> Result<(), AllocError>
    ensures { OnOk result (text.new.items ≡ adds text.old.items (Word token.now ∷ expr_tokens (seen_expr operand.now))) }
{
    word(text, token)?;
    expr(text, operand)
}

// A word, a dot and a name.
fn pointed(text: &mut Vec<u8>, front: &[u8], name: &Name) -> Result<(), AllocError>
    ensures { OnOk result (text.new.items ≡ adds text.old.items (Word front.now ∷ Mark signs.Dot ∷ Word name.now ∷ [])) }
{
    word(text, front)?;
    sign(text, Sign::Dot)?;
    word(text, name.as_bytes())
}

// "COUNT" "(" "*" ")"
fn count(text: &mut Vec<u8>) -> Result<(), AllocError>
    ensures { OnOk result (text.new.items ≡ adds text.old.items (Word (codes "COUNT") ∷ bracketed (Mark signs.Star ∷ []))) }
{
    word(text, b"COUNT")?;
    sign(text, Sign::Open)?;
    sign(text, Sign::Star)?;
    sign(text, Sign::Close)
}

fn truth_word(truth: bool) -> &'static [u8]
    ensures { result.now ≡ rule.truth_word truth }
{
    if truth { b"TRUE" } else { b"FALSE" }
}

fn kind_word(kind: Kind) -> &'static [u8]
    ensures { result.now ≡ rule.kind_word kind }
{
    match kind {
        Kind::Sum => b"SUM",
        Kind::Min => b"MIN",
        Kind::Max => b"MAX",
        Kind::Any => b"ANY",
        Kind::All => b"ALL",
    }
}

fn op_text(op: Op) -> &'static [u8]
    ensures { result.now ≡ sign_text (rule.op_sign op) }
{
    match op {
        Op::Compute(Arithmetic::Add) => b"+",
        Op::Compute(Arithmetic::Sub) => b"-",
        Op::Compute(Arithmetic::Mul) => b"*",
        Op::Compute(Arithmetic::Div) => b"/",
        Op::Compute(Arithmetic::Rem) => b"%",
        Op::Compare(Comparison::Eq) => b"=",
        Op::Compare(Comparison::Ne) => b"<>",
        Op::Compare(Comparison::Lt) => b"<",
        Op::Compare(Comparison::Le) => b"<=",
        Op::Compare(Comparison::Gt) => b">",
        Op::Compare(Comparison::Ge) => b">=",
    }
}
