//! The rules of the grammar for expressions: a function each, in the grammar's order.
//!
//! `room` is how many levels may still be opened. A level is opened by `(`, by an aggregate's name,
//! by `IF`, by `NOT` and by the `-` in front of an operand.
//!
//! A rule answers its tree in a box: where a later part is refused, letting a box go is one step, and
//! letting a tree go one for each case that it may be of.

ghost use Rattle.std.specs.Prelude.{◌≡◌, ◌∷◌, [], option_map, IfOk};
ghost use Rattle.wsm_query.specs.Tree as tree;
ghost use Rattle.wsm_query.specs.Grammar as rule;
ghost use Rattle.wsm_query.specs.Grammar.{levels, looked_up};
ghost use Rattle.wsm_query.specs.Seen.{seen_expr};
ghost use Rattle.wsm_query.specs.Steps.{Reads, made, numbered, operand_of, table_of};

use crate::expr::{Expr, Op};
use crate::level::{open, spend};
use std::alloc::{AllocError, Global};
use wsm_interval::{Arithmetic, Comparison};
use wsm_record::Kind;
use wsm_record::limits::{MAX_CHAIN, MAX_LEVELS};
use wsm_tokens::{Reader, Stop};

/// `expr`, with all levels left.
#[tactic(auto, unfolding(crate::specs::Grammar::expr))]
pub fn boxed_expression(alloc: Global, reader: &mut Reader) -> Result<Box<Expr>, Stop>
    ensures { Reads (λ b. seen_expr b.value) result reader.new rule.expr reader.old }
{
    expr(alloc, reader, MAX_LEVELS)
}

/// The same, out of its box.
pub fn expression(alloc: Global, reader: &mut Reader) -> Result<Expr, Stop>
    ensures { Reads seen_expr result reader.new rule.expr reader.old }
{
    Ok(Box::into_inner(boxed_expression(alloc, reader)?))
}

// What a chain joins, from what binds least on.
#[derive(Clone, Copy)]
enum Bond {
    Or,
    And,
    Sum,
    Product,
}

// What stands between two operands of a chain.
#[derive(Clone, Copy)]
enum Link {
    Or,
    And,
    Binary(Op),
}

// expr = conj { "OR" conj }
#[cycle(expr)]
#[tactic(auto, unfolding(crate::specs::Grammar::expr_in))]
fn expr(alloc: Global, reader: &mut Reader, room: usize) -> Result<Box<Expr>, Stop>
    ensures { Reads (λ b. seen_expr b.value) result reader.new (rule.expr_in (levels room)) reader.old }
{
    chain(alloc, reader, room, Bond::Or)
}

// operand { link operand }
#[cycle(expr)]
#[tactic(auto, unfolding(crate::specs::Grammar::chained))]
fn chain(alloc: Global, reader: &mut Reader, room: usize, bond: Bond) -> Result<Box<Expr>, Stop>
    ensures { Reads (λ b. seen_expr b.value) result reader.new (rule.chained (table_of bond) (operand_of bond (levels room))) reader.old }
{
    let mut left = operand(alloc, reader, room, bond)?;
    let mut turns = MAX_CHAIN;
    while let Some(link) = next_link(reader, bond) {
        turns = spend(reader, turns)?;
        let right = operand(alloc, reader, room, bond)?;
        left = joined(alloc, link, left, right)?;
    }
    Ok(left)
}

// conj = neg { "AND" neg }, neg, prod = unary { ("*" | "/" | "%") unary } and unary, in the order of Bond
#[cycle(expr)]
#[tactic(auto, unfolding(crate::specs::Grammar::conj, crate::specs::Grammar::prod))]
fn operand(alloc: Global, reader: &mut Reader, room: usize, bond: Bond) -> Result<Box<Expr>, Stop>
    ensures { Reads (λ b. seen_expr b.value) result reader.new (operand_of bond (levels room)) reader.old }
{
    match bond {
        Bond::Or => chain(alloc, reader, room, Bond::And),
        Bond::And => neg(alloc, reader, room),
        Bond::Sum => chain(alloc, reader, room, Bond::Product),
        Bond::Product => unary(alloc, reader, room),
    }
}

// neg = "NOT" neg | cmp
#[cycle(expr)]
#[tactic(auto, unfolding(crate::specs::Grammar::neg))]
fn neg(alloc: Global, reader: &mut Reader, room: usize) -> Result<Box<Expr>, Stop>
    ensures { Reads (λ b. seen_expr b.value) result reader.new (rule.neg (levels room)) reader.old }
{
    if !reader.begins(b"NOT") {
        return cmp(alloc, reader, room);
    }
    let room = open(reader, room)?;
    let operand = neg(alloc, reader, room)?;
    Ok(Box::new(alloc, Expr::Not(operand))?)
}

// sum = prod { ("+" | "-") prod }
// cmp = sum [ ("=" | "<>" | "<" | "<=" | ">" | ">=") sum ]
#[cycle(expr)]
#[tactic(auto, unfolding(crate::specs::Grammar::cmp, crate::specs::Grammar::sum))]
fn cmp(alloc: Global, reader: &mut Reader, room: usize) -> Result<Box<Expr>, Stop>
    ensures { Reads (λ b. seen_expr b.value) result reader.new (rule.cmp (levels room)) reader.old }
{
    let left = chain(alloc, reader, room, Bond::Sum)?;
    let Some(op) = comparison(reader) else {
        return Ok(left);
    };
    reader.advance();
    let right = chain(alloc, reader, room, Bond::Sum)?;
    Ok(joined(alloc, Link::Binary(op), left, right)?)
}

// unary = "-" unary | atom
#[cycle(expr)]
#[tactic(auto, unfolding(crate::specs::Grammar::unary))]
fn unary(alloc: Global, reader: &mut Reader, room: usize) -> Result<Box<Expr>, Stop>
    ensures { Reads (λ b. seen_expr b.value) result reader.new (rule.unary (levels room)) reader.old }
{
    if !reader.begins(b"-") {
        return atom(alloc, reader, room);
    }
    let room = open(reader, room)?;
    let operand = unary(alloc, reader, room)?;
    Ok(Box::new(alloc, Expr::Minus(operand))?)
}

// atom = num | agg "(" expr ")" | "COUNT" "(" "*" ")" | "IF" .. "END" | "(" expr ")" | leaf
#[cycle(expr)]
#[tactic(auto, unfolding(crate::specs::Grammar::atom, crate::specs::Steps::numbered))]
fn atom(alloc: Global, reader: &mut Reader, room: usize) -> Result<Box<Expr>, Stop>
    ensures { Reads (λ b. seen_expr b.value) result reader.new (rule.atom (levels room)) reader.old }
{
    if reader.begins_number() {
        return number(alloc, reader);
    }
    if let Some(kind) = agg(reader) {
        return aggregate(alloc, reader, room, kind);
    }
    if reader.begins(b"COUNT") {
        return count_of(alloc, reader, room);
    }
    if reader.begins(b"IF") {
        return choice(alloc, reader, room);
    }
    if reader.begins(b"(") {
        return brackets(alloc, reader, room);
    }
    boxed_leaf(alloc, reader)
}

// agg "(" expr ")"
#[cycle(expr)]
#[tactic(auto, unfolding(crate::specs::Grammar::aggregate))]
fn aggregate(alloc: Global, reader: &mut Reader, room: usize, kind: Kind) -> Result<Box<Expr>, Stop>
    ensures { Reads (λ b. seen_expr b.value) result reader.new (rule.aggregate (levels room) kind) reader.old }
{
    let room = open(reader, room)?;
    reader.ask(b"(")?;
    let operand = expr(alloc, reader, room)?;
    reader.ask(b")")?;
    Ok(Box::new(alloc, Expr::Aggregate(kind, operand))?)
}

// "IF" expr "THEN" expr "ELSE" expr "END"
#[cycle(expr)]
#[tactic(auto, unfolding(crate::specs::Grammar::choice))]
fn choice(alloc: Global, reader: &mut Reader, room: usize) -> Result<Box<Expr>, Stop>
    ensures { Reads (λ b. seen_expr b.value) result reader.new (rule.choice (levels room)) reader.old }
{
    let room = open(reader, room)?;
    let test = expr(alloc, reader, room)?;
    let first = branch(alloc, reader, room, b"THEN")?;
    let second = branch(alloc, reader, room, b"ELSE")?;
    reader.ask(b"END")?;
    Ok(Box::new(alloc, Expr::If(test, first, second))?)
}

// a word and an expr
#[cycle(expr)]
fn branch(alloc: Global, reader: &mut Reader, room: usize, word: &[u8]) -> Result<Box<Expr>, Stop>
    ensures { Reads (λ b. seen_expr b.value) result reader.new (rule.after word.now (rule.expr_in (levels room))) reader.old }
{
    reader.ask(word)?;
    expr(alloc, reader, room)
}

// "(" expr ")"
#[cycle(expr)]
#[tactic(auto, unfolding(crate::specs::Grammar::brackets))]
fn brackets(alloc: Global, reader: &mut Reader, room: usize) -> Result<Box<Expr>, Stop>
    ensures { Reads (λ b. seen_expr b.value) result reader.new (rule.brackets (levels room)) reader.old }
{
    let room = open(reader, room)?;
    let inner = expr(alloc, reader, room)?;
    reader.ask(b")")?;
    Ok(Box::new(alloc, Expr::Brackets(inner))?)
}

// "COUNT" "(" "*" ")"
#[tactic(auto, unfolding(crate::specs::Grammar::count_of))]
fn count_of(alloc: Global, reader: &mut Reader, room: usize) -> Result<Box<Expr>, Stop>
    ensures { Reads (λ b. seen_expr b.value) result reader.new (rule.count_of (levels room)) reader.old }
{
    let _ = open(reader, room)?;
    reader.ask(b"(")?;
    reader.ask(b"*")?;
    reader.ask(b")")?;
    Ok(Box::new(alloc, Expr::Count)?)
}

// num
#[tactic(auto, unfolding(crate::specs::Steps::numbered))]
fn number(alloc: Global, reader: &mut Reader) -> Result<Box<Expr>, Stop>
    ensures { Reads (λ b. seen_expr b.value) result reader.new numbered reader.old }
{
    let value = reader.number()?;
    Ok(Box::new(alloc, Expr::Number(value))?)
}

// leaf, in a box
fn boxed_leaf(alloc: Global, reader: &mut Reader) -> Result<Box<Expr>, Stop>
    ensures { Reads (λ b. seen_expr b.value) result reader.new rule.leaf reader.old }
{
    let leaf = leaf(reader)?;
    Ok(Box::new(alloc, leaf)?)
}

// "TRUE" | "FALSE" | "KEY" [ "." name ] | name [ "." name ]
#[tactic(auto, unfolding(crate::specs::Grammar::leaf, crate::specs::Grammar::pointed))]
fn leaf(reader: &mut Reader) -> Result<Expr, Stop>
    ensures { Reads seen_expr result reader.new rule.leaf reader.old }
{
    if reader.begins(b"TRUE") {
        reader.advance();
        return Ok(Expr::Truth(true));
    }
    if reader.begins(b"FALSE") {
        reader.advance();
        return Ok(Expr::Truth(false));
    }
    if reader.begins(b"KEY") {
        reader.advance();
        return key(reader);
    }
    let field = reader.name()?;
    if !reader.begins(b".") {
        return Ok(Expr::Field(field));
    }
    reader.advance();
    Ok(Expr::EnumName(field, reader.name()?))
}

// [ "." name ], behind KEY
#[tactic(auto, unfolding(crate::specs::Grammar::pointed))]
fn key(reader: &mut Reader) -> Result<Expr, Stop>
    ensures { Reads seen_expr result reader.new (rule.pointed tree.Key tree.KeyName) reader.old }
{
    if !reader.begins(b".") {
        return Ok(Expr::Key);
    }
    reader.advance();
    Ok(Expr::KeyName(reader.name()?))
}

// agg = "SUM" | "MIN" | "MAX" | "ANY" | "ALL"
fn agg(reader: &Reader) -> Option<Kind>
    ensures { result ≡ looked_up rule.kinds reader.now }
{
    if reader.begins(b"SUM") {
        Some(Kind::Sum)
    } else if reader.begins(b"MIN") {
        Some(Kind::Min)
    } else if reader.begins(b"MAX") {
        Some(Kind::Max)
    } else if reader.begins(b"ANY") {
        Some(Kind::Any)
    } else if reader.begins(b"ALL") {
        Some(Kind::All)
    } else {
        None
    }
}

// "=" | "<>" | "<" | "<=" | ">" | ">="
fn comparison(reader: &Reader) -> Option<Op>
    ensures { option_map rule.binary result ≡ looked_up rule.comparisons reader.now }
{
    if reader.begins(b"=") {
        Some(Op::Compare(Comparison::Eq))
    } else if reader.begins(b"<>") {
        Some(Op::Compare(Comparison::Ne))
    } else if reader.begins(b"<") {
        Some(Op::Compare(Comparison::Lt))
    } else if reader.begins(b"<=") {
        Some(Op::Compare(Comparison::Le))
    } else if reader.begins(b">") {
        Some(Op::Compare(Comparison::Gt))
    } else if reader.begins(b">=") {
        Some(Op::Compare(Comparison::Ge))
    } else {
        None
    }
}

// The word or sign of a chain, where it stands next.
fn next_link(reader: &Reader, bond: Bond) -> Option<Link>
    ensures { option_map made result ≡ looked_up (table_of bond) reader.now }
{
    match bond {
        Bond::Or => word_link(reader, b"OR", Link::Or),
        Bond::And => word_link(reader, b"AND", Link::And),
        Bond::Sum => sum_link(reader),
        Bond::Product => product_link(reader),
    }
}

fn word_link(reader: &Reader, word: &[u8], link: Link) -> Option<Link>
    ensures { option_map made result ≡ looked_up ((word.now, made link) ∷ []) reader.now }
{
    if reader.begins(word) {
        Some(link)
    } else {
        None
    }
}

// "+" | "-"
fn sum_link(reader: &Reader) -> Option<Link>
    ensures { option_map made result ≡ looked_up rule.sums reader.now }
{
    if reader.begins(b"+") {
        Some(Link::Binary(Op::Compute(Arithmetic::Add)))
    } else if reader.begins(b"-") {
        Some(Link::Binary(Op::Compute(Arithmetic::Sub)))
    } else {
        None
    }
}

// "*" | "/" | "%"
fn product_link(reader: &Reader) -> Option<Link>
    ensures { option_map made result ≡ looked_up rule.products reader.now }
{
    if reader.begins(b"*") {
        Some(Link::Binary(Op::Compute(Arithmetic::Mul)))
    } else if reader.begins(b"/") {
        Some(Link::Binary(Op::Compute(Arithmetic::Div)))
    } else if reader.begins(b"%") {
        Some(Link::Binary(Op::Compute(Arithmetic::Rem)))
    } else {
        None
    }
}

fn joined(
    alloc: Global,
    link: Link,
    left: Box<Expr>,
    right: Box<Expr>,
) -> Result<Box<Expr>, AllocError>
    ensures { IfOk result (λ b. seen_expr b.value ≡ made link (seen_expr left.value) (seen_expr right.value)) }
{
    let tree = match link {
        Link::Or => Expr::Or(left, right),
        Link::And => Expr::And(left, right),
        Link::Binary(op) => Expr::Binary(op, left, right),
    };
    Ok(Box::new(alloc, tree)?)
}
