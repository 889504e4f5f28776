//! The rules of the grammar below the expressions: a function each, in the grammar's order.

ghost use Rattle.std.specs.Prelude.{codes, map};
ghost use Rattle.wsm_tokens.specs.Read.{Gives, number};
ghost use Rattle.wsm_query.specs.Grammar.{int, names, type_of, field, brace, list_of, expr, shape, mode, form, every, budget, clause as one_clause, clock, from_window, sources};
ghost use Rattle.wsm_record.specs.Fields.{declared_field, declared_type};
ghost use Rattle.wsm_query.specs.Seen.{seen_expr};
ghost use Rattle.wsm_query.specs.Steps.{Reads};

use crate::expr::Expr;
use crate::parse_expr::expression;
use crate::query::Budget;
use std::alloc::Global;
use wsm_admission::Clock;
use wsm_record::{Field, Form, Mode, Name, Ty};
use wsm_tokens::{Reader, Stop};
use wsm_windows::Shape;

// int = [ "-" ] num
#[tactic(auto, unfolding(crate::specs::Grammar::int))]
fn int(reader: &mut Reader) -> Result<i64, Stop>
    ensures { Reads (λ n. n) result reader.new int reader.old }
{
    if reader.begins(b"-") {
        reader.advance();
        let value = reader.number()?;
        Ok(-value)
    } else {
        reader.number()
    }
}

/// `names = name { "," name }`
#[tactic(auto, unfolding(crate::specs::Grammar::names, crate::specs::Grammar::list_of, crate::specs::Grammar::brace))]
pub fn names(alloc: Global, reader: &mut Reader) -> Result<Vec<Name>, Stop>
    ensures { Reads (λ v. v.items) result reader.new names reader.old }
{
    let mut names = Vec::new(alloc);
    let first = reader.name()?;
    names.push(first)?;
    while reader.begins(b",") {
        reader.advance();
        let name = reader.name()?;
        names.push(name)?;
    }
    Ok(names)
}

// type = "INT" int ".." int | "BOOL" | "ENUM" "(" names ")"
#[tactic(auto, unfolding(crate::specs::Grammar::type_of))]
fn type_of(alloc: Global, reader: &mut Reader) -> Result<Ty, Stop>
    ensures { Reads declared_type result reader.new type_of reader.old }
{
    if reader.begins(b"INT") {
        reader.advance();
        let lo = int(reader)?;
        reader.ask(b"..")?;
        let hi = int(reader)?;
        return Ok(Ty::Int { lo, hi });
    }
    if reader.begins(b"BOOL") {
        reader.advance();
        return Ok(Ty::Bool);
    }
    reader.ask(b"ENUM")?;
    reader.ask(b"(")?;
    let names = names(alloc, reader)?;
    reader.ask(b")")?;
    Ok(Ty::Enum(names))
}

// name type ";", behind FIELD
#[tactic(auto, unfolding(crate::specs::Grammar::field))]
fn field(alloc: Global, reader: &mut Reader) -> Result<Field, Stop>
    ensures { Reads declared_field result reader.new field reader.old }
{
    let name = reader.name()?;
    let ty = type_of(alloc, reader)?;
    reader.ask(b";")?;
    Ok(Field { name, ty })
}

/// `{ "FIELD" name type ";" }`
#[tactic(auto, unfolding(crate::specs::Grammar::brace))]
pub fn fields(alloc: Global, reader: &mut Reader) -> Result<Vec<Field>, Stop>
    ensures { Reads (λ v. map declared_field v.items) result reader.new (brace (codes "FIELD") field) reader.old }
{
    let mut fields = Vec::new(alloc);
    while reader.begins(b"FIELD") {
        reader.advance();
        let field = field(alloc, reader)?;
        fields.push(field)?;
    }
    Ok(fields)
}

/// `[ "SOURCES" names ";" ]`, and no sources where the clause is absent
#[tactic(auto, unfolding(crate::specs::Grammar::sources))]
pub fn sources(alloc: Global, reader: &mut Reader) -> Result<Vec<Name>, Stop>
    ensures { Reads (λ v. v.items) result reader.new sources reader.old }
{
    if !reader.begins(b"SOURCES") {
        return Ok(Vec::new(alloc));
    }
    reader.advance();
    let sources = names(alloc, reader)?;
    reader.ask(b";")?;
    Ok(sources)
}

/// `"START" num ";" "SKEW" num ";" "LATENESS" num [ "FROM" "WINDOW" ] ";" "RECORDS" num ";"`
#[tactic(auto, unfolding(crate::specs::Grammar::clock))]
pub fn clock(reader: &mut Reader) -> Result<Clock, Stop>
    ensures { Gives (λ c. c) result reader.new (clock reader.old) }
{
    let start = clause(reader, b"START")?;
    let skew = clause(reader, b"SKEW")?;
    reader.ask(b"LATENESS")?;
    let lateness = reader.number()?;
    let from_window = from_window(reader)?;
    reader.ask(b";")?;
    let records = clause(reader, b"RECORDS")?;
    Ok(Clock {
        start,
        skew,
        lateness,
        from_window,
        records,
    })
}

// A word, a number and a semicolon.
fn clause(reader: &mut Reader, word: &[u8]) -> Result<i64, Stop>
    ensures { Gives (λ n. n) result reader.new (one_clause word.now number reader.old) }
{
    reader.ask(word)?;
    let value = reader.number()?;
    reader.ask(b";")?;
    Ok(value)
}

// `[ "FROM" "WINDOW" ]`, behind the number of LATENESS: whether the words stand there
#[tactic(auto, unfolding(crate::specs::Grammar::from_window))]
fn from_window(reader: &mut Reader) -> Result<bool, Stop>
    ensures { Reads (λ b. b) result reader.new from_window reader.old }
{
    if !reader.begins(b"FROM") {
        return Ok(false);
    }
    reader.advance();
    reader.ask(b"WINDOW")?;
    Ok(true)
}

/// `expr { "," expr }`
#[tactic(auto, unfolding(crate::specs::Grammar::list_of, crate::specs::Grammar::brace))]
pub fn columns(alloc: Global, reader: &mut Reader) -> Result<Vec<Expr>, Stop>
    ensures { Reads (λ v. map seen_expr v.items) result reader.new (list_of expr) reader.old }
{
    let mut columns = Vec::new(alloc);
    let first = expression(alloc, reader)?;
    columns.push(first)?;
    while reader.begins(b",") {
        reader.advance();
        let column = expression(alloc, reader)?;
        columns.push(column)?;
    }
    Ok(columns)
}

/// `shape = "FIXED" num | "SLIDING" num "EVERY" num | "SESSION" num`
#[tactic(auto, unfolding(crate::specs::Grammar::shape))]
pub fn shape(reader: &mut Reader) -> Result<Shape, Stop>
    ensures { Reads (λ s. s) result reader.new shape reader.old }
{
    if reader.begins(b"FIXED") {
        reader.advance();
        return Ok(Shape::Fixed(reader.number()?));
    }
    if reader.begins(b"SLIDING") {
        reader.advance();
        let size = reader.number()?;
        reader.ask(b"EVERY")?;
        return Ok(Shape::Sliding(size, reader.number()?));
    }
    reader.ask(b"SESSION")?;
    Ok(Shape::Session(reader.number()?))
}

/// `mode = "ACCUMULATING" | "DISCARDING" | "RETRACTING"`
#[tactic(auto, unfolding(crate::specs::Grammar::mode))]
pub fn mode(reader: &mut Reader) -> Result<Mode, Stop>
    ensures { Reads (λ m. m) result reader.new mode reader.old }
{
    let mode = if reader.begins(b"ACCUMULATING") {
        Mode::Accumulating
    } else if reader.begins(b"DISCARDING") {
        Mode::Discarding
    } else if reader.begins(b"RETRACTING") {
        Mode::Retracting
    } else {
        return Err(reader.unexpected());
    };
    reader.advance();
    Ok(mode)
}

/// `form = "PANES" | "ISTREAM" | "DSTREAM" | "RSTREAM"`
#[tactic(auto, unfolding(crate::specs::Grammar::form))]
pub fn form(reader: &mut Reader) -> Result<Form, Stop>
    ensures { Reads (λ f. f) result reader.new form reader.old }
{
    let form = if reader.begins(b"PANES") {
        Form::Panes
    } else if reader.begins(b"ISTREAM") {
        Form::Istream
    } else if reader.begins(b"DSTREAM") {
        Form::Dstream
    } else if reader.begins(b"RSTREAM") {
        Form::Rstream
    } else {
        return Err(reader.unexpected());
    };
    reader.advance();
    Ok(form)
}

/// `"EVERY" num`, behind EARLY or LATE
#[tactic(auto, unfolding(crate::specs::Grammar::every))]
pub fn every(reader: &mut Reader) -> Result<i64, Stop>
    ensures { Reads (λ n. n) result reader.new every reader.old }
{
    reader.ask(b"EVERY")?;
    reader.number()
}

/// `"RECORD" num "PANE" num "HELD" num ";"`, behind BUDGET
#[tactic(auto, unfolding(crate::specs::Grammar::budget))]
pub fn budget(reader: &mut Reader) -> Result<Budget, Stop>
    ensures { Reads (λ b. b) result reader.new budget reader.old }
{
    reader.ask(b"RECORD")?;
    let per_record = reader.number()?;
    reader.ask(b"PANE")?;
    let per_pane = reader.number()?;
    reader.ask(b"HELD")?;
    let held = reader.number()?;
    reader.ask(b";")?;
    Ok(Budget {
        per_record,
        per_pane,
        held,
    })
}
