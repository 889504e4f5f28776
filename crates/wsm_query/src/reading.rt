//! The rule of a whole query, and the reading of a text.

ghost use Rattle.std.specs.Prelude.{◌≡◌, Ok, IfOk, codes, map, option_map};
ghost use Rattle.wsm_tokens.specs.Read.{Gives};
ghost use Rattle.wsm_query.specs.Grammar as rule;
ghost use Rattle.wsm_query.specs.Parse.{Parses, parse, query_text, to_end};
ghost use Rattle.wsm_query.specs.Print.{print};
ghost use Rattle.wsm_query.specs.Seen.{seen, seen_expr, seen_selection};

use crate::clauses::{budget, clock, columns, every, fields, form, mode, names, shape, sources};
use crate::expr::Expr;
use crate::parse_expr::boxed_expression;
use crate::query::{Budget, Output, Query};
use std::alloc::Global;
use wsm_record::{Form, Name};
use wsm_tokens::{ParseRefusal, Reader, Stop, refusal_of};
use wsm_windows::Shape;

// What is selected, and of which records and panes.
#[derive(Drop)]
struct Selected {
    columns: Vec<Expr>,
    // In boxes, which are let go in one step each where what follows is refused.
    condition: Option<Box<Expr>>,
    having: Option<Box<Expr>>,
}

/// The tree of a query text, or the first fault from the left with its position. The text that a query is printed as has
/// that query's tree.
#[tactic(auto, unfolding(crate::specs::Parse::parse))]
pub fn parse(alloc: Global, text: &[u8]) -> Result<Query, ParseRefusal>
    ensures reads { Parses result (parse text.now) }
    ensures printed { IfOk result (λ q. parse (print (seen q)) ≡ Ok (seen q)) }
{
    let mut reader = Reader::new(text);
    match query_text(alloc, &mut reader) {
        Ok(query) => Ok(query),
        Err(stop) => Err(refusal_of(text, stop)),
    }
}

// A query, behind which only the end of the text is taken.
//
// query = "KEYS" names ";" { "FIELD" name type ";" } [ "SOURCES" names ";" ]
//         "START" num ";" "SKEW" num ";" "LATENESS" num [ "FROM" "WINDOW" ] ";" "RECORDS" num ";"
//         [ "BUDGET" "RECORD" num "PANE" num "HELD" num ";" ]
//         "SELECT" expr { "," expr } [ "WHERE" expr ] [ "HAVING" expr ]
//         "WINDOW" shape mode [ "EARLY" "EVERY" num ] [ "LATE" "EVERY" num ] "EMIT" form ";"
#[tactic(auto, unfolding(crate::specs::Grammar::query, crate::specs::Parse::query_text))]
fn query_text(alloc: Global, reader: &mut Reader) -> Result<Query, Stop>
    ensures { Gives seen result reader.new (query_text reader.old) }
{
    let keys = keys(alloc, reader)?;
    let fields = fields(alloc, reader)?;
    let sources = sources(alloc, reader)?;
    let clock = clock(reader)?;
    let budget = optional_budget(reader)?;
    let selection = selection(alloc, reader)?;
    let output = last(reader)?;
    Ok(Query {
        keys,
        fields,
        sources,
        clock,
        budget,
        columns: selection.columns,
        condition: unboxed(selection.condition),
        having: unboxed(selection.having),
        output,
    })
}

// What is last in a query, and the end of the text.
fn last(reader: &mut Reader) -> Result<Output, Stop>
    ensures { Gives (λ o. o) result reader.new (to_end rule.output reader.old) }
{
    let output = output(reader)?;
    reader.ended()?;
    Ok(output)
}

fn unboxed(condition: Option<Box<Expr>>) -> Option<Expr>
    ensures { option_map seen_expr result ≡ option_map (λ b. seen_expr b.value) condition }
{
    match condition {
        Some(test) => Some(Box::into_inner(test)),
        None => None,
    }
}

// "KEYS" names ";"
fn keys(alloc: Global, reader: &mut Reader) -> Result<Vec<Name>, Stop>
    ensures { Gives (λ v. v.items) result reader.new (rule.clause (codes "KEYS") rule.names reader.old) }
{
    reader.ask(b"KEYS")?;
    let keys = names(alloc, reader)?;
    reader.ask(b";")?;
    Ok(keys)
}

// "SELECT" expr { "," expr } [ "WHERE" expr ] [ "HAVING" expr ]
#[tactic(auto, unfolding(crate::specs::Grammar::selection))]
fn selection(alloc: Global, reader: &mut Reader) -> Result<Selected, Stop>
    ensures { Gives seen_selection result reader.new (rule.selection reader.old) }
{
    let columns = select(alloc, reader)?;
    let condition = optional_expr(alloc, reader, b"WHERE")?;
    let having = optional_expr(alloc, reader, b"HAVING")?;
    Ok(Selected {
        columns,
        condition,
        having,
    })
}

// "SELECT" expr { "," expr }
fn select(alloc: Global, reader: &mut Reader) -> Result<Vec<Expr>, Stop>
    ensures { Gives (λ v. map seen_expr v.items) result reader.new (rule.after (codes "SELECT") (rule.list_of rule.expr) reader.old) }
{
    reader.ask(b"SELECT")?;
    columns(alloc, reader)
}

// "WINDOW" shape mode [ "EARLY" "EVERY" num ] [ "LATE" "EVERY" num ] "EMIT" form ";"
#[tactic(auto, unfolding(crate::specs::Grammar::output))]
fn output(reader: &mut Reader) -> Result<Output, Stop>
    ensures { Gives (λ o. o) result reader.new (rule.output reader.old) }
{
    let shape = window(reader)?;
    let mode = mode(reader)?;
    let early = optional_every(reader, b"EARLY")?;
    let late = optional_every(reader, b"LATE")?;
    let form = emitted(reader)?;
    Ok(Output {
        shape,
        mode,
        early,
        late,
        form,
    })
}

// "WINDOW" shape
fn window(reader: &mut Reader) -> Result<Shape, Stop>
    ensures { Gives (λ s. s) result reader.new (rule.after (codes "WINDOW") rule.shape reader.old) }
{
    reader.ask(b"WINDOW")?;
    shape(reader)
}

// "EMIT" form ";"
fn emitted(reader: &mut Reader) -> Result<Form, Stop>
    ensures { Gives (λ f. f) result reader.new (rule.clause (codes "EMIT") rule.form reader.old) }
{
    reader.ask(b"EMIT")?;
    let form = form(reader)?;
    reader.ask(b";")?;
    Ok(form)
}

// [ "BUDGET" .. ";" ]
fn optional_budget(reader: &mut Reader) -> Result<Option<Budget>, Stop>
    ensures { Gives (λ o. o) result reader.new (rule.optional (codes "BUDGET") rule.budget reader.old) }
{
    if !reader.begins(b"BUDGET") {
        return Ok(None);
    }
    reader.advance();
    Ok(Some(budget(reader)?))
}

// [ word expr ]
fn optional_expr(alloc: Global, reader: &mut Reader, word: &[u8]) -> Result<Option<Box<Expr>>, Stop>
    ensures { Gives (option_map (λ b. seen_expr b.value)) result reader.new (rule.optional word.now rule.expr reader.old) }
{
    if !reader.begins(word) {
        return Ok(None);
    }
    reader.advance();
    Ok(Some(boxed_expression(alloc, reader)?))
}

// [ word "EVERY" num ]
fn optional_every(reader: &mut Reader, word: &[u8]) -> Result<Option<i64>, Stop>
    ensures { Gives (λ o. o) result reader.new (rule.optional word.now rule.every reader.old) }
{
    if !reader.begins(word) {
        return Ok(None);
    }
    reader.advance();
    Ok(Some(every(reader)?))
}
