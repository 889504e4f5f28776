//! Printed clauses of a query: a function for each rule of the grammar below the expressions.

ghost use Rattle.std.specs.Prelude.{◌≡◌, ◌∷◌, ◌++◌, [], codes, map, option_map, OnOk};
ghost use Rattle.std.specs.List.{flat_map};
ghost use Rattle.wsm_query.specs.Adds.{adds, comma_before};
ghost use Rattle.wsm_query.specs.Print as rule;
ghost use Rattle.wsm_query.specs.Print.{budget_tokens, clause_tokens, clock_tokens, condition_tokens, every_tokens, expr_tokens, field_tokens, figures, from_window_tokens, name_tokens, shape_tokens, sources_tokens, ty_tokens, with_commas};
ghost use Rattle.wsm_record.specs.Fields.{declared_field, declared_type};
ghost use Rattle.wsm_query.specs.Seen.{seen_expr};

use crate::expr::Expr;
use crate::print_expr::expr;
use crate::print_tokens::{number, sign, word};
use crate::query::Budget;
use std::alloc::AllocError;
use wsm_admission::Clock;
use wsm_record::{Field, Form, Mode, Name, Ty};
use wsm_tokens::Sign;
use wsm_windows::Shape;

/// Adds names, with a comma between each two.
#[tactic(auto, using(crate::proofs::Written::parts))]
pub fn names(text: &mut Vec<u8>, names: &[Name]) -> Result<(), AllocError>
    ensures { OnOk result (text.new.items ≡ adds text.old.items (name_tokens names.now)) }
{
    for (place, name) in names.iter().enumerate() {
        comma(text, place)?;
        word(text, name.as_bytes())?;
    }
    Ok(())
}

/// Adds expressions, with a comma between each two.
#[tactic(auto, using(crate::proofs::Written::parts))]
pub fn columns(text: &mut Vec<u8>, columns: &[Expr]) -> Result<(), AllocError>
    ensures { OnOk result (text.new.items ≡ adds text.old.items (with_commas (map expr_tokens (map seen_expr columns.now)))) }
{
    for (place, column) in columns.iter().enumerate() {
        comma(text, place)?;
        expr(text, column)?;
    }
    Ok(())
}

// A comma in front of all places but the first.
fn comma(text: &mut Vec<u8>, place: usize) -> Result<(), AllocError>
    ensures { OnOk result (text.new.items ≡ adds text.old.items (comma_before place)) }
{
    if place > 0 {
        sign(text, Sign::Comma)?;
    }
    Ok(())
}

/// Adds the clauses of the declared fields.
#[tactic(auto, using(crate::proofs::Written::parts))]
pub fn fields(text: &mut Vec<u8>, fields: &[Field]) -> Result<(), AllocError>
    ensures { OnOk result (text.new.items ≡ adds text.old.items (flat_map field_tokens (map declared_field fields.now))) }
{
    for declared in fields {
        field(text, declared)?;
    }
    Ok(())
}

// "FIELD" name type ";"
#[tactic(auto, using(crate::proofs::Written::parts))]
fn field(text: &mut Vec<u8>, field: &Field) -> Result<(), AllocError>
    ensures { OnOk result (text.new.items ≡ adds text.old.items (field_tokens (declared_field field.now))) }
{
    word(text, b"FIELD")?;
    word(text, field.name.as_bytes())?;
    type_of(text, &field.ty)?;
    sign(text, Sign::Semicolon)
}

// "INT" int ".." int | "BOOL" | "ENUM" "(" names ")"
#[tactic(auto, using(crate::proofs::Written::parts))]
fn type_of(text: &mut Vec<u8>, ty: &Ty) -> Result<(), AllocError>
    ensures { OnOk result (text.new.items ≡ adds text.old.items (ty_tokens (declared_type ty.now))) }
{
    match ty {
        Ty::Int { lo, hi } => {
            word(text, b"INT")?;
            number(text, *lo)?;
            sign(text, Sign::DotDot)?;
            number(text, *hi)
        }
        Ty::Bool => word(text, b"BOOL"),
        Ty::Enum(list) => {
            word(text, b"ENUM")?;
            sign(text, Sign::Open)?;
            names(text, list)?;
            sign(text, Sign::Close)
        }
    }
}

/// Adds the clauses of a clock, from START to RECORDS.
#[tactic(auto, using(crate::proofs::Written::parts))]
pub fn clock(text: &mut Vec<u8>, clock: Clock) -> Result<(), AllocError>
    ensures { OnOk result (text.new.items ≡ adds text.old.items (clock_tokens clock)) }
{
    clause(text, b"START", clock.start)?;
    clause(text, b"SKEW", clock.skew)?;
    lateness(text, clock.lateness, clock.from_window)?;
    clause(text, b"RECORDS", clock.records)
}

// Adds a word, a number and a semicolon.
#[tactic(auto, using(crate::proofs::Written::parts))]
fn clause(text: &mut Vec<u8>, front: &[u8], value: i64) -> Result<(), AllocError>
    ensures { OnOk result (text.new.items ≡ adds text.old.items (clause_tokens front.now (figures value))) }
{
    word(text, front)?;
    number(text, value)?;
    sign(text, Sign::Semicolon)
}

/// Adds the clause of the sources, where there are any.
#[tactic(auto, using(crate::proofs::Written::parts))]
pub fn sources(text: &mut Vec<u8>, sources: &[Name]) -> Result<(), AllocError>
    ensures { OnOk result (text.new.items ≡ adds text.old.items (sources_tokens sources.now)) }
{
    if sources.is_empty() {
        return Ok(());
    }
    word(text, b"SOURCES")?;
    names(text, sources)?;
    sign(text, Sign::Semicolon)
}

// Adds the clause of lateness, from a record's own time or from the end of a window.
#[tactic(auto, using(crate::proofs::Written::parts))]
fn lateness(text: &mut Vec<u8>, value: i64, from_window: bool) -> Result<(), AllocError>
    ensures { OnOk result (text.new.items ≡ adds text.old.items (clause_tokens (codes "LATENESS") (figures value ++ from_window_tokens from_window))) }
{
    word(text, b"LATENESS")?;
    number(text, value)?;
    if from_window {
        word(text, b"FROM")?;
        word(text, b"WINDOW")?;
    }
    sign(text, Sign::Semicolon)
}

/// Adds the clause of a stated budget, where there is one.
#[tactic(auto, using(crate::proofs::Written::parts))]
pub fn budget(text: &mut Vec<u8>, budget: Option<Budget>) -> Result<(), AllocError>
    ensures { OnOk result (text.new.items ≡ adds text.old.items (budget_tokens budget)) }
{
    let Some(stated) = budget else {
        return Ok(());
    };
    word(text, b"BUDGET")?;
    word(text, b"RECORD")?;
    number(text, stated.per_record)?;
    word(text, b"PANE")?;
    number(text, stated.per_pane)?;
    word(text, b"HELD")?;
    number(text, stated.held)?;
    sign(text, Sign::Semicolon)
}

/// Adds a word and an expression, where there is one.
#[tactic(auto, using(crate::proofs::Written::parts))]
pub fn condition(
    text: &mut Vec<u8>,
    front: &[u8],
    condition: &Option<Expr>,
) -> Result<(), AllocError>
    ensures { OnOk result (text.new.items ≡ adds text.old.items (condition_tokens front.now (option_map seen_expr condition.now))) }
{
    let Some(test) = condition else {
        return Ok(());
    };
    word(text, front)?;
    expr(text, test)
}

/// Adds how records are put into windows.
#[tactic(auto, using(crate::proofs::Written::parts))]
pub fn shape(text: &mut Vec<u8>, shape: Shape) -> Result<(), AllocError>
    ensures { OnOk result (text.new.items ≡ adds text.old.items (shape_tokens shape)) }
{
    match shape {
        Shape::Fixed(size) => {
            word(text, b"FIXED")?;
            number(text, size)
        }
        Shape::Sliding(size, period) => {
            word(text, b"SLIDING")?;
            number(text, size)?;
            word(text, b"EVERY")?;
            number(text, period)
        }
        Shape::Session(gap) => {
            word(text, b"SESSION")?;
            number(text, gap)
        }
    }
}

/// Adds a word, `EVERY` and a number, where there is one.
#[tactic(auto, using(crate::proofs::Written::parts))]
pub fn every(text: &mut Vec<u8>, front: &[u8], count: Option<i64>) -> Result<(), AllocError>
    ensures { OnOk result (text.new.items ≡ adds text.old.items (every_tokens front.now count)) }
{
    let Some(count) = count else {
        return Ok(());
    };
    word(text, front)?;
    word(text, b"EVERY")?;
    number(text, count)
}

/// The word of a mode.
pub fn mode_word(mode: Mode) -> &'static [u8]
    ensures { result.now ≡ rule.mode_word mode }
{
    match mode {
        Mode::Accumulating => b"ACCUMULATING",
        Mode::Discarding => b"DISCARDING",
        Mode::Retracting => b"RETRACTING",
    }
}

/// The word of a form.
pub fn form_word(form: Form) -> &'static [u8]
    ensures { result.now ≡ rule.form_word form }
{
    match form {
        Form::Panes => b"PANES",
        Form::Istream => b"ISTREAM",
        Form::Dstream => b"DSTREAM",
        Form::Rstream => b"RSTREAM",
    }
}
