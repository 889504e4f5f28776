//! What is found of an input, and what is told of it.

ghost use Rattle.std.specs.Prelude.{◌≡◌, Ok, IfOk, option_map, string_bytes};
ghost use Rattle.serde_json.specs.View.{view};
ghost use Rattle.wsm_query.specs.Parse.{parse as parse_of};
ghost use Rattle.wsm_inputs.specs.Inputs.{judged as judged_of};
ghost use Rattle.wsm_explain.specs.Explained as spec;

use crate::limits::limits_value;
use crate::parts::{front, parts_value};
use crate::program::{accepted_value, ranges_value, rejected_value};
use crate::standing::{reserved_value, spot_at, standing_value};
use crate::sums::text_sum;
use crate::ways::{Way, ways_of, ways_value};
use serde_json::{Value, json};
use std::alloc::{AllocError, Global};
use wsm_check::{CheckFault, CodeLimit};
use wsm_inputs::{End, Input, InputRefusal, costed_of};
use wsm_program::Program;
use wsm_query::parse;
use wsm_rules::{Rejection, Rule, Verified};
use wsm_tokens::{ParseRefusal, Position};
use wsm_verifier::{Costed, verify_costed};

/// The version of what is told.
const VERSION: u32 = 4;

/// What is found of an input.
#[derive(Drop)]
pub enum Judgement {
    /// The text is no query, or the bytes are no program.
    Refused(InputRefusal),
    /// The verifier refuses the program.
    Rejected {
        program: Program,
        rejection: Rejection,
        /// How the columns of a query add up; none of a program's bytes.
        ways: Option<Vec<Way>>,
    },
    /// The verifier accepts the program.
    Accepted {
        program: Verified,
        /// How the columns of a query add up; none of a program's bytes.
        ways: Option<Vec<Way>>,
    },
}

/// Judges an input as [`judge_input`](wsm_inputs::judge_input) does, and keeps what is found.
pub fn explain(alloc: Global, input: Input<'_>) -> Result<Judgement, AllocError>
    ensures { IfOk result (spec.IsJudged input.entry) }
{
    match costed_of(alloc, input) {
        Ok(costed) => judged(alloc, input, costed),
        Err(End::Refused(why)) => Ok(Judgement::Refused(why)),
        Err(_) => Err(AllocError),
    }
}

fn judged(alloc: Global, input: Input<'_>, costed: Costed) -> Result<Judgement, AllocError>
    requires { judged_of input ≡ Ok costed }
    ensures { IfOk result (spec.IsJudged input.entry) }
{
    let ways = ways_in(alloc, input)?;
    match verify_costed(alloc, costed) {
        Ok(program) => Ok(Judgement::Accepted { program, ways }),
        Err((program, rejection)) => {
            if rejection.rule == Rule::Memory {
                return Err(AllocError);
            }
            Ok(Judgement::Rejected {
                program,
                rejection,
                ways,
            })
        }
    }
}

// How the columns of a query add up.
fn ways_in(alloc: Global, input: Input<'_>) -> Result<Option<Vec<Way>>, AllocError>
    ensures { IfOk result (λ ways. option_map (λ v. v.items) ways ≡ spec.ways_in input.entry) }
{
    match input {
        Input::Text(text) => ways_of_text(alloc, text),
        Input::Program(_) => Ok(None),
    }
}

fn ways_of_text(alloc: Global, text: &[u8]) -> Result<Option<Vec<Way>>, AllocError>
    ensures { IfOk result (λ ways. option_map (λ v. v.items) ways ≡ spec.ways_parsed (parse_of text.now)) }
{
    match parse(alloc, text) {
        Ok(query) => Ok(Some(ways_of(alloc, &query.columns)?)),
        Err(ParseRefusal::Memory) => Err(AllocError),
        Err(_) => Ok(None),
    }
}

/// What is told of an input that was judged, as one line of JSON.
pub fn explained_text(
    alloc: Global,
    input: Input<'_>,
    judgement: &Judgement,
) -> Result<String, AllocError>
    ensures { IfOk result (λ text. string_bytes text ≡ spec.explained_text input.entry judgement.now) }
{
    let value = explained_value(alloc, input, judgement)?;
    let mut text = value.to_string(alloc)?;
    text.push_str("\n")?;
    Ok(text)
}

fn explained_value(
    alloc: Global,
    input: Input<'_>,
    judgement: &Judgement,
) -> Result<Value, AllocError>
    ensures { IfOk result (λ v. view v ≡ spec.explained_data input.entry judgement.now) }
{
    let fault = fault_value(alloc, input, judgement)?;
    let joins = joins_value(alloc, judgement)?;
    let limits = limits_value(alloc)?;
    let parts = text_parts(alloc, input)?;
    let program = judged_value(alloc, judgement)?;
    let ranges = ranges_of(alloc, judgement)?;
    let sum = text_sum_value(alloc, input)?;
    let words = reserved_value(alloc)?;
    json!(in alloc; {
        "fault": fault,
        "joins": joins,
        "limits": limits,
        "parts": parts,
        "program": program,
        "ranges": ranges,
        "sum": sum,
        "verdict": verdict_word(judgement),
        "version": VERSION,
        "words": words
    })
}

fn verdict_word(judgement: &Judgement) -> &'static str
    ensures { result.now ≡ spec.verdict_word judgement.now }
{
    match judgement {
        Judgement::Refused(_) => "refused",
        Judgement::Rejected { .. } => "rejected",
        Judgement::Accepted { .. } => "accepted",
    }
}

// The parts of a query's text.
fn text_parts(alloc: Global, input: Input<'_>) -> Result<Value, AllocError>
    ensures { IfOk result (λ v. view v ≡ spec.text_parts input.entry) }
{
    match input {
        Input::Text(text) => parts_value(alloc, text),
        Input::Program(_) => Ok(Value::Null),
    }
}

// The sum by which rows and tables know a query's text.
fn text_sum_value(alloc: Global, input: Input<'_>) -> Result<Value, AllocError>
    ensures { IfOk result (λ v. view v ≡ spec.text_sum_data input.entry) }
{
    match input {
        Input::Text(text) => Ok(Value::from(text_sum(alloc, text)?)),
        Input::Program(_) => Ok(Value::Null),
    }
}

// The program, where there is one.
fn judged_value(alloc: Global, judgement: &Judgement) -> Result<Value, AllocError>
    ensures { IfOk result (λ v. view v ≡ spec.judged_data judgement.now) }
{
    match judgement {
        Judgement::Refused(_) => Ok(Value::Null),
        Judgement::Rejected { program, .. } => rejected_value(alloc, program),
        Judgement::Accepted { program, .. } => accepted_value(alloc, program),
    }
}

// What its accumulators may hold, where it is accepted.
fn ranges_of(alloc: Global, judgement: &Judgement) -> Result<Value, AllocError>
    ensures { IfOk result (λ v. view v ≡ spec.accepted_ranges judgement.now) }
{
    match judgement {
        Judgement::Refused(_) => Ok(Value::Null),
        Judgement::Rejected { .. } => Ok(Value::Null),
        Judgement::Accepted { program, .. } => ranges_value(alloc, program),
    }
}

// How the columns add up, where it is known.
fn joins_value(alloc: Global, judgement: &Judgement) -> Result<Value, AllocError>
    ensures { IfOk result (λ v. view v ≡ spec.joins_data judgement.now) }
{
    match judgement {
        Judgement::Refused(_) => Ok(Value::Null),
        Judgement::Rejected { ways, .. } => joins_of(alloc, ways),
        Judgement::Accepted { ways, .. } => joins_of(alloc, ways),
    }
}

fn joins_of(alloc: Global, ways: &Option<Vec<Way>>) -> Result<Value, AllocError>
    ensures { IfOk result (λ v. view v ≡ spec.joins_of (option_map (λ v. v.items) ways.now)) }
{
    match ways {
        Some(ways) => ways_value(alloc, ways),
        None => Ok(Value::Null),
    }
}

// Why the input isn't accepted.
fn fault_value(alloc: Global, input: Input<'_>, judgement: &Judgement) -> Result<Value, AllocError>
    ensures { IfOk result (λ v. view v ≡ spec.fault_data input.entry judgement.now) }
{
    match judgement {
        Judgement::Refused(why) => refusal_value(alloc, text_of(input), *why),
        Judgement::Rejected { rejection, .. } => rejection_value(alloc, *rejection),
        Judgement::Accepted { .. } => Ok(Value::Null),
    }
}

// The text of a query; a program has none.
fn text_of(input: Input<'_>) -> &[u8]
    ensures { result.now ≡ spec.text_of input.entry }
{
    match input {
        Input::Text(text) => text,
        Input::Program(_) => &[],
    }
}

fn refusal_value(alloc: Global, text: &[u8], why: InputRefusal) -> Result<Value, AllocError>
    ensures { IfOk result (λ v. view v ≡ spec.refusal_data text.now why) }
{
    let told = format!(in alloc; "{why}")?;
    match why {
        InputRefusal::Text(_, position) => text_fault_value(alloc, text, position, told),
        InputRefusal::Check(fault, part) => {
            let limit = limit_value(alloc, fault)?;
            let part = format!(in alloc; "{part}")?;
            json!(in alloc; {"limit": limit, "part": part, "told": told})
        }
        InputRefusal::Bytes(_) => json!(in alloc; {"told": told}),
        InputRefusal::Keys(_) => json!(in alloc; {"told": told}),
    }
}

// The fault at a position of a text: what stands there, and what may.
fn text_fault_value(
    alloc: Global,
    text: &[u8],
    position: Position,
    told: String,
) -> Result<Value, AllocError>
    ensures { IfOk result (λ v. view v ≡ spec.text_fault_data text.now position (string_bytes told)) }
{
    let spot = spot_at(text, position);
    let standing = standing_value(alloc, front(text, spot.begin), position)?;
    spot_value(alloc, position, spot.length, standing, told)
}

fn spot_value(
    alloc: Global,
    position: Position,
    length: usize,
    standing: Value,
    told: String,
) -> Result<Value, AllocError>
    ensures { IfOk result (λ v. view v ≡ spec.spot_data position length (view standing) (string_bytes told)) }
{
    json!(in alloc; {
        "column": position.column,
        "length": length,
        "line": position.line,
        "may_stand": standing,
        "told": told
    })
}

// What was counted of a query's code, and how much is allowed.
fn limit_value(alloc: Global, fault: CheckFault) -> Result<Value, AllocError>
    ensures { IfOk result (λ v. view v ≡ spec.limit_data fault) }
{
    match fault {
        CheckFault::Exceeds {
            limit,
            counted,
            allowed,
        } => json!(in alloc; {"allowed": allowed, "counted": counted, "of": limit_word(limit)}),
        _ => Ok(Value::Null),
    }
}

fn limit_word(limit: CodeLimit) -> &'static str
    ensures { result.now ≡ spec.limit_word limit }
{
    match limit {
        CodeLimit::Accumulators => "aggregates",
        CodeLimit::Where => "instructions of where",
        CodeLimit::Update => "instructions of update",
        CodeLimit::Fire => "instructions of fire",
        CodeLimit::Stack => "values on the stack",
        CodeLimit::Panes => "panes held",
    }
}

fn rejection_value(alloc: Global, rejection: Rejection) -> Result<Value, AllocError>
    ensures { IfOk result (λ v. view v ≡ spec.rejection_data rejection) }
{
    let told = format!(in alloc; "{}", End::Rejected(rejection))?;
    let part = format!(in alloc; "{}", rejection.part)?;
    json!(in alloc; {"part": part, "place": rejection.place, "told": told})
}
