//! What may stand at the place of a text from which on it can't be read.

ghost use Rattle.std.specs.Prelude.{◌≡◌, ◌++◌, ◌∷◌, IfOk, map};
ghost use Rattle.std.specs.List.{filter};
ghost use Rattle.serde_json.specs.Data.{string};
ghost use Rattle.serde_json.specs.View.{view};
ghost use Rattle.wsm_explain.specs.Json.{list_data};
ghost use Rattle.wsm_explain.specs.Parts.{place_of};
ghost use Rattle.wsm_explain.specs.Standing as spec;

use crate::parts::{between, place_of};
use crate::tokens::has_token;
use serde_json::Value;
use std::alloc::{AllocError, Global};
use wsm_query::parse;
use wsm_tokens::{ParseRefusal, Position, Reader, position_at};

/// What is tried at a place: kinds of tokens, the signs, the words of the language, and the end.
const CANDIDATES: [&str; 69] = [
    "a name",
    "a number",
    ",",
    ";",
    "(",
    ")",
    ".",
    "..",
    "+",
    "-",
    "*",
    "/",
    "%",
    "=",
    "<>",
    "<",
    "<=",
    ">",
    ">=",
    "KEYS",
    "KEY",
    "FIELD",
    "INT",
    "BOOL",
    "ENUM",
    "START",
    "SKEW",
    "LATENESS",
    "RECORDS",
    "BUDGET",
    "RECORD",
    "PANE",
    "HELD",
    "SELECT",
    "WHERE",
    "HAVING",
    "WINDOW",
    "FIXED",
    "SLIDING",
    "SESSION",
    "EVERY",
    "ACCUMULATING",
    "DISCARDING",
    "RETRACTING",
    "EARLY",
    "LATE",
    "EMIT",
    "PANES",
    "ISTREAM",
    "DSTREAM",
    "RSTREAM",
    "AND",
    "OR",
    "NOT",
    "TRUE",
    "FALSE",
    "COUNT",
    "SUM",
    "MIN",
    "MAX",
    "ANY",
    "ALL",
    "IF",
    "THEN",
    "ELSE",
    "END",
    "FROM",
    "SOURCES",
    "the end of the text",
];

/// Where the words of the language begin among them; the end stands behind these.
const FIRST_WORD: usize = 19;

/// Where a token of a text stands.
#[derive(Clone, Copy)]
pub struct Spot {
    /// In bytes.
    pub begin: usize,
    /// Its length; of a byte by which none begins it is 1, and 0 at the end of the text.
    pub length: usize,
}

/// The token of a text that stands at a position.
pub fn spot_at(text: &[u8], position: Position) -> Spot
    ensures begin { result.begin ≡ place_of (spec.tokens_from text.now position) }
    ensures length { result.length ≡ spec.length_at text.now (spec.tokens_from text.now position) }
{
    let mut reader = reader_at(text, position);
    Spot {
        begin: place_of(&reader),
        length: length_at(text, &mut reader),
    }
}

// Goes up to the token of a text that stands at a position.
fn reader_at(text: &[u8], position: Position) -> Reader<'_>
    ensures { result ≡ spec.tokens_from text.now position }
{
    let mut reader = Reader::new(text);
    while is_in_front(text, &reader, position) {
        reader.advance();
    }
    reader
}

// Whether the token in sight stands at another position.
fn is_in_front(text: &[u8], reader: &Reader, position: Position) -> bool
    ensures { result ≡ spec.is_in_front text.now position reader.now }
{
    has_token(reader) && position_at(text, place_of(reader)) != position
}

// The length of the token in sight, which is taken.
fn length_at(text: &[u8], reader: &mut Reader) -> usize
    ensures { result ≡ spec.length_at text.now reader.old }
{
    let begin = place_of(reader);
    if !has_token(reader) {
        return text.len().saturating_sub(begin).min(1);
    }
    reader.advance();
    between(text, begin, place_of(reader)).len()
}

/// The words of the language, which are no names.
pub fn reserved_value(alloc: Global) -> Result<Value, AllocError>
    ensures { IfOk result (λ v. view v ≡ spec.reserved_data) }
{
    list_value(alloc, &CANDIDATES[FIRST_WORD..CANDIDATES.len() - 1])
}

fn list_value(alloc: Global, words: &[&str]) -> Result<Value, AllocError>
    ensures { IfOk result (λ v. view v ≡ list_data string (map (λ w. w.now) words.now)) }
{
    let mut list = Vec::with_capacity(alloc, words.len())?;
    for word in words {
        list.push(Value::try_from_str(alloc, word)?)?;
    }
    Ok(Value::from(list))
}

/// What may stand at a position behind the text up to there.
pub fn standing_value(alloc: Global, front: &[u8], position: Position) -> Result<Value, AllocError>
    ensures { IfOk result (λ v. view v ≡ spec.standing_data front.now position) }
{
    words_value(alloc, front, position, &CANDIDATES)
}

// Those of some words that may stand there.
fn words_value(
    alloc: Global,
    front: &[u8],
    position: Position,
    words: &[&str],
) -> Result<Value, AllocError>
    ensures { IfOk result (λ v. view v ≡ list_data string (filter (spec.may_stand front.now position) (map (λ w. w.now) words.now))) }
{
    let mut list = Vec::new(alloc);
    for word in words {
        if may_stand(alloc, front, position, word)? {
            list.push(Value::try_from_str(alloc, word)?)?;
        }
    }
    Ok(Value::from(list))
}

// Whether a word may stand there.
fn may_stand(
    alloc: Global,
    front: &[u8],
    position: Position,
    word: &str,
) -> Result<bool, AllocError>
    ensures { IfOk result (λ b. b ≡ spec.may_stand front.now position word.now) }
{
    let text = tried(alloc, front, sample_of(word))?;
    match parse(alloc, &text) {
        Ok(_) => Ok(true),
        Err(ParseRefusal::Memory) => Err(AllocError),
        Err(ParseRefusal::Text(_, place)) => Ok(!is_next(place, position)),
    }
}

// A text with a word behind it.
fn tried(alloc: Global, front: &[u8], word: &[u8]) -> Result<Vec<u8>, AllocError>
    ensures { IfOk result (λ v. v.items ≡ spec.tried front.now word.now) }
{
    let mut text = Vec::new(alloc);
    text.extend_from_slice(front)?;
    text.push(b' ')?;
    text.extend_from_slice(word)?;
    Ok(text)
}

// What is tried for a kind of tokens; a word or a sign stands for itself.
fn sample_of(word: &str) -> &[u8]
    ensures { result.now ≡ spec.sample_of word.now }
{
    match word {
        "a name" => b"zz",
        "a number" => b"7",
        "the end of the text" => b"",
        _ => word.as_bytes(),
    }
}

// Whether a place stands one byte behind another one.
fn is_next(place: Position, position: Position) -> bool
    ensures { result ≡ spec.is_next place position }
{
    place.line == position.line && place.column.saturating_sub(1) == position.column
}
