//! The parts of a query's text, told by the words that begin them.

ghost use Rattle.std.specs.Prelude.{◌≡◌, ◌++◌, IfOk, OnOk, drop, take, unwrap_or};
ghost use Rattle.serde_json.specs.View.{view};
ghost use Rattle.wsm_explain.specs.Json.{list_data};
ghost use Rattle.wsm_explain.specs.Parts as spec;

use crate::texts::text_value;
use crate::tokens::has_token;
use serde_json::{Value, json};
use std::alloc::{AllocError, Global};
use wsm_tokens::{Reader, Stop, position_at};

/// A part of a query's text, named as refusals name it, without its number.
#[derive(Clone, Copy, Debug, PartialEq, Eq)]
pub enum Piece {
    /// The list of keys.
    Keys,
    /// A field.
    Field,
    /// The sources of watermarks.
    Sources,
    /// START, SKEW, LATENESS and RECORDS.
    Clock,
    /// The numbers of BUDGET.
    Budget,
    /// A column.
    Column,
    /// The condition on records.
    Where,
    /// The condition on panes.
    Having,
    /// The shape and the mode.
    Window,
    /// EARLY EVERY and LATE EVERY.
    Trigger,
    /// The form.
    Emit,
}

/// Whether another part begins at a token.
#[derive(Clone, Copy)]
pub enum Turn {
    /// None does.
    Stays,
    /// One begins with the token.
    Begins(Piece),
    /// One begins behind the token.
    Follows(Piece),
}

/// A part whose end isn't read yet.
#[derive(Clone, Copy)]
pub struct Open {
    pub piece: Piece,
    /// Where it begins, in bytes.
    pub begin: usize,
}

/// A part, from one offset up to another one, in bytes. Blanks may stand at its end.
#[derive(Clone, Copy, Debug, PartialEq, Eq)]
pub struct Span {
    pub piece: Piece,
    pub begin: usize,
    pub end: usize,
}

/// The parts of a text, as a list.
pub fn parts_value(alloc: Global, text: &[u8]) -> Result<Value, AllocError>
    ensures { IfOk result (λ v. view v ≡ spec.parts_data text.now) }
{
    let spans = spans_of(alloc, text)?;
    spans_value(alloc, text, &spans)
}

fn spans_value(alloc: Global, text: &[u8], spans: &[Span]) -> Result<Value, AllocError>
    ensures { IfOk result (λ v. view v ≡ list_data (spec.span_data text.now) spans.now) }
{
    let mut list = Vec::with_capacity(alloc, spans.len())?;
    for span in spans {
        list.push(span_value(alloc, text, span)?)?;
    }
    Ok(Value::from(list))
}

fn span_value(alloc: Global, text: &[u8], span: &Span) -> Result<Value, AllocError>
    ensures { IfOk result (λ v. view v ≡ spec.span_data text.now span.now) }
{
    let position = position_at(text, span.begin);
    let own = text_in(text, *span);
    let told = text_value(alloc, own)?;
    json!(in alloc; {
        "column": position.column,
        "length": own.len(),
        "line": position.line,
        "part": piece_word(span.piece),
        "text": told
    })
}

// The text of a part.
fn text_in(text: &[u8], span: Span) -> &[u8]
    ensures { result.now ≡ spec.text_in text.now span }
{
    between(text, span.begin, span.end)
}

/// The text from one offset up to another one, without the blanks at its end.
pub fn between(text: &[u8], begin: usize, end: usize) -> &[u8]
    ensures { result.now ≡ spec.between text.now begin end }
{
    behind(front(text, end), begin).trim_ascii_end()
}

/// The text up to an offset.
pub fn front(text: &[u8], len: usize) -> &[u8]
    ensures { result.now ≡ take len text.now }
{
    if len < text.len() {
        text.split_at(len).0
    } else {
        text
    }
}

fn behind(text: &[u8], len: usize) -> &[u8]
    ensures { result.now ≡ drop len text.now }
{
    if len < text.len() {
        text.split_at(len).1
    } else {
        &[]
    }
}

fn piece_word(piece: Piece) -> &'static str
    ensures { result.now ≡ spec.piece_word piece }
{
    match piece {
        Piece::Keys => "keys",
        Piece::Field => "field",
        Piece::Sources => "sources",
        Piece::Clock => "clock",
        Piece::Budget => "budget",
        Piece::Column => "column",
        Piece::Where => "where",
        Piece::Having => "having",
        Piece::Window => "window",
        Piece::Trigger => "trigger",
        Piece::Emit => "emit",
    }
}

// The parts of a text, in their order.
fn spans_of(alloc: Global, text: &[u8]) -> Result<Vec<Span>, AllocError>
    ensures { IfOk result (λ v. v.items ≡ spec.spans_of text.now) }
{
    let mut reader = Reader::new(text);
    let mut part = Open {
        piece: Piece::Keys,
        begin: place_of(&reader),
    };
    let mut spans = Vec::new(alloc);
    while has_token(&reader) {
        let at = place_of(&reader);
        let turn = turn_of(part.piece, &reader);
        reader.advance();
        part = go_on(&mut spans, part, at, begun(turn, at, place_of(&reader)))?;
    }
    spans.push(closed(part, place_of(&reader)))?;
    Ok(spans)
}

// The part that is open behind a token: where another one begins, the one before ends at the token.
fn go_on(
    spans: &mut Vec<Span>,
    part: Open,
    at: usize,
    next: Option<Open>,
) -> Result<Open, AllocError>
    ensures spans { OnOk result (spans.new.items ≡ spans.old.items ++ spec.ended part at next) }
    ensures part { IfOk result (λ o. o ≡ unwrap_or next part) }
{
    match next {
        None => Ok(part),
        Some(next) => {
            spans.push(closed(part, at))?;
            Ok(next)
        }
    }
}

/// Where the token in sight stands, or the text ends.
pub fn place_of(reader: &Reader) -> usize
    ensures { result ≡ spec.place_of reader.now }
{
    match reader.unexpected() {
        Stop::Text(fault) => fault.offset,
        Stop::Memory => 0,
    }
}

fn begun(turn: Turn, at: usize, behind: usize) -> Option<Open>
    ensures { result ≡ spec.begun turn at behind }
{
    match turn {
        Turn::Stays => None,
        Turn::Begins(piece) => Some(Open { piece, begin: at }),
        Turn::Follows(piece) => Some(Open {
            piece,
            begin: behind,
        }),
    }
}

fn closed(part: Open, end: usize) -> Span
    ensures { result ≡ spec.closed part end }
{
    Span {
        piece: part.piece,
        begin: part.begin,
        end,
    }
}

// Whether another part begins at the token in sight.
fn turn_of(piece: Piece, reader: &Reader) -> Turn
    ensures { result ≡ spec.turn_of piece reader.now }
{
    if reader.begins(b"FIELD") {
        Turn::Begins(Piece::Field)
    } else if reader.begins(b"SOURCES") {
        Turn::Begins(Piece::Sources)
    } else if reader.begins(b"START") {
        Turn::Begins(Piece::Clock)
    } else if reader.begins(b"BUDGET") {
        Turn::Begins(Piece::Budget)
    } else {
        turn_selected(piece, reader)
    }
}

// The same from SELECT on.
fn turn_selected(piece: Piece, reader: &Reader) -> Turn
    ensures { result ≡ spec.turn_selected piece reader.now }
{
    if reader.begins(b"SELECT") {
        Turn::Follows(Piece::Column)
    } else if reader.begins(b",") {
        comma_in(piece)
    } else if reader.begins(b"WHERE") {
        Turn::Follows(Piece::Where)
    } else if reader.begins(b"HAVING") {
        Turn::Follows(Piece::Having)
    } else {
        turn_at_end(piece, reader)
    }
}

// The same from WINDOW on.
fn turn_at_end(piece: Piece, reader: &Reader) -> Turn
    ensures { result ≡ spec.turn_at_end piece reader.now }
{
    if reader.begins(b"WINDOW") {
        window_in(piece)
    } else if reader.begins(b"EARLY") {
        Turn::Begins(Piece::Trigger)
    } else if reader.begins(b"LATE") {
        late_in(piece)
    } else if reader.begins(b"EMIT") {
        Turn::Begins(Piece::Emit)
    } else {
        Turn::Stays
    }
}

// A comma begins another column, and is between names elsewhere.
fn comma_in(piece: Piece) -> Turn
    ensures { result ≡ spec.comma_in piece }
{
    match piece {
        Piece::Column => Turn::Follows(Piece::Column),
        _ => Turn::Stays,
    }
}

// FROM WINDOW is of the clock.
fn window_in(piece: Piece) -> Turn
    ensures { result ≡ spec.window_in piece }
{
    match piece {
        Piece::Clock => Turn::Stays,
        _ => Turn::Begins(Piece::Window),
    }
}

// The second trigger is of the part of the first.
fn late_in(piece: Piece) -> Turn
    ensures { result ≡ spec.late_in piece }
{
    match piece {
        Piece::Trigger => Turn::Stays,
        _ => Turn::Begins(Piece::Trigger),
    }
}
