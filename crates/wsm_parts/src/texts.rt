//! The texts of cells.

ghost use Rattle.std.specs.Prelude.{◌≡◌, ◌++◌, ◌∷◌, ℕ, List, [], length, map, IfOk, OnOk, false, slice_index_or};
ghost use Rattle.wsm_parts.specs.Csv.{picked, place_from, unquoted_from};
ghost use Rattle.wsm_parts.specs.Spans.{part_of, span_text, texts_of};

use crate::csv::Span;
use std::alloc::{AllocError, Global};
use std::marker::Model;

// The bytes of a line from a place up to another.
fn part_of(line: &[u8], start: usize, end: usize) -> &[u8]
    ensures { result.now ≡ part_of line.now start end }
{
    let behind = &line[start.min(line.len())..];
    &behind[..end.saturating_sub(start).min(behind.len())]
}

// Adds a byte, where it isn't a quote that is left out, and answers whether it was left out.
fn add_byte(quote: bool, byte: u8, text: &mut Vec<u8>) -> Result<bool, AllocError>
    ensures { IfOk result (λ next. (bytes : List ℕ) → text.old.items ++ unquoted_from quote (byte ∷ bytes) ≡ text.new.items ++ unquoted_from next bytes) }
{
    if !quote && byte == b'"' {
        return Ok(true);
    }
    text.push(byte)?;
    Ok(false)
}

// Adds what stands between quotes.
fn add_unquoted(bytes: &[u8], text: &mut Vec<u8>) -> Result<(), AllocError>
    ensures { OnOk result (text.new.items ≡ text.old.items ++ unquoted_from false bytes.now) }
{
    let mut quote = false;
    for byte in bytes {
        quote = add_byte(quote, *byte, text)?;
    }
    Ok(())
}

// Has the text of a cell stand there.
fn read_cell(line: &[u8], span: Span, text: &mut Vec<u8>) -> Result<(), AllocError>
    ensures { OnOk result (text.new.items ≡ span_text line.now span) }
{
    text.clear();
    let bytes = part_of(line, span.start, span.end);
    if span.quoted {
        add_unquoted(bytes, text)
    } else {
        text.extend_from_slice(bytes)
    }
}

// Has the text of the cell of a number stand there, and an empty one past the last.
fn read_column(
    line: &[u8],
    spans: &[Span],
    column: usize,
    text: &mut Vec<u8>,
) -> Result<(), AllocError>
    ensures { OnOk result (text.new.items ≡ slice_index_or (texts_of line.now spans.now) column []) }
{
    if column < spans.len() {
        return read_cell(line, spans[column], text);
    }
    text.clear();
    Ok(())
}

/// The texts of some cells. Their room is kept when others are read in place of them.
#[derive(Drop)]
pub struct Texts {
    items: Vec<Vec<u8>>,
}

impl Model for Texts {
    ghost use Rattle.std.specs.Prelude.{ℕ, List, map};

    ghost Value = { List (List ℕ) };

    ghost view = { λ a. map (λ v. v.items) a.items.items };
}

impl Texts {
    /// No texts.
    pub fn new(alloc: Global) -> Texts
        ensures { result ≡ [] }
    {
        Texts {
            items: Vec::new(alloc),
        }
    }

    /// Has the texts of these columns stand there, of a line whose cells stand at these places.
    pub fn read(
        &mut self,
        alloc: Global,
        line: &[u8],
        spans: &[Span],
        columns: &[usize],
    ) -> Result<(), AllocError>
        ensures { OnOk result (self.new ≡ picked columns.now (texts_of line.now spans.now)) }
    {
        fit(alloc, &mut self.items, columns.len())?;
        read_columns(line, spans, columns, &mut self.items)
    }

    /// Has the texts of all cells stand there, of a line whose cells stand at these places.
    pub fn read_all(&mut self, alloc: Global, line: &[u8], spans: &[Span]) -> Result<(), AllocError>
        ensures { OnOk result (self.new ≡ texts_of line.now spans.now) }
    {
        fit(alloc, &mut self.items, spans.len())?;
        read_cells(line, spans, &mut self.items)
    }

    /// The text of a number, and an empty one past the last.
    pub fn at(&self, place: usize) -> &[u8]
        ensures { result.now ≡ slice_index_or self.now place [] }
    {
        if place < self.items.len() {
            self.items[place].as_slice()
        } else {
            b""
        }
    }

    /// The place of the first that has this text.
    pub fn place_of(&self, name: &[u8]) -> Option<usize>
        ensures { result ≡ place_from 0 name.now self.now }
    {
        place_of(name, &self.items)
    }
}

// The place of the first text that is this one.
fn place_of(name: &[u8], texts: &[Vec<u8>]) -> Option<usize>
    ensures { result ≡ place_from 0 name.now (map (λ v. v.items) texts.now) }
{
    for (i, text) in texts.iter().enumerate() {
        if name == text.as_slice() {
            return Some(i);
        }
    }
    None
}

// Has there be so many texts, whatever they are.
fn fit(alloc: Global, texts: &mut Vec<Vec<u8>>, count: usize) -> Result<(), AllocError>
    ensures { OnOk result (length texts.new.items ≡ count) }
{
    texts.truncate(count);
    while texts.len() < count {
        texts.push(Vec::new(alloc))?;
    }
    Ok(())
}

// Has the texts of these columns stand in place of as many others.
fn read_columns(
    line: &[u8],
    spans: &[Span],
    columns: &[usize],
    texts: &mut Vec<Vec<u8>>,
) -> Result<(), AllocError>
    requires { length texts.old.items ≡ length columns.now }
    ensures { OnOk result (map (λ v. v.items) texts.new.items ≡ picked columns.now (texts_of line.now spans.now)) }
{
    for (k, column) in columns.iter().enumerate() {
        read_column(line, spans, *column, &mut texts[k])?;
    }
    Ok(())
}

// Has the texts of all cells stand in place of as many others.
fn read_cells(line: &[u8], spans: &[Span], texts: &mut Vec<Vec<u8>>) -> Result<(), AllocError>
    requires { length texts.old.items ≡ length spans.now }
    ensures { OnOk result (map (λ v. v.items) texts.new.items ≡ texts_of line.now spans.now) }
{
    for (k, span) in spans.iter().enumerate() {
        read_cell(line, *span, &mut texts[k])?;
    }
    Ok(())
}

/// The texts of all cells of a line that stand at these places.
pub fn texts_of(alloc: Global, line: &[u8], spans: &[Span]) -> Result<Texts, AllocError>
    ensures { IfOk result (λ texts. texts ≡ texts_of line.now spans.now) }
{
    let mut items = Vec::with_capacity(alloc, spans.len())?;
    for span in spans {
        let mut text = Vec::new(alloc);
        read_cell(line, *span, &mut text)?;
        items.push(text)?;
    }
    Ok(Texts { items })
}
