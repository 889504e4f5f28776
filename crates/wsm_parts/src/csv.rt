//! Rows of CSV, one in each line.

ghost use Rattle.std.specs.Prelude.{◌≡◌, ◌<◌, ◌≤◌, ◌+◌, ℕ, List, [], length, map, IfOk, IfSome, OnOk, Some, None, option_map, slice_index};
ghost use Rattle.wsm_parts.specs.Csv.{advanced, all_cells, finished, is_closed, only_if, cells_of, columns_of, picked, place_from, plain_move, move_of, unquoted_from};
ghost use Rattle.wsm_parts.specs.Spans.{part_of, row_seen, span_text, texts_of};

use std::alloc::{AllocError, Global};

/// Where in a cell a reader is.
#[derive(Clone, Copy)]
pub enum Spot {
    /// At its beginning.
    Begins,
    /// In a cell without quotes.
    Plain,
    /// Between quotes.
    Quoted,
    /// Behind a quote that closes the cell, or is doubled.
    Closed,
}

/// What a byte does.
#[derive(Clone, Copy)]
pub enum Move {
    /// It is the quote that a cell begins with.
    Opens,
    /// It ends a cell.
    Ends,
    /// It is one of the cell's bytes.
    Adds(Spot),
}

/// Where a cell stands in its line: behind the quote that it begins with, and with the one that closes it.
#[derive(Clone, Copy)]
pub struct Span {
    pub start: usize,
    pub end: usize,
    pub quoted: bool,
}

/// Where a reader is in a row.
#[derive(Clone, Copy)]
pub struct Cursor {
    pub spot: Spot,
    /// Where the cell begins.
    pub start: usize,
}

// A byte of a cell without quotes, or a separator.
fn plain_move(separator: u8, byte: u8) -> Option<Move>
    ensures { result ≡ plain_move separator byte }
{
    if byte == b'"' {
        None
    } else if byte == separator {
        Some(Move::Ends)
    } else if byte == 0 {
        None
    } else {
        Some(Move::Adds(Spot::Plain))
    }
}

// What a byte does.
fn move_of(separator: u8, spot: Spot, byte: u8) -> Option<Move>
    ensures { result ≡ move_of separator spot byte }
{
    match spot {
        Spot::Begins => {
            if byte == b'"' {
                Some(Move::Opens)
            } else {
                plain_move(separator, byte)
            }
        }
        Spot::Plain => plain_move(separator, byte),
        Spot::Quoted => {
            if byte == b'"' {
                Some(Move::Adds(Spot::Closed))
            } else if byte == 0 {
                None
            } else {
                Some(Move::Adds(Spot::Quoted))
            }
        }
        Spot::Closed => {
            if byte == b'"' {
                Some(Move::Adds(Spot::Quoted))
            } else if byte == separator {
                Some(Move::Ends)
            } else {
                None
            }
        }
    }
}

// Whether a quote closed the cell.
fn is_closed(spot: Spot) -> bool
    ensures { result ≡ is_closed spot }
{
    matches!(spot, Spot::Closed)
}

// Has the cell that ends at a place stand behind the others.
fn end_cell(cursor: Cursor, end: usize, spans: &mut Vec<Span>) -> Result<(), AllocError>
    ensures { OnOk result ((line : List ℕ) → texts_of line spans.new.items ≡ all_cells (row_seen line end cursor spans.old.items)) }
{
    spans.push(Span {
        start: cursor.start,
        end,
        quoted: is_closed(cursor.spot),
    })?;
    Ok(())
}

// The row with the byte at a place.
fn advance(
    separator: u8,
    line: &[u8],
    i: usize,
    cursor: Cursor,
    spans: &mut Vec<Span>,
) -> Result<Option<Cursor>, AllocError>
    requires inside { i < length line.now }
    requires begun { cursor.start ≤ i }
    ensures row { IfOk result (λ next. option_map (λ c. row_seen line.now (i + 1) c spans.new.items) next
        ≡ advanced separator (row_seen line.now i cursor spans.old.items) (slice_index line.now i)) }
    ensures begun { IfOk result (λ next. IfSome next (λ c. c.start ≤ i + 1)) }
{
    match move_of(separator, cursor.spot, line[i]) {
        None => Ok(None),
        Some(Move::Opens) => Ok(Some(Cursor {
            spot: Spot::Quoted,
            start: i + 1,
        })),
        Some(Move::Ends) => {
            end_cell(cursor, i, spans)?;
            Ok(Some(Cursor {
                spot: Spot::Begins,
                start: i + 1,
            }))
        }
        Some(Move::Adds(spot)) => Ok(Some(Cursor {
            spot,
            start: cursor.start,
        })),
    }
}

// The row that ends at a place, and whether it is one.
fn finish(cursor: Cursor, end: usize, spans: &mut Vec<Span>) -> Result<bool, AllocError>
    ensures { IfOk result (λ whole. (line : List ℕ) →
        finished (row_seen line end cursor spans.old.items) cursor.spot ≡ only_if whole (texts_of line spans.new.items)) }
{
    match cursor.spot {
        Spot::Quoted => Ok(false),
        Spot::Begins | Spot::Plain | Spot::Closed => {
            end_cell(cursor, end, spans)?;
            Ok(true)
        }
    }
}

/// Finds the cells of a line, in place of those that are there, and answers whether it is a row of CSV.
pub fn find_cells(separator: u8, line: &[u8], spans: &mut Vec<Span>) -> Result<bool, AllocError>
    ensures { IfOk result (λ whole. cells_of separator line.now ≡ only_if whole (texts_of line.now spans.new.items)) }
{
    spans.clear();
    let mut cursor = Cursor {
        spot: Spot::Begins,
        start: 0,
    };
    for i in 0..line.len() {
        match advance(separator, line, i, cursor, spans)? {
            Some(next) => cursor = next,
            None => return Ok(false),
        }
    }
    finish(cursor, line.len(), spans)
}
