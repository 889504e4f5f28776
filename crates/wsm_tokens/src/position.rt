//! Lines and columns.

ghost use Rattle.std.specs.Prelude.{◌≡◌, ◌≤◌, length, take, count_by, not};
ghost use Rattle.std.specs.List.{suffix_len};
ghost use Rattle.wsm_tokens.specs.Position.{is_line_feed, position_of};

use memchr::arch::all::memchr::One;
use memchr::memrchr;
use std::fmt;
use std::fmt::{Display, Formatter};

/// Where a byte of a text stands, from 1. A line ends at a line feed.
#[derive(Clone, Copy, Debug, PartialEq, Eq)]
pub struct Position {
    pub line: usize,
    /// In bytes.
    pub column: usize,
}

/// The position of a byte of a text by its offset in bytes, or just past the last one.
#[tactic(auto, unfolding(crate::specs::Position::position_of))]
pub fn position_at(text: &[u8], offset: usize) -> Position
    ensures { result ≡ position_of text.now offset }
{
    let before = front(text, offset);
    Position {
        line: 1 + line_feeds(before),
        column: 1 + column_of(before),
    }
}

fn front(text: &[u8], len: usize) -> &[u8]
    ensures { result.now ≡ take len text.now }
{
    if len < text.len() {
        text.split_at(len).0
    } else {
        text
    }
}

fn line_feeds(text: &[u8]) -> usize
    ensures { result ≡ count_by is_line_feed text.now }
{
    One::new(b'\n').count(text)
}

// How many bytes stand behind the last line feed.
fn column_of(text: &[u8]) -> usize
    ensures bytes { result ≡ suffix_len (λ c. not (is_line_feed c)) text.now }
    ensures within { result ≤ length text.now }
{
    match memrchr(b'\n', text) {
        Some(end) => text.len() - (end + 1),
        None => text.len(),
    }
}

impl Display for Position {
    ghost use Rattle.std.specs.Prelude.{Some};
    ghost use Rattle.wsm_tokens.specs.Position.{position_text};

    ghost output = { λ position. Some (position_text position) };

    fn fmt<W: fmt::Write>(&self, f: &mut Formatter<W>) -> fmt::Result {
        let line = self.line;
        let column = self.column;
        write!(f, "{line}:{column}")
    }
}
