//! The line behind a record's lines.

ghost use Rattle.std.specs.Prelude.{◌≡◌, ◌<◌, ◌≤◌, ◌+◌, false, length, IfSome, IsTrue, option_map};
ghost use Rattle.wsm_journal.specs.Text.{has_no_line_feed, is_mark};
ghost use Rattle.wsm_journal.specs.Reading.{line_end_from, mark_from, mark_of, position_of};
ghost use Rattle.wsm_journal.specs.Seen.{mark_seen};

use crate::numbers::number_of;
use memchr::{memchr, memmem};

/// The most bytes of a position.
pub const MAX_POSITION: usize = 1024;

/// What the line says, its bytes up to the sum, and how many bytes it takes with its line feed.
#[derive(Clone, Copy)]
pub struct MarkLine<'t> {
    pub number: u64,
    pub bytes: u64,
    pub lines: u64,
    pub sum: u64,
    pub head: &'t [u8],
    pub position: &'t [u8],
    pub size: usize,
}

/// Whether a text begins as the line does.
pub fn is_mark(text: &[u8]) -> bool
    ensures value { result ≡ is_mark text.now }
    ensures long { IsTrue result → 3 ≤ length text.now }
{
    text.starts_with(b"at,")
}

/// Where the first line behind that at the front begins that begins so.
pub fn next_mark(text: &[u8]) -> Option<usize>
    ensures value { result ≡ mark_from 0 false text.now }
    ensures inside { IfSome result (λ i. i < length text.now) }
{
    match memmem::find(text, b"\nat,") {
        Some(end) => Some(end + 1),
        None => None,
    }
}

// Where a line ends.
fn line_end(text: &[u8]) -> Option<usize>
    ensures value { result ≡ line_end_from 0 text.now }
    ensures inside { IfSome result (λ i. i < length text.now) }
{
    memchr(b'\n', text)
}

/// Whether bytes have no line feed.
pub fn has_no_line_feed(bytes: &[u8]) -> bool
    ensures { result ≡ has_no_line_feed bytes.now }
{
    line_end(bytes).is_none()
}

// The position that a text begins with, and the text behind its line.
fn position_of(text: &[u8]) -> Option<(&[u8], &[u8])>
    ensures value { option_map (λ p. (p.0.now, p.1.now)) result ≡ position_of text.now }
    ensures shorter { IfSome result (λ p. length p.1.now < length text.now) }
{
    let end = line_end(text)?;
    if end <= MAX_POSITION {
        Some((&text[..end], &text[end + 1..]))
    } else {
        None
    }
}

/// The line that a text begins with, if it is one.
#[tactic(auto, unfolding(crate::specs::Reading::mark_of))]
pub fn mark_of(text: &[u8]) -> Option<MarkLine<'_>>
    ensures value { option_map mark_seen result ≡ mark_of text.now }
    ensures within { IfSome result (λ m. (0 < m.size) × (m.size ≤ length text.now)) }
{
    if !is_mark(text) {
        return None;
    }
    let (number, rest) = number_of(&text[3..])?;
    let (bytes, rest) = number_of(rest)?;
    let (lines, after_lines) = number_of(rest)?;
    let (sum, rest) = number_of(after_lines)?;
    let (position, rest) = position_of(rest)?;
    Some(MarkLine {
        number,
        bytes,
        lines,
        sum,
        head: &text[..text.len() - after_lines.len()],
        position,
        size: text.len() - rest.len(),
    })
}
