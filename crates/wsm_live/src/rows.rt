//! Lines of a log as rows of a journal.

ghost use Rattle.std.specs.Prelude.{◌≡◌, ◌+◌, ◌<◌, ◌≤◌, ◌++◌, ◌∷◌, [], true, drop, length, take, IfOk, MatchOption, OnErr, OnOk};
ghost use Rattle.wsm_follow.specs.Ended.{ended_lines};
ghost use Rattle.wsm_journal.specs.Text.{are_rows};
ghost use Rattle.wsm_log.specs.LinesOf.{kept};
ghost use Rattle.wsm_live.specs.Kept.{rows_of};

use memchr::memchr;
use std::alloc::AllocError;

/// Where the first line of a text ends, if it has ended.
pub fn line_end(text: &[u8]) -> Option<usize>
    ensures { MatchOption result (ended_lines text.now ≡ [])
        (λ end. (end < length text.now) × (ended_lines text.now ≡ take end text.now ∷ ended_lines (drop (end + 1) text.now))) }
{
    memchr(b'\n', text)
}

// Adds the row of a line.
fn add_row(line: &[u8], rows: &mut Vec<u8>) -> Result<(), AllocError>
    ensures { OnOk result (rows.new.items ≡ rows.old.items ++ rows_of (line.now ∷ [])) }
{
    rows.push(b':')?;
    rows.extend_from_slice(line)?;
    Ok(rows.push(b'\n')?)
}

/// Puts the rows of a text's lines in the place of others, those that have ended, and answers how many they are.
///
/// # Errors
///
/// Memory was refused.
pub fn put_rows(text: &[u8], rows: &mut Vec<u8>) -> Result<usize, AllocError>
    ensures rows { OnOk result (rows.new.items ≡ rows_of (ended_lines text.now)) }
    ensures are_rows { OnOk result (are_rows rows.new.items ≡ true) }
    ensures count { IfOk result (λ count. count ≡ length (ended_lines text.now)) }
{
    rows.clear();
    let mut count = 0;
    let mut rest = text;
    while let Some(end) = line_end(rest) {
        add_row(&rest[..end], rows)?;
        count += 1;
        rest = &rest[end + 1..];
    }
    Ok(count)
}

/// What stands in front of a place.
pub fn in_front(text: &[u8], end: usize) -> &[u8]
    requires { end ≤ length text.now }
    ensures { result.now ≡ take end text.now }
{
    &text[..end]
}

/// What stands behind the line that ends at a place.
pub fn behind_line(text: &[u8], end: usize) -> &[u8]
    requires { end < length text.now }
    ensures { result.now ≡ drop (end + 1) text.now }
{
    &text[end + 1..]
}

/// The line that a row was made of.
pub fn line_of(row: &[u8]) -> &[u8]
    ensures { result.now ≡ drop 1 row.now }
{
    match row.split_first() {
        Some((_, line)) => line,
        None => row,
    }
}

/// As much of a line as is read.
pub fn kept_part(line: &[u8], longest: usize) -> &[u8]
    ensures { result.now ≡ kept longest line.now }
{
    if line.len() > 2 && longest < line.len() - 2 {
        &line[..longest + 2]
    } else {
        line
    }
}
