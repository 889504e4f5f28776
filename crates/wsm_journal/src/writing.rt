//! The text of records.

ghost use Rattle.std.specs.Prelude.{◌≡◌, ◌<◌, ◌≤◌, ◌^◌, true, ◌∷◌, ◌++◌, [], drop, length, take, vec_len, OnErr, OnOk};
ghost use Rattle.wsm_sums.specs.Crc.{sum_of};
ghost use Rattle.std.specs.Fmt.{decimal};
ghost use Rattle.wsm_journal.specs.Text.{are_rows, ends_line_from, entry_head, entry_sum, is_position, record_text};
ghost use Rattle.wsm_journal.specs.Seen.{entry_seen};

use crate::marks::{MAX_POSITION, has_no_line_feed};
use crate::records::{Record, mark_place};
use itoa::Buffer;
use std::alloc::AllocError;
use wsm_sums::Crc32;

// Whether bytes end a line, or are none.
fn ends_line(bytes: &[u8]) -> bool
    ensures { result ≡ ends_line_from true bytes.now }
{
    match bytes.last() {
        Some(byte) => *byte == b'\n',
        None => true,
    }
}

/// Whether bytes are whole lines, of which none begins with `at,`.
pub fn are_rows(rows: &[u8]) -> bool
    ensures { result ≡ are_rows rows.now }
{
    match mark_place(rows) {
        Some(_) => false,
        None => ends_line(rows),
    }
}

/// Whether bytes can be a position.
pub fn is_position(position: &[u8]) -> bool
    ensures { result ≡ is_position position.now }
{
    position.len() <= MAX_POSITION && has_no_line_feed(position)
}

// A comma and a number.
fn add_number(number: u64, text: &mut Vec<u8>) -> Result<(), AllocError>
    ensures ok { OnOk result (text.new.items ≡ text.old.items ++ 44 ∷ decimal number) }
    ensures kept { take (vec_len text.old) text.new.items ≡ text.old.items }
{
    let mut digits = Buffer::new();
    text.push(b',')?;
    text.extend_from_slice(digits.format(number).as_bytes())
}

// The line behind a record's lines, up to its sum.
#[tactic(auto, unfolding(crate::specs::Text::entry_head, crate::specs::Text::head_text))]
fn add_head(written: &Record<'_>, text: &mut Vec<u8>) -> Result<(), AllocError>
    ensures ok { OnOk result (text.new.items ≡ text.old.items ++ entry_head (entry_seen written.now)) }
    ensures kept { take (vec_len text.old) text.new.items ≡ text.old.items }
{
    text.extend_from_slice(b"at")?;
    add_number(written.number, text)?;
    add_number(written.rows.len() as u64, text)?;
    add_number(written.lines, text)?;
    Ok(text.push(b',')?)
}

// The sum of what stands behind a place of a text, and of a position.
fn sum_behind_place(text: &[u8], start: usize, position: &[u8]) -> u32
    requires { start ≤ length text.now }
    ensures { result ≡ sum_of (drop start text.now ++ position.now) }
{
    let mut sum = Crc32::new();
    sum.add(&text[start..]);
    sum.add(position);
    sum.sum()
}

// The line behind a record's lines, from its sum on.
fn add_rest(sum: u32, position: &[u8], text: &mut Vec<u8>) -> Result<(), AllocError>
    ensures ok { OnOk result (text.new.items ≡ text.old.items ++ (decimal sum ++ 44 ∷ (position.now ++ 10 ∷ []))) }
    ensures kept { take (vec_len text.old) text.new.items ≡ text.old.items }
{
    let mut digits = Buffer::new();
    text.extend_from_slice(digits.format(sum).as_bytes())?;
    text.push(b',')?;
    text.extend_from_slice(position)?;
    Ok(text.push(b'\n')?)
}

// A record's text.
#[tactic(auto, unfolding(crate::specs::Text::record_text, crate::specs::Text::mark_text, crate::specs::Text::entry_sum))]
fn add_record(written: &Record<'_>, text: &mut Vec<u8>) -> Result<(), AllocError>
    ensures ok { OnOk result (text.new.items ≡ text.old.items ++ record_text (entry_seen written.now)) }
    ensures sum { OnOk result (entry_sum (entry_seen written.now) < 2 ^ 64) }
    ensures kept { take (vec_len text.old) text.new.items ≡ text.old.items }
{
    let start = text.len();
    text.extend_from_slice(written.rows)?;
    add_head(written, text)?;
    let sum = sum_behind_place(text.as_slice(), start, written.position);
    add_rest(sum, written.position, text)
}

/// Adds a record's text behind a text.
///
/// # Errors
///
/// Where there is no memory. The text is then as it was.
pub fn append_record(written: &Record<'_>, text: &mut Vec<u8>) -> Result<(), AllocError>
    ensures ok { OnOk result (text.new.items ≡ text.old.items ++ record_text (entry_seen written.now)) }
    ensures sum { OnOk result (entry_sum (entry_seen written.now) < 2 ^ 64) }
    ensures err { OnErr result (text.new.items ≡ text.old.items) }
{
    let start = text.len();
    let outcome = add_record(written, text);
    if outcome.is_err() {
        text.truncate(start);
    }
    outcome
}
