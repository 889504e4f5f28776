//! Records of a journal, read where they stand.

ghost use Rattle.std.specs.Prelude.{◌≡◌, ◌+◌, ◌<◌, ◌≤◌, ◌++◌, true, length, IfSome, option_map};
ghost use Rattle.wsm_sums.specs.Crc.{sum_of};
ghost use Rattle.wsm_journal.specs.Text.{follows};
ghost use Rattle.wsm_journal.specs.Reading.{mark_from, next_whole, whole_at, whole_with};
ghost use Rattle.wsm_journal.specs.Seen.{mark_seen, whole_seen};

use crate::marks::{MarkLine, is_mark, mark_of, next_mark};
use wsm_sums::Crc32;

/// A record of a journal. Its bytes are the journal's own.
#[derive(Clone, Copy)]
pub struct Record<'t> {
    /// Its number, by one more than that of the record before it.
    pub number: u64,
    /// How many lines of the log it came from.
    pub lines: u64,
    /// The bytes of its lines, each with its line feed.
    pub rows: &'t [u8],
    /// Where in the log its source stands.
    pub position: &'t [u8],
}

/// A record that is whole, and where its text ends.
#[derive(Clone, Copy)]
pub struct Found<'t> {
    pub record: Record<'t>,
    pub end: usize,
}

/// The sum of three texts behind one another.
pub fn sum_of_three(first: &[u8], second: &[u8], third: &[u8]) -> u32
    ensures { result ≡ sum_of (first.now ++ (second.now ++ third.now)) }
{
    let mut sum = Crc32::new();
    sum.add(first);
    sum.add(second);
    sum.add(third);
    sum.sum()
}

/// The record of which the last line is this one, at a place, where that has its sum.
pub fn whole_with<'t>(text: &'t [u8], at: usize, mark: &MarkLine<'t>) -> Option<Found<'t>>
    requires { at + mark.now.size ≤ length text.now }
    ensures value { option_map whole_seen result ≡ whole_with text.now at (mark_seen mark.now) }
    ensures end { IfSome result (λ f. f.end ≡ at + mark.now.size) }
{
    if mark.bytes > at as u64 {
        return None;
    }
    let rows = &text[at - mark.bytes as usize..at];
    if mark.sum == sum_of_three(rows, mark.head, mark.position) as u64 {
        Some(Found {
            record: Record {
                number: mark.number,
                lines: mark.lines,
                rows,
                position: mark.position,
            },
            end: at + mark.size,
        })
    } else {
        None
    }
}

// The whole record of which the last line begins at a place.
#[tactic(auto, unfolding(crate::specs::Reading::whole_at))]
fn whole_at(text: &[u8], at: usize) -> Option<Found<'_>>
    requires { at ≤ length text.now }
    ensures value { option_map whole_seen result ≡ whole_at text.now at }
    ensures within { IfSome result (λ f. (at < f.end) × (f.end ≤ length text.now)) }
{
    let mark = mark_of(&text[at..])?;
    whole_with(text, at, &mark)
}

/// Where the first line begins that begins as the last one of a record.
pub fn mark_place(text: &[u8]) -> Option<usize>
    ensures value { result ≡ mark_from 0 true text.now }
    ensures inside { IfSome result (λ i. i < length text.now) }
{
    if is_mark(text) {
        Some(0)
    } else {
        next_mark(text)
    }
}

// Whether a number rises by one from the last one, if there is one.
fn follows(last: Option<u64>, number: u64) -> bool
    ensures { result ≡ follows last number }
{
    match last {
        None => true,
        Some(last) => last < number && number - last == 1,
    }
}

/// The record that a text begins with, if it is whole and its number follows.
#[tactic(auto, unfolding(crate::specs::Reading::next_whole))]
pub fn next_whole(last: Option<u64>, text: &[u8]) -> Option<Found<'_>>
    ensures value { option_map whole_seen result ≡ next_whole last text.now }
    ensures within { IfSome result (λ f. (0 < f.end) × (f.end ≤ length text.now)) }
{
    let at = mark_place(text)?;
    let found = whole_at(text, at)?;
    if found.record.rows.len() == at && follows(last, found.record.number) {
        Some(found)
    } else {
        None
    }
}
