//! What a text is read as.

ghost use Rattle.std.specs.Prelude.{◌≡◌, ◌+◌, ◌≤◌, None, length, map, IfOk};
ghost use Rattle.wsm_journal.specs.Text.{AreRecords};
ghost use Rattle.wsm_journal.specs.Reading.{behind_of, is_damaged, is_later, is_whole_later, may_be_later, read_journal, whole_at, whole_with};
ghost use Rattle.wsm_journal.specs.Seen.{entry_seen, mark_seen, reading_seen};

use crate::marks::{MarkLine, mark_of};
use crate::records::{Record, next_whole, whole_with};
use std::alloc::{AllocError, Global};

/// What stands behind the last whole record of a journal.
#[derive(Clone, Copy, Debug, PartialEq, Eq)]
pub enum Behind {
    /// No byte.
    Nothing,
    /// What is left of an append that didn't come to its end.
    Torn,
    /// A later record is whole there, so that one before it was whole once: no append that didn't come to
    /// its end leaves this.
    Damage,
}

/// What a text is read as.
#[derive(Drop)]
pub struct Journal<'t> {
    /// The records that are whole, from the front on.
    pub records: Vec<Record<'t>>,
    /// How many bytes they take.
    pub size: usize,
    /// What stands behind them.
    pub behind: Behind,
}

// Whether a number comes later than the last one, if there is one.
fn is_later(last: Option<u64>, number: u64) -> bool
    ensures { result ≡ is_later last number }
{
    match last {
        None => true,
        Some(last) => last < number,
    }
}

// Whether a record is looked for of which the last line is this one: one that comes later, where it is told
// that a line begins, or without rows. So what the sums of a text cost goes by its lines.
fn may_be_later(last: Option<u64>, begins: bool, mark: &MarkLine<'_>) -> bool
    ensures { result ≡ may_be_later last begins (mark_seen mark.now) }
{
    (begins || mark.bytes == 0) && is_later(last, mark.number)
}

// Whether such a record is whole at a place.
fn is_later_with(
    last: Option<u64>,
    begins: bool,
    text: &[u8],
    at: usize,
    mark: &MarkLine<'_>,
) -> bool
    requires { at + mark.now.size ≤ length text.now }
    ensures { result ≡ is_whole_later last begins (whole_with text.now at (mark_seen mark.now)) }
{
    if may_be_later(last, begins, mark) {
        whole_with(text, at, mark).is_some()
    } else {
        false
    }
}

// Whether a record that comes later is whole at a place, of which it is told whether a line begins there.
#[tactic(auto, unfolding(crate::specs::Reading::whole_at))]
fn is_whole_later(last: Option<u64>, begins: bool, text: &[u8], at: usize) -> bool
    requires { at ≤ length text.now }
    ensures { result ≡ is_whole_later last begins (whole_at text.now at) }
{
    match mark_of(&text[at..]) {
        Some(mark) => is_later_with(last, begins, text, at, &mark),
        None => false,
    }
}

// Whether a record that comes later is whole in a text.
fn is_damaged(last: Option<u64>, text: &[u8]) -> bool
    ensures { result ≡ is_damaged last text.now }
{
    let mut begins = true;
    for (i, byte) in text.iter().enumerate() {
        if is_whole_later(last, begins, text, i) {
            return true;
        }
        begins = *byte == b'\n';
    }
    false
}

// What stands behind the last whole record.
fn behind_of(last: Option<u64>, text: &[u8]) -> Behind
    ensures { result ≡ behind_of last text.now }
{
    if text.is_empty() {
        Behind::Nothing
    } else if is_damaged(last, text) {
        Behind::Damage
    } else {
        Behind::Torn
    }
}

/// Reads the records that are whole from the front of a text on, up to the first that isn't or whose number
/// isn't by one more than that of the one before, and says what stands behind them. They are ones that can be written.
///
/// # Errors
///
/// Where there is no memory for the list of records.
pub fn read_journal(alloc: Global, text: &[u8]) -> Result<Journal<'_>, AllocError>
    ensures value { IfOk result (λ j. reading_seen j ≡ read_journal text.now) }
    ensures records { IfOk result (λ j. AreRecords None (map entry_seen j.records.items)) }
{
    let mut records = Vec::new(alloc);
    let mut size = 0;
    let mut last = None;
    while let Some(found) = next_whole(last, &text[size..]) {
        records.push(found.record)?;
        last = Some(found.record.number);
        size += found.end;
    }
    let behind = behind_of(last, &text[size..]);
    Ok(Journal {
        records,
        size,
        behind,
    })
}
