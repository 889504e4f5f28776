//! The row of a journal's head that stands for lines that were cut.

ghost use Rattle.std.specs.Prelude.{◌≡◌, ◌++◌, OnOk, option_map};
ghost use Rattle.wsm_live.specs.Head.{cut_front, cut_of, without_last};
ghost use Rattle.wsm_live.specs.CutSeen.{cut_seen};

use crate::head::{behind, in_front};
use itoa::Buffer;
use std::alloc::AllocError;
use wsm_journal::number_of;

/// What a head says of lines that were cut: how many lines were handed out for them, the sum of those, and what they came to.
#[derive(Clone, Copy)]
pub struct CutRow<'t> {
    pub count: u64,
    pub sum: u32,
    pub text: &'t [u8],
}

/// What a row says that stands behind that of a head, if it can be read.
pub fn cut_of(row: &[u8]) -> Option<CutRow<'_>>
    ensures { option_map cut_seen result ≡ cut_of row.now }
{
    if !row.starts_with(b"cut,") {
        return None;
    }
    let (count, rest) = number_of(behind(row, 4))?;
    let (sum, rest) = number_of(rest)?;
    if sum > u32::MAX as u64 {
        return None;
    }
    Some(CutRow {
        count,
        sum: sum as u32,
        text: without_last(rest),
    })
}

// All bytes but the last one.
fn without_last(text: &[u8]) -> &[u8]
    ensures { result.now ≡ without_last text.now }
{
    in_front(text, text.len().saturating_sub(1))
}

/// Adds such a row up to its text.
pub fn add_front(count: u64, sum: u32, row: &mut Vec<u8>) -> Result<(), AllocError>
    ensures { OnOk result (row.new.items ≡ row.old.items ++ cut_front count sum) }
{
    let mut digits = Buffer::new();
    row.extend_from_slice(b"cut,")?;
    row.extend_from_slice(digits.format(count).as_bytes())?;
    row.push(b',')?;
    let mut digits = Buffer::new();
    row.extend_from_slice(digits.format(sum).as_bytes())?;
    Ok(row.push(b',')?)
}
