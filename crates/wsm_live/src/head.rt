//! The row that a journal's head begins with.

ghost use Rattle.std.specs.Prelude.{◌≡◌, drop, take, true, IfOk};
ghost use Rattle.wsm_journal.specs.Text.{are_rows};
ghost use Rattle.wsm_live.specs.Head.{behind_row, head_row, is_headed, name_in, own_row};

use itoa::Buffer;
use std::alloc::{AllocError, Global};
use wsm_journal::are_rows;

// `live,1,`.
const FRONT: usize = 7;

// A name of 16 bytes behind that.
const NAME_END: usize = 23;

/// The row that a journal's head begins with: which of all that there are it is, and of which run.
#[derive(Drop)]
pub struct HeadRow {
    bytes: Vec<u8>,
    ghost is_row: { are_rows bytes.items ≡ true },
}

impl HeadRow {
    ghost use Rattle.std.specs.Prelude.{◌≡◌, if◌then◌else◌, IfOk, Option, Some, None, length, true, ◌&&◌, ◌==◌, option_map};
    ghost use Rattle.wsm_journal.specs.Text.{are_rows};
    ghost use Rattle.wsm_live.specs.Head.{head_row};
    ghost use Rattle.wsm_live.specs.HeadSeen.{row_in};

    /// The row of a name, and of the sum of all that says what is written for lines; none where the name hasn't 16 bytes or has a
    /// line feed in front of `at,`.
    ///
    /// # Errors
    ///
    /// Memory was refused.
    pub fn new(alloc: Global, name: &[u8], sum: u32) -> Result<Option<HeadRow>, AllocError>
        ensures { IfOk result (λ o. option_map row_in o
            ≡ (if (length name.now == 16) && are_rows (head_row name.now sum) then Some (head_row name.now sum) else None)) }
    {
        let bytes = written(alloc, name, sum)?;
        if name.len() == 16 && are_rows(&bytes) {
            Ok(Some(HeadRow { bytes }))
        } else {
            Ok(None)
        }
    }

    /// Its bytes.
    pub fn bytes(&self) -> &[u8]
        ensures value { result.now ≡ row_in self.now }
        ensures is_row { are_rows result.now ≡ true }
    {
        &self.bytes
    }
}

// The row of a name and a sum.
fn written(alloc: Global, name: &[u8], sum: u32) -> Result<Vec<u8>, AllocError>
    ensures { IfOk result (λ row. row.items ≡ head_row name.now sum) }
{
    let mut row = Vec::new(alloc);
    let mut digits = Buffer::new();
    row.extend_from_slice(b"live,1,")?;
    row.extend_from_slice(name)?;
    row.push(b',')?;
    row.extend_from_slice(digits.format(sum).as_bytes())?;
    row.push(b'\n')?;
    Ok(row)
}

/// What stands behind a place, or nothing.
pub fn behind(bytes: &[u8], at: usize) -> &[u8]
    ensures { result.now ≡ drop at bytes.now }
{
    &bytes[at.min(bytes.len())..]
}

/// What stands in front of a place.
pub fn in_front(bytes: &[u8], at: usize) -> &[u8]
    ensures { result.now ≡ take at bytes.now }
{
    &bytes[..at.min(bytes.len())]
}

/// Whether rows begin as those of a head with this row, whatever name they have.
pub fn is_headed(head: &[u8], rows: &[u8]) -> bool
    ensures { result ≡ is_headed head.now rows.now }
{
    rows.starts_with(in_front(head, FRONT))
        && behind(rows, NAME_END).starts_with(behind(head, NAME_END))
}

/// The name that a head has which begins with these rows.
pub fn name_in(rows: &[u8]) -> &[u8]
    ensures { result.now ≡ name_in rows.now }
{
    in_front(behind(rows, FRONT), NAME_END - FRONT)
}

/// The row that a head begins with which begins with these rows, where it's headed by that row.
pub fn own_row<'t>(head: &[u8], rows: &'t [u8]) -> &'t [u8]
    ensures { result.now ≡ own_row head.now rows.now }
{
    in_front(rows, head.len())
}

/// What stands behind it.
pub fn behind_row<'t>(head: &[u8], rows: &'t [u8]) -> &'t [u8]
    ensures { result.now ≡ behind_row head.now rows.now }
{
    behind(rows, head.len())
}
