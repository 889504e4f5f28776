//! Sums by which a file is known again.

ghost use Rattle.std.specs.Prelude.{◌≡◌, ◌≤◌, ◌-◌, ℕ, List, Some, IfOk, IfSome, drop, take};
ghost use Rattle.wsm_sums.specs.Crc.{sum_of};
ghost use Rattle.wsm_follow.specs.Logs.{bytes_of};
ghost use Rattle.wsm_follow.specs.Position.{head_sum, tail_sum};

use crate::file::FileId;
use crate::folder::{Folder, FolderFault};
use wsm_sums::Crc32;

/// How many of a file's first bytes have a sum.
pub const HEAD: u64 = 256;

/// How many of the bytes that were read last have a sum.
pub const TAIL: u64 = 4096;

/// The sums of a file's first bytes, and of the last in front of an offset.
#[derive(Clone, Copy)]
pub struct Sums {
    pub head: u32,
    pub tail: u32,
}

// The CRC-32 of the bytes of a file between two offsets, unless it ends before.
fn sum_between<F: Folder>(
    folder: &mut F,
    file: FileId,
    start: u64,
    end: u64,
    room: &mut [u8],
) -> Result<Option<u32>, FolderFault>
    requires { start ≤ end }
    ensures logs { F.logs folder.new ≡ F.logs folder.old }
    ensures sum { (known : List ℕ) → bytes_of file (F.logs folder.old) ≡ Some known →
        IfOk result (λ o. IfSome o (λ sum. sum ≡ sum_of (take (end - start) (drop start known)))) }
{
    let mut sum = Crc32::new();
    let mut at = start;
    'bytes: while at < end {
        let count = folder.read_at(file, at, room)?;
        if count == 0 {
            return Ok(None);
        }
        let used = (count as u64).min(end - at);
        sum.add(&room[..used as usize]);
        at += used;
    }
    Ok(Some(sum.sum()))
}

/// The sums of a file's bytes in front of an offset, unless it ends before.
pub fn sums_at<F: Folder>(
    folder: &mut F,
    file: FileId,
    offset: u64,
    room: &mut [u8],
) -> Result<Option<Sums>, FolderFault>
    ensures logs { F.logs folder.new ≡ F.logs folder.old }
    ensures sums { (known : List ℕ) → bytes_of file (F.logs folder.old) ≡ Some known →
        IfOk result (λ o. IfSome o (λ s. (s.head ≡ head_sum offset known) × (s.tail ≡ tail_sum offset known))) }
{
    let head = sum_between(folder, file, 0, HEAD.min(offset), room)?;
    let tail = sum_between(folder, file, offset.saturating_sub(TAIL), offset, room)?;
    Ok(match (head, tail) {
        (Some(head), Some(tail)) => Some(Sums { head, tail }),
        _ => None,
    })
}
