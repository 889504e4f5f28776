//! The folder that a log lies in.

ghost use Rattle.std.specs.Prelude.{◌≡◌, ◌≤◌, ℕ, List, Option, Some, IfOk, IfSome, OnOk, length, take, map};
ghost use Rattle.wsm_follow.specs.Listed.{listing};
ghost use Rattle.wsm_follow.specs.Names.{in_order};
ghost use Rattle.wsm_follow.specs.Logs.{AreInTurn, Log, StandsAt, bytes_of};
ghost use Rattle.wsm_follow.specs.declared.file.FileId.{FileId};

use crate::file::FileId;
use crate::order::Listed;
use std::alloc::{AllocError, AllocFailed};

/// Why a log can't be followed on now.
#[derive(Clone, Copy, Debug, PartialEq, Eq)]
pub enum FolderFault {
    /// A call of the folder failed.
    Failed,
    /// Memory was refused.
    Memory,
}

impl From<AllocError> for FolderFault {
    fn from(_error: AllocError) -> FolderFault {
        FolderFault::Memory
    }
}

impl<T: Drop> From<AllocFailed<T>> for FolderFault {
    fn from(_error: AllocFailed<T>) -> FolderFault {
        FolderFault::Memory
    }
}

/// The folder that a log lies in, with the files that the log is or was.
///
/// What is said of its bytes is said where its logs are known: as a folder has them that only grows, and
/// in which the log is rotated by renaming. Of a file system they aren't known.
pub trait Folder {
    /// The logs, the oldest first, each with all the bytes that ever come to it.
    ghost logs: { Self → Option (List Log) };

    /// The file that was synced last, and how many of its bytes are on the disk since.
    ghost synced: { Self → Option (FileId × ℕ) };

    /// The files that are named as the log or as it was, in whatever order.
    fn list(&mut self, log: &[u8]) -> Result<Vec<Listed>, FolderFault>
        ensures logs { logs self.new ≡ logs self.old }
        ensures listed { (known : List Log) → logs self.old ≡ Some known → IfOk result (λ files. AreInTurn known (in_order (map listing files.items))) };

    /// How many bytes a file has now, if it is still there.
    fn size(&mut self, file: FileId) -> Result<Option<u64>, FolderFault>
        ensures logs { logs self.new ≡ logs self.old };

    /// Reads bytes of a file from an offset on into the front of a room, and answers how many. None where
    /// the file has no more now.
    fn read_at(&mut self, file: FileId, offset: u64, room: &mut [u8]) -> Result<usize, FolderFault>
        ensures logs { logs self.new ≡ logs self.old }
        ensures within { IfOk result (λ count. count ≤ length room.new) }
        ensures bytes { (known : List ℕ) → bytes_of file (logs self.old) ≡ Some known → IfOk result (λ count. StandsAt known offset (take count room.new)) };

    /// How a file ended, where no byte comes to it any more: it isn't the log now, and nothing came for a while.
    fn ended(&mut self, file: FileId) -> Result<Option<Ended>, FolderFault>
        ensures logs { logs self.new ≡ logs self.old }
        ensures ended { (known : List ℕ) → bytes_of file (logs self.old) ≡ Some known → IfOk result (λ o. IfSome o (λ end. length known ≤ end.size)) };

    /// Has so many bytes of a file, which were read, be on the disk, and the file's name in the folder.
    fn sync(&mut self, file: FileId, bytes: u64) -> Result<(), FolderFault>
        ensures logs { logs self.new ≡ logs self.old }
        ensures synced { OnOk result (synced self.new ≡ Some (file, bytes)) };
}

/// When a log ended that isn't written to any more.
#[derive(Clone, Copy, Debug, PartialEq, Eq)]
pub struct Ended {
    /// How many bytes it has.
    pub size: u64,
    /// When its bytes changed last, in nanoseconds since 1970.
    pub changed: u64,
}
