//! A folder as a journal's file lies in it.

ghost use Rattle.std.specs.Prelude.{◌≡◌, ◌≤◌, ℕ, Bool, List, Option, true, IfOk, OnOk};
ghost use Rattle.wsm_journal.specs.declared.folder.FolderError.TheVariants.{Memory};
ghost use Rattle.wsm_journal.specs.Folder.{Folder, Append, Sync, CreateNext, WriteNext, SyncNext, Rename, SyncFolder, bytes_of};
ghost use Rattle.wsm_journal.specs.Calls.{Elapses, HasCause, HasSameNames, IfKnown, MayLeave, MayLeaveIn, called};

use std::alloc::{AllocError, Global};

/// Why a call of a folder came to nothing, or to a part of what it was to do.
#[derive(Clone, Copy, Debug, PartialEq, Eq)]
pub enum FolderError {
    /// There was no memory.
    Memory,
    /// A read, a write, a sync or a rename failed.
    Failed,
}

impl From<AllocError> for FolderError {
    ghost from_gives = { λ _ e. e ≡ Memory };

    fn from(_: AllocError) -> Self {
        FolderError::Memory
    }
}

/// A folder in which one file has the journal's name, and another is to take it. Where nothing is known of it, as
/// of a folder of the file system, its clauses say nothing, and the same code runs.
pub trait JournalFolder {
    /// The folder, if it is known.
    ghost folder: { Self → Option Folder };

    /// The moment, as a number that doesn't fall.
    ghost moment: { Self → ℕ };

    /// What a power cut at some moment from that one on might have left, in a call or between two.
    ghost left_since: { Self → ℕ → List ℕ → Type 0 };

    /// Whether a call has failed.
    ghost has_failed: { Self → Bool };

    /// Reads all of the journal. One that isn't there has no byte.
    fn read(&mut self, alloc: Global) -> Result<Vec<u8>, FolderError>
        ensures bytes { IfOk result (λ bytes. IfKnown (folder self.old) (λ d. bytes.items ≡ bytes_of d.journal)) }
        ensures same { folder self.new ≡ folder self.old }
        ensures time { Elapses (moment self.old) (moment self.new) (left_since self.old) (left_since self.new) (MayLeave (folder self.old)) }
        ensures cause { HasCause (has_failed self.new) result };

    /// Writes bytes behind the journal's end.
    fn append(&mut self, bytes: &[u8]) -> Result<(), FolderError>
        ensures done { OnOk result (folder self.new ≡ called (Append bytes.now) (folder self.old)) }
        ensures time { Elapses (moment self.old) (moment self.new) (left_since self.old) (left_since self.new)
            (MayLeaveIn (Append bytes.now) (folder self.old)) }
        ensures cause { HasCause (has_failed self.new) result };

    /// Has what was written to the journal reach the disk.
    fn sync(&mut self) -> Result<(), FolderError>
        ensures done { OnOk result (folder self.new ≡ called Sync (folder self.old)) }
        ensures time { Elapses (moment self.old) (moment self.new) (left_since self.old) (left_since self.new) (MayLeaveIn Sync (folder self.old)) }
        ensures cause { HasCause (has_failed self.new) result };

    /// Makes the file anew that is to take the journal's name, with no byte.
    fn create_next(&mut self) -> Result<(), FolderError>
        ensures done { OnOk result (folder self.new ≡ called CreateNext (folder self.old)) }
        ensures names { HasSameNames (folder self.old) (folder self.new) }
        ensures time { Elapses (moment self.old) (moment self.new) (left_since self.old) (left_since self.new) (MayLeaveIn CreateNext (folder self.old)) }
        ensures cause { HasCause (has_failed self.new) result };

    /// Writes bytes behind the end of that file.
    fn write_next(&mut self, bytes: &[u8]) -> Result<(), FolderError>
        ensures done { OnOk result (folder self.new ≡ called (WriteNext bytes.now) (folder self.old)) }
        ensures names { HasSameNames (folder self.old) (folder self.new) }
        ensures time { Elapses (moment self.old) (moment self.new) (left_since self.old) (left_since self.new)
            (MayLeaveIn (WriteNext bytes.now) (folder self.old)) }
        ensures cause { HasCause (has_failed self.new) result };

    /// Has what was written to that file reach the disk.
    fn sync_next(&mut self) -> Result<(), FolderError>
        ensures done { OnOk result (folder self.new ≡ called SyncNext (folder self.old)) }
        ensures names { HasSameNames (folder self.old) (folder self.new) }
        ensures time { Elapses (moment self.old) (moment self.new) (left_since self.old) (left_since self.new) (MayLeaveIn SyncNext (folder self.old)) }
        ensures cause { HasCause (has_failed self.new) result };

    /// Gives that file the journal's name.
    fn rename(&mut self) -> Result<(), FolderError>
        ensures done { OnOk result (folder self.new ≡ called Rename (folder self.old)) }
        ensures time { Elapses (moment self.old) (moment self.new) (left_since self.old) (left_since self.new) (MayLeaveIn Rename (folder self.old)) }
        ensures cause { HasCause (has_failed self.new) result };

    /// Has the names reach the disk.
    fn sync_folder(&mut self) -> Result<(), FolderError>
        ensures done { OnOk result (folder self.new ≡ called SyncFolder (folder self.old)) }
        ensures time { Elapses (moment self.old) (moment self.new) (left_since self.old) (left_since self.new) (MayLeaveIn SyncFolder (folder self.old)) }
        ensures cause { HasCause (has_failed self.new) result };

    /// This moment is one of those since an earlier one.
    ghost counts_now: { (f : Self) (t : ℕ) (left : List ℕ) → t ≤ moment f → MayLeave (folder f) left → left_since f t left };

    /// Since this moment there is no other.
    ghost only_now: { (f : Self) (left : List ℕ) → left_since f (moment f) left → MayLeave (folder f) left };
}
