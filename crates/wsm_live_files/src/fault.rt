//! Why a call of the folder came to nothing.

use std::alloc::{AllocError, AllocFailed};
use std::fmt;
use std::io::{self, ErrorKind};

/// What was to be done with a file.
#[derive(Clone, Copy, Debug, PartialEq, Eq)]
pub enum FileCall {
    /// To make it, or to open it so that it may be written.
    Open,
    /// To read it.
    Read,
    /// To write it.
    Write,
    /// To have what was written reach the disk.
    Sync,
    /// To give it its name.
    Rename,
}

impl FileCall {
    /// Whether nothing was to be written by it.
    pub fn is_reading(self) -> bool {
        self == FileCall::Read
    }
}

impl fmt::Display for FileCall {
    fn fmt<W: fmt::Write>(&self, f: &mut fmt::Formatter<W>) -> fmt::Result {
        f.write_str(match self {
            FileCall::Open => "opened",
            FileCall::Read => "read",
            FileCall::Write => "written",
            FileCall::Sync => "synced",
            FileCall::Rename => "renamed",
        })
    }
}

/// A call that failed: of which file, and why.
#[derive(Clone, Copy, Debug)]
pub struct FileFault {
    /// What the file is called.
    pub file: &'static str,
    /// What was to be done.
    pub call: FileCall,
    /// What the system said.
    pub kind: ErrorKind,
}

impl fmt::Display for FileFault {
    fn fmt<W: fmt::Write>(&self, f: &mut fmt::Formatter<W>) -> fmt::Result {
        let (file, call, kind) = (self.file, self.call, self.kind);
        write!(f, "{file} can't be {call}: {kind}")
    }
}

/// Why a folder isn't held, read or written.
#[derive(Clone, Copy, Debug)]
pub enum FolderFault {
    /// Another process holds its lock.
    Held,
    /// There was no memory.
    Memory,
    /// A call failed.
    Failed(FileFault),
}

impl FolderFault {
    // That a call failed, but for want of memory.
    pub fn of(file: &'static str, call: FileCall, error: &io::Error) -> FolderFault {
        match error.kind() {
            ErrorKind::OutOfMemory => FolderFault::Memory,
            kind => FolderFault::Failed(FileFault { file, call, kind }),
        }
    }
}

impl From<AllocError> for FolderFault {
    fn from(_error: AllocError) -> FolderFault {
        FolderFault::Memory
    }
}

impl<T: Drop> From<AllocFailed<T>> for FolderFault {
    fn from(_error: AllocFailed<T>) -> FolderFault {
        FolderFault::Memory
    }
}
