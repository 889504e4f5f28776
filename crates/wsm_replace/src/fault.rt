//! Why a file isn't replaced.

use std::alloc::{AllocError, AllocFailed};
use std::io::{self, ErrorKind};

/// Why a file isn't replaced.
#[derive(Clone, Copy)]
pub enum ReplaceFault {
    /// Another one holds its lock.
    Held,
    /// There was no memory.
    Memory,
    /// It isn't there, is no plain file, or could not be read on.
    ReadFailed,
    /// Its lock, the file beside it or its name could not be written.
    WriteFailed,
}

impl From<AllocError> for ReplaceFault {
    fn from(_error: AllocError) -> ReplaceFault {
        ReplaceFault::Memory
    }
}

impl<T: Drop> From<AllocFailed<T>> for ReplaceFault {
    fn from(_error: AllocFailed<T>) -> ReplaceFault {
        ReplaceFault::Memory
    }
}

// That reading failed, but for want of memory.
pub fn reading(error: &io::Error) -> ReplaceFault {
    match error.kind() {
        ErrorKind::OutOfMemory => ReplaceFault::Memory,
        _ => ReplaceFault::ReadFailed,
    }
}

// That writing failed, but for want of memory.
pub fn writing(error: &io::Error) -> ReplaceFault {
    match error.kind() {
        ErrorKind::OutOfMemory => ReplaceFault::Memory,
        _ => ReplaceFault::WriteFailed,
    }
}
