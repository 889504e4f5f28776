//! Why rows aren't cut.

use std::alloc::AllocError;
use wsm_csv::{DeviceFault, ReadEnd};

/// Why rows aren't cut, or what is written for them ended early.
#[derive(Clone, Copy, Debug, PartialEq, Eq)]
pub enum KeepEnd {
    /// The first row begins as a head does, and is none: it isn't written as one, or speaks of no rows.
    BadHead,
    /// The rows were cut for another query.
    OtherQuery,
    /// The rows behind the head aren't those that it speaks of: they are fewer, or write another number of lines.
    OtherRows,
    /// The rows of the lines that weren't taken are gone.
    Gone,
    /// So many lines aren't written for the rows.
    FewerLines,
    /// The rows could not be read on.
    ReadFailed,
    /// Memory was refused.
    Memory,
    /// What takes the bytes has failed.
    WriteFailed,
}

impl From<AllocError> for KeepEnd {
    ghost use Rattle.std.specs.Prelude.{◌≡◌};
    ghost use Rattle.wsm_kept.specs.declared.end.KeepEnd.TheVariants.{Memory};

    ghost from_gives = { λ _ e. e ≡ Memory };

    fn from(_error: AllocError) -> KeepEnd {
        KeepEnd::Memory
    }
}

impl From<DeviceFault> for KeepEnd {
    ghost use Rattle.std.specs.Prelude.{◌≡◌};
    ghost use Rattle.wsm_kept.specs.declared.end.KeepEnd.TheVariants.{WriteFailed};

    ghost from_gives = { λ _ e. e ≡ WriteFailed };

    fn from(_fault: DeviceFault) -> KeepEnd {
        KeepEnd::WriteFailed
    }
}

impl From<ReadEnd> for KeepEnd {
    ghost use Rattle.std.specs.Prelude.{◌≡◌};
    ghost use Rattle.wsm_kept.specs.Cut.{end_of_read};

    ghost from_gives = { λ r e. e ≡ end_of_read r };

    fn from(end: ReadEnd) -> KeepEnd {
        match end {
            ReadEnd::Failed => KeepEnd::ReadFailed,
            ReadEnd::Memory => KeepEnd::Memory,
        }
    }
}
