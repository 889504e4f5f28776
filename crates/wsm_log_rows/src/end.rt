//! How the reading of a log ends early.

use std::alloc::AllocError;
use wsm_csv::DeviceFault;
use wsm_log::ReadFailed;

/// Why the reading of a log ended early.
#[derive(Clone, Copy, Debug, PartialEq, Eq)]
pub enum LogEnd {
    /// Memory ran out.
    Memory,
    /// The log could not be read on.
    ReadFailed,
    /// The device has failed.
    WriteFailed,
}

impl From<AllocError> for LogEnd {
    ghost use Rattle.std.specs.Prelude.{◌≡◌};
    ghost use Rattle.wsm_log_rows.specs.declared.end.LogEnd.TheVariants.{Memory};

    ghost from_gives = { λ _ e. e ≡ Memory };

    fn from(_error: AllocError) -> LogEnd {
        LogEnd::Memory
    }
}

impl From<DeviceFault> for LogEnd {
    ghost use Rattle.std.specs.Prelude.{◌≡◌};
    ghost use Rattle.wsm_log_rows.specs.declared.end.LogEnd.TheVariants.{WriteFailed};

    ghost from_gives = { λ _ e. e ≡ WriteFailed };

    fn from(_fault: DeviceFault) -> LogEnd {
        LogEnd::WriteFailed
    }
}

impl From<ReadFailed> for LogEnd {
    ghost use Rattle.std.specs.Prelude.{◌≡◌};
    ghost use Rattle.wsm_log_rows.specs.declared.end.LogEnd.TheVariants.{ReadFailed as Failed};

    ghost from_gives = { λ _ e. e ≡ Failed };

    fn from(_end: ReadFailed) -> LogEnd {
        LogEnd::ReadFailed
    }
}
