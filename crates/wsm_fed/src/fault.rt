//! Why no more is taken of a source.

use std::alloc::AllocError;

/// Why no more is taken of a source. What was taken before is right.
#[derive(Clone, Copy, Debug, PartialEq, Eq)]
pub enum FedFault {
    /// There was no memory, or 2^64 - 1 lines came.
    Memory,
    /// It goes on from another position than the last that was taken.
    Other,
    /// The line of this number, from 1 on, breaks the protocol.
    Line(u64, Broken),
}

/// What is wrong with a line.
#[derive(Clone, Copy, Debug, PartialEq, Eq)]
pub enum Broken {
    /// The first one doesn't say from where the source goes on.
    NoFrom,
    /// It is neither a line of a log nor an `at` with its number.
    NoLine,
    /// An `at` says that so many lines came since the last one, where so many did.
    Lines(u64, u64),
    /// The position of an `at` is too long.
    Position,
    /// So many bytes of lines came without an `at` that no more are held.
    Large,
}

impl From<AllocError> for FedFault {
    ghost use Rattle.wsm_fed.specs.declared.fault.FedFault.TheVariants.{Memory};
    ghost use Rattle.std.specs.Prelude.{◌≡◌};

    ghost from_gives = { λ _ e. e ≡ Memory };

    fn from(_: AllocError) -> Self {
        FedFault::Memory
    }
}
