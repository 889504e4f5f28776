//! Why bytes, or parts, are no program.

use std::alloc::{AllocError, AllocFailed};
use std::error::Error;
use std::fmt;

/// The first fault of program bytes, from the left, or no memory. Its text is as `B3 Truncated`.
#[derive(Clone, Copy, Debug, PartialEq, Eq)]
pub enum DecodeRefusal {
    /// The first four bytes are not `WSMP`.
    BadMagic,
    /// The version is neither 1 nor 2.
    Version,
    /// The bytes end inside a part.
    Truncated,
    /// A byte in the place of an instruction is no code of the table, or a test in version 1.
    UnknownOpcode,
    /// A value outside its range, a name that is none or stands twice in its list, or an operand
    /// that names nothing.
    Operand,
    /// Bytes stand after the last section.
    TrailingBytes,
    /// No memory for the program.
    Memory,
}

impl fmt::Display for DecodeRefusal {
    ghost use Rattle.std.specs.Prelude.{Some};
    ghost use Rattle.wsm_program.specs.Text.{refusal_text};

    ghost output = { λ refusal. Some (refusal_text refusal) };

    fn fmt<W: fmt::Write>(&self, f: &mut fmt::Formatter<W>) -> fmt::Result {
        f.write_str(match self {
            DecodeRefusal::BadMagic => "B1 BadMagic",
            DecodeRefusal::Version => "B2 Version",
            DecodeRefusal::Truncated => "B3 Truncated",
            DecodeRefusal::UnknownOpcode => "B4 UnknownOpcode",
            DecodeRefusal::Operand => "B5 Operand",
            DecodeRefusal::TrailingBytes => "B6 TrailingBytes",
            DecodeRefusal::Memory => "B7 Memory",
        })
    }
}

impl Error for DecodeRefusal {}

impl From<AllocError> for DecodeRefusal {
    ghost use Rattle.std.specs.Prelude.{◌≡◌};
    ghost use Rattle.wsm_program.specs.declared.refusal.DecodeRefusal.TheVariants.{Memory};

    ghost from_gives = { λ _ e. e ≡ Memory };

    fn from(_e: AllocError) -> DecodeRefusal {
        DecodeRefusal::Memory
    }
}

impl<T: Drop> From<AllocFailed<T>> for DecodeRefusal {
    ghost use Rattle.std.specs.Prelude.{◌≡◌};
    ghost use Rattle.wsm_program.specs.declared.refusal.DecodeRefusal.TheVariants.{Memory};

    ghost from_gives = { λ _ e. e ≡ Memory };

    fn from(_e: AllocFailed<T>) -> DecodeRefusal {
        DecodeRefusal::Memory
    }
}
