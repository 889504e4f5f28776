//! Why a text is not taken, and where.

ghost use Rattle.std.specs.Prelude.{◌≡◌};
ghost use Rattle.wsm_tokens.specs.declared.fault.Stop.TheVariants.{Memory};
ghost use Rattle.wsm_tokens.specs.Refusal.{refusal_of};

use crate::position::{Position, position_at};
use std::alloc::{AllocError, AllocFailed};
use std::error::Error;
use std::fmt;
use std::fmt::{Display, Formatter};

/// Why a text is not taken.
#[derive(Clone, Copy, Debug, PartialEq, Eq)]
pub enum Fault {
    /// A byte that begins no token, or the 33rd byte of a word.
    BadCharacter,
    /// A token that the grammar does not take there, or the end of the text where it asks for one.
    Unexpected,
    /// A number above 9223372036854775807, at its first byte.
    NumberTooLarge,
    /// A token that opens a level or a turn of a chain too many.
    TooDeep,
}

/// A fault of a text, and the offset in bytes where it stands.
#[derive(Clone, Copy, Debug, PartialEq, Eq)]
pub struct TextFault {
    pub fault: Fault,
    pub offset: usize,
}

/// Why a rule of a grammar stopped.
#[derive(Clone, Copy, Debug, PartialEq, Eq)]
pub enum Stop {
    Text(TextFault),
    /// Memory ran out.
    Memory,
}

/// Why a text was not parsed.
#[derive(Clone, Copy, Debug, PartialEq, Eq)]
pub enum ParseRefusal {
    /// The first fault of the text, and its position.
    Text(Fault, Position),
    /// Memory ran out.
    Memory,
}

impl Display for Fault {
    ghost use Rattle.std.specs.Prelude.{Some};
    ghost use Rattle.wsm_tokens.specs.Refusal.{fault_text};

    ghost output = { λ fault. Some (fault_text fault) };

    fn fmt<W: fmt::Write>(&self, f: &mut Formatter<W>) -> fmt::Result {
        f.write_str(match self {
            Fault::BadCharacter => "P1 BadCharacter",
            Fault::Unexpected => "P2 Unexpected",
            Fault::NumberTooLarge => "P3 NumberTooLarge",
            Fault::TooDeep => "P4 TooDeep",
        })
    }
}

impl Display for ParseRefusal {
    ghost use Rattle.std.specs.Prelude.{Some};
    ghost use Rattle.wsm_tokens.specs.Refusal.{refusal_text};

    ghost output = { λ refusal. Some (refusal_text refusal) };

    fn fmt<W: fmt::Write>(&self, f: &mut Formatter<W>) -> fmt::Result {
        match self {
            ParseRefusal::Text(fault, position) => write!(f, "{fault} at {position}"),
            ParseRefusal::Memory => f.write_str("out of memory"),
        }
    }
}

impl Error for ParseRefusal {}

impl From<AllocError> for Stop {
    ghost from_gives = { λ _ e. e ≡ Memory };

    fn from(_e: AllocError) -> Stop {
        Stop::Memory
    }
}

impl<T: Drop> From<AllocFailed<T>> for Stop {
    ghost from_gives = { λ _ e. e ≡ Memory };

    fn from(_e: AllocFailed<T>) -> Stop {
        Stop::Memory
    }
}

/// The refusal of a text for which a rule stopped, with its position.
pub fn refusal_of(text: &[u8], stop: Stop) -> ParseRefusal
    ensures { result ≡ refusal_of text.now stop }
{
    match stop {
        Stop::Text(TextFault { fault, offset }) => {
            ParseRefusal::Text(fault, position_at(text, offset))
        }
        Stop::Memory => ParseRefusal::Memory,
    }
}
