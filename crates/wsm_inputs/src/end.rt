//! How a run, a judgement or a compilation ends early.

ghost use Rattle.std.specs.Prelude.{◌≡◌};
ghost use Rattle.wsm_inputs.specs.Ends.{rule_number, status};

use std::alloc::{AllocError, AllocFailed};
use std::error::Error;
use std::fmt;
use wsm_check::{CheckFault, CheckRefusal, Part};
use wsm_csv::{DeviceFault, ReadEnd};
use wsm_deal::{DealEnd, SharesRefusal};
use wsm_program::DecodeRefusal;
use wsm_rules::{Rejection, Rule};
use wsm_tokens::{Fault, ParseRefusal, Position};

/// Why a text is no query, or bytes are no program. Its text is as `P2 Unexpected at 1:8`.
#[derive(Clone, Copy, Debug, PartialEq, Eq)]
pub enum InputRefusal {
    /// The reading of a text stops at a position.
    Text(Fault, Position),
    /// A check of a query that was read fails in a part of it.
    Check(CheckFault, Part),
    /// Bytes spell no program. Want of memory never stands here.
    Bytes(DecodeRefusal),
    /// Keys are dealt to no parts. Want of memory never stands here.
    Keys(SharesRefusal),
}

/// How a run, a judgement or a compilation ended early. Its text is what the program prints behind
/// its name.
#[derive(Clone, Copy, Debug, PartialEq, Eq)]
pub enum End {
    /// The text is no query, or the bytes are no program; nothing was written.
    Refused(InputRefusal),
    /// The verifier refuses the program; nothing was written. Want of memory never stands here.
    Rejected(Rejection),
    /// Memory ran out.
    Memory,
    /// The rows could not be read on.
    ReadFailed,
    /// The device has failed.
    WriteFailed,
}

impl fmt::Display for InputRefusal {
    ghost use Rattle.std.specs.Prelude.{Some};
    ghost use Rattle.wsm_inputs.specs.Ends.{refusal_text};

    ghost output = { λ refusal. Some (refusal_text refusal) };

    fn fmt<W: fmt::Write>(&self, f: &mut fmt::Formatter<W>) -> fmt::Result {
        match self {
            InputRefusal::Text(fault, position) => write!(f, "{fault} at {position}"),
            InputRefusal::Check(fault, part) => write!(f, "{fault} in {part}"),
            InputRefusal::Bytes(fault) => write!(f, "{fault}"),
            InputRefusal::Keys(fault) => write!(f, "{fault}"),
        }
    }
}

impl Error for InputRefusal {}

impl fmt::Display for End {
    ghost use Rattle.std.specs.Prelude.{Some};
    ghost use Rattle.wsm_inputs.specs.Ends.{end_text};

    ghost output = { λ end. Some (end_text end) };

    fn fmt<W: fmt::Write>(&self, f: &mut fmt::Formatter<W>) -> fmt::Result {
        match self {
            End::Refused(refusal) => write!(f, "{refusal}"),
            End::Rejected(Rejection { part, place, rule }) => {
                write!(f, "V{} {rule} in {part} at {place}", number_of(*rule))
            }
            End::Memory => f.write_str("out of memory"),
            End::ReadFailed => f.write_str("read failed"),
            End::WriteFailed => f.write_str("write failed"),
        }
    }
}

impl Error for End {}

/// The exit status of the program where a program was rejected.
pub const REJECTED_STATUS: u8 = 4;

/// The exit status of the program after an end: 3 and [`REJECTED_STATUS`] where its input is refused or
/// rejected, 5 for memory, 6 and 7 for reading and writing.
pub fn status_of(end: End) -> u8
    ensures { result ≡ status end }
{
    match end {
        End::Refused(_) => 3,
        End::Rejected(_) => REJECTED_STATUS,
        End::Memory => 5,
        End::ReadFailed => 6,
        End::WriteFailed => 7,
    }
}

// The number of a rule: rules are counted from 1.
fn number_of(rule: Rule) -> u8
    ensures { result ≡ rule_number rule }
{
    rule as u8 + 1
}

impl From<AllocError> for End {
    ghost use Rattle.std.specs.Prelude.{◌≡◌};
    ghost use Rattle.wsm_inputs.specs.declared.end.End.TheVariants.{Memory};

    ghost from_gives = { λ _ e. e ≡ Memory };

    fn from(_error: AllocError) -> End {
        End::Memory
    }
}

impl<T: Drop> From<AllocFailed<T>> for End {
    ghost use Rattle.std.specs.Prelude.{◌≡◌};
    ghost use Rattle.wsm_inputs.specs.declared.end.End.TheVariants.{Memory};

    ghost from_gives = { λ _ e. e ≡ Memory };

    fn from(_error: AllocFailed<T>) -> End {
        End::Memory
    }
}

impl From<ParseRefusal> for End {
    ghost use Rattle.std.specs.Prelude.{◌≡◌};
    ghost use Rattle.wsm_inputs.specs.Ends.{end_of_text};

    ghost from_gives = { λ r e. e ≡ end_of_text r };

    fn from(refusal: ParseRefusal) -> End {
        match refusal {
            ParseRefusal::Text(fault, position) => End::Refused(InputRefusal::Text(
                fault, position,
            )),
            ParseRefusal::Memory => End::Memory,
        }
    }
}

impl From<CheckRefusal> for End {
    ghost use Rattle.std.specs.Prelude.{◌≡◌};
    ghost use Rattle.wsm_inputs.specs.Ends.{end_of_check};

    ghost from_gives = { λ r e. e ≡ end_of_check r };

    fn from(refusal: CheckRefusal) -> End {
        match refusal {
            CheckRefusal::Fault(fault, part) => End::Refused(InputRefusal::Check(fault, part)),
            CheckRefusal::Memory => End::Memory,
        }
    }
}

impl From<DecodeRefusal> for End {
    ghost use Rattle.std.specs.Prelude.{◌≡◌};
    ghost use Rattle.wsm_inputs.specs.Ends.{end_of_bytes};

    ghost from_gives = { λ r e. e ≡ end_of_bytes r };

    fn from(refusal: DecodeRefusal) -> End {
        match refusal {
            DecodeRefusal::Memory => End::Memory,
            fault => End::Refused(InputRefusal::Bytes(fault)),
        }
    }
}

impl From<Rejection> for End {
    ghost use Rattle.std.specs.Prelude.{◌≡◌};
    ghost use Rattle.wsm_inputs.specs.Ends.{end_of_rejection};

    ghost from_gives = { λ r e. e ≡ end_of_rejection r };

    fn from(rejection: Rejection) -> End {
        match rejection.rule {
            Rule::Memory => End::Memory,
            _ => End::Rejected(rejection),
        }
    }
}

impl From<ReadEnd> for End {
    ghost use Rattle.std.specs.Prelude.{◌≡◌};
    ghost use Rattle.wsm_inputs.specs.Ends.{end_of_read};

    ghost from_gives = { λ r e. e ≡ end_of_read r };

    fn from(end: ReadEnd) -> End {
        match end {
            ReadEnd::Failed => End::ReadFailed,
            ReadEnd::Memory => End::Memory,
        }
    }
}

impl From<DeviceFault> for End {
    ghost use Rattle.std.specs.Prelude.{◌≡◌};
    ghost use Rattle.wsm_inputs.specs.declared.end.End.TheVariants.{WriteFailed};

    ghost from_gives = { λ _ e. e ≡ WriteFailed };

    fn from(_fault: DeviceFault) -> End {
        End::WriteFailed
    }
}

impl From<SharesRefusal> for End {
    ghost use Rattle.std.specs.Prelude.{◌≡◌};
    ghost use Rattle.wsm_inputs.specs.Ends.{end_of_keys};

    ghost from_gives = { λ r e. e ≡ end_of_keys r };

    fn from(refusal: SharesRefusal) -> End {
        match refusal {
            SharesRefusal::Memory => End::Memory,
            fault => End::Refused(InputRefusal::Keys(fault)),
        }
    }
}

impl From<DealEnd> for End {
    ghost use Rattle.std.specs.Prelude.{◌≡◌};
    ghost use Rattle.wsm_inputs.specs.Ends.{end_of_dealing};

    ghost from_gives = { λ r e. e ≡ end_of_dealing r };

    fn from(end: DealEnd) -> End {
        match end {
            DealEnd::ReadFailed => End::ReadFailed,
            DealEnd::Memory => End::Memory,
            DealEnd::WriteFailed => End::WriteFailed,
        }
    }
}
