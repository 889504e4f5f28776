//! Why a line says no event.
ghost use Rattle.std.specs.Prelude.{◌≡◌};
ghost use Rattle.wsm_lines.specs.Fault.{fault_word};

use std::alloc::{AllocError, AllocFailed};

/// Why a line says no event: the first that holds, in this order, but that of CSV `BadHeader` comes first, then `Header`.
#[derive(Clone, Copy, Debug, PartialEq, Eq)]
pub enum LineFault {
    /// It has more bytes than the source lets a line have.
    TooLong,
    /// It isn't UTF-8.
    NotUtf8,
    /// It isn't one value of JSON.
    NotJson,
    /// It isn't of the combined access form.
    NotAccess,
    /// A quote isn't closed or stands inside a cell without quotes, something stands behind a closing
    /// quote, or there is a NUL.
    NotCsv,
    /// It is the header, or says the same once more.
    Header,
    /// The first line is no header that has each name which the source asks for.
    BadHeader,
    /// It hasn't as many cells as the header.
    CellCount,
    /// It isn't a row of a record: `r`, a key, a time, and a cell for each field.
    NotRow,
    /// Nothing stands where the key should.
    NoKey,
    /// The key has no text, or none of 1 to 255 bytes without a line feed.
    BadKey,
    /// Nothing stands where the time should.
    NoTime,
    /// The time isn't written as the source says, or lies outside 64 bits.
    BadTime,
    /// Nothing stands where a field should, and it has no default.
    NoField,
    /// A field isn't a whole number of 64 bits.
    BadWhole,
    /// A field isn't a decimal of the source's form whose parts 64 bits hold.
    BadDecimal,
    /// A field is neither the word for true nor that for false.
    BadBool,
    /// A field is none of its words.
    BadEnum,
    /// The identifier has no text, or more than 255 bytes.
    BadIdentifier,
}

impl LineFault {
    /// The word that tells it: its own name.
    pub fn word(self) -> &'static str
        ensures { result.now ≡ fault_word self }
    {
        match self {
            LineFault::TooLong => "TooLong",
            LineFault::NotUtf8 => "NotUtf8",
            LineFault::NotJson => "NotJson",
            LineFault::NotAccess => "NotAccess",
            LineFault::NotCsv => "NotCsv",
            LineFault::Header => "Header",
            LineFault::BadHeader => "BadHeader",
            LineFault::CellCount => "CellCount",
            LineFault::NotRow => "NotRow",
            LineFault::NoKey => "NoKey",
            LineFault::BadKey => "BadKey",
            LineFault::NoTime => "NoTime",
            LineFault::BadTime => "BadTime",
            LineFault::NoField => "NoField",
            LineFault::BadWhole => "BadWhole",
            LineFault::BadDecimal => "BadDecimal",
            LineFault::BadBool => "BadBool",
            LineFault::BadEnum => "BadEnum",
            LineFault::BadIdentifier => "BadIdentifier",
        }
    }
}

/// Why a line is not read.
#[derive(Clone, Copy, Debug, PartialEq, Eq)]
pub enum LineRefusal {
    /// The line says no event.
    Fault(LineFault),
    /// Memory was refused.
    Memory,
}

impl From<LineFault> for LineRefusal {
    ghost use Rattle.std.specs.Prelude.{◌≡◌};
    ghost use Rattle.wsm_lines.specs.declared.fault.LineRefusal.TheVariants.{Fault};

    ghost from_gives = { λ f r. r ≡ Fault f };

    fn from(fault: LineFault) -> LineRefusal {
        LineRefusal::Fault(fault)
    }
}

impl From<AllocError> for LineRefusal {
    ghost use Rattle.std.specs.Prelude.{◌≡◌};
    ghost use Rattle.wsm_lines.specs.declared.fault.LineRefusal.TheVariants.{Memory};

    ghost from_gives = { λ _ r. r ≡ Memory };

    fn from(_error: AllocError) -> LineRefusal {
        LineRefusal::Memory
    }
}

impl<T: Drop> From<AllocFailed<T>> for LineRefusal {
    ghost use Rattle.std.specs.Prelude.{◌≡◌};
    ghost use Rattle.wsm_lines.specs.declared.fault.LineRefusal.TheVariants.{Memory};

    ghost from_gives = { λ _ r. r ≡ Memory };

    fn from(_error: AllocFailed<T>) -> LineRefusal {
        LineRefusal::Memory
    }
}
