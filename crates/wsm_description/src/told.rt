//! Why a source is refused, as it is told.

ghost use Rattle.std.specs.Prelude.{◌≡◌};
ghost use Rattle.wsm_description.specs.Told.{told};

use crate::place::{Position, place_of};
use crate::refusal::{Refusal, SourceFault};
use std::error::Error;
use std::fmt;
use std::fmt::{Display, Formatter};
use wsm_values::Word;

/// What is wrong with a source, the dotted name of the key that it is about, which is empty where the
/// text is no TOML, and where in the text it is, if that is known.
#[derive(Debug, Drop)]
pub struct Refused {
    pub fault: SourceFault,
    pub path: Word,
    pub place: Option<Position>,
}

/// Why a source is refused. Its text is as `L2 UnknownKey in fields.amount.scal at 14:1`.
#[derive(Debug, Drop)]
pub enum SourceRefusal {
    /// Something is wrong with it.
    Fault(Refused),
    /// There was no memory. This says nothing of the source.
    Memory,
}

impl SourceRefusal {
    /// The refusal with its place in the source's text, as far as a key of its name is found there. No
    /// clause says more of the place.
    pub fn of(refusal: Refusal, text: &str) -> SourceRefusal
        ensures { told result ≡ refusal }
    {
        match refusal {
            Refusal::Fault(fault, path) => {
                let place = place_of(text, path.as_str());
                SourceRefusal::Fault(Refused { fault, path, place })
            }
            Refusal::Memory => SourceRefusal::Memory,
        }
    }
}

impl Display for SourceFault {
    ghost use Rattle.std.specs.Prelude.{Some};
    ghost use Rattle.wsm_description.specs.Told.{fault_text};

    ghost output = { λ fault. Some (fault_text fault) };

    fn fmt<W: fmt::Write>(&self, f: &mut Formatter<W>) -> fmt::Result {
        match self {
            SourceFault::NotToml => f.write_str("L1 NotToml"),
            SourceFault::UnknownKey => f.write_str("L2 UnknownKey"),
            SourceFault::MissingKey => f.write_str("L3 MissingKey"),
            SourceFault::BadType => f.write_str("L4 BadType"),
            SourceFault::BadRange => f.write_str("L5 BadRange"),
            SourceFault::BadWord => f.write_str("L6 BadWord"),
            SourceFault::Conflict => f.write_str("L7 Conflict"),
            SourceFault::UnknownField => f.write_str("L8 UnknownField"),
            SourceFault::WrongType => f.write_str("L9 WrongType"),
            SourceFault::UnknownName => f.write_str("L10 UnknownName"),
            SourceFault::BadLine(line) => write!(f, "L11 BadLine {line}"),
        }
    }
}

impl Display for Position {
    ghost use Rattle.std.specs.Prelude.{Some};
    ghost use Rattle.wsm_description.specs.Told.{place_text};

    ghost output = { λ place. Some (place_text place) };

    fn fmt<W: fmt::Write>(&self, f: &mut Formatter<W>) -> fmt::Result {
        let (line, column) = (self.line, self.column);
        write!(f, "{line}:{column}")
    }
}

impl Display for Refused {
    fn fmt<W: fmt::Write>(&self, f: &mut Formatter<W>) -> fmt::Result {
        let fault = self.fault;
        write!(f, "{fault}")?;
        let path = self.path.as_str();
        if !path.is_empty() {
            write!(f, " in {path}")?;
        }
        match self.place {
            Some(place) => write!(f, " at {place}"),
            None => Ok(()),
        }
    }
}

impl Display for SourceRefusal {
    fn fmt<W: fmt::Write>(&self, f: &mut Formatter<W>) -> fmt::Result {
        match self {
            SourceRefusal::Fault(refused) => write!(f, "{refused}"),
            SourceRefusal::Memory => f.write_str("out of memory"),
        }
    }
}

impl Error for SourceRefusal {}
