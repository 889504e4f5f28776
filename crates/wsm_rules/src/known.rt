//! What is known of a value on the stack.

ghost use Rattle.std.specs.Prelude.{◌≡◌};
ghost use Rattle.wsm_rules.specs.Labels as spec;
ghost use Rattle.wsm_rules.specs.Rules as rules;

use wsm_interval::Interval;
use wsm_program::{CellType, FieldTest};

/// What is known of a value on the stack.
#[derive(Clone, Copy, Debug, PartialEq, Eq)]
pub enum Known {
    /// A number of an interval.
    Number(Interval),
    /// A truth.
    Truth,
    /// A name: of the keys (0), or of field `e - 1`, which is an ENUM.
    NameOf(u8),
}

impl Known {
    /// What a column of a type returns; its numbers may be any.
    pub fn of_column(column: CellType) -> Known
        ensures { result ≡ rules.column_known column }
    {
        match column {
            CellType::Int => Known::Number(Interval { lo: 0, hi: 0 }),
            CellType::Bool => Known::Truth,
            CellType::Enum(e) => Known::NameOf(e),
        }
    }

    /// Whether it is a value of a type.
    pub fn is_of(self, ty: CellType) -> bool
        ensures { result ≡ rules.has_type ty self }
    {
        match (ty, self) {
            (CellType::Int, Known::Number(_)) | (CellType::Bool, Known::Truth) => true,
            (CellType::Enum(e), Known::NameOf(f)) => e == f,
            _ => false,
        }
    }

    /// Whether both are numbers, truths, or names of one ENUM.
    pub fn has_type_of(self, other: Known) -> bool
        ensures { result ≡ spec.same_type self other }
    {
        match (self, other) {
            (Known::Number(_), Known::Number(_)) | (Known::Truth, Known::Truth) => true,
            (Known::NameOf(e), Known::NameOf(f)) => e == f,
            _ => false,
        }
    }

    /// What is known of a value that is this or that one.
    pub fn hull(self, other: Known) -> Known
        ensures { result ≡ spec.hull_known self other }
    {
        match (self, other) {
            (Known::Number(x), Known::Number(y)) => Known::Number(x.hull(y)),
            _ => self,
        }
    }

    /// What is known of a value of a test's field where the test is true.
    pub fn narrowed(self, test: FieldTest) -> Known
        ensures { result ≡ spec.narrowed_known test self }
    {
        match self {
            Known::Number(x) => Known::Number(x.narrow(test.comparison, test.number)),
            Known::Truth | Known::NameOf(_) => self,
        }
    }
}
