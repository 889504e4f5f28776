//! Why a query is refused.

use std::alloc::{AllocError, AllocFailed};
use std::error::Error;
use std::fmt;
use std::fmt::{Display, Formatter};

/// Why a query is refused.
#[derive(Clone, Copy, Debug, PartialEq, Eq)]
pub enum CheckFault {
    /// A name isn't declared.
    UnknownName,
    /// An operand or a condition has another type than is asked for.
    Type,
    /// A name stands twice in a list.
    Duplicate,
    /// A field stands in a column or in HAVING, and in no aggregate.
    FieldOutsideAggregate,
    /// An aggregate stands in an aggregate.
    AggregateNested,
    /// An aggregate stands in WHERE.
    AggregateInWhere,
    /// A number or a count is outside its range.
    Limit,
    /// The code, or the panes that it may hold, are more than a limit allows: what was counted, up to
    /// the greatest number of 64 bits, and what is allowed.
    Exceeds {
        limit: CodeLimit,
        counted: u64,
        allowed: u64,
    },
    /// A stream form stands with a mode that isn't ACCUMULATING.
    StreamNeedsAccumulating,
    /// Lateness is counted from the end of a session, which moves.
    SessionLateness,
}

/// What of a query's code a limit is of. The first in this order that is exceeded is told.
#[derive(Clone, Copy, Debug, PartialEq, Eq)]
pub enum CodeLimit {
    /// The aggregates, COUNT(*) aside, of which each has an accumulator.
    Accumulators,
    /// The instructions of WHERE.
    Where,
    /// The instructions that fold a record into the accumulators.
    Update,
    /// The instructions of the columns and of HAVING.
    Fire,
    /// The values on the stack.
    Stack,
    /// The panes that are held at once: keys times the most live windows of one.
    Panes,
}

/// The part of a query that a refusal is about.
#[derive(Clone, Copy, Debug, PartialEq, Eq)]
pub enum Part {
    /// The list of keys.
    Keys,
    /// A field, from 1.
    Field(u64),
    /// The sources of watermarks.
    Sources,
    /// START, SKEW, LATENESS and RECORDS.
    Clock,
    /// The numbers of BUDGET.
    Budget,
    /// The shape, or what lateness counts from.
    Window,
    /// EARLY EVERY or LATE EVERY.
    Trigger,
    /// The form, which the mode may not write.
    Emit,
    /// The condition on records.
    Where,
    /// A column, from 1.
    Column(u64),
    /// The condition on panes.
    Having,
    /// The code of the query, and the panes that it may hold.
    Code,
}

/// Why a query is refused, and where.
#[derive(Clone, Copy, Debug, PartialEq, Eq)]
pub enum CheckRefusal {
    /// A check fails, in this part. Its text is as `C2 Type in column 2`.
    Fault(CheckFault, Part),
    /// There was no memory for the checks. This says nothing of the query.
    Memory,
}

impl From<AllocError> for CheckRefusal {
    ghost use Rattle.std.specs.Prelude.{◌≡◌};
    ghost use Rattle.wsm_check.specs.declared.refusal.CheckRefusal.TheVariants.{Memory};

    ghost from_gives = { λ _ e. e ≡ Memory };

    fn from(_e: AllocError) -> CheckRefusal {
        CheckRefusal::Memory
    }
}

impl<T: Drop> From<AllocFailed<T>> for CheckRefusal {
    ghost use Rattle.std.specs.Prelude.{◌≡◌};
    ghost use Rattle.wsm_check.specs.declared.refusal.CheckRefusal.TheVariants.{Memory};

    ghost from_gives = { λ _ e. e ≡ Memory };

    fn from(_e: AllocFailed<T>) -> CheckRefusal {
        CheckRefusal::Memory
    }
}

impl Display for CheckFault {
    ghost use Rattle.std.specs.Prelude.{Some};
    ghost use Rattle.wsm_check.specs.Text.{fault_text};

    ghost output = { λ fault. Some (fault_text fault) };

    fn fmt<W: fmt::Write>(&self, f: &mut Formatter<W>) -> fmt::Result {
        f.write_str(match self {
            CheckFault::UnknownName => "C1 UnknownName",
            CheckFault::Type => "C2 Type",
            CheckFault::Duplicate => "C3 Duplicate",
            CheckFault::FieldOutsideAggregate => "C4 FieldOutsideAggregate",
            CheckFault::AggregateNested => "C5 AggregateNested",
            CheckFault::AggregateInWhere => "C6 AggregateInWhere",
            CheckFault::Limit | CheckFault::Exceeds { .. } => "C7 Limit",
            CheckFault::StreamNeedsAccumulating => "C8 StreamNeedsAccumulating",
            CheckFault::SessionLateness => "C10 SessionLateness",
        })
    }
}

impl Display for Part {
    ghost use Rattle.std.specs.Prelude.{Some};
    ghost use Rattle.wsm_check.specs.Text.{part_text};

    ghost output = { λ part. Some (part_text part) };

    fn fmt<W: fmt::Write>(&self, f: &mut Formatter<W>) -> fmt::Result {
        match self {
            Part::Keys => f.write_str("keys"),
            Part::Field(number) => write!(f, "field {number}"),
            Part::Sources => f.write_str("sources"),
            Part::Clock => f.write_str("clock"),
            Part::Budget => f.write_str("budget"),
            Part::Window => f.write_str("window"),
            Part::Trigger => f.write_str("trigger"),
            Part::Emit => f.write_str("emit"),
            Part::Where => f.write_str("where"),
            Part::Column(number) => write!(f, "column {number}"),
            Part::Having => f.write_str("having"),
            Part::Code => f.write_str("code"),
        }
    }
}

impl Display for CheckRefusal {
    ghost use Rattle.std.specs.Prelude.{Some};
    ghost use Rattle.wsm_check.specs.Text.{refusal_text};

    ghost output = { λ refusal. Some (refusal_text refusal) };

    fn fmt<W: fmt::Write>(&self, f: &mut Formatter<W>) -> fmt::Result {
        match self {
            CheckRefusal::Fault(fault, part) => write!(f, "{fault} in {part}"),
            CheckRefusal::Memory => f.write_str("out of memory"),
        }
    }
}

impl Error for CheckRefusal {}
