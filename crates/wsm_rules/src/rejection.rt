//! Why a program is refused.

use std::alloc::AllocError;
use std::error::Error;
use std::fmt;
use wsm_program::SectionId;

/// Why a program is refused. Its text is its name.
///
/// The order is public: the rules are printed as `V1` to `V17` in this order, so a new one goes behind
/// the last.
#[derive(Clone, Copy, Debug, PartialEq, Eq)]
pub enum Rule {
    /// An instruction has too few operands.
    StackUnderflow,
    /// A 33rd value would be on the stack.
    StackOverflow,
    /// An operand has another type than the instruction takes, or a section ends on a stack that
    /// isn't exactly its result.
    Type,
    /// A jump leads back, to its own place, or past the end of its section.
    BadJump,
    /// Ways to a place differ in the height of the stack, in types, or in what is folded.
    Join,
    /// No way leads to a place.
    Unreachable,
    /// A section can run past its last instruction, or has none.
    NoReturn,
    /// An instruction may not stand in its section.
    NotHere,
    /// An accumulator is folded a second time.
    FoldTwice,
    /// The update section ends with an accumulator that isn't folded.
    FoldMissing,
    /// A result of arithmetic may leave 64 bits.
    MayOverflow,
    /// A divisor may be 0.
    MayDivideByZero,
    /// A sum over all records may leave 64 bits.
    AccumulatorRange,
    /// Fewer instructions are stated for a record than it may take.
    BudgetRecord,
    /// Fewer instructions are stated for a pane than it may take.
    BudgetPane,
    /// Fewer panes are stated than may be held.
    BudgetHeld,
    /// There was no memory for the verifier. This says nothing of the program.
    Memory,
}

impl fmt::Display for Rule {
    ghost use Rattle.std.specs.Prelude.{Some};
    ghost use Rattle.wsm_rules.specs.Text.{rule_name};

    ghost output = { λ rule. Some (rule_name rule) };

    fn fmt<W: fmt::Write>(&self, f: &mut fmt::Formatter<W>) -> fmt::Result {
        f.write_str(match self {
            Rule::StackUnderflow => "StackUnderflow",
            Rule::StackOverflow => "StackOverflow",
            Rule::Type => "Type",
            Rule::BadJump => "BadJump",
            Rule::Join => "Join",
            Rule::Unreachable => "Unreachable",
            Rule::NoReturn => "NoReturn",
            Rule::NotHere => "NotHere",
            Rule::FoldTwice => "FoldTwice",
            Rule::FoldMissing => "FoldMissing",
            Rule::MayOverflow => "MayOverflow",
            Rule::MayDivideByZero => "MayDivideByZero",
            Rule::AccumulatorRange => "AccumulatorRange",
            Rule::BudgetRecord => "BudgetRecord",
            Rule::BudgetPane => "BudgetPane",
            Rule::BudgetHeld => "BudgetHeld",
            Rule::Memory => "Memory",
        })
    }
}

impl Error for Rule {}

/// The part of a program that a rejection is about. Its text is `where`, `update`, `fire` or
/// `budget`.
#[derive(Clone, Copy, Debug, PartialEq, Eq)]
pub enum Part {
    /// A section.
    Code(SectionId),
    /// The numbers that the program states of its cost.
    Budget,
}

impl fmt::Display for Part {
    ghost use Rattle.std.specs.Prelude.{Some};
    ghost use Rattle.wsm_rules.specs.Text.{part_text};

    ghost output = { λ part. Some (part_text part) };

    fn fmt<W: fmt::Write>(&self, f: &mut fmt::Formatter<W>) -> fmt::Result {
        match self {
            Part::Code(section) => write!(f, "{section}"),
            Part::Budget => f.write_str("budget"),
        }
    }
}

/// The first fault of a program. Its text is as `fire,2,MayDivideByZero`.
#[derive(Clone, Copy, Debug, PartialEq, Eq)]
pub struct Rejection {
    /// Where the fault is.
    pub part: Part,
    /// The place of the instruction in its section, from 0; 0 in the budget.
    pub place: usize,
    /// What is wrong there.
    pub rule: Rule,
}

impl fmt::Display for Rejection {
    ghost use Rattle.std.specs.Prelude.{Some};
    ghost use Rattle.wsm_rules.specs.Text.{rejection_text};

    ghost output = { λ rejection. Some (rejection_text rejection) };

    fn fmt<W: fmt::Write>(&self, f: &mut fmt::Formatter<W>) -> fmt::Result {
        let Rejection { part, place, rule } = self;
        write!(f, "{part},{place},{rule}")
    }
}

impl Error for Rejection {}

// There was no memory.
impl From<AllocError> for Rejection {
    ghost use Rattle.std.specs.Prelude.{◌≡◌};
    ghost use Rattle.wsm_rules.specs.declared.rejection.Rule.TheVariants.{Memory};

    ghost from_gives = { λ _ r. r.rule ≡ Memory };

    fn from(_e: AllocError) -> Rejection {
        Rejection {
            part: Part::Budget,
            place: 0,
            rule: Rule::Memory,
        }
    }
}
