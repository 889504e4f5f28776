//! What a checked query has.

use crate::term::Term;
use wsm_admission::Clock;
use wsm_query::{Budget, Output};
use wsm_record::{CellType, Kind, Schema};

/// What an accumulator folds.
#[derive(Drop)]
pub struct Folding {
    /// How the values of the records are folded.
    pub kind: Kind,
    /// The value that a record adds.
    pub operand: Term,
}

/// What a checked query has: names are numbers in its expressions, and each aggregate has an
/// accumulator of its own.
#[derive(Drop)]
pub struct Parts {
    /// The keys, the fields and the sources of watermarks.
    pub schema: Schema,
    /// By which records and watermarks are admitted. Lateness isn't counted from the ends of sessions.
    pub clock: Clock,
    /// What BUDGET states; without it the program states its need.
    pub budget: Option<Budget>,
    /// The windows, when they fire, and what is written of them.
    pub output: Output,
    /// WHERE: which records are selected.
    pub condition: Option<Term>,
    /// The accumulators by their numbers: those of the columns, then those of HAVING.
    pub foldings: Vec<Folding>,
    /// The types of the columns.
    pub types: Vec<CellType>,
    /// What is selected.
    pub columns: Vec<Term>,
    /// HAVING: which panes are shown.
    pub having: Option<Term>,
}
