//! The tree of a query.

use crate::expr::Expr;
use wsm_admission::Clock;
use wsm_record::{Field, Form, Mode, Name};
use wsm_windows::Shape;

/// What a query states that it needs at most.
#[derive(Clone, Copy, Debug, PartialEq, Eq)]
pub struct Budget {
    /// Instructions for a record.
    pub per_record: i64,
    /// Instructions for a pane that fires.
    pub per_pane: i64,
    /// Panes held at one time.
    pub held: i64,
}

/// The windows of a query, when they fire, and what is written of them.
#[derive(Clone, Copy)]
pub struct Output {
    /// How event time is cut into windows.
    pub shape: Shape,
    /// What a firing's columns are computed over.
    pub mode: Mode,
    /// After how many unshown records a pane fires early.
    pub early: Option<i64>,
    /// After how many unshown records a pane fires late.
    pub late: Option<i64>,
    /// What is written.
    pub form: Form,
}

/// A query, by its clauses.
#[derive(Drop)]
pub struct Query {
    /// The keys that records are grouped by, in the order of their clause.
    pub keys: Vec<Name>,
    /// What each record has, in the order of the clauses.
    pub fields: Vec<Field>,
    /// The sources of watermarks, in the order of their clause. A query without the clause has none.
    pub sources: Vec<Name>,
    /// By which records and watermarks are admitted: the clauses from START to RECORDS.
    pub clock: Clock,
    /// What the query states that it needs. Without it the program states its need.
    pub budget: Option<Budget>,
    /// What is selected.
    pub columns: Vec<Expr>,
    /// WHERE: which records are selected.
    pub condition: Option<Expr>,
    /// HAVING: which panes are shown.
    pub having: Option<Expr>,
    /// The windows, when they fire, and what is written of them: the clauses from WINDOW to EMIT.
    pub output: Output,
}
