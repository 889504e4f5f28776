//! The limits: each number that bounds a query, a program, a row or a run, with what it bounds.
//!
//! Times and spans are in the query's own unit of event time.

/// The latest time of a record or a watermark, and the latest START. The earliest is 0.
pub const LATEST_TIME: i64 = 10_000_000_000_000_000;

/// The longest SKEW, LATENESS, window, period or gap, and the greatest RECORDS and count of a trigger.
pub const LONGEST_SPAN: i64 = 1_000_000_000_000;

/// The most instructions that may be stated for a record, or for a pane that fires.
pub const MAX_STATED: u64 = 1_000_000_000_000_000_000;

/// The most panes that may be held at one time.
pub const MAX_PANES: u64 = 100_000;

/// The most keys, and the most names of a field.
pub const MAX_NAMES: usize = 1_000;

/// The most bytes of a name.
pub const MAX_NAME: usize = 32;

/// The most fields of a record.
pub const MAX_FIELDS: usize = 16;

/// The most sources of watermarks. The fewest that are declared are 2.
pub const MAX_SOURCES: usize = 16;

/// The most columns of a row.
pub const MAX_COLUMNS: usize = 16;

/// The most accumulators of a pane.
pub const MAX_ACCUMULATORS: usize = 16;

/// The most instructions of a section.
pub const MAX_SECTION: usize = 1_000;

/// The most values on the stack of a run.
pub const MAX_STACK: usize = 32;

/// The most levels of an expression that are open at one time.
pub const MAX_LEVELS: usize = 24;

/// The most operators of one chain.
pub const MAX_CHAIN: usize = 64;
