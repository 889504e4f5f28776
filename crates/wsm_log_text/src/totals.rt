//! What a run over a log comes to.

use wsm_semantics::Totals;
use wsm_turns::Heard;

/// What is counted of a run over a log, beside the numbers of its last line.
#[derive(Clone, Copy)]
pub struct LogCounts {
    /// How many records were left out, since their identifier had come before.
    pub doubles: u64,
    /// How many records that could tell a time had no voice: their lines name no clock, or one more than there may be.
    pub silent: u64,
    /// What the clocks came to behind the last line, where there are any. What waited then goes on.
    pub heard: Option<Heard>,
}

/// What a run over a log comes to: the numbers of its last line, and what is counted beside them.
#[derive(Clone, Copy)]
pub struct LogTotals {
    /// The numbers of the last line.
    pub totals: Totals,
    /// What is counted beside them.
    pub counts: LogCounts,
}
