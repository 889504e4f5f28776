//! What rows come to.

use wsm_turns::Heard;

/// What lines came to, each number at most the greatest `u64`.
#[derive(Clone, Copy, Debug, PartialEq, Eq)]
pub struct Counts {
    /// How many lines were read.
    pub lines: u64,
    /// How many of them are no rows, but for those without a byte.
    pub unread: u64,
    /// How many records were left out, since one with their identifier came before.
    pub doubles: u64,
}

/// What rows came to: their lines, and what is counted of what went on.
#[derive(Clone, Copy)]
pub struct Totals {
    /// What the lines came to.
    pub counts: Counts,
    /// How many records were late by the query's clock when they went on, at most the greatest `u64`.
    pub late: u64,
    /// The greatest time of the records that the query's clock takes as they went on, if there are any.
    pub latest: Option<i64>,
    /// The query's watermark behind all that went on.
    pub mark: i64,
    /// What the clocks came to behind the last line, where there are any. What waited then went on.
    pub heard: Option<Heard>,
}
