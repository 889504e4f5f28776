//! Where a row stands on its turn.

/// Where a row stands on its turn, and whose it is. These are ordered as rows are written.
#[derive(Clone, Copy, Debug, PartialEq, Eq, PartialOrd, Ord)]
pub struct RowPlace {
    /// 0 of a row that is withdrawn, 1 of a pane, 2 of a row of a stream.
    pub rank: u8,
    /// The end of its window, in event time.
    pub end: i64,
    /// The start of its window, in event time.
    pub start: i64,
    /// The number of its part.
    pub part: u32,
    /// The place of its key in the part.
    pub key: u16,
    /// Its number among the rows of the part.
    pub row: usize,
}
