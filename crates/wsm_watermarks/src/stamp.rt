//! What a record tells of time.

/// What a record tells of time: which clock stamped it, and when.
#[derive(Clone, Copy, Debug, PartialEq, Eq)]
pub struct Stamp {
    /// The clock, by its number.
    pub clock: usize,
    /// The time that it tells, in units of event time.
    pub time: u64,
}
