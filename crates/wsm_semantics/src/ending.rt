//! What an input comes to.

/// What the rows of an input come to, as its last line says it. A number stays at the greatest
/// `u64` once it has come to it.
#[derive(Clone, Copy, Debug, PartialEq, Eq)]
pub struct Totals {
    /// The rows read, or the events fed.
    pub rows: u64,
    /// The records admitted.
    pub admitted: u64,
    /// The late records.
    pub late: u64,
    /// The other rows or events that were refused.
    pub refused: u64,
    /// The panes that fired.
    pub panes: u64,
}
