//! How wide panes are.

/// How much is kept of a pane.
#[derive(Clone, Copy, Debug, PartialEq, Eq)]
pub struct Widths {
    /// How many accumulators there are.
    pub accumulators: usize,
    /// How many columns a row has.
    pub columns: usize,
    /// Whether the window of what stands is kept, as it is where panes retract.
    pub windows: bool,
}
