//! What stands for a pane.

use wsm_record::Columns;
use wsm_windows::Window;

/// The firing that stands for a pane.
#[derive(Clone, Copy, Debug)]
pub enum Standing {
    /// None, as no part of the pane fired.
    Unfired,
    /// One of the pane or of a part of it.
    Row {
        /// Where panes retract its window as it was when it fired, in event time, and otherwise none.
        window: Option<Window>,
        /// Its row, or none where its HAVING was false.
        columns: Option<Columns>,
    },
    /// None, as two parts that fired were joined since.
    Joined,
}
