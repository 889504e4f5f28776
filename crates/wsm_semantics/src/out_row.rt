//! Rows that a turn writes.

use wsm_record::Columns;
use wsm_windows::{PaneKind, Window};

/// A row that a turn writes: a pane that fired or that is withdrawn, or a row of one of the streams
/// of the relation.
#[derive(Debug, Drop)]
pub enum OutRow {
    /// A pane that fired (Akidau et al. 2015).
    Pane {
        /// Which firing of the window it is.
        kind: PaneKind,
        /// The number of its key.
        key: u16,
        /// Its window, in event time.
        window: Window,
        /// Its columns.
        columns: Columns,
    },
    /// A pane row that no longer stands (Akidau et al. 2015).
    Retract {
        /// The number of its key.
        key: u16,
        /// Its window as the pane row had it, in event time.
        window: Window,
        /// Its columns as the pane row had them.
        columns: Columns,
    },
    /// A row that the relation gained since the last instant (Arasu et al. 2006).
    Istream {
        /// The watermark of the instant.
        mark: i64,
        /// The row's columns.
        columns: Columns,
    },
    /// A row that the relation lost since the last instant.
    Dstream {
        /// The watermark of the instant.
        mark: i64,
        /// The row's columns.
        columns: Columns,
    },
    /// A row of the relation.
    Rstream {
        /// The watermark of the instant.
        mark: i64,
        /// The row's columns.
        columns: Columns,
    },
}
