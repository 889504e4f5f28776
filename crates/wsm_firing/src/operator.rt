//! What a turn works on.

use crate::streams::Streams;
use crate::turn_rows::TurnRows;
use wsm_machine::Machine;
use wsm_panes::HeldPanes;

/// A window operator: what runs a program's sections, and the state that they are run for.
#[derive(Drop)]
pub struct WindowOperator {
    /// Runs the sections.
    pub machine: Machine,
    /// What turns change.
    pub state: WindowState,
}

/// The state of a window operator: the panes that are held, the streams of the relation that stands for
/// these, and the rows of the turn.
#[derive(Drop)]
pub struct WindowState {
    /// The panes that are held.
    pub held: HeldPanes,
    /// The streams, which are told what the relation gains and loses.
    pub streams: Streams,
    /// The rows that the turn wrote so far.
    pub rows: TurnRows,
}

/// The arrival of a record that is selected.
#[derive(Clone, Copy, Debug)]
pub struct Arrival {
    /// The record's key.
    pub key: u16,
    /// The record's time, in event time.
    pub time: i64,
    /// The mark that the watermark stands at.
    pub mark: i64,
}
