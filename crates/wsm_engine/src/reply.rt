//! What a turn answers.

use wsm_admission::Refusal;

/// What a turn answers.
#[derive(Clone, Copy, Debug, PartialEq, Eq)]
pub struct Reply {
    /// Why the event wasn't taken, if it wasn't.
    pub refusal: Option<Refusal>,
    /// Whether it is a record that was taken and that WHERE selects.
    pub selected: bool,
    /// The instructions that the record is charged: WHERE's once, UPDATE's once for each window that it
    /// enters (it is run once), and one for each accumulator where two sessions are joined. The
    /// program's RECORD bounds it.
    pub record_steps: u64,
    /// How many panes fired.
    pub fired: u64,
    /// The most instructions that a pane took to fire, 0 where none fired.
    pub pane_steps_max: u64,
    /// How many instructions all panes took to fire.
    pub pane_steps_total: u64,
}
