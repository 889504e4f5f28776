//! What parts answer to an event.

use wsm_admission::Refusal;

/// What parts answer to an event.
#[derive(Clone, Copy)]
pub struct PartsReply {
    /// Why the event wasn't taken, if it wasn't.
    pub refusal: Option<Refusal>,
    /// Whether it is a record that was taken and that WHERE selects.
    pub selected: bool,
}
