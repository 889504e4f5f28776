//! What the clocks of a log come to.

/// What the clocks of a log come to after some records.
#[derive(Clone, Copy)]
pub struct Heard {
    /// How many clocks have to agree.
    pub agree: usize,
    /// How many speak: their last stamps are among as many last ones as the rule doesn't forget.
    pub voices: usize,
    /// How many records told a time.
    pub stamps: u64,
    /// How many records wait.
    pub waiting: usize,
}
