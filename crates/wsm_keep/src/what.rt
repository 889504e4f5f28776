//! What a row does, as far as a cut is concerned.

/// What the event of a row does after the rows before it, as far as what follows may need it.
#[derive(Clone, Copy, Debug, PartialEq, Eq)]
pub enum What {
    /// A record of a key, with a time, that is taken and that WHERE selects.
    Selected(u32, i64),
    /// A watermark of a source that is accepted.
    Accepted(u16),
    /// Nothing.
    Idle,
}
