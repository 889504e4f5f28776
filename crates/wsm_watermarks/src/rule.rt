//! How a watermark follows clocks.

/// How a watermark follows clocks. Times and spans are in units of event time.
#[derive(Clone, Copy, Debug, PartialEq, Eq)]
pub struct Rule {
    /// How many clocks have to agree on a time.
    pub agree: usize,
    /// A clock speaks while its last stamp is among so many last stamps of all clocks.
    pub forget: u64,
    /// How far the watermark stays behind the time that clocks agree on.
    pub bound: u64,
    /// A watermark that is raised is a multiple of this.
    pub step: u64,
    /// Where the watermark begins.
    pub start: u64,
}
