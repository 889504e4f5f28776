//! Rows that were cut.

use crate::head::Head;

/// What stands in the place of rows that were cut.
#[derive(Drop)]
pub struct Cut {
    /// What stands in front.
    pub head: Head,
    /// The bytes of the head and of the rows that stay.
    pub text: Vec<u8>,
    /// Whether no row is behind those that were cut; else the one that was read last is.
    pub at_end: bool,
}
