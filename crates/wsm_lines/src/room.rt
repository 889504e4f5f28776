//! What lines are read with.

use json::Scratch;
use std::alloc::Global;
use wsm_parts::{Span, Texts};

/// What a line is read with. It keeps its room from line to line.
#[derive(Drop)]
pub struct Room {
    /// What JSON is read with.
    pub scratch: Scratch,
    /// Where the cells of the last row stand, of CSV or of a query's own form.
    pub spans: Vec<Span>,
    /// The texts of those that the source asks for, or of all.
    pub texts: Texts,
}

impl Room {
    /// No room yet.
    pub fn new(alloc: Global) -> Room {
        Room {
            scratch: Scratch::new(alloc),
            spans: Vec::new(alloc),
            texts: Texts::new(alloc),
        }
    }
}
