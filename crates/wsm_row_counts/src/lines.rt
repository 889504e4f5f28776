//! Rows of a text that comes in pieces.

use crate::counts::Counts;
use std::alloc::{AllocError, Global};

/// Counts the rows of a text that comes in pieces, each a line. One that is no UTF-8 isn't counted.
#[derive(Drop)]
pub struct Lines {
    counts: Counts,
    // What came of a line whose end didn't come yet.
    line: Vec<u8>,
}

impl Lines {
    /// Nothing came.
    pub fn new(alloc: Global) -> Lines {
        Lines {
            counts: Counts::new(alloc),
            line: Vec::new(alloc),
        }
    }

    /// What is counted of the lines whose end came.
    pub fn counts(&self) -> &Counts {
        &self.counts
    }

    /// Takes a piece more of the text.
    ///
    /// # Errors
    ///
    /// Memory was refused.
    pub fn take(&mut self, piece: &[u8]) -> Result<(), AllocError> {
        for byte in piece {
            match *byte {
                b'\n' => self.end_line()?,
                byte => self.line.push(byte)?,
            }
        }
        Ok(())
    }

    fn end_line(&mut self) -> Result<(), AllocError> {
        if let Ok(row) = str::from_utf8(&self.line) {
            self.counts.add(row)?;
        }
        self.line.clear();
        Ok(())
    }
}
