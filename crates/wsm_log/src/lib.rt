//! The lines of a reader, one at a time, in memory that is taken once.
//!
//! A line ends in front of a line feed; what stands behind the last line feed is a line where it isn't
//! empty. [`Lines`] hands out each line in the place of the one before, and at most two bytes more of
//! it than were wanted.
//!
//! ```rust
//! use wsm_log::Lines;
//!
//! let mut lines = Lines::new(alloc, b"one\n\nthree and more".as_slice(), 5)?;
//! assert_eq!(rt; lines.advance(), Ok(true));
//! assert_eq!(rt; lines.line(), b"one".as_slice());
//! assert_eq!(rt; lines.advance(), Ok(true));
//! assert_eq!(rt; lines.line(), b"".as_slice());
//! assert_eq!(rt; lines.advance(), Ok(true));
//! assert_eq!(rt; lines.line(), b"three a".as_slice());
//! assert_eq!(rt; lines.advance(), Ok(false));
//! ```
#![tactic(auto)]

pub use lines::{Lines, ReadFailed};

mod line_buffer;
mod lines;
