//! Journals: records of lines, each with a number, a sum and a position.
//!
//! A journal is a file of lines. A record of it is some lines, none of which begins with `at,`, and behind
//! them the line
//!
//! ```text
//! at,NUMBER,BYTES,LINES,SUM,POSITION
//! ```
//!
//! NUMBER rises by one from record to record. BYTES are those of the lines in front, LINES are how many
//! lines of a log they came from. SUM is the CRC-32 of those bytes and of this line without `SUM,`.
//! POSITION is any bytes but a line feed, at most [`MAX_POSITION`]. Numbers are decimal, of 64 bits,
//! without zeros in front.
//!
//! [`append_record`] writes a record, and [`read_journal`] reads those that are whole from the front on.
//! What stands behind them is an append that didn't come to its end, or [`Behind::Damage`], where a later
//! record is whole.
//!
//! [`JournalFile`] keeps a journal in a [`JournalFolder`], where a power cut at any moment leaves records
//! whole: each is on the disk before it is told of, and others take their place by a file of their own.
#![tactic(auto)]

pub use folder::{FolderError, JournalFolder};
pub use journal_file::{JournalError, JournalFile, ReplaceError};
pub use marks::MAX_POSITION;
pub use numbers::number_of;
pub use reading::{Behind, Journal, read_journal};
pub use records::Record;
pub use writing::{append_record, are_rows, is_position};

mod folder;
mod journal_file;
pub mod laws;
mod marks;
mod numbers;
mod reading;
mod records;
mod writing;
