//! The rows of a log's lines: what each says by a source, as a run over rows takes it.
//!
//! [`write_rows`] writes a row for each line of a reader: the record that it says, or `unread` with the word of its fault.
#![tactic(auto)]

pub use end::LogEnd;
pub use rows::{RowWriter, add_event, write_rows};

mod end;
mod rows;
