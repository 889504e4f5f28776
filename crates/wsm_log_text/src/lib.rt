//! What the lines of a log come to, as a run by declared keys and one by any number of names have it in common.
//!
//! The definitions are those of the text: which events a query is fed, and which bytes are written. [`LogTotals`] is what a run comes
//! to, [`add_fault`] writes the line of a fault, and [`note_first`] keeps the first line. A [`Standing`] is what a saved text says of the
//! lines beside the engine, and [`fewer_records`] of a run that goes on from one.
#![tactic(auto)]

pub use lines::{add_fault, note_first};
pub use records::fewer_records;
pub use standing::Standing;
pub use totals::{LogCounts, LogTotals};

mod lines;
mod records;
mod standing;
mod totals;
