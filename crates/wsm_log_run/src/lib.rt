//! Runs of accepted queries and programs over the lines of a log.
//!
//! [`run_log`] takes an accepted program, a source that says how a line is read, and a reader of the log's bytes, and gives a
//! device what the source and the query mean for its lines.
#![tactic(auto)]

pub use run::run_log;
pub use wsm_log_text::LogTotals;
pub use wsm_turns::Listener;

mod run;
