//! From the lines of a log to what a query writes: one function of lines, in their order.
//!
//! An [`Intake`] takes one line after the other, and has the bytes that are written for the last one. [`run_log`] has it take the lines
//! of a reader, and gives a device these bytes; [`LogTotals`] is what that comes to. An intake is saved as a text, from which another
//! goes on.
#![tactic(auto)]

pub use intake::Intake;
pub use run::run_log;
pub use wsm_log_rows::LogEnd;
pub use wsm_log_text::LogTotals;
pub use wsm_turns::Listener;

mod intake;
mod resuming;
mod run;
mod saving;
mod staying;
mod told;
