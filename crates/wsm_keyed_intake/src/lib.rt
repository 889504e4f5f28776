//! What the lines of a log come to by any number of names, in one process.
//!
//! A [`KeyedIntake`] stands between a log and engines of parts: it reads each line by the names so far, which lines teach, has its clocks
//! say the watermark, lets records wait, leaves out those that come again, and tells what one query over all names writes.
#![tactic(auto)]

pub use intake::KeyedIntake;
pub use log::{open_keyed_log, run_keyed_log};
pub use run::{KeyedLogTotals, run_parts};
pub use wsm_ends::KeyedLogStop;

mod intake;
mod key_names;
mod log;
mod passing;
mod run;
mod saving;
