//! How runs end early that are not over rows by declared keys: over a log, or by any number of names.
//!
//! They stand apart from the runs, so that what only tells of an end needs no run. How a run over a log ends is
//! [`LogEnd`](wsm_log_rows::LogEnd), since rows of lines end so too; [`end_of_log`] makes an [`End`](wsm_inputs::End) of it.
#![tactic(auto)]

pub use keyed::KeyedStop;
pub use keyed_log::KeyedLogStop;
pub use log::end_of_log;

mod keyed;
mod keyed_log;
mod log;
