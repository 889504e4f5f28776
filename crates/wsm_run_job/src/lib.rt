//! `wsm run` and `wsm rows`: runs of a query or a program over rows or a log, by the keys that it declares or by any number of names.
#![tactic(auto)]

pub use logs::write_log_rows;
pub use runs::run;

mod keyed;
mod keyed_logs;
mod logs;
mod progress;
mod runs;
