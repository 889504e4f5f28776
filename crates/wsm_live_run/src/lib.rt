//! A run over the lines of a growing log: what a query writes for them, by a source and clocks, as `run` writes it over the whole log;
//! by the keys that it declares, or by any number of names.
#![tactic(auto)]

pub use begin::{keyed_live_run, live_run};
pub use keyed_log_lines::KeyedLogLines;
pub use log_lines::LogLines;

mod begin;
mod keyed_log_lines;
pub mod laws;
mod log_lines;
mod measures;
