//! `wsm live`: what its words ask for, and the run over a log that grows or over what a source writes.
#![tactic(auto)]

pub use lives::live;

mod live_settings;
mod lives;
