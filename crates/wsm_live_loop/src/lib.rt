//! The loop of a live run: from a log that grows to numbered lines on standard output.
//!
//! [`follow`] holds DIR, opens its journal, hands out what it has, and then goes on with the log: each turn's lines are in the
//! journal, on the disk, before they are taken, and what is written for them is handed out before the next turn. While nothing comes
//! it sleeps. Meanwhile it looks at what sinks told and writes what the run has come to. Once the journal has grown by as much as
//! [`Settings::cut`] says, and all sinks that told have all lines that were handed out, it is cut: a head takes the place of all its
//! records, and lines are numbered on. [`feed`] does the same with the lines that a source writes, each `at` a turn, up to its end.
//!
//! What a file has no clause can say: of these calls it is proved that they are safe. `trials/live` tries what they do. When a journal
//! is cut, and which sinks can be served, is decided over values, and has its clauses; so have the parts that are put together:
//! `wsm_follow`, `wsm_journal` and `wsm_live`.
#![tactic(auto)]

pub use position::position_of;
pub use settings::Settings;
pub use stop::{LiveStop, SinkFault};
pub use turns::{feed, follow};

mod begin;
mod cuts;
mod fed_inflow;
mod health;
mod inflow;
mod log_inflow;
mod numbered;
mod position;
mod settings;
mod sinks;
mod stop;
#[cfg(test)]
mod tests;
mod turns;
