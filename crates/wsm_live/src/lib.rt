//! A run over a growing log, from its lines to numbered lines, each exactly once whatever dies meanwhile.
//!
//! Lines come in turns. Each turn's lines are kept in a journal and are on the disk ([`Live::append`]) before they are taken, and
//! what is written for them is handed out with a number and a sum. A restart opens the journal, takes all lines behind its head
//! again and hands out the very same lines with their numbers ([`Live::open`]); who took some passes over them.
//!
//! What a line comes to is for a [`LineTaker`].
#![tactic(auto)]

pub use head::HeadRow;
pub use live::{Front, Live, LiveError};
pub use run::{LineTaker, LiveRun};

mod cut_row;
mod cuts;
mod head;
pub mod laws;
mod live;
mod rows;
mod run;
