//! Cuts the rows of a program: of what an engine replies to each event, what the event does, and of that the rows that stay,
//! on which hangs what follows.
#![tactic(auto)]

pub use cutter::Cutter;
pub use judge::{judge_event, judge_told};

mod cutter;
mod judge;
pub mod laws;
