//! What the rows of panes come to, where these retract what they showed or accumulate it, of every query and of every accepted program.
//! The contract of each function is the law; a call of it does nothing.
#![tactic(auto)]

pub mod laws;
pub mod programs;
