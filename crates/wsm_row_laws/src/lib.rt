//! What holds of the rows that are written for the lines of a log. The contract of each function is the law; a call of it does
//! nothing.
#![tactic(auto)]

pub mod laws;
