//! What a run over a log with clocks feeds a query, beside the records that the log delivers. The contract of each function is the law;
//! a call of it does nothing.
#![tactic(auto)]

pub mod laws;
