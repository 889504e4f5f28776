//! What a query over any number of keys writes, by parts of so many keys that run side by side.
#![tactic(auto)]

pub mod laws;
