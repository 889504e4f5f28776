//! What parts by key of every accepted program write behind a front. The contract of each function is the law; a call of it does nothing.
#![tactic(auto)]

pub mod laws;
