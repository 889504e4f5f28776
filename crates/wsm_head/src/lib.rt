//! What a run over a log has come to, and goes on from: its laws, whose contracts say all (a call of one does nothing), and a program
//! with the RECORDS that are left.
#![tactic(auto)]

pub use records::with_records;

pub mod laws;
mod records;
