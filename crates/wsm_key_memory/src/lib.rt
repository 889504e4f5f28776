//! How many bytes a run over any number of keys takes at most, from what its accepted program declares.
//!
//! [`parts_of`] tells in how many parts so many keys are run, and [`bytes_of_keys`] what their names and the engines of these parts take.
#![tactic(auto)]

pub use bytes::{bytes_of_keys, parts_of};

mod bytes;
