//! Lines of a log read by any number of names.
//!
//! A source says where a line has the text of its key. [`NamedLines`] looks it up among the names so far, those of a
//! file first, learns the names of new keys as they come, and says of each record the number of its key among all.
#![tactic(auto)]

pub use lines::NamedLines;

pub mod laws;
mod lines;
