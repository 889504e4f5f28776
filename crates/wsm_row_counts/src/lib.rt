//! How often each word came among the rows that were written.
//!
//! Of each row its first cell is counted, and of one that was refused why: a row `refused,7,BadTag` counts for `refused`, and for `BadTag`
//! among the refused ones. [`Lines`] counts the rows of a text that comes in pieces, and [`Words::write`] writes counts as text that
//! Prometheus reads.
#![tactic(auto)]

pub use counts::Counts;
pub use lines::Lines;
pub use words::{Count, Words};

mod counts;
mod lines;
mod words;
