//! Lines that are handed out, each with its number and the sum of all lines up to it.
//!
//! ```text
//! NUMBER,SUM,LINE
//! ```
//!
//! NUMBER counts from 1 on, and SUM is the CRC-32 of all lines up to this one, each with its line feed, both in decimal. So who takes
//! them knows by two numbers which lines it has, tells a gap and another order, and passes over what it took.
#![tactic(auto)]

pub use numbering::Numbering;

pub mod laws;
mod numbering;
