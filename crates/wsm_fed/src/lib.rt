//! The lines that a source writes of itself, each with where it stands behind some of them.
//!
//! ```text
//! from,POSITION
//! :LINE
//! at,LINES,POSITION
//! ```
//!
//! The first line says where the source goes on: POSITION are the very bytes of the last position that was taken. Behind it each
//! line of a log stands as it is, with a colon in front, and now and then an `at`: LINES is how many came since the last one, and
//! POSITION where the source stands behind them, any bytes but a line feed, at most 1,024.
//!
//! [`Fed`] takes such bytes in whatever pieces they come, and gives the lines in front of an `at` with its position. Lines without an
//! `at` behind them are never given: their source sends them again. Whatever breaks this is told with the number of its line.
#![tactic(auto)]

pub use fault::{Broken, FedFault};
pub use fed::Fed;

mod fault;
mod fed;
mod held;
pub mod laws;
mod said;
