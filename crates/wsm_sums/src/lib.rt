//! CRC-32 of texts, as zlib's `crc32` has it.
//!
//! [`Crc32`] takes a text in pieces and has its sum. A sum tells an accident, as a text of which the end
//! is missing or a byte is wrong; it is no guard against anybody who wants it to fit.
#![tactic(auto)]

pub use crc::Crc32;

mod crc;
mod far_table;
pub mod laws;
mod table;
