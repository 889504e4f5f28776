//! The tokens of a query text, read one at a time, and the faults that a text can have.
//!
//! A [`Reader`] stands in front of a token of a text. A rule of a grammar looks at it, takes it and
//! goes on, or stops there: see [`Reader::ask`], [`Reader::number`] and [`Reader::name`]. Where it
//! stops, a [`TextFault`] has the offset, and [`refusal_of`] makes a line and a column of it.
//!
//! ```rust
//! use wsm_tokens::{Fault, ParseRefusal, Position, Reader, refusal_of};
//!
//! let text = b"KEYS a b;";
//! let mut reader = Reader::new(text);
//! assert_eq!(rt; reader.ask(b"KEYS"), Ok(()));
//! assert_eq!(rt; reader.name().is_ok(), true);
//! if let Err(stop) = reader.ask(b";") {
//!     let position = Position { line: 1, column: 8 };
//!     assert_eq!(rt; refusal_of(text, stop), ParseRefusal::Text(Fault::Unexpected, position));
//! }
//! ```
#![tactic(auto)]

pub use fault::{Fault, ParseRefusal, Stop, TextFault, refusal_of};
pub use position::{Position, position_at};
pub use reader::Reader;
pub use token::{Sign, Token};

mod fault;
mod position;
mod reader;
mod scan;
mod token;
