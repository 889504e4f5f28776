//! Records that are delivered more than once.
//!
//! A record has an identifier, some bytes. One whose identifier came before is a *double*, and is left out.
//! An identifier is forgotten as soon as a record of its time would be late: a double that passes then is
//! late by itself, so that a query writes what it writes without it. The law of that is `passes_once` of
//! `wsm_semantics`, which speaks of these identifiers too ([`laws`]). Identifiers, and what is late, are
//! this project's own rules; the watermark is that of the Dataflow Model (Akidau et al. 2015).
//!
//! ```rust
//! use wsm_admission::Clock;
//! use wsm_doubles::Doubles;
//! use wsm_windows::Shape;
//!
//! let clock = Clock { start: 0, skew: 100, lateness: 10, from_window: false, records: 1000 };
//! let shape = Shape::Fixed(60);
//! let mut doubles = Doubles::new(alloc);
//! assert!(rt; doubles.pass(b"order 17", 49, &clock, &shape, 0)?);
//! assert!(rt; !doubles.pass(b"order 17", 49, &clock, &shape, 59)?);
//! assert!(rt; doubles.pass(b"order 17", 49, &clock, &shape, 60)?); // 49 + 10 is before 60
//! ```
#![tactic(auto)]

pub use doubles::Doubles;
pub use entry::Entry;

mod chains;
mod doubles;
mod entries;
mod entry;
mod hash;
mod late;
pub mod laws;
mod table;
