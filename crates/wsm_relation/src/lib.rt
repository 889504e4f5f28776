//! Relations at an instant, and the streams of what they gain and lose (Arasu et al. 2006).
//!
//! A [`Relation`] is a bag of rows, kept in row order. [`istream`], [`dstream`] and [`rstream`] are the
//! operators on whole relations: they give the rows that one has more often than another, or all its
//! rows. [`Changes`] gives the same from what was gained and lost in between, and needs no order until
//! it is read: each row goes behind those before it. `wsm_firing` keeps changes alone, and has them
//! write the rows of its streams ([`Changes::write`]).
//!
//! Where `row(n)` is a row of the one column n:
//!
//! ```rust
//! use wsm_record::Cell::Int;
//! use wsm_relation::{Relation, istream};
//!
//! let mut before = Relation::open(alloc, 2, 1)?; // at most two rows of one column
//! let mut now = Relation::open(alloc, 2, 1)?;
//! before.add(row(5));
//! now.add(row(18));
//! now.add(row(5));
//! let mut gained = Vec::with_capacity(alloc, 2)?;
//! istream(&before, &now, &mut gained);
//! assert_eq!(rt; gained.len(), 1);
//! assert_eq!(rt; gained[0].as_slice(), [Int(18)].as_slice());
//! ```
#![tactic(auto)]

pub use changes::{Changes, Side};
pub use order::row_order;
pub use relation::{Relation, dstream, istream, rstream};

mod changes;
mod finding;
mod lists;
mod order;
mod relation;
mod rows;
mod steps;
