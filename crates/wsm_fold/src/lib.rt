//! Folds of the values that a query aggregates: sum, least, greatest, some, all.
//!
//! [`Fold`] is a join of two values with its laws: the order of a bag and the way it is put together
//! don't matter, and a bag of so many values within bounds has its fold within bounds. [`Sum`],
//! [`Min`], [`Max`], [`Any`] and [`All`] are the five folds, which a program names by [`Kind`].
//! [`Folded`] holds the folds of a pane's accumulators, inline, and [`fold_into`] folds into values that
//! lie elsewhere: their calls take no memory.
//!
//! ```rust
//! use wsm_fold::{Folded, Kind};
//! use wsm_record::Value::Int;
//!
//! let kinds = [Kind::Sum, Kind::Max];
//! let mut pane = Folded::start(&[Int(7), Int(7)]); // the first record has 7
//! pane.fold(&kinds, &[Int(3), Int(3)]); // the second has 3
//! pane.merge(&kinds, &Folded::start(&[Int(9), Int(9)])); // a session that was joined has 9
//! assert_eq!(rt; pane.values(), [Int(19), Int(9)].as_slice());
//! ```
#![tactic(auto)]

pub use accumulators::{Folded, fold_into};
pub use fold::{All, Any, Fold, Max, Min, Sum};
pub use wsm_record::Kind;

mod accumulators;
mod fold;
pub mod laws;
