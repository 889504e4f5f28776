//! Intervals of whole numbers: what arithmetic on their values can give.
//!
//! Ends are numbers of 64 bits. An operation computes the ends of its answer without loss, and
//! answers `None` where one of them leaves 64 bits. Nothing here takes memory.
//!
//! ```rust
//! use wsm_interval::Interval;
//!
//! let n = Interval { lo: -5, hi: 100 };
//! let two = Interval { lo: 2, hi: 2 };
//! let large = Interval { lo: 0, hi: i64::MAX };
//! assert_eq!(rt; n.mul(two), Some(Interval { lo: -10, hi: 200 }));
//! assert_eq!(rt; two.div(n), None); // a number of -5 to 100 may be 0
//! assert_eq!(rt; large.add(two), None); // the sum may leave 64 bits
//! assert_eq!(rt; two.hull(n), n);
//! ```
#![tactic(auto)]

pub use arithmetic::Arithmetic;
pub use comparison::Comparison;
pub use interval::Interval;

mod arithmetic;
mod comparison;
mod interval;
