//! The judge of programs: by the rules of `wsm_rules` it makes a program trustworthy before its
//! first row.
//!
//! [`verify`] accepts a program, or refuses it for its first fault. [`needed`] says what a program
//! costs, also one that would be refused. A [`Costed`] is a program with what it needs, which is
//! found once: [`verify_costed`] judges it by that.
//!
//! Where `bytes` is the program that counts the records of two keys in windows of 60 and sums their
//! field n of 0 to 100, and `wrong` one that writes `100 / SUM(n)`:
//!
//! ```rust
//! use wsm_bytecode::{SectionId, decode};
//! use wsm_interval::Interval;
//! use wsm_verifier::{Part, Rejection, Rule, verify};
//!
//! if let Ok(verified) = verify(alloc, decode(alloc, bytes)?) {
//!     assert_eq!(rt; verified.costs().per_record, 5);
//!     // 1 to 1000 records have numbers of 0 to 100.
//!     assert_eq!(rt; verified.range(0), Some(Interval { lo: 0, hi: 100_000 }));
//! }
//! let part = Part::Code(SectionId::Fire);
//! let fault = Rejection { part, place: 2, rule: Rule::MayDivideByZero };
//! assert!(rt; verify(alloc, decode(alloc, wrong)?).is_err_and(|(_program, e)| e == fault));
//! ```
#![tactic(auto)]

pub use costed::Costed;
pub use costs::needed;
pub use judging::{verify, verify_costed};
pub use places::{Place, column_ranges, places_in};
pub use wsm_program::Costs;
pub use wsm_rules::{Part, Rejection, Rule, Verified};

mod accumulated;
mod costed;
mod costs;
mod judging;
mod label;
mod pass;
mod paths;
mod places;
mod ranges;
mod reads;
mod rules;
mod state;
mod types;
