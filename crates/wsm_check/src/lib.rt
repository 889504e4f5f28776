//! Checks of a query: names, types and limits.
//!
//! [`check`] answers the first check that refuses a query, or the query as what its program is made
//! of: each name is a number, each aggregate has an accumulator, and each column a type.
//!
//! With this query as `text`, and with `SUM(TRUE)` for `SUM(n)` as `wrong`,
//!
//! ```text
//! KEYS a, b; FIELD n INT 0..100; START 0; SKEW 100; LATENESS 10; RECORDS 1000;
//! SELECT COUNT(*), SUM(n) WINDOW FIXED 60 ACCUMULATING EMIT PANES;
//! ```
//!
//! what is answered is
//!
//! ```rust
//! use wsm_check::{CheckFault, CheckRefusal, Part, check};
//! use wsm_query::parse;
//! use wsm_record::Kind;
//!
//! // COUNT(*) needs no accumulator; SUM(n) has the first one.
//! let checked = check(alloc, parse(alloc, text)?);
//! assert!(rt; checked.is_ok_and(|c| c.parts.foldings[0].kind == Kind::Sum));
//!
//! let refusal = CheckRefusal::Fault(CheckFault::Type, Part::Column(2)); // `C2 Type in column 2`
//! let checked = check(alloc, parse(alloc, wrong)?);
//! assert!(rt; checked.is_err_and(|(_query, e)| e == refusal));
//! ```
#![tactic(auto)]

pub use checked::Checked;
pub use checks::check;
pub use parts::{Folding, Parts};
pub use refusal::{CheckFault, CheckRefusal, CodeLimit, Part};
pub use term::{Term, size};
pub use tested::field_test;
pub use types::Around;

mod assemble;
mod checked;
mod checks;
mod code;
mod expressions;
mod judging;
mod limits;
mod names;
mod parts;
mod refusal;
mod resolve;
mod term;
mod tested;
mod types;
