//! What tools may ask of a query or a program, as one value of JSON.
//!
//! [`explain`] judges an input and keeps what is found, and [`explained_text`] tells it in one line. With
//!
//! ```text
//! KEYS a, b; FIELD n INT 0..100; START 0; SKEW 100; LATENESS 10; RECORDS 1000;
//! SELECT COUNT(*), MAX(n) WINDOW FIXED 60 ACCUMULATING EMIT PANES;
//! ```
//!
//! as `text` the line begins so:
//!
//! ```rust
//! use wsm_explain::{explain, explained_text};
//! use wsm_inputs::Input;
//!
//! let input = Input::Text(text);
//! let judgement = explain(alloc, input)?;
//! let told = explained_text(alloc, input, &judgement)?;
//! assert!(rt; told.as_str().starts_with("{\"fault\":null,\"joins\":[\"sum\",\"greatest\"],\"limits\":{"));
//! ```
//!
//! - `explaining`: the judgement, and the value that is told of it
//! - `program`, `declared`: a program, what it declares and what it needs
//! - `parts`: the parts of a query's text, with their places
//! - `standing`: what may stand at the place of a fault
//! - `limits`: how much a query may have
//! - `ways`: how columns of panes add up
//! - `sums`: the sums by which rows, tables and the folder of a live run know a query
//! - `texts`, `tokens`: names as texts, and walks through tokens
#![tactic(auto)]

pub use explaining::{Judgement, explain, explained_text};
pub use sums::{input_sum, live_sum, text_sum};
pub use ways::Way;

mod declared;
mod explaining;
mod limits;
mod parts;
mod program;
mod standing;
mod sums;
mod texts;
mod tokens;
mod ways;
