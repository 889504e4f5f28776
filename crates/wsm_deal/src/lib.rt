//! Deals rows to parts by their keys.
//!
//! A query has at most a thousand keys, so rows of more keys are run as several queries, each over the
//! rows of its own keys and all watermarks. [`Shares`] says which part has which keys, and [`deal`]
//! hands each row that is read to the [`Part`]s that it is for.
#![tactic(auto)]

pub use ahead::Ahead;
pub use dealing::{DealEnd, add_part, deal, deal_over};
pub use part::Part;
pub use row_text::add_row;
pub use shares::{Shares, SharesRefusal};

mod ahead;
mod dealing;
mod guesses;
pub mod laws;
mod part;
mod row_text;
mod shared_text;
mod shares;
mod words;
