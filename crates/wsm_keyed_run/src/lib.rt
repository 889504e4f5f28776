//! Runs of a query over any number of keys, in one process.
//!
//! [`run_keyed`] takes the text of a query without a KEYS clause and the names of its keys, and gives a device the lines of one
//! query over all of them for the rows of a reader. The text is compiled behind a KEYS clause of places, as many as the checks and the
//! verifier let a part have ([`accepted_by_places`]); a name that comes in a record may be a key from then on.
//! [`run_keyed_over`] makes the rows of a reader itself.
#![tactic(auto)]

pub use places::{accepted_by_places, begins_with_keys, says_key};
pub use run::{KeyedTotals, checked_by_places, run_keyed, run_keyed_over, run_parts};
pub use turns::KeyedTurns;
pub use wsm_ends::KeyedStop;

mod places;
mod run;
mod turns;
