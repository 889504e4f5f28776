//! Names of keys, any number of them, and rows read by these.
//!
//! A query has at most a thousand keys, so more are run in parts of so many. [`KeyNames`] has the names of
//! all of them, those of a file first; [`NamedEvents`] reads rows by these, learns the names of new keys
//! as they come, and says of each record in which part its key is and at which place.
#![tactic(auto)]

pub use events::NamedEvents;
pub use names::{KeyNames, MAX_KEY_NAME};
pub use refusal::KeyNamesRefusal;

mod cell;
mod events;
mod guesses;
pub mod laws;
mod names;
mod refusal;
