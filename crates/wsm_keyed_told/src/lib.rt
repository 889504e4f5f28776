//! What a front and its engines tell, by any number of names.
//!
//! [`add_rows`] adds the lines of the rows of [`Parts`](wsm_part_engines::Parts), each key by the cell of its name. A [`KeyedTold`] takes
//! the events that go on of a log, whose keys are numbers among the names so far, and has the bytes of their turns.
#![tactic(auto)]

pub use rows::add_rows;
pub use staying::KeyedStaying;
pub use told::KeyedTold;

mod resuming;
mod rows;
mod staying;
mod told;
