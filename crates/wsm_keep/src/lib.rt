//! Which rows a run needs to go on, of any query.
//!
//! A [`Keeper`] is told of the event of each row what it does, as [`Judged`], and keeps the rows that may stay; [`Remains`] are those
//! that do. What an event does is found in `wsm_cut`, and rows are cut in `wsm_kept`.
#![tactic(auto)]

pub use firsts::Firsts;
pub use keeper::{Judged, Keeper, Remains};
pub use queue::Queue;
pub use what::What;

mod begins;
mod cut;
mod firsts;
mod keeper;
pub mod laws;
mod parting;
mod queue;
mod sessions;
mod what;
