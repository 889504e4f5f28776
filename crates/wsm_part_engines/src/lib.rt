//! Any number of keys in one process: a front and engines of so many keys each, which together answer what one query over any names
//! answers.
//!
//! A [`Parts`] has a front, which decides on each event, and an engine for each part of so many keys as the program declares. An engine is
//! opened as the first record of its part is taken, behind watermarks that bring it to the marks of the sources as they are then. So each
//! engine goes by the front's marks, and takes what the front admits without a decision of its own. A record costs the front's decision
//! and a feed of one engine, a watermark a feed of each engine. The rows of a turn stand in the order in which one query over all keys
//! writes them.
#![tactic(auto)]

pub use engines::PartRow;
pub use parts::Parts;
pub use refusal::PartsRefusal;
pub use reply::PartsReply;

mod engines;
mod keyless;
pub mod laws;
mod opening;
mod ordering;
mod parts;
mod refusal;
mod reply;
mod row_place;
mod slots;
