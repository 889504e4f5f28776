//! `wsm deal`, `wsm keep` and `wsm watermarks`: rows to parts, rows that a run needs to go on, rows with watermarks among them.
#![tactic(auto)]

pub use deals::deal_or_tell;
pub use keeps::keep;
pub use watermarks::follow;

mod deals;
mod keeps;
mod watermarks;
