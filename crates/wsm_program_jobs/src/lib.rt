//! `wsm compile`, `wsm migrate`, `wsm verify` and `wsm explain`: programs that are made and judged, and no rows.
#![tactic(auto)]

pub use judging::{explain, verify};
pub use programs::{compile, migrated};

mod explaining;
mod judging;
mod parted;
mod programs;
