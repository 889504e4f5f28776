//! Rows with the watermarks of clocks among them.
//!
//! [`write_watermarks`] reads rows and writes rows: each line in its order, a watermark where the clocks have agreed on one, a record that
//! is too far ahead of them once they have come near, and none whose identifier came before. What goes on is said by `wsm_turns`, as for
//! the lines of a log.
#![tactic(auto)]

pub use counts::{Counts, Totals};
pub use row::FIRST_PLACE;
pub use sources::schema_by_source;
pub use times::Times;
pub use write::{Rules, write_watermarks};

mod counts;
mod handed;
mod pieces;
mod row;
mod sources;
mod text;
mod times;
mod turns;
mod write;
