//! What a run over a log keeps beside the engine as a text, and back.
//!
//! A text has digits and commas alone, as those of `wsm_saved`. What was written comes back, whatever stands behind it.
//!
//! | What is kept | Its numbers |
//! |---|---|
//! | identifiers | their list, each with the time of its record |
//! | names of clocks | their list; none where lines name no clocks |
//! | clocks | of each its last stamp, or that it has none; how many stamps were heard; the watermark; the last that was told; and the list of the records that wait. None where there are no clocks |
//! | a stamp | its time, and which of all stamps it was |
//! | a record that waits | its time, the number of its line, and its event |
#![tactic(auto)]

pub use clocks::{restore_clocks, save_clocks};
pub use doubles::{restore_doubles, save_doubles};
pub use names::{restore_names, save_names};

mod clocks;
mod doubles;
mod names;
