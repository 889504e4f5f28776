//! Rows that are cut down to those that a run needs to go on.
//!
//! A [`Cut`] is what stands in the place of rows: a [`Head`], which says what they came to, and the rows that stay.
//! [`cut_rows`] cuts rows, and [`write_cut`] writes both, and the rows behind them; [`cut_over`] does both with the rows of a
//! reader's bytes.
#![tactic(auto)]

pub use asked::Asked;
pub use counts::Counts;
pub use cut::Cut;
pub use cutting::cut_rows;
pub use end::KeepEnd;
pub use head::Head;
pub use over::cut_over;
pub use write::write_cut;

mod asked;
mod counts;
mod cut;
mod cutting;
mod end;
mod head;
pub mod laws;
mod over;
mod own;
mod pass;
mod row_text;
mod run;
mod stay;
mod write;
