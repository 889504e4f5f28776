//! Counts as text that Prometheus reads, version 0.0.4 of its text format.
//!
//! A [`Metric`] has a name, what it means, and its values: one, or one for each word of a label.
//!
//! ```text
//! # HELP wsm_lines_total Lines of the log.
//! # TYPE wsm_lines_total counter
//! wsm_lines_total 7
//! ```
#![tactic(auto)]

pub use measured::Measured;
pub use metric::{Kind, Labelled, Metric, Values};
pub use text::metrics_text;

mod measured;
mod metric;
mod text;
