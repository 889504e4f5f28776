//! Lines of access logs and of CSV, taken apart into cells.
//!
//! [`access_of`] finds the twelve cells of a line in the combined form. [`find_cells`] finds where the
//! cells of a line of CSV stand, and [`Texts`] has the texts of those that are asked for.
#![tactic(auto)]

pub use access::{ACCESS_CELLS, Access, access_of};
pub use csv::{Span, find_cells};
pub use texts::{Texts, texts_of};

mod access;
mod csv;
mod texts;
