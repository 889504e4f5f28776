//! Panes in slots: what is kept of a key's records in a window, and where it lies.
//!
//! [`Slots`] have the panes of a table: a slot is free, or has a place, which is a window and a key, with
//! its pane. They are as wide as the panes of their program, which [`Widths`] tells. A record is put into
//! a pane where it lies; what comes of it is said by [`TakesRecords`]. A pane that is held is read through
//! a [`PaneView`], and a [`Pane`] is one by itself. A [`PaneTable`] is a finite map from places to panes;
//! a [`Spot`] tells where it has a place.
#![tactic(auto)]

pub use pane::Pane;
pub use recording::TakesRecords;
pub use slots::{Slots, is_at};
pub use spot::{Spot, due, rebuilt_place, rebuilt_window};
pub use table::PaneTable;
pub use view::PaneView;
pub use widths::Widths;

mod head;
mod pane;
mod recording;
mod row_words;
mod slots;
mod spot;
mod table;
mod view;
mod widths;
