//! A table of panes as a ring of slots, a row for each window.
//!
//! [`RingTable`] has the panes of windows on a grid. A [`Ring`] says where each place has its slot, so
//! that none is searched. [`enter_windows`] puts a record into the panes of its windows.
#![tactic(auto)]

pub use entering::enter_windows;
pub use ring::Ring;
pub use ring_table::RingTable;

mod clearing;
mod entering;
mod filling;
mod ring;
mod ring_table;
mod walking;
