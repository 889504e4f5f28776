//! A table of panes as a sorted list of slots.
//!
//! [`ListTable`] keeps its slots in a row, in the order of the places of their panes. It has the panes of
//! sessions: [`enter_session`] puts a record into its session, which joins the panes that it is linked to.
#![tactic(auto)]

pub use joining::{enter_session, linked_pair};
pub use list::ListTable;

mod joining;
mod list;
mod search;
mod slot_row;
