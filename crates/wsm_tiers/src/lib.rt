//! A list that is read by number, and in which an item goes in or comes out anywhere at the cost of a
//! tier, however long the list is.
//!
//! ```rust
//! use wsm_tiers::TieredList;
//!
//! let mut list = TieredList::open(alloc, 4)?;
//! list.insert(0, 7);
//! list.insert(0, 5);
//! assert_eq!(rt; list.get(1), 7);
//! assert_eq!(rt; list.remove(0), 5);
//! assert_eq!(rt; list.len(), 1);
//! ```
#![tactic(auto)]

pub use list::TieredList;

mod far;
mod list;
