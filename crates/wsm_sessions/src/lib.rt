//! The sessions of one key: windows that grow and join as times are placed.
//!
//! Times less than a gap apart are linked, and a session is a class of the chains of links (Akidau
//! et al. 2015, "window merging"). [`Sessions`] keeps the windows of the classes alone, by rising
//! start, with room for a number of them that is reserved when it is opened.
//!
//! ```rust
//! use wsm_sessions::{Placed, Sessions};
//! use wsm_windows::Window;
//!
//! let mut sessions = Sessions::open(alloc, 30, 4)?; // times less than 30 apart are linked
//! assert_eq!(rt; sessions.place(0), Placed::New(0));
//! assert_eq!(rt; sessions.place(40), Placed::New(1));
//! assert_eq!(rt; sessions.place(20), Placed::Joins(0));
//! assert_eq!(rt; sessions.at(0), Window { start: 0, end: 70 });
//! sessions.drop_expired(70);
//! assert_eq!(rt; sessions.len(), 0);
//! ```
#![tactic(auto)]

pub use placed::{Entry, Linked, Placed};
pub use sessions::Sessions;

mod linking;
mod placed;
mod sessions;
