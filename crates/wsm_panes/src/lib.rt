//! The panes that are held: what is kept of each key and window.
//!
//! [`HeldPanes`] puts records into panes, and drops panes that expire. It keeps them in a table: those
//! of sessions in a list, those of fixed and sliding windows in a ring. A table is a [`PaneTable`]: a
//! finite map from places, which are a window and a key, to panes, with room for a number of them that
//! is reserved when it is opened. It is walked by end, then start, then key, so panes come in the order
//! in which they fire and expire. [`ListTable`] keeps its slots in a row, in the order of the places of
//! their panes, and [`RingTable`] in a ring, a row for each window, where a place has its slot without
//! a search. A record is put into a pane where it lies; what comes of it is said by [`TakesRecords`].
//! Slots are as wide as the panes of their program, which [`Widths`] tells, and a pane that is held is
//! read through a [`PaneView`].
//!
//! Two records of one key in windows of 60, of which one number is summed:
//!
//! ```rust
//! use wsm_panes::{HeldPanes, Widths};
//! use wsm_record::{Kind, Value};
//! use wsm_windows::Shape;
//!
//! let widths = Widths { accumulators: 1, columns: 2, windows: false };
//! let mut held = HeldPanes::open(alloc, 2, Shape::Fixed(60), 3, widths)?; // three windows of two keys
//! held.enter(&[Kind::Sum], 0, 5, &[Value::Int(7)], 10, 0); // by a lateness of 10 and a mark of 0
//! held.enter(&[Kind::Sum], 0, 59, &[Value::Int(3)], 10, 0);
//! assert_eq!(rt; held.len(), 1);
//! assert!(rt; held.first_due(59).is_none()); // none ends by 59
//! if let Some(spot) = held.first_due(60) {
//!     assert_eq!(rt; held.pane(spot).count(), 2);
//! }
//! held.drop_expired(60);
//! assert_eq!(rt; held.len(), 0);
//! ```
#![tactic(auto)]

pub use held::{Entered, HeldPanes};
pub use wsm_list::ListTable;
pub use wsm_ring::{Ring, RingTable};
pub use wsm_slots::{Pane, PaneTable, PaneView, Spot, TakesRecords, Widths};

mod held;
