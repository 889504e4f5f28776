//! Windows of event time: which windows a time stands in, how many are live, and when one is due; and
//! the places of a key and a window, in the order in which panes fire.
//!
//! A window is half open. Windowing is assignment of windows to a record (Akidau et al. 2015); the
//! words live and due are this project's own. Times, sizes and latenesses are whole numbers in the
//! query's own unit of event time. Nothing here takes memory.
//!
//! ```rust
//! use wsm_windows::{Place, Shape, Window, is_due, is_live, last_expired, live_bound, windows_of};
//!
//! let mut windows = windows_of(Shape::Sliding(60, 25), 70);
//! assert_eq!(rt; windows.next(), Some(Window { start: 25, end: 85 }));
//! assert_eq!(rt; windows.next(), Some(Window { start: 50, end: 110 }));
//! assert_eq!(rt; windows.next(), None);
//!
//! let window = Window { start: 0, end: 60 };
//! assert!(rt; is_due(window, 50, 60)); // a watermark that rises from 50 to 60 comes to its end
//! assert!(rt; is_live(window, 10, 69)); // with a lateness of 10 it is kept until 70
//! assert_eq!(rt; last_expired(70, 10), 60); // which no window with an end of at most 60 outlives
//! assert_eq!(rt; live_bound(Shape::Fixed(60), 100, 10), 3); // with a skew of 100 besides
//!
//! assert!(rt; Place::at(1, window) < Place::at(0, Window { start: 25, end: 85 })); // by end first
//! ```
#![tactic(auto)]

pub use assignment::{Windows, live_past, live_windows_of, windows_of};
pub use life::{is_due, is_live, last_expired, live_bound};
pub use limits::{is_size, is_span, is_time};
pub use place::Place;
pub use window::{PaneKind, Shape, Window};

mod assignment;
mod life;
mod limits;
mod place;
mod window;
