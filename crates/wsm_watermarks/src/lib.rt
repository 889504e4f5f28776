//! Watermarks by agreement of clocks.
//!
//! A watermark is a guess that no record with an earlier time comes any more (Akidau et al. 2015).
//! Here the records themselves tell it, and how they do is this project's own rule. A *clock* is
//! whoever stamps records. It speaks by its last stamp, while that is among the last
//! [`forget`](Rule::forget) stamps of all. Clocks agree on the latest time that at least
//! [`agree`](Rule::agree) of those that speak tell, or a later one. The watermark is the greatest time
//! agreed on so far less [`bound`](Rule::bound), down to a multiple of [`step`](Rule::step).
//!
//! While fewer clocks speak by a wrong stamp than have to agree, the watermark doesn't pass what right
//! stamps have told, whichever clocks those are and whatever they tell ([`laws`]).
//!
//! ```rust
//! use wsm_watermarks::{Rule, Stamp, Watermarks};
//!
//! let rule = Rule { agree: 2, forget: 1000, bound: 20, step: 10, start: 0 };
//! let mut watermarks = Watermarks::open(alloc, 3, rule)?;
//! assert_eq!(rt; watermarks.tell(Stamp { clock: 0, time: 100 }), None);
//! assert_eq!(rt; watermarks.tell(Stamp { clock: 1, time: 31_536_090 }), Some(80)); // a year ahead
//! assert_eq!(rt; watermarks.tell(Stamp { clock: 2, time: 95 }), None);
//! assert_eq!(rt; watermarks.tell(Stamp { clock: 2, time: 114 }), Some(90));
//! ```
#![tactic(auto)]

pub use clocks::MOST_AGREEING;
pub use held::{Held, MOST_HELD, Timed};
pub use rule::Rule;
pub use stamp::Stamp;
pub use table::{MOST_CLOCKS, MOST_STAMPS, Said};
pub use watermarks::Watermarks;

mod clocks;
mod held;
pub mod laws;
mod rule;
mod stamp;
mod table;
mod watermarks;
