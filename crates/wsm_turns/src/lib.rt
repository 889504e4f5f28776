//! What lines come to, one behind the other: the events that go on, in their order.
//!
//! A record tells a time, by the clock of its key or by one that its line names ([`Voice`]). [`Clocks`] make watermarks of those
//! times, and a record that is too far ahead of them waits. One whose identifier came before is left out ([`Identifiers`]). Who takes
//! what goes on is a [`Taker`]: it is told a watermark where it has risen, and each record once.
#![tactic(auto)]

pub use clock_names::{ClockNames, open_names, voice_of};
pub use clocks::{Clocks, clocks_of, count_in, mark_at, named_in, rule_of, stamp_judged, stamp_of};
pub use heard::Heard;
pub use identifiers::Identifiers;
pub use line_event::LineEvent;
pub use listener::{Listener, tell_heard};
pub use taker::Taker;
pub use voice::{Voice, silent_in, stamp_by};
pub use waiting::{Waiting, clocks_heard, open_clocks, take_mark, take_record, take_rest};
pub use wsm_watermarks::{Rule, Stamp};

mod clock_names;
mod clocks;
mod heard;
mod identifiers;
mod line_event;
mod listener;
mod passing;
mod taker;
mod voice;
mod waiting;
