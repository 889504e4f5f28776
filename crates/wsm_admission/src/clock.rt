//! The numbers of a query's clock.

ghost use Rattle.std.specs.Prelude.{◌≡◌};
ghost use Rattle.wsm_admission.specs.Clock.{is_limited, is_timely};

use wsm_windows::{Shape, is_size, is_span, is_time};

/// What a query says of event time and of how many records it takes. Sources and windows are those of its schema and
/// its shape. Times and spans are in units of event time.
#[derive(Clone, Copy, Debug, PartialEq, Eq)]
pub struct Clock {
    /// The watermark before the first event, of each source.
    pub start: i64,
    /// How far ahead of the watermark a record may be.
    pub skew: i64,
    /// How far behind the watermark a record may be; or, counted from windows, the end of its last
    /// window has to be less far behind than this.
    pub lateness: i64,
    /// Whether lateness counts from the ends of windows, and not from a record's own time.
    pub from_window: bool,
    /// How many records are admitted at most.
    pub records: i64,
}

impl Clock {
    /// Whether its start, skew, lateness and number of records are in range.
    pub fn is_within_limits(&self) -> bool
        ensures { result ≡ is_limited self.now }
    {
        is_time(self.start) && is_span(self.skew) && is_span(self.lateness) && is_size(self.records)
    }

    /// Whether it counts lateness from a record's own time, or windows of this shape don't move, as sessions do.
    pub fn is_timely(&self, shape: Shape) -> bool
        ensures { result ≡ is_timely self.now.from_window shape }
    {
        match shape {
            Shape::Fixed(_) | Shape::Sliding(_, _) => true,
            Shape::Session(_) => !self.from_window,
        }
    }
}
