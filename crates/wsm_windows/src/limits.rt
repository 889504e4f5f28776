//! The ranges of times, and of the numbers of windows, clocks and triggers.

ghost use Rattle.std.specs.Prelude.{◌≡◌};
ghost use Rattle.wsm_record.specs.Schema.{is_within};
ghost use Rattle.wsm_windows.specs.Limits.{is_shape, is_size, is_span, is_time};

use crate::window::Shape;
use wsm_record::limits::{LATEST_TIME, LONGEST_SPAN};

/// Whether a record or a watermark may have this time.
pub fn is_time(time: i64) -> bool
    ensures { result ≡ is_time time }
{
    is_within(0, LATEST_TIME, time)
}

/// Whether a number may be a skew or a lateness, in event time, or the count of a trigger, which is 0
/// where there is none.
pub fn is_span(number: i64) -> bool
    ensures { result ≡ is_span number }
{
    is_within(0, LONGEST_SPAN, number)
}

/// Whether a number may be a size or a gap, in event time, a number of records, or the count of a
/// trigger that there is.
pub fn is_size(number: i64) -> bool
    ensures { result ≡ is_size number }
{
    is_within(1, LONGEST_SPAN, number)
}

impl Shape {
    /// Whether its size, period or gap is in range, and its period is at most its size.
    pub fn is_within_limits(self) -> bool
        ensures { result ≡ is_shape self }
    {
        match self {
            Shape::Fixed(size) => is_size(size),
            Shape::Sliding(size, period) => is_size(size) && is_within(1, size, period),
            Shape::Session(gap) => is_size(gap),
        }
    }
}

fn is_within(low: i64, high: i64, number: i64) -> bool
    ensures { result ≡ is_within low high number }
{
    low <= number && number <= high
}
