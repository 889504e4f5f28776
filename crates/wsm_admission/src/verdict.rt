//! The verdict on each event.

/// Why an event isn't taken. The name of the variant is the word that is printed.
#[derive(Clone, Copy, Debug, PartialEq, Eq)]
pub enum Refusal {
    /// The record's key isn't declared.
    UnknownKey,
    /// The values aren't one for each field, of its type, in its interval or among its names.
    FieldRange,
    /// The time or the watermark isn't in 0 to 10^16.
    TimeRange,
    /// The record is further ahead of the watermark than the skew.
    TooFarAhead,
    /// The record is further behind the watermark than the lateness; or, where lateness is counted from
    /// windows, the end of its last window is as far behind as the lateness, or further.
    Late,
    /// As many records as the limit were admitted already.
    RecordLimit,
    /// The watermark isn't past the last one of its source.
    NotRising,
    /// The watermark's source isn't declared.
    UnknownSource,
}

/// What an event that is taken does to the clock.
#[derive(Clone, Copy, Debug, PartialEq, Eq)]
pub enum Admitted {
    /// A record: the watermark stays.
    Record,
    /// A watermark, which replaces the last one of its source.
    Watermark {
        /// The least watermark of all sources before.
        old: i64,
        /// The least watermark of all sources from now on: the same, where others hold it back.
        new: i64,
    },
}
