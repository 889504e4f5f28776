//! What a row says.

/// A value of a field, a column or an accumulator.
#[derive(Clone, Copy, Debug, PartialEq, Eq)]
pub enum Value {
    /// A whole number.
    Int(i64),
    /// A truth.
    Bool(bool),
    /// The number of a declared name, counted from 0.
    Enum(u16),
}

/// What a row says, once its cells are read.
#[derive(Debug, Drop)]
pub enum Event {
    /// A record.
    Record {
        /// The number of its key, or none where the key isn't declared.
        key: Option<u32>,
        /// When it happened, in event time.
        time: i64,
        /// Its values, in the order of the declared fields.
        values: Vec<Value>,
    },
    /// The claim of a source that it sends no record with an earlier time any more, but late ones.
    Watermark {
        /// The number of the source, 0 where none are declared, or none where it isn't declared.
        source: Option<u16>,
        /// The time that it came to, in event time.
        time: i64,
    },
}

/// Why a row is no event.
#[derive(Clone, Copy, Debug, PartialEq, Eq)]
pub enum RowFault {
    /// The first cell is neither `r` nor `w`, or there is none.
    BadTag,
    /// There are not as many cells as such a row has.
    CellCount,
    /// A cell is no whole number of 64 bits.
    BadNumber,
    /// A cell is no truth, or none of the names that are declared for its field.
    BadName,
}
