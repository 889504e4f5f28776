//! An identifier that is handed over.

/// The identifier of a record, and its time.
#[derive(Drop)]
pub struct Entry {
    /// The identifier.
    pub identifier: Vec<u8>,
    /// The time, in units of event time.
    pub time: i64,
}
