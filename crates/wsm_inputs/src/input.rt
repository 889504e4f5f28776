//! What is run or judged.

/// What is run or judged: the text of a query, or the bytes of a program.
#[derive(Clone, Copy, Debug)]
pub enum Input<'a> {
    /// The text of a query.
    Text(&'a [u8]),
    /// The bytes of a program.
    Program(&'a [u8]),
}
