//! Where the lines of a live run come from.

use crate::stop::LiveStop;
use std::alloc::AllocError;

/// What a turn came to.
#[derive(Clone, Copy)]
pub enum Came {
    /// Lines came, or another position.
    Lines,
    /// None did, and there may be more at once.
    More,
    /// None did, and none will for a while.
    Nothing,
    /// None will.
    End,
}

/// Where lines come from, in turns.
pub trait Inflow: Drop {
    /// Reads on, once.
    ///
    /// # Errors
    ///
    /// What stops the run.
    fn turn(&mut self) -> Result<Came, LiveStop>;

    /// The lines of the last turn, each with its line feed.
    fn lines(&self) -> &[u8];

    /// Adds the text of the position behind them.
    ///
    /// # Errors
    ///
    /// Memory was refused.
    fn write_position(&self, text: &mut Vec<u8>) -> Result<(), AllocError>;

    /// How many bytes weren't read, as far as that is known.
    ///
    /// # Errors
    ///
    /// What stops the run.
    fn behind(&mut self) -> Result<u64, LiveStop>;
}
