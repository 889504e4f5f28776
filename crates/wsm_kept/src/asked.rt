//! What is asked of a cut.

use crate::end::KeepEnd;
use crate::head::Head;

/// What is asked of a cut.
#[derive(Clone, Copy, Debug, PartialEq, Eq)]
pub struct Asked {
    /// A sum of the query's text. Rows that were cut for another are refused.
    pub sum: u64,
    /// How many lines of all were taken by who reads them, where only rows are cut whose lines were. Else all are.
    pub taken: Option<u64>,
    /// Whether the reader has all rows: then these write as many lines as were taken.
    pub is_whole: bool,
}

impl Asked {
    ghost use Rattle.std.specs.Prelude.{◌≡◌, true, IfErr, OnOk};
    ghost use Rattle.wsm_kept.specs.Ends.{CheckEnds};
    ghost use Rattle.wsm_kept.specs.Pass.{AreWritten};

    /// Whether rows that were cut with this head are as many as were asked for.
    ///
    /// # Errors
    ///
    /// [`KeepEnd::FewerLines`] where all rows were, and they write fewer lines than were taken.
    pub fn check(&self, head: &Head, at_end: bool) -> Result<(), KeepEnd>
        ensures written { OnOk result (AreWritten self.now at_end head.now) }
        ensures ends { IfErr result (CheckEnds self.now at_end head.now) }
    {
        match self.taken {
            Some(taken) if self.is_whole && at_end && head.lines < taken => {
                Err(KeepEnd::FewerLines)
            }
            _ => Ok(()),
        }
    }
}
