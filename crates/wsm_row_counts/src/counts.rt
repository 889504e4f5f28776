//! What is counted of rows that were written.

ghost use Rattle.std.specs.Prelude.{◌≡◌, [], OnOk};
ghost use Rattle.std.specs.List.{before_first, after_first};
ghost use Rattle.wsm_row_counts.specs.Counted.{is_comma, row_counted};
ghost use Rattle.wsm_row_counts.specs.Seen.{counts_seen};

use crate::words::Words;
use std::alloc::{AllocError, Global};

/// What is counted of rows that were written.
#[derive(Drop)]
pub struct Counts {
    /// By their first cell.
    pub kinds: Words,
    /// The refused ones, by why.
    pub refused: Words,
}

impl Counts {
    ghost use Rattle.wsm_row_counts.specs.Counted.{Counts as Counted};

    /// No row was written.
    pub fn new(alloc: Global) -> Counts
        ensures { counts_seen result ≡ record { kinds = []; refused = [] } }
    {
        Counts {
            kinds: Words::new(alloc),
            refused: Words::new(alloc),
        }
    }

    /// Counts a row, without its line feed.
    ///
    /// # Errors
    ///
    /// Memory was refused.
    pub fn add(&mut self, row: &str) -> Result<(), AllocError>
        ensures { OnOk result (counts_seen self.new ≡ row_counted (counts_seen self.old) row.now) }
    {
        let (kind, rest) = first_cell(row);
        self.kinds.count(kind)?;
        if kind == "refused" {
            let (_, why) = first_cell(rest);
            self.refused.count(why)?;
        }
        Ok(())
    }
}

// The cell in front of the first comma, or all where there is none, and what is behind that.
#[tactic(auto, using(crate::proofs::Cells::before_none, crate::proofs::Cells::after_none))]
fn first_cell(row: &str) -> (&str, &str)
    ensures cell { result.0.now ≡ before_first is_comma row.now }
    ensures rest { result.1.now ≡ after_first is_comma row.now }
{
    match row.split_once(',') {
        Some(parts) => parts,
        None => (row, ""),
    }
}
