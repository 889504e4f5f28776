//! What is kept of the lines of a log beside the engine, read from a text.

use std::alloc::{AllocError, Global};
use wsm_doubles::Doubles;
use wsm_saved::{Restoring, restore_bytes};
use wsm_saved_turns::{restore_clocks, restore_doubles, restore_names};
use wsm_turns::{ClockNames, Clocks, Waiting, named_in};

/// What is kept of the lines of a log beside the engine.
pub struct Standing {
    /// How many lines came.
    pub taken: u64,
    /// The first line.
    pub first: Vec<u8>,
    /// How many RECORDS are left.
    pub left: u64,
    /// The clocks, and the records that wait for them.
    pub waiting: Option<Waiting>,
    /// The names of clocks that have spoken, where lines name them.
    pub names: Option<ClockNames>,
    /// The identifiers that came.
    pub known: Doubles,
}

impl Drop for Standing {
    fn drop(self) {
        let Standing {
            taken: _,
            first: _,
            left: _,
            waiting: _,
            names: _,
            known: _,
        } = self;
    }
}

impl Standing {
    ghost use Rattle.std.specs.Prelude.{◌≡◌, ◌≤◌, List, ℕ, ℤ, IfOk, IfSome};
    ghost use Rattle.wsm_watermarks.specs.declared.table.TheConstants.{MOST_CLOCKS};
    ghost use Rattle.wsm_turns.specs.Turns.{Setting};
    ghost use Rattle.wsm_turns.specs.Clocks.{AreClocks};
    ghost use Rattle.wsm_log_text.specs.Standing.{AreFacts, Facts, Says, facts_text};

    /// What comes next in a text, by the clocks of a log, of which there are so many; none where the text goes on otherwise.
    ///
    /// # Errors
    ///
    /// Memory was refused.
    pub fn restore(
        alloc: Global,
        clocks: Option<Clocks>,
        count: usize,
        from: &mut Restoring<'_>,
    ) -> Result<Option<Standing>, AllocError>
        requires clocks { AreClocks clocks }
        requires count { count ≤ MOST_CLOCKS }
        ensures { (w : Setting) (mark : ℤ) (f : Facts) (rest : List ℕ) → AreFacts clocks count w mark f → from.old ≡ facts_text clocks f rest →
            IfOk result (λ o. IfSome o (λ t. Says clocks count t f × (from.new ≡ rest))) }
    {
        let Some(taken) = from.number() else {
            return Ok(None);
        };
        let Some(first) = restore_bytes(alloc, from)? else {
            return Ok(None);
        };
        let Some(left) = from.number() else {
            return Ok(None);
        };
        let Some(waiting) = restore_clocks(alloc, clocks, count, from)? else {
            return Ok(None);
        };
        let Some(names) = restore_names(alloc, named_in(clocks), from)? else {
            return Ok(None);
        };
        let Some(known) = restore_doubles(alloc, from)? else {
            return Ok(None);
        };
        Ok(Some(Standing {
            taken,
            first,
            left,
            waiting,
            names,
            known,
        }))
    }

    /// All of it, but how many RECORDS are left.
    pub fn into_parts(self) -> (u64, Vec<u8>, Option<Waiting>, Option<ClockNames>, Doubles)
        ensures taken { result.0 ≡ self.taken }
        ensures first { result.1 ≡ self.first }
        ensures waiting { result.2 ≡ self.waiting }
        ensures names { result.3 ≡ self.names }
        ensures known { result.4 ≡ self.known }
    {
        let Standing {
            taken,
            first,
            left: _,
            waiting,
            names,
            known,
        } = self;
        (taken, first, waiting, names, known)
    }
}
