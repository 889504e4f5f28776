//! The rows that stay.

ghost use Rattle.std.specs.Prelude.{◌≡◌, ◌++◌, List, codes, map, IfOk};
ghost use Rattle.wsm_machine.specs.Meaning.{query_of};
ghost use Rattle.wsm_keep.specs.Items.{joined};
ghost use Rattle.wsm_keep.specs.Staying.{row_of};
ghost use Rattle.wsm_cut.specs.Cutter.{IsReady};
ghost use Rattle.wsm_kept.specs.Kept.{Cells, written};
ghost use Rattle.wsm_kept.specs.Own.{writes_sessions};
ghost use Rattle.wsm_kept.specs.Pass.{Keeps};
ghost use Rattle.wsm_kept.specs.Stay.{IsStay};

use crate::counts::Counts;
use crate::head::Head;
use crate::own::own_counts;
use std::alloc::{AllocError, Global};
use wsm_cut::Cutter;
use wsm_keep::Queue;
use wsm_rules::Verified;

// What a run reads in front of rows that stay: the tag of a head alone, which is no event either.
const FRONT: &[u8] = b"kept\n";

/// The rows that stay, and what a run over them comes to.
#[derive(Drop)]
pub struct Stay {
    /// Their bytes, behind those of a row that is no event.
    pub text: Vec<u8>,
    /// What a run over these bytes comes to.
    pub own: Counts,
    /// The program's RECORDS.
    pub records: u64,
}

impl Stay {
    ghost use Rattle.std.specs.Prelude.{◌≡◌, ◌++◌, ℕ, List, codes, IfOk};
    ghost use Rattle.wsm_kept.specs.Head.{head_text};

    /// The bytes of a head and of the rows.
    pub fn behind(&self, alloc: Global, head: &Head) -> Result<Vec<u8>, AllocError>
        ensures { (rows : List ℕ) → self.now.text.items ≡ codes "kept\n" ++ rows → IfOk result (λ text. text.items ≡ head_text head.now ++ rows) }
    {
        let mut text = Vec::new(alloc);
        head.add_text(&mut text)?;
        if let Some(rows) = self.text.get(FRONT.len()..) {
            text.extend_from_slice(rows)?;
        }
        Ok(text)
    }
}

/// The rows that a program's cutter says stay.
pub fn stay_of(alloc: Global, verified: Verified, cutter: Cutter) -> Result<Stay, AllocError>
    requires { IsReady cutter }
    ensures { (past : List Cells) → Keeps verified (writes_sessions verified.header) cutter (written (query_of verified) past) →
        IfOk result (IsStay (query_of verified) past) }
{
    let remains = cutter.finish()?;
    let text = text_of(alloc, &remains.queue)?;
    let records = verified.program().header().clock.records.unsigned_abs();
    let own = own_counts(alloc, verified, remains, &text)?;
    Ok(Stay { text, own, records })
}

// The bytes of a row that is no event, and of the rows of a queue.
fn text_of(alloc: Global, queue: &Queue) -> Result<Vec<u8>, AllocError>
    ensures { IfOk result (λ text. text.items ≡ codes "kept\n" ++ joined (map row_of queue.now)) }
{
    let mut text = FRONT.to_vec(alloc)?;
    queue.add_texts(&mut text)?;
    Ok(text)
}
