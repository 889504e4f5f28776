//! What a run over the rows that stay comes to.

ghost use Rattle.std.specs.Prelude.{◌≡◌, ◌++◌, ◌+◌, ℕ, ℤ, List, [], Option, Some, codes, length, IfOk, OnOk};
ghost use Rattle.wsm_program.specs.Program.{Program};
ghost use Rattle.wsm_machine.specs.Meaning.{query_of};
ghost use Rattle.wsm_admission.specs.Admission.{counter};
ghost use Rattle.wsm_csv.specs.Records.{AreAll};
ghost use Rattle.wsm_csv.specs.Rows.{Follows};
ghost use Rattle.wsm_keep.specs.Holds.{selected_in};
ghost use Rattle.wsm_keep.specs.WrittenBeyond as sessions;
ghost use Rattle.wsm_kept.specs.Kept.{Cells, counts_of, in_place, kept_rows, rows_of};
ghost use Rattle.wsm_kept.specs.Own as spec;
ghost use Rattle.wsm_kept.specs.Own.{HasStaying};
ghost use Rattle.wsm_kept.specs.Run.{Fits as RunFits};
ghost use Rattle.wsm_kept.specs.Texts.{rows_text};

use crate::counts::Counts;
use crate::end::KeepEnd;
use crate::run::Run;
use std::alloc::{AllocError, Global};
use std::io::Read;
use wsm_csv::Rows;
use wsm_keep::Remains;
use wsm_record::Form;
use wsm_rules::Verified;
use wsm_windows::Shape;

/// What a run comes to over the rows that remain, which stay, behind one that is no event: over this text. Where their lines
/// are counted as they were written it need not be made.
pub fn own_counts(
    alloc: Global,
    verified: Verified,
    remains: Remains,
    text: &[u8],
) -> Result<Counts, AllocError>
    ensures { (past : List Cells) → let q = query_of verified in HasStaying verified past remains → text.now ≡ codes "kept\n" ++ rows_text (kept_rows q past) →
        IfOk result (λ counts. counts ≡ counts_of q (rows_of q (in_place q past))) }
{
    if writes_sessions(&verified) {
        return Ok(counted(&remains));
    }
    drop(remains);
    counts_over(alloc, verified, text)
}

/// Whether a program writes panes of sessions: then rows that stay write as many rows as were written for the sessions in
/// which they stand, also of what is withdrawn.
pub fn writes_sessions(verified: &Verified) -> bool
    ensures { result ≡ spec.writes_sessions verified.now.header }
{
    let header = verified.program().header();
    are_sessions(header.shape) && header.form == Form::Panes
}

fn are_sessions(shape: Shape) -> bool
    ensures { result ≡ sessions.are_sessions shape }
{
    matches!(shape, Shape::Session(_))
}

// What a row that is no event and those that remain come to, by what was written for them.
fn counted(remains: &Remains) -> Counts
    ensures { result ≡ record {
      rows = counter (length remains.now.queue + 1);
      lines = counter (remains.now.written + 1);
      admitted = selected_in remains.now.queue;
    } }
{
    Counts {
        rows: (remains.queue.len() as u64).saturating_add(1),
        lines: (remains.written as u64).saturating_add(1),
        admitted: remains.queue.selected() as u64,
    }
}

// What a run over the rows of a text comes to.
fn counts_over(alloc: Global, verified: Verified, text: &[u8]) -> Result<Counts, AllocError>
    ensures { IfOk result (λ counts. (cells : List Cells) × AreAll (Some text.now) cells
        × (counts ≡ counts_of (query_of verified) (rows_of (query_of verified) cells))) }
{
    let mut run = Run::open(alloc, verified)?;
    count_rows(alloc, &mut run, text)
}

// Has a run take the rows of a text, and tells what they come to.
fn count_rows(alloc: Global, run: &mut Run, text: &[u8]) -> Result<Counts, AllocError>
    ensures { (p : Program) → RunFits p run.old [] →
        IfOk result (λ counts. (cells : List Cells) × AreAll (Some text.now) cells × (counts ≡ counts_of (query_of p) (rows_of (query_of p) cells))) }
{
    let mut rows = Rows::new(alloc, text);
    match take_all(run, &mut rows) {
        Ok(()) => Ok(run.counts()),
        // No read of a text fails: memory was refused.
        Err(_) => Err(AllocError),
    }
}

// Takes the turn of each row.
fn take_all<R: Read + Drop>(run: &mut Run, rows: &mut Rows<R>) -> Result<(), KeepEnd>
    ensures { (known : Option (List ℕ)) (p : Program) → Follows R.remaining known [] rows.old → RunFits p run.old [] →
        OnOk result ((cells : List Cells) × AreAll known cells × RunFits p run.new (rows_of (query_of p) cells)) }
{
    while rows.advance()? {
        run.take(rows.row())?;
    }
    Ok(())
}
