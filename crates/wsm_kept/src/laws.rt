//! What holds of rows that are cut. The contract of each function is the law; a call of it does nothing.

ghost use Rattle.std.specs.Prelude.{◌≡◌, ◌≤◌, ℕ, ℤ, List, ◌∷◌, Some, IsTrue};
ghost use Rattle.wsm_program.specs.Program.{Program, is_program};
ghost use Rattle.wsm_machine.specs.Meaning.{query_of};
ghost use Rattle.wsm_keep.specs.GoesOn.{GoesOn};
ghost use Rattle.wsm_csv.specs.Records.{AreAll};
ghost use Rattle.wsm_kept.specs.declared.head.Head.{Head};
ghost use Rattle.wsm_kept.specs.Head.{head_tag};
ghost use Rattle.wsm_kept.specs.Kept.{Cells, kept_rows, rows_of};
ghost use Rattle.wsm_kept.specs.Unseen.{AddsUp, HasRoomFor, IsCounted, IsUnseen, cut_cells};

/// A run over a head and the rows that stay of some goes on as the run over all of these does: behind the lines that each
/// writes for its own rows both write the same lines for whatever rows come, but that a row's number is less by how many
/// rows are fewer. So it is with another RECORDS too, as long as none is refused for it in either.
pub fn goes_on()
    ensures { (p : Program) → IsTrue (is_program p) → (records : ℤ) (past : List Cells) (numbers : Cells) →
        GoesOn (query_of p) records (rows_of (query_of p) past) (rows_of (query_of p) ((head_tag ∷ numbers) ∷ kept_rows (query_of p) past)) }
{
    wsm_cut::laws::goes_on();
}

/// The cut is unseen. What stands in the place of rows, with the rows behind it, is read back as a head, the rows that stay and
/// those behind. A run over it writes as many lines for the first two as the head says, and for whatever rows come behind
/// these the bytes that one over all rows writes, but that row numbers are less by how many rows are fewer.
pub fn is_unseen()
    ensures { (p : Program) → IsTrue (is_program p) → (sum : ℕ) → sum ≤ 18446744073709551615 → (old : Head) (past : List Cells) →
        IsUnseen (query_of p) sum old past }
{
    goes_on();
}

/// Rows that are cut again, with more behind them, come to as many rows and lines as all of them cut once.
pub fn adds_up()
    ensures { (p : Program) → IsTrue (is_program p) → (sum : ℕ) (old : Head) (past more : List Cells) →
        let q = query_of p in let cut = cut_cells q sum old past in
        HasRoomFor q q.clock.records past cut more → IsCounted q old past cut more → AddsUp q sum old past more }
{
    goes_on();
}

/// Bytes are read as the same rows each time: what a run over them reads is what was read as they were cut, and over what was
/// written for them it is what `is_unseen` says.
pub fn read_alike()
    ensures { (bytes : List ℕ) (rows others : List Cells) → AreAll (Some bytes) rows → AreAll (Some bytes) others → rows ≡ others }
{}
