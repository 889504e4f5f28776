//! What holds of the rows of every accepted program that are cut. The contract of the function is the law; a call of it
//! does nothing.

ghost use Rattle.std.specs.Prelude.{◌≡◌, ℤ, List, [], ◌++◌, map, IsTrue};
ghost use Rattle.wsm_semantics.specs.Lines.{Row, events};
ghost use Rattle.wsm_program.specs.Program.{Program, is_program};
ghost use Rattle.wsm_machine.specs.Meaning.{query_of};
ghost use Rattle.wsm_keep.specs.Holds.{Written, read};
ghost use Rattle.wsm_keep.specs.Staying.{staying};
ghost use Rattle.wsm_keep.specs.GoesOn.{GoesOn};

/// A run over the rows that stay of some goes on as the run over all of them does, also with another RECORDS, as long as
/// none is refused for it in either. Rows that are no events may stand in front of those that stay.
pub fn goes_on()
    ensures { (p : Program) → IsTrue (is_program p) → (records : ℤ) (rows : List Written) (head : List Row) → events head ≡ [] →
        GoesOn (query_of p) records (map read rows) (map read (staying read (query_of p) rows) ++ head) }
{}
