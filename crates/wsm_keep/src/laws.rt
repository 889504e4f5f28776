//! What holds of rows that are cut. The contract of each function is the law; a call of it does nothing.

ghost use Rattle.std.specs.Prelude.{◌≡◌, ℕ, ℤ, List, [], ◌++◌, map, pos, ◌≤ℤ◌};
ghost use Rattle.wsm_record.specs.Event.{Event};
ghost use Rattle.wsm_semantics.specs.Lines.{Row, events};
ghost use Rattle.wsm_semantics.specs.Needed.{needed};
ghost use Rattle.wsm_semantics.specs.Query.{Query};
ghost use Rattle.wsm_record.specs.declared.event.Value.{Value};
ghost use Rattle.wsm_windows.specs.Windows.{IsShape};
ghost use Rattle.wsm_semantics.specs.Query.{SessionsByEvent};
ghost use Rattle.wsm_semantics.specs.Summaries.{Plan, IsLawful, Runs};
ghost use Rattle.wsm_keep.specs.Holds.{Written, read, rows_with};
ghost use Rattle.wsm_keep.specs.Staying.{staying};
ghost use Rattle.wsm_keep.specs.GoesOn.{GoesOn};
ghost use Rattle.wsm_keep.specs.WrittenBeyond.{WritesBeyond, WritesSessions};

/// The rows that stay of some rows are those whose events are needed, and a run over them goes on as the run over all of
/// them does: behind the lines that each writes for its own rows, it writes the same lines for whatever rows come, but for
/// the numbers of rows in refusals, which differ by how many rows there are. Rows that are no events may stand in front of
/// those that stay, as one that says what they stand for.
pub fn goes_on()
    ensures needed { (q : Query) (rows : List Written) → events (map read (staying read q rows)) ≡ needed q (events (map read rows)) }
    ensures lines { (plan : Plan (List Value)) → IsLawful plan → (q : Query) → Runs plan q → IsShape q.shape → SessionsByEvent q → pos 0 ≤ℤ q.clock.lateness →
        (records : ℤ) (rows : List Written) (head : List Row) → events head ≡ [] →
        GoesOn q records (map read rows) (map read (staying read q rows) ++ head) }
{}

/// Of events that are rows, each with the text that it has, those stay that are needed.
pub fn needed_stay()
    ensures { (q : Query) (text : Event → List ℕ) (past : List Event) → staying read q (rows_with text past) ≡ rows_with text (needed q past) }
{}

/// Of sessions a run over the needed events of a history writes as many rows, of panes and of what is withdrawn, as one over
/// the history wrote for those that begin beyond the times up to which records go.
pub fn writes_beyond()
    ensures { (plan : Plan (List Value)) → IsLawful plan → (q : Query) → Runs plan q → IsShape q.shape → SessionsByEvent q → pos 0 ≤ℤ q.clock.lateness →
        WritesSessions q → (past : List Event) → WritesBeyond q past }
{}
