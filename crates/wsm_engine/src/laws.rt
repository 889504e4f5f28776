//! What holds of every accepted program, over every history of events. The contract of each function
//! is the law; a call of it does nothing.

ghost use Rattle.std.specs.Prelude.{◌≡◌, ◌≤◌, ℕ, ◌+◌, ℤ, ◌+ℤ◌, List, [], ◌∷◌, ◌++◌, Option, Some, None, Ok, map, length, unsigned_abs, IsTrue};
ghost use Rattle.std.specs.List.{AllByRecursion, sum_by};
ghost use Rattle.wsm_record.specs.declared.event.Value.{Value};
ghost use Rattle.wsm_record.specs.declared.words.Mode.TheVariants.{Discarding, Retracting};
ghost use Rattle.wsm_record.specs.declared.words.Form.TheVariants.{Panes};
ghost use Rattle.wsm_record.specs.Event.{Event, Record, Watermark};
ghost use Rattle.wsm_windows.specs.declared.window.Shape.TheVariants.{Session};
ghost use Rattle.wsm_admission.specs.Clock.{marks_of, admitted_count};
ghost use Rattle.wsm_record.specs.Schema.{source_count};
ghost use Rattle.wsm_semantics.specs.Query.{mark, verdict_on, selected};
ghost use Rattle.wsm_semantics.specs.Panes.{held};
ghost use Rattle.wsm_semantics.specs.Kept.{kept};
ghost use Rattle.wsm_semantics.specs.Firings.{firings};
ghost use Rattle.wsm_semantics.specs.FiringSets.{FiresOnce};
ghost use Rattle.wsm_semantics.specs.LastingRows.{AddsUp};
ghost use Rattle.wsm_semantics.specs.Order.{IsOrderFree, OrderLaw};
ghost use Rattle.wsm_semantics.specs.ByKey.{Keys, ByKey, RowsByKey, EachOnce, PartsAddUp, NumbersAddUp, SameByRecords};
ghost use Rattle.wsm_semantics.specs.FromWatermark.{Stays, whole, rest, Times, LeavesOut, begun_at, BeginAlike, HasNoSessions, IsSettled, PartsNoSession, dropped_times, MayLeaveOut, SameAfter, SameRowsAfter, SameBeyond, SameRowsBeyond, SameOnceSettled};
ghost use Rattle.wsm_semantics.specs.FromKept.{KeepAlike, FollowAlike};
ghost use Rattle.wsm_semantics.specs.Needed.{IsOfLive, needed, NeededAlone, WritesAlike};
ghost use Rattle.wsm_semantics.specs.Amounts.{Amount, AddsAmounts, AmountsAddUp};
ghost use Rattle.wsm_semantics.specs.Deliveries.{Delivery, AreTimed, PassesAlike, WritesOnce};
ghost use Rattle.wsm_semantics.specs.Invoice.{Invoices};
ghost use Rattle.wsm_program.specs.Program.{Program, is_program};
ghost use Rattle.wsm_program.specs.declared.program.Costs.{Costs};
ghost use Rattle.wsm_rules.specs.Costs.{longest_path};
ghost use Rattle.wsm_rules.specs.Rules.{judge};
ghost use Rattle.wsm_machine.specs.Meaning.{plan_of, query_of, record_cost, pane_cost};
ghost use Rattle.wsm_firing.specs.Tally.{greatest};
ghost use Rattle.wsm_engine.specs.Laws.{RecordEnds, FiringEnds, RecordPaths, is_in_range, JoinFits, EachTwo};

/// No run of a section meets a trap: WHERE and UPDATE come to their ends on each record that is
/// admitted, and FIRE on each firing.
pub fn never_traps()
    ensures records { (p : Program) (costs : Costs) → judge p ≡ Ok costs → IsTrue (is_program p) →
        (past : List Event) (key : ℕ) (time : ℤ) (values : List Value)
        → verdict_on (query_of p) past (Record (Some key) time values) ≡ None → RecordEnds p key values }
    ensures firings { (p : Program) (costs : Costs) → judge p ≡ Ok costs → IsTrue (is_program p) → (past : List Event) (e : Event) →
        AllByRecursion (FiringEnds p) (firings (query_of p) past e) }
{}

/// No more panes are held than the program states.
pub fn held_within()
    ensures { (p : Program) (costs : Costs) → judge p ≡ Ok costs → IsTrue (is_program p) → (past : List Event) →
        length (held (query_of p) past) ≤ p.header.budget.held }
{}

/// No turn takes more instructions for its record, and none of its firings more for its pane, than the
/// program states.
pub fn spends_within()
    ensures records { (p : Program) (costs : Costs) → judge p ≡ Ok costs → IsTrue (is_program p) → (past : List Event) (e : Event) →
        record_cost p past e ≤ p.header.budget.per_record }
    ensures panes { (p : Program) (costs : Costs) → judge p ≡ Ok costs → IsTrue (is_program p) → (past : List Event) (e : Event)
        → greatest (map (pane_cost p) (firings (query_of p) past e)) ≤ p.header.budget.per_pane }
{}

/// Where panes discard what they showed, each selected record is in exactly one firing set of each of
/// its windows by the time that the window is dropped.
pub fn shown_once()
    ensures { (p : Program) → IsTrue (is_program p) → p.header.mode ≡ Discarding → FiresOnce (query_of p) }
{}

/// Where the events between two rises of the watermark come in another order, each with its verdict, each
/// rise fires the same on time, with the same rows. Panes that discard what they showed are not to
/// fire early for that, and sessions that discard not late either.
pub fn permuted()
    ensures { (p : Program) → IsTrue (is_program p) → IsOrderFree p.header.mode p.header.shape (unsigned_abs p.header.early) (unsigned_abs p.header.late) →
        OrderLaw (query_of p) }
{}

/// Where panes retract, the pane rows that were written are after every history, as a bag, those that were
/// withdrawn, and one row for each firing that stands, or that stood when its window was dropped, and whose
/// HAVING is true. None of these firings is counted twice.
pub fn standing()
    ensures { (p : Program) → IsTrue (is_program p) → p.header.mode ≡ Retracting → (past : List Event) → AddsUp (query_of p) past }
{}

/// Where no record of a history is refused for RECORDS, the part of it that has the records of some keys
/// and all watermarks holds, fires and writes for these keys what the whole does, and another number of
/// RECORDS for which none is refused changes nothing. Where each key is of one of some parts, their
/// relations, what these gain and lose, and the numbers of the end row add up.
pub fn by_key()
    ensures part { (p : Program) (keys : Keys) → ByKey (query_of p) keys }
    ensures rows { (p : Program) → p.header.form ≡ Panes → (keys : Keys) → RowsByKey (query_of p) keys }
    ensures relation { (p : Program) (parts : List Keys) → EachOnce parts → PartsAddUp (query_of p) parts }
    ensures numbers { (p : Program) (parts : List Keys) → EachOnce parts → NumbersAddUp (query_of p) parts }
    ensures records { (p : Program) (records : ℤ) → SameByRecords (query_of p) records }
{}

/// A run may begin behind any row where the program has one source, with the watermark there as its START, and with
/// more sources behind rows that set their marks: what it holds, fires and writes for windows that begin past that
/// watermark and SKEW, in sessions a gap later, is what the whole run does, turn by turn. Records with times up to some
/// time may be left out too, for windows that begin after it. Where windows don't merge, all is the same once the
/// watermark has passed the ends of the others and LATENESS.
pub fn from_watermark()
    ensures begun { (p : Program) → source_count p.header.schema ≡ 1 → (records : ℤ) (older : List Event)
        → BeginAlike (query_of p) (mark (query_of p) older) records (λ key. mark (query_of p) older +ℤ p.header.clock.skew) older [] (length older) }
    ensures marks { (p : Program) (start records : ℤ) (older other : List Event) (longer : ℕ) →
        marks_of (begun_at start records (query_of p)).clock p.header.schema other ≡ marks_of p.header.clock p.header.schema older →
        length older ≡ length other + longer
        → BeginAlike (query_of p) start records (λ key. mark (query_of p) older +ℤ p.header.clock.skew) older other longer }
    ensures events { (x : Times) (events older : List Event) →
        (whole (map Stays events) older ≡ events ++ older) × (rest (map Stays events) older ≡ events ++ older) × LeavesOut x (map Stays events) }
    ensures panes { (p : Program) → IsTrue (is_program p) → (start records : ℤ) (x : Times) (older other : List Event) (longer : ℕ) →
        BeginAlike (query_of p) start records x older other longer
        → SameAfter (query_of p) start records x older other longer }
    ensures rows { (p : Program) → IsTrue (is_program p) → (start records : ℤ) (x : Times) (older other : List Event) (longer : ℕ) →
        BeginAlike (query_of p) start records x older other longer
        → SameRowsAfter (query_of p) start records x older other }
    ensures settled { (p : Program) → IsTrue (is_program p) → HasNoSessions (query_of p) →
        (start records : ℤ) (x : Times) (older other : List Event) (longer : ℕ) → BeginAlike (query_of p) start records x older other longer
        → SameOnceSettled (LeavesOut x) (query_of p) start records x older other longer }
{}

/// Where a time for each key parts no session of it, records of the key up to that time may be left out for all
/// windows that begin beyond it; and once the watermark has passed LATENESS and the ends of the windows that begin by
/// these times, in sessions a gap, all is the same, and they part no session of what is still to come. Such times are
/// there after any history: for each key that right before its first window that is live.
pub fn left_out()
    ensures panes { (p : Program) → IsTrue (is_program p) → (records : ℤ) (x : Times) → SameBeyond (query_of p) records x }
    ensures rows { (p : Program) → IsTrue (is_program p) → (records : ℤ) (x : Times) → SameRowsBeyond (query_of p) records x }
    ensures settled { (p : Program) → IsTrue (is_program p) → (records : ℤ) (x : Times) →
        let q = query_of p in SameOnceSettled (MayLeaveOut q q.clock.start records x) q q.clock.start records x [] [] 0 }
    ensures coming { (p : Program) → IsTrue (is_program p) → (x : Times) (past : List Event) (e : Event) → IsSettled (query_of p) x (mark (query_of p) past) →
        PartsNoSession (query_of p) x past → PartsNoSession (query_of p) x (e ∷ past) }
    ensures times { (p : Program) → IsTrue (is_program p) → (past : List Event) →
        let q = query_of p in IsSettled q (dropped_times q past) (mark q past) × PartsNoSession q (dropped_times q past) past }
{}

/// What follows on a history hangs on what is kept of it alone: on the marks of the sources, and on how many records each
/// held pane has, how many of these weren't shown, what its accumulators hold and which row stands for it. So of a watermark
/// that another comes right behind nothing follows.
pub fn kept_decides()
    ensures following { (p : Program) → IsTrue (is_program p) → (start records : ℤ) (past other : List Event) →
        KeepAlike (plan_of p) (query_of p) start records past other → FollowAlike (plan_of p) (query_of p) start records past other }
    ensures watermarks { (p : Program) → IsTrue (is_program p) → (past : List Event) (o r : Option ℕ) (t u : ℤ) →
        let q = query_of p in marks_of q.clock q.declared (Watermark r u ∷ Watermark o t ∷ past) ≡ marks_of q.clock q.declared (Watermark r u ∷ past)
        → FollowAlike (plan_of p) q q.clock.start q.clock.records (Watermark r u ∷ Watermark o t ∷ past) (Watermark r u ∷ past) }
{}

/// What follows on a history follows on its needed events alone: the records that stand in a window, or a session, that is
/// live, and the watermarks of each source that come last before one of these, or at the end; for streams what the last rise
/// of the watermark needs, and all events from that rise on. So a file of rows may be cut to the rows of these, and a run over
/// it goes on as the run over all of them. They have a selected record exactly where a window in which it stands is live.
/// Of another RECORDS it holds as well, as long as none is refused for either.
pub fn needed_alone()
    ensures needed { (p : Program) → IsTrue (is_program p) → (past : List Event) → NeededAlone (plan_of p) (query_of p) past }
    ensures live { (p : Program) → IsTrue (is_program p) → (past : List Event) → AllByRecursion (IsOfLive (query_of p) past) (selected (query_of p) past) }
    ensures records { (p : Program) → IsTrue (is_program p) → (records : ℤ) (past : List Event) →
        let q = query_of p in FollowAlike (plan_of p) q q.clock.start records past (needed q past) × WritesAlike q q.clock.start records past (needed q past) }
{}

/// What the accumulators of each held pane hold lies where the verifier's intervals put the fold of as many
/// records, and has 64 bits.
pub fn holds_in_range()
    ensures { (p : Program) (costs : Costs) → judge p ≡ Ok costs → IsTrue (is_program p) → (past : List Event) →
        AllByRecursion (λ e. IsTrue (is_in_range p e.1)) (kept (query_of p) past) }
{}

/// No run of a section takes more instructions than the longest path of the section has, whatever is
/// stated: neither WHERE and UPDATE on a record that is admitted, nor FIRE on a firing.
pub fn runs_within()
    ensures records { (p : Program) (costs : Costs) → judge p ≡ Ok costs → IsTrue (is_program p) →
        (past : List Event) (key : ℕ) (time : ℤ) (values : List Value)
        → verdict_on (query_of p) past (Record (Some key) time values) ≡ None → RecordPaths p key values }
    ensures firings { (p : Program) (costs : Costs) → judge p ≡ Ok costs → IsTrue (is_program p) → (past : List Event) (e : Event)
        → AllByRecursion (λ f. pane_cost p f ≤ longest_path p.fire) (firings (query_of p) past e) }
{}

/// The sessions that are held have together no more records than were admitted, and what the accumulators
/// of any two of them hold is joined in 64 bits.
pub fn joins_within()
    ensures records { (p : Program) (gap : ℤ) → IsTrue (is_program p) → p.header.shape ≡ Session gap → (past : List Event)
        → sum_by (λ e. length e.1) (held (query_of p) past) ≤ admitted_count p.header.clock p.header.shape p.header.schema past }
    ensures sums { (p : Program) (costs : Costs) (gap : ℤ) → judge p ≡ Ok costs → IsTrue (is_program p) → p.header.shape ≡ Session gap → (past : List Event)
        → EachTwo (λ e f. JoinFits p e.1 f.1) (kept (query_of p) past) }
{}

/// Where panes discard what they showed, a column that adds up comes, over all rows of some windows, to what the records
/// of these windows come to, once the windows were dropped. Which firings told of them, and when, is of no account.
pub fn amounts_add_up()
    ensures { (p : Program) → IsTrue (is_program p) → p.header.mode ≡ Discarding → (c : ℕ) (amount : Amount) → AddsAmounts (query_of p) c amount →
        AmountsAddUp (query_of p) c amount }
{}

/// Deliveries that come at least once pass once where each identifier is forgotten as soon as a record of its first time is
/// late: a double with no later time that passes then is late too. So the same rows are written as where identifiers are
/// remembered for ever.
pub fn passes_once()
    ensures alike { (p : Program) → IsTrue (is_program p) → (time_of : ℕ → ℤ) (ds : List Delivery) → AreTimed time_of ds → PassesAlike (query_of p) ds }
    ensures rows { (p : Program) → IsTrue (is_program p) → (time_of : ℕ → ℤ) (ds : List Delivery) → AreTimed time_of ds →
        WritesOnce (plan_of p) (query_of p) ds }
{}

/// So where each record is delivered at least once and taken when it first comes, what is written of a span of time is
/// what its records come to: each once, in whatever order they came, and however often.
pub fn invoice()
    ensures { (p : Program) → IsTrue (is_program p) → p.header.mode ≡ Discarding → (c : ℕ) (amount : Amount) → AddsAmounts (query_of p) c amount →
        Invoices (query_of p) c amount }
{}
