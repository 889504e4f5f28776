//! What holds of every query, over every history. The contract of each function is the law; a call
//! of it does nothing.

ghost use Rattle.std.specs.Prelude.{◌≡◌, ℕ, ◌+◌, false, List, [], ◌∷◌, ◌++◌, map, length, Option, ℤ, pos, ◌+ℤ◌, ◌≤ℤ◌, IsPermutation};
ghost use Rattle.std.specs.List.{AllByRecursion};
ghost use Rattle.wsm_record.specs.declared.words.Mode.TheVariants.{Discarding, Retracting};
ghost use Rattle.wsm_record.specs.declared.words.Form.TheVariants.{Panes};
ghost use Rattle.wsm_record.specs.Event.{Event, Watermark};
ghost use Rattle.wsm_windows.specs.Windows.{IsShape};
ghost use Rattle.wsm_admission.specs.Clock.{IsWithinLimits, marks_of};
ghost use Rattle.wsm_record.specs.Schema.{source_count};
ghost use Rattle.wsm_semantics.specs.Query.{Query, SessionsByEvent, mark, verdict_on, selected};
ghost use Rattle.wsm_semantics.specs.LiveRecords.{AllLive};
ghost use Rattle.wsm_semantics.specs.Relation.{turn_rows};
ghost use Rattle.wsm_semantics.specs.Replay.{replayed, state, turn_rows_by};
ghost use Rattle.wsm_semantics.specs.FiringSets.{FiresOnce};
ghost use Rattle.wsm_semantics.specs.LastingRows.{AddsUp};
ghost use Rattle.wsm_semantics.specs.HeldBounds.{HeldBounded};
ghost use Rattle.wsm_semantics.specs.Order.{Judged, is_rise, Reordered, IgnoresOrder, IsOrderFree, OrderLaw};
ghost use Rattle.wsm_semantics.specs.ByNumber.{Numbers, AreNumbers, SameByNumbers};
ghost use Rattle.wsm_semantics.specs.FromWatermark.{Stays, whole, rest, Times, LeavesOut, begun_at, BeginAlike, HasNoSessions, IsSettled, PartsNoSession, dropped_times, MayLeaveOut, SameAfter, SameRowsAfter, SameBeyond, SameRowsBeyond, SameOnceSettled};
ghost use Rattle.wsm_semantics.specs.Kept.{kept};
ghost use Rattle.wsm_semantics.specs.Needed.{IsOfLive, needed};
ghost use Rattle.wsm_semantics.specs.Amounts.{Amount, AddsAmounts, AmountsAddUp};
ghost use Rattle.wsm_semantics.specs.Deliveries.{Delivery, AreTimed, PassesAlike};
ghost use Rattle.wsm_semantics.specs.Invoice.{Invoices};
ghost use Rattle.wsm_semantics.specs.ByKey.{Keys, others, HasRoom, IgnoresTurns, ByKey, RowsByKey, EachOnce, StreamsWrite, PartsAddUp, NumbersAddUp, SameByRecords};

/// A replay that goes by what it keeps of the held panes alone, event by event, keeps what the history
/// says of them, and the relation at the last rise of the watermark.
pub fn kept_alone()
    ensures { (q : Query) → IsShape q.shape → SessionsByEvent q → pos 0 ≤ℤ q.clock.lateness → (past : List Event) → replayed q past ≡ state q past }
{}

/// The rows of each turn, of panes or of one of the three streams, are written by what that replay
/// keeps alone.
pub fn rows_alone()
    ensures { (q : Query) → IsShape q.shape → SessionsByEvent q → pos 0 ≤ℤ q.clock.lateness → (past : List Event) (e : Event) →
        turn_rows q past e ≡ turn_rows_by q past e (replayed q past) }
{}

/// Where lateness is counted from a record's own time, a selected record stands in every window of its
/// time: each was live before its turn.
pub fn every_window_live()
    ensures { (q : Query) → q.clock.from_window ≡ false → AllLive q }
{}

/// Where panes discard what they showed, a selected record is in one firing set where a firing shows
/// it and in none where none does, and for each of its windows that was dropped in exactly one.
pub fn fires_once()
    ensures { (q : Query) → IsShape q.shape → SessionsByEvent q → q.mode ≡ Discarding → FiresOnce q }
{}

/// Where panes retract, what was written of them and not withdrawn is one row for each firing that
/// stands, or stood when its window was dropped, and whose HAVING is true.
pub fn adds_up()
    ensures { (q : Query) → IsShape q.shape → SessionsByEvent q → pos 0 ≤ℤ q.clock.lateness → q.mode ≡ Retracting → q.form ≡ Panes → (past : List Event) →
        AddsUp q past }
{}

/// Of each declared key no more panes are held than windows can be live at once, each has no more
/// records than may be admitted, and no turn fires more panes than can be held, nor writes more rows
/// than these may.
pub fn held_bounded()
    ensures { (q : Query) → IsShape q.shape → SessionsByEvent q → IsWithinLimits q.clock → HeldBounded q }
{}

/// Events between two rises of the watermark may come in another order, each with its verdict: each
/// rise fires the same on time, with the same rows. Where panes discard what they showed, none
/// fires early, and sessions don't fire late either.
pub fn in_any_order()
    ensures { (q : Query) → IsShape q.shape → IsWithinLimits q.clock → IgnoresOrder q → IsOrderFree q.mode q.shape q.early q.late → OrderLaw q }
{}

/// Each permutation of some events of a history of which none raises the watermark, each with its
/// verdict, is such another order.
pub fn each_permutation()
    ensures { (newer xs ys older : List Judged) → AllByRecursion (λ e. is_rise e ≡ false) xs → IsPermutation xs ys →
        Reordered (newer ++ (xs ++ older)) (newer ++ (ys ++ older)) }
{}

/// Where no record of a history is refused for RECORDS, the part of it that has the records of some keys
/// and all watermarks holds and fires for these keys what the whole does, turn by turn, and each event has
/// the verdict that it has there. Its rows of panes, retract rows too, are those of the whole for these keys.
/// Another number of RECORDS for which none is refused changes nothing.
pub fn by_key()
    ensures parts { (q : Query) (keys : Keys) → ByKey q keys }
    ensures rows { (q : Query) → IgnoresTurns q → q.form ≡ Panes → (keys : Keys) → RowsByKey q keys }
    ensures records { (q : Query) (records : ℤ) → SameByRecords q records }
{}

/// Where each key is of one of some parts of a history, its relation has the rows of all of theirs; and where the
/// watermark rises it gains what they gain, each row as often as they don't lose it, and loses what they
/// lose, as often as they don't gain it. The streams write what it gains, loses and has. The numbers of the
/// end row add up too, but that each part counts all watermarks. Some keys and all others are two such parts.
pub fn parts_add_up()
    ensures parts { (q : Query) → IgnoresTurns q → (parts : List Keys) → EachOnce parts → PartsAddUp q parts }
    ensures streams { (q : Query) → StreamsWrite q }
    ensures numbers { (q : Query) → (parts : List Keys) → EachOnce parts → NumbersAddUp q parts }
    ensures two { (keys : Keys) → EachOnce (keys ∷ others keys ∷ []) }
{}

/// Which numbers declared keys have is of no account, but for their order: a query over some of the keys
/// of another reads and writes what the other does, each key by its number there.
pub fn by_number()
    ensures { (q : Query) (number : Numbers) (keys : List (List ℕ)) → AreNumbers number keys q → SameByNumbers q number keys }
{}

/// A run may begin behind any row of a query with one source, with the watermark there as its START, and with more
/// sources behind rows that set their marks: what it holds, fires and writes for windows that begin past that watermark
/// and SKEW, in sessions a gap later, is what the whole run does, turn by turn, and each event has the verdict that it
/// has there. Records with times up to some time may be left out too, for windows that begin after it. Where windows
/// don't merge, all is the same once the watermark has passed the ends of the others and LATENESS.
pub fn from_watermark()
    ensures begun { (q : Query) → source_count q.declared ≡ 1 → (records : ℤ) (older : List Event) →
        BeginAlike q (mark q older) records (λ key. mark q older +ℤ q.clock.skew) older [] (length older) }
    ensures marks { (q : Query) (start records : ℤ) (older other : List Event) (longer : ℕ) →
        marks_of (begun_at start records q).clock q.declared other ≡ marks_of q.clock q.declared older → length older ≡ length other + longer
        → BeginAlike q start records (λ key. mark q older +ℤ q.clock.skew) older other longer }
    ensures events { (x : Times) (events older : List Event) →
        (whole (map Stays events) older ≡ events ++ older) × (rest (map Stays events) older ≡ events ++ older) × LeavesOut x (map Stays events) }
    ensures panes { (q : Query) → IsShape q.shape → SessionsByEvent q → (start records : ℤ) (x : Times) (older other : List Event) (longer : ℕ) →
        BeginAlike q start records x older other longer
        → SameAfter q start records x older other longer }
    ensures rows { (q : Query) → IsShape q.shape → SessionsByEvent q → IgnoresTurns q →
        (start records : ℤ) (x : Times) (older other : List Event) (longer : ℕ) → BeginAlike q start records x older other longer
        → SameRowsAfter q start records x older other }
    ensures settled { (q : Query) → IsShape q.shape → HasNoSessions q → pos 0 ≤ℤ q.clock.lateness → IgnoresTurns q →
        (start records : ℤ) (x : Times) (older other : List Event) (longer : ℕ) → BeginAlike q start records x older other longer
        → SameOnceSettled (LeavesOut x) q start records x older other longer }
{}

/// Where a time for each key parts no session of it, records of the key up to that time may be left out for all
/// windows that begin beyond it; and once the watermark has passed LATENESS and the ends of the windows that begin by
/// these times, in sessions a gap, all is the same, and they part no session of what is still to come. Such times are
/// there after any history: for each key that right before its first window that is live.
pub fn left_out()
    ensures panes { (q : Query) → IsShape q.shape → SessionsByEvent q → (records : ℤ) (x : Times) → SameBeyond q records x }
    ensures rows { (q : Query) → IsShape q.shape → SessionsByEvent q → IgnoresTurns q → (records : ℤ) (x : Times) → SameRowsBeyond q records x }
    ensures settled { (q : Query) → IsShape q.shape → SessionsByEvent q → pos 0 ≤ℤ q.clock.lateness → IgnoresTurns q → (records : ℤ) (x : Times) →
        SameOnceSettled (MayLeaveOut q q.clock.start records x) q q.clock.start records x [] [] 0 }
    ensures coming { (q : Query) → IsShape q.shape → SessionsByEvent q → (x : Times) (past : List Event) (e : Event) → IsSettled q x (mark q past) →
        PartsNoSession q x past → PartsNoSession q x (e ∷ past) }
    ensures times { (q : Query) → IsShape q.shape → (past : List Event) →
        IsSettled q (dropped_times q past) (mark q past) × PartsNoSession q (dropped_times q past) past }
{}

/// Of a watermark that another comes right behind nothing is kept, where the second raises that of the query as far
/// without it.
pub fn kept_once()
    ensures { (q : Query) → IsShape q.shape → SessionsByEvent q → pos 0 ≤ℤ q.clock.lateness → (past : List Event) (o r : Option ℕ) (t u : ℤ) →
        mark q (Watermark r u ∷ Watermark o t ∷ past) ≡ mark q (Watermark r u ∷ past)
        → kept q (Watermark r u ∷ Watermark o t ∷ past) ≡ kept q (Watermark r u ∷ past) }
{}

/// The needed events of a history are those that what follows hangs on: the records that stand in a window, or a session,
/// that is live, and the watermarks of each source that come last before one of these, or at the end; for streams what the
/// last rise of the watermark needs, and all events from that rise on. Whatever events come, none is refused for RECORDS
/// behind them where none is behind the whole, and each has the same verdict. They have a selected record exactly where a
/// window in which it stands is live.
pub fn needed_alone()
    ensures live { (q : Query) → IsShape q.shape → (past : List Event) → AllByRecursion (IsOfLive q past) (selected q past) }
    ensures room { (q : Query) (past events : List Event) → HasRoom q (events ++ past) → HasRoom q (events ++ needed q past) }
    ensures verdict { (q : Query) (past events : List Event) (e : Event) → HasRoom q (e ∷ events ++ past) →
        verdict_on q (events ++ needed q past) e ≡ verdict_on q (events ++ past) e }
{}

/// Where panes discard what they showed, a column that adds up comes, over all rows of some windows, to what the records
/// of these windows come to, once the windows were dropped: of one window, of those that begin in a span, of a span of
/// fixed ones, and of a span of time that cuts no session. Which firings told of them, and when, is of no account.
pub fn amounts_add_up()
    ensures { (q : Query) → IsShape q.shape → SessionsByEvent q → q.mode ≡ Discarding → q.form ≡ Panes → (c : ℕ) (amount : Amount) → AddsAmounts q c amount →
        AmountsAddUp q c amount }
{}

/// Of deliveries that come at least once each passes once where identifiers are remembered for ever. Where one is
/// forgotten as soon as a record of its first time is late, a double with no later time that passes is late too: the
/// watermark, all verdicts and the selected records are the same.
pub fn passes_once()
    ensures { (q : Query) → IsShape q.shape → (time_of : ℕ → ℤ) (ds : List Delivery) → AreTimed time_of ds → PassesAlike q ds }
{}

/// So where each record is delivered at least once and taken when it first comes, what is written of a span of time is
/// what its records come to: each once, in whatever order they came, and however often.
pub fn invoice()
    ensures { (q : Query) → IsShape q.shape → SessionsByEvent q → q.mode ≡ Discarding → q.form ≡ Panes → (c : ℕ) (amount : Amount) → AddsAmounts q c amount →
        Invoices q c amount }
{}
