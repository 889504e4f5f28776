//! What the rows of panes come to that retract or accumulate, over every history. The contract of each function is the law; a call of it
//! does nothing.

ghost use Rattle.std.specs.Prelude.{◌≡◌, ℕ, pos, ◌≤ℤ◌};
ghost use Rattle.wsm_record.specs.declared.words.Mode.TheVariants.{Accumulating, Retracting};
ghost use Rattle.wsm_record.specs.declared.words.Form.TheVariants.{Panes};
ghost use Rattle.wsm_windows.specs.Windows.{IsShape};
ghost use Rattle.wsm_semantics.specs.Query.{Query, SessionsByEvent};
ghost use Rattle.wsm_semantics.specs.Amounts.{Amount, AddsAmounts, AmountsAddUp};
ghost use Rattle.wsm_semantics.specs.Invoice.{Invoices};
ghost use Rattle.wsm_amounts.specs.Whole.{StandWhole};
ghost use Rattle.wsm_amounts.specs.Retracted.{IsShownLess};
ghost use Rattle.wsm_amounts.specs.LastRows.{WritesEach, LastRowsAddUp};
ghost use Rattle.wsm_amounts.specs.Rises.{RisesAlike};

/// By the time a window is dropped, the firing that stands for it has all of its records, whatever fired before and whatever
/// was joined to it.
pub fn stand_whole()
    ensures { (q : Query) → IsShape q.shape → SessionsByEvent q → StandWhole q }
{}

/// Where panes retract what they showed, a column that adds up comes, over all pane rows of some windows less all retract
/// rows of them, to what the records of these windows come to, once the windows were dropped: the same as where panes
/// discard. So it is of one window, of those that begin in a span, of a span of fixed ones, and of a span of time that cuts no
/// session.
pub fn amounts_add_up()
    ensures less { (q : Query) (c : ℕ) → IsShownLess q c }
    ensures amounts { (q : Query) → IsShape q.shape → SessionsByEvent q → pos 0 ≤ℤ q.clock.lateness → q.mode ≡ Retracting → q.form ≡ Panes →
        (c : ℕ) (amount : Amount) → AddsAmounts q c amount → AmountsAddUp q c amount }
{}

/// So where each record is delivered at least once and taken when it first comes, what is shown of a span of time less what is
/// withdrawn of it is what its records come to: each once, in whatever order they came, and however often.
pub fn invoice()
    ensures { (q : Query) → IsShape q.shape → SessionsByEvent q → pos 0 ≤ℤ q.clock.lateness → q.mode ≡ Retracting → q.form ≡ Panes → (c : ℕ) (amount : Amount) →
        AddsAmounts q c amount → Invoices q c amount }
{}

/// Where panes accumulate and don't merge, the last row of a window that was dropped has in a column that adds up what all of
/// its records come to, if HAVING is true of each firing.
pub fn last_rows()
    ensures { (q : Query) → IsShape q.shape → SessionsByEvent q → q.mode ≡ Accumulating → q.form ≡ Panes → WritesEach q → (c : ℕ) (amount : Amount) →
        AddsAmounts q c amount → LastRowsAddUp q c amount }
{}

/// A rise of the watermark in one step writes as many rows of panes, retract rows too, as in two with nothing between them: a pane that
/// fires in both together fires in one of the two.
pub fn rises_alike()
    ensures { (q : Query) → IsShape q.shape → SessionsByEvent q → pos 0 ≤ℤ q.clock.lateness → q.form ≡ Panes → RisesAlike q }
{}
