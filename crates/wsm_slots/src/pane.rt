//! Panes.

ghost use Rattle.std.specs.Prelude.{◌≡◌, ◌≤◌, List, [], length, None, Some, IfSome, IsTrue};
ghost use Rattle.wsm_record.specs.declared.event.Value.{Value as OneValue};
ghost use Rattle.wsm_record.specs.declared.limits.TheConstants.{MAX_ACCUMULATORS};
ghost use Rattle.wsm_fold.specs.Fold.{are_of_kinds, joins};
ghost use Rattle.wsm_fold.specs.Accumulators.{SumsFit};
ghost use Rattle.wsm_semantics.specs.Query.{Datum};
ghost use Rattle.wsm_semantics.specs.Summaries.{standing_joined, with_folded, with_record};
ghost use Rattle.wsm_semantics.specs.Summaries as kept;
ghost use Rattle.std.specs.Option.{is_some};
ghost use Rattle.wsm_slots.specs.Layout.{folded_by, standing_by};
ghost use Rattle.wsm_slots.specs.View.{IsFew, row_seen};
ghost use Rattle.wsm_slots.specs.Panes.{CanJoin, CanJoinFolds, CanRecord, CanTake, taking};

use crate::head::Stands;
use crate::recording::TakesRecords;
use crate::row_words::RowWords;
use crate::view::{PaneView, RowView, row_columns};
use std::marker::Model;
use wsm_fold::Folded;
use wsm_record::{Kind, Value};
use wsm_semantics::Standing;
use wsm_windows::Window;

/// What is kept of the records of a key in a window: a pane of the Dataflow Model (Akidau et al.
/// 2015), without its records. A clause sees how many records it has, how many of them no firing
/// showed yet, what those that the next firing is computed over are folded to, and what stands.
#[derive(Clone, Copy, Debug)]
pub struct Pane {
    count: u64,
    unshown: u64,
    folded: Option<Folded>,
    stands: Standing,
}

impl Model for Pane {
    ghost use Rattle.std.specs.Prelude.{List};
    ghost use Rattle.wsm_record.specs.declared.event.Value.{Value as OneValue};
    ghost use Rattle.wsm_semantics.specs.Summaries.{Pane as AnyPane};

    ghost Value = { AnyPane (List OneValue) };

    ghost view = { λ a. record { count = a.count; unshown = a.unshown; folded = a.folded; stands = a.stands } };

    ghost inverse = { λ h. record { count = h.count; unshown = h.unshown; folded = h.folded; stands = h.stands } };
}

impl Pane {
    /// It, as it is read.
    pub fn view(&self) -> PaneView<'_>
        ensures { result ≡ self.now }
    {
        let (stands, stood, row) = standing_parts(&self.stands);
        PaneView {
            count: self.count,
            unshown: self.unshown,
            is_folded: self.folded.is_some(),
            stands,
            stood,
            folds: folded_values(&self.folded),
            row,
        }
    }

    /// What is read as a pane, as one of its own.
    pub fn of_view(view: &PaneView<'_>) -> Pane
        requires { IfSome view.now.folded (λ values. length values ≤ MAX_ACCUMULATORS) }
        ensures { result ≡ view.now }
    {
        Pane {
            count: view.count,
            unshown: view.unshown,
            folded: folded_of(view.is_folded, view.folds),
            stands: standing_of(view.stands, view.stood, &view.row),
        }
    }

    /// Puts the records of another pane in.
    pub fn join(&mut self, kinds: &[Kind], other: &Pane)
        requires { CanJoin kinds.now self.old other.now }
        ensures { (values : List OneValue) → self.new ≡ kept.joined (taking kinds.now values) self.old other.now }
    {
        self.count += other.count;
        self.unshown += other.unshown;
        self.folded = joined_folds(kinds, self.folded, other.folded);
        self.stands = joined_standing(self.stands, other.stands);
    }
}

impl TakesRecords for Pane {
    ghost use Rattle.wsm_slots.specs.Panes.{CanRecord, with_one_more};

    ghost CanTakeRecord = { CanRecord };

    ghost with_record = { with_one_more };

    fn record(&mut self, kinds: &[Kind], values: &[Value]) {
        self.count += 1;
        self.unshown += 1;
        fold_in(&mut self.folded, kinds, values);
    }
}

// What stands, its window, if that is kept, and where the values of its row lie.
fn standing_parts(standing: &Standing) -> (Stands, Option<Window>, RowView<'_>)
    ensures same { standing_by result.0 result.1 (row_seen result.2) ≡ standing.now }
    ensures few { IsFew result.2 }
{
    match standing {
        Standing::Unfired => (Stands::Unfired, None, RowView::Part(RowWords::empty())),
        Standing::Row {
            window,
            columns: None,
        } => { (Stands::NoRow, *window, RowView::Part(RowWords::empty())) }
        Standing::Row {
            window,
            columns: Some(columns),
        } => { (Stands::FiredRow, *window, RowView::Whole(columns)) }
        Standing::Joined => (Stands::Joined, None, RowView::Part(RowWords::empty())),
    }
}

// What records are folded to, where there are any.
fn folded_values(folded: &Option<Folded>) -> &[Value]
    ensures { folded_by (is_some folded.now) result.now ≡ folded.now }
{
    match folded {
        Some(folded) => folded.values(),
        None => &[],
    }
}

// What records are folded to, where there are any and they are folded to these values.
fn folded_of(is_folded: bool, folds: &[Value]) -> Option<Folded>
    requires { IfSome (folded_by is_folded folds.now) (λ values. length values ≤ MAX_ACCUMULATORS) }
    ensures { result ≡ folded_by is_folded folds.now }
{
    if is_folded {
        Some(Folded::start(folds))
    } else {
        None
    }
}

// What stands, where it is of this window, if that is kept, and the values of its row lie there.
fn standing_of(stands: Stands, window: Option<Window>, row: &RowView<'_>) -> Standing
    requires { IsFew row.now }
    ensures { result ≡ standing_by stands window (row_seen row.now) }
{
    match stands {
        Stands::Unfired => Standing::Unfired,
        Stands::NoRow => Standing::Row {
            window,
            columns: None,
        },
        Stands::FiredRow => Standing::Row {
            window,
            columns: Some(row_columns(row)),
        },
        Stands::Joined => Standing::Joined,
    }
}

// Folds values into what is held, if anything is.
fn fold_in(folded: &mut Option<Folded>, kinds: &[Kind], values: &[Value])
    requires few { length values.now ≤ MAX_ACCUMULATORS }
    requires types { IsTrue (are_of_kinds kinds.now values.now) }
    requires takes { IfSome folded.old (CanTake kinds.now values.now) }
    ensures { (d : Datum) → folded.new ≡ Some (with_folded (taking kinds.now values.now) d folded.old) }
{
    match folded {
        Some(held) => held.fold(kinds, values),
        None => *folded = Some(Folded::start(values)),
    }
}

fn joined_folds(kinds: &[Kind], left: Option<Folded>, right: Option<Folded>) -> Option<Folded>
    requires { CanJoinFolds kinds.now left right }
    ensures { (values : List OneValue) → result ≡ kept.joined_folds (taking kinds.now values) left right }
{
    match (left, right) {
        (None, right) => right,
        (Some(left), None) => Some(left),
        (Some(left), Some(right)) => Some(merged(kinds, left, right)),
    }
}

fn merged(kinds: &[Kind], left: Folded, right: Folded) -> Folded
    requires left { IsTrue (are_of_kinds kinds.now left) }
    requires right { IsTrue (are_of_kinds kinds.now right) }
    requires sums { SumsFit kinds.now left right }
    ensures { result ≡ joins kinds.now left right }
{
    let mut left = left;
    left.merge(kinds, &right);
    left
}

fn joined_standing(left: Standing, right: Standing) -> Standing
    ensures { result ≡ standing_joined left right }
{
    match (left, right) {
        (Standing::Unfired, right) => right,
        (left, Standing::Unfired) => left,
        _ => Standing::Joined,
    }
}
