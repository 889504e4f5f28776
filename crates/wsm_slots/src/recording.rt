//! Panes that records are put into.

ghost use Rattle.std.specs.Prelude.{◌≡◌, ◌≤◌, List, length, Option, Some, IsTrue};
ghost use Rattle.wsm_record.specs.declared.event.Value.{Value as OneValue};
ghost use Rattle.wsm_record.specs.declared.limits.TheConstants.{MAX_ACCUMULATORS};
ghost use Rattle.wsm_record.specs.declared.words.Kind.{Kind as OneKind};
ghost use Rattle.wsm_fold.specs.Fold.{are_of_kinds};

use wsm_record::{Kind, Value};

/// A pane that records are put into, each folded by some values.
pub trait TakesRecords: Copy {
    // A pane can take a record with these values.
    ghost CanTakeRecord: { List OneKind → List OneValue → Self → Type 0 };

    // A pane, if there is one, with one record more.
    ghost with_record: { List OneKind → List OneValue → Option Self → Self };

    /// Puts a record in, which is folded by these values.
    fn record(&mut self, kinds: &[Kind], values: &[Value])
        requires few { length values.now ≤ MAX_ACCUMULATORS }
        requires types { IsTrue (are_of_kinds kinds.now values.now) }
        requires room { CanTakeRecord kinds.now values.now self.old }
        ensures { self.new ≡ with_record kinds.now values.now (Some self.old) };
}
