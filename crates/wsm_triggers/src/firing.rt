//! When a pane fires.

ghost use Rattle.std.specs.Prelude.{◌≡◌, List, length, Some, None, ◌&&◌, int_lt, int_le, nat_lt, if◌then◌else◌};
ghost use Rattle.wsm_windows.specs.Windows.{IsSpan};
ghost use Rattle.wsm_windows.specs.declared.place.Place.{Place};
ghost use Rattle.wsm_semantics.specs.Query.{Datum, Query};
ghost use Rattle.wsm_semantics.specs.Firings.{kind_on_record, kind_on_watermark, firing_set, is_enough};
ghost use Rattle.wsm_semantics.specs.Summaries as summaries;
ghost use Rattle.wsm_triggers.specs.Triggers.{IsEnd, IsTriggerOf, EndsIn};

use wsm_record::Mode;
use wsm_windows::PaneKind;

/// After how many unshown records a pane fires before its end's watermark, and after it.
#[derive(Clone, Copy, Debug, PartialEq, Eq)]
pub struct Trigger {
    /// The count before the watermark comes to the window's end, or 0 for none.
    pub early: u64,
    /// The count from then on, or 0 for none.
    pub late: u64,
}

/// What fires on the turn of a selected record, for a window with this end that it entered: at this
/// mark, and with so many records unshown, its own among them. It is `Early`, `Late` or nothing.
pub fn on_record(trigger: Trigger, mark: i64, end: i64, unshown: u64) -> Option<PaneKind>
    // The kind that every query with these counts gives.
    ensures { (q : Query) → IsTriggerOf q trigger → result ≡ kind_on_record q mark end unshown }
{
    if mark < end {
        reached(trigger.early, unshown, PaneKind::Early)
    } else {
        reached(trigger.late, unshown, PaneKind::Late)
    }
}

/// What fires on the turn of a watermark that rises from one mark to another, for a live window with
/// this end: with so many records in the pane, and so many of them unshown. It is `OnTime`, `Final`
/// or nothing.
pub fn on_watermark(
    mode: Mode,
    old: i64,
    new: i64,
    end: i64,
    lateness: i64,
    count: u64,
    unshown: u64,
) -> Option<PaneKind>
    requires end { IsEnd end }
    requires lateness { IsSpan lateness }
    // The kind that every query with this mode and lateness gives, for records that are so many.
    ensures { (q : Query) (place : Place) (all missed : List Datum) → EndsIn q place mode lateness end → length all ≡ count → length missed ≡ unshown →
        result ≡ kind_on_watermark q old new place (length (firing_set q.mode all missed)) (length missed) }
{
    if comes_with(end, old, new, computed_over(mode, count, unshown)) {
        Some(PaneKind::OnTime)
    } else if comes_with(end + lateness, old, new, unshown) {
        Some(PaneKind::Final)
    } else {
        None
    }
}

// The kind, where a count is declared and so many unshown records reach it.
fn reached(declared: u64, unshown: u64, kind: PaneKind) -> Option<PaneKind>
    ensures { result ≡ (if is_enough declared unshown then Some kind else None) }
{
    if declared > 0 && unshown >= declared {
        Some(kind)
    } else {
        None
    }
}

// Whether a rising mark comes to a time on this step, and there are records.
fn comes_with(time: i64, old: i64, new: i64, records: u64) -> bool
    ensures { result ≡ ((int_lt old time && int_le time new) && nat_lt 0 records) }
{
    old < time && time <= new && records > 0
}

/// How many records the columns of a pane that fires are computed over: all that it has, or those
/// that are unshown.
pub fn computed_over(mode: Mode, count: u64, unshown: u64) -> u64
    ensures { result ≡ summaries.computed_over mode count unshown }
{
    if mode.is_over_all() { count } else { unshown }
}
