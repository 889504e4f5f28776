//! What a pane fires as.

ghost use Rattle.std.specs.Prelude.{◌≡◌, FitsSigned};
ghost use Rattle.std.specs.Int.{w64};
ghost use Rattle.wsm_windows.specs.Windows.{IsPlaced, IsSpan};
ghost use Rattle.wsm_windows.specs.Places.{window_of};
ghost use Rattle.wsm_semantics.specs.Query.{Query};
ghost use Rattle.wsm_semantics.specs.Firings.{kind_on_record};
ghost use Rattle.wsm_semantics.specs.Summaries.{kind_by_watermark};
ghost use Rattle.wsm_machine.specs.Meaning.{query_of};
ghost use Rattle.wsm_panes.specs.Held.{entries_of};
ghost use Rattle.wsm_firing.specs.ByRecord.{is_called_at};

use wsm_panes::{HeldPanes, PaneView};
use wsm_program::Header;
use wsm_rules::Verified;
use wsm_triggers::{Trigger, on_record, on_watermark};
use wsm_windows::{PaneKind, Place};

/// What a pane with so many unshown records fires as on the turn of a record in it, at a mark.
pub fn record_kind(verified: &Verified, mark: i64, place: Place, unshown: u64) -> Option<PaneKind>
    requires { FitsSigned w64 place.end }
    ensures { result ≡ kind_on_record (query_of verified.now) mark place.end unshown }
{
    let header = verified.program().header();
    let trigger = Trigger {
        early: header.early.unsigned_abs(),
        late: header.late.unsigned_abs(),
    };
    on_record(trigger, mark, place.end, unshown)
}

/// Whether a pane is at a place, and the turn of a record in it at a mark calls for it.
#[inline(always)]
pub fn is_called(verified: &Verified, held: &HeldPanes, mark: i64, place: Place) -> bool
    requires { FitsSigned w64 place.end }
    ensures { result ≡ is_called_at (query_of verified.now) mark place (entries_of held.now) }
{
    match held.unshown(place) {
        Some(unshown) => record_kind(verified, mark, place, unshown).is_some(),
        None => false,
    }
}

/// What a pane fires as on the turn of a watermark that rises from one mark to another.
pub fn watermark_kind(
    header: &Header,
    old: i64,
    new: i64,
    place: Place,
    pane: &PaneView<'_>,
) -> Option<PaneKind>
    requires lateness { IsSpan header.now.clock.lateness }
    requires placed { IsPlaced (window_of place) }
    // In each query with the header's mode and lateness.
    ensures { (q : Query) → q.mode ≡ header.now.mode → q.clock.lateness ≡ header.now.clock.lateness → result ≡ kind_by_watermark q old new place pane.now }
{
    on_watermark(
        header.mode,
        old,
        new,
        place.end,
        header.clock.lateness,
        pane.count(),
        pane.unshown(),
    )
}
