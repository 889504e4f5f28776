//! Panes that are dropped.

ghost use Rattle.std.specs.Prelude.{◌≡◌, int_lt};
ghost use Rattle.std.specs.List.{AllByRecursion};
ghost use Rattle.std.specs.FinMap.Entries.{where_key};
ghost use Rattle.wsm_windows.specs.Life.{is_live};
ghost use Rattle.wsm_windows.specs.Windows.{IsPlaced, IsSpan};
ghost use Rattle.wsm_windows.specs.Places.{place_cmp, window_of};
ghost use Rattle.wsm_panes.specs.Held.{IsKept, entries_of};
ghost use Rattle.wsm_firing.specs.Streams.{AreAlike, CanDrop, CanTell, HasTold, TellsPanes};

use crate::operator::WindowState;
use crate::streams::Streams;
use wsm_panes::HeldPanes;
use wsm_record::Form;
use wsm_windows::last_expired;

impl WindowState {
    /// Drops the panes of windows that aren't live at a mark, and tells the streams the rows that stood
    /// for them. The lateness is in event time.
    pub fn drop_expired(&mut self, mark: i64, lateness: i64)
        requires lateness { IsSpan lateness }
        requires placed { AllByRecursion (λ e. IsPlaced (window_of e.0)) (entries_of self.old.held) }
        requires tells { CanTell self.old.streams (entries_of self.old.held) }
        ensures panes { entries_of self.new.held ≡ where_key place_cmp (λ p. is_live (window_of p) lateness mark) (entries_of self.old.held) }
        ensures keeps { IsKept self.old.held self.new.held }
        ensures told { TellsPanes self.old.streams self.new.streams (entries_of self.old.held) (entries_of self.new.held) }
        ensures alike { AreAlike self.old.streams self.new.streams }
        ensures rows { self.new.rows ≡ self.old.rows }
    {
        let limit = last_expired(mark, lateness);
        lose_expired(&mut self.streams, &self.held, limit);
        self.held.drop_expired(limit);
    }
}

// Tells the streams the rows of the panes of windows with an end of at most the limit.
fn lose_expired(streams: &mut Streams, held: &HeldPanes, limit: i64)
    requires { CanDrop streams.old (entries_of held.now) }
    ensures { HasTold streams.old streams.new (entries_of held.now) (where_key place_cmp (λ p. int_lt limit p.end) (entries_of held.now)) }
{
    if let Form::Panes = streams.form() {
        return;
    }
    lose_due(streams, held, limit);
}

// The same where rows are those of the relation. Its frame is large, so it isn't inlined.
#[inline(never)]
fn lose_due(streams: &mut Streams, held: &HeldPanes, limit: i64)
    requires { CanDrop streams.old (entries_of held.now) }
    ensures { HasTold streams.old streams.new (entries_of held.now) (where_key place_cmp (λ p. int_lt limit p.end) (entries_of held.now)) }
{
    let mut next = held.first_due(limit);
    for _ in 0..held.len() {
        let Some(spot) = next else {
            break;
        };
        streams.lose(&held.pane(spot));
        next = held.next_due(spot, limit);
    }
}
