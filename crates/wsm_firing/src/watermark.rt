//! Firings on the turn of a watermark.

ghost use Rattle.std.specs.Prelude.{◌≡◌, []};
ghost use Rattle.std.specs.List.{AllByRecursion};
ghost use Rattle.wsm_windows.specs.Windows.{IsPlaced};
ghost use Rattle.wsm_windows.specs.Places.{window_of};
ghost use Rattle.wsm_semantics.specs.Summaries.{kind_by_watermark};
ghost use Rattle.wsm_machine.specs.Meaning.{query_of};
ghost use Rattle.wsm_panes.specs.Held.{entries_of};
ghost use Rattle.wsm_firing.specs.Tally.{nothing};
ghost use Rattle.wsm_firing.specs.Operator.{AreReady};
ghost use Rattle.wsm_firing.specs.ByWatermark.{CanFireByWatermark};
ghost use Rattle.wsm_firing.specs.Fires.{CanFireReady, FiresBy, FiresOnTurn};

use crate::finding::{first_to_fire, next_to_fire};
use crate::fire::Due;
use crate::kinds::watermark_kind;
use crate::operator::WindowOperator;
use crate::retracting::retract_by_watermark;
use crate::run::run;
use crate::tally::Tally;
use wsm_rules::Verified;
use wsm_windows::last_expired;

impl WindowOperator {
    /// Fires the panes that a watermark comes to as it rises from one mark to another, by end, then
    /// start, then key. A row is written for each where HAVING is true and rows are those of panes,
    /// behind those that withdraw what stood for them where panes retract.
    pub fn fire_by_watermark(&mut self, verified: &Verified, old: i64, new: i64) -> Tally
        requires empty { self.old.state.rows.written ≡ [] }
        requires ready { AreReady verified.now self.old.state.held self.old.state.streams }
        requires can { CanFireByWatermark verified.now self.old.state.rows.room old new (entries_of self.old.state.held) }
        ensures { FiresOnTurn verified.now (kind_by_watermark (query_of verified.now) old new) self.old.state self.new.state result }
    {
        retract_by_watermark(verified, &self.state.held, &mut self.state.rows, old, new);
        self.fire_due(verified, old, new)
    }

    // Fires the panes that a watermark comes to. Their rows are written behind those that are there.
    #[inline(never)]
    fn fire_due(&mut self, verified: &Verified, old: i64, new: i64) -> Tally
        requires placed { AllByRecursion (λ e. IsPlaced (window_of e.0)) (entries_of self.old.state.held) }
        requires can { CanFireReady verified.now (kind_by_watermark (query_of verified.now) old new) self.old.state nothing }
        ensures { FiresBy verified.now (kind_by_watermark (query_of verified.now) old new) self.old.state self.new.state nothing result }
    {
        let header = verified.program().header();
        let expired = last_expired(new, header.clock.lateness);
        let mut tally = Tally::none();
        let mut next = first_to_fire(&self.state.held, expired, old, new);
        for _ in 0..self.state.held.len() {
            let Some(spot) = next else {
                break;
            };
            let pane = self.state.held.pane(spot);
            if let Some(kind) = watermark_kind(header, old, new, spot.place, &pane) {
                let due = Due { kind, spot };
                let ran = run(verified, &mut self.machine, due, &pane);
                self.state.fire(verified, &mut tally, due, ran);
            }
            next = next_to_fire(&self.state.held, spot, expired, old, new);
        }
        tally
    }
}
