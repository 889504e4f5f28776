//! Firings on the turn of a record.

ghost use Rattle.std.specs.Prelude.{[], ◌∷◌, map};
ghost use Rattle.std.specs.FinMap.Entries.{find};
ghost use Rattle.wsm_windows.specs.Places.{at};
ghost use Rattle.wsm_machine.specs.Meaning.{query_of};
ghost use Rattle.wsm_panes.specs.Held.{IsHeldAt, entries_of};
ghost use Rattle.wsm_firing.specs.Tally.{nothing};
ghost use Rattle.wsm_firing.specs.Operator.{AreReady};
ghost use Rattle.wsm_firing.specs.ByRecord.{AreInOrder, CanFireEntered, HasEntered, kind_at, kind_entered};
ghost use Rattle.wsm_firing.specs.Fires.{CanFireDue, FiresBy, FiresDue, FiresOnTurn, CanFireReady};

use crate::finding::windows_of_record;
use crate::fire::Due;
use crate::kinds::{is_called, record_kind};
use crate::operator::{Arrival, WindowOperator};
use crate::retracting::retract_by_record;
use crate::run::run;
use crate::tally::Tally;
use wsm_rules::Verified;
use wsm_windows::{Place, Window, Windows};

impl WindowOperator {
    /// Fires the panes that a selected record was put into and that its triggers call for, by end, then
    /// start. A row is written for each where HAVING is true and rows are those of panes, behind those
    /// that withdraw what stood for them where panes retract, and the streams are told. The window is the one that it was
    /// put into, where that is told, as a session is.
    pub fn fire_by_record(
        &mut self,
        verified: &Verified,
        arrival: Arrival,
        alone: Option<Window>,
    ) -> Tally
        requires ready { AreReady verified.now self.old.state.held self.old.state.streams }
        requires can { CanFireEntered verified.now self.old.state arrival alone }
        ensures { FiresOnTurn verified.now (kind_entered verified.now arrival) self.old.state self.new.state result }
    {
        let header = verified.program().header();
        if header.early == 0 && header.late == 0 {
            return Tally::none();
        }
        retract_by_record(
            verified,
            &self.state.held,
            &mut self.state.rows,
            arrival,
            alone,
        );
        self.fire_entered(verified, arrival, alone)
    }

    // Fires the panes that a record was put into. Their rows are written behind those that are there.
    fn fire_entered(
        &mut self,
        verified: &Verified,
        arrival: Arrival,
        alone: Option<Window>,
    ) -> Tally
        requires entered { HasEntered verified.now arrival.mark arrival.key arrival.time alone (entries_of self.old.state.held) }
        requires can { CanFireReady verified.now (kind_entered verified.now arrival) self.old.state nothing }
        ensures { FiresBy verified.now (kind_entered verified.now arrival) self.old.state self.new.state nothing result }
    {
        match alone {
            Some(window) => {
                let mut tally = Tally::none();
                let place = Place::at(arrival.key, window);
                self.fire_at(verified, &mut tally, arrival.mark, place);
                tally
            }
            None => {
                let windows = windows_of_record(verified, arrival.time, arrival.mark);
                self.fire_each(verified, arrival.mark, arrival.key, windows)
            }
        }
    }

    // Fires the panes at some windows of a key.
    fn fire_each(&mut self, verified: &Verified, mark: i64, key: u16, windows: Windows) -> Tally
        requires order { AreInOrder (map (at key) windows) }
        requires can { CanFireReady verified.now (kind_at (query_of verified.now) mark (map (at key) windows)) self.old.state nothing }
        ensures { FiresBy verified.now (kind_at (query_of verified.now) mark (map (at key) windows)) self.old.state self.new.state nothing result }
    {
        let mut tally = Tally::none();
        for window in windows {
            let place = Place::at(key, window);
            self.fire_at(verified, &mut tally, mark, place);
        }
        tally
    }

    // Fires the pane at a place, where one is and its trigger calls for it.
    #[inline(always)]
    fn fire_at(&mut self, verified: &Verified, tally: &mut Tally, mark: i64, place: Place)
        requires { CanFireReady verified.now (kind_at (query_of verified.now) mark (place ∷ [])) self.old.state tally.old }
        ensures { FiresBy verified.now (kind_at (query_of verified.now) mark (place ∷ [])) self.old.state self.new.state tally.old tally.new }
    {
        if is_called(verified, &self.state.held, mark, place) {
            self.fire_called(verified, tally, mark, place);
        }
    }

    // The same of a pane that is called for. Most records fire none, so it isn't inlined.
    #[inline(never)]
    fn fire_called(&mut self, verified: &Verified, tally: &mut Tally, mark: i64, place: Place)
        requires { CanFireReady verified.now (kind_at (query_of verified.now) mark (place ∷ [])) self.old.state tally.old }
        ensures { FiresBy verified.now (kind_at (query_of verified.now) mark (place ∷ [])) self.old.state self.new.state tally.old tally.new }
    {
        let Some(spot) = self.state.held.find(place) else {
            return;
        };
        let pane = self.state.held.pane(spot);
        if let Some(kind) = record_kind(verified, mark, place, pane.unshown()) {
            self.fire_held(verified, tally, Due { kind, spot });
        }
    }

    // Fires a pane that is held.
    fn fire_held(&mut self, verified: &Verified, tally: &mut Tally, due: Due)
        requires ready { AreReady verified.now self.old.state.held self.old.state.streams }
        requires held { IsHeldAt self.old.state.held due.spot }
        requires can { CanFireDue verified.now due self.old.state tally.old }
        ensures { FiresDue verified.now due self.old.state self.new.state tally.old tally.new }
    {
        let pane = self.state.held.pane(due.spot);
        let ran = run(verified, &mut self.machine, due, &pane);
        self.state.fire(verified, tally, due, ran);
    }
}
