//! A record put into its panes.

ghost use Rattle.std.specs.Prelude.{◌≡◌, ◌<◌, ◌≤◌, ℤ, pos, List, [], length};
ghost use Rattle.wsm_record.specs.declared.cell.Cell.{Cell};
ghost use Rattle.wsm_windows.specs.Windows.{IsShape};
ghost use Rattle.wsm_windows.specs.declared.window.Shape.TheVariants.{Session};
ghost use Rattle.wsm_semantics.specs.Replay.{datum};
ghost use Rattle.wsm_semantics.specs.Summaries.{linked};
ghost use Rattle.wsm_panes.specs.Held.{CanEnter, IsKept, entries_of, joins_sessions, session_entered, windows_entered};
ghost use Rattle.wsm_panes.specs.Entered.{IsToldAlone};
ghost use Rattle.wsm_firing.specs.ByRecord.{panes_entered};
ghost use Rattle.wsm_firing.specs.Retracting.{LeavesRoom, WithdrawsJoined};
ghost use Rattle.wsm_firing.specs.Streams.{AreAlike, CanLoseJoined, CanLosePair, CanTell, IsTold, TellsEntered, TellsPanes, TellsRows, rows_and, rows_entered, standing_rows};

use crate::operator::{Arrival, WindowState};
use crate::retracting::retract_joined;
use crate::streams::Streams;
use wsm_panes::{Entered, HeldPanes, PaneView};
use wsm_record::{Form, Value};
use wsm_rules::Verified;

impl WindowState {
    /// Puts a record into the pane of each of its windows that are live at the mark. Where that joins two
    /// sessions that both fired, their rows stand no more: the streams are told, and where panes retract
    /// the rows that withdraw them are written. The values are what UPDATE gave, and may lie in the
    /// operator's machine.
    pub fn enter(&mut self, verified: &Verified, arrival: Arrival, values: &[Value]) -> Entered
        requires empty { self.old.rows.written ≡ [] }
        requires room { length (entries_of self.old.held) ≤ self.old.rows.room }
        requires can { CanEnter self.old.held verified.now.header.kinds arrival.key arrival.time values.now verified.now.header.clock.lateness arrival.mark }
        requires tells { CanTell self.old.streams (entries_of self.old.held) }
        ensures panes { entries_of self.new.held ≡ panes_entered verified.now arrival values.now self.old.held }
        ensures keeps { IsKept self.old.held self.new.held }
        ensures told { TellsPanes self.old.streams self.new.streams (entries_of self.old.held) (entries_of self.new.held) }
        ensures alike { AreAlike self.old.streams self.new.streams }
        ensures rows { WithdrawsJoined verified.now.header.mode self.old.held arrival.key arrival.time self.new.rows.written }
        // What is held then can fire, by the bound of the rows of a turn.
        ensures few { LeavesRoom verified.now.header.mode (length self.new.rows.written) (entries_of self.old.held) (entries_of self.new.held) }
        ensures room { self.new.rows.room ≡ self.old.rows.room }
        ensures windows { result.windows ≡ windows_entered self.old.held.shape arrival.time verified.now.header.clock.lateness arrival.mark }
        ensures joined { result.joined ≡ joins_sessions self.old.held.shape (datum 0 (pos 0) arrival.key arrival.time []) (entries_of self.old.held) }
        ensures session { result.session ≡ session_entered self.old.held.shape (datum 0 (pos 0) arrival.key arrival.time []) (entries_of self.old.held) }
        ensures alone { IsToldAlone self.old.held.shape arrival.time verified.now.header.clock.lateness arrival.mark result.session result.alone }
    {
        let header = verified.program().header();
        retract_joined(
            header.mode,
            &self.held,
            &mut self.rows,
            arrival.key,
            arrival.time,
        );
        lose_joined(&mut self.streams, &self.held, arrival.key, arrival.time);
        self.held.enter(
            &header.kinds,
            arrival.key,
            arrival.time,
            values,
            header.clock.lateness,
            arrival.mark,
        )
    }
}

// Tells the streams which rows stand no more once a record is put in. They are the same at each mark.
fn lose_joined(streams: &mut Streams, held: &HeldPanes, key: u16, time: i64)
    requires { CanLoseJoined streams.old held.now key time }
    ensures told { TellsEntered streams.old streams.new held.now key time }
    ensures alike { AreAlike streams.old streams.new }
{
    if held.has_sessions() {
        match streams.form() {
            Form::Panes => {}
            Form::Istream | Form::Dstream | Form::Rstream => lose_linked(streams, held, key, time),
        }
    }
}

// The same where windows are sessions and rows are those of a stream. Its frame is large, so it isn't inlined.
#[inline(never)]
fn lose_linked(streams: &mut Streams, held: &HeldPanes, key: u16, time: i64)
    requires { CanLoseJoined streams.old held.now key time }
    ensures told { TellsRows streams.old streams.new (standing_rows (entries_of held.now)) (rows_entered held.now key time) }
    ensures alike { AreAlike streams.old streams.new }
    ensures few { (gap : ℤ) → held.now.shape ≡ Session gap → length (linked gap (datum 0 (pos 0) key time []) (entries_of held.now)) ≤ 2 }
    ensures shape { IsShape held.now.shape }
{
    if let Some(pair) = held.joined(key, time) {
        lose_pair(streams, &pair);
    }
}

// Tells the streams the rows of two panes that are joined, where both fired.
fn lose_pair(streams: &mut Streams, pair: &(PaneView<'_>, PaneView<'_>))
    requires { CanLosePair streams.old pair.now.0 pair.now.1 }
    ensures told { (relation now : List (List Cell)) → IsTold streams.old relation (rows_and pair.now.0 pair.now.1 now) → IsTold streams.new relation now }
    ensures alike { AreAlike streams.old streams.new }
{
    if pair.0.has_fired() && pair.1.has_fired() {
        streams.lose(&pair.0);
        streams.lose(&pair.1);
    }
}
