//! What an event does to the panes that are held, by a program's sections.

ghost use Rattle.std.specs.Prelude.{◌≡◌, List, [], length, true, false, pos, if◌then◌else◌};
ghost use Rattle.wsm_record.specs.Event.{Event as AnyEvent, event_of};
ghost use Rattle.wsm_semantics.specs.Replay.{datum};
ghost use Rattle.wsm_machine.specs.Inputs.{inputs_of};
ghost use Rattle.wsm_machine.specs.Meaning.{record_inputs as inputs_of_record, selects};
ghost use Rattle.wsm_panes.specs.Held.{IsKept};
ghost use Rattle.wsm_firing.specs.Tally.{nothing};
ghost use Rattle.wsm_firing.specs.Streams.{AreAlike, CanAdvance, HasRoomFor, TellsPanes};
ghost use Rattle.wsm_engine.specs.Acts.{Acts, AdvancesOnRise, Arrives, LeavesRoom, Rises, TakesRecord, TakesWatermark, WritesOnRise, panes_of, panes_once_entered, rows_entering};
ghost use Rattle.wsm_engine.specs.Operator.{Comes, IsAlone, IsOf, entering_cost};

use wsm_admission::{Admitted, Refusal};
use wsm_firing::{Arrival, Streams, Tally, TurnRows, WindowOperator};
use wsm_machine::Inputs;
use wsm_record::{Event, Kind, Value};
use wsm_rules::Verified;
use wsm_windows::Window;

/// What an event came to.
#[derive(Clone, Copy)]
pub struct Done {
    /// Whether it is a record that was taken and that WHERE selects.
    pub selected: bool,
    /// The instructions that the record is charged: WHERE's once, UPDATE's once for each window that it
    /// enters (it is run once), and one for each accumulator where two sessions are joined. The
    /// program's RECORD bounds it.
    pub record_steps: u64,
    /// What the firings came to.
    pub tally: Tally,
}

impl Done {
    // Of an event that puts no record into a pane and fires none.
    fn nothing() -> Done
        ensures { result ≡ record { selected = false; record_steps = 0; tally = nothing } }
    {
        Done {
            selected: false,
            record_steps: 0,
            tally: Tally::none(),
        }
    }
}

/// Does what the answer to an event calls for, once the rows of the last event are gone.
pub fn act(
    operator: &mut WindowOperator,
    verified: &Verified,
    mark: i64,
    answer: Result<Admitted, Refusal>,
    event: &Event,
) -> Done
    requires program { IsOf verified.now operator.old }
    requires empty { operator.old.state.rows.written ≡ [] }
    requires comes { (past : List AnyEvent) × Comes verified.now past operator.old.state.held mark answer (event_of event.now) }
    ensures { Acts verified.now mark answer (event_of event.now) operator.old operator.new result }
{
    match answer {
        Ok(Admitted::Record) => match event {
            Event::Record {
                key: Some(key),
                time,
                values,
            } => {
                let arrival = Arrival {
                    key: *key as u16,
                    time: *time,
                    mark,
                };
                take_record(operator, verified, arrival, values)
            }
            // No rule takes another event as a record.
            _ => Done::nothing(),
        },
        Ok(Admitted::Watermark { old, new }) => Done {
            selected: false,
            record_steps: 0,
            tally: take_watermark(operator, verified, old, new),
        },
        Err(_) => Done::nothing(),
    }
}

// Takes a record that was admitted: where WHERE selects it, it is put into its panes, and those that
// its triggers call for are fired.
fn take_record(
    operator: &mut WindowOperator,
    verified: &Verified,
    arrival: Arrival,
    values: &[Value],
) -> Done
    requires program { IsOf verified.now operator.old }
    requires empty { operator.old.state.rows.written ≡ [] }
    requires comes { Arrives verified.now arrival.mark arrival.key arrival.time values.now operator.old }
    ensures { TakesRecord verified.now arrival values.now operator.old operator.new result }
{
    let inputs = Inputs {
        key: arrival.key,
        values,
        count: 0,
        accs: &[],
    };
    let kept = operator.machine.keep(verified, &inputs);
    if !kept.keeps {
        return Done {
            selected: false,
            record_steps: kept.steps,
            tally: Tally::none(),
        };
    }
    let (steps, alone) = enter_record(operator, verified, arrival.mark, arrival.time, &inputs);
    let tally = operator.fire_by_record(verified, arrival, alone);
    Done {
        selected: true,
        record_steps: kept.steps + steps,
        tally,
    }
}

// Runs UPDATE on a selected record, and puts what it gives into the record's panes. Answers the
// steps, and the one window that the record was put into, where that is at hand.
fn enter_record(
    operator: &mut WindowOperator,
    verified: &Verified,
    mark: i64,
    time: i64,
    inputs: &Inputs,
) -> (u64, Option<Window>)
    requires record { inputs_of inputs.now ≡ inputs_of_record inputs.now.key inputs.now.values.now }
    requires program { IsOf verified.now operator.old }
    requires empty { operator.old.state.rows.written ≡ [] }
    requires selected { selects verified.now inputs.now.key inputs.now.values.now ≡ true }
    requires comes { Arrives verified.now mark inputs.now.key time inputs.now.values.now operator.old }
    ensures panes { panes_of operator.new ≡ panes_once_entered verified.now mark inputs.now.key time inputs.now.values.now operator.old }
    ensures keeps { IsKept operator.old.state.held operator.new.state.held }
    ensures told { TellsPanes operator.old.state.streams operator.new.state.streams (panes_of operator.old) (panes_of operator.new) }
    ensures alike { AreAlike operator.old.state.streams operator.new.state.streams }
    ensures rows { operator.new.state.rows.written ≡ rows_entering verified.now mark inputs.now.key time inputs.now.values.now operator.old }
    ensures few { LeavesRoom verified.now operator.new }
    ensures room { operator.new.state.rows.room ≡ operator.old.state.rows.room }
    ensures steps { result.0 ≡ entering_cost verified.now mark inputs.now.key time inputs.now.values.now (panes_of operator.old) }
    ensures alone { IsAlone verified.now mark inputs.now.key time (panes_of operator.old) result.1 }
{
    let updated = operator.machine.update(verified, inputs);
    let steps = updated.steps;
    let arrival = Arrival {
        key: inputs.key,
        time,
        mark,
    };
    let entered = operator.state.enter(verified, arrival, updated.values);
    let kinds = &verified.program().header().kinds;
    (
        entered.windows * steps + join_steps(kinds, entered.joined),
        entered.alone,
    )
}

// Takes a watermark that was accepted: fires the panes that it comes to, writes the streams where it
// rose, and drops the panes that aren't live any more.
fn take_watermark(operator: &mut WindowOperator, verified: &Verified, old: i64, new: i64) -> Tally
    requires program { IsOf verified.now operator.old }
    requires empty { operator.old.state.rows.written ≡ [] }
    requires comes { Rises verified.now old new operator.old }
    ensures { TakesWatermark verified.now old new operator.old operator.new result }
{
    let tally = operator.fire_by_watermark(verified, old, new);
    let lateness = verified.program().header().clock.lateness;
    let state = &mut operator.state;
    advance(&mut state.streams, &mut state.rows, old, new);
    state.drop_expired(new, lateness);
    tally
}

// Writes the streams at a watermark that rose, which is the next instant.
fn advance(streams: &mut Streams, rows: &mut TurnRows, old: i64, new: i64)
    requires told { CanAdvance streams.old }
    requires rows { HasRoomFor streams.old.form streams.old.room (length rows.old.written) rows.old.room }
    ensures told { AdvancesOnRise old new streams.old streams.new }
    ensures alike { AreAlike streams.old streams.new }
    ensures rows { WritesOnRise old new streams.old rows.old.written rows.new.written }
    ensures room { rows.new.room ≡ rows.old.room }
{
    if old < new {
        streams.advance(new, rows);
    }
}

// A step for each accumulator, where two sessions were joined.
fn join_steps(kinds: &[Kind], joined: bool) -> u64
    ensures { result ≡ (if joined then length kinds.now else 0) }
{
    if joined { kinds.len() as u64 } else { 0 }
}
