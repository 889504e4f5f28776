//! The engine of a verified program.

ghost use Rattle.std.specs.Prelude.{◌≡◌, ◌≤◌, List, [], ◌∷◌, length, Ok, IfOk, IfErr, IfSome, IsTrue};
ghost use Rattle.wsm_record.specs.Event.{Event as AnyEvent, event_of};
ghost use Rattle.wsm_admission.specs.Clock.{fits_declared};
ghost use Rattle.wsm_admission.specs.declared.verdict.Admitted.TheVariants.{Record};
ghost use Rattle.wsm_semantics.specs.Panes.{held};
ghost use Rattle.wsm_semantics.specs.Query.{mark};
ghost use Rattle.wsm_semantics.specs.Relation.{turn_rows};
ghost use Rattle.wsm_program.specs.Program.{is_program};
ghost use Rattle.wsm_rules.specs.Costs.{needed};
ghost use Rattle.wsm_rules.specs.Rules.{judge};
ghost use Rattle.wsm_machine.specs.Meaning.{query_of};
ghost use Rattle.wsm_engine.specs.Counts.{IsKnown};
ghost use Rattle.wsm_engine.specs.Meaning.{Feeds, Fits, answer_by, refused_state, reply_to, totals_of};
ghost use Rattle.wsm_engine.specs.Turn.{turn, reply_by, refusal_of as spec_refusal_of};

use crate::acting::act;
use crate::deciding::{Decider, Known};
use crate::opening::open_operator;
use crate::reply::Reply;
use std::alloc::Global;
use std::marker::Model;
use wsm_admission::{Admitted, Refusal, has_fitting_values};
use wsm_firing::WindowOperator;
use wsm_program::Program;
use wsm_record::{Event, Schema};
use wsm_rules::Verified;
use wsm_semantics::{OutRow, Totals};

/// A verified program, what is kept of the events, and the rows of the last one.
pub struct Engine {
    verified: Verified,
    admission: Decider,
    operator: WindowOperator,
    fed: u64,
    fired: u64,
}

impl Drop for Engine {
    fn drop(self) {
        let Engine {
            verified: _,
            admission: _,
            operator: _,
            fed: _,
            fired: _,
        } = self;
    }
}

impl Model for Engine {
    ghost use Rattle.wsm_engine.specs.State.{State};

    ghost Value = { State };

    ghost use Rattle.wsm_engine.specs.Engine.{state_of, IsSound};

    ghost view = { state_of };

    ghost invariant = { IsSound };
}

/// Why an engine wasn't opened.
#[derive(Drop)]
pub enum OpenRefusal {
    /// There was no memory. The program is handed back.
    Memory(Verified),
}

impl Engine {
    /// Opens the engine of a program, and reserves all room. No later call takes memory.
    ///
    /// # Errors
    ///
    /// Where there is no memory for the room.
    pub fn open(alloc: Global, verified: Verified) -> Result<Engine, OpenRefusal>
        ensures program { IfOk result (λ e. e.program ≡ verified) }
        ensures fits { IfOk result (λ e. Fits e []) }
        ensures rows { IfOk result (λ e. e.rows ≡ []) }
        ensures handed_back { IfErr result (λ r. r ≡ OpenRefusal.Memory verified) }
    {
        let Ok(operator) = open_operator(alloc, &verified) else {
            return Err(OpenRefusal::Memory(verified));
        };
        let header = verified.program().header();
        let admission = Decider::new(header.clock, &header.schema);
        Ok(Engine {
            verified,
            admission,
            operator,
            fed: 0,
            fired: 0,
        })
    }

    /// Takes the next event: decides on it, puts a selected record into its panes, and fires the panes
    /// that its triggers or a watermark call for. The rows of the last event are gone. It takes no
    /// memory.
    pub fn feed(&mut self, event: &Event) -> Reply
        ensures program { self.new.program ≡ self.old.program }
        ensures fits { (past : List AnyEvent) → Fits self.old past → Fits self.new (event_of event.now ∷ past) }
        ensures reply { (past : List AnyEvent) → Fits self.old past → result ≡ reply_to self.old.program past (event_of event.now) }
        ensures rows { (past : List AnyEvent) → Fits self.old past → self.new.rows ≡ turn_rows (query_of self.old.program) past (event_of event.now) }
        ensures room { self.new.room ≡ self.old.room }
        ensures refused { IfSome result.refusal (λ r. self.new ≡ refused_state self.old r) }
        ensures record_within { result.record_steps ≤ self.old.program.header.budget.per_record }
        ensures pane_within { result.pane_steps_max ≤ self.old.program.header.budget.per_pane }
    {
        let values_fit = has_fitting_values(self.schema(), event);
        self.feed_judged(event, values_fit)
    }

    /// Takes the next event, as [`feed`](Engine::feed) does and with all that its contract says, where
    /// whoever has read it knows whether its values fit the program's schema: then no value is looked
    /// at to judge it.
    pub fn feed_judged(&mut self, event: &Event, values_fit: bool) -> Reply
        requires { values_fit ≡ fits_declared self.old.program.header.schema (event_of event.now) }
        ensures { Feeds self.old self.new (event_of event.now) result }
    {
        self.turn(event, Known::Values(values_fit))
    }

    /// Takes a record, as [`feed_judged`](Engine::feed_judged) does and with all that its contract says, where it is known that no rule
    /// refuses it, as by one who goes by the same marks: then none is looked at.
    pub fn feed_admitted(&mut self, event: &Event) -> Reply
        requires { answer_by self.old (event_of event.now) ≡ Ok Record }
        ensures { Feeds self.old self.new (event_of event.now) result }
    {
        self.turn(event, Known::Taken)
    }

    /// The rows of the last event, in order.
    pub fn rows(&self) -> &[OutRow]
        ensures { result.now ≡ self.now.rows }
    {
        self.operator.state.rows.as_slice()
    }

    /// How many panes are held.
    pub fn held(&self) -> usize
        ensures held { (past : List AnyEvent) → Fits self.now past → result ≡ length (held (query_of self.now.program) past) }
        ensures within { result ≤ self.now.program.header.budget.held }
    {
        self.operator.state.held.len()
    }

    /// The program that is run.
    pub fn program(&self) -> &Program
        ensures { result.now ≡ self.now.program }
    {
        self.verified.program()
    }

    /// What the program declares of its records.
    pub fn schema(&self) -> &Schema
        ensures { result.now ≡ self.now.program.header.schema }
    {
        &self.verified.program().header().schema
    }

    /// The watermark, in event time: the least of those of the sources.
    pub fn mark(&self) -> i64
        ensures { (past : List AnyEvent) → Fits self.now past → result ≡ mark (query_of self.now.program) past }
    {
        self.admission.mark()
    }

    /// What all events so far come to.
    pub fn totals(&self) -> Totals
        ensures { (past : List AnyEvent) → Fits self.now past → result ≡ totals_of (query_of self.now.program) past }
    {
        Totals {
            rows: self.fed,
            admitted: self.admission.admitted(),
            late: self.admission.late(),
            refused: self.admission.refused(),
            panes: self.fired,
        }
    }

    /// The program that was run.
    pub fn into_program(self) -> Verified
        ensures { result ≡ self.program }
    {
        let Engine {
            verified,
            admission: _,
            operator: _,
            fed: _,
            fired: _,
        } = self;
        verified
    }

    // The turn of an event, as a step of the machine that keeps a summary for each held pane.
    fn turn(&mut self, event: &Event, known: Known) -> Reply
        requires { IsKnown self.old.program.header.shape self.old.program.header.schema self.old.machine.admission (event_of event.now) known }
        ensures judged { judge self.old.program ≡ Ok (needed self.old.program) }
        ensures lawful { IsTrue (is_program self.old.program) }
        ensures history { (past : List AnyEvent) × Fits self.old past }
        ensures state { self.new ≡ turn self.old (event_of event.now) }
        ensures reply { result ≡ reply_by self.old (event_of event.now) }
    {
        self.operator.state.rows.clear();
        let mark = self.admission.mark();
        let header = self.verified.program().header();
        let answer = self
            .admission
            .decide(&header.schema, &header.shape, event, known);
        let done = act(&mut self.operator, &self.verified, mark, answer, event);
        self.fed = self.fed.saturating_add(1);
        self.fired = self.fired.saturating_add(done.tally.fired);
        Reply {
            refusal: refusal_of(answer),
            selected: done.selected,
            record_steps: done.record_steps,
            fired: done.tally.fired,
            pane_steps_max: done.tally.steps_max,
            pane_steps_total: done.tally.steps_total,
        }
    }
}

// The refusal, if the answer is one.
fn refusal_of(answer: Result<Admitted, Refusal>) -> Option<Refusal>
    ensures { result ≡ spec_refusal_of answer }
{
    match answer {
        Ok(_) => None,
        Err(refusal) => Some(refusal),
    }
}
