//! A front and the engines of all parts.

ghost use Rattle.std.specs.Prelude.{◌≡◌, ◌<◌, ◌≤◌, ℕ, List, [], length, Ok, IfOk, IfErr, IsTrue, MatchOption, slice_get, Some, replicate};
ghost use Rattle.wsm_record.specs.declared.limits.TheConstants.{MAX_NAMES, MAX_SOURCES};
ghost use Rattle.wsm_record.specs.Event.{Event as AnyEvent, event_of};
ghost use Rattle.wsm_record.specs.Schema.{source_count};
ghost use Rattle.wsm_admission.specs.Clock.{fits_declared};
ghost use Rattle.wsm_admission.specs.Admission.{marks_with};
ghost use Rattle.wsm_semantics.specs.ByNumber.{row_by};
ghost use Rattle.wsm_semantics.specs.Query.{mark};
ghost use Rattle.wsm_program.specs.Program.{Program as AnyProgram, is_program};
ghost use Rattle.wsm_program.specs.View.{header_of};
ghost use Rattle.wsm_engine.specs.Meaning.{totals_of};
ghost use Rattle.wsm_part_programs.specs.Names.{of_names};
ghost use Rattle.wsm_part_engines.specs.Fits.{by_number, number_of, Fits, IsPlaced};
ghost use Rattle.wsm_part_engines.specs.Answers.{Feeds, IsSelected, IsWhy, MayBeRun};
ghost use Rattle.wsm_part_engines.specs.Ready.{IsReady};
ghost use Rattle.wsm_part_engines.specs.Slots.{open_count};

use crate::engines::{Engines, PartRow};
use crate::keyless::is_keyless;
use crate::refusal::PartsRefusal;
use crate::reply::PartsReply;
use crate::slots::count_open;
use std::alloc::{AllocError, Global};
use std::marker::Model;
use std::mem;
use wsm_admission::{Admission, Admitted};
use wsm_engine::Totals;
use wsm_program::{Header, Program};
use wsm_record::{Event, Form, Schema, Value};
use wsm_rules::Verified;

/// A front and the engines of all parts, which together answer what the query of a program answers over any number of names. A part has
/// as many keys as the program declares: their places in it. The number of a name is that of its part times so many and its place.
pub struct Parts {
    program: Program,
    front: Admission,
    // Of the sources, as the front has them.
    marks: Vec<i64>,
    engines: Engines,
    fed: u64,
    fired: u64,
    // Of the last record whose key came by its number, for the next.
    values: Vec<Value>,
}

impl Drop for Parts {
    fn drop(self) {
        let Parts {
            program: _,
            front: _,
            marks: _,
            engines: _,
            fed: _,
            fired: _,
            values: _,
        } = self;
    }
}

impl Model for Parts {
    ghost use Rattle.wsm_part_engines.specs.State.{State};

    ghost Value = { State };

    ghost use Rattle.wsm_part_engines.specs.View.{state_of, IsSound};

    ghost view = { state_of };

    ghost invariant = { IsSound };
}

impl Parts {
    /// Before the first event: no engine is opened.
    ///
    /// # Errors
    ///
    /// The program writes a stream, or reads the key, or memory was refused.
    pub fn open(alloc: Global, verified: Verified) -> Result<Parts, PartsRefusal>
        ensures program { IfOk result (λ s. s.program ≡ verified) }
        ensures fits { (names : List (List ℕ)) → IfOk result (λ s. Fits verified names s []) }
        ensures rows { IfOk result (λ s. s.rows ≡ []) }
        ensures may { IfOk result (λ s. MayBeRun verified) }
        ensures why { IfErr result (IsWhy verified) }
    {
        let program = verified.into_program();
        if let Some(refusal) = refusal_of(&program) {
            return Err(refusal);
        }
        let clock = program.header().clock;
        let (engines, marks) = before_events(alloc, &program)?;
        let front = Admission::new(clock, &program.header().schema);
        Ok(Parts {
            program,
            front,
            marks,
            engines,
            fed: 0,
            fired: 0,
            values: Vec::new(alloc),
        })
    }

    /// Takes the next event: the front decides on it, and the engine of its part is fed a record, each engine a watermark. The key of a
    /// record is its place in the part; the part of a watermark, or of a record of no key, isn't read. Whoever has read it knows whether
    /// its values fit the schema. The rows of the last event are gone.
    ///
    /// # Errors
    ///
    /// Memory was refused. Nothing is known of what is kept then.
    pub fn feed(
        &mut self,
        part: u32,
        event: &Event,
        values_fit: bool,
    ) -> Result<PartsReply, AllocError>
        requires placed { IsPlaced (length self.old.program.header.schema.keys) (event_of event.now) }
        requires judged { values_fit ≡ fits_declared self.old.program.header.schema (event_of event.now) }
        ensures program { self.new.program ≡ self.old.program }
        ensures feeds { IfOk result (λ r.
            Feeds self.old self.new (by_number (length self.old.program.header.schema.keys) part (event_of event.now)) r.refusal) }
        ensures selected { IfOk result (λ r.
            IsSelected self.old (by_number (length self.old.program.header.schema.keys) part (event_of event.now)) r.selected) }
    {
        self.engines.order.clear();
        self.fed = self.fed.saturating_add(1);
        let header = self.program.header();
        let answer = self
            .front
            .decide_judged(&header.schema, &header.shape, event, values_fit);
        match answer {
            Ok(admitted) => match admitted {
                Admitted::Record => {
                    let engines = &mut self.engines;
                    let fed = engines.take_record(&self.marks, part, event)?;
                    self.fired = self.fired.saturating_add(fed.fired);
                    Ok(PartsReply {
                        refusal: None,
                        selected: fed.selected,
                    })
                }
                Admitted::Watermark { .. } => {
                    raise(&mut self.marks, event);
                    let fired = self.engines.take_watermark(event, values_fit)?;
                    self.fired = self.fired.saturating_add(fired);
                    Ok(PartsReply {
                        refusal: None,
                        selected: false,
                    })
                }
            },
            Err(refusal) => Ok(PartsReply {
                refusal: Some(refusal),
                selected: false,
            }),
        }
    }

    /// The same with an event whose key is its number among all names: part and place are split off it, and the values of a record are
    /// copied, into the memory of those before.
    ///
    /// # Errors
    ///
    /// Memory was refused. Nothing is known of what is kept then.
    pub fn feed_numbered(
        &mut self,
        event: &Event,
        values_fit: bool,
    ) -> Result<PartsReply, AllocError>
        requires { values_fit ≡ fits_declared self.old.program.header.schema (event_of event.now) }
        ensures program { self.new.program ≡ self.old.program }
        ensures feeds { IfOk result (λ r. Feeds self.old self.new (event_of event.now) r.refusal) }
        ensures selected { IfOk result (λ r. IsSelected self.old (event_of event.now) r.selected) }
    {
        match event {
            Event::Record {
                key: Some(number),
                time,
                values,
            } => {
                let block = self.block() as u32;
                let placed = Event::Record {
                    key: Some(*number % block),
                    time: *time,
                    values: copied(&mut self.values, values)?,
                };
                let reply = self.feed(*number / block, &placed, values_fit)?;
                if let Event::Record { values, .. } = placed {
                    self.values = values;
                }
                Ok(reply)
            }
            Event::Record { key: None, .. } => self.feed(0, event, values_fit),
            Event::Watermark { .. } => self.feed(0, event, values_fit),
        }
    }

    /// How many rows the last event wrote.
    pub fn row_count(&self) -> usize
        ensures { result ≡ length self.now.rows }
    {
        self.engines.order.len()
    }

    /// A row of the last event. They stand in the order in which one query over all names writes them.
    pub fn row(&self, i: usize) -> PartRow<'_>
        requires { i < length self.now.rows }
        ensures { slice_get self.now.rows i ≡ Some (row_by (number_of (length self.now.program.header.schema.keys) result.part) result.row.now) }
    {
        self.engines.row(i)
    }

    /// What the program declares of its records. Its keys are the places of a part.
    pub fn schema(&self) -> &Schema
        ensures { result.now ≡ self.now.program.header.schema }
    {
        &self.program.header().schema
    }

    /// The declarations of the program.
    pub fn header(&self) -> &Header
        ensures header { header_of result.now ≡ self.now.program.header }
        ensures lawful { IsTrue (is_program self.now.program) }
    {
        self.program.header()
    }

    /// How many keys a part has.
    pub fn block(&self) -> usize
        ensures block { result ≡ length self.now.program.header.schema.keys }
        ensures some { 0 < result }
        ensures most { result ≤ MAX_NAMES }
    {
        self.program.header().schema.key_count()
    }

    /// The program alone.
    pub fn into_program(self) -> Program
        ensures { result ≡ self.program }
    {
        let Parts {
            program,
            front: _,
            marks: _,
            engines: _,
            fed: _,
            fired: _,
            values: _,
        } = self;
        program
    }

    /// How many parts have an engine.
    pub fn opened(&self) -> usize
        ensures { result ≡ open_count self.now.engines }
    {
        count_open(&self.engines.slots)
    }

    /// The watermark.
    pub fn mark(&self) -> i64
        ensures { (p : AnyProgram) (names : List (List ℕ)) (past : List AnyEvent) → Fits p names self.now past → result ≡ mark (of_names p names) past }
    {
        self.front.mark()
    }

    /// What all events so far come to.
    pub fn totals(&self) -> Totals
        ensures { (p : AnyProgram) (names : List (List ℕ)) (past : List AnyEvent) → Fits p names self.now past → result ≡ totals_of (of_names p names) past }
    {
        Totals {
            rows: self.fed,
            admitted: self.front.admitted(),
            late: self.front.late(),
            refused: self.front.refused(),
            panes: self.fired,
        }
    }
}

// These values, in the memory of others, which are gone.
fn copied(memory: &mut Vec<Value>, values: &[Value]) -> Result<Vec<Value>, AllocError>
    ensures { IfOk result (λ copy. copy.items ≡ values.now) }
{
    let alloc = *memory.allocator();
    let mut copy = mem::replace(memory, Vec::new(alloc));
    copy.clear();
    copy.extend_from_slice(values)?;
    Ok(copy)
}

// Why a program isn't run by parts, if it isn't.
fn refusal_of(program: &Program) -> Option<PartsRefusal>
    ensures { MatchOption result (MayBeRun program.now) (IsWhy program.now) }
{
    match program.header().form {
        Form::Panes if is_keyless(program) => None,
        Form::Panes => Some(PartsRefusal::ReadsKey),
        _ => Some(PartsRefusal::Streams),
    }
}

// The engines of a program and the marks of its sources before the first event.
fn before_events(alloc: Global, program: &Program) -> Result<(Engines, Vec<i64>), AllocError>
    ensures engines { IfOk result (λ made. IsReady program.now made.0) }
    ensures slots { IfOk result (λ made. made.0.slots.items ≡ []) }
    ensures order { IfOk result (λ made. made.0.order.items ≡ []) }
    ensures few { IfOk result (λ made. length made.1.items ≤ MAX_SOURCES) }
    ensures marks { IfOk result (λ made. made.1.items ≡ replicate (source_count program.now.header.schema) program.now.header.clock.start) }
{
    let header = program.header();
    let marks = vec![in alloc; header.clock.start; header.schema.source_count()]?;
    Ok((Engines::open(alloc, program)?, marks))
}

// Sets the mark that a watermark is of.
fn raise(marks: &mut [i64], event: &Event)
    ensures { marks.new ≡ marks_with marks.old (event_of event.now) }
{
    if let Event::Watermark {
        source: Some(source),
        time,
    } = event
    {
        let source = usize::from(*source);
        if source < marks.len() {
            marks[source] = *time;
        }
    }
}
