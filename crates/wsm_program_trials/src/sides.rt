//! The machine that looks for each trap, and the one of verified programs, side by side.

use std::alloc::{AllocError, Global};
use wsm_bytecode::{Header, SectionId};
use wsm_csv::{Rows, read_row};
use wsm_engine::Engine;
use wsm_machine::{Fired, Inputs, Kept, Machine, Outcome, Ran, Updated, run_any};
use wsm_record::{Cell, Event, Kind, Value};
use wsm_verifier::Verified;
use wsm_windows::Shape;

/// More rows than any trial has.
const MOST_ROWS: usize = 100;

/// Both machines for a verified program. Each run is one of both, on inputs that are in range and fit
/// all sections; it is answered where both come to the section's return in as many steps, with the
/// same values.
#[derive(Drop)]
pub struct Sides<'a> {
    alloc: Global,
    verified: &'a Verified,
    machine: Machine,
    /// How many runs were answered.
    pub runs: u32,
}

impl<'a> Sides<'a> {
    pub fn open(alloc: Global, verified: &'a Verified) -> Sides<'a> {
        Sides {
            alloc,
            verified,
            machine: Machine::open(alloc),
            runs: 0,
        }
    }

    // A run that looks for each trap, and comes to its return.
    fn returned(&self, section: SectionId, inputs: &Inputs) -> Option<Ran> {
        let program = self.verified.program();
        if !inputs.fits(program) {
            return None;
        }
        let ran = run_any(self.alloc, program, section, inputs);
        match ran.outcome {
            Outcome::Done => Some(ran),
            Outcome::Trap(_) => None,
        }
    }

    /// What WHERE answers of a record.
    pub fn keep(&mut self, inputs: &Inputs) -> Option<Kept> {
        let ran = self.returned(SectionId::Where, inputs)?;
        if !inputs.in_range(self.verified, SectionId::Where) {
            return None;
        }
        let kept = self.machine.keep(self.verified, inputs);
        if ran.steps != kept.steps || !leaves(&ran, &[], kept.keeps) {
            return None;
        }
        self.runs = self.runs.saturating_add(1);
        Some(kept)
    }

    /// What UPDATE answers of a record.
    pub fn update(&mut self, inputs: &Inputs) -> Option<Updated<'_>> {
        let ran = self.returned(SectionId::Update, inputs)?;
        if !inputs.in_range(self.verified, SectionId::Update) {
            return None;
        }
        let updated = self.machine.update(self.verified, inputs);
        if ran.steps != updated.steps || !folds(&ran, updated.values) {
            return None;
        }
        self.runs = self.runs.saturating_add(1);
        Some(updated)
    }

    /// What FIRE answers of a pane.
    pub fn fire(&mut self, inputs: &Inputs) -> Option<Fired<'_>> {
        let ran = self.returned(SectionId::Fire, inputs)?;
        if !inputs.in_range(self.verified, SectionId::Fire) {
            return None;
        }
        let fired = self.machine.fire(self.verified, inputs);
        if ran.steps != fired.steps || !leaves(&ran, fired.columns, fired.emits) {
            return None;
        }
        self.runs = self.runs.saturating_add(1);
        Some(fired)
    }

    /// Whether each record of a text is answered by WHERE, and where it is kept by UPDATE, and then
    /// FIRE with its key and what all records that were kept so far come to. Records that aren't of
    /// the program's types and intervals are left out, and those past RECORDS. An engine that was
    /// opened with the program is fed the rows; each record that it admits must cost what these runs
    /// took.
    pub fn answer(&mut self, engine: &mut Engine, text: &[u8]) -> bool {
        let header = self.verified.program().header();
        let Ok(mut pane) = Pane::open(self.alloc, header) else {
            return false;
        };
        let mut rows = Rows::new(self.alloc, text);
        for _ in 0..MOST_ROWS {
            match rows.advance() {
                Ok(true) => (),
                Ok(false) => return true,
                Err(_) => return false,
            }
            let Ok(event) = read_row(self.alloc, &header.schema, rows.row()) else {
                continue;
            };
            if !self.answer_event(engine, &event, &mut pane) {
                return false;
            }
        }
        false
    }

    // The same of one row's event.
    fn answer_event(&mut self, engine: &mut Engine, event: &Event, pane: &mut Pane) -> bool {
        let header = self.verified.program().header();
        let reply = engine.feed(event);
        let (key, time, values) = match event {
            Event::Record {
                key: Some(key),
                time,
                values,
            } => (key, time, values),
            Event::Record { key: None, .. } => return true,
            Event::Watermark { time, .. } => {
                if reply.refusal.is_none() {
                    pane.mark = *time;
                }
                return true;
            }
        };
        if !header.schema.fits(values) || pane.count >= header.clock.records {
            return true;
        }
        // No engine has a key beyond these.
        let Ok(key) = u16::try_from(*key) else {
            return true;
        };
        let Some(cost) = self.answer_record(key, values, pane) else {
            return false;
        };
        reply.refusal.is_some() || cost.comes_to(header, pane.mark, *time, reply.record_steps)
    }

    // What WHERE and UPDATE cost for a record.
    fn answer_record(&mut self, key: u16, values: &[Value], pane: &mut Pane) -> Option<Cost> {
        let verified = self.verified;
        let inputs = pane.inputs(key, values);
        let kept = self.keep(&inputs)?;
        if !kept.keeps {
            return Some(Cost {
                selection: kept.steps,
                update: None,
            });
        }
        let updated = self.update(&inputs)?;
        let cost = Cost {
            selection: kept.steps,
            update: Some(updated.steps),
        };
        pane.add(&verified.program().header().kinds, updated.values);
        self.fire(&pane.inputs(key, values))?;
        Some(cost)
    }
}

// What WHERE takes of a record, and UPDATE for one window where the record is kept.
#[derive(Clone, Copy)]
struct Cost {
    selection: u64,
    update: Option<u64>,
}

impl Cost {
    // Whether a record of a time costs so many steps at a mark: UPDATE runs for each window that it enters.
    // Where two sessions are joined, each accumulator costs a step more.
    fn comes_to(self, header: &Header, mark: i64, time: i64, steps: u64) -> bool {
        let Some(update) = self.update else {
            return steps == self.selection;
        };
        let Some(windows) = windows(header, mark, time) else {
            return false;
        };
        let least = self
            .selection
            .saturating_add(update.saturating_mul(windows));
        match header.shape {
            Shape::Fixed(_) | Shape::Sliding(..) => steps == least,
            Shape::Session(_) => {
                steps == least || steps == least.saturating_add(header.kinds.len() as u64)
            }
        }
    }
}

// How many windows a record of a time enters at a mark. Those that slide start at multiples of the period,
// of which the last is up to the time; they end past the time, and past the mark less the lateness.
fn windows(header: &Header, mark: i64, time: i64) -> Option<u64> {
    match header.shape {
        Shape::Fixed(_) | Shape::Session(_) => Some(1),
        Shape::Sliding(size, period) => {
            let expired = mark.checked_sub(header.clock.lateness)?;
            let first = time.max(expired).checked_sub(size)?;
            let starts = time
                .checked_div_euclid(period)?
                .checked_sub(first.checked_div_euclid(period)?)?;
            u64::try_from(starts).ok()
        }
    }
}

// Whether a run leaves a row and a truth above it.
fn leaves(ran: &Ran, row: &[Cell], truth: bool) -> bool {
    match ran.stack.cells().split_last() {
        Some((top, under)) => *top == Cell::Bool(truth) && under == row,
        None => false,
    }
}

// Whether a run folds a value into each accumulator.
fn folds(ran: &Ran, values: &[Value]) -> bool {
    let folded = ran.folds.values();
    folded.len() == values.len()
        && folded
            .iter()
            .zip(values.iter())
            .all(|(fold, value)| *fold == Some(*value))
}

// What records come to.
#[derive(Drop)]
struct Pane {
    // The watermark of the only source.
    mark: i64,
    count: i64,
    accs: Vec<Value>,
}

impl Pane {
    fn open(alloc: Global, header: &Header) -> Result<Pane, AllocError> {
        let mut accs = Vec::new(alloc);
        for kind in &header.kinds {
            accs.push(match kind {
                Kind::Sum | Kind::Min | Kind::Max => Value::Int(0),
                Kind::Any | Kind::All => Value::Bool(false),
            })?;
        }
        Ok(Pane {
            mark: header.clock.start,
            count: 0,
            accs,
        })
    }

    fn inputs<'a>(&'a self, key: u16, values: &'a [Value]) -> Inputs<'a> {
        Inputs {
            key,
            values,
            count: self.count,
            accs: &self.accs,
        }
    }

    // Folds the values of one more record.
    fn add(&mut self, kinds: &[Kind], values: &[Value]) {
        for (place, acc) in self.accs.iter_mut().enumerate() {
            if let (Some(kind), Some(value)) = (kinds.get(place), values.get(place)) {
                *acc = if self.count == 0 {
                    *value
                } else {
                    joined(*kind, *acc, *value)
                };
            }
        }
        self.count = self.count.saturating_add(1);
    }
}

fn joined(kind: Kind, left: Value, right: Value) -> Value {
    match (kind, left, right) {
        (Kind::Sum, Value::Int(x), Value::Int(y)) => Value::Int(x.saturating_add(y)),
        (Kind::Min, Value::Int(x), Value::Int(y)) => Value::Int(x.min(y)),
        (Kind::Max, Value::Int(x), Value::Int(y)) => Value::Int(x.max(y)),
        (Kind::Any, Value::Bool(x), Value::Bool(y)) => Value::Bool(x || y),
        (Kind::All, Value::Bool(x), Value::Bool(y)) => Value::Bool(x && y),
        (_, left, _) => left,
    }
}
