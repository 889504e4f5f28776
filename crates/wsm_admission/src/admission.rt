//! What is kept of the events so far, and the decision on the next.

ghost use Rattle.std.specs.Prelude.{◌≡◌, ◌≤ℤ◌, IsTrue, List, [], ◌∷◌, false, Ok, Err, None, nat_le, pos, unsigned_abs, length, slice_set, ◌<◌};
ghost use Rattle.wsm_record.specs.Event.{Event as AnyEvent, event_of};
ghost use Rattle.wsm_record.specs.Schema.{fit_fields};
ghost use Rattle.wsm_record.specs.declared.event.Value.{Value};
ghost use Rattle.wsm_admission.specs.Clock.{IsTimely, IsWithinLimits, fits_declared, record_refusal, watermark_refusal, verdict_at, least};
ghost use Rattle.wsm_record.specs.declared.limits.TheConstants.{LATEST_TIME};
ghost use Rattle.wsm_windows.specs.Limits.{is_time as lies_in_time};
ghost use Rattle.wsm_windows.specs.declared.window.Shape.{Shape as AnyShape};
ghost use Rattle.wsm_windows.specs.Windows.{IsTime};
ghost use Rattle.wsm_admission.specs.Clock.{is_key as is_declared_key};
ghost use Rattle.wsm_admission.specs.Clock.{is_too_far_ahead, is_late};
ghost use Rattle.wsm_admission.specs.Admission.{Decides, Fits, IsInRange, opened, after};
ghost use Rattle.wsm_admission.specs.Admission.{answer, marks_with, MayTake};

use crate::clock::Clock;
use crate::marks::Marks;
use crate::verdict::{Admitted, Refusal};
use std::marker::Model;
use wsm_record::{Event, Schema};
use wsm_windows::{Shape, is_time, live_windows_of};

/// The watermarks and the counts of the events so far.
#[derive(Debug, Drop)]
pub struct Admission {
    clock: Clock,
    // Of each source.
    marks: Marks,
    // The least of them.
    mark: i64,
    admitted: u64,
    late: u64,
    refused: u64,
}

impl Model for Admission {
    ghost use Rattle.wsm_admission.specs.Admission.{State, IsInRange};

    ghost Value = { State };

    ghost view = { λ a. record {
      clock = a.clock;
      marks = a.marks;
      mark = a.mark;
      admitted = a.admitted;
      late = a.late;
      refused = a.refused;
    } };

    ghost invariant = { λ a. IsInRange (record {
      clock = a.clock;
      marks = a.marks;
      mark = a.mark;
      admitted = a.admitted;
      late = a.late;
      refused = a.refused;
    }) };
}

impl Admission {
    /// Before the first event, with a watermark for each source of the schema.
    pub fn new(clock: Clock, schema: &Schema) -> Admission
        requires { IsWithinLimits clock }
        ensures opened { result ≡ opened clock schema.now }
        ensures fits { (shape : AnyShape) → Fits shape schema.now result [] }
    {
        Admission {
            clock,
            marks: Marks::new(clock.start, schema.source_count() as u8),
            mark: clock.start,
            admitted: 0,
            late: 0,
            refused: 0,
        }
    }

    /// The watermark, in event time: the least of those of the sources.
    pub fn mark(&self) -> i64
        ensures mark { result ≡ self.now.mark }
        ensures from { pos 0 ≤ℤ result }
        ensures to { result ≤ℤ LATEST_TIME }
    {
        self.mark
    }

    /// How many records were admitted.
    pub fn admitted(&self) -> u64
        ensures { result ≡ self.now.admitted }
    {
        self.admitted
    }

    /// How many records were late, at most the greatest `u64`.
    pub fn late(&self) -> u64
        ensures { result ≡ self.now.late }
    {
        self.late
    }

    /// How many events were refused, without the late records, at most the greatest `u64`.
    pub fn refused(&self) -> u64
        ensures { result ≡ self.now.refused }
    {
        self.refused
    }

    /// Decides on the next event: the first rule that refuses it, or what it does to the clock. A
    /// refusal changes one counter alone: that of the late records, or that of all others refused.
    pub fn decide(
        &mut self,
        schema: &Schema,
        shape: &Shape,
        event: &Event,
    ) -> Result<Admitted, Refusal>
        requires { IsTimely self.old.clock.from_window shape.now }
        ensures { Decides shape.now schema.now self.old self.new (event_of event.now) result }
    {
        self.decide_judged(schema, shape, event, has_fitting_values(schema, event))
    }

    /// Decides on the next event, as [`decide`](Admission::decide) does, where whoever has read it
    /// knows whether its values fit the schema: then no value is looked at.
    #[inline(always)]
    pub fn decide_judged(
        &mut self,
        schema: &Schema,
        shape: &Shape,
        event: &Event,
        values_fit: bool,
    ) -> Result<Admitted, Refusal>
        requires timely { IsTimely self.old.clock.from_window shape.now }
        requires judged { values_fit ≡ fits_declared schema.now (event_of event.now) }
        ensures { Decides shape.now schema.now self.old self.new (event_of event.now) result }
    {
        // The rules lean on the clock's limits, which a look at it makes known. Nothing is done.
        let _ = &self.clock;
        match self.refusal(schema, shape, event, values_fit) {
            None => Ok(self.take(event)),
            Some(refusal) => {
                self.count(refusal);
                Err(refusal)
            }
        }
    }

    // Counts a refusal.
    fn count(&mut self, refusal: Refusal)
        ensures { (e : AnyEvent) → self.new ≡ after (Err refusal) e self.old }
    {
        match refusal {
            Refusal::Late => self.late = self.late.saturating_add(1),
            _ => self.refused = self.refused.saturating_add(1),
        }
    }

    // Takes an event that no rule refuses.
    fn take(&mut self, event: &Event) -> Admitted
        requires { MayTake self.old (event_of event.now) }
        ensures answer { Ok result ≡ answer self.old.mark (least (marks_with self.old.marks (event_of event.now))) (event_of event.now) None }
        ensures state { self.new ≡ after (Ok result) (event_of event.now) self.old }
    {
        match event {
            Event::Record { .. } => {
                self.admitted += 1;
                Admitted::Record
            }
            Event::Watermark {
                source: Some(source),
                time,
            } => self.raise(*source, *time),
            // No rule lets it pass.
            Event::Watermark { source: None, .. } => Admitted::Record,
        }
    }

    // Sets the watermark of a source.
    fn raise(&mut self, source: u16, time: i64) -> Admitted
        requires source { source < length self.old.marks }
        requires time { IsTime time }
        ensures answer { result ≡ Admitted.Watermark self.old.mark (least (slice_set self.old.marks source time)) }
        ensures state { self.new ≡ record self.old { marks = slice_set self.old.marks source time; mark = least (slice_set self.old.marks source time) } }
    {
        let old = self.mark;
        self.marks.set(source, time);
        self.mark = self.marks.least();
        let new = self.mark;
        Admitted::Watermark { old, new }
    }

    // The first rule that refuses the event, or none.
    #[inline(always)]
    fn refusal(
        &self,
        schema: &Schema,
        shape: &Shape,
        event: &Event,
        values_fit: bool,
    ) -> Option<Refusal>
        requires timely { IsTimely self.now.clock.from_window shape.now }
        requires judged { values_fit ≡ fits_declared schema.now (event_of event.now) }
        ensures { result ≡ verdict_at self.now.clock shape.now schema.now self.now.marks self.now.admitted (event_of event.now) }
    {
        match event {
            Event::Record { key, time, .. } => {
                self.try_record(schema, shape, *key, *time, values_fit)
            }
            Event::Watermark { source, time } => try_watermark(self.marks.of(*source), *time),
        }
    }

    #[inline(always)]
    fn try_record(
        &self,
        schema: &Schema,
        shape: &Shape,
        key: Option<u32>,
        time: i64,
        values_fit: bool,
    ) -> Option<Refusal>
        requires { IsTimely self.now.clock.from_window shape.now }
        ensures { (values : List Value) → values_fit ≡ fit_fields schema.now.fields values →
            result ≡ record_refusal self.now.clock shape.now schema.now self.now.mark self.now.admitted key time values }
    {
        if !is_key(schema, key) {
            Some(Refusal::UnknownKey)
        } else if !values_fit {
            Some(Refusal::FieldRange)
        } else if !is_time(time) {
            Some(Refusal::TimeRange)
        } else if self.is_too_far_ahead(time) {
            Some(Refusal::TooFarAhead)
        } else if self.is_late(shape, time) {
            Some(Refusal::Late)
        } else if self.is_full() {
            Some(Refusal::RecordLimit)
        } else {
            None
        }
    }

    // Whether a record is further ahead of the watermark than the skew.
    fn is_too_far_ahead(&self, time: i64) -> bool
        ensures { result ≡ is_too_far_ahead self.now.clock self.now.mark time }
    {
        time > self.mark + self.clock.skew
    }

    // Whether a record is late.
    fn is_late(&self, shape: &Shape, time: i64) -> bool
        requires time { IsTrue (lies_in_time time) }
        requires timely { IsTimely self.now.clock.from_window shape.now }
        ensures { result ≡ is_late self.now.clock shape.now self.now.mark time }
    {
        let lateness = self.clock.lateness;
        if !self.clock.from_window {
            return time + lateness < self.mark;
        }
        live_windows_of(*shape, time, lateness, self.mark)
            .next()
            .is_none()
    }

    // Whether as many records as the limit were admitted.
    fn is_full(&self) -> bool
        ensures { result ≡ nat_le (unsigned_abs self.now.clock.records) self.now.admitted }
    {
        self.clock.records as u64 <= self.admitted
    }
}

// The first rule that refuses a watermark, where its source has a mark, or none.
fn try_watermark(mark: Option<i64>, time: i64) -> Option<Refusal>
    ensures { result ≡ watermark_refusal mark time }
{
    let Some(mark) = mark else {
        return Some(Refusal::UnknownSource);
    };
    if !is_time(time) {
        Some(Refusal::TimeRange)
    } else if time <= mark {
        Some(Refusal::NotRising)
    } else {
        None
    }
}

// Whether it is the number of a declared key.
fn is_key(schema: &Schema, key: Option<u32>) -> bool
    ensures { result ≡ is_declared_key schema.now key }
{
    match key {
        Some(key) => (key as usize) < schema.key_count(),
        None => false,
    }
}

/// Whether the values of an event are one of each declared field, as the schema judges them. A
/// watermark has none, and none to judge.
pub fn has_fitting_values(schema: &Schema, event: &Event) -> bool
    ensures { result ≡ fits_declared schema.now (event_of event.now) }
{
    match event {
        Event::Record { values, .. } => schema.fits(values),
        Event::Watermark { .. } => true,
    }
}
