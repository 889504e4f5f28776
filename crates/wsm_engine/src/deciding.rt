//! Deciding on events, and counting the records that were decided on elsewhere.

ghost use Rattle.std.specs.Prelude.{◌≡◌, ◌≤ℤ◌, ◌&&◌, Ok, List, [], pos};
ghost use Rattle.wsm_record.specs.declared.limits.TheConstants.{LATEST_TIME};
ghost use Rattle.wsm_record.specs.Event.{event_of};
ghost use Rattle.wsm_windows.specs.declared.window.Shape.{Shape as AnyShape};
ghost use Rattle.wsm_admission.specs.Clock.{IsTimely, IsWithinLimits, fits_declared};
ghost use Rattle.wsm_admission.specs.Admission.{Fits, IsInRange, after, decision, opened};
ghost use Rattle.wsm_engine.specs.Counts.{IsKnown, is_record};

use std::marker::Model;
use wsm_admission::{Admission, Admitted, Clock, Refusal};
use wsm_record::{Event, Schema};
use wsm_windows::Shape;

/// What is known of an event before it is decided on.
#[derive(Clone, Copy)]
pub enum Known {
    /// Whether its values fit the schema.
    Values(bool),
    /// That it is a record which no rule refuses.
    Taken,
}

/// An admission that counts a record which is known to be admitted, and looks at no rule for it.
#[derive(Drop)]
pub struct Decider {
    admission: Admission,
    // How many records are admitted at most.
    limit: u64,
    // Records that were known to be admitted. The admission doesn't count them.
    handed: u64,
    // Records that the limit refused with these, of which the admission doesn't know.
    limited: u64,
}

impl Model for Decider {
    ghost use Rattle.wsm_admission.specs.Admission.{State};

    ghost Value = { State };

    ghost use Rattle.wsm_engine.specs.Counts.{counts_of, IsCounted};

    ghost view = { counts_of };

    ghost invariant = { IsCounted };
}

impl Decider {
    /// Before the first event, with a watermark for each source of the schema.
    pub fn new(clock: Clock, schema: &Schema) -> Decider
        requires { IsWithinLimits clock }
        ensures opened { result ≡ opened clock schema.now }
        ensures fits { (shape : AnyShape) → Fits shape schema.now result [] }
    {
        Decider {
            admission: Admission::new(clock, schema),
            limit: clock.records as u64,
            handed: 0,
            limited: 0,
        }
    }

    /// The watermark, in event time: the least of those of the sources.
    pub fn mark(&self) -> i64
        ensures mark { result ≡ self.now.mark }
        ensures from { pos 0 ≤ℤ result }
        ensures to { result ≤ℤ LATEST_TIME }
    {
        self.admission.mark()
    }

    /// How many records were admitted.
    pub fn admitted(&self) -> u64
        ensures { result ≡ self.now.admitted }
    {
        self.admission.admitted() + self.handed
    }

    /// How many records were late, at most the greatest `u64`.
    pub fn late(&self) -> u64
        ensures { result ≡ self.now.late }
    {
        self.admission.late()
    }

    /// How many events were refused, without the late records, at most the greatest `u64`.
    pub fn refused(&self) -> u64
        ensures { result ≡ self.now.refused }
    {
        self.admission.refused().saturating_add(self.limited)
    }

    /// Decides on the next event: the first rule that refuses it, or what it does to the clock. A record that is known to be admitted
    /// is counted.
    pub fn decide(
        &mut self,
        schema: &Schema,
        shape: &Shape,
        event: &Event,
        known: Known,
    ) -> Result<Admitted, Refusal>
        requires timely { IsTimely self.old.clock.from_window shape.now }
        requires known { IsKnown shape.now schema.now self.old (event_of event.now) known }
        ensures decision { result ≡ decision shape.now schema.now self.old (event_of event.now) }
        ensures state { self.new ≡ after result (event_of event.now) self.old }
        ensures range { IsInRange self.new }
    {
        match known {
            Known::Values(fit) => self.decide_judged(schema, shape, event, fit),
            Known::Taken => {
                self.handed += 1;
                Ok(Admitted::Record)
            }
        }
    }

    // Decides on the next event by all rules. The admission goes by its own count, so the limit is looked at behind it. A record that
    // it took past the limit is refused: since it has counted that one, one less counts as handed over, so that their sum stays.
    fn decide_judged(
        &mut self,
        schema: &Schema,
        shape: &Shape,
        event: &Event,
        values_fit: bool,
    ) -> Result<Admitted, Refusal>
        requires timely { IsTimely self.old.clock.from_window shape.now }
        requires judged { values_fit ≡ fits_declared schema.now (event_of event.now) }
        ensures decision { result ≡ decision shape.now schema.now self.old (event_of event.now) }
        ensures state { self.new ≡ after result (event_of event.now) self.old }
        ensures range { IsInRange self.new }
    {
        let full = self.limit <= self.admission.admitted() + self.handed;
        let answer = self
            .admission
            .decide_judged(schema, shape, event, values_fit);
        if is_over(full, answer) {
            self.handed -= 1;
            self.limited = self.limited.saturating_add(1);
            return Err(Refusal::RecordLimit);
        }
        answer
    }
}

// Whether a record is taken where the limit is reached.
fn is_over(full: bool, answer: Result<Admitted, Refusal>) -> bool
    ensures { result ≡ (full && is_record answer) }
{
    match answer {
        Ok(Admitted::Record) => full,
        Ok(Admitted::Watermark { .. }) => false,
        Err(_) => false,
    }
}
