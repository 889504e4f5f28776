//! Events of lines.

ghost use Rattle.std.specs.Prelude.{◌≡◌, IfOk};
ghost use Rattle.wsm_record.specs.Event.{event_of};

use crate::taker::Taker;
use std::alloc::AllocError;
use std::marker::Model;
use wsm_record::Event;

/// An event, by the number of its line.
#[derive(Drop)]
pub struct LineEvent {
    number: u64,
    event: Event,
}

impl Model for LineEvent {
    ghost use Rattle.wsm_record.specs.Event.{event_of};
    ghost use Rattle.wsm_turns.specs.Numbered.{Numbered};

    ghost Value = { Numbered };

    ghost view = { λ a. record { number = a.number; event = event_of a.event } };
}

impl LineEvent {
    ghost use Rattle.std.specs.Prelude.{◌≡◌, [], ◌∷◌, IfOk, OnOk};
    ghost use Rattle.wsm_record.specs.Event.{event_of};

    /// The event of the line of a number, in memory of its own.
    pub fn copied(number: u64, event: &Event) -> Result<LineEvent, AllocError>
        ensures { IfOk result (λ e. e ≡ record { number = number; event = event_of event.now }) }
    {
        Ok(LineEvent {
            number,
            event: copied(event)?,
        })
    }

    /// The number of its line.
    pub fn number(&self) -> u64
        ensures { result ≡ self.now.number }
    {
        self.number
    }

    /// The event.
    pub fn event(&self) -> &Event
        ensures { event_of result.now ≡ self.now.event }
    {
        &self.event
    }

    /// Hands it on.
    pub fn hand<T: Taker>(&self, taker: &mut T) -> Result<(), AllocError>
        ensures { OnOk result (T.took taker.old taker.new (self.now ∷ [])) }
    {
        taker.take(self.number, &self.event)
    }
}

// The same event, in memory of its own.
fn copied(event: &Event) -> Result<Event, AllocError>
    ensures { IfOk result (λ e. event_of e ≡ event_of event.now) }
{
    match event {
        Event::Record { key, time, values } => Ok(Event::Record {
            key: *key,
            time: *time,
            values: values.clone()?,
        }),
        Event::Watermark { source, time } => Ok(Event::Watermark {
            source: *source,
            time: *time,
        }),
    }
}
