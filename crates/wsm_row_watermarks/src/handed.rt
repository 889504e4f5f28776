//! What goes on, as rows.

ghost use Rattle.std.specs.Prelude.{◌≡◌, ◌&&◌, ◌∷◌, if◌then◌else◌, List};
ghost use Rattle.std.specs.Int.{int_max};
ghost use Rattle.wsm_record.specs.Event.{Event as AnyEvent, event_of};
ghost use Rattle.wsm_windows.specs.Limits.{is_time as lies_in_time};
ghost use Rattle.wsm_admission.specs.Clock.{IsTimely, is_source, source_mark};
ghost use Rattle.wsm_admission.specs.declared.clock.Clock.{Clock as AnyClock};
ghost use Rattle.wsm_row_watermarks.specs.Latest.{later, latest_with};

use crate::times::Times;
use itoa::Buffer;
use std::alloc::{AllocError, Global};
use wsm_admission::Admission;
use wsm_log_rows::add_event;
use wsm_record::limits::LATEST_TIME;
use wsm_record::{Event, Schema};
use wsm_turns::Taker;
use wsm_windows::{Shape, is_time};

/// What takes the events that go on: the rows of those at the last line, and the watermarks of a query's sources.
#[derive(Drop)]
pub struct Handed {
    pub(crate) schema: Schema,
    shape: Shape,
    admission: Admission,
    // The watermark of the first source.
    first: i64,
    // The greatest time of the records that the clock takes.
    latest: Option<i64>,
    /// The number of the line.
    pub(crate) number: u64,
    /// The text of the line.
    pub(crate) line: Vec<u8>,
    /// The rows.
    pub(crate) text: Vec<u8>,
    ghost timely: { IsTimely admission.clock.from_window shape },
}

impl Handed {
    ghost use Rattle.std.specs.Prelude.{◌≡◌, ◌++◌, ◌==◌, ◌∷◌, [], ℕ, List, OnOk, length};
    ghost use Rattle.wsm_record.specs.Event.{Event as AnyEvent, event_of};
    ghost use Rattle.wsm_admission.specs.Admission.{counter};
    ghost use Rattle.wsm_admission.specs.Clock.{late_count};
    ghost use Rattle.wsm_turns.specs.Turns.{Setting, watermark};
    ghost use Rattle.wsm_row_watermarks.specs.Turns.{event_text, last_row, mark_row, record_text, source_text, with_feed};
    ghost use Rattle.wsm_row_watermarks.specs.Handed.{HearsOnly, Serves};
    ghost use Rattle.wsm_row_watermarks.specs.Latest.{latest_time};

    /// Before the first line.
    pub fn new(alloc: Global, schema: Schema, times: Times) -> Handed
        ensures serves { (w : Setting) → schema ≡ w.declared → times.clock ≡ w.clock → times.shape ≡ w.shape → Serves w result [] }
        ensures schema { result.schema ≡ schema }
    {
        Handed {
            admission: Admission::new(times.clock, &schema),
            schema,
            shape: times.shape,
            first: times.clock.start,
            latest: None,
            number: 0,
            line: Vec::new(alloc),
            text: Vec::new(alloc),
        }
    }

    /// Begins the turn of the line of a number, of which there is no text yet.
    pub fn begin(&mut self, number: u64)
        ensures number { self.new.number ≡ number }
        ensures line { self.new.line.items ≡ [] }
        ensures text { self.new.text.items ≡ [] }
        ensures others { self.new ≡ record self.old { number = number; line = self.new.line; text = self.new.text } }
    {
        self.number = number;
        self.line.clear();
        self.text.clear();
    }

    /// What the query declares.
    pub fn schema(&self) -> &Schema
        ensures { result.now ≡ self.now.schema }
    {
        &self.schema
    }

    /// Whether the line has no text.
    pub fn is_blank(&self) -> bool
        ensures { result ≡ (length self.now.line.items == 0) }
    {
        self.line.is_empty()
    }

    /// The watermark of the query.
    pub fn mark(&self) -> i64
        ensures { (w : Setting) (past : List AnyEvent) → Serves w self.now past → result ≡ watermark w past }
    {
        self.admission.mark()
    }

    /// How many records were late, at most the greatest `u64`.
    pub fn late(&self) -> u64
        ensures { (w : Setting) (past : List AnyEvent) → Serves w self.now past → result ≡ counter (late_count w.clock w.shape w.declared past) }
    {
        self.admission.late()
    }

    /// The greatest time of the records that the clock takes.
    pub fn latest(&self) -> Option<i64>
        ensures { (w : Setting) (past : List AnyEvent) → Serves w self.now past → result ≡ latest_time w.clock w.shape w.declared past }
    {
        self.latest
    }

    /// The line goes on.
    pub fn add_line(&mut self) -> Result<(), AllocError>
        ensures text { OnOk result (self.new.text.items ≡ self.old.text.items ++ with_feed self.old.line.items) }
        ensures others { self.new ≡ record self.old { text = self.new.text } }
    {
        if self.line.is_empty() {
            return Ok(());
        }
        self.text.extend_from_slice(&self.line)?;
        Ok(self.text.push(b'\n')?)
    }

    /// The line goes on, which is a watermark.
    pub fn add_marked_line(&mut self, event: &Event) -> Result<(), AllocError>
        ensures serves { (w : Setting) (past : List AnyEvent) → Serves w self.old past → OnOk result (Serves w self.new (event_of event.now ∷ past)) }
        ensures text { OnOk result (self.new.text.items ≡ self.old.text.items ++ with_feed self.old.line.items) }
    {
        self.hear(event);
        self.add_line()
    }

    // Takes note of an event, by which the watermark may rise, or which may be late or the latest.
    fn hear(&mut self, event: &Event)
        ensures serves { (w : Setting) (past : List AnyEvent) → Serves w self.old past → Serves w self.new (event_of event.now ∷ past) }
        ensures others { HearsOnly self.old self.new }
    {
        self.first = first_behind(self.first, event);
        let answer = self.admission.decide(&self.schema, &self.shape, event);
        self.latest = latest_behind(self.latest, event, answer.is_err());
    }

    // Adds the row of a record: the line, where it is the line's own.
    fn add_record(&mut self, own: bool, event: &Event) -> Result<(), AllocError>
        ensures text { OnOk result (self.new.text.items ≡ self.old.text.items ++ record_text self.old.schema self.old.line.items own (event_of event.now)) }
        ensures others { self.new ≡ record self.old { text = self.new.text } }
    {
        if own {
            self.add_line()
        } else {
            add_event(&self.schema, event, &mut self.text)
        }
    }

    // Adds the row of a watermark.
    fn add_mark(&mut self, time: i64) -> Result<(), AllocError>
        ensures text { OnOk result (self.new.text.items ≡ self.old.text.items ++ mark_row self.old.schema time) }
        ensures others { self.new ≡ record self.old { text = self.new.text } }
    {
        let mut digits = Buffer::new();
        self.text.extend_from_slice(b"w,")?;
        self.add_source()?;
        self.text.extend_from_slice(digits.format(time).as_bytes())?;
        Ok(self.text.push(b'\n')?)
    }

    /// Adds the row of the last watermark that there is, where it is asked for and hasn't come.
    pub fn add_last(&mut self, last: bool) -> Result<(), AllocError>
        ensures text { OnOk result (self.new.text.items ≡ self.old.text.items ++ last_row self.old.schema last self.old.first) }
        ensures others { self.new ≡ record self.old { text = self.new.text } }
    {
        if last && self.first < LATEST_TIME {
            self.add_mark(LATEST_TIME)
        } else {
            Ok(())
        }
    }

    // Adds the first source, if there are any.
    fn add_source(&mut self) -> Result<(), AllocError>
        ensures text { OnOk result (self.new.text.items ≡ self.old.text.items ++ source_text self.old.schema.sources) }
        ensures others { self.new ≡ record self.old { text = self.new.text } }
    {
        if self.schema.sources().len() == 0 {
            return Ok(());
        }
        self.text
            .extend_from_slice(self.schema.sources().text_of(0))?;
        Ok(self.text.push(b',')?)
    }

    // Adds the row of an event of the line of a number.
    fn add_event(&mut self, number: u64, event: &Event) -> Result<(), AllocError>
        ensures text { OnOk result (self.new.text.items ≡ self.old.text.items
            ++ event_text self.old.schema self.old.number self.old.line.items number (event_of event.now)) }
        ensures others { self.new ≡ record self.old { text = self.new.text } }
    {
        match event {
            Event::Record { .. } => self.add_record(number == self.number, event),
            Event::Watermark { time, .. } => self.add_mark(*time),
        }
    }
}

impl Taker for Handed {
    ghost use Rattle.wsm_row_watermarks.specs.Handed.{Took, Took-join, Took-none};

    ghost took = { Took };

    ghost none = { Took-none };

    ghost join = { Took-join };

    // Takes note of an event, and adds its row.
    fn take(&mut self, number: u64, event: &Event) -> Result<(), AllocError> {
        self.hear(event);
        self.add_event(number, event)
    }
}

// The greatest time that is taken behind an event.
fn latest_behind(latest: Option<i64>, event: &Event, is_refused: bool) -> Option<i64>
    ensures { result ≡ latest_with latest (event_of event.now) is_refused }
{
    match event {
        Event::Record { time, .. } => {
            if is_refused {
                latest
            } else {
                later(latest, *time)
            }
        }
        Event::Watermark { .. } => latest,
    }
}

// The later of two times.
fn later(latest: Option<i64>, time: i64) -> Option<i64>
    ensures { result ≡ later latest time }
{
    match latest {
        None => Some(time),
        Some(before) => Some(before.max(time)),
    }
}

// The watermark of the first source behind an event.
fn first_behind(first: i64, event: &Event) -> i64
    ensures { (c : AnyClock) (past : List AnyEvent) → first ≡ source_mark c 0 past → result ≡ source_mark c 0 (event_of event.now ∷ past) }
{
    match event {
        Event::Record { .. } => first,
        Event::Watermark { source, time } => first_with(first, *source, *time),
    }
}

// The same behind a watermark of a source.
fn first_with(first: i64, source: Option<u16>, time: i64) -> i64
    ensures { result ≡ (if is_source 0 source && lies_in_time time then int_max first time else first) }
{
    if source == Some(0) && is_time(time) {
        first.max(time)
    } else {
        first
    }
}
