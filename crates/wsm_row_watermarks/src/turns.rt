//! What the lines so far come to.

ghost use Rattle.std.specs.Prelude.{◌≡◌, ◌<◌, ◌^◌, IfOk, Option, List, option_map};
ghost use Rattle.wsm_record.specs.Event.{Event as AnyEvent};
ghost use Rattle.wsm_doubles.specs.Memory.{Memory};
ghost use Rattle.wsm_turns.specs.Known.{Passes, Remembers};
ghost use Rattle.wsm_turns.specs.Turns.{Setting, watermark};
ghost use Rattle.wsm_row_watermarks.specs.Handed.{Serves};
ghost use Rattle.wsm_row_watermarks.specs.Turns.{told_at};

use crate::counts::{Counts, Totals};
use crate::handed::Handed;
use crate::pieces::write_lines;
use crate::row::Row;
use crate::text::text_of;
use crate::times::Times;
use std::alloc::{AllocError, Global};
use wsm_csv::{Device, DeviceFault, EventReader, RowRefusal};
use wsm_record::{Event, Schema};
use wsm_turns::{
    Clocks, Identifiers, Listener, Stamp, Taker, Waiting, clocks_heard, open_clocks, stamp_judged,
    take_mark, take_record, take_rest, tell_heard,
};
use wsm_windows::is_time;

/// What takes lines of rows one behind the other. It has the rows that go on for the last one.
pub struct RowTurns {
    handed: Handed,
    events: EventReader,
    row: Row,
    waiting: Option<Waiting>,
    identifiers: Identifiers,
    once: Option<usize>,
    counts: Counts,
}

impl Drop for RowTurns {
    fn drop(self) {
        let RowTurns {
            handed: _,
            events: _,
            row: _,
            waiting: _,
            identifiers: _,
            once: _,
            counts: _,
        } = self;
    }
}

impl RowTurns {
    ghost use Rattle.std.specs.Prelude.{◌≡◌, ◌++◌, ◌+◌, ◌<◌, ◌^◌, ◌∷◌, [], true, false, List, ℕ, ℤ, Option, Some, None, Ok, Err, IfOk, OnErr, OnOk, length};
    ghost use Rattle.std.specs.Io.KnownBytes.{Appends};
    ghost use Rattle.wsm_record.specs.declared.event.RowFault.{RowFault};
    ghost use Rattle.wsm_record.specs.Event.{Watermark};
    ghost use Rattle.wsm_csv.specs.Device.{TakesPart};
    ghost use Rattle.wsm_csv.specs.EventReader.{event_read};
    ghost use Rattle.wsm_watermarks.specs.declared.stamp.Stamp.{Stamp as AnyStamp};
    ghost use Rattle.wsm_turns.specs.declared.clocks.Clocks.{Clocks as AnyClocks};
    ghost use Rattle.wsm_turns.specs.Clocks.{AreClocks};
    ghost use Rattle.wsm_turns.specs.Turns.{Setting, stamp_of};
    ghost use Rattle.wsm_row_watermarks.specs.Fits.{Begins, Ends, Fits, Goes, IsJudged, Turned, spoken_read};
    ghost use Rattle.wsm_row_watermarks.specs.Lines.{Line, line_of};
    ghost use Rattle.wsm_row_watermarks.specs.Turns.{State, is_left_out, is_unread, marked, recorded, row_turn};

    /// Before the first line.
    pub fn open(
        alloc: Global,
        schema: Schema,
        times: Times,
        clocks: Option<Clocks>,
        once: Option<usize>,
    ) -> Result<RowTurns, AllocError>
        requires { AreClocks clocks }
        ensures { IfOk result (λ t. Fits (record { clocks = clocks; declared = schema; clock = times.clock; shape = times.shape }) once t []) }
    {
        let waiting = open_clocks(alloc, clocks, schema.key_count())?;
        Ok(RowTurns {
            handed: Handed::new(alloc, schema, times),
            events: EventReader::new(alloc),
            row: Row::new(alloc),
            waiting,
            identifiers: Identifiers::new(alloc, times.clock, times.shape),
            once,
            counts: Counts {
                lines: 0,
                unread: 0,
                doubles: 0,
            },
        })
    }

    /// Takes the turn of a line. The rows are then those that go on for it.
    pub fn take(&mut self, line: &[u8]) -> Result<(), AllocError>
        ensures { (w : Setting) (once : Option ℕ) (before : List (List ℕ)) → Fits w once self.old before →
            OnOk result (Turned w once self.new before line.now) }
    {
        let Some(number) = self.counts.lines.checked_add(1) else {
            return Err(AllocError);
        };
        let first = self.counts.lines == 0;
        self.counts.lines = number;
        self.handed.begin(number);
        match text_of(first, line) {
            Some(text) => self.take_text(text),
            None => self.refuse_line(),
        }
    }

    // A line that would not be one row goes on as one that says so.
    fn refuse_line(&mut self) -> Result<(), AllocError>
        ensures { (w : Setting) (s : State) → Begins w self.old s [] →
            OnOk result (let line = line_of w.declared self.old.once None in Goes w self.old self.new (row_turn w s self.old.counts.lines line)
            (is_unread line) false) }
    {
        let handed = &mut self.handed;
        handed.line.extend_from_slice(b"unread")?;
        self.refuse()
    }

    // Takes the turn of the text of a line.
    fn take_text(&mut self, text: &[u8]) -> Result<(), AllocError>
        ensures { (w : Setting) (s : State) → Begins w self.old s [] →
            OnOk result (let line = line_of w.declared self.old.once (Some text.now) in Goes w self.old self.new (row_turn w s self.old.counts.lines line)
            (is_unread line) (is_left_out w s line.said)) }
    {
        let handed = &mut self.handed;
        self.row.read(self.once, text, &mut handed.line)?;
        match self.events.read(self.handed.schema(), self.row.cells()) {
            Ok(()) => self.serve(),
            Err(RowRefusal::Fault(_)) => self.refuse(),
            Err(RowRefusal::Memory) => Err(AllocError),
        }
    }

    // The turn of a line that is no row.
    fn refuse(&mut self) -> Result<(), AllocError>
        ensures { (w : Setting) (s : State) (line : Line) (why : RowFault) → line.said ≡ Err why → Begins w self.old s line.text →
            OnOk result (Goes w self.old self.new (row_turn w s self.old.counts.lines line) (is_unread line) false) }
    {
        if !self.handed.is_blank() {
            self.counts.unread = self.counts.unread.saturating_add(1);
        }
        self.handed.add_line()
    }

    // The turn of the event that was read.
    fn serve(&mut self) -> Result<(), AllocError>
        requires { IsJudged self.old }
        ensures { (w : Setting) (s : State) (line : Line) → line.said ≡ Ok (spoken_read self.old) → Begins w self.old s line.text →
            OnOk result (Goes w self.old self.new (row_turn w s self.old.counts.lines line) false (is_left_out w s line.said)) }
    {
        match self.events.event() {
            Event::Record { .. } => self.serve_record(),
            Event::Watermark { source, time } => {
                let told = told_at(*source, *time);
                self.serve_mark(told)
            }
        }
    }

    // The turn of a watermark, which counts as told where it has a time.
    fn serve_mark(&mut self, told: Option<u64>) -> Result<(), AllocError>
        ensures { (w : Setting) (s : State) (line : Line) (source : Option ℕ) (time : ℤ) → event_read self.old.events ≡ Watermark source time →
            Begins w self.old s line.text →
            OnOk result (Goes w self.old self.new (marked w s self.old.counts.lines line (Watermark source time) told) false false) }
    {
        match told {
            None => self.handed.add_marked_line(self.events.event()),
            Some(mark) => self.serve_told(mark),
        }
    }

    // The turn of a watermark that counts as told: what waits and isn't ahead of it goes in front of it.
    fn serve_told(&mut self, mark: u64) -> Result<(), AllocError>
        ensures { (w : Setting) (s : State) (line : Line) (source : Option ℕ) (time : ℤ) → event_read self.old.events ≡ Watermark source time →
            Begins w self.old s line.text →
            OnOk result (Goes w self.old self.new (marked w s self.old.counts.lines line (Watermark source time) (Some mark)) false false) }
    {
        take_mark(&mut self.waiting, mark, self.counts.lines, &mut self.handed)?;
        self.handed.add_marked_line(self.events.event())
    }

    // The turn of a record.
    fn serve_record(&mut self) -> Result<(), AllocError>
        requires { IsJudged self.old }
        ensures { (w : Setting) (s : State) (line : Line) → Begins w self.old s line.text →
            OnOk result (let x = spoken_read self.old in Goes w self.old self.new (recorded w s self.old.counts.lines line x) false (is_left_out w s (Ok x))) }
    {
        let values_fit = self.events.values_fit();
        match stamp_judged(self.handed.schema(), self.events.event(), values_fit) {
            None => self.handed.take(self.counts.lines, self.events.event()),
            Some(stamp) => self.serve_stamped(stamp),
        }
    }

    // The turn of a record with its stamp.
    fn serve_stamped(&mut self, stamp: Stamp) -> Result<(), AllocError>
        requires { stamp.time < 2 ^ 63 }
        ensures { (w : Setting) (s : State) (line : Line) → stamp_of w.declared (event_read self.old.events) ≡ Some stamp → Begins w self.old s line.text →
            OnOk result (let x = spoken_read self.old in Goes w self.old self.new (recorded w s self.old.counts.lines line x) false (is_left_out w s (Ok x))) }
    {
        let is_new = passes(
            self.row.identifier(),
            stamp.time,
            &self.handed,
            &mut self.identifiers,
        )?;
        if !is_new {
            self.counts.doubles = self.counts.doubles.saturating_add(1);
            return Ok(());
        }
        take_record(
            &mut self.waiting,
            stamp,
            self.counts.lines,
            self.events.event(),
            &mut self.handed,
        )
    }

    /// Ends the turns. The rows are then those of the records that waited, and the last watermark that there is, where it is asked for.
    pub fn end(&mut self, last: bool) -> Result<Totals, AllocError>
        ensures { (w : Setting) (once : Option ℕ) (lines : List (List ℕ)) → Fits w once self.old lines → IfOk result (Ends w once last self.new lines) }
    {
        self.handed.begin(0);
        take_rest(&self.waiting, &mut self.handed)?;
        self.handed.add_last(last)?;
        Ok(Totals {
            counts: self.counts,
            late: self.handed.late(),
            latest: self.handed.latest(),
            mark: self.handed.mark(),
            heard: clocks_heard(&self.waiting),
        })
    }

    /// Tells a listener what the clocks have come to, where there are any and it is told after as many lines.
    pub fn tell<L: Listener>(&self, listener: &mut L) {
        tell_heard(&self.waiting, self.counts.lines, listener);
    }

    /// Gives a device the rows. Where it can't, it took a beginning of them and has failed.
    pub fn write<D: Device>(&self, out: &mut D) -> Result<(), DeviceFault>
        requires { D.has_failed out.old ≡ false }
        ensures all { OnOk result (Appends (D.taken out.old) (D.taken out.new) self.now.handed.text.items) }
        ensures works { OnOk result (D.has_failed out.new ≡ false) }
        ensures part { OnErr result (TakesPart (D.taken out.old) (D.taken out.new) self.now.handed.text.items) }
        ensures fails { OnErr result (D.has_failed out.new ≡ true) }
    {
        write_lines(out, &self.handed.text)
    }
}

// The time of a watermark that counts as told.
fn told_at(source: Option<u16>, time: i64) -> Option<u64>
    ensures { result ≡ told_at source time }
{
    if source == Some(0) && is_time(time) {
        Some(time.unsigned_abs())
    } else {
        None
    }
}

// Whether a record with an identifier, if it has one, passes. Takes note of it then.
fn passes(
    identifier: Option<&[u8]>,
    time: u64,
    handed: &Handed,
    identifiers: &mut Identifiers,
) -> Result<bool, AllocError>
    requires { time < 2 ^ 63 }
    ensures { (w : Setting) (past : List AnyEvent) (memory : Memory) → Serves w handed.now past → Remembers w (watermark w past) identifiers.old memory →
        IfOk result (Passes w (watermark w past) identifiers.new (option_map (λ t. t.now) identifier.entry) time memory) }
{
    match identifier {
        Some(identifier) => identifiers.pass(identifier, time, handed.mark()),
        None => Ok(true),
    }
}
