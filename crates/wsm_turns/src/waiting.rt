//! Records that wait for the clocks of a log.

ghost use Rattle.std.specs.Prelude.{◌≡◌, ◌+◌, ◌<◌, ◌≤◌, [], ◌∷◌, ℕ, List, Option, Some, IfOk, OnOk, length, map};
ghost use Rattle.wsm_record.specs.Event.{event_of};
ghost use Rattle.wsm_watermarks.specs.Held.{handed, is_near, last_mark, left, let_go, mark_item, waiting};
ghost use Rattle.wsm_turns.specs.declared.clocks.Clocks.{Clocks as AnyClocks};
ghost use Rattle.wsm_turns.specs.Numbered.{timed};
ghost use Rattle.wsm_turns.specs.Clocks.{AreClocks, IsClocks};
ghost use Rattle.wsm_turns.specs.Heard.{heard};
ghost use Rattle.wsm_turns.specs.Turns.{Kept, numbered, start_of};
ghost use Rattle.wsm_turns.specs.Waits.{Hear, Hears, Takes};
ghost use Rattle.wsm_turns.specs.Noted.{Notes};

use crate::clocks::{Clocks, mark_at};
use crate::heard::Heard;
use crate::line_event::LineEvent;
use crate::taker::Taker;
use std::alloc::{AllocError, Global};
use wsm_record::Event;
use wsm_watermarks::{Held, MOST_CLOCKS, MOST_HELD, Stamp, Timed, Watermarks};

/// The clocks of a log, and the records that wait for them.
#[derive(Drop)]
pub struct Waiting {
    marks: Watermarks,
    held: Held<LineEvent>,
    ahead: u64,
    // The last watermark that was told.
    told: u64,
}

impl Waiting {
    ghost use Rattle.std.specs.Prelude.{◌≡◌, ◌+◌, ◌<◌, ◌≤◌, [], ◌∷◌, ℕ, List, Some, IfOk, OnOk, length, map, take};
    ghost use Rattle.wsm_watermarks.specs.declared.held.Timed.{Timed as AnyTimed};
    ghost use Rattle.wsm_watermarks.specs.declared.stamp.Stamp.{Stamp as AnyStamp};
    ghost use Rattle.wsm_watermarks.specs.Held.{AreByTime, queued};
    ghost use Rattle.wsm_watermarks.specs.Watermarks.{FitsMarks};
    ghost use Rattle.wsm_turns.specs.Numbered.{Numbered, timed};
    ghost use Rattle.wsm_record.specs.Event.{event_of};
    ghost use Rattle.wsm_turns.specs.declared.clocks.Clocks.{Clocks as AnyClocks};
    ghost use Rattle.wsm_turns.specs.Clocks.{IsClocks};
    ghost use Rattle.wsm_turns.specs.Heard.{heard_by};
    ghost use Rattle.wsm_turns.specs.Turns.{Kept};
    ghost use Rattle.wsm_turns.specs.Waits.{Hear, Hears, Takes};
    ghost use Rattle.wsm_turns.specs.Noted.{Notes};

    // So many clocks, before the first stamp.
    fn open(alloc: Global, clocks: Clocks, count: usize) -> Result<Waiting, AllocError>
        requires clocks { IsClocks clocks }
        requires count { count ≤ MOST_CLOCKS }
        ensures { IfOk result (λ w. Hears clocks count w [] clocks.rule.start []) }
    {
        Ok(Waiting {
            marks: Watermarks::open(alloc, count, clocks.rule)?,
            held: Held::open(alloc, clocks.room)?,
            ahead: clocks.ahead,
            told: clocks.rule.start,
        })
    }

    /// The clocks that others have come to by the same rule, of which this watermark was told last. None waits yet.
    ///
    /// # Errors
    ///
    /// Memory was refused.
    pub fn resume(
        alloc: Global,
        clocks: Clocks,
        marks: Watermarks,
        told: u64,
    ) -> Result<Waiting, AllocError>
        requires { clocks.room ≤ MOST_HELD }
        ensures { (count : ℕ) (stamps : List AnyStamp) → marks.rule ≡ clocks.rule → length marks.table.said ≡ count → FitsMarks marks stamps →
            IfOk result (λ w. Hears clocks count w stamps told []) }
    {
        Ok(Waiting {
            marks,
            held: Held::open(alloc, clocks.room)?,
            ahead: clocks.ahead,
            told,
        })
    }

    /// Has the record of the line of a number wait, as it did where others have come to this.
    ///
    /// # Errors
    ///
    /// Memory was refused.
    pub fn wait(&mut self, time: u64, number: u64, event: &Event) -> Result<(), AllocError>
        ensures { (c : AnyClocks) (count told : ℕ) (stamps : List AnyStamp) (waits : List (AnyTimed Numbered)) → Hears c count self.old stamps told waits →
            OnOk result (Hears c count self.new stamps told (take c.room (queued (timed time number (event_of event.now)) waits))) }
    {
        let row = LineEvent::copied(number, event)?;
        let _ = self.held.put(Timed { time, row });
        Ok(())
    }

    /// The watermark that the clocks agree on.
    pub fn marks(&self) -> &Watermarks
        ensures { result.now ≡ self.now.marks }
    {
        &self.marks
    }

    /// The last watermark that was told.
    pub fn told(&self) -> u64
        ensures { result ≡ self.now.told }
    {
        self.told
    }

    /// The records that wait, the earliest first.
    pub fn rows(&self) -> &[Timed<LineEvent>]
        ensures rows { result.now ≡ self.now.held.rows }
        ensures by_time { AreByTime self.now.held.rows }
        ensures few { length self.now.held.rows ≤ self.now.held.room }
    {
        self.held.rows()
    }

    // Takes note of the stamp of the record of the line of a number, and hands on what goes then: what waited and may pass, the
    // watermark where it has risen, and the record, or it waits.
    fn take<T: Taker>(
        &mut self,
        stamp: Stamp,
        number: u64,
        event: &Event,
        taker: &mut T,
    ) -> Result<(), AllocError>
        ensures { (c : AnyClocks) (count : ℕ) (k : Kept) → Hears c count self.old k.stamps k.told k.waits → stamp.clock < count → length k.stamps < number →
            OnOk result (Takes (Some c) count k (Some self.new) (T.took taker.old taker.new) stamp number (event_of event.now)) }
    {
        if self.marks.clocks() <= stamp.clock || number <= self.marks.heard() {
            return Ok(());
        }
        self.marks.tell(stamp);
        let last = let_go(
            &mut self.held,
            &self.marks,
            self.ahead,
            self.told,
            number,
            taker,
        )?;
        let top = self.marks.mark();
        hand_mark(last, top, number, taker)?;
        self.told = last.max(top);
        hand_on(
            &mut self.held,
            top,
            self.ahead,
            stamp.time,
            number,
            event,
            taker,
        )
    }

    // Takes note of a watermark that the line of a number tells, and hands on what waits and isn't ahead of it.
    fn note<T: Taker>(&mut self, mark: u64, number: u64, taker: &mut T) -> Result<(), AllocError>
        ensures { (c : AnyClocks) (count : ℕ) (k : Kept) → Hears c count self.old k.stamps k.told k.waits →
            OnOk result (Notes (Some c) count k (Some self.new) (T.took taker.old taker.new) mark number) }
    {
        self.marks.note(mark);
        let last = let_go(&mut self.held, &self.marks, 0, self.told, number, taker)?;
        self.told = last.max(mark);
        Ok(())
    }

    // What the clocks come to. All of them are looked at.
    fn heard(&self) -> Heard
        ensures { (c : AnyClocks) (count : ℕ) (k : Kept) → Hears c count self.now k.stamps k.told k.waits → result ≡ heard_by c k.stamps (length k.waits) }
    {
        Heard {
            agree: self.marks.agree(),
            voices: self.marks.voices(),
            stamps: self.marks.heard(),
            waiting: self.held.rows().len(),
        }
    }

    // Hands on what waits, the earliest first.
    fn take_rest<T: Taker>(&self, taker: &mut T) -> Result<(), AllocError>
        ensures { OnOk result (T.took taker.old taker.new (map (λ r. r.row) self.now.held.rows)) }
    {
        hand_rows(self.held.rows(), taker)
    }
}

/// The clocks, if there are any, before the first stamp. There are so many.
///
/// # Errors
///
/// Memory was refused. No other call takes any for the clocks, but for a copy of each record that waits.
pub fn open_clocks(
    alloc: Global,
    clocks: Option<Clocks>,
    count: usize,
) -> Result<Option<Waiting>, AllocError>
    requires clocks { AreClocks clocks }
    requires count { count ≤ MOST_CLOCKS }
    ensures { IfOk result (λ w. Hear clocks count w [] (start_of clocks) []) }
{
    match clocks {
        Some(clocks) => Ok(Some(Waiting::open(alloc, clocks, count)?)),
        None => Ok(None),
    }
}

/// Takes note of the stamp of the record of the line of a number, where there are clocks, and hands on what goes then. Without
/// clocks that is the record.
///
/// # Errors
///
/// Memory was refused. Then some of it was handed on, and no further record is to come.
pub fn take_record<T: Taker>(
    waiting: &mut Option<Waiting>,
    stamp: Stamp,
    number: u64,
    event: &Event,
    taker: &mut T,
) -> Result<(), AllocError>
    ensures { (clocks : Option AnyClocks) (count : ℕ) (k : Kept) → Hear clocks count waiting.old k.stamps k.told k.waits → stamp.clock < count →
        length k.stamps < number →
        OnOk result (Takes clocks count k waiting.new (T.took taker.old taker.new) stamp number (event_of event.now)) }
{
    match waiting {
        Some(waiting) => waiting.take(stamp, number, event, taker),
        None => taker.take(number, event),
    }
}

/// Takes note of a watermark that the line of a number tells without the clocks: they tell only greater ones behind it. What waits and
/// isn't ahead of it is handed on, each record behind the watermark that its time alone would raise. The watermark itself isn't.
///
/// # Errors
///
/// Memory was refused. Then some of it was handed on, and no further record is to come.
pub fn take_mark<T: Taker>(
    waiting: &mut Option<Waiting>,
    mark: u64,
    number: u64,
    taker: &mut T,
) -> Result<(), AllocError>
    ensures { (clocks : Option AnyClocks) (count : ℕ) (k : Kept) → Hear clocks count waiting.old k.stamps k.told k.waits →
        OnOk result (Notes clocks count k waiting.new (T.took taker.old taker.new) mark number) }
{
    match waiting {
        Some(waiting) => waiting.note(mark, number, taker),
        None => Ok(()),
    }
}

/// What the clocks come to, where there are any. All of them are looked at.
pub fn clocks_heard(waiting: &Option<Waiting>) -> Option<Heard>
    ensures { (clocks : Option AnyClocks) (count : ℕ) (k : Kept) → Hear clocks count waiting.now k.stamps k.told k.waits → result ≡ heard clocks k }
{
    match waiting {
        Some(waiting) => Some(waiting.heard()),
        None => None,
    }
}

/// Hands on what waits at the end, the earliest first.
///
/// # Errors
///
/// Memory was refused.
pub fn take_rest<T: Taker>(waiting: &Option<Waiting>, taker: &mut T) -> Result<(), AllocError>
    ensures { (clocks : Option AnyClocks) (count : ℕ) (k : Kept) → Hear clocks count waiting.now k.stamps k.told k.waits →
        OnOk result (T.took taker.old taker.new (map (λ r. r.row) k.waits)) }
{
    match waiting {
        Some(waiting) => waiting.take_rest(taker),
        None => Ok(()),
    }
}

// Hands on records, in their order.
fn hand_rows<T: Taker>(rows: &[Timed<LineEvent>], taker: &mut T) -> Result<(), AllocError>
    ensures { OnOk result (T.took taker.old taker.new (map (λ r. r.row) rows.now)) }
{
    for row in rows {
        row.row.hand(taker)?;
    }
    Ok(())
}

// Lets go what may pass, each record behind the watermark that its time alone would raise, where `last` is the last that was
// told. It answers the last that is told then.
fn let_go<T: Taker>(
    held: &mut Held<LineEvent>,
    marks: &Watermarks,
    ahead: u64,
    last: u64,
    number: u64,
    taker: &mut T,
) -> Result<u64, AllocError>
    ensures room { held.new.room ≡ held.old.room }
    ensures mark { IfOk result (λ mark. mark ≡ last_mark last (let_go marks.now.rule ahead marks.now.mark last held.old.rows)) }
    ensures rows { IfOk result (λ _. held.new.rows ≡ left (marks.now.mark + ahead) held.old.rows) }
    ensures took { OnOk result (T.took taker.old taker.new (map (numbered number) (let_go marks.now.rule ahead marks.now.mark last held.old.rows))) }
{
    let mut mark = last;
    while let Some(row) = held.next(marks.mark(), ahead) {
        let next = marks.mark_for(mark, row.time);
        hand_mark(mark, next, number, taker)?;
        mark = next;
        row.row.hand(taker)?;
    }
    Ok(mark)
}

// Hands on a watermark, where it is greater than the last.
fn hand_mark<T: Taker>(last: u64, mark: u64, number: u64, taker: &mut T) -> Result<(), AllocError>
    ensures { OnOk result (T.took taker.old taker.new (map (numbered number) (mark_item last mark))) }
{
    if last < mark {
        taker.take(number, &mark_at(mark))
    } else {
        Ok(())
    }
}

// Hands on a record, or has it wait: then the last of those that wait goes, where there is no room for it.
fn hand_on<T: Taker>(
    held: &mut Held<LineEvent>,
    top: u64,
    ahead: u64,
    time: u64,
    number: u64,
    event: &Event,
    taker: &mut T,
) -> Result<(), AllocError>
    ensures room { held.new.room ≡ held.old.room }
    ensures rows { let row = timed time number (event_of event.now) in OnOk result
        (held.new.rows ≡ waiting (is_near (top + ahead) row) held.old.room row held.old.rows) }
    ensures took { let row = timed time number (event_of event.now) in OnOk result
        (T.took taker.old taker.new (map (numbered number) (handed (is_near (top + ahead) row) held.old.room row held.old.rows))) }
{
    if time.saturating_sub(top) <= ahead {
        return taker.take(number, event);
    }
    let row = LineEvent::copied(number, event)?;
    match held.put(Timed { time, row }) {
        Some(last) => last.row.hand(taker),
        None => Ok(()),
    }
}
