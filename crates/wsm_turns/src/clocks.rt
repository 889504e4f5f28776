//! The clocks of a log.

ghost use Rattle.std.specs.Prelude.{◌≡◌, ◌+◌, ◌<◌, ◌≤◌, IfNone, IfSome, IsSomeAnd, Some, pos, unsigned_abs};
ghost use Rattle.wsm_record.specs.Event.{event_of};
ghost use Rattle.wsm_watermarks.specs.declared.table.TheConstants.{MOST_CLOCKS};
ghost use Rattle.wsm_admission.specs.Clock.{fits_declared};
ghost use Rattle.wsm_turns.specs.Clocks.{AreClocks, HaveNoClocks, IsClocks, IsRule, count_in, named_in, rule_by};
ghost use Rattle.wsm_turns.specs.Turns.{mark_at, stamp_of};

use wsm_admission::has_fitting_values;
use wsm_record::limits::{LATEST_TIME, MAX_NAMES};
use wsm_record::{Event, Schema};
use wsm_watermarks::{MOST_AGREEING, MOST_CLOCKS, MOST_HELD, Rule, Stamp};
use wsm_windows::is_time;

/// The clocks of a log: how a watermark follows them, and which records wait for it.
#[derive(Clone, Copy, Debug, PartialEq, Eq)]
pub struct Clocks {
    /// How a watermark follows them.
    pub rule: Rule,
    /// How far ahead of the watermark a record may be that doesn't wait, in units of event time.
    pub ahead: u64,
    /// How many records may wait.
    pub room: usize,
    /// How many clocks lines may name. Where it isn't said the clock of a record is its key.
    pub named: Option<usize>,
}

/// The rule by which a watermark goes that begins at START: so many clocks have to agree on a time, it stays so far behind
/// it and goes in such steps, and a clock is heard while its last record is among so many last ones. There is none where no
/// clock or more than [`MOST_AGREEING`] have to agree, or a step is 0. Times and spans are in units of event time.
pub fn rule_of(agree: u64, bound: u64, step: u64, forget: u64, start: i64) -> Option<Rule>
    ensures by { result ≡ rule_by agree bound step forget (unsigned_abs start) }
    ensures rule { IfSome result IsRule }
    ensures start { IfSome result (λ r. r.start ≡ unsigned_abs start) }
{
    if agree == 0 || (MOST_AGREEING as u64) < agree || step == 0 {
        return None;
    }
    Some(Rule {
        agree: agree as usize,
        forget,
        bound,
        step,
        start: start.unsigned_abs(),
    })
}

/// The clocks by such a rule, where a record waits that is further ahead of the watermark than the query's SKEW, and so many
/// may wait at most. Lines name as many clocks as `named` says; where it says nothing the clock of a record is its key. There are
/// none either where more than [`MOST_HELD`] may wait or [`MOST_CLOCKS`] be named, or where SKEW is less than the bound and a step,
/// less 1: a record that waited could then be refused for having waited.
pub fn clocks_of(
    agree: u64,
    bound: u64,
    step: u64,
    forget: u64,
    room: u64,
    named: Option<u64>,
    start: i64,
    skew: i64,
) -> Option<Clocks>
    ensures clocks { IfSome result IsClocks }
    ensures start { IfSome result (λ c. c.rule.start ≡ unsigned_abs start) }
    ensures ahead { IfSome result (λ c. pos c.ahead ≡ skew) }
    ensures named { IfSome result (λ c. c.named ≡ named) }
    ensures by { IfSome result (λ c. Some c.rule ≡ rule_by agree bound step forget (unsigned_abs start)) }
    ensures room { IfSome result (λ c. c.room ≡ room) }
    ensures none { IfNone result (HaveNoClocks agree bound step forget room named (unsigned_abs start) skew) }
    ensures in_time { IfSome result (λ c. c.rule.bound + c.rule.step ≤ c.ahead + 1) }
{
    let rule = rule_of(agree, bound, step, forget, start)?;
    let most_ahead = rule.bound.checked_add(rule.step - 1)?;
    if skew < 0 || skew.unsigned_abs() < most_ahead || room > MOST_HELD as u64 {
        return None;
    }
    Some(Clocks {
        rule,
        ahead: skew.unsigned_abs(),
        room: room as usize,
        named: most_named(named)?,
    })
}

// How many clocks may be named, where that is said and aren't too many.
fn most_named(named: Option<u64>) -> Option<Option<usize>>
    ensures same { IfSome result (λ most. most ≡ named) }
    ensures many { IfNone result (IsSomeAnd named (λ most. MOST_CLOCKS < most)) }
    ensures few { IfSome result (λ most. IfSome most (λ n. n ≤ MOST_CLOCKS)) }
{
    match named {
        None => Some(None),
        Some(most) if most <= MOST_CLOCKS as u64 => Some(Some(most as usize)),
        Some(_) => None,
    }
}

/// How many clocks lines may name, where they name them.
pub fn named_in(clocks: Option<Clocks>) -> Option<usize>
    ensures { result ≡ named_in clocks }
{
    match clocks {
        Some(clocks) => clocks.named,
        None => None,
    }
}

/// How many clocks there may be, with so many keys.
pub fn count_in(clocks: Option<Clocks>, keys: usize) -> usize
    requires clocks { AreClocks clocks }
    requires keys { keys ≤ MAX_NAMES }
    ensures count { result ≡ count_in clocks keys }
    ensures few { result ≤ MOST_CLOCKS }
{
    match named_in(clocks) {
        Some(most) => most,
        None => keys,
    }
}

/// What an event says of time: a record of a declared key whose values fit and whose time is one, on the clock of its key.
pub fn stamp_of(schema: &Schema, event: &Event) -> Option<Stamp>
    ensures { result ≡ stamp_of schema.now (event_of event.now) }
{
    stamp_judged(schema, event, has_fitting_values(schema, event))
}

/// The same, where whoever has read the event knows whether its values fit the schema: then no value is looked at.
pub fn stamp_judged(schema: &Schema, event: &Event, values_fit: bool) -> Option<Stamp>
    requires { values_fit ≡ fits_declared schema.now (event_of event.now) }
    ensures { result ≡ stamp_of schema.now (event_of event.now) }
{
    match event {
        Event::Record {
            key: Some(key),
            time,
            ..
        } => {
            if (*key as usize) < schema.key_count() && (values_fit && is_time(*time)) {
                Some(Stamp {
                    clock: *key as usize,
                    time: time.unsigned_abs(),
                })
            } else {
                None
            }
        }
        Event::Record { key: None, .. } => None,
        Event::Watermark { .. } => None,
    }
}

/// The watermark at a time, and no later than times go.
pub fn mark_at(time: u64) -> Event
    ensures { event_of result ≡ mark_at time }
{
    Event::Watermark {
        source: Some(0),
        time: time.min(LATEST_TIME.unsigned_abs()) as i64,
    }
}
