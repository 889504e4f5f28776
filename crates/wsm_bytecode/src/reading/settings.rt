//! The parts of a header behind its fields, as far as they are the same in each version.

ghost use Rattle.std.specs.Prelude.{◌≡◌, ◌≤◌};
ghost use Rattle.wsm_bytecode.specs.Steps.{times_at, shape_by, windows_by, mode_at, triggers_at, form_of as form_by_mode, kind_at, kinds_at, budget_at};
ghost use Rattle.wsm_bytecode.specs.Reading.{Gives, clock_of, settings_seen};

use crate::limits::{LATEST_TIME, LONGEST_SPAN, MAX_ACCUMULATORS, MAX_HELD, MAX_STATED};
use crate::reading::numbers::{byte_of, byte_within, i64_within, several_of, u64_within};
use crate::tags::{form_by, kind_by, mode_by};
use std::alloc::Global;
use wsm_program::{Clock, Costs, DecodeRefusal};
use wsm_record::{Form, Kind, Mode, Names};
use wsm_windows::Shape;

/// The numbers of a clock that stand behind the fields.
#[derive(Clone, Copy)]
pub(crate) struct Times {
    pub(crate) start: i64,
    pub(crate) skew: i64,
    pub(crate) lateness: i64,
    pub(crate) records: i64,
}

/// What a clock says beside its times.
#[derive(Clone, Copy)]
pub(crate) struct Counting {
    /// Whether lateness counts from the ends of windows.
    pub(crate) from_window: bool,
}

impl Counting {
    /// That of a version that says no more than from where lateness counts.
    pub(crate) fn of(from_window: bool) -> Counting
        ensures { result ≡ record { from_window = from_window } }
    {
        Counting { from_window }
    }
}

/// What a header has behind its times and in front of its accumulators.
#[derive(Drop)]
pub(crate) struct Settings {
    pub(crate) shape: Shape,
    pub(crate) counting: Counting,
    pub(crate) mode: Mode,
    pub(crate) early: i64,
    pub(crate) late: i64,
    pub(crate) form: Form,
    /// None where watermarks name no source.
    pub(crate) sources: Names,
}

impl Settings {
    /// The clock of these times.
    pub(crate) fn clock(&self, times: Times) -> Clock
        ensures { result ≡ clock_of times (settings_seen self.now) }
    {
        Clock {
            start: times.start,
            skew: times.skew,
            lateness: times.lateness,
            from_window: self.counting.from_window,
            records: times.records,
        }
    }
}

#[tactic(auto, unfolding(crate::specs::Steps::times_at))]
pub(crate) fn times_of(bytes: &[u8]) -> Result<(Times, &[u8]), DecodeRefusal>
    ensures { Gives (λ x. (x.0, x.1.now)) result (times_at bytes.now) }
{
    let (start, rest) = i64_within(bytes, 0, LATEST_TIME)?;
    let (skew, rest) = i64_within(rest, 0, LONGEST_SPAN)?;
    let (lateness, rest) = i64_within(rest, 0, LONGEST_SPAN)?;
    let (records, rest) = i64_within(rest, 1, LONGEST_SPAN)?;
    let times = Times {
        start,
        skew,
        lateness,
        records,
    };
    Ok((times, rest))
}

/// The windows of a shape's tag, which is at most 2, and whether lateness counts from their ends.
#[tactic(auto, unfolding(crate::specs::Steps::windows_by))]
pub(crate) fn windows_of(
    bytes: &[u8],
    tag: u8,
    from_window: bool,
) -> Result<((Shape, bool), &[u8]), DecodeRefusal>
    requires { tag ≤ 2 }
    ensures { Gives (λ x. (x.0, x.1.now)) result (windows_by from_window tag bytes.now) }
{
    let (shape, rest) = shape_of(bytes, tag)?;
    Ok(((shape, from_window), rest))
}

#[tactic(auto, unfolding(crate::specs::Steps::fixed_at, crate::specs::Steps::sliding_at, crate::specs::Steps::session_at))]
fn shape_of(bytes: &[u8], tag: u8) -> Result<(Shape, &[u8]), DecodeRefusal>
    requires { tag ≤ 2 }
    ensures { Gives (λ x. (x.0, x.1.now)) result (shape_by tag bytes.now) }
{
    let (size, rest) = i64_within(bytes, 1, LONGEST_SPAN)?;
    match tag {
        0 => Ok((Shape::Fixed(size), rest)),
        1 => {
            let (period, rest) = i64_within(rest, 1, size)?;
            Ok((Shape::Sliding(size, period), rest))
        }
        _ => Ok((Shape::Session(size), rest)),
    }
}

#[tactic(auto, unfolding(crate::specs::Steps::mode_at))]
pub(crate) fn mode_of(bytes: &[u8]) -> Result<(Mode, &[u8]), DecodeRefusal>
    ensures { Gives (λ x. (x.0, x.1.now)) result (mode_at bytes.now) }
{
    let (tag, rest) = byte_of(bytes)?;
    let mode = mode_by(tag).ok_or(DecodeRefusal::Operand)?;
    Ok((mode, rest))
}

/// The intervals of EARLY and of LATE, 0 for none.
#[tactic(auto, unfolding(crate::specs::Steps::triggers_at))]
pub(crate) fn triggers_of(bytes: &[u8]) -> Result<((i64, i64), &[u8]), DecodeRefusal>
    ensures { Gives (λ x. (x.0, x.1.now)) result (triggers_at bytes.now) }
{
    let (early, rest) = i64_within(bytes, 0, LONGEST_SPAN)?;
    let (late, rest) = i64_within(rest, 0, LONGEST_SPAN)?;
    Ok(((early, late), rest))
}

/// The form of a tag, if the mode may write it.
pub(crate) fn form_of(tag: u8, mode: Mode) -> Result<Form, DecodeRefusal>
    ensures { result ≡ form_by_mode mode tag }
{
    let form = form_by(tag).ok_or(DecodeRefusal::Operand)?;
    if !mode.may_write(form) {
        return Err(DecodeRefusal::Operand);
    }
    Ok(form)
}

#[tactic(auto, unfolding(crate::specs::Steps::kind_at))]
fn kind_of(bytes: &[u8]) -> Result<(Kind, &[u8]), DecodeRefusal>
    ensures { Gives (λ x. (x.0, x.1.now)) result (kind_at bytes.now) }
{
    let (tag, rest) = byte_of(bytes)?;
    let kind = kind_by(tag).ok_or(DecodeRefusal::Operand)?;
    Ok((kind, rest))
}

/// How each accumulator folds, of at most 16.
#[tactic(auto, unfolding(crate::specs::Steps::kinds_at))]
pub(crate) fn kinds_of(alloc: Global, bytes: &[u8]) -> Result<(Vec<Kind>, &[u8]), DecodeRefusal>
    ensures { Gives (λ x. (x.0.items, x.1.now)) result (kinds_at bytes.now) }
{
    let (count, rest) = byte_within(bytes, 0, MAX_ACCUMULATORS)?;
    several_of(alloc, rest, u16::from(count), |rest| kind_of(rest))
}

#[tactic(auto, unfolding(crate::specs::Steps::budget_at))]
pub(crate) fn budget_of(bytes: &[u8]) -> Result<(Costs, &[u8]), DecodeRefusal>
    ensures { Gives (λ x. (x.0, x.1.now)) result (budget_at bytes.now) }
{
    let (per_record, rest) = u64_within(bytes, 1, MAX_STATED)?;
    let (per_pane, rest) = u64_within(rest, 1, MAX_STATED)?;
    let (held, rest) = u64_within(rest, 1, MAX_HELD)?;
    let budget = Costs {
        per_record,
        per_pane,
        held,
    };
    Ok((budget, rest))
}
