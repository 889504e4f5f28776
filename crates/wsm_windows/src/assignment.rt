//! The windows that a time is assigned to.

ghost use Rattle.std.specs.Prelude.{◌≡◌, ◌≢◌, ◌↔◌, Contains, ℤ, pos, [], ◌∷◌, filter, ◌≤ℤ◌, ◌<ℤ◌, ◌+ℤ◌, ◌-ℤ◌, int_lt};
ghost use Rattle.wsm_windows.specs.Windows as spec;
ghost use Rattle.wsm_windows.specs.Windows.{IsShape, IsTime, IsSpan, IsWindowOfShape, IsRising, windows_of_shape, greatest_span};
ghost use Rattle.wsm_windows.specs.Life as life;
ghost use Rattle.wsm_windows.specs.Life.{IsLiveWindowOf};

use crate::life::last_expired_at;
use crate::window::{Shape, Window};
use std::marker::Model;

/// Windows by rising start, a period apart. A clause sees those that are left, the next one first.
#[derive(Debug, Drop)]
pub struct Windows {
    start: i64,
    size: i64,
    period: i64,
    time: i64,
}

impl Model for Windows {
    ghost use Rattle.std.specs.Prelude.{List};
    ghost use Rattle.wsm_windows.specs.declared.window.Window.{Window};
    ghost use Rattle.wsm_windows.specs.Left.{windows_left, IsInRange};

    ghost Value = { List Window };

    ghost view = { windows_left };

    ghost invariant = { IsInRange };
}

impl Iterator for Windows {
    ghost use Rattle.std.specs.Iterator.{YieldsFirst, item_count};

    type Item = Window;

    ghost next_gives = { YieldsFirst (λ s. s) };

    ghost remaining = { item_count (λ s. s) };

    fn next(&mut self) -> Option<Window> {
        if self.start > self.time {
            return None;
        }
        let start = self.start;
        self.start += self.period;
        Some(Window {
            start,
            end: start + self.size,
        })
    }
}

/// The windows that have a time inside, by rising start (Akidau et al. 2015, "AssignWindows"). Those
/// of fixed and sliding shapes start at any multiple of the period, negative ones too. A session
/// shape gives the session of one record alone.
pub fn windows_of(shape: Shape, time: i64) -> Windows
    requires shape { IsShape shape }
    requires time { IsTime time }
    ensures list { result ≡ windows_of_shape shape time }
    ensures each { (w : Window) → (Contains result w ↔ IsWindowOfShape shape time w) }
    ensures rising { IsRising result }
{
    match shape {
        Shape::Fixed(size) => on_grid(size, size, time),
        Shape::Sliding(size, period) => on_grid(size, period, time),
        Shape::Session(gap) => alone(gap, time),
    }
}

/// Of the windows of a time those that are live at a mark, by rising start.
pub fn live_windows_of(shape: Shape, time: i64, lateness: i64, mark: i64) -> Windows
    requires shape { IsShape shape }
    requires grid { (gap : ℤ) → shape ≢ Shape.Session gap }
    requires time { IsTime time }
    requires lateness { IsSpan lateness }
    requires mark { IsTime mark }
    ensures list { result ≡ life.live_windows_of shape time lateness mark }
    ensures each { (w : Window) → (Contains result w ↔ IsLiveWindowOf shape time lateness mark w) }
    ensures rising { IsRising result }
{
    let past = live_past(time, lateness, mark);
    match shape {
        Shape::Fixed(size) => ending_past(size, size, time, past),
        Shape::Sliding(size, period) => ending_past(size, period, time, past),
        Shape::Session(gap) => alone(gap, time),
    }
}

/// The time past which the live windows of a time end: of all its windows those that do are live.
pub fn live_past(time: i64, lateness: i64, mark: i64) -> i64
    requires time { IsTime time }
    requires lateness { IsSpan lateness }
    requires mark { IsTime mark }
    ensures time { IsTime result }
    ensures after { time ≤ℤ result }
    ensures live { (size period : ℤ) → pos 1 ≤ℤ size → size ≤ℤ greatest_span →
        filter (λ w. int_lt result w.end) (spec.windows_of size period time) ≡ filter (λ w. life.is_live w lateness mark) (spec.windows_of size period time) }
{
    time.max(last_expired_at(mark, lateness))
}

// Of the windows of a time those that end past it and past another time.
fn ending_past(size: i64, period: i64, time: i64, past: i64) -> Windows
    requires period_low { pos 1 ≤ℤ period }
    requires period_high { period ≤ℤ size }
    requires size_high { size ≤ℤ greatest_span }
    requires time { IsTime time }
    requires past { IsTime past }
    requires after { time ≤ℤ past }
    ensures { result ≡ filter (λ w. int_lt past w.end) (spec.windows_of size period time) }
{
    Windows {
        start: first_start(size, period, past),
        size,
        period,
        time,
    }
}

// The windows that start at multiples of a period.
fn on_grid(size: i64, period: i64, time: i64) -> Windows
    requires period_low { pos 1 ≤ℤ period }
    requires period_high { period ≤ℤ size }
    requires size_high { size ≤ℤ greatest_span }
    requires time { IsTime time }
    ensures { result ≡ spec.windows_of size period time }
{
    Windows {
        start: first_start(size, period, time),
        size,
        period,
        time,
    }
}

// The session of one record.
fn alone(gap: i64, time: i64) -> Windows
    requires gap_low { pos 1 ≤ℤ gap }
    requires gap_high { gap ≤ℤ greatest_span }
    requires time { IsTime time }
    ensures { result ≡ spec.window time (time +ℤ gap) ∷ [] }
{
    Windows {
        start: time,
        size: gap,
        period: gap,
        time,
    }
}

// The least multiple of the period whose window ends after the time.
fn first_start(size: i64, period: i64, time: i64) -> i64
    requires period_low { pos 1 ≤ℤ period }
    requires period_high { period ≤ℤ size }
    requires size_high { size ≤ℤ greatest_span }
    requires time { IsTime time }
    ensures start { result ≡ spec.first_start size period time }
    ensures after { (time -ℤ size) <ℤ result }
    ensures near { result ≤ℤ (time -ℤ size +ℤ period) }
{
    let before = time - size;
    before - before.rem_euclid(period) + period
}
