//! How long a window is held.

ghost use Rattle.std.specs.Prelude.{◌≡◌, ◌≤◌, ◌+◌, List, ℤ, pos, ◌+ℤ◌, ◌≤ℤ◌, int_lt, All, length, unsigned_abs};
ghost use Rattle.std.specs.Int.{div_ceil};
ghost use Rattle.wsm_windows.specs.Windows.{IsShape, IsTime, IsSpan, IsPlaced, greatest_span};
ghost use Rattle.wsm_windows.specs.Life.{AreOfOneKey, IsHeld};
ghost use Rattle.wsm_windows.specs.Life as life;

use crate::window::{Shape, Window};

/// Whether a window's end and the lateness are past a mark. A window that isn't live is dropped.
pub fn is_live(window: Window, lateness: i64, mark: i64) -> bool
    requires window { IsPlaced window }
    requires lateness { IsSpan lateness }
    requires mark { IsTime mark }
    ensures { result ≡ life.is_live window lateness mark }
{
    window.end > last_expired(mark, lateness)
}

/// The last end, in event time, of windows that aren't live at a mark: those with an end past it are.
pub fn last_expired(mark: i64, lateness: i64) -> i64
    requires lateness { IsSpan lateness }
    ensures live { (window : Window) → IsPlaced window → int_lt result window.end ≡ life.is_live window lateness mark }
    ensures by { result ≤ℤ mark }
    ensures late { mark ≤ℤ (result +ℤ lateness) }
{
    // No window ends as early as the least number.
    mark.checked_sub(lateness).unwrap_or(i64::MIN)
}

/// The same of a mark that is a time, which every record asks for: nothing is too small for 64 bits.
pub(crate) fn last_expired_at(mark: i64, lateness: i64) -> i64
    requires lateness { IsSpan lateness }
    requires mark { IsTime mark }
    ensures live { (window : Window) → int_lt result window.end ≡ life.is_live window lateness mark }
    ensures by { result ≤ℤ mark }
{
    mark - lateness
}

/// Whether a watermark that goes from one mark to another comes to a window's end.
pub fn is_due(window: Window, old: i64, new: i64) -> bool
    requires window { IsPlaced window }
    requires old { IsTime old }
    requires new { IsTime new }
    ensures { result ≡ life.is_due window old new }
{
    old < window.end && window.end <= new
}

/// The most windows of one key that are live at once, where no record is more than the skew ahead of
/// the mark.
pub fn live_bound(shape: Shape, skew: i64, lateness: i64) -> u64
    requires shape { IsShape shape }
    requires skew { IsSpan skew }
    requires lateness { IsSpan lateness }
    ensures bound { result ≡ life.live_bound shape skew lateness }
    // Enough for each set of windows of one key that can be live at a mark.
    ensures enough { (mark : ℤ) (ws : List Window) → AreOfOneKey shape ws → All (IsHeld skew lateness mark) ws → length ws ≤ result }
{
    let span = skew + lateness;
    match shape {
        Shape::Fixed(size) => starts_within(span + size, size),
        Shape::Sliding(size, period) => starts_within(span + size, period),
        Shape::Session(gap) => 1 + starts_within(span, gap),
    }
}

// The most starts, a period or more apart, within a span.
fn starts_within(span: i64, period: i64) -> u64
    requires span_low { pos 0 ≤ℤ span }
    requires span_high { span ≤ℤ (greatest_span +ℤ greatest_span +ℤ greatest_span) }
    requires period { pos 1 ≤ℤ period }
    ensures starts { result ≡ div_ceil (unsigned_abs span) (unsigned_abs period) }
    ensures few { result ≤ unsigned_abs span + 1 }
{
    (span as u64).div_ceil(period as u64)
}
