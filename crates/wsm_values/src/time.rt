//! Times, from a text to the query's clock.
ghost use Rattle.std.specs.Prelude.{◌≡◌, ◌<◌, ◌≤◌, ◌^◌};
ghost use Rattle.wsm_values.specs.Time.{nanos_in, in_word, floor_to, counted, instant_of, time_of};

use crate::local::LocalForm;
use crate::{decimal, fraction, rfc3339};

/// What a count of time counts.
#[derive(Clone, Copy, Debug, PartialEq, Eq)]
pub enum Unit {
    /// Seconds.
    Seconds,
    /// Thousandths of a second.
    Milliseconds,
    /// Millionths of a second.
    Microseconds,
}

/// How a time is written.
#[derive(Debug, Drop)]
pub enum TimeForm {
    /// As RFC 3339 writes it, `2026-03-11T20:00:00.5+02:00`, and nothing wider: see `is_rfc3339`. A leap second, 60, is
    /// read as 59.
    Instant,
    /// A whole number of such units since 1970, by UTC: `1773255600`. Digits, behind a `-` before 1970.
    Epoch(Unit),
    /// Seconds since 1970, by UTC, with at most nine digits of a fraction: `1773255600.1234567`. A digit more is
    /// refused, and not cut.
    Fraction,
    /// A date and a time as a clock shows them, by a pattern.
    Local(LocalForm),
}

impl Unit {
    // The nanoseconds in one.
    fn nanos(self) -> u32
        ensures value { result ≡ nanos_in self }
        ensures some { 0 < result }
        ensures few { result ≤ 10 ^ 9 }
    {
        match self {
            Unit::Seconds => 1_000_000_000,
            Unit::Milliseconds => 1_000_000,
            Unit::Microseconds => 1_000,
        }
    }
}

// The number, where 64 bits hold it.
fn in_word(number: i128) -> Option<i64>
    ensures { result ≡ in_word number }
{
    if number < i64::MIN as i128 {
        None
    } else if (i64::MAX as i128) < number {
        None
    } else {
        Some(number as i64)
    }
}

// The whole units up to an instant, downward also before 1970.
fn floor_to(unit: Unit, nanos: i128) -> i128
    ensures { result ≡ floor_to unit nanos }
{
    nanos.div_euclid(unit.nanos() as i128)
}

// The nanoseconds of a whole number of such units.
fn counted(unit: Unit, text: &str) -> Option<i128>
    ensures { result ≡ counted unit text.now }
{
    let count = decimal::decimal_of(decimal::plain(0), text.as_bytes())?;
    Some(count as i128 * unit.nanos() as i128)
}

// The nanoseconds since 1970 of a text.
fn instant_of(form: &TimeForm, text: &str) -> Option<i128>
    ensures { result ≡ instant_of form.now text.now }
{
    match form {
        TimeForm::Instant => rfc3339::rfc3339_instant(text),
        TimeForm::Epoch(unit) => counted(*unit, text),
        TimeForm::Fraction => fraction::seconds_of(text.as_bytes()),
        TimeForm::Local(local) => local.instant_of(text),
    }
}

/// The time of a text: how many whole units it is after 1970, downward also before 1970. None where the text doesn't
/// have the form, where it names no instant, and where 64 bits don't hold the number.
#[tactic(auto, unfolding(crate::specs::Time::time_of))]
pub fn time_of(form: &TimeForm, unit: Unit, text: &str) -> Option<i64>
    ensures { result ≡ time_of form.now unit text.now }
{
    let nanos = instant_of(form, text)?;
    in_word(floor_to(unit, nanos))
}
