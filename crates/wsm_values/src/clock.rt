//! The instants at which a clock in a zone shows a local time.
ghost use Rattle.std.specs.Prelude.{◌≡◌, IfSome};
ghost use Rattle.jiff_core.specs.Calendar.{IsWithin};
ghost use Rattle.wsm_values.specs.Clock.{offset_nanos, candidate, chosen, instant_at};
ghost use Rattle.wsm_values.specs.Zone.{offset_in};

use crate::zone::Zone;
use jiff_core::Timestamp;

/// Which instant a local time is that a clock shows twice.
#[derive(Clone, Copy, Debug, PartialEq, Eq)]
pub enum Fold {
    /// None: such a time is refused.
    Refused,
    /// The earlier one.
    First,
    /// The later one.
    Second,
}

// A day in nanoseconds.
const DAY: i128 = 86_400_000_000_000;

// The nanoseconds of the offset that holds at an instant.
fn offset_nanos(zone: &Zone, at: i128) -> Option<i128>
    ensures value { result ≡ offset_nanos (offset_in zone.now) at }
    ensures few { IfSome result (IsWithin 93599000000000) }
{
    if at < -377_705_023_201_000_000_000 {
        return None;
    }
    if 253_402_207_200_999_999_999 < at {
        return None;
    }
    let instant = Timestamp { nanosecond: at };
    Some(zone.offset_at(instant) as i128 * 1_000_000_000)
}

// The instant of a local time by the offset that holds at another instant.
fn candidate(zone: &Zone, local: i128, at: i128) -> Option<i128>
    requires { IsWithin 400000000000000000000 local }
    ensures { result ≡ candidate (offset_in zone.now) local at }
{
    let offset = offset_nanos(zone, at)?;
    let instant = local - offset;
    let there = offset_nanos(zone, instant)?;
    if there == offset { Some(instant) } else { None }
}

// Of what there is.
fn chosen(fold: Fold, first: Option<i128>, second: Option<i128>) -> Option<i128>
    ensures { result ≡ chosen fold first second }
{
    match (first, second) {
        (None, second) => second,
        (Some(first), None) => Some(first),
        (Some(first), Some(second)) => match fold {
            Fold::Refused => { if first == second { Some(first) } else { None } }
            Fold::First => Some(first),
            Fold::Second => Some(second),
        },
    }
}

/// The instant at which a clock in the zone shows a local time, both in nanoseconds since 1970.
pub(crate) fn instant_at(zone: &Zone, fold: Fold, local: i128) -> Option<i128>
    requires { IsWithin 390000000000000000000 local }
    ensures { result ≡ instant_at (offset_in zone.now) fold local }
{
    let before = candidate(zone, local, local - DAY);
    let behind = candidate(zone, local, local + DAY);
    chosen(fold, before, behind)
}
