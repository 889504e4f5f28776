//! Local times by a pattern: what a text shows, and which instant that is.

ghost use Rattle.std.specs.Prelude.{◌≡◌, IfSome, option_map};
ghost use Rattle.wsm_values.specs.Local.{civil_of, at_offset, of_parts, pattern_instant};
ghost use Rattle.wsm_values.specs.Zone.{offset_in};
ghost use Rattle.jiff_strtime.specs.Text.{parts_of};
ghost use Rattle.jiff_core.specs.Calendar.{IsWithin};

use crate::clock::{self, Fold};
use crate::word::Word;
use crate::zone::Zone;
use jiff_core::Offset;
use jiff_core::civil::{self, Date, DateTime, Time};
use jiff_strtime::BrokenDownTime;

/// A date and a time as a clock shows them, by a pattern.
#[derive(Debug, Drop)]
pub struct LocalForm {
    /// As for `strptime`: `%d/%b/%Y %H:%M:%S`. It has a year, a month, a day, an hour and a minute, or an instant
    /// (`%s`); a second and a fraction of it are 0 where it has none, and a second of 60 is read as 59. `%I` goes with
    /// `%p`. A weekday is read and not compared.
    pub pattern: Word,
    /// Which instant it is that the clock shows twice.
    pub fold: Fold,
    /// Where the clock is, for texts that have no offset (`%z`) and no instant of their own.
    pub zone: Zone,
}

impl LocalForm {
    /// The instant of a text, in nanoseconds since 1970: none where the text doesn't have the pattern, where there is
    /// no such day or time, where no clock in the zone shows it, where one shows it twice and that is refused, and
    /// where the text names a zone (`%Q`), since none is looked up.
    pub fn instant_of(&self, text: &str) -> Option<i128>
        ensures { result ≡ pattern_instant (offset_in self.now.zone) self.now.fold self.now.pattern text.now }
    {
        pattern_instant(&self.zone, self.fold, self.pattern.as_str(), text)
    }
}

// What a clock counts that shows this date and time, if there is such a date and time.
fn civil_of(
    year: i16,
    month: u8,
    day: u8,
    hour: u8,
    minute: u8,
    second: u8,
    subsec_nanosecond: u32,
) -> Option<i128>
    ensures value { result ≡ civil_of year month day hour minute second subsec_nanosecond }
    ensures bound { IfSome result (IsWithin 390000000000000000000) }
{
    if year < -9999 || 9999 < year || month < 1 || 12 < month {
        return None;
    }
    if day < 1 || civil::days_in_month(year, month) < day {
        return None;
    }
    let date = Date { year, month, day };
    if 24 <= hour || 60 <= minute || 60 <= second || 1_000_000_000 <= subsec_nanosecond {
        return None;
    }
    let time = Time {
        hour,
        minute,
        second,
        subsec_nanosecond,
    };
    let shown = DateTime { date, time };
    Some(shown.to_nanosecond())
}

// The instant of a local time, by the offset beside it or in the zone.
fn at_offset(zone: &Zone, fold: Fold, offset: Option<Offset>, local: i128) -> Option<i128>
    requires { IsWithin 390000000000000000000 local }
    ensures { result ≡ at_offset (offset_in zone.now) fold (option_map (λ o. o.seconds) offset) local }
{
    match offset {
        Some(offset) => Some(local - offset.seconds as i128 * 1_000_000_000),
        None => clock::instant_at(zone, fold, local),
    }
}

// The instant that parts name: their own where they hold one, else their date and time at their offset or
// in the zone.
fn of_parts(zone: &Zone, fold: Fold, parts: &BrokenDownTime<'_>) -> Option<i128>
    ensures { result ≡ of_parts (offset_in zone.now) fold (parts_of parts.now) }
{
    if parts.iana.is_some() {
        return None;
    }
    if let Some(instant) = parts.timestamp {
        return Some(instant.nanosecond);
    }
    let second = parts.second.unwrap_or(0);
    let subsec = parts.subsec.unwrap_or(0);
    let local = civil_of(
        parts.year?,
        parts.month?,
        parts.day?,
        parts.hour?,
        parts.minute?,
        second,
        subsec,
    )?;
    at_offset(zone, fold, parts.offset, local)
}

// The instant of a text by a pattern of `strptime`, in nanoseconds since 1970.
fn pattern_instant(zone: &Zone, fold: Fold, pattern: &str, text: &str) -> Option<i128>
    ensures { result ≡ pattern_instant (offset_in zone.now) fold pattern.now text.now }
{
    match jiff_strtime::parse(pattern.as_bytes(), text.as_bytes()) {
        Ok(parts) => of_parts(zone, fold, &parts),
        Err(_) => None,
    }
}
