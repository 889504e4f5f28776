//! Time zones, owned by whoever reads local times in them.
ghost use Rattle.std.specs.Prelude.{◌≡◌, IfOk, IfErr};
ghost use Rattle.jiff_core.specs.Calendar.{IsWithin};
ghost use Rattle.wsm_values.specs.Zone.{offset_in, IsTable, HasFault, IsRefused};

use jiff_core::{Error, Timestamp};
use jiff_tz::tzif::Tzif;
use std::alloc::Global;

/// A time zone: how far clocks are ahead of UTC at each instant. It owns its table, and borrows nothing.
#[derive(Debug, Drop)]
pub enum Zone {
    /// Clocks show UTC.
    Utc,
    /// The table of a TZif file, with its rule for what comes after it.
    Table(Tzif),
}

/// Why bytes are no zone.
#[derive(Clone, Copy, Debug, PartialEq, Eq)]
pub enum ZoneFault {
    /// They aren't a TZif file (RFC 9636) whose table runs forward and whose rule agrees with it.
    NoTable,
    /// There is no memory for it.
    Memory,
}

impl Zone {
    /// The zone of a TZif file (RFC 9636), as those of the Time Zone Database. The bytes aren't kept.
    pub fn of_table(alloc: Global, bytes: &[u8]) -> Result<Zone, ZoneFault>
        ensures zone { IfOk result (IsTable bytes.now) }
        ensures refused { IfErr result (IsRefused bytes.now) }
        ensures faulty { HasFault bytes.now → result ≡ Err ZoneFault.NoTable }
    {
        match Tzif::parse(alloc, None, bytes) {
            Ok(table) => Ok(Zone::Table(table)),
            Err(Error::Tzif(_)) => Err(ZoneFault::NoTable),
            Err(_) => Err(ZoneFault::Memory),
        }
    }

    /// How far a clock is ahead of UTC at an instant, in seconds.
    #[tactic(auto, unfolding(crate::specs::Zone::offset_in))]
    pub(crate) fn offset_at(&self, instant: Timestamp) -> i32
        ensures value { result ≡ offset_in self.now instant.nanosecond }
        ensures bound { IsWithin 93599 result }
    {
        match self {
            Zone::Utc => 0,
            Zone::Table(table) => table.to_offset(instant).seconds,
        }
    }
}
