//! The identifiers that are remembered.

ghost use Rattle.std.specs.Prelude.{◌≡◌, ◌*◌, ◌<◌, ◌≤◌, max, ℕ, ℤ, [], ◌≤ℤ◌, false, true, not, length, map, slice_index_or, Ok, IfOk, OnErr, OnOk};
ghost use Rattle.wsm_doubles.specs.Entries.{entry_of, no_entry};
ghost use Rattle.wsm_windows.specs.Windows.{IsShape};
ghost use Rattle.wsm_doubles.specs.Memory.{Kept, Memory, Recalls, IsSmall, is_known, knows, least_room, live, remembered};

use crate::entry::Entry;
use crate::hash::hash_of;
use crate::late::Moment;
use crate::table::Table;
use std::alloc::{AllocError, Global};
use std::marker::Model;
use wsm_admission::Clock;
use wsm_windows::Shape;

// With fewer identifiers none is dropped.
const LEAST_ROOM: usize = 4096;

/// The identifiers of records that passed, each with the time of its record, until a record of that time
/// would be late. Those that can't count any more are dropped together: whenever there are twice as many
/// identifiers as were left the last time, and 4,096 at least.
#[derive(Drop)]
pub struct Doubles {
    alloc: Global,
    table: Table,
    // With as many identifiers those that can't count any more are dropped.
    room: usize,
}

impl Model for Doubles {
    ghost use Rattle.std.specs.Prelude.{◌≤◌, length};
    ghost use Rattle.wsm_doubles.specs.Memory.{Kept};

    ghost Value = { Kept };

    ghost view = { λ a. record { entries = a.table.entries; room = a.room } };

    ghost invariant = { λ a. length a.table.entries ≤ a.room };
}

impl Doubles {
    /// No record has passed. This takes no memory.
    pub fn new(alloc: Global) -> Doubles
        ensures { result ≡ record { entries = []; room = least_room } }
    {
        Doubles {
            alloc,
            table: Table::new(alloc),
            room: LEAST_ROOM,
        }
    }

    /// The identifiers that others have, in their order, with the times of their records.
    ///
    /// # Errors
    ///
    /// Memory was refused, or there are more than 2^32 - 1.
    pub fn resume(alloc: Global, entries: &[Entry]) -> Result<Doubles, AllocError>
        ensures { IfOk result (λ d. d.entries ≡ map entry_of entries.now) }
    {
        let table = Table::of_entries(alloc, buckets_for(entries.len())?, entries)?;
        let Some(twice) = table.len().checked_mul(2) else {
            return Err(AllocError);
        };
        Ok(Doubles {
            alloc,
            table,
            room: twice.max(LEAST_ROOM),
        })
    }

    /// The identifier of a number, counted from 0 in the order in which they came. It may be one that isn't known any
    /// more.
    pub fn identifier(&self, number: usize) -> &[u8]
        requires { number < length self.now.entries }
        ensures { result.now ≡ (slice_index_or self.now.entries number no_entry).0 }
    {
        self.table.identifier(number)
    }

    /// The time of the record of the identifier of a number.
    pub fn time(&self, number: usize) -> i64
        requires { number < length self.now.entries }
        ensures { result ≡ (slice_index_or self.now.entries number no_entry).1 }
    {
        self.table.time(number)
    }

    /// How many identifiers are kept, with those that aren't known any more.
    pub fn len(&self) -> usize
        ensures { result ≡ length self.now.entries }
    {
        self.table.len()
    }

    /// Whether a record with an identifier passes at a watermark. It does unless it is a double: one with the
    /// identifier passed, and a record of its time isn't late there. Takes note of a record that passes. Its
    /// time is in units of event time, and may be one that no record may have.
    ///
    /// # Errors
    ///
    /// Memory was refused, or there are 2^32 - 1 identifiers. The same are known as before, at this watermark and
    /// at each later one.
    #[inline(always)]
    pub fn pass(
        &mut self,
        identifier: &[u8],
        time: i64,
        clock: &Clock,
        shape: &Shape,
        mark: i64,
    ) -> Result<bool, AllocError>
        requires { IsShape shape.now }
        ensures known { IfOk result (λ passes. passes ≡ not (is_known clock.now shape.now mark identifier.now self.old)) }
        ensures recalled { (memory : Memory) → Recalls clock.now shape.now mark self.old memory →
            IfOk result (λ passes. passes ≡ not (knows identifier.now memory)) }
        ensures double { result ≡ Ok false → self.new ≡ self.old }
        ensures noted { (memory : Memory) → Recalls clock.now shape.now mark self.old memory
            → result ≡ Ok true → Recalls clock.now shape.now mark self.new (remembered clock.now shape.now mark identifier.now time memory) }
        ensures unchanged { (memory : Memory) → Recalls clock.now shape.now mark self.old memory
            → OnErr result (Recalls clock.now shape.now mark self.new memory) }
        ensures small { (most : ℕ) → length (live clock.now shape.now mark self.old.entries) ≤ most → IsSmall most self.old → IsSmall most self.new }
    {
        let moment = Moment {
            clock: *clock,
            shape: *shape,
            mark,
        };
        let hash = hash_of(identifier);
        if self.table.knows(identifier, hash, moment) {
            return Ok(false);
        }
        make_room(
            self.alloc,
            &mut self.table,
            &mut self.room,
            clock,
            shape,
            mark,
        )?;
        self.table.push(identifier, hash, time)?;
        Ok(true)
    }
}

// Has room for one more: where there is none, drops what can't count any more at a watermark.
#[inline(always)]
fn make_room(
    alloc: Global,
    table: &mut Table,
    room: &mut usize,
    clock: &Clock,
    shape: &Shape,
    mark: i64,
) -> Result<(), AllocError>
    requires shape { IsShape shape.now }
    requires room { length table.old.entries ≤ room.old }
    ensures live { (later : ℤ) → mark ≤ℤ later → live clock.now shape.now later table.new.entries ≡ live clock.now shape.now later table.old.entries }
    ensures room { OnOk result (length table.new.entries < room.new) }
    ensures within { length table.new.entries ≤ room.new }
    ensures buckets { OnOk result (0 < table.new.buckets) }
    ensures small { (most : ℕ) → length (live clock.now shape.now mark table.old.entries) ≤ most
        → room.old ≤ max (2 * most) least_room → room.new ≤ max (2 * most) least_room }
{
    if table.len() >= *room || table.buckets() == 0 {
        forget(alloc, table, room, clock, shape, mark)?;
    }
    Ok(())
}

// Drops what can't count any more at a watermark, and has room for as many again as there were.
#[cold]
fn forget(
    alloc: Global,
    table: &mut Table,
    room: &mut usize,
    clock: &Clock,
    shape: &Shape,
    mark: i64,
) -> Result<(), AllocError>
    requires { IsShape shape.now }
    ensures entries { OnOk result (table.new.entries ≡ live clock.now shape.now mark table.old.entries) }
    ensures room { OnOk result (room.new ≡ max (2 * length table.new.entries) least_room) }
    ensures buckets { OnOk result (0 < table.new.buckets) }
    ensures table_unchanged { OnErr result (table.new ≡ table.old) }
    ensures room_unchanged { OnErr result (room.new ≡ room.old) }
{
    let moment = Moment {
        clock: *clock,
        shape: *shape,
        mark,
    };
    if table.is_live(moment) {
        spread(alloc, table, room)
    } else {
        drop_late(alloc, table, room, moment)
    }
}

// Has room for as many again as there are, where they stand.
fn spread(alloc: Global, table: &mut Table, room: &mut usize) -> Result<(), AllocError>
    ensures entries { OnOk result (table.new.entries ≡ table.old.entries) }
    ensures room { OnOk result (room.new ≡ max (2 * length table.new.entries) least_room) }
    ensures buckets { OnOk result (0 < table.new.buckets) }
    ensures table_unchanged { OnErr result (table.new ≡ table.old) }
    ensures room_unchanged { OnErr result (room.new ≡ room.old) }
{
    let Some(twice) = table.len().checked_mul(2) else {
        return Err(AllocError);
    };
    table.spread(alloc, buckets_for(table.len())?)?;
    *room = twice.max(LEAST_ROOM);
    Ok(())
}

// Drops what can't count any more at a moment, into a table that has room for as many again as there were.
fn drop_late(
    alloc: Global,
    table: &mut Table,
    room: &mut usize,
    moment: Moment,
) -> Result<(), AllocError>
    ensures entries { OnOk result (table.new.entries ≡ live moment.clock moment.shape moment.mark table.old.entries) }
    ensures room { OnOk result (room.new ≡ max (2 * length table.new.entries) least_room) }
    ensures buckets { OnOk result (0 < table.new.buckets) }
    ensures table_unchanged { OnErr result (table.new ≡ table.old) }
    ensures room_unchanged { OnErr result (room.new ≡ room.old) }
{
    let kept = table.live(alloc, buckets_for(table.len())?, moment)?;
    let Some(twice) = kept.len().checked_mul(2) else {
        return Err(AllocError);
    };
    *room = twice.max(LEAST_ROOM);
    *table = kept;
    Ok(())
}

// How many buckets there are for as many again: a power of two.
fn buckets_for(len: usize) -> Result<usize, AllocError>
    ensures { IfOk result (λ n. 0 < n) }
{
    let twice = len.checked_mul(2).ok_or(AllocError)?;
    let buckets = twice.max(LEAST_ROOM).checked_next_power_of_two();
    buckets.ok_or(AllocError)
}
