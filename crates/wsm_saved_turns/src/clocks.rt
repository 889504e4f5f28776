//! The clocks of a log, and the records that wait for them.

ghost use Rattle.std.specs.Prelude.{◌≡◌, ◌++◌, ◌≤◌, [], List, ℕ, Option, IfOk, IfSome, OnOk, is_some, length, map, option_map, true};
ghost use Rattle.wsm_saved.specs.Lists.{ListFits, list_text, read_list, read_some};
ghost use Rattle.wsm_watermarks.specs.declared.held.Timed.{Timed as AnyTimed};
ghost use Rattle.wsm_watermarks.specs.declared.stamp.Stamp.{Stamp as AnyStamp};
ghost use Rattle.wsm_watermarks.specs.Held.{AreByTime};
ghost use Rattle.wsm_turns.specs.declared.clocks.Clocks.{Clocks as AnyClocks};
ghost use Rattle.wsm_turns.specs.declared.waiting.Waiting.{Waiting as AnyWaiting};
ghost use Rattle.wsm_turns.specs.Clocks.{AreClocks, IsClocks};
ghost use Rattle.wsm_turns.specs.Numbered.{Numbered};
ghost use Rattle.wsm_turns.specs.Waits.{Hear, Hears};
ghost use Rattle.wsm_saved_turns.specs.Turns.{ClocksFit, RowFits, SaidFits, WaitingFits, clocks_text, read_row, read_said, read_stamp, read_stand, row_of, row_text, said_text, stand_of, stand_text, standing_of};

use std::alloc::{AllocError, Global};
use wsm_record::Event;
use wsm_saved::{Restoring, Saved, save_number};
use wsm_turns::{Clocks, LineEvent, Waiting};
use wsm_watermarks::{MOST_CLOCKS, Said, Timed, Watermarks};

// A record that waits, and the number of its line.
#[derive(Drop)]
struct Row {
    time: u64,
    number: u64,
    event: Event,
}

// Where clocks stand: of each its last stamp, how many stamps were heard, the watermark, the last that was told, and the
// records that wait.
#[derive(Drop)]
struct Standing {
    said: Vec<Option<Said>>,
    heard: u64,
    mark: u64,
    told: u64,
    rows: Vec<Row>,
}

// The last stamp of a clock, or that it has none.
fn save_said(said: Option<Said>, out: &mut Vec<u8>) -> Result<(), AllocError>
    ensures text { OnOk result (out.new.items ≡ out.old.items ++ said_text said) }
    ensures fits { OnOk result (SaidFits said) }
{
    match said {
        Some(said) => {
            save_number(1, out)?;
            save_number(said.time, out)?;
            save_number(said.number, out)
        }
        None => save_number(0, out),
    }
}

// Those of some clocks.
fn save_stamps(stamps: &[Option<Said>], out: &mut Vec<u8>) -> Result<(), AllocError>
    ensures text { OnOk result (out.new.items ≡ out.old.items ++ list_text said_text stamps.now) }
    ensures fits { OnOk result (ListFits SaidFits stamps.now) }
{
    save_number(stamps.len() as u64, out)?;
    for said in stamps {
        save_said(*said, out)?;
    }
    Ok(())
}

// A record that waits.
fn save_row(row: &Timed<LineEvent>, out: &mut Vec<u8>) -> Result<(), AllocError>
    ensures text { OnOk result (out.new.items ≡ out.old.items ++ row_text row.now) }
    ensures fits { OnOk result (RowFits row.now) }
{
    save_number(row.time, out)?;
    save_number(row.row.number(), out)?;
    row.row.event().save(out)
}

// Those that wait.
fn save_rows(rows: &[Timed<LineEvent>], out: &mut Vec<u8>) -> Result<(), AllocError>
    ensures text { OnOk result (out.new.items ≡ out.old.items ++ list_text row_text rows.now) }
    ensures fits { OnOk result (ListFits RowFits rows.now) }
{
    save_number(rows.len() as u64, out)?;
    for row in rows {
        save_row(row, out)?;
    }
    Ok(())
}

// Where clocks stand.
fn save_waiting(waiting: &Waiting, out: &mut Vec<u8>) -> Result<(), AllocError>
    ensures text { OnOk result (out.new.items ≡ out.old.items ++ stand_text (stand_of waiting.now)) }
    ensures fits { OnOk result (WaitingFits waiting.now) }
{
    let marks = waiting.marks();
    save_stamps(marks.said(), out)?;
    save_number(marks.heard(), out)?;
    save_number(marks.mark(), out)?;
    save_number(waiting.told(), out)?;
    save_rows(waiting.rows(), out)
}

/// Adds what came of a log's clocks and the records that wait for them, where there are any.
///
/// # Errors
///
/// Memory was refused. A part may have been added.
pub fn save_clocks(waiting: &Option<Waiting>, out: &mut Vec<u8>) -> Result<(), AllocError>
    ensures text { OnOk result (out.new.items ≡ out.old.items ++ clocks_text waiting.now) }
    ensures fits { OnOk result (ClocksFit waiting.now) }
{
    match waiting {
        Some(waiting) => save_waiting(waiting, out),
        None => Ok(()),
    }
}

// The last stamp of a clock that comes next.
#[tactic(auto, unfolding(crate::specs::Turns::read_stamp))]
fn restore_stamp(from: &mut Restoring<'_>) -> Option<Said>
    ensures { option_map (λ s. (s, from.new)) result ≡ read_stamp from.old }
{
    let time = from.number()?;
    let number = from.number()?;
    Some(Said { time, number })
}

// The same, or that it has none.
fn restore_said(from: &mut Restoring<'_>) -> Option<Option<Said>>
    ensures { option_map (λ s. (s, from.new)) result ≡ read_said from.old }
{
    match from.number()? {
        0 => Some(None),
        1 => Some(Some(restore_stamp(from)?)),
        _ => None,
    }
}

// So many of them that come next.
fn restore_some_stamps(
    alloc: Global,
    count: u64,
    from: &mut Restoring<'_>,
) -> Result<Option<Vec<Option<Said>>>, AllocError>
    ensures { IfOk result (λ o. option_map (λ v. (v.items, from.new)) o ≡ read_some read_said count from.old) }
{
    let mut stamps = Vec::new(alloc);
    let mut left = count;
    while 0 < left {
        let Some(said) = restore_said(from) else {
            return Ok(None);
        };
        stamps.push(said)?;
        left -= 1;
    }
    Ok(Some(stamps))
}

// Their list that comes next.
fn restore_stamps(
    alloc: Global,
    from: &mut Restoring<'_>,
) -> Result<Option<Vec<Option<Said>>>, AllocError>
    ensures { IfOk result (λ o. option_map (λ v. (v.items, from.new)) o ≡ read_list read_said from.old) }
{
    match from.number() {
        Some(count) => restore_some_stamps(alloc, count, from),
        None => Ok(None),
    }
}

// The record that comes next.
#[tactic(auto, unfolding(crate::specs::Turns::read_row))]
fn restore_row(alloc: Global, from: &mut Restoring<'_>) -> Result<Option<Row>, AllocError>
    ensures { IfOk result (λ o. option_map (λ r. (row_of r, from.new)) o ≡ read_row from.old) }
{
    let Some(time) = from.number() else {
        return Ok(None);
    };
    let Some(number) = from.number() else {
        return Ok(None);
    };
    let Some(event) = Event::restore(alloc, from)? else {
        return Ok(None);
    };
    Ok(Some(Row {
        time,
        number,
        event,
    }))
}

// So many of them that come next.
fn restore_some_rows(
    alloc: Global,
    count: u64,
    from: &mut Restoring<'_>,
) -> Result<Option<Vec<Row>>, AllocError>
    ensures { IfOk result (λ o. option_map (λ v. (map row_of v.items, from.new)) o ≡ read_some read_row count from.old) }
{
    let mut rows = Vec::new(alloc);
    let mut left = count;
    while 0 < left {
        let Some(row) = restore_row(alloc, from)? else {
            return Ok(None);
        };
        rows.push(row)?;
        left -= 1;
    }
    Ok(Some(rows))
}

// Their list that comes next.
fn restore_rows(alloc: Global, from: &mut Restoring<'_>) -> Result<Option<Vec<Row>>, AllocError>
    ensures { IfOk result (λ o. option_map (λ v. (map row_of v.items, from.new)) o ≡ read_list read_row from.old) }
{
    match from.number() {
        Some(count) => restore_some_rows(alloc, count, from),
        None => Ok(None),
    }
}

// Where clocks stand, that comes next.
#[tactic(auto, unfolding(crate::specs::Turns::read_stand))]
fn restore_standing(alloc: Global, from: &mut Restoring<'_>) -> Result<Option<Standing>, AllocError>
    ensures { IfOk result (λ o. option_map (λ s. (standing_of s, from.new)) o ≡ read_stand from.old) }
{
    let Some(said) = restore_stamps(alloc, from)? else {
        return Ok(None);
    };
    let Some(heard) = from.number() else {
        return Ok(None);
    };
    let Some(mark) = from.number() else {
        return Ok(None);
    };
    let Some(told) = from.number() else {
        return Ok(None);
    };
    let Some(rows) = restore_rows(alloc, from)? else {
        return Ok(None);
    };
    Ok(Some(Standing {
        said,
        heard,
        mark,
        told,
        rows,
    }))
}

// Has records wait that are by time, where none waits yet and there is room for them.
fn wait_all(waiting: &mut Waiting, rows: &[Row]) -> Result<(), AllocError>
    ensures { (c : AnyClocks) (count told : ℕ) (stamps : List AnyStamp) → AreByTime (map row_of rows.now) → length rows.now ≤ c.room →
        Hears c count waiting.old stamps told [] →
        OnOk result (Hears c count waiting.new stamps told (map row_of rows.now)) }
{
    for row in rows {
        waiting.wait(row.time, row.number, &row.event)?;
    }
    Ok(())
}

// The clocks that stand so, by these and so many.
fn resume_waiting(
    alloc: Global,
    clocks: Clocks,
    count: usize,
    standing: Standing,
) -> Result<Option<Waiting>, AllocError>
    requires clocks { IsClocks clocks }
    requires count { count ≤ MOST_CLOCKS }
    ensures restored { (was : AnyWaiting) (stamps : List AnyStamp) (told : ℕ) (waits : List (AnyTimed Numbered)) → Hears clocks count was stamps told waits →
        WaitingFits was → standing_of standing ≡ stand_of was →
        IfOk result (λ o. IfSome o (λ new. Hears clocks count new stamps told waits)) }
    ensures from_saved { (was : AnyWaiting) (stamps : List AnyStamp) (told : ℕ) (waits : List (AnyTimed Numbered)) → Hears clocks count was stamps told waits →
        standing_of standing ≡ stand_of was → IfOk result (λ o. is_some o ≡ true) }
{
    if standing.said.len() != count {
        return Ok(None);
    }
    let marks = Watermarks::resume(
        alloc,
        standing.said,
        standing.heard,
        standing.mark,
        clocks.rule,
    )?;
    let mut waiting = Waiting::resume(alloc, clocks, marks, standing.told)?;
    wait_all(&mut waiting, &standing.rows)?;
    Ok(Some(waiting))
}

// The clocks that come next, by these and so many.
fn restore_waiting(
    alloc: Global,
    clocks: Clocks,
    count: usize,
    from: &mut Restoring<'_>,
) -> Result<Option<Waiting>, AllocError>
    requires clocks { IsClocks clocks }
    requires count { count ≤ MOST_CLOCKS }
    ensures restored { (was : AnyWaiting) (stamps : List AnyStamp) (told : ℕ) (waits : List (AnyTimed Numbered)) (rest : List ℕ) →
        Hears clocks count was stamps told waits → WaitingFits was → from.old ≡ stand_text (stand_of was) ++ rest →
        IfOk result (λ o. IfSome o (λ new. Hears clocks count new stamps told waits × (from.new ≡ rest))) }
    ensures from_saved { (was : AnyWaiting) (stamps : List AnyStamp) (told : ℕ) (waits : List (AnyTimed Numbered)) (rest : List ℕ) →
        Hears clocks count was stamps told waits → WaitingFits was → from.old ≡ stand_text (stand_of was) ++ rest →
        IfOk result (λ o. is_some o ≡ true) }
{
    match restore_standing(alloc, from)? {
        Some(standing) => resume_waiting(alloc, clocks, count, standing),
        None => Ok(None),
    }
}

/// The clocks that come next, by these and so many, or none where the text goes on otherwise.
///
/// # Errors
///
/// Memory was refused.
pub fn restore_clocks(
    alloc: Global,
    clocks: Option<Clocks>,
    count: usize,
    from: &mut Restoring<'_>,
) -> Result<Option<Option<Waiting>>, AllocError>
    requires clocks { AreClocks clocks }
    requires count { count ≤ MOST_CLOCKS }
    ensures restored { (was : Option AnyWaiting) (stamps : List AnyStamp) (told : ℕ) (waits : List (AnyTimed Numbered)) (rest : List ℕ) →
        Hear clocks count was stamps told waits → ClocksFit was → from.old ≡ clocks_text was ++ rest →
        IfOk result (λ o. IfSome o (λ new. Hear clocks count new stamps told waits × (from.new ≡ rest))) }
    ensures from_saved { (was : Option AnyWaiting) (stamps : List AnyStamp) (told : ℕ) (waits : List (AnyTimed Numbered)) (rest : List ℕ) →
        Hear clocks count was stamps told waits → ClocksFit was → from.old ≡ clocks_text was ++ rest →
        IfOk result (λ o. is_some o ≡ true) }
{
    let Some(clocks) = clocks else {
        return Ok(Some(None));
    };
    match restore_waiting(alloc, clocks, count, from)? {
        Some(waiting) => Ok(Some(Some(waiting))),
        None => Ok(None),
    }
}
