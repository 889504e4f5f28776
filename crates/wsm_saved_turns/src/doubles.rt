//! Identifiers with the times of their records.

ghost use Rattle.std.specs.Prelude.{◌≡◌, ◌++◌, List, ℕ, IfOk, IfSome, OnOk, is_some, map, option_map, true};
ghost use Rattle.wsm_doubles.specs.Entries.{entry_of};
ghost use Rattle.wsm_doubles.specs.Memory.{Memory};
ghost use Rattle.wsm_saved.specs.Lists.{read_list, read_some};
ghost use Rattle.wsm_saved_turns.specs.Turns.{DoublesFit, EntryFits, doubles_text, entry_text, read_entry};

use std::alloc::{AllocError, Global};
use wsm_doubles::{Doubles, Entry};
use wsm_saved::{Restoring, restore_bytes, save_bytes, save_number, save_signed};

// An identifier, and the time of its record.
fn save_entry(identifier: &[u8], time: i64, out: &mut Vec<u8>) -> Result<(), AllocError>
    ensures text { OnOk result (out.new.items ≡ out.old.items ++ entry_text (identifier.now, time)) }
    ensures fits { OnOk result (EntryFits (identifier.now, time)) }
{
    save_bytes(identifier, out)?;
    save_signed(time, out)
}

// The identifier that comes next, and the time of its record.
#[tactic(auto, unfolding(crate::specs::Turns::read_entry))]
fn restore_entry(alloc: Global, from: &mut Restoring<'_>) -> Result<Option<Entry>, AllocError>
    ensures { IfOk result (λ o. option_map (λ e. (entry_of e, from.new)) o ≡ read_entry from.old) }
{
    let Some(identifier) = restore_bytes(alloc, from)? else {
        return Ok(None);
    };
    let Some(time) = from.signed() else {
        return Ok(None);
    };
    Ok(Some(Entry { identifier, time }))
}

// So many of them that come next.
fn restore_some(
    alloc: Global,
    count: u64,
    from: &mut Restoring<'_>,
) -> Result<Option<Vec<Entry>>, AllocError>
    ensures { IfOk result (λ o. option_map (λ v. (map entry_of v.items, from.new)) o ≡ read_some read_entry count from.old) }
{
    let mut entries = Vec::new(alloc);
    let mut left = count;
    while 0 < left {
        let Some(entry) = restore_entry(alloc, from)? else {
            return Ok(None);
        };
        entries.push(entry)?;
        left -= 1;
    }
    Ok(Some(entries))
}

// Their list that comes next.
fn restore_entries(
    alloc: Global,
    from: &mut Restoring<'_>,
) -> Result<Option<Vec<Entry>>, AllocError>
    ensures { IfOk result (λ o. option_map (λ v. (map entry_of v.items, from.new)) o ≡ read_list read_entry from.old) }
{
    match from.number() {
        Some(count) => restore_some(alloc, count, from),
        None => Ok(None),
    }
}

/// Adds identifiers that are kept, with the times of their records.
///
/// # Errors
///
/// Memory was refused. A part may have been added.
pub fn save_doubles(doubles: &Doubles, out: &mut Vec<u8>) -> Result<(), AllocError>
    ensures text { OnOk result (out.new.items ≡ out.old.items ++ doubles_text doubles.now.entries) }
    ensures fits { OnOk result (DoublesFit doubles.now.entries) }
{
    let count = doubles.len();
    save_number(count as u64, out)?;
    for number in 0..count {
        save_entry(doubles.identifier(number), doubles.time(number), out)?;
    }
    Ok(())
}

/// The identifiers that come next, or none where the text goes on otherwise.
///
/// # Errors
///
/// Memory was refused, or there are more than 2^32 - 1.
pub fn restore_doubles(
    alloc: Global,
    from: &mut Restoring<'_>,
) -> Result<Option<Doubles>, AllocError>
    ensures restored { (known : Memory) (rest : List ℕ) → DoublesFit known → from.old ≡ doubles_text known ++ rest →
        IfOk result (λ o. IfSome o (λ d. (d.entries ≡ known) × (from.new ≡ rest))) }
    ensures from_saved { (known : Memory) (rest : List ℕ) → DoublesFit known → from.old ≡ doubles_text known ++ rest → IfOk result (λ o. is_some o ≡ true) }
{
    let Some(entries) = restore_entries(alloc, from)? else {
        return Ok(None);
    };
    Ok(Some(Doubles::resume(alloc, &entries)?))
}
