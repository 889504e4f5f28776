//! The names of clocks.

ghost use Rattle.std.specs.Prelude.{◌≡◌, ◌++◌, ◌<◌, List, ℕ, [], None, Option, Some, IfOk, IfSome, OnOk, length, map, slice_index_or};
ghost use Rattle.wsm_saved.specs.Lists.{BytesFit, bytes_text, list_text};
ghost use Rattle.wsm_turns.specs.Named.{Knows};
ghost use Rattle.wsm_saved_turns.specs.Turns.{NamesFit, names_text};

use std::alloc::{AllocError, Global};
use wsm_saved::{Restoring, restore_all, save_bytes, save_number};
use wsm_turns::ClockNames;

// The name of a clock that has spoken.
fn save_name(names: &ClockNames, number: usize, out: &mut Vec<u8>) -> Result<(), AllocError>
    requires { number < length names.now.names }
    ensures text { OnOk result (out.new.items ≡ out.old.items ++ bytes_text (slice_index_or names.now.names number [])) }
    ensures fits { OnOk result (BytesFit (slice_index_or names.now.names number [])) }
{
    match names.name(number) {
        Some(name) => save_bytes(name, out),
        None => Ok(()),
    }
}

// The names of those that have spoken.
fn save_known(names: &ClockNames, out: &mut Vec<u8>) -> Result<(), AllocError>
    ensures text { OnOk result (out.new.items ≡ out.old.items ++ list_text bytes_text names.now.names) }
    ensures fits { OnOk result (NamesFit names.now.names) }
{
    let count = names.len();
    save_number(count as u64, out)?;
    for number in 0..count {
        save_name(names, number, out)?;
    }
    Ok(())
}

/// Adds the names of clocks, where lines name them.
///
/// # Errors
///
/// Memory was refused. A part may have been added.
pub fn save_names(names: &Option<ClockNames>, out: &mut Vec<u8>) -> Result<(), AllocError>
    ensures text { (named : Option ℕ) (list : List (List ℕ)) → Knows named names.now list →
        OnOk result (out.new.items ≡ out.old.items ++ names_text named list) }
    ensures fits { (named : Option ℕ) (list : List (List ℕ)) → Knows named names.now list → OnOk result (NamesFit list) }
{
    match names {
        Some(names) => save_known(names, out),
        None => Ok(()),
    }
}

// The clocks of these names, of which there may be so many.
fn known_by(
    alloc: Global,
    most: usize,
    names: &[Vec<u8>],
) -> Result<Option<Option<ClockNames>>, AllocError>
    ensures { IfOk result (λ o. IfSome o (λ new. new ≡ Some (record { most = most; names = map (λ v. v.items) names.now }))) }
{
    match ClockNames::resume(alloc, most, names)? {
        Some(known) => Ok(Some(Some(known))),
        None => Ok(None),
    }
}

// The names that come next, of which there may be so many.
fn restore_known(
    alloc: Global,
    most: usize,
    from: &mut Restoring<'_>,
) -> Result<Option<Option<ClockNames>>, AllocError>
    ensures { (list : List (List ℕ)) (rest : List ℕ) → NamesFit list → from.old ≡ list_text bytes_text list ++ rest →
        IfOk result (λ o. IfSome o (λ new. Knows (Some most) new list × (from.new ≡ rest))) }
{
    let Some(names) = restore_all::<Vec<u8>>(alloc, from)? else {
        return Ok(None);
    };
    known_by(alloc, most, &names)
}

/// The names of clocks that come next, where lines name them: there may be so many then. None where the text goes on otherwise.
///
/// # Errors
///
/// Memory was refused.
pub fn restore_names(
    alloc: Global,
    named: Option<usize>,
    from: &mut Restoring<'_>,
) -> Result<Option<Option<ClockNames>>, AllocError>
    ensures { (list : List (List ℕ)) (rest : List ℕ) → NamesFit list → (named ≡ None → list ≡ []) → from.old ≡ names_text named list ++ rest →
        IfOk result (λ o. IfSome o (λ new. Knows named new list × (from.new ≡ rest))) }
{
    match named {
        Some(most) => restore_known(alloc, most, from),
        None => Ok(Some(None)),
    }
}
