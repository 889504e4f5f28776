//! The names of keys as a text, and back.

ghost use Rattle.std.specs.Prelude.{◌≡◌, ◌++◌, ◌<◌, List, ℕ, IfOk, IfSome, OnOk, length};
ghost use Rattle.wsm_semantics.specs.Text.{name_at};
ghost use Rattle.wsm_saved.specs.Lists.{BytesFit, ListFits, bytes_text, list_text};

use std::alloc::{AllocError, Global};
use wsm_key_names::KeyNames;
use wsm_saved::{Restoring, restore_all, save_bytes, save_number};

/// Adds names, in their order.
///
/// # Errors
///
/// Memory was refused. A part may have been added.
pub fn save_key_names(names: &KeyNames, out: &mut Vec<u8>) -> Result<(), AllocError>
    ensures text { OnOk result (out.new.items ≡ out.old.items ++ list_text bytes_text names.now) }
    ensures fits { OnOk result (ListFits BytesFit names.now) }
{
    let count = names.len();
    save_number(count as u64, out)?;
    for number in 0..count {
        save_bytes(names.text_of(number), out)?;
    }
    Ok(())
}

/// The names that come next, or none where the text goes on otherwise.
///
/// # Errors
///
/// Memory was refused.
pub fn restore_key_names(
    alloc: Global,
    from: &mut Restoring<'_>,
) -> Result<Option<KeyNames>, AllocError>
    ensures { (names : List (List ℕ)) (rest : List ℕ) → ListFits BytesFit names → from.old ≡ list_text bytes_text names ++ rest →
        IfOk result (λ o. IfSome o (λ new. (new ≡ names) × (from.new ≡ rest))) }
{
    let Some(names) = restore_all::<Vec<u8>>(alloc, from)? else {
        return Ok(None);
    };
    KeyNames::resume(alloc, &names)
}
