//! Bytes as text.

ghost use Rattle.std.specs.Prelude.{◌≡◌, ◌++◌, IfOk, OnOk, option_map};
ghost use Rattle.wsm_saved.specs.Lists.{BytesFit, bytes_text, read_bytes};

use crate::restoring::Restoring;
use crate::saved::{restore_all, save_all};
use std::alloc::{AllocError, Global};

/// Adds bytes: how many there are, and each.
///
/// # Errors
///
/// Memory was refused. A part may have been added.
pub fn save_bytes(bytes: &[u8], out: &mut Vec<u8>) -> Result<(), AllocError>
    ensures text { OnOk result (out.new.items ≡ out.old.items ++ bytes_text bytes.now) }
    ensures fits { OnOk result (BytesFit bytes.now) }
{
    save_all(bytes, out)
}

/// The bytes that come next, or none where the text goes on otherwise.
///
/// # Errors
///
/// Memory was refused.
pub fn restore_bytes(alloc: Global, from: &mut Restoring<'_>) -> Result<Option<Vec<u8>>, AllocError>
    ensures { IfOk result (λ o. option_map (λ v. (v.items, from.new)) o ≡ read_bytes from.old) }
{
    restore_all(alloc, from)
}
