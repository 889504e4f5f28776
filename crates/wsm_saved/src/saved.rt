//! What can be written as a text and comes back.

ghost use Rattle.std.specs.Prelude.{◌≡◌, ◌++◌, List, ℕ, Some, IfOk, OnOk, map, option_map};
ghost use Rattle.wsm_saved.specs.Lists.{ListFits, list_text, read_list, read_some};

use crate::restoring::Restoring;
use crate::saving::save_number;
use std::alloc::{AllocError, Global};

/// What can be written as a text and comes back.
pub trait Saved: Sized + Drop {
    ghost use Rattle.std.specs.Prelude.{◌≡◌, ◌++◌, List, ℕ, Option, Some, IfOk, OnOk, option_map};
    ghost use Rattle.wsm_saved.specs.Lists.{ReadsBack};

    /// What is seen of a value.
    ghost Shown: { Type 0 };

    /// It, of a value.
    ghost shown: { Self → Shown };

    /// The text of a value.
    ghost text: { Shown → List ℕ };

    /// The value that a text begins with, and the text behind it.
    ghost read: { List ℕ → Option (Shown × List ℕ) };

    /// A value's numbers fit their types. Each value of the code's does.
    ghost Fits: { Shown → Type 0 };

    /// Adds its text.
    ///
    /// # Errors
    ///
    /// Memory was refused. A part may have been added.
    fn save(&self, out: &mut Vec<u8>) -> Result<(), AllocError>
        ensures text { OnOk result (out.new.items ≡ out.old.items ++ text (shown self.now)) }
        ensures fits { OnOk result (Fits (shown self.now)) };

    /// The value that comes next, or none where the text goes on otherwise.
    ///
    /// # Errors
    ///
    /// Memory was refused.
    fn restore(alloc: Global, from: &mut Restoring<'_>) -> Result<Option<Self>, AllocError>
        ensures { IfOk result (λ o. option_map (λ v. (shown v, from.new)) o ≡ read from.old) };

    /// What was written comes back, whatever stands behind it.
    ghost back: { ReadsBack text read Fits };
}

/// Adds the text of a list.
///
/// # Errors
///
/// Memory was refused. A part may have been added.
pub fn save_all<T: Saved>(values: &[T], out: &mut Vec<u8>) -> Result<(), AllocError>
    ensures text { OnOk result (out.new.items ≡ out.old.items ++ list_text T.text (map T.shown values.now)) }
    ensures fits { OnOk result (ListFits T.Fits (map T.shown values.now)) }
{
    save_number(values.len() as u64, out)?;
    for value in values {
        value.save(out)?;
    }
    Ok(())
}

// So many values that come next, one behind the other.
fn restore_some<T: Saved>(
    alloc: Global,
    count: u64,
    from: &mut Restoring<'_>,
) -> Result<Option<Vec<T>>, AllocError>
    ensures { IfOk result (λ o. option_map (λ v. (map T.shown v.items, from.new)) o ≡ read_some T.read count from.old) }
{
    let mut values = Vec::new(alloc);
    let mut left = count;
    while 0 < left {
        let Some(value) = T::restore(alloc, from)? else {
            return Ok(None);
        };
        values.push(value)?;
        left -= 1;
    }
    Ok(Some(values))
}

/// The list that comes next, or none where the text goes on otherwise.
///
/// # Errors
///
/// Memory was refused.
pub fn restore_all<T: Saved>(
    alloc: Global,
    from: &mut Restoring<'_>,
) -> Result<Option<Vec<T>>, AllocError>
    ensures read { IfOk result (λ o. option_map (λ v. (map T.shown v.items, from.new)) o ≡ read_list T.read from.old) }
    ensures back { (xs : List T.Shown) (rest : List ℕ) → ListFits T.Fits xs → from.old ≡ list_text T.text xs ++ rest
        → IfOk result (λ o. option_map {U = List T.Shown × List ℕ} (λ v. (map T.shown v.items, from.new)) o ≡ Some (xs, rest)) }
{
    match from.number() {
        Some(count) => restore_some(alloc, count, from),
        None => Ok(None),
    }
}

impl Saved for u64 {
    ghost use Rattle.std.specs.Prelude.{◌<◌, ◌^◌, ℕ};
    ghost use Rattle.wsm_journal.specs.Reading.{number_of};
    ghost use Rattle.wsm_saved.specs.Numbers.{number_text};
    ghost use Rattle.wsm_saved.specs.Back.{number_reads_back};

    ghost Shown = { ℕ };

    ghost shown = { λ n. n };

    ghost text = { number_text };

    ghost read = { number_of };

    ghost Fits = { λ n. n < 2 ^ 64 };

    ghost back = { number_reads_back };

    fn save(&self, out: &mut Vec<u8>) -> Result<(), AllocError> {
        save_number(*self, out)
    }

    fn restore(_alloc: Global, from: &mut Restoring<'_>) -> Result<Option<u64>, AllocError> {
        Ok(from.number())
    }
}

impl Saved for u8 {
    ghost use Rattle.std.specs.Prelude.{◌<◌, ◌^◌, ℕ};
    ghost use Rattle.wsm_saved.specs.Numbers.{number_text, read_byte};
    ghost use Rattle.wsm_saved.specs.Back.{byte_reads_back};

    ghost Shown = { ℕ };

    ghost shown = { λ n. n };

    ghost text = { number_text };

    ghost read = { read_byte };

    ghost Fits = { λ n. n < 2 ^ 8 };

    ghost back = { byte_reads_back };

    fn save(&self, out: &mut Vec<u8>) -> Result<(), AllocError> {
        save_number(*self as u64, out)
    }

    fn restore(_alloc: Global, from: &mut Restoring<'_>) -> Result<Option<u8>, AllocError> {
        Ok(from.byte())
    }
}

impl<T: Saved> Saved for Vec<T> {
    ghost use Rattle.std.specs.Prelude.{List, map};
    ghost use Rattle.wsm_saved.specs.Lists.{ListFits, list_text, read_list};
    ghost use Rattle.wsm_saved.specs.Back.{list_reads_back};

    ghost Shown = { List T.Shown };

    ghost shown = { λ v. map T.shown v.items };

    ghost text = { list_text T.text };

    ghost read = { read_list T.read };

    ghost Fits = { ListFits T.Fits };

    ghost back = { list_reads_back T.text T.read T.Fits T.back };

    fn save(&self, out: &mut Vec<u8>) -> Result<(), AllocError> {
        save_all(self, out)
    }

    fn restore(alloc: Global, from: &mut Restoring<'_>) -> Result<Option<Vec<T>>, AllocError> {
        restore_all(alloc, from)
    }
}

impl<T: Saved> Saved for Option<T> {
    ghost use Rattle.std.specs.Prelude.{Option, option_map};
    ghost use Rattle.wsm_saved.specs.Lists.{OptionFits, option_text, read_option};
    ghost use Rattle.wsm_saved.specs.Back.{option_reads_back};

    ghost Shown = { Option T.Shown };

    ghost shown = { λ o. option_map T.shown o };

    ghost text = { option_text T.text };

    ghost read = { read_option T.read };

    ghost Fits = { OptionFits T.Fits };

    ghost back = { option_reads_back T.text T.read T.Fits T.back };

    fn save(&self, out: &mut Vec<u8>) -> Result<(), AllocError> {
        match self {
            Some(value) => {
                save_number(1, out)?;
                value.save(out)
            }
            None => save_number(0, out),
        }
    }

    fn restore(alloc: Global, from: &mut Restoring<'_>) -> Result<Option<Option<T>>, AllocError> {
        match from.number() {
            Some(0) => Ok(Some(None)),
            Some(1) => match T::restore(alloc, from)? {
                Some(value) => Ok(Some(Some(value))),
                None => Ok(None),
            },
            _ => Ok(None),
        }
    }
}
