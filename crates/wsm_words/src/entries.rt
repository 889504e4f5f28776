//! What a parse gives of the words behind a command.

ghost use Rattle.std.specs.Prelude.{◌≡◌, IfOk, option_map, string_bytes};
ghost use Rattle.clap.specs.Words.{one_of, found_of, rows_of as entries_of};
ghost use Rattle.wsm_words.specs.Words.{HasOption, IsNamed, Names, NamesRows, SaysFlag, rows_named};

use crate::job::Named;
use clap::ArgMatches;
use std::alloc::{AllocError, Global};

/// Whether a parse gives a flag.
pub fn flag_of(inner: &ArgMatches<'_>, name: &str) -> bool
    ensures { SaysFlag (one_of name.now (entries_of (found_of inner.now))) result }
{
    inner.get_flag(name)
}

/// The value of an option, if a parse gives it. It stands as it is: `-` means nothing special.
pub fn option_of(
    alloc: Global,
    inner: &ArgMatches<'_>,
    name: &str,
) -> Result<Option<String>, AllocError>
    ensures { IfOk result (HasOption (entries_of (found_of inner.now)) name.now) }
{
    let value = text_of(alloc, inner.get_str(name))?;
    Ok(value)
}

/// The name of a file, or another text, that a parse gives: its words have one.
pub fn file_of(alloc: Global, inner: &ArgMatches<'_>, id: &str) -> Result<String, AllocError>
    ensures { IfOk result (Names (entries_of (found_of inner.now)) id.now) }
{
    match text_of(alloc, inner.get_str(id))? {
        Some(name) => Ok(name),
        // This doesn't come: `file` and `needed` have each of them required, so `clap` refuses words without one.
        None => Err(AllocError),
    }
}

/// The keys that a parse names.
pub fn named_in(alloc: Global, inner: &ArgMatches<'_>) -> Result<Named, AllocError>
    ensures { IfOk result (IsNamed (entries_of (found_of inner.now))) }
{
    let file = option_of(alloc, inner, "keys")?;
    let takes_new = flag_of(inner, "new-keys");
    let most = option_of(alloc, inner, "most-keys")?;
    Ok(Named {
        file,
        takes_new,
        most,
    })
}

/// The name of the file of the rows that a parse gives, if it gives one.
pub fn rows_in(alloc: Global, inner: &ArgMatches<'_>) -> Result<Option<String>, AllocError>
    ensures { IfOk result (NamesRows (entries_of (found_of inner.now))) }
{
    let rows = rows_of(alloc, inner.get_str("rows"))?;
    Ok(rows)
}

// The name of the file of the rows, if one is named: `-` is the standard input.
fn rows_of(alloc: Global, name: Option<&str>) -> Result<Option<String>, AllocError>
    ensures { IfOk result (λ rows. option_map string_bytes rows ≡ rows_named (option_map (λ t. t.now) name.entry)) }
{
    match name {
        Some("-") => Ok(None),
        name => text_of(alloc, name),
    }
}

// A copy of a text, if there is one.
fn text_of(alloc: Global, text: Option<&str>) -> Result<Option<String>, AllocError>
    ensures { IfOk result (λ copy. option_map string_bytes copy ≡ option_map (λ t. t.now) text.entry) }
{
    match text {
        Some(text) => Ok(Some(String::from_str(alloc, text)?)),
        None => Ok(None),
    }
}
