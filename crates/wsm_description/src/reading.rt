//! Values of a TOML table, by the type that their keys ask for.

ghost use Rattle.std.specs.Prelude.{◌≡◌, ◌≤◌, ◌⊎◌, IfOk, IfErr, IfSome, Ok, Err, Some, option_map};
ghost use Rattle.std.specs.Result.{result_map_both};
ghost use Rattle.toml.specs.Data.{as_str, as_integer, as_table, get_member};
ghost use Rattle.toml.specs.View.{view, table_view};
ghost use Rattle.wsm_description.specs.Reading.{read_as, natural, number_in, mark_in, takes_mark, text_at, required_text, table_at, required_table, number_at, mark_at, absent};

use crate::refusal::{Refusal, SourceFault, refuse};
use std::alloc::Global;
use toml::{Table, Value};
use wsm_values::Word;

/// What a character stands between.
#[derive(Clone, Copy)]
pub enum Mark {
    /// Cells.
    Separator,
    /// Digits.
    Sign,
}

// The value at a key.
pub fn found<'t>(table: &'t Table, key: &str) -> Option<&'t Value>
    ensures { option_map (λ v. view v.now) result ≡ get_member key.now (table_view table.now) }
{
    table.get(key)
}

fn as_text<'t>(table: &'t Table, key: &str) -> Result<Option<&'t str>, SourceFault>
    ensures { result_map_both (option_map (λ s. s.now)) (λ e. e) result ≡ read_as as_str (get_member key.now (table_view table.now)) }
{
    let Some(value) = found(table, key) else {
        return Ok(None);
    };
    match value.as_str() {
        Some(text) => Ok(Some(text)),
        None => Err(SourceFault::BadType),
    }
}

fn as_members<'t>(table: &'t Table, key: &str) -> Result<Option<&'t Table>, SourceFault>
    ensures { result_map_both (option_map (λ t. table_view t.now)) (λ e. e) result ≡ read_as as_table (get_member key.now (table_view table.now)) }
{
    let Some(value) = found(table, key) else {
        return Ok(None);
    };
    match value.as_table() {
        Some(inner) => Ok(Some(inner)),
        None => Err(SourceFault::BadType),
    }
}

fn as_whole(table: &Table, key: &str) -> Result<Option<i64>, SourceFault>
    ensures { result ≡ read_as as_integer (get_member key.now (table_view table.now)) }
{
    let Some(value) = found(table, key) else {
        return Ok(None);
    };
    match value.as_integer() {
        Some(number) => Ok(Some(number)),
        None => Err(SourceFault::BadType),
    }
}

// The number, where it isn't negative.
fn natural(number: i64) -> Option<u64>
    ensures { result ≡ natural number }
{
    if number < 0 {
        None
    } else {
        Some(number as u64)
    }
}

// A number within its range.
fn as_number(table: &Table, key: &str, least: u64, most: u64) -> Result<Option<u64>, SourceFault>
    ensures value { result ≡ number_in least most (read_as as_integer (get_member key.now (table_view table.now))) }
    ensures most { IfOk result (λ o. IfSome o (λ n. n ≤ most)) }
{
    let Some(number) = as_whole(table, key)? else {
        return Ok(None);
    };
    let Some(number) = natural(number) else {
        return Err(SourceFault::BadRange);
    };
    if number < least {
        Err(SourceFault::BadRange)
    } else if most < number {
        Err(SourceFault::BadRange)
    } else {
        Ok(Some(number))
    }
}

impl Mark {
    // Whether a byte may be the character.
    fn takes(self, byte: u8) -> bool
        ensures { result ≡ takes_mark self byte }
    {
        match self {
            Mark::Separator => { byte < 128 && byte != b'"' && byte != b'\r' && byte != b'\n' }
            Mark::Sign => byte < 128 && byte != b'-' && (byte < b'0' || b'9' < byte),
        }
    }
}

// A text of one such character.
fn as_mark(table: &Table, key: &str, kind: Mark) -> Result<Option<u8>, SourceFault>
    ensures { result ≡ mark_in kind (read_as as_str (get_member key.now (table_view table.now))) }
{
    let Some(text) = as_text(table, key)? else {
        return Ok(None);
    };
    match text.as_bytes() {
        [byte] => {
            if kind.takes(*byte) {
                Ok(Some(*byte))
            } else {
                Err(SourceFault::BadWord)
            }
        }
        _ => Err(SourceFault::BadWord),
    }
}

/// The text at a key of a section.
pub fn text_at<'t>(
    alloc: Global,
    section: &str,
    table: &'t Table,
    key: &str,
) -> Result<Option<&'t str>, Refusal>
    ensures ok { IfOk result (λ text. text_at section.now key.now (table_view table.now) ≡ Ok (option_map (λ s. s.now) text)) }
    ensures fault { IfErr result (λ r. (r ≡ Refusal.Memory) ⊎ (text_at section.now key.now (table_view table.now) ≡ Err r)) }
{
    match as_text(table, key) {
        Ok(text) => Ok(text),
        Err(fault) => Err(refuse(alloc, fault, section, key)),
    }
}

/// A copy of the text at a key of a section.
pub fn word_at(
    alloc: Global,
    section: &str,
    table: &Table,
    key: &str,
) -> Result<Option<Word>, Refusal>
    ensures ok { IfOk result (λ word. text_at section.now key.now (table_view table.now) ≡ Ok word) }
    ensures fault { IfErr result (λ r. (r ≡ Refusal.Memory) ⊎ (text_at section.now key.now (table_view table.now) ≡ Err r)) }
{
    match text_at(alloc, section, table, key)? {
        Some(text) => Ok(Some(Word::new(alloc, text)?)),
        None => Ok(None),
    }
}

/// The text at a key that has to be there.
pub fn required_text<'t>(
    alloc: Global,
    section: &str,
    table: &'t Table,
    key: &str,
) -> Result<&'t str, Refusal>
    ensures ok { IfOk result (λ text. required_text section.now key.now (table_view table.now) ≡ Ok text.now) }
    ensures fault { IfErr result (λ r. (r ≡ Refusal.Memory) ⊎ (required_text section.now key.now (table_view table.now) ≡ Err r)) }
{
    match text_at(alloc, section, table, key)? {
        Some(text) => Ok(text),
        None => Err(refuse(alloc, SourceFault::MissingKey, section, key)),
    }
}

/// The table at a key of a section.
pub fn table_at<'t>(
    alloc: Global,
    section: &str,
    table: &'t Table,
    key: &str,
) -> Result<Option<&'t Table>, Refusal>
    ensures ok { IfOk result (λ inner. table_at section.now key.now (table_view table.now) ≡ Ok (option_map (λ t. table_view t.now) inner)) }
    ensures fault { IfErr result (λ r. (r ≡ Refusal.Memory) ⊎ (table_at section.now key.now (table_view table.now) ≡ Err r)) }
{
    match as_members(table, key) {
        Ok(inner) => Ok(inner),
        Err(fault) => Err(refuse(alloc, fault, section, key)),
    }
}

/// The table at a key that has to be there.
pub fn required_table<'t>(
    alloc: Global,
    section: &str,
    table: &'t Table,
    key: &str,
) -> Result<&'t Table, Refusal>
    ensures ok { IfOk result (λ inner. required_table section.now key.now (table_view table.now) ≡ Ok (table_view inner.now)) }
    ensures fault { IfErr result (λ r. (r ≡ Refusal.Memory) ⊎ (required_table section.now key.now (table_view table.now) ≡ Err r)) }
{
    match table_at(alloc, section, table, key)? {
        Some(inner) => Ok(inner),
        None => Err(refuse(alloc, SourceFault::MissingKey, section, key)),
    }
}

/// The number at a key of a section, within its range.
pub fn number_at(
    alloc: Global,
    section: &str,
    table: &Table,
    key: &str,
    least: u64,
    most: u64,
) -> Result<Option<u64>, Refusal>
    ensures ok { IfOk result (λ number. number_at section.now key.now least most (table_view table.now) ≡ Ok number) }
    ensures most { IfOk result (λ o. IfSome o (λ n. n ≤ most)) }
    ensures fault { IfErr result (λ r. (r ≡ Refusal.Memory) ⊎ (number_at section.now key.now least most (table_view table.now) ≡ Err r)) }
{
    match as_number(table, key, least, most) {
        Ok(number) => Ok(number),
        Err(fault) => Err(refuse(alloc, fault, section, key)),
    }
}

/// The character at a key of a section.
pub fn mark_at(
    alloc: Global,
    section: &str,
    table: &Table,
    key: &str,
    kind: Mark,
) -> Result<Option<u8>, Refusal>
    ensures ok { IfOk result (λ byte. mark_at section.now key.now kind (table_view table.now) ≡ Ok byte) }
    ensures fault { IfErr result (λ r. (r ≡ Refusal.Memory) ⊎ (mark_at section.now key.now kind (table_view table.now) ≡ Err r)) }
{
    match as_mark(table, key, kind) {
        Ok(byte) => Ok(byte),
        Err(fault) => Err(refuse(alloc, fault, section, key)),
    }
}

/// Refuses a key that may not stand there beside the others.
pub fn require_absent(alloc: Global, section: &str, table: &Table, key: &str) -> Result<(), Refusal>
    ensures ok { IfOk result (λ u. absent section.now key.now (table_view table.now) ≡ Ok u) }
    ensures fault { IfErr result (λ r. (r ≡ Refusal.Memory) ⊎ (absent section.now key.now (table_view table.now) ≡ Err r)) }
{
    match found(table, key) {
        None => Ok(()),
        Some(_) => Err(refuse(alloc, SourceFault::Conflict, section, key)),
    }
}
