//! Where the time stands, and how it is written.

ghost use Rattle.std.specs.Prelude.{◌≡◌, ◌⊎◌, IfOk, IfErr, Ok, Err};
ghost use Rattle.toml.specs.View.{table_view};
ghost use Rattle.wsm_description.specs.TimePart.{unit_named, plain_form, is_flag, stamps_from, is_stamped, has_percent, without_zone, fold_named, fold_of, local_form, pattern_form, form_of, unit_of, time_of};

use crate::description::{FormDescription, TimeDescription};
use crate::keys::{Section, require_known};
use crate::reading::{require_absent, required_table, required_text, text_at, word_at};
use crate::refusal::{Refusal, SourceFault, refuse};
use std::alloc::Global;
use toml::Table;
use wsm_values::{Fold, Unit, Word, is_pattern};

// The unit of a word.
fn unit_named(word: &str) -> Option<Unit>
    ensures { result ≡ unit_named word.now }
{
    if word == "seconds" {
        Some(Unit::Seconds)
    } else if word == "milliseconds" {
        Some(Unit::Milliseconds)
    } else if word == "microseconds" {
        Some(Unit::Microseconds)
    } else {
        None
    }
}

// The form of a word, where it is no pattern.
fn plain_form(word: &str) -> Option<FormDescription>
    ensures { result ≡ plain_form word.now }
{
    if word == "rfc3339" {
        Some(FormDescription::Instant)
    } else if word == "fraction" {
        Some(FormDescription::Fraction)
    } else {
        match unit_named(word) {
            Some(unit) => Some(FormDescription::Epoch(unit)),
            None => None,
        }
    }
}

// Whether a byte may stand between the percent sign of a directive and its letter.
fn is_flag(byte: u8) -> bool
    ensures { result ≡ is_flag byte }
{
    byte == b'-'
        || byte == b'_'
        || byte == b'^'
        || byte == b'#'
        || byte == b':'
        || byte == b'.'
        || (b'0' <= byte && byte <= b'9')
}

// Whether what is left of a pattern has a directive of an offset or an instant.
fn stamps_from(inside: bool, pattern: &[u8]) -> bool
    ensures { result ≡ stamps_from inside pattern.now }
{
    match pattern.split_first() {
        None => false,
        Some((byte, rest)) => {
            if !inside {
                stamps_from(*byte == b'%', rest)
            } else if *byte == b'z' || *byte == b's' {
                true
            } else {
                stamps_from(is_flag(*byte), rest)
            }
        }
    }
}

// Whether a text has a percent sign.
fn has_percent(text: &[u8]) -> bool
    ensures { result ≡ has_percent text.now }
{
    for byte in text {
        if *byte == b'%' {
            return true;
        }
    }
    false
}

// A form that needs no zone has neither a zone nor a fold.
fn without_zone(
    alloc: Global,
    table: &Table,
    form: FormDescription,
) -> Result<FormDescription, Refusal>
    ensures ok { IfOk result (λ f. without_zone (table_view table.now) form ≡ Ok f) }
    ensures fault { IfErr result (λ r. (r ≡ Refusal.Memory) ⊎ (without_zone (table_view table.now) form ≡ Err r)) }
{
    require_absent(alloc, "time", table, "zone")?;
    require_absent(alloc, "time", table, "fold")?;
    Ok(form)
}

// The fold of a word.
fn fold_named(word: &str) -> Option<Fold>
    ensures { result ≡ fold_named word.now }
{
    if word == "refuse" {
        Some(Fold::Refused)
    } else if word == "first" {
        Some(Fold::First)
    } else if word == "second" {
        Some(Fold::Second)
    } else {
        None
    }
}

// What a time is that a clock shows twice.
fn fold_of(alloc: Global, table: &Table) -> Result<Fold, Refusal>
    ensures ok { IfOk result (λ f. fold_of (table_view table.now) ≡ Ok f) }
    ensures fault { IfErr result (λ r. (r ≡ Refusal.Memory) ⊎ (fold_of (table_view table.now) ≡ Err r)) }
{
    let Some(word) = text_at(alloc, "time", table, "fold")? else {
        return Ok(Fold::Refused);
    };
    match fold_named(word) {
        Some(fold) => Ok(fold),
        None => Err(refuse(alloc, SourceFault::BadWord, "time", "fold")),
    }
}

// A pattern of local times, with its zone.
fn local_form(alloc: Global, table: &Table, pattern: &str) -> Result<FormDescription, Refusal>
    ensures ok { IfOk result (λ f. local_form (table_view table.now) pattern.now ≡ Ok f) }
    ensures fault { IfErr result (λ r. (r ≡ Refusal.Memory) ⊎ (local_form (table_view table.now) pattern.now ≡ Err r)) }
{
    let Some(zone) = word_at(alloc, "time", table, "zone")? else {
        return Err(refuse(alloc, SourceFault::Conflict, "time", "form"));
    };
    let fold = fold_of(alloc, table)?;
    let pattern = Word::new(alloc, pattern)?;
    Ok(FormDescription::Local {
        pattern,
        zone,
        fold,
    })
}

// The form of a pattern, of which the reader of times takes each directive.
fn pattern_form(alloc: Global, table: &Table, pattern: &str) -> Result<FormDescription, Refusal>
    ensures ok { IfOk result (λ f. pattern_form (table_view table.now) pattern.now ≡ Ok f) }
    ensures fault { IfErr result (λ r. (r ≡ Refusal.Memory) ⊎ (pattern_form (table_view table.now) pattern.now ≡ Err r)) }
{
    if !has_percent(pattern.as_bytes()) || !is_pattern(pattern.as_bytes()) {
        Err(refuse(alloc, SourceFault::BadWord, "time", "form"))
    } else if stamps_from(false, pattern.as_bytes()) {
        without_zone(
            alloc,
            table,
            FormDescription::Stamped(Word::new(alloc, pattern)?),
        )
    } else {
        local_form(alloc, table, pattern)
    }
}

// How a time is written.
fn form_of(alloc: Global, table: &Table) -> Result<FormDescription, Refusal>
    ensures ok { IfOk result (λ f. form_of (table_view table.now) ≡ Ok f) }
    ensures fault { IfErr result (λ r. (r ≡ Refusal.Memory) ⊎ (form_of (table_view table.now) ≡ Err r)) }
{
    let word = required_text(alloc, "time", table, "form")?;
    match plain_form(word) {
        Some(form) => without_zone(alloc, table, form),
        None => pattern_form(alloc, table, word),
    }
}

// The unit of the query's clock.
fn unit_of(alloc: Global, table: &Table) -> Result<Unit, Refusal>
    ensures ok { IfOk result (λ u. unit_of (table_view table.now) ≡ Ok u) }
    ensures fault { IfErr result (λ r. (r ≡ Refusal.Memory) ⊎ (unit_of (table_view table.now) ≡ Err r)) }
{
    let Some(word) = text_at(alloc, "time", table, "unit")? else {
        return Ok(Unit::Seconds);
    };
    match unit_named(word) {
        Some(unit) => Ok(unit),
        None => Err(refuse(alloc, SourceFault::BadWord, "time", "unit")),
    }
}

/// What is said of the time.
pub fn time_of(alloc: Global, table: &Table) -> Result<TimeDescription, Refusal>
    ensures ok { IfOk result (λ time. time_of (table_view table.now) ≡ Ok time) }
    ensures fault { IfErr result (λ r. (r ≡ Refusal.Memory) ⊎ (time_of (table_view table.now) ≡ Err r)) }
{
    let table = required_table(alloc, "", table, "time")?;
    require_known(alloc, Section::Time, "time", table)?;
    let at = required_text(alloc, "time", table, "at")?;
    let unit = unit_of(alloc, table)?;
    let form = form_of(alloc, table)?;
    let at = Word::new(alloc, at)?;
    Ok(TimeDescription { at, form, unit })
}
