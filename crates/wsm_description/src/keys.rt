//! Which keys may stand in a table.

ghost use Rattle.std.specs.Prelude.{◌≡◌, ◌⊎◌, IfOk, IfErr, Ok, Err, option_map};
ghost use Rattle.toml.specs.View.{table_view};
ghost use Rattle.wsm_description.specs.Keys.{is_whole_key, is_key_key, is_time_key, is_field_key, is_clock_key, has_key, unknown_in, known_keys};

use crate::refusal::{Refusal, SourceFault, refuse};
use std::alloc::Global;
use toml::Table;

/// A table of a source.
#[derive(Clone, Copy)]
pub enum Section {
    Whole,
    Key,
    Time,
    Field,
    Clock,
    Identifier,
}

fn is_whole_key(key: &str) -> bool
    ensures { result ≡ is_whole_key key.now }
{
    key == "format"
        || key == "longest"
        || key == "separator"
        || key == "keys"
        || key == "key"
        || key == "time"
        || key == "fields"
        || key == "clock"
        || key == "identifier"
}

fn is_key_key(key: &str) -> bool
    ensures { result ≡ is_key_key key.now }
{
    key == "at" || key == "names" || key == "prefixes" || key == "other"
}

fn is_time_key(key: &str) -> bool
    ensures { result ≡ is_time_key key.now }
{
    key == "at" || key == "form" || key == "zone" || key == "fold" || key == "unit"
}

fn is_field_key(key: &str) -> bool
    ensures { result ≡ is_field_key key.now }
{
    key == "at"
        || key == "scale"
        || key == "point"
        || key == "group"
        || key == "default"
        || key == "true"
        || key == "false"
        || key == "words"
}

fn is_clock_key(key: &str) -> bool
    ensures { result ≡ is_clock_key key.now }
{
    key == "agree"
        || key == "bound"
        || key == "step"
        || key == "forget"
        || key == "room"
        || key == "at"
        || key == "clocks"
}

impl Section {
    // Whether a key means something in the section.
    fn has(self, key: &str) -> bool
        ensures { result ≡ has_key self key.now }
    {
        match self {
            Section::Whole => is_whole_key(key),
            Section::Key => is_key_key(key),
            Section::Time => is_time_key(key),
            Section::Field => is_field_key(key),
            Section::Clock => is_clock_key(key),
            Section::Identifier => key == "at",
        }
    }
}

// The first key, by the order of their bytes, that means nothing in the section.
fn unknown_in<'t>(kind: Section, table: &'t Table) -> Option<&'t str>
    ensures { option_map (λ s. s.now) result ≡ unknown_in kind (table_view table.now) }
{
    for (key, _value) in table.iter() {
        let key = key.as_str();
        if !kind.has(key) {
            return Some(key);
        }
    }
    None
}

/// Refuses a table with a key that means nothing there.
pub fn require_known(
    alloc: Global,
    kind: Section,
    section: &str,
    table: &Table,
) -> Result<(), Refusal>
    ensures ok { IfOk result (λ u. known_keys kind section.now (table_view table.now) ≡ Ok u) }
    ensures fault { IfErr result (λ r. (r ≡ Refusal.Memory) ⊎ (known_keys kind section.now (table_view table.now) ≡ Err r)) }
{
    match unknown_in(kind, table) {
        None => Ok(()),
        Some(key) => Err(refuse(alloc, SourceFault::UnknownKey, section, key)),
    }
}
