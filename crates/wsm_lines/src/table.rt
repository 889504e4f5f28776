//! Words and what they stand for.
ghost use Rattle.std.specs.Prelude.{◌≡◌, [], OnOk, OnErr};
ghost use Rattle.wsm_lines.specs.Entries.{added, entry_with, number_in, number_begun};

use indexmap::IndexMap;
use std::alloc::{AllocError, Global};
use std::marker::Model;
use wsm_values::Word;

/// A word and the number of the name that it stands for.
#[derive(Drop)]
pub struct Entry {
    pub word: Word,
    pub number: u16,
}

/// Words and what they stand for, found by the whole word. Of a word that comes twice the first entry
/// counts.
#[derive(Drop)]
pub struct Table {
    numbers: IndexMap<Vec<u8>, u16>,
}

impl Model for Table {
    ghost use Rattle.std.specs.Prelude.{ℕ, List, map};
    ghost use Rattle.wsm_lines.specs.Entries.{entry_with};
    ghost use Rattle.wsm_lines.specs.declared.table.Entry.{Entry};

    ghost Value = { List Entry };

    ghost view = { λ a. map (λ e. entry_with e.0.items e.1) a.numbers.entries };
}

impl Table {
    /// No words yet.
    pub fn new(alloc: Global) -> Table
        ensures { result ≡ [] }
    {
        Table {
            numbers: IndexMap::new(alloc),
        }
    }

    /// Adds a word behind the others, where it isn't there yet. With no memory the table stays as it is.
    pub fn add(&mut self, alloc: Global, word: &[u8], number: u16) -> Result<(), AllocError>
        ensures added { OnOk result (self.new ≡ added self.old (entry_with word.now number)) }
        ensures unchanged { OnErr result (self.new ≡ self.old) }
    {
        if self.number_of(word).is_some() {
            return Ok(());
        }
        self.numbers.insert(word.to_vec(alloc)?, number)?;
        Ok(())
    }

    /// The number of a word, by its first entry.
    pub fn number_of(&self, text: &[u8]) -> Option<u16>
        ensures { result ≡ number_in self.now text.now }
    {
        self.numbers.get(text).copied()
    }
}

/// What texts begin with, and what that stands for: the first that fits counts.
#[derive(Drop)]
pub struct Prefixes {
    entries: Vec<Entry>,
}

impl Model for Prefixes {
    ghost use Rattle.std.specs.Prelude.{List};
    ghost use Rattle.wsm_lines.specs.declared.table.Entry.{Entry};

    ghost Value = { List Entry };

    ghost view = { λ a. a.entries.items };
}

impl Prefixes {
    /// Of these entries.
    pub fn new(entries: Vec<Entry>) -> Prefixes
        ensures { result ≡ entries.items }
    {
        Prefixes { entries }
    }

    /// The number of the first entry that a text begins with.
    pub fn number_of(&self, text: &[u8]) -> Option<u16>
        ensures { result ≡ number_begun self.now text.now }
    {
        for entry in &self.entries {
            if text.starts_with(entry.word.as_str().as_bytes()) {
                return Some(entry.number);
            }
        }
        None
    }
}
