//! Reading a text number by number.

ghost use Rattle.std.specs.Prelude.{◌≡◌, ◌↔◌, [], IsTrue, option_map};
ghost use Rattle.wsm_journal.specs.Reading.{number_of};
ghost use Rattle.wsm_saved.specs.Lists.{read_option};
ghost use Rattle.wsm_saved.specs.Numbers.{read_byte, read_flag, read_short, read_signed, read_word};

use std::marker::Model;
use wsm_journal::number_of;

/// A place in a text. A clause sees the text behind it.
///
/// Where a text doesn't go on as is asked for, none is given, and what is left of it is open.
#[derive(Drop)]
pub struct Restoring<'t> {
    left: &'t [u8],
}

impl<'t> Model for Restoring<'t> {
    ghost use Rattle.std.specs.Prelude.{List, ℕ};

    ghost Value = { List ℕ };

    ghost view = { λ r. r.left.now };
}

impl<'t> Restoring<'t> {
    /// In front of a text.
    pub fn new(text: &'t [u8]) -> Self
        ensures { result ≡ text.now }
    {
        Restoring { left: text }
    }

    /// Whether nothing is left.
    pub fn is_done(&self) -> bool
        ensures { IsTrue result ↔ (self.now ≡ []) }
    {
        self.left.is_empty()
    }

    /// The number that comes next.
    pub fn number(&mut self) -> Option<u64>
        ensures { option_map (λ n. (n, self.new)) result ≡ number_of self.old }
    {
        let (number, left) = number_of(self.left)?;
        self.left = left;
        Some(number)
    }

    /// The number with a sign that comes next.
    pub fn signed(&mut self) -> Option<i64>
        ensures { option_map (λ z. (z, self.new)) result ≡ read_signed self.old }
    {
        let number = self.number()?;
        Some(number.cast_signed())
    }

    /// The truth that comes next.
    pub fn flag(&mut self) -> Option<bool>
        ensures { option_map (λ b. (b, self.new)) result ≡ read_flag self.old }
    {
        match self.number()? {
            0 => Some(false),
            1 => Some(true),
            _ => None,
        }
    }

    /// The number of 16 bits that comes next.
    pub fn short(&mut self) -> Option<u16>
        ensures { option_map (λ n. (n, self.new)) result ≡ read_short self.old }
    {
        let number = self.number()?;
        u16::try_from(number).ok()
    }

    /// The number of 8 bits that comes next.
    pub fn byte(&mut self) -> Option<u8>
        ensures { option_map (λ n. (n, self.new)) result ≡ read_byte self.old }
    {
        let number = self.number()?;
        u8::try_from(number).ok()
    }

    /// The number of 32 bits that comes next.
    pub fn word(&mut self) -> Option<u32>
        ensures { option_map (λ n. (n, self.new)) result ≡ read_word self.old }
    {
        let number = self.number()?;
        u32::try_from(number).ok()
    }

    /// The number of a key that comes next, or that there is none.
    pub fn key(&mut self) -> Option<Option<u32>>
        ensures { option_map (λ k. (k, self.new)) result ≡ read_option read_word self.old }
    {
        match self.number()? {
            0 => Some(None),
            1 => Some(Some(self.word()?)),
            _ => None,
        }
    }

    /// The number of a source that comes next, or that there is none.
    pub fn source(&mut self) -> Option<Option<u16>>
        ensures { option_map (λ k. (k, self.new)) result ≡ read_option read_short self.old }
    {
        match self.number()? {
            0 => Some(None),
            1 => Some(Some(self.short()?)),
            _ => None,
        }
    }
}
