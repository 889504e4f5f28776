//! Names of keys, each with its number.

ghost use Rattle.std.specs.Prelude.{◌≡◌, ◌==◌, ◌<◌, ◌∷◌, length};
ghost use Rattle.std.specs.List.{list_any};
ghost use Rattle.wsm_record.specs.Name.{is_between};
ghost use Rattle.wsm_log.specs.LinesOf.{lines_of};
ghost use Rattle.wsm_key_names.specs.Names.{is_key_name};
ghost use Rattle.wsm_key_names.specs.declared.names.TheConstants.{MAX_KEY_NAME};

use crate::cell::kept_cell;
use crate::guesses::{Guesses, NEAR};
use crate::refusal::KeyNamesRefusal;
use indexmap::IndexSet;
use memchr::memchr;
use std::alloc::{AllocError, Global};
use std::marker::Model;
use wsm_record::marks::{sum_of, word_of};

/// The most bytes of a name.
pub const MAX_KEY_NAME: usize = 255;

/// The most names.
const MOST: usize = u32::MAX as usize;

/// Distinct names in their order, found by their bytes. A name's number is its place. A clause sees the
/// names.
#[derive(Drop)]
pub struct KeyNames {
    names: IndexSet<Vec<u8>>,
    // At the place of a name its cell where it needs quotes, else nothing.
    quoted: Vec<Vec<u8>>,
    // What is tried first for a name.
    guesses: Guesses,
}

impl Model for KeyNames {
    ghost use Rattle.std.specs.Prelude.{◌≡◌, ◌≤◌, ℕ, List, [], false, length, map};
    ghost use Rattle.wsm_record.specs.Name.{repeats_after};
    ghost use Rattle.wsm_key_names.specs.Cell.{kept_of};
    ghost use Rattle.wsm_key_names.specs.Guesses.{AreGuesses};
    ghost use Rattle.wsm_key_names.specs.declared.names.TheConstants.{MOST};

    ghost Value = { List (List ℕ) };

    ghost view = { λ a. map (λ v. v.items) a.names.keys };

    ghost invariant = { λ a. (length a.names.keys ≤ MOST) × ((repeats_after [] (map (λ v. v.items) a.names.keys) ≡ false) ×
        (AreGuesses (map (λ v. v.items) a.names.keys) a.guesses.guesses.items ×
        (map (λ v. v.items) a.quoted.items ≡ map (λ v. kept_of v.items) a.names.keys))) };
}

impl KeyNames {
    ghost use Rattle.std.specs.Prelude.{◌≡◌, ◌<◌, ◌+◌, ◌++◌, ◌∷◌, ◌⊎◌, ◌^◌, [], ℕ, List, bytes_eq, if◌then◌else◌, length, map, not, position, true};
    ghost use Rattle.std.specs.Prelude.{None, Err, IfErr, IfOk, IfSome, Ok, OnErr, OnOk, Some};
    ghost use Rattle.wsm_record.specs.Guesses.{AreBytes, spelled};
    ghost use Rattle.wsm_record.specs.Name.{is_among};
    ghost use Rattle.wsm_semantics.specs.Text.{name_at};
    ghost use Rattle.wsm_key_names.specs.Cell.{cells_of};
    ghost use Rattle.wsm_key_names.specs.Names.{learned, names_behind, names_of_text};
    ghost use Rattle.wsm_key_names.specs.declared.names.TheConstants.{MOST};
    ghost use Rattle.wsm_key_names.specs.declared.refusal.KeyNamesRefusal.TheVariants as KeyNamesRefusal;

    /// No names.
    pub fn new(alloc: Global) -> KeyNames
        ensures { result ≡ [] }
    {
        KeyNames {
            names: IndexSet::new(alloc),
            quoted: Vec::new(alloc),
            guesses: Guesses::new(alloc),
        }
    }

    /// The names that others have come to, in their order; none where one of them is no name or stands twice.
    ///
    /// # Errors
    ///
    /// Memory was refused.
    pub fn resume(alloc: Global, names: &[Vec<u8>]) -> Result<Option<KeyNames>, AllocError>
        ensures { IfOk result (λ o. IfSome o (λ known. known ≡ map (λ v. v.items) names.now)) }
    {
        let mut known = KeyNames::new(alloc);
        for name in names {
            if !known.add_known(name)? {
                return Ok(None);
            }
        }
        Ok(Some(known))
    }

    // Adds what is a name and isn't there, where there is room for it.
    fn add_known(&mut self, name: &[u8]) -> Result<bool, AllocError>
        ensures { IfOk result (λ is_new. is_new ≡ true → self.new ≡ self.old ++ name.now ∷ []) }
    {
        if !is_key_name(name) || MOST <= self.names.len() {
            return Ok(false);
        }
        self.add(name)
    }

    /// The names of a text with a name a line: 1 to 255 bytes without a line feed, whichever they are.
    ///
    /// # Errors
    ///
    /// The first line that is no name or has that of one before is refused.
    pub fn read(alloc: Global, text: &[u8]) -> Result<KeyNames, KeyNamesRefusal>
        ensures read { IfOk result (λ names. names_of_text text.now ≡ Ok names) }
        ensures refused { IfErr result (λ refusal. (refusal ≡ KeyNamesRefusal.Memory) ⊎ (names_of_text text.now ≡ Err refusal)) }
    {
        let mut names = KeyNames::new(alloc);
        let mut rest = text;
        let mut line = 0u64;
        while !rest.is_empty() {
            line += 1;
            let (name, next) = split_line(rest);
            names.add_line(name, line)?;
            rest = next;
        }
        Ok(names)
    }

    /// How many names there are.
    pub fn len(&self) -> usize
        ensures len { result ≡ length self.now }
        ensures most { result < 2 ^ 32 }
    {
        self.names.len()
    }

    /// The number of the name with these bytes, if there is one.
    #[inline(always)]
    pub fn number_of(&self, name: &[u8]) -> Option<u32>
        ensures { result ≡ position (bytes_eq name.now) self.now }
    {
        match self.guess(name) {
            Some(number) => Some(number),
            None => self.search(name),
        }
    }

    /// The number of the name with these bytes, which is learned where it is a new one and there are fewer
    /// than so many; where it isn't, or the bytes are no name, there is none. With no memory the names stay
    /// as they are.
    pub fn number_or_next(&mut self, name: &[u8], most: u32) -> Result<Option<u32>, AllocError>
        ensures names { OnOk result (self.new ≡ learned most self.old name.now) }
        ensures number { IfOk result (λ number. number ≡ position (bytes_eq name.now) self.new) }
        ensures unchanged { OnErr result (self.new ≡ self.old) }
    {
        match self.number_of(name) {
            Some(number) => Ok(Some(number)),
            None => self.next_number(name, most),
        }
    }

    // The same for a text that none of the names has.
    fn next_number(&mut self, name: &[u8], most: u32) -> Result<Option<u32>, AllocError>
        requires { position (bytes_eq name.now) self.old ≡ None }
        ensures names { OnOk result (self.new ≡ learned most self.old name.now) }
        ensures number { IfOk result (λ number. number ≡ position (bytes_eq name.now) self.new) }
        ensures unchanged { OnErr result (self.new ≡ self.old) }
    {
        let number = self.names.len() as u32;
        if most <= number || !is_key_name(name) {
            return Ok(None);
        }
        self.add(name)?;
        Ok(Some(number))
    }

    /// The cell of the name of a number, in rows that are written; that of a number which no name has is empty.
    pub fn cell(&self, number: usize) -> &[u8]
        ensures { result.now ≡ name_at (cells_of self.now) number }
    {
        let Some(quoted) = self.quoted.get(number) else {
            return b"";
        };
        if quoted.is_empty() {
            self.text_of(number)
        } else {
            quoted.as_slice()
        }
    }

    /// The bytes of the name of a number; of a number that no name has, none.
    pub fn text_of(&self, number: usize) -> &[u8]
        ensures { result.now ≡ name_at self.now number }
    {
        match self.names.as_slice().get(number) {
            Some(name) => name.as_slice(),
            None => b"",
        }
    }

    // Adds the name of a line to those of the lines before.
    fn add_line(&mut self, name: &[u8], line: u64) -> Result<(), KeyNamesRefusal>
        requires { line ≡ length self.old + 1 }
        ensures added { (lines : List (List ℕ)) → OnOk result (names_behind self.old (name.now ∷ lines) ≡ names_behind self.new lines) }
        ensures count { OnOk result (length self.new ≡ line) }
        ensures refused { (lines : List (List ℕ)) →
            IfErr result (λ refusal. (refusal ≡ KeyNamesRefusal.Memory) ⊎ (names_behind self.old (name.now ∷ lines) ≡ Err refusal)) }
    {
        if !is_key_name(name) {
            return Err(KeyNamesRefusal::BadName(line));
        }
        if MOST <= self.names.len() {
            return Err(KeyNamesRefusal::Memory);
        }
        if !self.add(name)? {
            return Err(KeyNamesRefusal::DuplicateName(line));
        }
        Ok(())
    }

    // Adds a name behind the others where it isn't among them, and answers whether it was added. With no
    // memory the names stay as they are.
    fn add(&mut self, name: &[u8]) -> Result<bool, AllocError>
        requires { length self.old < MOST }
        ensures new { IfOk result (λ is_new. is_new ≡ not (is_among name.now self.old)) }
        ensures names { IfOk result (λ is_new. self.new ≡ (if is_new then self.old ++ name.now ∷ [] else self.old)) }
        ensures unchanged { OnErr result (self.new ≡ self.old) }
    {
        let alloc = *self.names.allocator();
        let number = self.names.len() as u32;
        let cell = kept_cell(alloc, name)?;
        let text = name.to_vec(alloc)?;
        self.quoted.reserve(1)?;
        self.guesses.make_room(self.names.as_slice())?;
        if !self.names.insert(text)? {
            return Ok(false);
        }
        self.quoted.push_reserved(cell);
        self.guesses.add(name, number);
        Ok(true)
    }

    // The number of the name with these bytes, where a guess has it.
    fn guess(&self, name: &[u8]) -> Option<u32>
        ensures { IfSome result (λ number. position (bytes_eq name.now) self.now ≡ Some number) }
    {
        match word_of(name) {
            Some(word) => self.guess_word(word),
            None => self.guess_long(name),
        }
    }

    // The same of a text with this word.
    fn guess_word(&self, word: u64) -> Option<u32>
        ensures { (text : List ℕ) → AreBytes text → spelled text ≡ word → IfSome result (λ number. position (bytes_eq text) self.now ≡ Some number) }
    {
        match self.guess_word_at(word, 0) {
            Some(number) => Some(number),
            None => self.guess_word_near(word),
        }
    }

    // The same where what is tried at its place hasn't it.
    #[inline(never)]
    fn guess_word_near(&self, word: u64) -> Option<u32>
        ensures { (text : List ℕ) → AreBytes text → spelled text ≡ word → IfSome result (λ number. position (bytes_eq text) self.now ≡ Some number) }
    {
        for step in 1..NEAR {
            if let Some(number) = self.guess_word_at(word, step) {
                return Some(number);
            }
        }
        None
    }

    // The number of the name with this word, where what is tried at this step has it.
    fn guess_word_at(&self, word: u64, step: usize) -> Option<u32>
        ensures { (text : List ℕ) → AreBytes text → spelled text ≡ word → IfSome result (λ number. position (bytes_eq text) self.now ≡ Some number) }
    {
        let guess = self.guesses.at(word, step)?;
        if guess.word == word {
            Some(guess.number)
        } else {
            None
        }
    }

    // The number of the name with these bytes, which are too many for a word, where a guess has it.
    #[inline(never)]
    fn guess_long(&self, name: &[u8]) -> Option<u32>
        ensures { IfSome result (λ number. position (bytes_eq name.now) self.now ≡ Some number) }
    {
        let sum = sum_of(name);
        for step in 0..NEAR {
            if let Some(number) = self.guess_long_at(name, sum, step) {
                return Some(number);
            }
        }
        None
    }

    // The same, where what is tried at this step has it.
    fn guess_long_at(&self, name: &[u8], sum: u64, step: usize) -> Option<u32>
        ensures { IfSome result (λ number. position (bytes_eq name.now) self.now ≡ Some number) }
    {
        let number = self.guesses.at(sum, step)?.number;
        if self.has(number, name) {
            Some(number)
        } else {
            None
        }
    }

    // Whether a name has this number and these bytes.
    fn has(&self, number: u32, name: &[u8]) -> bool
        ensures { result ≡ true → position (bytes_eq name.now) self.now ≡ Some number }
    {
        match self.names.as_slice().get(number as usize) {
            Some(text) => text.as_slice() == name,
            None => false,
        }
    }

    // The number of the name with these bytes, without a guess.
    #[cold]
    fn search(&self, name: &[u8]) -> Option<u32>
        ensures { result ≡ position (bytes_eq name.now) self.now }
    {
        match self.names.get_index_of(name) {
            Some(place) => Some(place as u32),
            None => None,
        }
    }
}

// Whether a text is a name.
fn is_key_name(text: &[u8]) -> bool
    ensures { result ≡ is_key_name text.now }
{
    has_length(text) && !has_line_feed(text)
}

// Whether a text has as many bytes as a name may have.
fn has_length(text: &[u8]) -> bool
    ensures { result ≡ is_between 1 MAX_KEY_NAME (length text.now) }
{
    1 <= text.len() && text.len() <= MAX_KEY_NAME
}

fn has_line_feed(text: &[u8]) -> bool
    ensures { result ≡ list_any (λ b. b == 10) text.now }
{
    text.iter().any(|byte| is_line_feed(*byte))
}

fn is_line_feed(byte: u8) -> bool
    ensures { result ≡ (byte == 10) }
{
    byte == b'\n'
}

// The first line of a text that isn't empty, and what is behind its end.
fn split_line(text: &[u8]) -> (&[u8], &[u8])
    requires { 0 < length text.now }
    ensures line { lines_of text.now ≡ result.0.now ∷ lines_of result.1.now }
    ensures shorter { length result.1.now < length text.now }
{
    match memchr(b'\n', text) {
        Some(end) => (&text[..end], &text[end + 1..]),
        None => (text, &[]),
    }
}
