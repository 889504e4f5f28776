//! Lists of distinct names, each with its number.

ghost use Rattle.std.specs.Prelude.{◌≡◌, ◌<◌, ◌≤◌, ◌⊎◌, ◌++◌, ◌∷◌, if◌then◌else◌, not, ℕ, List, length, map, position, bytes_eq, Some, false, true, slice_get, IfOk, IfErr, IfSome, OnErr, Err, []};
ghost use Rattle.wsm_record.specs.Name.{is_among, repeats_after};
ghost use Rattle.wsm_record.specs.Schema.{are_names_after};
ghost use Rattle.wsm_record.specs.Guesses.{AreBytes, AreGuesses, IsGuess, spelled};

use crate::limits::MAX_NAMES;
use crate::marks::{mark_of, place_of, sum_of, word_of};
use crate::name::Name;
use crate::schema::SchemaRefusal;
use indexmap::IndexSet;
use std::alloc::{AllocError, Global};
use std::marker::Model;

/// Distinct names in their order, found by their bytes. A name's number is its place.
#[derive(Drop)]
pub struct Names {
    texts: IndexSet<Vec<u8>>,
    // At the place of a text what is tried first for it.
    guesses: Vec<Guess>,
    // How far a spread mark is shifted to be a place.
    shift: u32,
}

// A number to try for a text, and the word of the name that has it: 0, which no text has, where that
// name is too long for one.
#[derive(Clone, Copy)]
struct Guess {
    word: u64,
    number: u16,
}

impl Model for Names {
    ghost use Rattle.std.specs.Prelude.{◌≡◌, ◌≤◌, ℕ, List, [], length, map, true};
    ghost use Rattle.wsm_record.specs.Schema.{are_names_after};
    ghost use Rattle.wsm_record.specs.Guesses.{AreGuesses};
    ghost use Rattle.wsm_record.specs.declared.limits.TheConstants.{MAX_NAMES};

    ghost Value = { List (List ℕ) };

    ghost view = { λ a. map (λ v. v.items) a.texts.keys };

    ghost invariant = { λ a. (length a.texts.keys ≤ MAX_NAMES) × ((are_names_after [] (map (λ v. v.items) a.texts.keys) ≡ true) × AreGuesses (map (λ v. v.items) a.texts.keys) a.guesses.items) };
}

impl Names {
    /// No names yet, with room for so many.
    pub fn with_capacity(alloc: Global, count: usize) -> Result<Names, AllocError>
        requires { count ≤ MAX_NAMES }
        ensures { IfOk result (λ names. names ≡ []) }
    {
        let places = (4 * count).next_power_of_two();
        let unknown = Guess { word: 0, number: 0 };
        let texts = IndexSet::with_capacity(alloc, count)?;
        let guesses = vec![in alloc; unknown; places]?;
        Ok(Names {
            texts,
            guesses,
            shift: places.leading_zeros() + 1,
        })
    }

    /// The names, in their order. The first fault from the left is answered.
    pub fn collect(alloc: Global, names: &[Name]) -> Result<Names, SchemaRefusal>
        requires { length names.now ≤ MAX_NAMES }
        ensures all { IfOk result (λ list. list ≡ names.now) }
        ensures lawful { IfOk result (λ list. are_names_after [] list ≡ true) }
        ensures distinct { IfOk result (λ _. repeats_after [] names.now ≡ false) }
        ensures only { IfErr result (λ r. (r ≡ SchemaRefusal.Memory) ⊎ (r ≡ SchemaRefusal.DuplicateName)) }
        ensures repeated { result ≡ Err SchemaRefusal.DuplicateName → repeats_after [] names.now ≡ true }
    {
        let mut list = Names::with_capacity(alloc, names.len())?;
        for name in names {
            if !list.add(alloc, name)? {
                return Err(SchemaRefusal::DuplicateName);
            }
        }
        Ok(list)
    }

    /// Adds a name behind the others where it isn't among them, and answers whether it was added. With
    /// no memory the names stay as they are.
    pub fn add(&mut self, alloc: Global, name: &Name) -> Result<bool, AllocError>
        requires { length self.old < MAX_NAMES }
        ensures new { IfOk result (λ is_new. is_new ≡ not (is_among name.now self.old)) }
        ensures names { IfOk result (λ is_new. self.new ≡ (if is_new then self.old ++ name.now ∷ [] else self.old)) }
        ensures unchanged { OnErr result (self.new ≡ self.old) }
        ensures lawful { are_names_after [] self.new ≡ true }
    {
        let number = self.len() as u16;
        let text = name.as_bytes();
        if !self.texts.insert(text.to_vec(alloc)?)? {
            return Ok(false);
        }
        set_guess(&mut self.guesses, self.shift, text, number);
        Ok(true)
    }

    /// How many names there are.
    pub fn len(&self) -> usize
        ensures len { result ≡ length self.now }
        ensures most { result ≤ MAX_NAMES }
    {
        self.texts.len()
    }

    /// The number of the name with these bytes, if there is one.
    #[inline(always)]
    pub fn number_of(&self, text: &[u8]) -> Option<u16>
        ensures { result ≡ position (bytes_eq text.now) self.now }
    {
        match self.guess(text) {
            Some(number) => Some(number),
            None => self.search(text),
        }
    }

    // The number of the name with these bytes, where the first guess has it.
    #[inline(always)]
    fn guess(&self, text: &[u8]) -> Option<u16>
        ensures { IfSome result (λ number. position (bytes_eq text.now) self.now ≡ Some number) }
    {
        match word_of(text) {
            Some(word) => self.guess_word(word),
            None => self.guess_long(text),
        }
    }

    // The same of a text with this word.
    #[inline(always)]
    fn guess_word(&self, word: u64) -> Option<u16>
        ensures { (text : List ℕ) → AreBytes text → spelled text ≡ word → IfSome result (λ number. position (bytes_eq text) self.now ≡ Some number) }
    {
        let guess = self.guesses.get(place_of(word, self.shift))?;
        if guess.word == word {
            Some(guess.number)
        } else {
            None
        }
    }

    // The same of a text that has no word.
    #[inline(never)]
    fn guess_long(&self, text: &[u8]) -> Option<u16>
        ensures { IfSome result (λ number. position (bytes_eq text.now) self.now ≡ Some number) }
    {
        let guess = self.guesses.get(place_of(sum_of(text), self.shift))?;
        if self.has(guess.number, text) {
            Some(guess.number)
        } else {
            None
        }
    }

    // Whether a name has this number and these bytes.
    fn has(&self, number: u16, text: &[u8]) -> bool
        ensures { result ≡ true → slice_get self.now number ≡ Some text.now }
    {
        match self.texts.get_index(usize::from(number)) {
            Some(name) => name.as_slice() == text,
            None => false,
        }
    }

    // The number of the name with these bytes, without a guess.
    #[cold]
    fn search(&self, text: &[u8]) -> Option<u16>
        ensures { result ≡ position (bytes_eq text.now) self.now }
    {
        match self.texts.get_index_of(text) {
            Some(place) => Some(place as u16),
            None => None,
        }
    }

    /// The bytes of the name of a number.
    pub fn text_of(&self, number: u16) -> &[u8]
        requires { number < length self.now }
        ensures { slice_get self.now number ≡ Some result.now }
    {
        self.texts.get_index(number as usize).unwrap()
    }
}

// Has the guess of a number for a text, at the text's place where there is one. Where names share a
// place the last one has it.
fn set_guess(guesses: &mut [Guess], shift: u32, text: &[u8], number: u16)
    ensures guesses { (names : List (List ℕ)) → slice_get names number ≡ Some text.now → AreGuesses names guesses.old → AreGuesses names guesses.new }
    ensures len { length guesses.new ≡ length guesses.old }
{
    let place = place_of(mark_of(text), shift);
    if place < guesses.len() {
        guesses[place] = guess_of(text, number);
    }
}

// The guess of a number for a text.
fn guess_of(text: &[u8], number: u16) -> Guess
    ensures { (names : List (List ℕ)) → slice_get names number ≡ Some text.now → IsGuess names result }
{
    match word_of(text) {
        Some(word) => Guess { word, number },
        None => Guess { word: 0, number },
    }
}
