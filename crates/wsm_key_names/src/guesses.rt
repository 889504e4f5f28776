//! What to try first for a name.

ghost use Rattle.std.specs.Prelude.{◌≡◌, ◌<◌, [], ℕ, List, map, slice_get, Some, IfOk, IfSome};
ghost use Rattle.wsm_key_names.specs.Guesses.{AreGuesses, IsGuess};

use std::alloc::{AllocError, Global};
use wsm_record::marks::{mark_of, place_of, word_of};

// How many places there are at least for a name, once there are new ones, and how many at any time.
const PLACES: usize = 4;

const LEAST_PLACES: usize = 2;

/// How many places near one another are tried for a text.
pub(crate) const NEAR: usize = 4;

// The number of a guess where no name has the place.
const NO_NUMBER: u32 = u32::MAX;

/// A number to try for a text, and the word of the name that has it: 0, which no text has, where that name
/// is too long for one.
#[derive(Clone, Copy)]
pub(crate) struct Guess {
    pub(crate) word: u64,
    pub(crate) number: u32,
}

/// At the place of a text, and at those near it, what is tried first for it. A name has the first of these
/// places that no name before it has, and where none is left that of its text.
#[derive(Drop)]
pub(crate) struct Guesses {
    guesses: Vec<Guess>,
    // How far a spread mark is shifted to be a place.
    shift: u32,
}

impl Guesses {
    /// No places.
    pub(crate) fn new(alloc: Global) -> Guesses
        ensures { result.guesses.items ≡ [] }
    {
        Guesses {
            guesses: Vec::new(alloc),
            shift: 0,
        }
    }

    /// Has there be places for these names and another one.
    pub(crate) fn make_room(&mut self, names: &[Vec<u8>]) -> Result<(), AllocError>
        ensures { AreGuesses (map (λ v. v.items) names.now) self.old.guesses.items → AreGuesses (map (λ v. v.items) names.now) self.new.guesses.items }
    {
        if names.len().saturating_add(1).saturating_mul(LEAST_PLACES) <= self.guesses.len() {
            return Ok(());
        }
        let alloc = *self.guesses.allocator();
        *self = Guesses::of(alloc, names)?;
        Ok(())
    }

    // Guesses of names, with places for more.
    fn of(alloc: Global, names: &[Vec<u8>]) -> Result<Guesses, AllocError>
        ensures { IfOk result (λ guesses. AreGuesses (map (λ v. v.items) names.now) guesses.guesses.items) }
    {
        let least = names.len().saturating_add(1).saturating_mul(PLACES);
        let Some(places) = least.checked_next_power_of_two() else {
            return Err(AllocError);
        };
        let unknown = Guess {
            word: 0,
            number: NO_NUMBER,
        };
        let mut guesses = Guesses {
            guesses: vec![in alloc; unknown; places]?,
            shift: places.leading_zeros() + 1,
        };
        for number in 0..names.len().min(NO_NUMBER as usize) {
            guesses.add(names[number].as_slice(), number as u32);
        }
        Ok(guesses)
    }

    /// Adds the guess of a name of this number.
    pub(crate) fn add(&mut self, name: &[u8], number: u32)
        ensures { (names : List (List ℕ)) → slice_get names number ≡ Some name.now →
            AreGuesses names self.old.guesses.items → AreGuesses names self.new.guesses.items }
    {
        let place = self.free_place(place_of(mark_of(name), self.shift));
        set_guess(&mut self.guesses, place, guess_of(name, number));
    }

    // The first place of those near this one that no name has; this one where there is none.
    fn free_place(&self, place: usize) -> usize {
        for step in 0..NEAR {
            if is_free(self.guesses.get(place ^ step)) {
                return place ^ step;
            }
        }
        place
    }

    /// What is tried for a text of this mark, first at its place, and then at the next ones of those near it.
    pub(crate) fn at(&self, mark: u64, step: usize) -> Option<&Guess>
        ensures { (names : List (List ℕ)) → AreGuesses names self.now.guesses.items → IfSome result (λ guess. IsGuess names guess.now) }
    {
        self.guesses.get(place_of(mark, self.shift) ^ step)
    }
}

fn is_free(guess: Option<&Guess>) -> bool {
    match guess {
        Some(guess) => guess.number == NO_NUMBER,
        None => false,
    }
}

// Has a guess at a place, where there is this one.
fn set_guess(guesses: &mut Vec<Guess>, place: usize, guess: Guess)
    ensures { (names : List (List ℕ)) → IsGuess names guess → AreGuesses names guesses.old.items → AreGuesses names guesses.new.items }
{
    if place < guesses.len() {
        guesses[place] = guess;
    }
}

// The guess of a name of this number.
fn guess_of(name: &[u8], number: u32) -> Guess
    ensures { (names : List (List ℕ)) → slice_get names number ≡ Some name.now → IsGuess names result }
{
    match word_of(name) {
        Some(word) => Guess { word, number },
        None => Guess { word: 0, number },
    }
}
