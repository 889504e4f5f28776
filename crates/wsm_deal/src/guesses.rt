//! What to try first for a key.

ghost use Rattle.std.specs.Prelude.{◌≡◌, ◌<◌, ◌≤◌, ◌^◌, ◌/◌, ℕ, List, map, slice_get, Some, IfOk, IfSome};
ghost use Rattle.wsm_deal.specs.KeyGuesses.{AreGuesses, IsGuess};

use crate::words::{NO_WORDS, Words, words_of};
use std::alloc::{AllocError, Global};
use wsm_record::marks::{place_of, sum_of};

// How many places there are at least for a key, so that few share one.
const PLACES: usize = 8;

/// How many places near one another are tried for a text.
pub(crate) const NEAR: usize = 4;

// The number of a guess where no key has the place.
const NO_NUMBER: u32 = u32::MAX;

/// A key to try for a text: its words, which are none where it is too long for some, its number and its part.
#[derive(Clone, Copy)]
pub(crate) struct Guess {
    pub(crate) words: Words,
    pub(crate) number: u32,
    pub(crate) part: u32,
}

/// At the place of a text, and at those near it, what is tried first for it. A key has the first of these
/// places that no key before it has, and where none is left that of the text.
#[derive(Drop)]
pub(crate) struct Guesses {
    guesses: Vec<Guess>,
    // How far a spread mark is shifted to be a place.
    shift: u32,
}

impl Guesses {
    /// Guesses of keys, of which each part has so many.
    pub(crate) fn of(alloc: Global, keys: &[Vec<u8>], block: usize) -> Result<Guesses, AllocError>
        requires { 0 < block }
        ensures { IfOk result (λ guesses. AreGuesses (map (λ v. v.items) keys.now) block guesses.guesses.items) }
    {
        let least = keys.len().saturating_mul(PLACES);
        let Some(places) = least.checked_next_power_of_two() else {
            return Err(AllocError);
        };
        let shift = places.leading_zeros() + 1;
        let unknown = Guess {
            words: NO_WORDS,
            number: NO_NUMBER,
            part: 0,
        };
        let mut guesses = vec![in alloc; unknown; places]?;
        for number in 0..keys.len().min(u32::MAX as usize) {
            let key = keys[number].as_slice();
            let place = free_place(&guesses, place_of(mark_of(key), shift));
            set_guess(&mut guesses, place, guess_of(key, number, block));
        }
        Ok(Guesses { guesses, shift })
    }

    /// What gives the memory of the guesses.
    pub(crate) fn allocator(&self) -> Global {
        *self.guesses.allocator()
    }

    /// What is tried for a text of this mark, first at its place, and then at the next ones of those near it.
    pub(crate) fn at(&self, mark: u64, step: usize) -> Option<&Guess>
        ensures { (names : List (List ℕ)) (block : ℕ) → AreGuesses names block self.now.guesses.items → IfSome result (λ guess. IsGuess names block guess.now) }
    {
        self.guesses.get(place_of(mark, self.shift) ^ step)
    }
}

// The first place of those near this one that no key has; this one where there is none.
fn free_place(guesses: &[Guess], place: usize) -> usize {
    for step in 0..NEAR {
        if is_free(guesses.get(place ^ step)) {
            return place ^ step;
        }
    }
    place
}

fn is_free(guess: Option<&Guess>) -> bool {
    match guess {
        Some(guess) => guess.number == NO_NUMBER,
        None => false,
    }
}

// Has a guess at a place, where there is this one.
fn set_guess(guesses: &mut Vec<Guess>, place: usize, guess: Guess)
    ensures { (names : List (List ℕ)) (block : ℕ) → IsGuess names block guess →
        AreGuesses names block guesses.old.items → AreGuesses names block guesses.new.items }
{
    if place < guesses.len() {
        guesses[place] = guess;
    }
}

// The guess of a key of this number.
fn guess_of(key: &[u8], number: usize, block: usize) -> Guess
    requires { (0 < block) × (number < 2 ^ 32) }
    ensures { (names : List (List ℕ)) → slice_get names number ≡ Some key.now → IsGuess names block result }
{
    Guess {
        words: words_of(key).unwrap_or(NO_WORDS),
        number: number as u32,
        part: (number / block) as u32,
    }
}

// A number made of all bytes of a key.
fn mark_of(key: &[u8]) -> u64 {
    match words_of(key) {
        Some(words) => words.mark(),
        None => sum_of(key),
    }
}
