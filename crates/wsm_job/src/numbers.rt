//! Numbers of the words.

use crate::stop::{Stop, WordsFault};
use wsm_words::number_of;

/// The number that an option has, if it is given.
pub fn number_in(word: Option<&String>, option: &'static str) -> Result<Option<u64>, Stop> {
    match word {
        None => Ok(None),
        Some(word) => match number_of(word.as_str()) {
            Some(number) => Ok(Some(number as u64)),
            None => Err(Stop::Words(WordsFault::NoNumber(option))),
        },
    }
}

/// The number of an option, or what it is where it is left out.
pub fn number_or(word: Option<&String>, option: &'static str, default: u64) -> Result<u64, Stop> {
    match number_in(word, option)? {
        Some(number) => Ok(number),
        None => Ok(default),
    }
}
