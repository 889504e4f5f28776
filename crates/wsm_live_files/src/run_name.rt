//! The name of a run.

use std::fmt;
use std::fs::File;
use std::io::{self, Read};
use std::rt::Files;

// Where the system gives random bytes.
const RANDOM: &str = "/dev/urandom";

// How many digits a name has.
const DIGITS: usize = 16;

/// The name of a run: 16 hexadecimal digits, drawn when its journal is begun.
#[derive(Clone, Copy, Debug, PartialEq, Eq)]
pub struct RunName {
    number: u64,
}

impl RunName {
    /// A name that no other run has, but by chance.
    ///
    /// # Errors
    ///
    /// The system gave no random bytes.
    pub fn drawn<R: Files>(rt: &R) -> io::Result<RunName>
    where
        R::File: Drop,
    {
        let mut bytes = [0u8; 8];
        File::open(rt, RANDOM)?.read_exact(&mut bytes)?;
        Ok(RunName {
            number: u64::from_be_bytes(bytes),
        })
    }

    /// The name that a text is, if it is one.
    pub fn of(text: &str) -> Option<RunName> {
        let is_digits = text.len() == DIGITS && text.bytes().all(is_digit);
        if !is_digits {
            return None;
        }
        match u64::from_str_radix(text, 16) {
            Ok(number) => Some(RunName { number }),
            Err(_) => None,
        }
    }
}

impl fmt::Display for RunName {
    fn fmt<W: fmt::Write>(&self, f: &mut fmt::Formatter<W>) -> fmt::Result {
        let number = self.number;
        write!(f, "{number:016x}")
    }
}

fn is_digit(byte: u8) -> bool {
    byte.is_ascii_digit() || matches!(byte, b'a'..=b'f')
}

/// The number that a text writes in digits alone.
pub fn number_of<N: std::str::FromStr + Drop>(text: &str) -> Option<N>
where
    N::Err: Drop,
{
    if !text.bytes().all(|byte| byte.is_ascii_digit()) {
        return None;
    }
    text.parse::<N>().ok()
}
