//! Why words ask for nothing.

use clap::error::ErrorKind;
use std::alloc::AllocError;

/// Why the words ask for nothing.
#[derive(Debug, Drop)]
pub enum WordsRefusal {
    /// They are wrong, or ask for help or the version; `clap`'s error has the text to print.
    Words(clap::Error),
    /// Memory ran out.
    Memory,
}

impl From<AllocError> for WordsRefusal {
    ghost use Rattle.wsm_words.specs.Words.{IsMemory};

    ghost from_gives = { λ _ e. IsMemory e };

    fn from(_e: AllocError) -> WordsRefusal {
        WordsRefusal::Memory
    }
}

impl From<clap::Error> for WordsRefusal {
    ghost use Rattle.wsm_words.specs.Words.{Tells};

    ghost from_gives = { Tells };

    fn from(error: clap::Error) -> WordsRefusal {
        match error.kind() {
            ErrorKind::OutOfMemory => WordsRefusal::Memory,
            _ => WordsRefusal::Words(error),
        }
    }
}
