//! Why the lines of a text are no names of keys.

use std::alloc::AllocError;
use std::fmt;

/// Why the lines of a text are no names of keys. Its text is as `K1 BadName in line 3`.
#[derive(Clone, Copy, Debug, PartialEq, Eq)]
pub enum KeyNamesRefusal {
    /// A line, counted from 1, is no name: it is empty, or longer than 255 bytes.
    BadName(u64),
    /// The name of a line stands in one before.
    DuplicateName(u64),
    /// Memory was refused, or there are 2^32 - 1 names or more.
    Memory,
}

impl fmt::Display for KeyNamesRefusal {
    ghost use Rattle.std.specs.Prelude.{Some};
    ghost use Rattle.wsm_key_names.specs.Text.{refusal_text};

    ghost output = { λ refusal. Some (refusal_text refusal) };

    fn fmt<W: fmt::Write>(&self, f: &mut fmt::Formatter<W>) -> fmt::Result {
        match self {
            KeyNamesRefusal::BadName(line) => write!(f, "K1 BadName in line {line}"),
            KeyNamesRefusal::DuplicateName(line) => write!(f, "K2 DuplicateName in line {line}"),
            KeyNamesRefusal::Memory => f.write_str("out of memory"),
        }
    }
}

impl From<AllocError> for KeyNamesRefusal {
    ghost use Rattle.std.specs.Prelude.{◌≡◌};
    ghost use Rattle.wsm_key_names.specs.declared.refusal.KeyNamesRefusal.TheVariants.{Memory};

    ghost from_gives = { λ _ e. e ≡ Memory };

    fn from(_error: AllocError) -> KeyNamesRefusal {
        KeyNamesRefusal::Memory
    }
}
