//! Why a source is refused.

ghost use Rattle.std.specs.Prelude.{◌≡◌, ◌⊎◌, IfOk};
ghost use Rattle.wsm_description.specs.Refusals.{dotted};

use std::alloc::{AllocError, AllocFailed, Global};
use wsm_values::Word;

/// What is wrong with a source. The order is that of their numbers, from `L1` on.
#[derive(Clone, Copy, Debug, PartialEq, Eq)]
pub enum SourceFault {
    /// The text is no TOML.
    NotToml,
    /// A key means nothing where it stands.
    UnknownKey,
    /// A key is left out that has to be there.
    MissingKey,
    /// A value is of another type than its key asks for.
    BadType,
    /// A number is outside its range.
    BadRange,
    /// A text is none of those that its key takes.
    BadWord,
    /// A key doesn't go with another one, or lacks one that has to stand beside it.
    Conflict,
    /// A field that the query doesn't declare.
    UnknownField,
    /// A key doesn't go with the type of its field.
    WrongType,
    /// A name that the query doesn't declare.
    UnknownName,
    /// A line of the file of names, counted from 1, isn't a text and a declared key.
    BadLine(u64),
}

/// Why a source is refused.
#[derive(Debug, Drop)]
pub enum Refusal {
    /// What is wrong, and the dotted name of the key that it is about.
    Fault(SourceFault, Word),
    /// There was no memory. This says nothing of the source.
    Memory,
}

impl From<AllocError> for Refusal {
    ghost use Rattle.std.specs.Prelude.{◌≡◌};
    ghost use Rattle.wsm_description.specs.declared.refusal.Refusal.TheVariants.{Memory};

    ghost from_gives = { λ _ e. e ≡ Memory };

    fn from(_e: AllocError) -> Refusal {
        Refusal::Memory
    }
}

impl<T: Drop> From<AllocFailed<T>> for Refusal {
    ghost use Rattle.std.specs.Prelude.{◌≡◌};
    ghost use Rattle.wsm_description.specs.declared.refusal.Refusal.TheVariants.{Memory};

    ghost from_gives = { λ _ e. e ≡ Memory };

    fn from(_e: AllocFailed<T>) -> Refusal {
        Refusal::Memory
    }
}

/// The dotted name of a key in a section; a key of the whole text has an empty section.
pub fn dotted(alloc: Global, section: &str, key: &str) -> Result<Word, AllocError>
    ensures { IfOk result (λ path. path ≡ dotted section.now key.now) }
{
    if section.is_empty() {
        return Word::new(alloc, key);
    }
    let mut path = String::from_str(alloc, section)?;
    path.push_str(".")?;
    path.push_str(key)?;
    Word::new(alloc, path.as_str())
}

/// The refusal for a key of a section.
pub fn refuse(alloc: Global, fault: SourceFault, section: &str, key: &str) -> Refusal
    ensures { (result ≡ Refusal.Memory) ⊎ (result ≡ Refusal.Fault fault (dotted section.now key.now)) }
{
    match dotted(alloc, section, key) {
        Ok(path) => Refusal::Fault(fault, path),
        Err(_) => Refusal::Memory,
    }
}
