//! Names and lists of names.

ghost use Rattle.std.specs.Prelude.{◌≡◌, ◌≤◌, []};
ghost use Rattle.wsm_bytecode.specs.Steps.{name_at, names_after, names_at};
ghost use Rattle.wsm_bytecode.specs.Reading.{Gives};

use crate::limits::{MAX_NAME, MAX_NAMES};
use crate::reading::numbers::{byte_within, u16_within};
use std::alloc::Global;
use wsm_program::DecodeRefusal;
use wsm_record::{Name, Names};

/// A byte of length and a name. The length is judged at its own byte, the name at its last.
#[tactic(auto, unfolding(crate::specs::Steps::name_at))]
pub(crate) fn name_of(bytes: &[u8]) -> Result<(Name, &[u8]), DecodeRefusal>
    ensures { Gives (λ x. (x.0, x.1.now)) result (name_at bytes.now) }
{
    let (len, rest) = byte_within(bytes, 1, MAX_NAME)?;
    let len = len as usize;
    if rest.len() < len {
        return Err(DecodeRefusal::Truncated);
    }
    let (text, rest) = rest.split_at(len);
    match Name::new(text) {
        Some(name) => Ok((name, rest)),
        None => Err(DecodeRefusal::Operand),
    }
}

/// A list of 1 to 1,000 names, none of them twice.
#[tactic(auto, unfolding(crate::specs::Steps::names_at))]
pub(crate) fn names_of(alloc: Global, bytes: &[u8]) -> Result<(Names, &[u8]), DecodeRefusal>
    ensures { Gives (λ x. (x.0, x.1.now)) result (names_at bytes.now) }
{
    let (count, rest) = u16_within(bytes, 1, MAX_NAMES)?;
    so_many_names(alloc, rest, count)
}

/// So many names, none of them twice.
pub(crate) fn so_many_names(
    alloc: Global,
    bytes: &[u8],
    count: u16,
) -> Result<(Names, &[u8]), DecodeRefusal>
    requires { count ≤ MAX_NAMES }
    ensures { Gives (λ x. (x.0, x.1.now)) result (names_after [] count bytes.now) }
{
    let mut names = Names::with_capacity(alloc, usize::from(count))?;
    let mut rest = bytes;
    for _ in 0..count {
        let (name, after) = name_of(rest)?;
        if !names.add(alloc, &name)? {
            return Err(DecodeRefusal::Operand);
        }
        rest = after;
    }
    Ok((names, rest))
}
