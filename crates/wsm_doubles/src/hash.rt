//! The hash of an identifier.

ghost use Rattle.std.specs.Prelude.{◌≡◌};
ghost use Rattle.wsm_doubles.specs.Entries.{hash_of};

use std::hash::{FoldHasher, Hasher};

// The hash of a text. It takes 16 bytes at a time.
pub(crate) fn hash_of(text: &[u8]) -> u32
    ensures { result ≡ hash_of text.now }
{
    let mut hasher = FoldHasher::default();
    hasher.write(text);
    (hasher.finish() >> 32) as u32
}
