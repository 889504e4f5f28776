//! Names that a query declares.

ghost use Rattle.std.specs.Prelude.{◌≡◌, IfSome, is_some, true};
ghost use Rattle.std.specs.List.{list_all};
ghost use Rattle.wsm_record.specs.Name.{is_name, is_word, is_word_byte};

use crate::limits::MAX_NAME;
use crate::reserved::is_reserved;
use std::hash::{Hash, Hasher};
use std::marker::Model;

/// A declared name, held inline: a letter, then letters, digits and `_`, at most 32 bytes in all,
/// and no reserved word. A clause sees its bytes.
#[derive(Debug, Drop)]
pub struct Name {
    bytes: [u8; MAX_NAME],
    len: usize,
}

impl Model for Name {
    ghost use Rattle.std.specs.Prelude.{◌≡◌, ◌≤◌, ℕ, List, take, true};
    ghost use Rattle.wsm_record.specs.Name.{is_name};
    ghost use Rattle.wsm_record.specs.declared.limits.TheConstants.{MAX_NAME};

    ghost Value = { List ℕ };

    ghost view = { λ a. take a.len a.bytes };

    ghost invariant = { λ a. (is_name (take a.len a.bytes) ≡ true) × (a.len ≤ MAX_NAME) };
}

impl Name {
    /// The name with these bytes, where they make one. It takes no memory.
    pub fn new(text: &[u8]) -> Option<Name>
        ensures which { is_some result ≡ is_name text.now }
        ensures text { IfSome result (λ name. name ≡ text.now) }
    {
        if !is_declarable(text) {
            return None;
        }
        let len = text.len();
        let mut bytes = [0; MAX_NAME];
        bytes[..len].copy_from_slice(text);
        Some(Name { bytes, len })
    }

    /// Its bytes, which make a name.
    pub fn as_bytes(&self) -> &[u8]
        ensures bytes { result.now ≡ self.now }
        ensures name { is_name self.now ≡ true }
    {
        &self.bytes[..self.len]
    }

    /// The same name once more. It takes no memory.
    pub fn copied(&self) -> Name
        ensures same { result ≡ self.now }
        ensures name { is_name result ≡ true }
    {
        Name {
            bytes: self.bytes,
            len: self.len,
        }
    }
}

impl PartialEq for Name {
    ghost use Rattle.std.specs.Prelude.{nat_eq};
    ghost use Rattle.std.specs.Cmp.Lexicographic.{pointwise};
    ghost use Rattle.std.specs.Cmp.Rules.{comparing};
    ghost use Rattle.std.proofs.Common.{rules};

    ghost eq = { pointwise nat_eq };

    ghost laws = { Prim.search (comparing, rules) };

    fn eq(&self, other: &Name) -> bool {
        self.as_bytes() == other.as_bytes()
    }
}

impl Eq for Name {
    ghost use Rattle.std.specs.Cmp.Rules.{comparing};
    ghost use Rattle.std.proofs.Common.{rules};

    ghost laws = { Prim.search (comparing, rules) };
}

impl Hash for Name {
    ghost use Rattle.std.specs.Hash as fed;
    ghost use Rattle.std.specs.Cmp.Rules.{comparing, hashing};
    ghost use Rattle.std.proofs.Common.{rules};

    ghost hash_input = { fed.slice fed.u8 };

    ghost respects_eq = { Prim.search (hashing, comparing, rules) };

    fn hash<H: Hasher>(&self, state: &mut H) {
        self.as_bytes().hash(state);
    }
}

// Whether a text is a name.
fn is_declarable(text: &[u8]) -> bool
    ensures { result ≡ is_name text.now }
{
    is_plain_word(text) && text.len() <= MAX_NAME && !is_reserved(text)
}

fn is_plain_word(text: &[u8]) -> bool
    ensures { result ≡ is_word text.now }
{
    match text {
        [first, rest @ ..] => first.is_ascii_alphabetic() && are_parts(rest),
        [] => false,
    }
}

fn are_parts(bytes: &[u8]) -> bool
    ensures { result ≡ list_all is_word_byte bytes.now }
{
    bytes.iter().all(|b| is_word_byte(*b))
}

/// Whether a byte may stand in a word behind its first: a letter, a digit or `_`.
pub fn is_word_byte(byte: u8) -> bool
    ensures { result ≡ is_word_byte byte }
{
    byte.is_ascii_alphabetic() || byte.is_ascii_digit() || byte == b'_'
}
