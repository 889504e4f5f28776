//! Short texts in room of their own.
ghost use Rattle.std.specs.Prelude.{◌≡◌, ◌≤◌, [], length, take};

use std::marker::Model;

/// The most bytes of a short text.
pub(crate) const LONGEST_TEXT: usize = 255;

/// A text of at most 255 bytes, in room of its own: no memory is asked for.
#[derive(Drop)]
pub struct ShortText {
    bytes: [u8; LONGEST_TEXT],
    len: usize,
}

impl Model for ShortText {
    ghost use Rattle.std.specs.Prelude.{◌≤◌, ℕ, List, take};
    ghost use Rattle.wsm_lines.specs.declared.short_text.TheConstants.{LONGEST_TEXT};

    ghost Value = { List ℕ };

    ghost view = { λ a. take a.len a.bytes };

    ghost invariant = { λ a. a.len ≤ LONGEST_TEXT };
}

// Writes a text over the first bytes.
fn write(bytes: &mut [u8; LONGEST_TEXT], text: &[u8])
    requires { length text.now ≤ LONGEST_TEXT }
    ensures { take (length text.now) bytes.new ≡ text.now }
{
    bytes[..text.len()].copy_from_slice(text);
}

impl ShortText {
    /// No byte.
    pub(crate) fn new() -> ShortText
        ensures { result ≡ [] }
    {
        ShortText {
            bytes: [0; LONGEST_TEXT],
            len: 0,
        }
    }

    /// Has no byte stand there.
    pub(crate) fn clear(&mut self)
        ensures { self.new ≡ [] }
    {
        self.len = 0;
    }

    /// Has a text stand there in place of another.
    pub(crate) fn set(&mut self, text: &[u8])
        requires { length text.now ≤ LONGEST_TEXT }
        ensures { self.new ≡ text.now }
    {
        write(&mut self.bytes, text);
        self.len = text.len();
    }

    /// Its bytes.
    pub(crate) fn as_slice(&self) -> &[u8]
        ensures { result.now ≡ self.now }
    {
        &self.bytes[..self.len]
    }
}
