//! The text of a row that goes to each part.

ghost use Rattle.std.specs.Prelude.{◌≡◌, ◌≤◌, ◌+◌, ◌++◌, length, take, vec_capacity, vec_len, OnOk};

use std::alloc::AllocError;
use std::mem;

/// How many bytes a block has. The text of a watermark mostly has no more.
pub(crate) const BLOCK: usize = 16;

/// A block that begins with a text, where the text is no longer.
pub(crate) fn block_of(text: &[u8]) -> [u8; BLOCK]
    ensures { length text.now ≤ BLOCK → take (length text.now) result ≡ text.now }
{
    let mut block = [0; BLOCK];
    for place in 0..text.len().min(BLOCK) {
        block[place] = text[place];
    }
    block
}

/// Adds a text. Where it is no longer than a block, the block begins with it, and is copied whole: no call is made.
pub(crate) fn add_text(
    text: &[u8],
    block: &[u8; BLOCK],
    out: &mut Vec<u8>,
) -> Result<(), AllocError>
    requires { length text.now ≤ BLOCK → take (length text.now) block.now ≡ text.now }
    ensures { OnOk result (out.new.items ≡ out.old.items ++ text.now) }
{
    if BLOCK < text.len() || out.capacity() - out.len() < BLOCK {
        return out.extend_from_slice(text);
    }
    add_front(block, text.len(), out);
    Ok(())
}

// Adds so many bytes of a block, where there is room for all.
fn add_front(block: &[u8; BLOCK], count: usize, out: &mut Vec<u8>)
    requires { (count ≤ BLOCK) × (vec_len out.old + BLOCK ≤ vec_capacity out.old) }
    ensures { out.new.items ≡ out.old.items ++ take count block.now }
{
    let empty = Vec::new(*out.allocator());
    let text = with_front(block, count, mem::replace(out, empty));
    // What is let go is empty, so it holds no memory.
    mem::forget(mem::replace(out, text));
}

// The same to a text by value, whose length can stay in a register. All bytes are added and the others cut off, since
// a block is copied at once.
fn with_front(block: &[u8; BLOCK], count: usize, mut text: Vec<u8>) -> Vec<u8>
    requires { (count ≤ BLOCK) × (vec_len text + BLOCK ≤ vec_capacity text) }
    ensures { result.items ≡ text.items ++ take count block.now }
{
    let end = text.len() + count;
    for place in 0..BLOCK {
        text.push_reserved(block[place]);
    }
    text.truncate(end);
    text
}
