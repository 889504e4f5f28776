//! Numbers made of texts, at which what is tried first for a text is put and found.

ghost use Rattle.std.specs.Prelude.{◌≡◌, ◌+◌, ◌*◌, ◌^◌, ◌<◌, ◌≤◌, length, IfSome};
ghost use Rattle.wsm_record.specs.Guesses.{spelled};

// 2^64 by the golden ratio: its multiples lie far from one another.
const SPREAD: u64 = 0x9E37_79B9_7F4A_7C15;

/// The place of a mark, by the first bits of what it is spread to: few marks share one. The shift says how
/// many bits a place hasn't.
pub fn place_of(mark: u64, shift: u32) -> usize {
    mark.wrapping_mul(SPREAD).wrapping_shr(shift) as usize
}

/// A number made of all bytes of a text: its word where it has one.
pub fn mark_of(text: &[u8]) -> u64 {
    match word_of(text) {
        Some(word) => word,
        None => sum_of(text),
    }
}

/// The bytes of a text of one to seven as one number, its word, which no other text has.
#[inline(always)]
pub fn word_of(text: &[u8]) -> Option<u64>
    ensures { IfSome result (λ word. word ≡ spelled text.now) }
{
    match text {
        [a] => Some(spell(a, 1)),
        [a, b] => Some(spell(a, spell(b, 1))),
        [a, b, c] => Some(spell(a, spell(b, spell(c, 1)))),
        [a, b, c, d] => Some(spell(a, spell(b, spell(c, spell(d, 1))))),
        [a, b, c, d, e] => Some(spell(a, spell(b, spell(c, spell(d, spell(e, 1)))))),
        [a, b, c, d, e, f] => {
            Some(spell(a, spell(b, spell(c, spell(d, spell(e, spell(f, 1)))))))
        }
        [a, b, c, d, e, f, g] => {
            Some(spell(
                a,
                spell(b, spell(c, spell(d, spell(e, spell(f, spell(g, 1)))))),
            ))
        }
        _ => None,
    }
}

// A byte in front of those that a word is of.
#[inline(always)]
fn spell(byte: &u8, word: u64) -> u64
    requires { word < 2 ^ 56 }
    ensures { result ≡ byte.now + 256 * word }
{
    u64::from(*byte) + 256 * word
}

/// A number made of a text's length and all its bytes, four by four, and its last four once more; that
/// of less than four is their count.
pub fn sum_of(text: &[u8]) -> u64 {
    let len = text.len();
    if len < 4 {
        return len as u64;
    }
    let mut sum = len as u64;
    for word in 0..len / 4 {
        sum = sum
            .wrapping_mul(SPREAD)
            .wrapping_add(four_at(text, 4 * word));
    }
    sum.wrapping_mul(SPREAD)
        .wrapping_add(four_at(text, len - 4))
}

fn four_at(text: &[u8], start: usize) -> u64
    requires { start + 4 ≤ length text.now }
{
    u64::from(u32::from_le_bytes([
        text[start],
        text[start + 1],
        text[start + 2],
        text[start + 3],
    ]))
}
