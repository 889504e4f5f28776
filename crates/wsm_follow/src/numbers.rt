//! Numbers in the text of a position.

ghost use Rattle.std.specs.Prelude.{◌≡◌, option_map};
ghost use Rattle.wsm_follow.specs.Position.{number_from, number_of, with_digit};

use crate::names::is_digit;

// A number with one digit more. None goes behind a zero that begins, nor past 64 bits.
fn with_digit(value: u64, byte: u8) -> Option<u64>
    ensures { result ≡ with_digit value byte }
{
    if is_digit(byte) && 0 < value {
        value.checked_mul(10)?.checked_add((byte - b'0') as u64)
    } else {
        None
    }
}

// A number of which digits were read, and the text behind its colon.
fn number_from(first: u64, text: &[u8]) -> Option<(u64, &[u8])>
    ensures { option_map (λ p. (p.0, p.1.now)) result ≡ number_from first text.now }
{
    let mut value = first;
    for (i, byte) in text.iter().enumerate() {
        if *byte == b':' {
            return Some((value, &text[i + 1..]));
        }
        value = with_digit(value, *byte)?;
    }
    None
}

/// The number that a text begins with, and the text behind its colon.
pub fn number_of(text: &[u8]) -> Option<(u64, &[u8])>
    ensures { option_map (λ p. (p.0, p.1.now)) result ≡ number_of text.now }
{
    let (first, rest) = text.split_first()?;
    if is_digit(*first) {
        number_from((*first - b'0') as u64, rest)
    } else {
        None
    }
}
