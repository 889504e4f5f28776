//! Seconds since 1970 with a fraction.
ghost use Rattle.std.specs.Prelude.{◌≡◌, ◌<◌, IfSome, length};
ghost use Rattle.wsm_values.specs.Fraction.{point_from, signed_nanos, fraction_nanos, seconds_in, seconds_of};

use crate::decimal;

// Where the first point stands.
fn point_of(text: &[u8]) -> Option<usize>
    ensures value { result ≡ point_from 0 text.now }
    ensures inside { IfSome result (λ i. i < length text.now) }
{
    for (i, byte) in text.iter().enumerate() {
        if *byte == b'.' {
            return Some(i);
        }
    }
    None
}

// The nanoseconds of one to nine digits of a fraction.
fn fraction_nanos(digits: &[u8]) -> Option<u64>
    ensures { result ≡ fraction_nanos digits.now }
{
    if 9 < digits.len() {
        return None;
    }
    let count = decimal::magnitude_of(decimal::plain(0), digits)?;
    decimal::padded(count, 9 - digits.len() as u8)
}

// The nanoseconds of whole seconds and of a fraction, with their sign.
fn signed_nanos(negative: bool, seconds: u64, nanos: u64) -> i128
    ensures { result ≡ signed_nanos negative seconds nanos }
{
    let span = seconds as i128 * 1_000_000_000 + nanos as i128;
    if negative { 0 - span } else { span }
}

// The nanoseconds of seconds without their sign.
fn seconds_in(negative: bool, text: &[u8]) -> Option<i128>
    ensures { result ≡ seconds_in negative text.now }
{
    let form = decimal::plain(0);
    match point_of(text) {
        None => Some(signed_nanos(negative, decimal::magnitude_of(form, text)?, 0)),
        Some(at) => {
            let seconds = decimal::magnitude_of(form, &text[..at])?;
            let nanos = fraction_nanos(&text[at + 1..])?;
            Some(signed_nanos(negative, seconds, nanos))
        }
    }
}

/// The nanoseconds of seconds with at most nine digits of a fraction: `-` or none, digits, and the point with at least
/// one digit or none. None for more digits of a fraction, even zeros, and for more than 2^63 seconds.
#[tactic(auto, unfolding(crate::specs::Fraction::seconds_of))]
pub fn seconds_of(text: &[u8]) -> Option<i128>
    ensures { result ≡ seconds_of text.now }
{
    match text.split_first() {
        None => None,
        Some((first, rest)) => {
            if *first == b'-' {
                seconds_in(true, rest)
            } else {
                seconds_in(false, text)
            }
        }
    }
}
