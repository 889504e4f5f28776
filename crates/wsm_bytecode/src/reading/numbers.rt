//! Numbers, their lowest byte first.
//!
//! A reader answers what it read and the bytes after it, or the first fault.

ghost use Rattle.std.specs.Prelude.{◌≡◌, ◌≤◌, ℕ, List, IfOk};
ghost use Rattle.std.specs.Int.{w8, w16, w64};
ghost use Rattle.wsm_record.specs.Name.{is_between};
ghost use Rattle.wsm_record.specs.Schema.{is_within};
ghost use Rattle.wsm_bytecode.specs.Steps.{Read, number_at, signed_at, truth_at, judged, several};
ghost use Rattle.wsm_bytecode.specs.Reading.{Gives};

use std::alloc::Global;
use wsm_program::DecodeRefusal;

pub(crate) fn byte_of(bytes: &[u8]) -> Result<(u8, &[u8]), DecodeRefusal>
    ensures { Gives (λ x. (x.0, x.1.now)) result (number_at w8 bytes.now) }
{
    match bytes.split_first_chunk() {
        Some((front, rest)) => Ok((u8::from_le_bytes(*front), rest)),
        None => Err(DecodeRefusal::Truncated),
    }
}

pub(crate) fn u16_of(bytes: &[u8]) -> Result<(u16, &[u8]), DecodeRefusal>
    ensures { Gives (λ x. (x.0, x.1.now)) result (number_at w16 bytes.now) }
{
    match bytes.split_first_chunk() {
        Some((front, rest)) => Ok((u16::from_le_bytes(*front), rest)),
        None => Err(DecodeRefusal::Truncated),
    }
}

pub(crate) fn u64_of(bytes: &[u8]) -> Result<(u64, &[u8]), DecodeRefusal>
    ensures { Gives (λ x. (x.0, x.1.now)) result (number_at w64 bytes.now) }
{
    match bytes.split_first_chunk() {
        Some((front, rest)) => Ok((u64::from_le_bytes(*front), rest)),
        None => Err(DecodeRefusal::Truncated),
    }
}

pub(crate) fn i64_of(bytes: &[u8]) -> Result<(i64, &[u8]), DecodeRefusal>
    ensures { Gives (λ x. (x.0, x.1.now)) result (signed_at bytes.now) }
{
    let (number, rest) = u64_of(bytes)?;
    Ok((number.cast_signed(), rest))
}

/// A byte from `low` to `high`.
pub(crate) fn byte_within(bytes: &[u8], low: u8, high: u8) -> Result<(u8, &[u8]), DecodeRefusal>
    ensures read { Gives (λ x. (x.0, x.1.now)) result (judged (is_between low high) (number_at w8 bytes.now)) }
    ensures most { IfOk result (λ x. x.0 ≤ high) }
{
    let (number, rest) = byte_of(bytes)?;
    if number < low || high < number {
        return Err(DecodeRefusal::Operand);
    }
    Ok((number, rest))
}

/// A truth, which is 0 or 1.
#[tactic(auto, unfolding(crate::specs::Steps::truth_at))]
pub(crate) fn truth_of(bytes: &[u8]) -> Result<(bool, &[u8]), DecodeRefusal>
    ensures { Gives (λ x. (x.0, x.1.now)) result (truth_at bytes.now) }
{
    let (number, rest) = byte_within(bytes, 0, 1)?;
    Ok((number == 1, rest))
}

pub(crate) fn u16_within(bytes: &[u8], low: u16, high: u16) -> Result<(u16, &[u8]), DecodeRefusal>
    ensures read { Gives (λ x. (x.0, x.1.now)) result (judged (is_between low high) (number_at w16 bytes.now)) }
    ensures most { IfOk result (λ x. x.0 ≤ high) }
{
    let (number, rest) = u16_of(bytes)?;
    if number < low || high < number {
        return Err(DecodeRefusal::Operand);
    }
    Ok((number, rest))
}

pub(crate) fn u64_within(bytes: &[u8], low: u64, high: u64) -> Result<(u64, &[u8]), DecodeRefusal>
    ensures { Gives (λ x. (x.0, x.1.now)) result (judged (is_between low high) (number_at w64 bytes.now)) }
{
    let (number, rest) = u64_of(bytes)?;
    if number < low || high < number {
        return Err(DecodeRefusal::Operand);
    }
    Ok((number, rest))
}

pub(crate) fn i64_within(bytes: &[u8], low: i64, high: i64) -> Result<(i64, &[u8]), DecodeRefusal>
    ensures { Gives (λ x. (x.0, x.1.now)) result (judged (is_within low high) (signed_at bytes.now)) }
{
    let (number, rest) = i64_of(bytes)?;
    if number < low || high < number {
        return Err(DecodeRefusal::Operand);
    }
    Ok((number, rest))
}

/// So many values, one behind the other.
pub(crate) fn several_of<'a, T: Drop, F: Fn(&'a [u8]) -> Result<(T, &'a [u8]), DecodeRefusal>>(
    alloc: Global,
    bytes: &'a [u8],
    count: u16,
    read: F,
) -> Result<(Vec<T>, &'a [u8]), DecodeRefusal>
    requires { F.IsAlwaysCallable read }
    ensures { (one : List ℕ → Read T) → ((front : _) (r : _) → F.post read front r → Gives (λ x. (x.0, x.1.now)) r (one front.now)) →
        Gives (λ x. (x.0.items, x.1.now)) result (several one count bytes.now) }
{
    let mut values = Vec::new(alloc);
    let mut rest = bytes;
    for _ in 0..count {
        let (value, after) = read(rest)?;
        values.push(value)?;
        rest = after;
    }
    Ok((values, rest))
}
