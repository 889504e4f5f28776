//! The first token of a text.

ghost use Rattle.std.specs.Prelude.{◌≡◌, ◌<◌, ◌≤◌, ◌^◌, ◌-◌, ◌+◌, false, min, length, take, drop, slice_index, IsTrue, option_map};
ghost use Rattle.std.specs.List.{prefix_len};
ghost use Rattle.wsm_record.specs.Name.{is_digit, is_letter, is_word_byte};
ghost use Rattle.wsm_tokens.specs.Tokens.{first_of, first_word, first_number, first_sign, is_blank, sign_of, value_of};
ghost use Rattle.wsm_tokens.specs.Sight.{Scans};

use crate::fault::Fault;
use crate::token::{Sign, Token};
use wsm_record::is_word_byte;
use wsm_record::limits::MAX_NAME;

// How many bytes a word has behind its first.
const MAX_MORE: usize = MAX_NAME - 1;

const MAX_NUMBER: u64 = i64::MAX as u64;

// The longer ones first.
const SIGNS: [Sign; 17] = [
    Sign::DotDot,
    Sign::NotEqual,
    Sign::LessOrEqual,
    Sign::GreaterOrEqual,
    Sign::Comma,
    Sign::Semicolon,
    Sign::Open,
    Sign::Close,
    Sign::Dot,
    Sign::Plus,
    Sign::Minus,
    Sign::Star,
    Sign::Slash,
    Sign::Percent,
    Sign::Equal,
    Sign::Less,
    Sign::Greater,
];

/// What a text begins with, where that is no blank.
#[derive(Clone, Copy)]
pub enum Seen<'a> {
    /// A token, and how many bytes it has behind its first.
    Token(Token<'a>, usize),
    /// A fault, so many bytes on.
    Fault(Fault, usize),
}

/// Whether a byte is a blank: a space, a tab, or one that ends a line.
pub fn is_blank(byte: u8) -> bool
    ensures { result ≡ is_blank byte }
{
    matches!(byte, b' ' | b'\t' | b'\n' | b'\r')
}

fn is_letter(byte: u8) -> bool
    ensures { result ≡ is_letter byte }
{
    matches!(byte, b'A'..=b'Z' | b'a'..=b'z')
}

fn is_digit(byte: u8) -> bool
    ensures { result ≡ is_digit byte }
{
    matches!(byte, b'0'..=b'9')
}

// How many bytes at the front go on with a word.
fn word_len(text: &[u8]) -> usize
    ensures { result ≡ prefix_len is_word_byte text.now }
{
    text.iter().take_while(|byte| is_word_byte(**byte)).count()
}

fn digits_len(text: &[u8]) -> usize
    ensures { result ≡ prefix_len is_digit text.now }
{
    text.iter().take_while(|byte| is_digit(**byte)).count()
}

// The value of digits, or `u64::MAX` where it is greater.
fn value_of(digits: &[u8]) -> u64
    ensures { result ≡ min (value_of digits.now) (2 ^ 64 - 1) }
{
    let mut value = 0u64;
    for digit in digits {
        let units = u64::from(digit.saturating_sub(b'0'));
        value = value.saturating_mul(10).saturating_add(units);
    }
    value
}

#[tactic(auto, unfolding(crate::specs::Tokens::sign_of))]
fn sign_of(text: &[u8]) -> Option<Sign>
    ensures { result ≡ sign_of text.now }
{
    SIGNS
        .iter()
        .copied()
        .find(|sign| text.starts_with(sign.text()))
}

fn first_word(text: &[u8]) -> Seen<'_>
    requires { 0 < length text.now }
    ensures { Scans (length text.now) result (first_word (slice_index text.now 0) (drop 1 text.now) (prefix_len is_word_byte (drop 1 text.now))) }
{
    let (_, rest) = text.split_at(1);
    let more = word_len(rest);
    if more <= MAX_MORE {
        Seen::Token(Token::Word(&text[..1 + more]), more)
    } else {
        Seen::Fault(Fault::BadCharacter, 1 + MAX_MORE)
    }
}

fn first_number(text: &[u8]) -> Seen<'_>
    requires { 0 < length text.now }
    ensures { let more = prefix_len is_digit (drop 1 text.now) in Scans (length text.now) result (first_number (value_of (take (1 + more) text.now)) more) }
{
    let more = digits_len(&text[1..]);
    let value = value_of(&text[..1 + more]);
    if value <= MAX_NUMBER {
        Seen::Token(Token::Number(value as i64), more)
    } else {
        Seen::Fault(Fault::NumberTooLarge, 0)
    }
}

fn first_sign(text: &[u8]) -> Seen<'_>
    requires { 0 < length text.now }
    ensures { Scans (length text.now) result (first_sign (sign_of text.now)) }
{
    match sign_of(text) {
        Some(sign) => Seen::Token(Token::Sign(sign), sign.text().len() - 1),
        None => Seen::Fault(Fault::BadCharacter, 0),
    }
}

/// The first token of a text that begins with no blank: the longest one.
#[tactic(auto, unfolding(crate::specs::Tokens::first_of))]
pub fn first_of(text: &[u8]) -> Seen<'_>
    requires some { 0 < length text.now }
    requires no_blank { is_blank (slice_index text.now 0) ≡ false }
    ensures { Scans (length text.now) result (first_of (slice_index text.now 0) (drop 1 text.now)) }
{
    let first = text[0];
    if is_letter(first) {
        first_word(text)
    } else if is_digit(first) {
        first_number(text)
    } else {
        first_sign(text)
    }
}
