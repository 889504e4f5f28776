//! Reading whole numbers from cells.

ghost use Rattle.std.specs.Prelude.{◌≡◌, ◌<◌, ◌≤◌, ◌-◌, ◌^◌, length, nat_le, IfSome};
ghost use Rattle.wsm_record.specs.Name.{is_digit};
ghost use Rattle.wsm_csv.specs.Number.{AreDigitsOf, magnitude_behind, magnitude_of, number_of};

use std::marker::Model;
use std::mem;

/// The most digits that are read without asking at each whether 64 bits hold the value.
const SHORT: usize = 18;

/// How many digits are read at once.
const AT_ONCE: usize = 8;

/// The digit 0 in each byte of a word.
const ZEROS: u64 = 0x3030_3030_3030_3030;

/// What takes a byte past the digits' upper half where it is above the digit 9, in each byte of a word.
const PAST_NINE: u64 = 0x0606_0606_0606_0606;

/// The upper half of each byte of a word.
const UPPER_HALVES: u64 = 0xf0f0_f0f0_f0f0_f0f0;

/// The number that a cell writes: an optional `-`, and then one ASCII digit or more, with a value of
/// 64 bits. Zeros may stand in front, and no byte may stand around it.
#[inline(always)]
pub(crate) fn read_number(cell: &[u8]) -> Option<i64>
    ensures { result ≡ number_of cell.now }
{
    match cell {
        [b'-', digits @ ..] if digits.len() <= SHORT => Some(-(short_magnitude(digits)? as i64)),
        [b'-', digits @ ..] => 0i64.checked_sub_unsigned(magnitude(digits)?),
        digits if digits.len() <= SHORT => Some(short_magnitude(digits)? as i64),
        digits => 0i64.checked_add_unsigned(magnitude(digits)?),
    }
}

// Eight digits, and what they stand for.
#[derive(Drop)]
struct Eight {
    digits: [u8; AT_ONCE],
    value: u64,
}

impl Model for Eight {
    ghost use Rattle.std.specs.Prelude.{◌≡◌, ◌<◌, ◌^◌, ℕ, length};
    ghost use Rattle.wsm_csv.specs.Number.{AreDigitsOf};
    ghost use Rattle.wsm_csv.specs.declared.number.TheConstants.{AT_ONCE};

    ghost Value = { ℕ };

    ghost view = { λ a. a.value };

    ghost invariant = { λ a. (length a.digits ≡ AT_ONCE) × ((a.value < 10 ^ AT_ONCE) × AreDigitsOf a.digits a.value) };
}

impl Eight {
    // Eight zeros.
    fn zeros() -> Eight {
        Eight {
            digits: [b'0'; AT_ONCE],
            value: 0,
        }
    }

    // What eight bytes stand for, where they are these digits.
    fn read(&self, bytes: [u8; AT_ONCE]) -> Option<u64>
        ensures value { IfSome result (λ n. AreDigitsOf bytes n) }
        ensures below { IfSome result (λ n. n < 10 ^ AT_ONCE) }
    {
        let word = u64::from_le_bytes(bytes);
        let last = u64::from_le_bytes(self.digits);
        if word == last {
            return Some(self.value);
        }
        None
    }
}

/// What the last times of eight digits or more began with: the next one mostly begins with the same, or
/// with what the one before did.
#[derive(Drop)]
pub(crate) struct Fronts {
    last: Eight,
    other: Eight,
}

impl Fronts {
    /// Before the first time, zeros.
    pub(crate) fn new() -> Fronts {
        Fronts {
            last: Eight::zeros(),
            other: Eight::zeros(),
        }
    }

    /// The number that a cell writes, as [`read_number`] reads it. Of eight digits or more the first eight
    /// are read at once, which pays where most numbers are that long.
    pub(crate) fn read_number(&mut self, cell: &[u8]) -> Option<i64>
        ensures { result ≡ number_of cell.now }
    {
        if cell.len() < AT_ONCE {
            read_number(cell)
        } else {
            self.long_number(cell)
        }
    }

    // The number that a long cell writes. It isn't inlined, since it would take room from the rest of a
    // row.
    #[inline(never)]
    fn long_number(&mut self, cell: &[u8]) -> Option<i64>
        ensures { result ≡ number_of cell.now }
    {
        match self.known_magnitude(cell) {
            Some(value) => Some(value as i64),
            None => self.new_number(cell),
        }
    }

    // The same of one that begins with other digits.
    #[inline(never)]
    fn new_number(&mut self, cell: &[u8]) -> Option<i64>
        ensures { result ≡ number_of cell.now }
    {
        match self.new_magnitude(cell) {
            Some(value) => Some(value as i64),
            None => read_number(cell),
        }
    }

    // What eight digits or more stand for, where they are few enough for 64 bits, and the first eight are
    // known. No answer tells nothing of the cell.
    fn known_magnitude(&self, cell: &[u8]) -> Option<u64>
        ensures value { IfSome result (λ n. magnitude_of cell.now ≡ Some n) }
        ensures below { IfSome result (λ n. n < 10 ^ SHORT) }
    {
        match cell {
            [a, b, c, d, e, f, g, h, rest @ ..] if rest.len() <= SHORT - AT_ONCE => {
                let front = self.known([*a, *b, *c, *d, *e, *f, *g, *h])?;
                magnitude_from(front, rest)
            }
            _ => None,
        }
    }

    // The same where they aren't known. They are then.
    fn new_magnitude(&mut self, cell: &[u8]) -> Option<u64>
        ensures value { IfSome result (λ n. magnitude_of cell.now ≡ Some n) }
        ensures below { IfSome result (λ n. n < 10 ^ SHORT) }
    {
        match cell {
            [a, b, c, d, e, f, g, h, rest @ ..] if rest.len() <= SHORT - AT_ONCE => {
                let front = self.renew([*a, *b, *c, *d, *e, *f, *g, *h])?;
                magnitude_from(front, rest)
            }
            _ => None,
        }
    }

    // What eight bytes stand for, where they are known.
    fn known(&self, bytes: [u8; AT_ONCE]) -> Option<u64>
        ensures value { IfSome result (λ n. AreDigitsOf bytes n) }
        ensures below { IfSome result (λ n. n < 10 ^ AT_ONCE) }
    {
        match self.last.read(bytes) {
            Some(value) => Some(value),
            None => self.other.read(bytes),
        }
    }

    // What eight bytes stand for, where all are digits, which are known then.
    fn renew(&mut self, bytes: [u8; AT_ONCE]) -> Option<u64>
        ensures value { IfSome result (λ n. AreDigitsOf bytes n) }
        ensures below { IfSome result (λ n. n < 10 ^ AT_ONCE) }
    {
        let value = eight_digits(bytes)?;
        let eight = Eight {
            digits: bytes,
            value,
        };
        self.other = mem::replace(&mut self.last, eight);
        Some(value)
    }
}

// What eight bytes stand for, where all are digits.
fn eight_digits(bytes: [u8; AT_ONCE]) -> Option<u64>
    ensures value { IfSome result (λ n. AreDigitsOf bytes n) }
    ensures below { IfSome result (λ n. n < 10 ^ AT_ONCE) }
{
    let word = u64::from_le_bytes(bytes);
    if word & UPPER_HALVES != ZEROS {
        return None;
    }
    if (word + PAST_NINE) & UPPER_HALVES != ZEROS {
        return None;
    }
    let digits = word - ZEROS;
    // Each second byte is what two digits stand for.
    let pairs = digits * 10 + (digits >> 8);
    let high = (pairs & 0xff) * 1_000_000 + ((pairs >> 16) & 0xff) * 10_000;
    let low = ((pairs >> 32) & 0xff) * 100 + ((pairs >> 48) & 0xff);
    Some(high + low)
}

// What so few digits stand for. No step goes past 64 bits.
fn short_magnitude(digits: &[u8]) -> Option<u64>
    requires { length digits.now ≤ SHORT }
    ensures value { result ≡ magnitude_of digits.now }
    ensures below { IfSome result (λ n. n < 10 ^ SHORT) }
{
    if digits.is_empty() {
        return None;
    }
    magnitude_from(0, digits)
}

// What digits stand for behind a number, where they are so few that no step goes past 64 bits.
fn magnitude_from(front: u64, digits: &[u8]) -> Option<u64>
    requires few { length digits.now ≤ SHORT }
    requires front { front < 10 ^ (SHORT - length digits.now) }
    ensures value { result ≡ magnitude_behind front digits.now }
    ensures below { IfSome result (λ n. n < 10 ^ SHORT) }
{
    let mut value = front;
    for byte in digits {
        let digit = above_zero(*byte);
        if digit > 9 {
            return None;
        }
        value = value * 10 + digit;
    }
    Some(value)
}

// How far a byte is above the digit 0: at most 9 for digits alone.
fn above_zero(byte: u8) -> u64
    ensures digit { is_digit byte ≡ nat_le result 9 }
    ensures value { result ≤ 9 → result ≡ byte - 48 }
{
    u64::from(byte).wrapping_sub(u64::from(b'0'))
}

// What digits alone stand for, however many.
#[inline(never)]
fn magnitude(digits: &[u8]) -> Option<u64>
    ensures { result ≡ magnitude_of digits.now }
{
    if digits.is_empty() {
        return None;
    }
    let mut value = 0u64;
    for digit in digits {
        if !digit.is_ascii_digit() {
            return None;
        }
        value = value
            .checked_mul(10)?
            .checked_add(u64::from(*digit - b'0'))?;
    }
    Some(value)
}
