//! CRC-32 of a text, sixteen bytes at a time by tables.

ghost use Rattle.std.specs.Prelude.{◌≡◌, ◌<◌, ◌≤◌, ◌+◌, ◌%◌, bit_xor, drop, length, take};
ghost use Rattle.wsm_sums.specs.Crc.{byte_step, rest_after, sum_behind};

use crate::far_table::FAR;
use crate::table::NEAR;
use std::marker::Model;

#[inline]
fn lowest_byte(left: u32) -> usize
    ensures value { result ≡ left % 256 }
    ensures small { result < 256 }
{
    (left & 0xFF) as usize
}

// What is left of the division behind one byte more.
#[inline]
fn rest_behind(rest: u32, byte: u8) -> u32
    ensures { result ≡ byte_step (bit_xor rest byte) }
{
    NEAR[0][lowest_byte(rest ^ byte as u32)] ^ (rest >> 8)
}

// What is left of the division behind sixteen bytes more, which stand at a place.
#[inline]
fn rest_behind_sixteen(rest: u32, bytes: &[u8], at: usize) -> u32
    requires { at + 16 ≤ length bytes.now }
    ensures { rest_after rest (drop at bytes.now) ≡ rest_after result (drop (at + 16) bytes.now) }
{
    let word = rest ^ u32::from_le_bytes([bytes[at], bytes[at + 1], bytes[at + 2], bytes[at + 3]]);
    FAR[7][lowest_byte(word)]
        ^ (FAR[6][lowest_byte(word >> 8)]
            ^ (FAR[5][lowest_byte(word >> 16)]
                ^ (FAR[4][lowest_byte(word >> 24)] ^ rest_of_twelve(bytes, at + 4))))
}

// What twelve bytes, which stand at a place, leave by themselves.
#[inline]
fn rest_of_twelve(bytes: &[u8], at: usize) -> u32
    requires { at + 12 ≤ length bytes.now }
    ensures { result ≡ rest_after 0 (take 12 (drop at bytes.now)) }
{
    FAR[3][bytes[at] as usize]
        ^ (FAR[2][bytes[at + 1] as usize]
            ^ (FAR[1][bytes[at + 2] as usize]
                ^ (FAR[0][bytes[at + 3] as usize] ^ rest_of_eight(bytes, at + 4))))
}

// What eight bytes, which stand at a place, leave by themselves.
#[inline]
fn rest_of_eight(bytes: &[u8], at: usize) -> u32
    requires { at + 8 ≤ length bytes.now }
    ensures { result ≡ rest_after 0 (take 8 (drop at bytes.now)) }
{
    NEAR[7][bytes[at] as usize]
        ^ (NEAR[6][bytes[at + 1] as usize]
            ^ (NEAR[5][bytes[at + 2] as usize]
                ^ (NEAR[4][bytes[at + 3] as usize]
                    ^ (NEAR[3][bytes[at + 4] as usize]
                        ^ (NEAR[2][bytes[at + 5] as usize]
                            ^ (NEAR[1][bytes[at + 6] as usize]
                                ^ NEAR[0][bytes[at + 7] as usize]))))))
}

// What is left of the division behind some bytes more, one at a time.
#[tactic(auto, unfolding(crate::specs::Crc::rest_after))]
fn rest_behind_each(rest: u32, bytes: &[u8]) -> u32
    ensures { result ≡ rest_after rest bytes.now }
{
    let mut left = rest;
    for byte in bytes {
        left = rest_behind(left, *byte);
    }
    left
}

// What is left of the division behind some bytes more.
fn rest_after(rest: u32, bytes: &[u8]) -> u32
    ensures { result ≡ rest_after rest bytes.now }
{
    let mut left = rest;
    let mut at = 0;
    while bytes.len() - at >= 16 {
        left = rest_behind_sixteen(left, bytes, at);
        at += 16;
    }
    rest_behind_each(left, &bytes[at..])
}

/// The CRC-32 of the bytes that were added, seen as that number.
#[derive(Debug, Drop)]
pub struct Crc32 {
    sum: u32,
}

impl Model for Crc32 {
    ghost use Rattle.std.specs.Prelude.{ℕ};

    ghost Value = { ℕ };

    ghost view = { λ a. a.sum };
}

impl Crc32 {
    /// The sum of no byte.
    pub fn new() -> Self
        ensures { result ≡ 0 }
    {
        Crc32 { sum: 0 }
    }

    /// The sum of bytes that were added before, of which the sum is told.
    pub fn behind(sum: u32) -> Self
        ensures { result ≡ sum }
    {
        Crc32 { sum }
    }

    /// Adds bytes behind those that were added.
    #[tactic(auto, unfolding(crate::specs::Crc::sum_behind))]
    pub fn add(&mut self, bytes: &[u8])
        ensures { self.new ≡ sum_behind self.old bytes.now }
    {
        self.sum = !rest_after(!self.sum, bytes);
    }

    /// The sum of what was added.
    pub fn sum(&self) -> u32
        ensures { result ≡ self.now }
    {
        self.sum
    }
}
