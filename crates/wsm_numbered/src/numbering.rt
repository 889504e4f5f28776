//! Numbers and sums of lines.

ghost use Rattle.std.specs.Prelude.{◌≡◌, ◌+◌, ◌<◌, ◌≤◌, ◌++◌, ◌∷◌, drop, length, take, OnOk};
ghost use Rattle.std.specs.Fmt.{decimal};
ghost use Rattle.wsm_sums.specs.Crc.{sum_behind};
ghost use Rattle.wsm_numbered.specs.Numbered.{lines_in, numbered, numbered_line, sum_over};

use itoa::Buffer;
use memchr::memchr;
use std::alloc::AllocError;
use wsm_sums::Crc32;

/// How many lines were handed out, and their sum.
#[derive(Debug, Drop)]
pub struct Numbering {
    count: u64,
    sum: Crc32,
}

impl Numbering {
    ghost use Rattle.std.specs.Prelude.{◌≡◌, ◌+◌, ◌++◌, ◌∷◌, length, OnOk};
    ghost use Rattle.wsm_sums.specs.Crc.{sum_behind};
    ghost use Rattle.wsm_numbered.specs.Numbered.{lines_in, numbered, numbered_line, sum_over};
    ghost use Rattle.wsm_numbered.specs.Seen.{count_of, sum_in};

    /// No line was handed out.
    pub fn new() -> Numbering
        ensures count { count_of result ≡ 0 }
        ensures sum { sum_in result ≡ 0 }
    {
        Numbering {
            count: 0,
            sum: Crc32::new(),
        }
    }

    /// So many lines were handed out before, of which the sum is told.
    pub fn behind(count: u64, sum: u32) -> Numbering
        ensures count { count_of result ≡ count }
        ensures sum { sum_in result ≡ sum }
    {
        Numbering {
            count,
            sum: Crc32::behind(sum),
        }
    }

    /// How many lines were handed out.
    pub fn count(&self) -> u64
        ensures { result ≡ count_of self.now }
    {
        self.count
    }

    /// The sum of the lines that were handed out.
    pub fn sum(&self) -> u32
        ensures { result ≡ sum_in self.now }
    {
        self.sum.sum()
    }

    /// Adds the lines of a text, each with its number and the sum up to it.
    ///
    /// # Errors
    ///
    /// Memory was refused, or 2^64 - 1 lines were counted.
    #[tactic(auto, using(crate::proofs::Lines::text_more))]
    pub fn add(&mut self, text: &[u8], out: &mut Vec<u8>) -> Result<(), AllocError>
        ensures text { OnOk result (out.new.items ≡ out.old.items ++ numbered (count_of self.old) (sum_in self.old) (lines_in text.now)) }
        ensures count { OnOk result (count_of self.new ≡ count_of self.old + length (lines_in text.now)) }
        ensures sum { OnOk result (sum_in self.new ≡ sum_over (sum_in self.old) (lines_in text.now)) }
    {
        let mut rest = text;
        while !rest.is_empty() {
            let end = line_end(rest);
            self.add_line(&rest[..end], out)?;
            rest = &rest[end..];
        }
        Ok(())
    }

    // Adds a line, with its number and the sum up to it.
    fn add_line(&mut self, line: &[u8], out: &mut Vec<u8>) -> Result<(), AllocError>
        ensures text { OnOk result (out.new.items ≡ out.old.items ++ numbered_line (self.old.count + 1) (sum_behind self.old.sum line.now) line.now) }
        ensures count { OnOk result (self.new.count ≡ self.old.count + 1) }
        ensures sum { OnOk result (self.new.sum ≡ sum_behind self.old.sum line.now) }
    {
        let Some(count) = self.count.checked_add(1) else {
            return Err(AllocError);
        };
        self.count = count;
        self.sum.add(line);
        add_numbered(count, self.sum.sum(), line, out)
    }
}

// Adds a line with these numbers in front.
fn add_numbered(count: u64, sum: u32, line: &[u8], out: &mut Vec<u8>) -> Result<(), AllocError>
    ensures { OnOk result (out.new.items ≡ out.old.items ++ numbered_line count sum line.now) }
{
    let mut digits = Buffer::new();
    out.extend_from_slice(digits.format(count).as_bytes())?;
    out.push(b',')?;
    let mut digits = Buffer::new();
    out.extend_from_slice(digits.format(sum).as_bytes())?;
    out.push(b',')?;
    out.extend_from_slice(line)
}

// Behind which place the first line of a text ends.
fn line_end(text: &[u8]) -> usize
    requires { 0 < length text.now }
    ensures lines { lines_in text.now ≡ take result text.now ∷ lines_in (drop result text.now) }
    ensures some { 0 < result }
    ensures inside { result ≤ length text.now }
{
    match memchr(b'\n', text) {
        Some(end) => end + 1,
        None => text.len(),
    }
}
