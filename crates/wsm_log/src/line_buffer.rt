//! The bytes that were read last, and the line that was taken of them.

ghost use Rattle.std.specs.Prelude.{◌≡◌, ◌+◌, ◌-◌, ◌<◌, ◌≤◌, ◌++◌, [], length, take, nat_lt, IfOk, OnErr, vec_len, vec_capacity};
ghost use Rattle.std.specs.Bool.{OnFalse, OnTrue};
ghost use Rattle.std.specs.Io.KnownBytes.{Consumes, IsAtEnd, Keeps, prepend_known};

use memchr::memchr;
use std::alloc::{AllocError, Global};
use std::io::{self, Read};

// How many bytes are asked for at once.
const ASKED: usize = 65_536;

/// The bytes that were read last, and the line that was taken last. A line that lies whole in what
/// was read stays where it is; of one that crosses its end the part in front is kept beside it.
#[derive(Drop)]
pub struct LineBuffer {
    bytes: Vec<u8>,
    // No line took what stands from here..
    start: usize,
    // .. up to here.
    end: usize,
    // The line stands from here..
    line_start: usize,
    // .. up to here, unless there is a part.
    line_end: usize,
    // The line so far, where it crosses the end of what was read.
    part: Vec<u8>,
    // The most bytes that are kept of a line.
    most: usize,
    ghost ordered: { start ≤ end },
    ghost in_bytes: { end ≤ vec_len bytes },
    ghost some_bytes: { 0 < vec_len bytes },
    ghost line_ordered: { line_start ≤ line_end },
    ghost line_in_bytes: { line_end ≤ vec_len bytes },
    ghost line_short: { line_end - line_start ≤ most },
    ghost part_short: { vec_len part ≤ most },
    ghost room: { most ≤ vec_capacity part },
}

impl LineBuffer {
    ghost use Rattle.wsm_log.specs.LineBuffer.{TakesLine, TakesPart, ahead_of, line_in, most_of, part_of};

    /// A buffer that holds no byte, and room for what is kept of a line. No other call takes memory.
    ///
    /// # Errors
    ///
    /// Memory was refused.
    pub fn new(alloc: Global, most: usize) -> Result<LineBuffer, AllocError>
        ensures ahead { IfOk result (λ b. ahead_of b ≡ []) }
        ensures most { IfOk result (λ b. most_of b ≡ most) }
    {
        let bytes = vec![in alloc; 0; ASKED]?;
        let part = Vec::with_capacity(alloc, most)?;
        Ok(LineBuffer {
            bytes,
            start: 0,
            end: 0,
            line_start: 0,
            line_end: 0,
            part,
            most,
        })
    }

    /// The line that was taken last.
    pub fn line(&self) -> &[u8]
        ensures value { result.now ≡ line_in self.now }
        ensures short { length result.now ≤ most_of self.now }
    {
        if self.part.is_empty() {
            let (start, end) = (self.line_start, self.line_end);
            let bytes = self.bytes.as_slice();
            &bytes[start..end]
        } else {
            self.part.as_slice()
        }
    }

    /// Whether a part of the line was read.
    pub fn has_part(&self) -> bool
        ensures { result ≡ nat_lt 0 (length (part_of self.now)) }
    {
        !self.part.is_empty()
    }

    /// Begins a line, of which nothing was read.
    pub fn begin(&mut self)
        ensures ahead { ahead_of self.new ≡ ahead_of self.old }
        ensures part { part_of self.new ≡ [] }
        ensures most { most_of self.new ≡ most_of self.old }
    {
        self.line_start = 0;
        self.line_end = 0;
        self.part.clear();
    }

    /// Takes the line where its end was read, and tells so. Else all that no line took is a part of it.
    pub fn take_line(&mut self) -> bool
        ensures found { OnTrue result (TakesLine self.old self.new) }
        ensures part { OnFalse result (TakesPart self.old self.new) }
        ensures most { most_of self.new ≡ most_of self.old }
    {
        match memchr(b'\n', self.ahead()) {
            Some(place) => {
                self.end_line(place);
                self.start += place + 1;
                true
            }
            None => {
                self.keep(self.end - self.start);
                self.start = self.end;
                false
            }
        }
    }

    /// Reads once, in place of what is held, and tells how many bytes came.
    pub fn fill<R: Read>(&mut self, reader: &mut R) -> io::Result<usize>
        ensures bytes { Keeps (R.remaining reader.old) (prepend_known (ahead_of self.new) (R.remaining reader.new)) }
        ensures count { IfOk result (λ count. length (ahead_of self.new) ≡ count) }
        ensures end { IfOk result (λ count. count ≡ 0 → IsAtEnd (R.remaining reader.new)) }
        ensures part { part_of self.new ≡ part_of self.old }
        ensures most { most_of self.new ≡ most_of self.old }
        ensures failed { OnErr result (ahead_of self.new ≡ []) }
    {
        self.start = 0;
        self.end = 0;
        let count = read_over(reader, &mut self.bytes)?;
        self.end = count;
        Ok(count)
    }

    // The bytes that no line took.
    fn ahead(&self) -> &[u8]
        ensures { result.now ≡ ahead_of self.now }
    {
        let (start, end) = (self.start, self.end);
        let bytes = self.bytes.as_slice();
        &bytes[start..end]
    }

    // The line ends in front of this place of the bytes that no line took: a line feed stands there.
    fn end_line(&mut self, place: usize)
        requires { place < length (ahead_of self.old) }
        ensures line { line_in self.new ≡ take self.old.most (part_of self.old ++ take place (ahead_of self.old)) }
        ensures bytes { self.new.bytes ≡ self.old.bytes }
        ensures start { self.new.start ≡ self.old.start }
        ensures end { self.new.end ≡ self.old.end }
        ensures most { self.new.most ≡ self.old.most }
    {
        if self.part.is_empty() {
            self.line_start = self.start;
            self.line_end = self.start + place.min(self.most);
        } else {
            self.keep(place);
        }
    }

    // So many of the bytes that no line took are the line's, as far as they are kept.
    fn keep(&mut self, count: usize)
        requires { count ≤ length (ahead_of self.old) }
        ensures part { part_of self.new ≡ take self.old.most (part_of self.old ++ take count (ahead_of self.old)) }
        ensures bytes { self.new.bytes ≡ self.old.bytes }
        ensures start { self.new.start ≡ self.old.start }
        ensures end { self.new.end ≡ self.old.end }
        ensures most { self.new.most ≡ self.old.most }
    {
        let count = count.min(self.most - self.part.len());
        let bytes = self.bytes.as_slice();
        self.part
            .extend_from_slice(&bytes[self.start..self.start + count])
            .unwrap();
    }
}

// Reads once into the bytes.
fn read_over<R: Read>(reader: &mut R, bytes: &mut Vec<u8>) -> io::Result<usize>
    ensures len { vec_len bytes.new ≡ vec_len bytes.old }
    ensures within { IfOk result (λ count. count ≤ vec_len bytes.new) }
    ensures ok { IfOk result (λ count. Consumes (R.remaining reader.old) (R.remaining reader.new) (take count bytes.new.items)) }
    ensures end { IfOk result (λ count. count ≡ 0 → 0 < vec_len bytes.old → IsAtEnd (R.remaining reader.new)) }
    ensures failed { OnErr result (Keeps (R.remaining reader.old) (R.remaining reader.new)) }
{
    reader.read(bytes.as_mut_slice())
}
