//! The whole lines of a reader.

ghost use Rattle.std.specs.Prelude.{◌≡◌, ◌++◌, ◌+◌, ◌<◌, ◌≤◌, ℕ, List, [], false, true, take, length, min, IfOk, OnOk, IfSome};
ghost use Rattle.std.specs.Io.{ReadsAtMost};
ghost use Rattle.std.specs.Io.Iter.{u64_saturate};
ghost use Rattle.std.specs.Io.KnownBytes.{Appends, Consumes, IsAtEnd, Keeps};
ghost use Rattle.wsm_replace.specs.Lines.{CanRead, HasNone, IsSpent, input_of, lines_left, behind, room, unread};

use crate::fault::{ReplaceFault, reading};
use memchr::{memchr, memrchr};
use std::alloc::{AllocError, Global};
use std::io::{self, ErrorKind, Read, Write};

// How many bytes are asked for at once.
const CHUNK: usize = 1 << 16;

/// Why lines aren't handed on.
#[derive(Clone, Copy)]
pub enum LinesFault {
    /// One has a quote, so where rows end can't be told by them.
    Quote,
    /// There was no memory for them.
    Memory,
}

impl From<AllocError> for LinesFault {
    fn from(_error: AllocError) -> LinesFault {
        LinesFault::Memory
    }
}

/// The lines of a reader that end with a line feed, among its first bytes. What is behind them is handed on apart.
#[derive(Drop)]
pub struct WholeLines<I> {
    input: I,
    // Where bytes are read to.
    chunk: Vec<u8>,
    // Lines that were read, of which so many bytes were handed on.
    lines: Vec<u8>,
    given: usize,
    // The line that was begun behind them.
    begun: Vec<u8>,
    // How many bytes may still be read for lines.
    left: u64,
    fault: Option<LinesFault>,
}

impl<I: Read + Drop> WholeLines<I> {
    /// The lines among so many bytes of a reader: as many bytes as these are read for lines, as far as it has them, and no more.
    pub fn new(alloc: Global, input: I, most: u64) -> Result<WholeLines<I>, AllocError>
        ensures all { IfOk result (λ lines. unread I.remaining lines ≡ I.remaining input) }
        ensures most { IfOk result (λ lines. room lines ≡ most) }
        ensures ready { IfOk result CanRead }
    {
        let mut chunk = Vec::new(alloc);
        chunk.resize(CHUNK, 0)?;
        Ok(WholeLines {
            input,
            chunk,
            lines: Vec::new(alloc),
            given: 0,
            begun: Vec::new(alloc),
            left: most,
            fault: None,
        })
    }

    /// Why a read of the lines has failed, where it wasn't one of the reader's.
    pub fn fault(&self) -> Option<LinesFault> {
        self.fault
    }

    /// Writes what was read of a line behind them and what the reader still has, and has it leave.
    pub fn hand_on<W: Write>(&mut self, out: &mut W) -> Result<(), ReplaceFault>
        ensures { OnOk result (IfSome (behind I.remaining self.old) (Appends (W.contents out.old) (W.contents out.new))) }
    {
        all_written(out, &self.begun)?;
        self.hand_rest(out)?;
        match out.flush() {
            Ok(()) => Ok(()),
            Err(_) => Err(ReplaceFault::WriteFailed),
        }
    }

    /// Writes what the reader still has, and answers how many bytes that were.
    pub fn hand_rest<W: Write>(&mut self, out: &mut W) -> Result<u64, ReplaceFault>
        ensures bytes { OnOk result (IfSome (I.remaining (input_of self.old)) (Appends (W.contents out.old) (W.contents out.new))) }
        ensures count { IfOk result (λ count. IfSome (I.remaining (input_of self.old)) (λ bytes. count ≡ u64_saturate (length bytes))) }
    {
        copied(&mut self.input, out)
    }

    // Reads lines where all that were read are handed on: none at the end.
    fn refill(&mut self) -> io::Result<()>
        ensures kept { OnOk result (Keeps (unread I.remaining self.old) (unread I.remaining self.new)) }
        ensures room { OnOk result (room self.new ≡ room self.old) }
        ensures ready { OnOk result (CanRead self.old → CanRead self.new) }
        ensures end { OnOk result (CanRead self.old → lines_left self.new ≡ [] → IsSpent I.remaining self.new) }
    {
        if self.given < self.lines.len() {
            return Ok(());
        }
        self.fill()
    }

    // Reads lines in the place of those that were handed on: none at the end.
    fn fill(&mut self) -> io::Result<()>
        requires { lines_left self.old ≡ [] }
        ensures kept { OnOk result (Keeps (unread I.remaining self.old) (unread I.remaining self.new)) }
        ensures room { OnOk result (room self.new ≡ room self.old) }
        ensures ready { OnOk result (CanRead self.old → CanRead self.new) }
        ensures end { OnOk result (CanRead self.old → lines_left self.new ≡ [] → IsSpent I.remaining self.new) }
    {
        self.lines.clear();
        self.given = 0;
        for _ in 0..u64::MAX {
            if self.has_lines()? {
                return Ok(());
            }
        }
        Err(io::Error::from(ErrorKind::Interrupted))
    }

    // Reads bytes, and answers whether that is all for now.
    fn has_lines(&mut self) -> io::Result<bool>
        requires { HasNone self.old }
        ensures kept { OnOk result (Keeps (unread I.remaining self.old) (unread I.remaining self.new)) }
        ensures room { OnOk result (room self.new ≡ room self.old) }
        ensures ready { OnOk result (CanRead self.old → CanRead self.new) }
        ensures none { IfOk result (λ is_all. is_all ≡ false → HasNone self.new) }
        ensures end { IfOk result (λ is_all. is_all ≡ true → CanRead self.old → lines_left self.new ≡ [] → IsSpent I.remaining self.new) }
    {
        let count = self.read_on()?;
        self.left = self.left.saturating_sub(count as u64);
        match self.take(count) {
            Ok(is_all) => Ok(is_all),
            Err(fault) => {
                self.fault = Some(fault);
                Err(io::Error::from(ErrorKind::InvalidData))
            }
        }
    }

    // Reads bytes that may still be read for lines, and answers how many.
    fn read_on(&mut self) -> io::Result<usize>
        ensures chunk { OnOk result (length self.new.chunk.items ≡ min self.old.left (length self.old.chunk.items)) }
        ensures bound { IfOk result (λ count. count ≤ length self.new.chunk.items) }
        ensures left { self.new.left ≡ self.old.left }
        ensures end { IfOk result (λ count. count ≡ 0 → 0 < length self.new.chunk.items → IsAtEnd (I.remaining self.new.input)) }
        ensures read { IfOk result (λ count. Consumes (I.remaining self.old.input) (I.remaining self.new.input) (take count self.new.chunk.items)) }
        ensures lines { (self.new.lines.items ≡ self.old.lines.items) × (self.new.given ≡ self.old.given) }
        ensures begun { self.new.begun.items ≡ self.old.begun.items }
    {
        let left = usize::try_from(self.left).unwrap_or(usize::MAX);
        self.chunk.truncate(left);
        read_some(&mut self.input, &mut self.chunk)
    }

    // Takes so many bytes that were read, and answers whether that is all for now.
    fn take(&mut self, count: usize) -> Result<bool, LinesFault>
        requires { count ≤ length self.old.chunk.items }
        ensures taken { OnOk result (self.new.lines.items ++ self.new.begun.items ≡ self.old.lines.items
            ++ (self.old.begun.items ++ take count self.old.chunk.items)) }
        ensures none { IfOk result (λ is_all. is_all ≡ false → self.new.lines.items ≡ self.old.lines.items) }
        ensures end { IfOk result (λ is_all. is_all ≡ true → self.new.lines.items ≡ [] → count ≡ 0) }
        ensures same { (self.new.given ≡ self.old.given) × (self.new.input ≡ self.old.input) }
        ensures left { (self.new.left ≡ self.old.left) × (self.new.chunk.items ≡ self.old.chunk.items) }
    {
        let read = &self.chunk[..count];
        if memchr(b'"', read).is_some() {
            return Err(LinesFault::Quote);
        }
        let Some(end) = memrchr(b'\n', read) else {
            self.begun.extend_from_slice(read)?;
            return Ok(read.is_empty());
        };
        let (lines, begun) = read.split_at(end + 1);
        self.lines.extend_from_slice(&self.begun)?;
        self.lines.extend_from_slice(lines)?;
        self.begun.clear();
        self.begun.extend_from_slice(begun)?;
        Ok(true)
    }
}

impl<I: Read + Drop> Read for WholeLines<I> {
    fn read(&mut self, buf: &mut [u8]) -> io::Result<usize>
        ensures bound { ReadsAtMost result buf.new }
        ensures taken { IfOk result (λ count. Consumes (unread I.remaining self.old) (unread I.remaining self.new) (take count buf.new)) }
        ensures spent { IfOk result (λ count. count ≡ 0 → 0 < length buf.old → lines_left self.new ≡ []) }
        ensures room { IfOk result (λ count. room self.new + count ≡ room self.old) }
        ensures ready { OnOk result (CanRead self.old → CanRead self.new) }
        ensures end { IfOk result (λ count. count ≡ 0 → 0 < length buf.old → CanRead self.old → IsSpent I.remaining self.new) }
    {
        self.refill()?;
        let mut rest = self.lines.get(self.given..).unwrap_or_default();
        let count = rest.read(buf)?;
        self.given = self.given.saturating_add(count);
        Ok(count)
    }
}

fn all_written<W: Write>(out: &mut W, bytes: &[u8]) -> Result<(), ReplaceFault>
    ensures { OnOk result (Appends (W.contents out.old) (W.contents out.new) bytes.now) }
{
    match out.write_all(bytes) {
        Ok(()) => Ok(()),
        Err(_) => Err(ReplaceFault::WriteFailed),
    }
}

// Copies a reader to its end, and answers how many bytes that were.
fn copied<I: Read, W: Write>(input: &mut I, out: &mut W) -> Result<u64, ReplaceFault>
    ensures bytes { OnOk result (IfSome (I.remaining input.old) (Appends (W.contents out.old) (W.contents out.new))) }
    ensures count { IfOk result (λ count. IfSome (I.remaining input.old) (λ bytes. count ≡ u64_saturate (length bytes))) }
{
    let mut total = 0u64;
    for _ in 0..u64::MAX {
        let count = copy_some(input, out)?;
        if count == 0 {
            return Ok(total);
        }
        total = total.saturating_add(count as u64);
    }
    Err(ReplaceFault::ReadFailed)
}

// Copies the next bytes of a reader, and answers how many: none at its end.
fn copy_some<I: Read, W: Write>(input: &mut I, out: &mut W) -> Result<usize, ReplaceFault>
    ensures moved { IfOk result (λ count. (bytes : List ℕ) × (length bytes ≡ count)
        × Consumes (I.remaining input.old) (I.remaining input.new) bytes
        × Appends (W.contents out.old) (W.contents out.new) bytes) }
    ensures end { IfOk result (λ count. count ≡ 0 → IsAtEnd (I.remaining input.new)) }
{
    let mut chunk = [0u8; 8192];
    let count = match read_some(input, &mut chunk) {
        Ok(count) => count,
        Err(error) => return Err(reading(&error)),
    };
    all_written(out, &chunk[..count])?;
    Ok(count)
}

// Reads, again where a signal came in between.
fn read_some<I: Read>(input: &mut I, buf: &mut [u8]) -> io::Result<usize>
    ensures bound { ReadsAtMost result buf.new }
    ensures ok { IfOk result (λ count. Consumes (I.remaining input.old) (I.remaining input.new) (take count buf.new)) }
    ensures end { IfOk result (λ count. count ≡ 0 → 0 < length buf.old → IsAtEnd (I.remaining input.new)) }
{
    for _ in 0..u64::MAX {
        match input.read(buf) {
            Err(error) if error.kind() == ErrorKind::Interrupted => {}
            answer => return answer,
        }
    }
    Err(io::Error::from(ErrorKind::Interrupted))
}
