//! The lines of a reader, one at a time.

ghost use Rattle.std.specs.Prelude.{◌≡◌, ◌≢◌, ◌+◌, ◌<◌, ◌≤◌, ℕ, List, [], Option, Some, Ok, IfSome, IfOk, OnOk, OnErr, true, false, length};
ghost use Rattle.std.specs.Io.KnownBytes.{IsAtEnd, Keeps};

use crate::line_buffer::LineBuffer;
use std::alloc::{AllocError, Global};
use std::io::{ErrorKind, Read};

/// A read of the bytes failed, or 2^64 - 1 lines and reads were counted with no end.
#[derive(Clone, Copy, Debug, PartialEq, Eq)]
pub struct ReadFailed;

/// The lines of a reader, each in the place of the one before: the bytes as they stand, without the
/// line feed. What stands behind the last line feed is a line where it isn't empty.
#[derive(Drop)]
pub struct Lines<R> {
    reader: R,
    buffer: LineBuffer,
    // For how many more lines and reads there are turns.
    left: u64,
    // Whether a read gave nothing.
    over: bool,
}

impl<R: Read + Drop> Lines<R> {
    ghost use Rattle.wsm_log.specs.Lines.{Advances, Follows, bytes_left, ending_of, line_of, most_kept, turns_left};
    ghost use Rattle.wsm_log.specs.LineBuffer.{ahead_of, most_of, part_of};

    /// The lines of the bytes that the reader has, of which none is read here. At most `longest` bytes
    /// of a line are wanted; two more are kept, which tell that it is longer, with a carriage return
    /// too. All the memory is taken here: 64 KiB for what is read at once, and room for what is kept of
    /// a line.
    ///
    /// # Errors
    ///
    /// Memory was refused.
    pub fn new(alloc: Global, reader: R, longest: usize) -> Result<Lines<R>, AllocError>
        ensures { IfOk result (Follows longest R.remaining (R.remaining reader) []) }
    {
        let Some(most) = longest.checked_add(2) else {
            return Err(AllocError);
        };
        Ok(Lines {
            reader,
            buffer: LineBuffer::new(alloc, most)?,
            left: u64::MAX,
            over: false,
        })
    }

    /// Reads the next line, and answers whether there was one. A read of no bytes is the end; one that
    /// was interrupted is tried again. After the end or an error nothing more is read, and the same is
    /// answered again.
    ///
    /// # Errors
    ///
    /// A read failed, or 2^64 - 1 lines and reads were counted. A line that was read in part is lost.
    pub fn advance(&mut self) -> Result<bool, ReadFailed>
        ensures advances { (longest : ℕ) (known : Option (List ℕ)) (lines : List (List ℕ)) → Follows longest R.remaining known lines self.old →
            Advances longest R.remaining known lines self.new result }
        ensures counts { result ≡ Ok true → turns_left self.new < turns_left self.old }
        ensures ends { result ≢ Ok true → ending_of self.new ≡ Some result }
        ensures ended { IfSome (ending_of self.old) (λ ending. result ≡ ending) }
    {
        self.buffer.begin();
        if self.over {
            return Ok(false);
        }
        while let Some(left) = self.left.checked_sub(1) {
            self.left = left;
            if self.buffer.take_line() {
                return Ok(true);
            }
            if !self.read_on()? {
                return Ok(self.buffer.has_part());
            }
        }
        Err(ReadFailed)
    }

    /// The line that was read last, as far as it is kept.
    pub fn line(&self) -> &[u8]
        ensures value { result.now ≡ line_of self.now }
        ensures short { length result.now ≤ most_kept self.now }
    {
        self.buffer.line()
    }

    // Reads once more, and tells whether there may be more. An error or the end is kept.
    fn read_on(&mut self) -> Result<bool, ReadFailed>
        requires { ahead_of self.old.buffer ≡ [] }
        ensures bytes { Keeps (bytes_left R.remaining self.old) (bytes_left R.remaining self.new) }
        ensures more { result ≡ Ok true → self.new.over ≡ self.old.over }
        ensures end { result ≡ Ok false → IsAtEnd (bytes_left R.remaining self.new) × (self.new.over ≡ true) }
        ensures turns { OnOk result (turns_left self.new ≡ turns_left self.old) }
        ensures failed { OnErr result ((turns_left self.new ≡ 0) × (self.new.over ≡ self.old.over)) }
        ensures part { part_of self.new.buffer ≡ part_of self.old.buffer }
        ensures most { most_of self.new.buffer ≡ most_of self.old.buffer }
    {
        match self.buffer.fill(&mut self.reader) {
            Ok(0) => {
                self.over = true;
                Ok(false)
            }
            Ok(_) => Ok(true),
            Err(error) if error.kind() == ErrorKind::Interrupted => Ok(true),
            Err(_) => {
                self.left = 0;
                Err(ReadFailed)
            }
        }
    }
}
