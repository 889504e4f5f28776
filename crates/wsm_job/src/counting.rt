//! What is written, and counted where that is asked for.

use std::alloc::{AllocError, Global};
use std::io::{self, Write};
use wsm_row_counts::Lines;

/// A writer whose lines are counted, where that is asked for.
pub struct Counting<W> {
    writer: W,
    lines: Option<Lines>,
    // Whether there was no memory to count them.
    has_failed: bool,
}

// It is let go in one call, however many parts it has.
impl<W: Drop> Drop for Counting<W> {
    fn drop(self) {
        let Counting {
            writer: _,
            lines: _,
            has_failed: _,
        } = self;
    }
}

impl<W> Counting<W> {
    ghost use Rattle.std.specs.Prelude.{◌≡◌};

    /// A writer to which nothing was written.
    pub fn new(alloc: Global, writer: W, is_asked: bool) -> Counting<W> {
        let lines = if is_asked {
            Some(Lines::new(alloc))
        } else {
            None
        };
        Counting {
            writer,
            lines,
            has_failed: false,
        }
    }

    // Counts what was written.
    fn count(&mut self, written: &[u8])
        ensures { self.new.writer ≡ self.old.writer }
    {
        if let Some(lines) = &mut self.lines {
            if lines.take(written).is_err() {
                self.has_failed = true;
            }
        }
    }
}

impl<W: Drop> Counting<W> {
    /// What was counted, where that was asked for.
    ///
    /// # Errors
    ///
    /// There was no memory to count it.
    pub fn into_lines(self) -> Result<Option<Lines>, AllocError> {
        let Counting {
            writer: _,
            lines,
            has_failed,
        } = self;
        if has_failed {
            return Err(AllocError);
        }
        Ok(lines)
    }
}

impl<W: Write> Write for Counting<W> {
    // What was handed on.
    ghost contents = { λ c. W.contents c.writer };

    fn write(&mut self, buf: &[u8]) -> io::Result<usize> {
        let count = self.writer.write(buf)?;
        self.count(&buf[..count]);
        Ok(count)
    }

    fn flush(&mut self) -> io::Result<()> {
        self.writer.flush()
    }
}
