//! A device made of any writer.

ghost use Rattle.std.specs.Prelude.{◌≡◌, false};

use crate::device::{Device, DeviceFault};
use std::io::Write;

/// A device made of any writer. An error, or a write that takes nothing, is its failure; no write is
/// tried again after an error.
#[derive(Drop)]
pub struct Guarded<W> {
    writer: W,
    failed: bool,
    flushed: bool,
}

impl<W: Write> Guarded<W> {
    ghost use Rattle.wsm_csv.specs.Guarded.{writer_of};

    /// A device that hasn't failed, and was not flushed.
    pub fn new(writer: W) -> Self
        ensures writer { writer_of result ≡ writer }
        ensures works { ⟦<Guarded<W> as Device>⟧.has_failed result ≡ false }
        ensures unflushed { ⟦<Guarded<W> as Device>⟧.is_flushed result ≡ false }
    {
        Guarded {
            writer,
            failed: false,
            flushed: false,
        }
    }

    /// The writer, with what it took.
    pub fn into_writer(self) -> W
    where
        W: Drop,
        ensures { result ≡ writer_of self }
    {
        self.writer
    }
}

impl<W: Write> Device for Guarded<W> {
    ghost taken = { λ g. W.contents g.writer };

    ghost has_failed = { λ g. g.failed };

    ghost is_flushed = { λ g. g.flushed };

    fn put(&mut self, bytes: &[u8]) -> Result<usize, DeviceFault> {
        if bytes.is_empty() {
            return Ok(0);
        }
        self.flushed = false;
        match self.writer.write(bytes) {
            Ok(count) if 0 < count => Ok(count),
            _ => {
                self.failed = true;
                Err(DeviceFault)
            }
        }
    }

    fn flush(&mut self) -> Result<(), DeviceFault> {
        match self.writer.flush() {
            Ok(()) => {
                self.flushed = true;
                Ok(())
            }
            Err(_) => {
                self.failed = true;
                Err(DeviceFault)
            }
        }
    }

    fn failed(&self) -> bool {
        self.failed
    }
}
