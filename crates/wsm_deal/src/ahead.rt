//! A reader that knows how far rows are whole in what its input gave.

ghost use Rattle.std.specs.Prelude.{◌≡◌, IfOk};
ghost use Rattle.wsm_deal.specs.Parts.{bytes_of};

use memchr::memchr;
use std::alloc::{AllocError, Global};
use std::io::{self, BufReader, Read};

// How many bytes the input is asked for at once.
const ASKED: usize = 65_536;

/// A reader that knows up to which place of its bytes a row is whole in what its input gave, so that
/// whoever reads rows can tell when the next one may wait for the input. It asks for up to 64 KiB at
/// once, and gives those before it asks again.
#[derive(Drop)]
pub struct Ahead<R> {
    input: BufReader<R>,
    // How many bytes were given.
    given: u64,
    // A row that begins in front of this place ends in what the input gave.
    whole: u64,
}

impl<R: Read + Drop> Ahead<R> {
    /// A reader of this input's bytes, of which none was given.
    ///
    /// # Errors
    ///
    /// Memory was refused.
    pub fn new(alloc: Global, input: R) -> Result<Ahead<R>, AllocError>
        ensures { IfOk result (λ a. bytes_of R.remaining a ≡ R.remaining input) }
    {
        let Ok(input) = BufReader::with_capacity(alloc, ASKED, input) else {
            return Err(AllocError);
        };
        Ok(Ahead {
            input,
            given: 0,
            whole: 0,
        })
    }
}

impl<R: Read> Ahead<R> {
    /// Whether a row that begins at a place may end in bytes that the input didn't give yet.
    pub fn may_wait(&self, place: u64) -> bool {
        self.whole <= place
    }
}

impl<R: Read> Read for Ahead<R> {
    ghost remaining = { bytes_of R.remaining };

    fn read(&mut self, buf: &mut [u8]) -> io::Result<usize> {
        let count = self.input.read(buf)?;
        if self.whole <= self.given {
            let whole = last_whole(&buf[..count], self.input.buffer());
            self.whole = self.given.saturating_add(whole as u64);
        }
        self.given = self.given.saturating_add(count as u64);
        Ok(count)
    }
}

// The last place in front of the first quote at which a line ends behind one byte or more of it; 0
// where there is none.
fn last_end(bytes: &[u8]) -> usize {
    let end = memchr(b'"', bytes).unwrap_or(bytes.len());
    for place in (1..end).rev() {
        if ends_line(bytes[place]) && !ends_line(bytes[place - 1]) {
            return place;
        }
    }
    0
}

// The last place of that kind in what is given and what is held behind it.
fn last_whole(given: &[u8], held: &[u8]) -> usize {
    if memchr(b'"', given).is_none() {
        let end = last_end(held);
        if 0 < end {
            return given.len().saturating_add(end);
        }
    }
    last_end(given)
}

fn ends_line(byte: u8) -> bool {
    byte == b'\n' || byte == b'\r'
}
