//! How much of a log was read, told while it lasts.

use std::io::{self, Eprint, Read};
use std::time::{Clock, Duration, Instant};

// How many seconds nothing is told.
const PAUSE: u64 = 5;

const MEGABYTE: u64 = 1_000_000;

/// A log that tells on standard error every five seconds how much of it was read, where somebody looks.
#[derive(Drop)]
pub struct Watched<'r, R, I> {
    rt: &'r R,
    log: I,
    // How many bytes it had as it was opened, and how many were read.
    size: u64,
    read: u64,
    // When it is told next; never, where nobody looks.
    next: Option<Instant>,
}

impl<'r, R: Clock, I> Watched<'r, R, I> {
    /// A log of so many bytes, of which none was read.
    pub fn new(rt: &'r R, log: I, size: u64, is_looked_at: bool) -> Watched<'r, R, I> {
        let next = if is_looked_at { after_pause(rt) } else { None };
        Watched {
            rt,
            log,
            size,
            read: 0,
            next,
        }
    }
}

impl<'r, R: Clock + Eprint, I> Watched<'r, R, I> {
    // Tells how much was read, where it is time.
    fn tell(&mut self) {
        let Some(next) = self.next else {
            return;
        };
        let Ok(now) = Instant::now(self.rt) else {
            return;
        };
        if next <= now {
            let (read, size) = (self.read / MEGABYTE, self.size / MEGABYTE);
            let _ = eprintln!(self.rt; "wsm: {read} of {size} MB read");
            self.next = after_pause(self.rt);
        }
    }
}

impl<'r, R: Clock + Eprint, I: Read> Read for Watched<'r, R, I> {
    fn read(&mut self, buf: &mut [u8]) -> io::Result<usize> {
        let count = self.log.read(buf)?;
        if self.next.is_some() {
            self.read = self.read.saturating_add(count as u64);
            self.tell();
        }
        Ok(count)
    }
}

// When it is told again.
fn after_pause<R: Clock>(rt: &R) -> Option<Instant> {
    let now = Instant::now(rt).ok()?;
    now.checked_add(Duration::from_secs(PAUSE))
}
