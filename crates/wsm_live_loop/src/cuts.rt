//! When a journal is cut.

ghost use Rattle.std.specs.Prelude.{◌≡◌};
ghost use Rattle.wsm_live_loop.specs.Cuts.{seconds_since};

use std::time::Instant;

/// After how many seconds a journal is cut that has grown, however little.
pub const HOUR: u64 = 3600;

/// When a journal was cut, and when it is cut next.
#[derive(Clone, Copy)]
pub struct Cuts {
    /// It is cut once it has grown by so many bytes.
    pub every: u64,
    /// How many bytes it had at the start, or behind the last cut.
    pub size: u64,
    /// When that was; none where the clock couldn't be read.
    pub since: Option<Instant>,
    /// Whether it couldn't be cut the last time.
    pub is_stuck: bool,
    /// The same time as monitors read it, in seconds since 1970; 0 where it wasn't cut since the start.
    pub last: u64,
}

impl Cuts {
    ghost use Rattle.std.specs.Prelude.{◌≡◌, ◌+◌, ◌<◌, ◌≤◌, true, false, Some};
    ghost use Rattle.wsm_live_loop.specs.declared.cuts.TheConstants.{HOUR};
    ghost use Rattle.wsm_live_loop.specs.Cuts.{age};

    /// At the start, where the journal has so many bytes.
    pub fn new(every: u64, size: u64, now: Option<Instant>) -> Cuts
        ensures size { result.size ≡ size }
        ensures every { result.every ≡ every }
        ensures since { result.since ≡ now }
        ensures goes { result.is_stuck ≡ false }
        ensures last { result.last ≡ 0 }
    {
        Cuts {
            every,
            size,
            since: now,
            is_stuck: false,
            last: 0,
        }
    }

    /// Whether a journal of so many bytes is to be cut: it has grown by as many as are wanted, and the last cut went well, or it
    /// has grown at all and an hour is gone.
    pub fn is_due(&self, size: u64, now: Instant) -> bool
        ensures grew { result ≡ true → self.now.size < size }
        ensures soon { result ≡ true → age self.now now < HOUR → (self.now.size + self.now.every ≤ size) × (self.now.is_stuck ≡ false) }
        ensures full { self.now.size < size → self.now.size + self.now.every ≤ size → self.now.is_stuck ≡ false → result ≡ true }
        ensures hourly { self.now.size < size → HOUR ≤ age self.now now → result ≡ true }
    {
        if size <= self.size {
            return false;
        }
        let is_full = !self.is_stuck && self.every <= size - self.size;
        is_full || HOUR <= seconds_since(self.since, now)
    }

    /// It was cut, and has so many bytes.
    pub fn cut(&mut self, size: u64, now: Option<Instant>, seconds: u64)
        ensures { self.new ≡ record self.old { size = size; since = now; is_stuck = false; last = seconds } }
    {
        self.last = seconds;
        self.put_off(size, now);
    }

    /// There was nothing to cut: it is tried again as behind a cut.
    pub fn put_off(&mut self, size: u64, now: Option<Instant>)
        ensures { self.new ≡ record self.old { size = size; since = now; is_stuck = false } }
    {
        self.size = size;
        self.since = now;
        self.is_stuck = false;
    }

    /// It couldn't be cut: it is tried again in an hour. Answers whether it is the first time.
    pub fn fail(&mut self, now: Option<Instant>) -> bool
        ensures state { self.new ≡ record self.old { since = now; is_stuck = true } }
        ensures first { result ≡ true → self.old.is_stuck ≡ false }
        ensures again { result ≡ false → self.old.is_stuck ≡ true }
    {
        let is_first = !self.is_stuck;
        self.since = now;
        self.is_stuck = true;
        is_first
    }
}

/// How many seconds are gone since a time; none where it isn't known.
pub fn seconds_since(time: Option<Instant>, now: Instant) -> u64
    ensures { result ≡ seconds_since time now }
{
    match time {
        Some(time) => now.saturating_duration_since(time).as_secs(),
        None => 0,
    }
}
