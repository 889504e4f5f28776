//! Who is told of clocks while lines come.

use crate::heard::Heard;
use crate::waiting::{Waiting, clocks_heard};

/// Who is told what clocks come to while lines come.
pub trait Listener {
    /// After so many lines they have come to this.
    fn hear(&mut self, lines: u64, heard: Heard);
}

// It is told after so many lines, and after each further `EACH`.
const FIRST: u64 = 1_000;

const EACH: u64 = 100_000;

/// Tells a listener what the clocks have come to, where there are any and it is told after as many lines: the first 1,000 and each
/// 100,000.
pub fn tell_heard<L: Listener>(waiting: &Option<Waiting>, lines: u64, listener: &mut L) {
    if lines == FIRST || lines % EACH == 0 {
        if let Some(heard) = clocks_heard(waiting) {
            listener.hear(lines, heard);
        }
    }
}
