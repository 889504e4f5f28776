//! What is told of a log on standard error.

use std::io::Eprint;
use wsm_log_text::LogCounts;
use wsm_turns::{Heard, Listener};

/// Tells of the clocks of a log while a run over it lasts, and of its clocks, doubles and records without a
/// clock at the end.
#[derive(Drop)]
pub struct Teller<'r, R> {
    rt: &'r R,
}

impl<'r, R: Eprint> Teller<'r, R> {
    /// One that writes to standard error.
    pub fn new(rt: &'r R) -> Teller<'r, R> {
        Teller { rt }
    }

    /// Tells what a run left out, and what its clocks came to, where there is something to tell.
    pub fn tell(&self, counts: LogCounts) {
        let doubles = counts.doubles;
        if doubles != 0 {
            let _ = eprintln!(self.rt;
                "wsm: left out, since their identifier came before: {doubles}"
            );
        }
        let silent = counts.silent;
        if silent != 0 {
            let _ = eprintln!(self.rt;
                "wsm: told no time, since their line names no clock or one more than there may be: {silent}"
            );
        }
        if let Some(heard) = counts.heard {
            self.tell_heard(heard);
        }
    }

    // The same of its clocks.
    fn tell_heard(&self, heard: Heard) {
        let waiting = heard.waiting;
        if waiting != 0 {
            let _ = eprintln!(self.rt; "wsm: waited for the clocks until the log ended: {waiting}");
        }
        if heard.voices < heard.agree {
            self.tell_few(heard);
        }
    }

    // That too few clocks speak.
    fn tell_few(&self, heard: Heard) {
        let (agree, voices) = (heard.agree, heard.voices);
        let _ = eprintln!(self.rt;
            "wsm: no watermark rises: clocks that speak: {voices}, that must agree: {agree}"
        );
    }
}

impl<'r, R: Eprint> Listener for Teller<'r, R> {
    fn hear(&mut self, _lines: u64, heard: Heard) {
        if heard.voices < heard.agree {
            self.tell_few(heard);
        }
    }
}
