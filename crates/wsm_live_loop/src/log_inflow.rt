//! The lines of a log that grows.

use crate::begin::LogPlace;
use crate::inflow::{Came, Inflow};
use crate::settings::Settings;
use crate::stop::LiveStop;
use std::alloc::AllocError;
use std::fs::File;
use std::io::Eprint;
use std::rt::Files;
use std::time::Clock;
use wsm_follow::{Folder, Follower, LogFolder, Lost, Turn, beginning};

/// A log that is followed.
#[derive(Drop)]
pub struct LogInflow<'a, R> {
    pub rt: &'a R,
    pub settings: &'a Settings<'a>,
    pub place: LogPlace<'a>,
    pub log: LogFolder<'a, R>,
    pub follower: Follower,
}

impl<R: Files<File = File> + AllocGlobal + Eprint + Clock + Clone + Drop> Inflow
    for LogInflow<'_, R> {
    fn turn(&mut self) -> Result<Came, LiveStop> {
        match self.follower.turn(&mut self.log)? {
            Turn::Lines => Ok(Came::Lines),
            Turn::Nothing => Ok(Came::Nothing),
            Turn::Next(left) => {
                self.tell_left(left);
                Ok(Came::More)
            }
            Turn::Elsewhere => {
                self.tell_elsewhere();
                Ok(Came::More)
            }
            Turn::Packed(name) => Err(LiveStop::Packed(name)),
            Turn::Lost(lost) => self.begin_again(lost),
        }
    }

    fn lines(&self) -> &[u8] {
        self.follower.lines()
    }

    fn write_position(&self, text: &mut Vec<u8>) -> Result<(), AllocError> {
        self.follower.position().write(text)
    }

    // Those of the log's file.
    fn behind(&mut self) -> Result<u64, LiveStop> {
        let (file, offset) = (
            self.follower.position().file,
            self.follower.position().offset,
        );
        match self.log.size(file)? {
            Some(size) => Ok(size.saturating_sub(offset)),
            None => Ok(0),
        }
    }
}

impl<R: Files<File = File> + AllocGlobal + Eprint + Clock + Clone + Drop> LogInflow<'_, R> {
    // Goes on at the beginning of the log, where that is asked for and it is there.
    fn begin_again(&mut self, lost: Lost) -> Result<Came, LiveStop> {
        if !self.settings.goes_on {
            return Err(LiveStop::Lost(lost));
        }
        let known = self.place.known(self.rt.alloc())?;
        let Some(position) = beginning(&mut self.log, known)? else {
            return Ok(Came::Nothing);
        };
        let read = lost.read;
        let _ = eprintln!(self.rt;
            "wsm: LOG has lost {read} bytes that were read: goes on at its beginning"
        );
        let known = self.place.known(self.rt.alloc())?;
        self.follower = Follower::new(self.rt.alloc(), known, position, self.settings.longest)?;
        Ok(Came::More)
    }

    // Tells of a line that never ended.
    fn tell_left(&self, left: u64) {
        if left != 0 {
            let _ = eprintln!(self.rt;
                "wsm: left out, since LOG ended in the middle of a line: {left} bytes"
            );
        }
    }

    fn tell_elsewhere(&self) {
        let _ = eprintln!(self.rt;
            "wsm: LOG goes on in a copy, or its file has no name any more: lines may be missing"
        );
    }
}
