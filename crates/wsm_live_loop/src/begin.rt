//! How a live run begins.

use crate::stop::{LiveStop, stop_of};
use std::alloc::Global;
use std::fs::File;
use std::io::Eprint;
use std::path::Path;
use std::rt::Files;
use std::thread;
use std::time::{Clock, Duration};
use wsm_follow::{Folder, Follower, LogFolder, Name, Position, first_beginning};
use wsm_journal::is_position;
use wsm_live::{HeadRow, LineTaker, Live, LiveRun};
use wsm_live_files::{FileCall, FolderFault, JournalFiles, LiveFolder, RunName};

// What random bytes are called where they can't be read.
const RANDOM: &str = "/dev/urandom";

/// For how many milliseconds it sleeps where nothing came.
pub const PAUSE: u64 = 200;

/// Which log it is: the folder that it lies in, and its name there.
#[derive(Clone, Copy)]
pub struct LogPlace<'p> {
    pub folder: &'p str,
    pub name: &'p str,
}

impl<'p> LogPlace<'p> {
    /// The place of a path, if it names a file.
    pub fn of(path: &'p str) -> Option<LogPlace<'p>> {
        let path = Path::new(path);
        let name = path.file_name()?;
        let folder = match path.parent() {
            Some(parent) if !parent.as_os_str().is_empty() => parent.as_os_str(),
            _ => ".",
        };
        Some(LogPlace { folder, name })
    }

    /// Its name as a follower knows it.
    pub fn known(self, alloc: Global) -> Result<Name, LiveStop> {
        match Name::new(alloc, self.name.as_bytes())? {
            Some(name) => Ok(name),
            None => Err(LiveStop::NoLog),
        }
    }
}

// The text of the position at the beginning of the log, as far back as it can be read, if it is there.
fn beginning_text<F: Folder>(
    alloc: Global,
    place: LogPlace<'_>,
    log: &mut F,
) -> Result<Option<Vec<u8>>, LiveStop> {
    match first_beginning(alloc, log, &place.known(alloc)?)? {
        Some(position) => {
            let mut text = Vec::new(alloc);
            position.write(&mut text)?;
            Ok(Some(text))
        }
        None => Ok(None),
    }
}

/// The text of the position at the log's beginning, for which it waits until the log is there.
pub fn awaited_beginning<R: AllocGlobal + Eprint + Clock, F: Folder>(
    rt: &R,
    place: LogPlace<'_>,
    log: &mut F,
) -> Result<Vec<u8>, LiveStop> {
    let mut is_told = false;
    for _ in 0..u64::MAX {
        if let Some(text) = beginning_text(rt.alloc(), place, log)? {
            return Ok(text);
        }
        if !is_told {
            let _ = eprintln!(rt; "wsm: LOG isn't there yet, or is no plain file");
            is_told = true;
        }
        thread::sleep(rt, Duration::from_millis(PAUSE));
    }
    Err(LiveStop::Log)
}

/// The position at which a journal is begun: it waits for the log where there is no journal yet.
pub fn begin_text<R: Files<File = File> + AllocGlobal + Eprint + Clock + Clone + Drop>(
    rt: &R,
    folder: &LiveFolder<'_, R>,
    place: LogPlace<'_>,
    log: &mut LogFolder<'_, R>,
) -> Result<Vec<u8>, LiveStop> {
    if folder.journal_size()? == 0 {
        return awaited_beginning(rt, place, log);
    }
    match beginning_text(rt.alloc(), place, log)? {
        Some(text) => Ok(text),
        None => Ok(Vec::new(rt.alloc())),
    }
}

// The row of a head with a new name.
fn head_of<R: Files<File = File> + AllocGlobal>(rt: &R, sum: u32) -> Result<HeadRow, LiveStop> {
    let name = match RunName::drawn(rt) {
        Ok(name) => name,
        Err(error) => return Err(LiveStop::from(FolderFault::of(RANDOM, FileCall::Read, &error))),
    };
    let name = format!(in rt.alloc(); "{name}")?;
    match HeadRow::new(rt.alloc(), name.as_bytes(), sum)? {
        Some(head) => Ok(head),
        // This doesn't come: a name has 16 digits.
        None => Err(LiveStop::Other),
    }
}

/// The run of DIR, behind all lines of its journal. What is handed out for them is added.
pub fn opened<'r, R: Files<File = File> + AllocGlobal + Clone + Drop, T: LineTaker>(
    rt: &'r R,
    sum: u32,
    files: JournalFiles<'r, R>,
    begin: &[u8],
    run: LiveRun<T>,
    out: &mut Vec<u8>,
) -> Result<Live<JournalFiles<'r, R>, T>, LiveStop> {
    if !is_position(begin) {
        return Err(LiveStop::NoPosition);
    }
    let head = head_of(rt, sum)?;
    match Live::open(rt.alloc(), files, run, &head, begin, out) {
        Ok(live) => Ok(live),
        Err((error, files)) => Err(stop_of(error, files.fault())),
    }
}

/// Follows the log from where the journal stands, or from its beginning where that was begun before the log was there.
pub fn follower_at<R: AllocGlobal + Eprint + Clock, F: Folder>(
    rt: &R,
    place: LogPlace<'_>,
    log: &mut F,
    position: &[u8],
    longest: usize,
) -> Result<Follower, LiveStop> {
    let known = place.known(rt.alloc())?;
    let position = if position.is_empty() {
        let begin = awaited_beginning(rt, place, log)?;
        Position::read(rt.alloc(), &begin)?
    } else {
        Position::read(rt.alloc(), position)?
    };
    match position {
        Some(position) => Ok(Follower::new(rt.alloc(), known, position, longest)?),
        None => Err(LiveStop::NoPosition),
    }
}
