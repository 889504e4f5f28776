//! What the words say of a live run.

use std::fs::File;
use std::io::Eprint;
use std::rt::Files;
use std::time::{Clock, Duration};
use wsm_job::{Stop, WordsFault, number_or};
use wsm_live::{LineTaker, LiveRun};
use wsm_live_loop::{Settings, feed, follow};
use wsm_metrics::Measured;
use wsm_words::LiveJob;

// For how many seconds nothing comes to a log that has ended, where it isn't said.
const PATIENCE: u64 = 3;

// By how many bytes the journal grows until it is cut, where it isn't said.
const CUT: u64 = 16_777_216;

/// What a run is over.
#[derive(Clone, Copy)]
pub struct Over<'j> {
    pub from: &'j String,
    pub query: &'j String,
    pub log: &'j String,
}

impl<'j> Over<'j> {
    /// What the words name, if they name all of it.
    pub fn of(job: &'j LiveJob) -> Result<Over<'j>, Stop> {
        let Some(from) = &job.from else {
            return Err(Stop::Words(WordsFault::NoLive));
        };
        let Some(query) = &job.query else {
            return Err(Stop::Words(WordsFault::NoLive));
        };
        let Some(log) = &job.log else {
            return Err(Stop::Words(WordsFault::NoLive));
        };
        Ok(Over { from, query, log })
    }

    /// Whether a source writes its lines on standard input.
    pub fn is_fed(self) -> bool {
        self.log.as_str() == "-"
    }
}

/// How it goes over that.
#[derive(Clone, Copy)]
pub struct Going<'j> {
    job: &'j LiveJob,
    over: Over<'j>,
    patience: u64,
    cut: u64,
    goes_on: bool,
}

impl<'j> Going<'j> {
    /// What the words say of it.
    pub fn of(job: &'j LiveJob, over: Over<'j>) -> Result<Going<'j>, Stop> {
        if over.is_fed() && (job.lost.is_some() || job.patience.is_some()) {
            return Err(Stop::Words(WordsFault::NoFile));
        }
        Ok(Going {
            job,
            over,
            patience: number_or(job.patience.as_ref(), "--patience", PATIENCE)?,
            cut: number_or(job.cut.as_ref(), "--cut", CUT)?,
            goes_on: goes_on_of(job.lost.as_ref())?,
        })
    }

    /// Follows the log, or takes what comes on standard input, by a run that wants so many bytes of a line. The sum is of all that says
    /// what is written.
    pub fn run<
        R: Files<File = File> + AllocGlobal + Input + Print + Eprint + Clock + Clone + Drop,
        T: LineTaker + Measured,
    >(self, rt: &R, sum: u32, longest: usize, run: LiveRun<T>) -> Result<bool, Stop> {
        let settings = Settings {
            dir: self.job.dir.as_str(),
            log: self.over.log.as_str(),
            health: text_of(&self.job.health),
            patience: Duration::from_secs(self.patience),
            cut: self.cut,
            goes_on: self.goes_on,
            sum,
            longest,
        };
        if self.over.is_fed() {
            feed(rt, &settings, rt.reader(), run)?;
        } else {
            follow(rt, &settings, run)?;
        }
        Ok(true)
    }
}

// The text of a word, if it is given.
fn text_of(word: &Option<String>) -> Option<&str> {
    match word {
        Some(word) => Some(word.as_str()),
        None => None,
    }
}

// Whether it goes on at the beginning of the log where lines are gone.
fn goes_on_of(word: Option<&String>) -> Result<bool, Stop> {
    match word {
        None => Ok(false),
        Some(word) if word.as_str() == "begin" => Ok(true),
        Some(_) => Err(Stop::Words(WordsFault::NoPlace)),
    }
}
