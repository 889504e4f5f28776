//! The turns of a live run.

use crate::begin::{LogPlace, PAUSE, begin_text, follower_at, opened};
use crate::cuts::{Cuts, seconds_since};
use crate::fed_inflow::FedInflow;
use crate::health::Health;
use crate::inflow::{Came, Inflow};
use crate::log_inflow::LogInflow;
use crate::numbered::count_rows;
use crate::settings::Settings;
use crate::sinks::{Handed, least_taken};
use crate::stop::{LiveStop, stop_of};
use std::alloc::AllocError;
use std::fs::File;
use std::io::{self, Eprint, Read, Write};
use std::rt::Files;
use std::thread;
use std::time::{Clock, Duration, Instant, SystemTime, UNIX_EPOCH};
use wsm_follow::LogFolder;
use wsm_journal::{JournalError, ReplaceError, is_position};
use wsm_live::{Front, LineTaker, Live, LiveError, LiveRun};
use wsm_live_files::{FileFault, FolderFault, JournalFiles, LiveFolder, RunName, put_health};
use wsm_metrics::Measured;
use wsm_row_counts::Counts;

// After how many seconds it looks at what sinks told, and renews what monitors read.
const LOOK: u64 = 1;

const RENEW: u64 = 5;

// For how many looks at most it waits for sinks before a cut, and for how many milliseconds before each. Where that was in vain
// it doesn't wait again for so many seconds.
const WAITS: u64 = 40;

const WAIT: u64 = 50;

const REST: u64 = 20;

// Why the turns ended.
#[derive(Drop)]
enum Halt {
    // By an error of the journal, whose files may know why.
    Journal(LiveError),
    Stop(LiveStop),
}

impl From<LiveStop> for Halt {
    fn from(stop: LiveStop) -> Halt {
        Halt::Stop(stop)
    }
}

impl From<LiveError> for Halt {
    fn from(error: LiveError) -> Halt {
        Halt::Journal(error)
    }
}

impl From<AllocError> for Halt {
    fn from(_error: AllocError) -> Halt {
        Halt::Stop(LiveStop::Memory)
    }
}

impl From<ReplaceError> for Halt {
    fn from(error: ReplaceError) -> Halt {
        Halt::Journal(LiveError::from(JournalError::from(error)))
    }
}

impl From<FolderFault> for Halt {
    fn from(fault: FolderFault) -> Halt {
        Halt::Stop(LiveStop::from(fault))
    }
}

// Where a run stands, beside its journal.
struct Following<'s, 'r, R, I> {
    rt: &'r R,
    settings: &'s Settings<'s>,
    folder: LiveFolder<'r, R>,
    health: String,
    inflow: I,
    name: Option<RunName>,
    // What is handed out next, and where the inflow stands behind it.
    out: Vec<u8>,
    position: Vec<u8>,
    counts: Counts,
    lines: u64,
    handed: u64,
    // How many lines the sink has that is furthest behind, if one told.
    taken: Option<u64>,
    // The lines that are cut, and when the journal is cut.
    front: Front,
    cuts: Cuts,
    synced: u64,
    // Whether it was told that what monitors read can't be written.
    is_unwell: bool,
    // When a line came, and when it looks and renews next.
    came: Option<Instant>,
    look: Option<Instant>,
    renew: Option<Instant>,
    // When it waits for sinks again.
    wait: Option<Instant>,
}

// It is let go in one call, however many parts it has.
impl<R: Drop, I: Drop> Drop for Following<'_, '_, R, I> {
    fn drop(self) {
        let Following {
            rt: _,
            settings: _,
            folder: _,
            health: _,
            inflow: _,
            name: _,
            out: _,
            position: _,
            counts: _,
            lines: _,
            handed: _,
            taken: _,
            front: _,
            cuts: _,
            synced: _,
            is_unwell: _,
            came: _,
            look: _,
            renew: _,
            wait: _,
        } = self;
    }
}

/// Follows a log: hands out on standard output what its lines come to, each with its number, as long as nothing stops it.
///
/// # Errors
///
/// What stops it.
pub fn follow<'a, R, T>(
    rt: &'a R,
    settings: &'a Settings<'a>,
    run: LiveRun<T>,
) -> Result<(), LiveStop>
where
    R: Files<File = File> + AllocGlobal + Print + Eprint + Clock + Clone + Drop,
    T: LineTaker + Measured,
{
    let Some(place) = LogPlace::of(settings.log) else {
        return Err(LiveStop::NoLog);
    };
    let folder = LiveFolder::hold(rt, settings.dir)?;
    let mut log = LogFolder::new(rt, place.folder, place.name, settings.patience)?;
    let begin = begin_text(rt, &folder, place, &mut log)?;
    follow_from(rt, settings, place, folder, log, &begin, run)
}

// Follows a log, where a journal that isn't there is begun at a position.
fn follow_from<'a, R, T>(
    rt: &'a R,
    settings: &'a Settings<'a>,
    place: LogPlace<'a>,
    folder: LiveFolder<'a, R>,
    log: LogFolder<'a, R>,
    begin: &[u8],
    run: LiveRun<T>,
) -> Result<(), LiveStop>
where
    R: Files<File = File> + AllocGlobal + Print + Eprint + Clock + Clone + Drop,
    T: LineTaker + Measured,
{
    let mut out = Vec::new(rt.alloc());
    let live = opened_in(rt, settings, &folder, begin, run, &mut out)?;
    follow_behind(rt, settings, place, folder, log, live, out)
}

// Follows a log from where its journal stands.
fn follow_behind<'a, R, T>(
    rt: &'a R,
    settings: &'a Settings<'a>,
    place: LogPlace<'a>,
    folder: LiveFolder<'a, R>,
    log: LogFolder<'a, R>,
    live: Live<JournalFiles<'a, R>, T>,
    out: Vec<u8>,
) -> Result<(), LiveStop>
where
    R: Files<File = File> + AllocGlobal + Print + Eprint + Clock + Clone + Drop,
    T: LineTaker + Measured,
{
    let mut log = log;
    let follower = follower_at(rt, place, &mut log, live.position(), settings.longest)?;
    let inflow = LogInflow {
        rt,
        settings,
        place,
        log,
        follower,
    };
    run_over(rt, settings, folder, inflow, live, out)
}

/// Takes the lines that a source writes, with where it stands behind them, and hands out what they come to as [`follow`] does, until
/// the source has ended.
///
/// # Errors
///
/// What stops it.
pub fn feed<R, I, T>(
    rt: &R,
    settings: &Settings<'_>,
    input: I,
    run: LiveRun<T>,
) -> Result<(), LiveStop>
where
    R: Files<File = File> + AllocGlobal + Print + Eprint + Clock + Clone + Drop,
    I: Read + Drop,
    T: LineTaker + Measured,
{
    let folder = LiveFolder::hold(rt, settings.dir)?;
    let mut out = Vec::new(rt.alloc());
    let live = opened_in(rt, settings, &folder, b"", run, &mut out)?;
    let inflow = FedInflow::new(rt.alloc(), input, live.position(), settings.longest)?;
    run_over(rt, settings, folder, inflow, live, out)
}

// The run of a folder, behind all lines of its journal. What is handed out for them is added.
fn opened_in<'r, R, T>(
    rt: &'r R,
    settings: &Settings<'_>,
    folder: &LiveFolder<'r, R>,
    begin: &[u8],
    run: LiveRun<T>,
    out: &mut Vec<u8>,
) -> Result<Live<JournalFiles<'r, R>, T>, LiveStop>
where
    R: Files<File = File> + AllocGlobal + Clone + Drop,
    T: LineTaker,
{
    let files = folder.journal()?;
    opened(rt, settings.sum, files, begin, run, out)
}

// Hands out what the journal has, which is this, and goes on with an inflow.
fn run_over<'s, 'r, R, I, T>(
    rt: &'r R,
    settings: &'s Settings<'s>,
    folder: LiveFolder<'r, R>,
    inflow: I,
    live: Live<JournalFiles<'r, R>, T>,
    out: Vec<u8>,
) -> Result<(), LiveStop>
where
    R: Files<File = File> + AllocGlobal + Print + Eprint + Clock + Clone + Drop,
    I: Inflow,
    T: LineTaker + Measured,
{
    let mut live = live;
    let ended = run_with(rt, settings, folder, inflow, &mut live, out);
    let files = live.into_folder();
    ended_by(ended, files.fault())
}

// The same, but for why the journal's files failed.
fn run_with<'s, 'r, R, I, T>(
    rt: &'r R,
    settings: &'s Settings<'s>,
    folder: LiveFolder<'r, R>,
    inflow: I,
    live: &mut Live<JournalFiles<'r, R>, T>,
    out: Vec<u8>,
) -> Result<(), Halt>
where
    R: Files<File = File> + AllocGlobal + Print + Eprint + Clock + Clone + Drop,
    I: Inflow,
    T: LineTaker + Measured,
{
    let mut following = Following::new(rt, settings, folder, inflow, out)?;
    following.run(live)
}

// How a run ends, whose journal's files know so much of why.
fn ended_by(ended: Result<(), Halt>, fault: Option<FileFault>) -> Result<(), LiveStop> {
    match ended {
        Ok(()) => Ok(()),
        Err(Halt::Stop(stop)) => Err(stop),
        Err(Halt::Journal(error)) => Err(stop_of(error, fault)),
    }
}

impl<'s, 'r, R, I> Following<'s, 'r, R, I>
where
    R: Files<File = File> + AllocGlobal + Print + Eprint + Clock + Clone + Drop,
    I: Inflow,
{
    // Before the first turn, where this is to be handed out.
    fn new(
        rt: &'r R,
        settings: &'s Settings<'s>,
        folder: LiveFolder<'r, R>,
        inflow: I,
        out: Vec<u8>,
    ) -> Result<Following<'s, 'r, R, I>, AllocError> {
        let health = match settings.health {
            Some(file) => String::from_str(rt.alloc(), file)?,
            None => folder.path_of("health")?,
        };
        Ok(Following {
            rt,
            settings,
            folder,
            health,
            inflow,
            name: None,
            out,
            position: Vec::new(rt.alloc()),
            counts: Counts::new(rt.alloc()),
            lines: 0,
            handed: 0,
            taken: None,
            front: Front { count: 0, sum: 0 },
            cuts: Cuts::new(settings.cut, 0, None),
            synced: 0,
            is_unwell: false,
            came: None,
            look: None,
            renew: None,
            wait: None,
        })
    }

    // Hands out what the journal has, and then goes on with what comes in, up to its end.
    fn run<T: LineTaker + Measured>(
        &mut self,
        live: &mut Live<JournalFiles<'r, R>, T>,
    ) -> Result<(), Halt> {
        let name = str::from_utf8(live.name()).unwrap_or("");
        self.begin(name, live.front(), live.run().count())?;
        for _ in 0..u64::MAX {
            match self.inflow.turn()? {
                Came::Lines => self.take(live)?,
                Came::More => {}
                Came::Nothing => thread::sleep(self.rt, Duration::from_millis(PAUSE)),
                Came::End => {
                    self.look = None;
                    self.renew = None;
                    return self.look_round(live);
                }
            }
            self.look_round(live)?;
        }
        Ok(())
    }

    // Hands out the run's name and how many lines are cut, and all that the journal has behind them, where it is what sinks told.
    fn begin(&mut self, name: &str, front: Front, count: u64) -> Result<(), LiveStop> {
        self.name = RunName::of(name);
        self.front = front;
        self.handed = count;
        self.look_at_first()?;
        self.put_first(name)?;
        self.synced = seconds(self.rt);
        let size = self.folder.journal_size()?;
        self.cuts = Cuts::new(self.settings.cut, size, Instant::now(self.rt).ok());
        self.hand_out(count)
    }

    // Looks at what sinks told, before all that the journal has is handed out.
    fn look_at_first(&mut self) -> Result<(), LiveStop> {
        let all = self.folder.taken()?;
        self.taken = least_taken(self.rt.alloc(), &all, self.handed_with(Some(&self.out)))?;
        Ok(())
    }

    // Hands out the run's name and how many lines are cut.
    fn put_first(&self, name: &str) -> Result<(), LiveStop> {
        let (sum, cut) = (self.settings.sum, self.front.count);
        let first = format!(in self.rt.alloc(); "live,{name},{sum},{cut}\n")?;
        put(self.rt, first.as_bytes())
    }

    // What was handed out, with the lines, where they are there.
    fn handed_with<'h>(&self, lines: Option<&'h [u8]>) -> Handed<'h> {
        Handed {
            name: self.name,
            count: self.handed,
            front: self.front,
            lines,
        }
    }

    // Hands out what is to be, behind which so many lines were handed out in all.
    fn hand_out(&mut self, count: u64) -> Result<(), LiveStop> {
        put(self.rt, &self.out)?;
        count_rows(&self.out, &mut self.counts)?;
        self.handed = count;
        self.out.clear();
        Ok(())
    }

    // Takes the lines that were read: they are in the journal before they are taken.
    fn take<T: LineTaker>(&mut self, live: &mut Live<JournalFiles<'r, R>, T>) -> Result<(), Halt> {
        self.position.clear();
        self.inflow.write_position(&mut self.position)?;
        if !is_position(&self.position) {
            return Err(Halt::Stop(LiveStop::NoPosition));
        }
        let count = live.append(self.inflow.lines(), &self.position, &mut self.out)?;
        self.lines = self.lines.saturating_add(count as u64);
        self.synced = seconds(self.rt);
        self.came = Instant::now(self.rt).ok();
        Ok(self.hand_out(live.run().count())?)
    }

    // Looks at what sinks told, cuts the journal, and renews what monitors read, where it is time.
    fn look_round<T: LineTaker + Measured>(
        &mut self,
        live: &mut Live<JournalFiles<'r, R>, T>,
    ) -> Result<(), Halt> {
        let Ok(now) = Instant::now(self.rt) else {
            return Ok(());
        };
        if is_due(self.look, now) {
            self.look_at_sinks()?;
            self.cut_in_time(live, now)?;
            self.look = time_after(self.rt, LOOK);
        }
        if is_due(self.renew, now) {
            self.renew(live.run().taker(), now)?;
            self.renew = now.checked_add(Duration::from_secs(RENEW));
        }
        Ok(())
    }

    fn look_at_sinks(&mut self) -> Result<(), LiveStop> {
        let all = self.folder.taken()?;
        self.taken = least_taken(self.rt.alloc(), &all, self.handed_with(None))?;
        Ok(())
    }

    // Cuts the journal where it is time, and sinks have all lines.
    fn cut_in_time<T: LineTaker>(
        &mut self,
        live: &mut Live<JournalFiles<'r, R>, T>,
        now: Instant,
    ) -> Result<(), Halt> {
        let size = self.folder.journal_size()?;
        if self.cuts.is_due(size, now) && self.have_all(now)? {
            self.cut(live, size)?;
        }
        Ok(())
    }

    // Whether all sinks that told have all lines. It waits a little where they don't yet: meanwhile nothing is read of the log.
    fn have_all(&mut self, now: Instant) -> Result<bool, LiveStop> {
        if self.taken == Some(self.handed) {
            return Ok(true);
        }
        if self.taken.is_none() || !is_due(self.wait, now) {
            return Ok(false);
        }
        for _ in 0..WAITS {
            thread::sleep(self.rt, Duration::from_millis(WAIT));
            self.look_at_sinks()?;
            if self.taken == Some(self.handed) {
                return Ok(true);
            }
        }
        self.wait = time_after(self.rt, REST);
        Ok(false)
    }

    // Cuts the journal, which has so many bytes. Where it can't be written, it goes on as it was.
    fn cut<T: LineTaker>(
        &mut self,
        live: &mut Live<JournalFiles<'r, R>, T>,
        size: u64,
    ) -> Result<(), Halt> {
        let outcome = live.cut(self.rt.alloc());
        let now = Instant::now(self.rt).ok();
        match outcome {
            Ok(true) => {
                self.front = Front {
                    count: live.run().count(),
                    sum: live.run().sum(),
                };
                let size = self.folder.journal_size()?;
                self.cuts.cut(size, now, seconds(self.rt));
            }
            Ok(false) => self.cuts.put_off(size, now),
            Err(ReplaceError::Kept(_)) => self.fail_to_cut(now),
            Err(error) => return Err(Halt::from(error)),
        }
        Ok(())
    }

    // Tells that the journal can't be cut, unless it was told.
    fn fail_to_cut(&mut self, now: Option<Instant>) {
        if self.cuts.fail(now) {
            let _ = eprintln!(self.rt;
                "wsm: DIR/journal can't be cut, as where its disk is full: goes on with it as it is, and tries again each hour"
            );
        }
    }

    // Renews what monitors read. Where it can't be written that is told once, and the run goes on.
    fn renew<T: Measured>(&mut self, taker: &T, now: Instant) -> Result<(), LiveStop> {
        match self.renew_health(taker, now) {
            Ok(()) => self.is_unwell = false,
            Err(LiveStop::File(fault)) => self.tell_unwell(fault),
            Err(stop) => return Err(stop),
        }
        Ok(())
    }

    // Tells why what monitors read can't be written, unless it was told.
    fn tell_unwell(&mut self, fault: FileFault) {
        if !self.is_unwell {
            let _ = eprintln!(self.rt; "wsm: {fault}");
            self.is_unwell = true;
        }
    }

    fn renew_health<T: Measured>(&mut self, taker: &T, now: Instant) -> Result<(), LiveStop> {
        let health = Health {
            lines: self.lines,
            handed: self.handed,
            untaken: self.handed.saturating_sub(self.taken.unwrap_or(0)),
            behind: self.inflow.behind()?,
            quiet: seconds_since(self.came, now),
            journal: self.folder.journal_size()?,
            synced: self.synced,
            cut: self.cuts.last,
            now: seconds(self.rt),
        };
        let text = health.text(self.rt.alloc(), taker, &self.counts)?;
        Ok(put_health(self.rt, self.health.as_str(), &text)?)
    }
}

// Whether a time has come.
fn is_due(time: Option<Instant>, now: Instant) -> bool {
    match time {
        Some(time) => time <= now,
        None => true,
    }
}

// The time in so many seconds.
fn time_after<R: Clock>(rt: &R, seconds: u64) -> Option<Instant> {
    let now = Instant::now(rt).ok()?;
    now.checked_add(Duration::from_secs(seconds))
}

// The seconds since 1970.
fn seconds<R: Clock>(rt: &R) -> u64 {
    let Ok(now) = SystemTime::now(rt) else {
        return 0;
    };
    match now.duration_since(UNIX_EPOCH) {
        Ok(since) => since.as_secs(),
        Err(_) => 0,
    }
}

// Writes bytes to standard output, and has them leave.
fn put<R: Print>(rt: &R, bytes: &[u8]) -> Result<(), LiveStop> {
    let mut out = io::writer(rt);
    if out.write_all(bytes).is_err() || out.flush().is_err() {
        return Err(LiveStop::Out);
    }
    Ok(())
}
