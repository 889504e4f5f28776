//! What is told of a live run, and how one begins behind lines that are cut.

ghost use Rattle.std.specs.Prelude.{ℕ};

use crate::begin::{LogPlace, begin_text, opened};
use crate::follow;
use crate::health::Health;
use crate::numbered::count_rows;
use crate::settings::Settings;
use crate::stop::{LiveStop, SinkFault};
use std::alloc::{AllocError, Global};
use std::fs::{self, File};
use std::io::Eprint;
use std::rt::Files;
use std::test::Fail;
use std::time::{Clock, Duration};
use wsm_follow::LogFolder;
use wsm_journal::is_position;
use wsm_live::{LineTaker, LiveRun};
use wsm_live_files::LiveFolder;
use wsm_metrics::{Measured, Metric};
use wsm_row_counts::Counts;

const LINES: &[u8] = b"1,2178106104,pane,on_time,a,0,60,2,10\n2,77,refused,7,BadTag\n";

#[test]
fn tells_health(rt: HostRuntime) -> Result<(), Fail> {
    let mut counts = Counts::new(rt.alloc());
    count_rows(LINES, &mut counts)?;
    let health = Health {
        lines: 5,
        handed: 2,
        untaken: 1,
        behind: 0,
        quiet: 3,
        journal: 300,
        synced: 1790002800,
        cut: 1790002700,
        now: 1790002803,
    };
    let text = health.text(rt.alloc(), &same_of(rt.alloc()), &counts)?;
    let told = str::from_utf8(&text).unwrap_or("");
    assert!(rt; told.contains("wsm_live_cut_seconds 1790002700\n"));
    assert!(rt; told.contains("wsm_live_watermark 60\n"));
    assert!(rt;
        text.as_slice()
            .ends_with(b"wsm_live_rows_total{word=\"pane\"} 1\n\
          wsm_live_rows_total{word=\"refused\"} 1\n\
          # HELP wsm_live_refused_total Rows that were refused, by why.\n\
          # TYPE wsm_live_refused_total counter\n\
          wsm_live_refused_total{word=\"BadTag\"} 1\n"
                .as_slice())
    );
    Ok(())
}

// Writes each line as it is, and says nothing of those that came.
#[derive(Drop)]
struct Same {
    written: Vec<u8>,
}

impl LineTaker for Same {
    ghost use Rattle.std.specs.Prelude.{ℕ, true};

    ghost By = { ℕ };

    ghost turn = { λ _ _ line. line };

    ghost stands = { λ _ _ _. ⊥ };

    ghost written = { λ c. c.written.items };

    ghost states = { λ _ _ _. ⊥ };

    ghost can_say = { λ _ _ _. true };

    fn take(&mut self, line: &[u8]) -> Result<(), AllocError> {
        self.written.clear();
        self.written.extend_from_slice(line)?;
        Ok(self.written.push(b'\n')?)
    }

    fn written(&self) -> &[u8] {
        &self.written
    }

    fn save(&mut self, _text: &mut Vec<u8>) -> Result<bool, AllocError> {
        Ok(true)
    }

    fn resume(self, _text: &[u8]) -> Result<Option<Self>, AllocError> {
        Ok(Some(self))
    }
}

impl Measured for Same {
    fn measure(&self, metrics: &mut Vec<Metric<'static>>) -> Result<(), AllocError> {
        Ok(metrics.push(Metric::gauge("wsm_live_watermark", "The watermark.", 60))?)
    }
}

// It, before the first line.
fn same_of(alloc: Global) -> Same {
    Same {
        written: Vec::new(alloc),
    }
}

// A run of which no line was taken.
fn run_of(alloc: Global) -> LiveRun<Same> {
    LiveRun::new(alloc, same_of(alloc), 100)
}

// What a run over a log beside a folder is given.
fn settings_of<'s>(dir: &'s str, log: &'s str) -> Settings<'s> {
    Settings {
        dir,
        log,
        health: None,
        patience: Duration::from_secs(0),
        goes_on: false,
        sum: 7,
        longest: 100,
        cut: 1,
    }
}

// Makes a folder whose journal stands for two lines that are cut, and has one more; answers its name.
fn make_cut<R: Files<File = File> + AllocGlobal + Print + Eprint + Clock + Clone + Drop>(
    rt: &R,
    settings: &Settings<'_>,
) -> Result<String, Fail> {
    fs::write(rt, settings.log, "a\nb\nc\n")?;
    let Some(place) = LogPlace::of(settings.log) else {
        return Err(Fail::from("no place"));
    };
    let Ok(folder) = LiveFolder::hold(rt, settings.dir) else {
        return Err(Fail::from("not held"));
    };
    let Ok(mut log) = LogFolder::new(rt, place.folder, place.name, settings.patience) else {
        return Err(Fail::from("no log"));
    };
    let Ok(begin) = begin_text(rt, &folder, place, &mut log) else {
        return Err(Fail::from("no beginning"));
    };
    if !is_position(&begin) {
        return Err(Fail::from("no position"));
    }
    let mut out = Vec::new(rt.alloc());
    let files = folder.journal()?;
    let Ok(mut live) = opened(rt, 7, files, &begin, run_of(rt.alloc()), &mut out) else {
        return Err(Fail::from("not opened"));
    };
    let is_done = live.append(b"a\nb\n", &begin, &mut out).is_ok()
        && live.cut(rt.alloc()) == Ok(true)
        && live.append(b"c\n", &begin, &mut out).is_ok();
    if !is_done {
        return Err(Fail::from("not cut"));
    }
    let name = str::from_utf8(live.name()).unwrap_or("");
    Ok(String::from_str(rt.alloc(), name)?)
}

// How a run ends over such a folder, of which a sink told this, where the log is gone.
fn ended<R: Files<File = File> + AllocGlobal + Print + Eprint + Clock + Clone + Drop>(
    rt: &R,
    told: &str,
) -> Result<LiveStop, Fail> {
    let _ = fs::remove_dir_all(rt, "cut");
    fs::create_dir_all(rt, "cut")?;
    let settings = settings_of("cut/dir", "cut/log");
    let name = make_cut(rt, &settings)?;
    let taken = format!(in rt.alloc(); "{name},{told}\n")?;
    fs::write(rt, "cut/dir/taken", taken.as_bytes())?;
    fs::remove_file(rt, "cut/log")?;
    let outcome = follow(rt, &settings, run_of(rt.alloc()));
    fs::remove_dir_all(rt, "cut")?;
    match outcome {
        Err(stop) => Ok(stop),
        Ok(()) => Err(Fail::from("goes on")),
    }
}

// The fault of a sink by which a run ended, if it did.
fn fault_of(stop: &LiveStop) -> Option<SinkFault> {
    match stop {
        LiveStop::Sink(_, fault) => Some(*fault),
        _ => None,
    }
}

#[test]
fn serves_who_has_all_that_is_cut(rt: HostRuntime) -> Result<(), Fail> {
    assert!(rt; fault_of(&ended(&rt, "2,408365719")?).is_none());
    assert!(rt; fault_of(&ended(&rt, "3,174526169")?).is_none());
    assert!(rt; fault_of(&ended(&rt, "3,408365719")?) == Some(SinkFault::OtherLines));
    assert!(rt; fault_of(&ended(&rt, "2,5")?) == Some(SinkFault::OtherLines));
    assert!(rt; fault_of(&ended(&rt, "4,5")?) == Some(SinkFault::Ahead));
    Ok(())
}

#[test]
fn tells_who_lacks_what_is_cut(rt: HostRuntime) -> Result<(), Fail> {
    let stop = ended(&rt, "1,3723141383")?;
    assert!(rt; fault_of(&stop) == Some(SinkFault::Behind));
    let told = format!(in rt.alloc(); "{stop}")?;
    assert!(rt;
        told.as_str()
            .starts_with("DIR/taken lacks lines that are cut from DIR/journal: ")
    );
    Ok(())
}
