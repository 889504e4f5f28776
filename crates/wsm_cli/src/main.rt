//! The program `wsm`: reads its words, and does the job that they ask for.
//!
//! Its status is 0 where it is done, also after help and the version, and 4 where `verify` or `explain`
//! rejects a program. Each other status has one line on standard error, which begins with the program's name;
//! the words' refusal has `clap`'s own text.
#![tactic(auto)]

mod jobs;

use crate::jobs::done;
use std::alloc::{AllocError, Global};
use std::env;
use std::fs::File;
use std::io::{self, ErrorKind, IsTerminal};
use std::process::ExitCode;
use std::rt::{Env, Files};
use std::time::Clock;
use wsm_inputs::{End, REJECTED_STATUS};
use wsm_job::{REFUSED_WORDS, Stop, WordsFault};
use wsm_words::{Job, WordsRefusal, command_of};

fn main(rt: HostRuntime) -> ExitCode {
    match words_of(&rt) {
        Ok(words) => act(&rt, &words, rt.stderr().is_terminal()),
        Err(error) => stopped(&rt, &unread(&error)),
    }
}

// The program's words, its own name first.
fn words_of<R: Env + AllocGlobal>(rt: &R) -> io::Result<Vec<String>> {
    let words = env::args(rt)?.collect(rt.alloc())?;
    Ok(words)
}

// Why the words aren't there.
fn unread(error: &io::Error) -> Stop {
    match error.kind() {
        ErrorKind::OutOfMemory => Stop::End(End::Memory),
        _ => Stop::Words(WordsFault::NoText),
    }
}

// Does what the words ask for. `is_looked_at` is whether standard error is a terminal.
fn act<R: Files<File = File> + AllocGlobal + Input + Print + Eprint + Clock + Clone + Drop>(
    rt: &R,
    words: &[String],
    is_looked_at: bool,
) -> ExitCode {
    match job_of(rt.alloc(), words) {
        Ok(job) => status(rt, &job, is_looked_at),
        Err(refusal) => refused(rt, &refusal),
    }
}

// The job that the words ask for.
fn job_of(alloc: Global, words: &[String]) -> Result<Job, WordsRefusal> {
    let texts = texts_of(alloc, words)?;
    command_of(alloc, &texts)
}

// The texts of the words.
fn texts_of(alloc: Global, words: &[String]) -> Result<Vec<&str>, AllocError> {
    let mut texts = Vec::with_capacity(alloc, words.len())?;
    for word in words {
        texts.push(word.as_str())?;
    }
    Ok(texts)
}

// Does the job, and gives the status.
fn status<R: Files<File = File> + AllocGlobal + Input + Print + Eprint + Clock + Clone + Drop>(
    rt: &R,
    job: &Job,
    is_looked_at: bool,
) -> ExitCode {
    match done(rt, job, is_looked_at) {
        Ok(true) => ExitCode::SUCCESS,
        Ok(false) => ExitCode::from(REJECTED_STATUS),
        Err(stop) => stopped(rt, &stop),
    }
}

// Prints how the job ended early, and gives the status.
fn stopped<R: Eprint>(rt: &R, stop: &Stop) -> ExitCode {
    let _ = eprintln!(rt; "wsm: {stop}");
    ExitCode::from(stop.status())
}

// Prints why the words ask for nothing, and gives the status.
fn refused<R: Print + Eprint>(rt: &R, refusal: &WordsRefusal) -> ExitCode {
    match refusal {
        WordsRefusal::Memory => stopped(rt, &Stop::End(End::Memory)),
        WordsRefusal::Words(error) => refused_words(rt, error),
    }
}

// Prints the refusal of the words, or the help or the version that they asked for.
fn refused_words<R: Print + Eprint>(rt: &R, error: &clap::Error) -> ExitCode {
    let printed = error.print(rt);
    match error.exit_code() {
        0 if printed.is_err() => stopped(rt, &Stop::End(End::WriteFailed)),
        0 => ExitCode::SUCCESS,
        _ => ExitCode::from(REFUSED_WORDS),
    }
}
