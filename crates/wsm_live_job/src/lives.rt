//! Live runs, by the words of the program.

use crate::live_settings::{Going, Over};
use std::alloc::{AllocError, Global};
use std::fs::File;
use std::io::{self, Eprint, Write};
use std::rt::Files;
use std::time::Clock;
use wsm_bytecode::encode;
use wsm_explain::live_sum;
use wsm_inputs::{Input as Judged, accepted_of};
use wsm_job::{Stop, WordsFault, input_of, read};
use wsm_key_names::KeyNames;
use wsm_keyed_run::checked_by_places;
use wsm_live_loop::{LiveStop, position_of};
use wsm_live_run::{keyed_live_run, live_run};
use wsm_rules::Verified;
use wsm_source_file::{Bound, SourceFile, file_of_names, most_of, names_in};
use wsm_words::{LiveJob, Named};

// What a run is made of, before anything is touched.
struct Ready {
    verified: Verified,
    bound: Bound,
}

// It is let go in one call, however many parts it has.
impl Drop for Ready {
    fn drop(self) {
        let Ready {
            verified: _,
            bound: _,
        } = self;
    }
}

// The names of a file with its text, and how many there may be.
struct Names {
    names: KeyNames,
    text: Vec<u8>,
    most: u32,
}

impl Drop for Names {
    fn drop(self) {
        let Names {
            names: _,
            text: _,
            most: _,
        } = self;
    }
}

/// Follows a log, or takes what a source writes on standard input, and hands out lines with their numbers, as long as nothing stops
/// it; or tells the position up to which its folder has all.
pub fn live<R: Files<File = File> + AllocGlobal + Input + Print + Eprint + Clock + Clone + Drop>(
    rt: &R,
    job: &LiveJob,
) -> Result<bool, Stop> {
    if job.position {
        return tell_position(rt, job);
    }
    let over = Over::of(job)?;
    let going = Going::of(job, over)?;
    let source = SourceFile::of(rt, over.from);
    match file_of_names(rt, &job.keys, Some(&source))? {
        Some(names) => live_named(rt, job, over, &source, going, &names),
        None => live_declared(rt, job, over, &source, going),
    }
}

// Runs a query or a program that declares its keys.
fn live_declared<
    R: Files<File = File> + AllocGlobal + Input + Print + Eprint + Clock + Clone + Drop,
>(
    rt: &R,
    job: &LiveJob,
    over: Over<'_>,
    source: &SourceFile<'_>,
    going: Going<'_>,
) -> Result<bool, Stop> {
    let bytes = read(rt, over.query)?;
    let input = input_of(job.program, &bytes);
    let verified = accepted_of(rt.alloc(), input)?;
    let ready = Ready::of(rt, source, verified)?;
    let sum = sum_of(rt, source, input, over)?;
    ready.run(rt, going, sum)
}

// The sum of what is run over a source's lines, and of all that says how these are read.
fn sum_of<R: Files + AllocGlobal>(
    rt: &R,
    source: &SourceFile<'_>,
    input: Judged<'_>,
    over: Over<'_>,
) -> Result<u32, Stop> {
    let told = source.told(rt)?;
    Ok(live_sum(rt.alloc(), input, &told, over.is_fed())?)
}

// Runs a query without a KEYS clause by the names of a file.
fn live_named<R: Files<File = File> + AllocGlobal + Input + Print + Eprint + Clock + Clone + Drop>(
    rt: &R,
    job: &LiveJob,
    over: Over<'_>,
    source: &SourceFile<'_>,
    going: Going<'_>,
    names: &String,
) -> Result<bool, Stop> {
    if job.program {
        return Err(Stop::Words(WordsFault::NotNamed));
    }
    let most = most_of(&job.keys)?;
    let query = read(rt, over.query)?;
    let names = Names::of(rt, names, most)?;
    let verified = checked_by_places(rt.alloc(), &query)?;
    let ready = Ready::of(rt, source, verified)?;
    let sum = sum_of_named(rt, source, &ready.verified, over, &names)?;
    names.run(rt, ready, going, sum)
}

// The sum of what is run by names over a source's lines, of all that says how these are read, and of which keys there are.
fn sum_of_named<R: Files + AllocGlobal>(
    rt: &R,
    source: &SourceFile<'_>,
    verified: &Verified,
    over: Over<'_>,
    names: &Names,
) -> Result<u32, Stop> {
    let program = encode(rt.alloc(), verified.program())?;
    let mut told = source.told(rt)?;
    names.add_to(rt.alloc(), &mut told)?;
    Ok(live_sum(rt.alloc(), Judged::Program(&program), &told, over.is_fed())?)
}

impl Names {
    ghost use Rattle.wsm_turns.specs.Clocks.{AreClocks};

    // The names of a file, of which there may be so many.
    fn of<R: Files + AllocGlobal>(rt: &R, file: &String, most: u32) -> Result<Names, Stop> {
        let text = read(rt, file)?;
        let names = names_in(rt.alloc(), &text, most)?;
        Ok(Names { names, text, most })
    }

    // Adds to the bytes of a source what says which keys there are: the names of the file, and how many there may be.
    fn add_to(&self, alloc: Global, source: &mut Vec<u8>) -> Result<(), AllocError> {
        let most = self.most;
        let front = format!(in alloc; "keys,{most}\n")?;
        source.extend_from_slice(front.as_bytes())?;
        source.extend_from_slice(&self.text)
    }

    // Follows the log, or takes what comes on standard input, by the names.
    fn run<R: Files<File = File> + AllocGlobal + Input + Print + Eprint + Clock + Clone + Drop>(
        self,
        rt: &R,
        ready: Ready,
        going: Going<'_>,
        sum: u32,
    ) -> Result<bool, Stop>
        requires { AreClocks ready.bound.clocks }
    {
        let Names {
            names,
            text: _,
            most,
        } = self;
        ready.run_named(rt, going, sum, names, most)
    }
}

impl Ready {
    ghost use Rattle.std.specs.Prelude.{IfOk};
    ghost use Rattle.wsm_turns.specs.Clocks.{AreClocks};

    // An accepted program, and how the lines of a source are read for it.
    fn of<R: Files + AllocGlobal>(
        rt: &R,
        source: &SourceFile<'_>,
        verified: Verified,
    ) -> Result<Ready, Stop>
        ensures { IfOk result (λ ready. AreClocks ready.bound.clocks) }
    {
        let bound = source.bound(rt, &verified)?;
        Ok(Ready { verified, bound })
    }

    // Follows the log, or takes what comes on standard input.
    fn run<R: Files<File = File> + AllocGlobal + Input + Print + Eprint + Clock + Clone + Drop>(
        self,
        rt: &R,
        going: Going<'_>,
        sum: u32,
    ) -> Result<bool, Stop>
        requires { AreClocks self.bound.clocks }
    {
        let Ready { verified, bound } = self;
        let Bound { source, clocks } = bound;
        let longest = source.longest;
        let run = live_run(rt.alloc(), verified, source, clocks)?;
        going.run(rt, sum, longest, run)
    }

    // The same by these names, of which there may be so many.
    fn run_named<
        R: Files<File = File> + AllocGlobal + Input + Print + Eprint + Clock + Clone + Drop,
    >(self, rt: &R, going: Going<'_>, sum: u32, names: KeyNames, most: u32) -> Result<bool, Stop>
        requires { AreClocks self.bound.clocks }
    {
        let Ready { verified, bound } = self;
        let Bound { source, clocks } = bound;
        let longest = source.longest;
        let run = keyed_live_run(rt.alloc(), verified, source, clocks, names, most)?;
        going.run(rt, sum, longest, run)
    }
}

// Writes the last position of the folder.
fn tell_position<R: Files<File = File> + AllocGlobal + Print>(
    rt: &R,
    job: &LiveJob,
) -> Result<bool, Stop> {
    if !is_alone(job) {
        return Err(Stop::Words(WordsFault::NoLive));
    }
    let mut position = position_of(rt, job.dir.as_str())?;
    position.push(b'\n')?;
    match put(rt, &position) {
        Ok(()) => Ok(true),
        Err(_) => Err(Stop::Live(LiveStop::Out)),
    }
}

// Writes bytes to standard output, and has them leave.
fn put<R: Print>(rt: &R, bytes: &[u8]) -> io::Result<()> {
    let mut out = io::writer(rt);
    out.write_all(bytes)?;
    out.flush()
}

// Whether the words name nothing but the folder.
fn is_alone(job: &LiveJob) -> bool {
    !job.program && !names_run(job) && !tells_how(job) && !names_keys(&job.keys)
}

fn names_run(job: &LiveJob) -> bool {
    job.from.is_some() || job.query.is_some() || job.log.is_some()
}

fn tells_how(job: &LiveJob) -> bool {
    job.lost.is_some() || job.health.is_some() || job.patience.is_some() || job.cut.is_some()
}

fn names_keys(keys: &Named) -> bool {
    keys.file.is_some() || keys.takes_new || keys.most.is_some()
}
