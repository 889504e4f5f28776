//! Runs over any number of keys.

ghost use Rattle.std.specs.Prelude.{ℕ, List, Option, IfOk};
ghost use Rattle.wsm_keyed_run.specs.Written.{KeyedOver};

use crate::keyed_logs::run_log;
use std::fs::File;
use std::io::{self, Eprint, Read};
use std::rt::Files;
use std::time::Clock;
use wsm::{End, Guarded};
use wsm_job::{Counting, Ran, Stop, WordsFault, end_of, read, write_run};
use wsm_key_names::KeyNames;
use wsm_keyed_run::run_keyed_over;
use wsm_source_file::{SourceFile, most_of, names_in};
use wsm_words::RunJob;

/// Runs a query without a KEYS clause over rows, or over a log by a source, by the names of a file, tells how many names were new, and
/// writes what was counted where that is asked for.
pub fn run_named<R: Files<File = File> + AllocGlobal + Input + Print + Eprint + Clock>(
    rt: &R,
    job: &RunJob,
    names: &String,
    source: Option<&SourceFile<'_>>,
    is_looked_at: bool,
) -> Result<bool, Stop> {
    if job.program {
        return Err(Stop::Words(WordsFault::NotNamed));
    }
    let most = most_of(&job.keys)?;
    let query = read(rt, &job.query)?;
    let text = read(rt, names)?;
    let names = names_in(rt.alloc(), &text, most)?;
    let of_file = names.len();
    let (count, ran) = match source {
        None => run_rows(rt, job, &query, names, most)?,
        Some(source) => run_log(rt, job, source, &query, names, most, is_looked_at)?,
    };
    tell_new(rt, count.saturating_sub(of_file));
    write_run(rt, job.metrics.as_ref(), &ran)?;
    Ok(true)
}

// Runs the query over a file of rows, or over standard input. Answers how many names there are then.
fn run_rows<R: Files + AllocGlobal + Input + Print>(
    rt: &R,
    job: &RunJob,
    query: &[u8],
    names: KeyNames,
    most: u32,
) -> Result<(usize, Ran), Stop> {
    match &job.rows {
        None => write_run_over(rt, job, query, names, most, rt.reader()),
        Some(rows) => match File::open(rt, rows.as_str()) {
            Ok(rows) => write_run_over(rt, job, query, names, most, rows),
            Err(error) => Err(Stop::End(end_of(&error, End::ReadFailed))),
        },
    }
}

// Hands the reader of the rows on, and counts what is written where that is asked for. Where a run ends well, the numbers that are told
// are those of all rows that the reader has.
fn write_run_over<R: AllocGlobal + Print, I: Read + Drop>(
    rt: &R,
    job: &RunJob,
    query: &[u8],
    names: KeyNames,
    most: u32,
    rows: I,
) -> Result<(usize, Ran), Stop>
    ensures { IfOk result (λ both. (old : Option (List ℕ)) × (new : Option (List ℕ)) ×
        KeyedOver query.now names most (I.remaining rows) old new both.1.totals) }
{
    let alloc = rt.alloc();
    let writer = Counting::new(alloc, io::writer(rt), job.metrics.is_some());
    let mut output = Guarded::new(writer);
    let run = run_keyed_over(alloc, query, names, most, rows, &mut output)?;
    let ran = Ran {
        totals: run.totals,
        counts: None,
        lines: output.into_writer().into_lines()?,
    };
    Ok((run.names, ran))
}

// Tells how many names came that the file hasn't.
fn tell_new<R: Eprint>(rt: &R, count: usize) {
    if count > 0 {
        let _ = eprintln!(rt; "wsm: new keys: {count}");
    }
}
