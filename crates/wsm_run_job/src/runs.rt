//! `wsm run`: by the keys that a query declares or by any number of names, over rows or over a log.

ghost use Rattle.std.specs.Prelude.{ℕ, List, Option, IfOk};
ghost use Rattle.wsm_inputs.specs.Inputs.{Means};
ghost use Rattle.wsm.specs.Written.{InputWritten, RowsWritten};

use crate::keyed::run_named;
use crate::logs::run_from;
use std::fs::File;
use std::io::{self, Eprint, Read};
use std::rt::Files;
use std::time::Clock;
use wsm::{End, Guarded, Input as Judged, run_over};
use wsm_job::{Counting, Ran, Stop, accepted, end_of, input_of, read, write_run};
use wsm_source_file::{SourceFile, file_of_names};
use wsm_words::RunJob;

/// Runs a query or a program over rows, or over a log by a source, and writes what was counted where that is asked for.
pub fn run<R: Files<File = File> + AllocGlobal + Input + Print + Eprint + Clock>(
    rt: &R,
    job: &RunJob,
    is_looked_at: bool,
) -> Result<bool, Stop> {
    let source = match &job.from {
        Some(name) => Some(SourceFile::of(rt, name)),
        None => None,
    };
    match file_of_names(rt, &job.keys, source.as_ref())? {
        Some(names) => run_named(rt, job, &names, source.as_ref(), is_looked_at),
        None => run_declared(rt, job, source.as_ref(), is_looked_at),
    }
}

// Runs a query or a program that declares its keys.
fn run_declared<R: Files<File = File> + AllocGlobal + Input + Print + Eprint + Clock>(
    rt: &R,
    job: &RunJob,
    source: Option<&SourceFile<'_>>,
    is_looked_at: bool,
) -> Result<bool, Stop> {
    let ran = match source {
        None => run_rows(rt, job)?,
        Some(source) => {
            let verified = accepted(rt, job.program, &job.query)?;
            run_from(rt, verified, source, job, is_looked_at)?
        }
    };
    write_run(rt, job.metrics.as_ref(), &ran)?;
    Ok(true)
}

// Runs a query or a program over a file of rows, or over standard input.
fn run_rows<R: Files + AllocGlobal + Input + Print>(rt: &R, job: &RunJob) -> Result<Ran, End> {
    let query = read(rt, &job.query)?;
    let input = input_of(job.program, &query);
    let is_counted = job.metrics.is_some();
    match &job.rows {
        None => write_run_over(rt, input, is_counted, rt.reader()),
        Some(rows) => match File::open(rt, rows.as_str()) {
            Ok(rows) => write_run_over(rt, input, is_counted, rows),
            Err(error) => Err(end_of(&error, End::ReadFailed)),
        },
    }
}

// Hands the reader of the rows on, and counts what is written where that is asked for. Where a run ends well, the numbers that are
// told are those of all rows that the reader has.
fn write_run_over<R: AllocGlobal + Print, I: Read + Drop>(
    rt: &R,
    input: Judged<'_>,
    is_counted: bool,
    rows: I,
) -> Result<Ran, End>
    ensures text { IfOk result (λ ran. (old : Option (List ℕ)) × (new : Option (List ℕ)) ×
        InputWritten input.entry (I.remaining rows) old new ran.totals) }
    ensures means { (m : _) → Means input.entry m → IfOk result (λ ran. (old : Option (List ℕ)) × (new : Option (List ℕ)) ×
        RowsWritten (I.remaining rows) old new m ran.totals) }
{
    let alloc = rt.alloc();
    let writer = Counting::new(alloc, io::writer(rt), is_counted);
    let mut output = Guarded::new(writer);
    let totals = run_over(alloc, input, rows, &mut output)?;
    Ok(Ran {
        totals,
        counts: None,
        lines: output.into_writer().into_lines()?,
    })
}
