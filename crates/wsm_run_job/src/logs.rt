//! `wsm run --from` by the keys that a query declares, and `wsm rows`.

ghost use Rattle.std.specs.Prelude.{ℕ, List, Option, OnOk};
ghost use Rattle.wsm_log_rows.specs.Rows.{RowsWritten};
ghost use Rattle.wsm_turns.specs.Clocks.{AreClocks};

use crate::progress::Watched;
use std::fs::{self, File};
use std::io::{self, Eprint, Read};
use std::rt::Files;
use std::time::Clock;
use wsm::{End, Guarded};
use wsm_ends::end_of_log;
use wsm_job::{Counting, Ran, Stop, Teller, accepted, end_of};
use wsm_log_rows::write_rows;
use wsm_log_run::run_log;
use wsm_rules::Verified;
use wsm_source_file::{Bound, SourceFile, source_for};
use wsm_words::{RowsJob, RunJob};

// An accepted program, and the source by which the lines of its log are read.
struct Ready {
    verified: Verified,
    bound: Bound,
}

// It is let go in one call, however many parts it has.
impl Drop for Ready {
    fn drop(self) {
        let Ready {
            verified: _,
            bound: _,
        } = self;
    }
}

impl Ready {
    ghost use Rattle.std.specs.Prelude.{ℕ, List, Option, IfOk};
    ghost use Rattle.wsm_inputs.specs.declared.input.Input.{Input as Judged};
    ghost use Rattle.wsm_inputs.specs.Inputs.{IsAccepted, Means};
    ghost use Rattle.wsm_intake.specs.Run.{LogWritten};

    // Hands the reader of a log on, over which the program is run. What is written is counted, where that is asked for. Where it ends
    // well, the numbers that are told are those of all lines that the reader has.
    fn run<R: AllocGlobal + Print + Eprint, I: Read + Drop>(
        self,
        rt: &R,
        log: I,
        is_counted: bool,
    ) -> Result<Ran, End>
        requires { AreClocks self.bound.clocks }
        ensures { (input : Judged) (m : _) → IsAccepted input self.verified → Means input m →
            IfOk result (λ ran. (old : Option (List ℕ)) × (new : Option (List ℕ)) ×
            LogWritten (I.remaining log) self.bound.source self.bound.clocks old new m ran.totals) }
    {
        let Ready { verified, bound } = self;
        let Bound { source, clocks } = bound;
        let writer = Counting::new(rt.alloc(), io::writer(rt), is_counted);
        let mut output = Guarded::new(writer);
        let mut teller = Teller::new(rt);
        let end = run_log(
            rt.alloc(),
            verified,
            source,
            clocks,
            log,
            &mut output,
            &mut teller,
        )?;
        teller.tell(end.counts);
        Ok(Ran {
            totals: end.totals,
            counts: Some(end.counts),
            lines: output.into_writer().into_lines()?,
        })
    }
}

/// Runs an accepted program over a log, whose lines are read by a source, or over standard input.
pub fn run_from<R: Files + AllocGlobal + Input + Print + Eprint + Clock>(
    rt: &R,
    verified: Verified,
    source: &SourceFile<'_>,
    job: &RunJob,
    is_looked_at: bool,
) -> Result<Ran, Stop> {
    let is_counted = job.metrics.is_some();
    let bound = source.bound(rt, &verified)?;
    let ready = Ready { verified, bound };
    match &job.rows {
        None => Ok(ready.run(rt, rt.reader(), is_counted)?),
        Some(log) => {
            let log = opened(rt, log, is_looked_at)?;
            Ok(ready.run(rt, log, is_counted)?)
        }
    }
}

/// Writes the rows of a log's lines by a source, for a query or a program.
pub fn write_log_rows<R: Files + AllocGlobal + Input + Print + Eprint + Clock>(
    rt: &R,
    job: &RowsJob,
    is_looked_at: bool,
) -> Result<bool, Stop> {
    let verified = accepted(rt, job.program, &job.query)?;
    rows_by(rt, &verified, job, is_looked_at)
}

// The same for an accepted program.
fn rows_by<R: Files + AllocGlobal + Input + Print + Eprint + Clock>(
    rt: &R,
    verified: &Verified,
    job: &RowsJob,
    is_looked_at: bool,
) -> Result<bool, Stop> {
    let bound = source_for(rt, &job.source, verified)?;
    match &job.rows {
        None => Ok(rows_over(rt, verified, bound, rt.reader())?),
        Some(log) => {
            let log = opened(rt, log, is_looked_at)?;
            Ok(rows_over(rt, verified, bound, log)?)
        }
    }
}

// Hands the reader of the log on. Where it ends well the rows of all lines that the reader has were written.
fn rows_over<R: AllocGlobal + Print, I: Read + Drop>(
    rt: &R,
    verified: &Verified,
    bound: Bound,
    log: I,
) -> Result<bool, End>
    ensures { OnOk result ((old : Option (List ℕ)) × (new : Option (List ℕ)) × (lines : List (List ℕ))
        × RowsWritten (I.remaining log) bound.source verified.now.header.schema old new lines) }
{
    let Bound { source, clocks: _ } = bound;
    let schema = &verified.program().header().schema;
    let mut output = Guarded::new(io::writer(rt));
    match write_rows(rt.alloc(), schema, source, log, &mut output) {
        Ok(()) => Ok(true),
        Err(end) => Err(end_of_log(end)),
    }
}

/// Opens the file of a log. Where somebody looks at standard error, how much of it was read is told there while that lasts.
pub fn opened<'r, R: Files + Clock>(
    rt: &'r R,
    log: &String,
    is_looked_at: bool,
) -> Result<Watched<'r, R, R::File>, End> {
    let size = match fs::metadata(rt, log.as_str()) {
        Ok(metadata) => metadata.len(),
        Err(_) => 0,
    };
    match File::open(rt, log.as_str()) {
        Ok(log) => Ok(Watched::new(rt, log, size, is_looked_at)),
        Err(error) => Err(end_of(&error, End::ReadFailed)),
    }
}
