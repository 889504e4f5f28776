//! Runs over logs by any number of keys.

use crate::logs::opened;
use std::io::{self, Eprint, Read};
use std::rt::Files;
use std::time::Clock;
use wsm::Guarded;
use wsm_ends::KeyedLogStop;
use wsm_job::{Counting, Ran, Stop, Teller};
use wsm_key_names::KeyNames;
use wsm_keyed_intake::run_keyed_log;
use wsm_keyed_run::checked_by_places;
use wsm_log_rows::LogEnd;
use wsm_rules::Verified;
use wsm_source_file::{Bound, SourceFile};
use wsm_words::RunJob;

// An accepted program, the source by which the lines of its log are read, and the names of its keys, of which there may be so many.
struct Named {
    verified: Verified,
    bound: Bound,
    names: KeyNames,
    most: u32,
}

// It is let go in one call, however many parts it has.
impl Drop for Named {
    fn drop(self) {
        let Named {
            verified: _,
            bound: _,
            names: _,
            most: _,
        } = self;
    }
}

impl Named {
    ghost use Rattle.std.specs.Prelude.{ℕ, List, Option, IfOk};
    ghost use Rattle.wsm_turns.specs.Clocks.{AreClocks};
    ghost use Rattle.wsm_keyed_intake.specs.Run.{KeyedLogWritten};

    // Hands the reader of the log on. What is written is counted, where that is asked for. Where it ends well, the numbers that are
    // told are those of all lines that the reader has.
    fn run<R: AllocGlobal + Print + Eprint, I: Read + Drop>(
        self,
        rt: &R,
        log: I,
        is_counted: bool,
    ) -> Result<(usize, Ran), KeyedLogStop>
        requires { AreClocks self.bound.clocks }
        ensures { IfOk result (λ both. (old : Option (List ℕ)) × (new : Option (List ℕ)) × KeyedLogWritten (I.remaining log)
            (record { program = self.verified; source = self.bound.source; clocks = self.bound.clocks; names = self.names; most = self.most })
            old new both.1.totals) }
    {
        let Named {
            verified,
            bound,
            names,
            most,
        } = self;
        let Bound { source, clocks } = bound;
        let writer = Counting::new(rt.alloc(), io::writer(rt), is_counted);
        let mut output = Guarded::new(writer);
        let mut teller = Teller::new(rt);
        let run = run_keyed_log(
            rt.alloc(),
            verified,
            source,
            clocks,
            names,
            most,
            log,
            &mut output,
            &mut teller,
        )?;
        teller.tell(run.log.counts);
        let Ok(lines) = output.into_writer().into_lines() else {
            return Err(KeyedLogStop::End(LogEnd::Memory));
        };
        let ran = Ran {
            totals: run.log.totals,
            counts: Some(run.log.counts),
            lines,
        };
        Ok((run.names, ran))
    }
}

/// Runs the text of a query without a KEYS clause over a log, whose lines are read by a source, or over standard input, by these names, of
/// which there may be so many. Answers how many names there are then.
pub fn run_log<R: Files + AllocGlobal + Input + Print + Eprint + Clock>(
    rt: &R,
    job: &RunJob,
    source: &SourceFile<'_>,
    query: &[u8],
    names: KeyNames,
    most: u32,
    is_looked_at: bool,
) -> Result<(usize, Ran), Stop> {
    let verified = checked_by_places(rt.alloc(), query)?;
    let bound = source.bound(rt, &verified)?;
    let named = Named {
        verified,
        bound,
        names,
        most,
    };
    let is_counted = job.metrics.is_some();
    match &job.rows {
        None => Ok(named.run(rt, rt.reader(), is_counted)?),
        Some(log) => {
            let log = opened(rt, log, is_looked_at)?;
            Ok(named.run(rt, log, is_counted)?)
        }
    }
}
