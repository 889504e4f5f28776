//! `wsm verify` and `wsm explain`: what is written of the judgement of a program.

use crate::explaining::tell;
use crate::parted::tell_parts;
use std::io;
use std::rt::Files;
use wsm_csv::Guarded;
use wsm_inputs::{End, judge_input};
use wsm_job::{Stop, accepted, input_of, read};
use wsm_rules::Verified;
use wsm_source_file::source_for;
use wsm_words::{ExplainJob, VerifyJob};

/// Judges a program, or a query's, and a source that is to fit it.
pub fn verify<R: Files + AllocGlobal + Print>(rt: &R, job: &VerifyJob) -> Result<bool, Stop> {
    match (&job.keys, &job.from) {
        (Some(keys), _) => tell_parts(rt, job, keys),
        (None, None) => Ok(judged(rt, job.query, &job.program, false)?),
        (None, Some(source)) => judged_with(rt, job, source),
    }
}

/// Lists a program, or a query's, and judges it; or tells of it as JSON.
pub fn explain<R: Files + AllocGlobal + Print>(rt: &R, job: &ExplainJob) -> Result<bool, Stop> {
    if job.json {
        tell(rt, job)
    } else {
        Ok(judged(rt, job.query, &job.program, true)?)
    }
}

// Writes the judgement of a file's program, or of the program of a file's query.
fn judged<R: Files + AllocGlobal + Print>(
    rt: &R,
    query: bool,
    program: &String,
    explain: bool,
) -> Result<bool, End> {
    let judged = read(rt, program)?;
    let mut output = Guarded::new(io::writer(rt));
    judge_input(rt.alloc(), input_of(!query, &judged), explain, &mut output)
}

// Writes the judgement of a program or of a query's, and refuses a source that doesn't fit one that is accepted.
fn judged_with<R: Files + AllocGlobal + Print>(
    rt: &R,
    job: &VerifyJob,
    source: &String,
) -> Result<bool, Stop> {
    require_fit(rt, job, source)?;
    Ok(judged(rt, job.query, &job.program, false)?)
}

// Refuses a source that doesn't fit a program which is accepted.
fn require_fit<R: Files + AllocGlobal>(
    rt: &R,
    job: &VerifyJob,
    source: &String,
) -> Result<(), Stop> {
    match accepted(rt, !job.query, &job.program) {
        Ok(verified) => require_fit_of(rt, source, &verified),
        Err(End::Rejected(_)) => Ok(()),
        Err(end) => Err(Stop::End(end)),
    }
}

// The same of an accepted program.
fn require_fit_of<R: Files + AllocGlobal>(
    rt: &R,
    source: &String,
    verified: &Verified,
) -> Result<(), Stop> {
    source_for(rt, source, verified)?;
    Ok(())
}
