//! `wsm explain --json`: what tools may ask of a query or a program.

use std::io;
use std::rt::Files;
use wsm_explain::{Judgement, explain, explained_text};
use wsm_inputs::End;
use wsm_job::{Stop, input_of, read, write_all};
use wsm_words::ExplainJob;

/// Writes what is found of a program, or of a query, as JSON. One that is refused ends the job once that is written.
pub fn tell<R: Files + AllocGlobal + Print>(rt: &R, job: &ExplainJob) -> Result<bool, Stop> {
    let (text, judgement) = told(rt, job)?;
    write_all(text.as_bytes(), io::writer(rt))?;
    match judgement {
        Judgement::Refused(why) => Err(Stop::End(End::Refused(why))),
        Judgement::Rejected { .. } => Ok(false),
        Judgement::Accepted { .. } => Ok(true),
    }
}

// What is told of the program or the query of a file, and what was found.
fn told<R: Files + AllocGlobal>(rt: &R, job: &ExplainJob) -> Result<(String, Judgement), End> {
    let bytes = read(rt, &job.program)?;
    let input = input_of(!job.query, &bytes);
    let judgement = explain(rt.alloc(), input)?;
    let text = explained_text(rt.alloc(), input, &judgement)?;
    Ok((text, judgement))
}
