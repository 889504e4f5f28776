//! The jobs of the program, each in a crate of its kind.

use std::fs::File;
use std::io::Eprint;
use std::rt::Files;
use std::time::Clock;
use wsm_job::Stop;
use wsm_live_job::live;
use wsm_program_jobs::{compile, explain, migrated, verify};
use wsm_row_jobs::{deal_or_tell, follow, keep};
use wsm_run_job::{run, write_log_rows};
use wsm_words::Job;

/// Does the job. `is_looked_at` is whether standard error is a terminal: then how much of a log was read is told there. It is false
/// where a program was judged and rejected.
pub fn done<R: Files<File = File> + AllocGlobal + Input + Print + Eprint + Clock + Clone + Drop>(
    rt: &R,
    job: &Job,
    is_looked_at: bool,
) -> Result<bool, Stop> {
    match job {
        Job::Run(job) => run(rt, job, is_looked_at),
        Job::Compile(job) => compile(rt, job),
        Job::Migrate(job) => migrated(rt, job),
        Job::Verify(job) => verify(rt, job),
        Job::Explain(job) => explain(rt, job),
        Job::Deal(job) => deal_or_tell(rt, job),
        Job::Rows(job) => write_log_rows(rt, job, is_looked_at),
        Job::Keep(job) => keep(rt, job),
        Job::Watermarks(job) => follow(rt, job),
        Job::Live(job) => live(rt, job),
    }
}
