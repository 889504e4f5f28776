//! The job of a parse.

ghost use Rattle.std.specs.Prelude.{IfOk, codes};
ghost use Rattle.clap.specs.Words.{found_of, rows_of as entries_of, subcommand_rows_of};
ghost use Rattle.wsm_words.specs.Following.{IsFollowed, IsFollowing};
ghost use Rattle.wsm_words.specs.Words.{IsAgreement, IsJob, IsJobOf};

use crate::entries::{file_of, flag_of, named_in, option_of, rows_in};
use crate::job::{
    Agreement, CompileJob, DealJob, ExplainJob, Job, KeepJob, LiveJob, MigrateJob, RowsJob, RunJob,
    VerifyJob, WatermarksJob,
};
use clap::ArgMatches;
use std::alloc::{AllocError, Global};

/// The job of a parse.
pub fn job_of(alloc: Global, matches: &ArgMatches<'_>) -> Result<Job, AllocError>
    ensures { IfOk result (IsJobOf (subcommand_rows_of matches.now)) }
{
    match matches.subcommand() {
        Some((name, inner)) => named_job(alloc, name, inner),
        // This doesn't come: the program's command requires a subcommand.
        None => Err(AllocError),
    }
}

// The job of the words behind the name of a subcommand.
fn named_job(alloc: Global, name: &str, inner: &ArgMatches<'_>) -> Result<Job, AllocError>
    ensures { IfOk result (IsJob name.now (entries_of (found_of inner.now))) }
{
    match name {
        "run" => run_job(alloc, inner),
        "compile" => Ok(Job::Compile(CompileJob {
            query: file_of(alloc, inner, "query")?,
            out: file_of(alloc, inner, "out")?,
        })),
        "migrate" => Ok(Job::Migrate(MigrateJob {
            program: file_of(alloc, inner, "program")?,
            out: file_of(alloc, inner, "out")?,
        })),
        "verify" => Ok(Job::Verify(VerifyJob {
            query: flag_of(inner, "query"),
            from: option_of(alloc, inner, "from")?,
            keys: option_of(alloc, inner, "keys")?,
            program: file_of(alloc, inner, "program")?,
        })),
        "explain" => Ok(Job::Explain(ExplainJob {
            json: flag_of(inner, "json"),
            query: flag_of(inner, "query"),
            program: file_of(alloc, inner, "program")?,
        })),
        "deal" => deal_job(alloc, inner),
        "rows" => rows_job(alloc, inner),
        "keep" => keep_job(alloc, inner),
        "watermarks" => watermarks_job(alloc, inner),
        "live" => live_job(alloc, inner),
        // This doesn't come: the program's command has no other subcommand.
        _ => Err(AllocError),
    }
}

// The job of the words behind `run`.
fn run_job(alloc: Global, inner: &ArgMatches<'_>) -> Result<Job, AllocError>
    ensures { IfOk result (IsJob (codes "run") (entries_of (found_of inner.now))) }
{
    Ok(Job::Run(RunJob {
        program: flag_of(inner, "program"),
        from: option_of(alloc, inner, "from")?,
        metrics: option_of(alloc, inner, "metrics")?,
        keys: named_in(alloc, inner)?,
        query: file_of(alloc, inner, "query")?,
        rows: rows_in(alloc, inner)?,
    }))
}

// The job of the words behind `deal`.
fn deal_job(alloc: Global, inner: &ArgMatches<'_>) -> Result<Job, AllocError>
    ensures { IfOk result (IsJob (codes "deal") (entries_of (found_of inner.now))) }
{
    Ok(Job::Deal(DealJob {
        keys_of: flag_of(inner, "keys-of"),
        keys: file_of(alloc, inner, "keys")?,
        parts: file_of(alloc, inner, "parts")?,
        out: file_of(alloc, inner, "out")?,
        rows: rows_in(alloc, inner)?,
    }))
}

// The job of the words behind `rows`.
fn rows_job(alloc: Global, inner: &ArgMatches<'_>) -> Result<Job, AllocError>
    ensures { IfOk result (IsJob (codes "rows") (entries_of (found_of inner.now))) }
{
    Ok(Job::Rows(RowsJob {
        program: flag_of(inner, "program"),
        source: file_of(alloc, inner, "source")?,
        query: file_of(alloc, inner, "query")?,
        rows: rows_in(alloc, inner)?,
    }))
}

// The job of the words behind `keep`.
fn keep_job(alloc: Global, inner: &ArgMatches<'_>) -> Result<Job, AllocError>
    ensures { IfOk result (IsJob (codes "keep") (entries_of (found_of inner.now))) }
{
    Ok(Job::Keep(KeepJob {
        program: flag_of(inner, "program"),
        taken: option_of(alloc, inner, "taken")?,
        most: option_of(alloc, inner, "most")?,
        query: file_of(alloc, inner, "query")?,
        rows: rows_in(alloc, inner)?,
    }))
}

// The job of the words behind `watermarks`.
fn watermarks_job(alloc: Global, inner: &ArgMatches<'_>) -> Result<Job, AllocError>
    ensures { IfOk result (IsJob (codes "watermarks") (entries_of (found_of inner.now))) }
{
    Ok(Job::Watermarks(WatermarksJob {
        program: flag_of(inner, "program"),
        agreement: agreement_of(alloc, inner)?,
        source: option_of(alloc, inner, "source")?,
        once: option_of(alloc, inner, "once")?,
        last: flag_of(inner, "last"),
        metrics: option_of(alloc, inner, "metrics")?,
        query: file_of(alloc, inner, "query")?,
        rows: rows_in(alloc, inner)?,
    }))
}

// The agreement of clocks that a parse gives.
fn agreement_of(alloc: Global, inner: &ArgMatches<'_>) -> Result<Agreement, AllocError>
    ensures { IfOk result (IsAgreement (entries_of (found_of inner.now))) }
{
    Ok(Agreement {
        agree: option_of(alloc, inner, "agree")?,
        bound: file_of(alloc, inner, "bound")?,
        step: option_of(alloc, inner, "step")?,
        forget: option_of(alloc, inner, "forget")?,
        room: option_of(alloc, inner, "room")?,
    })
}

// How a log is followed.
struct Following {
    lost: Option<String>,
    health: Option<String>,
    patience: Option<String>,
    cut: Option<String>,
}

// What is followed, and where.
#[derive(Drop)]
struct Followed {
    dir: String,
    query: Option<String>,
    log: Option<String>,
}

// The job of the words behind `live`.
fn live_job(alloc: Global, inner: &ArgMatches<'_>) -> Result<Job, AllocError>
    ensures { IfOk result (IsJob (codes "live") (entries_of (found_of inner.now))) }
{
    let program = flag_of(inner, "program");
    let position = flag_of(inner, "position");
    let from = option_of(alloc, inner, "from")?;
    let keys = named_in(alloc, inner)?;
    let followed = followed_of(alloc, inner)?;
    let Following {
        lost,
        health,
        patience,
        cut,
    } = following_of(alloc, inner)?;
    let Followed { dir, query, log } = followed;
    Ok(Job::Live(LiveJob {
        program,
        from,
        keys,
        lost,
        health,
        patience,
        cut,
        position,
        dir,
        query,
        log,
    }))
}

// How a log is followed, by a parse.
fn following_of(alloc: Global, inner: &ArgMatches<'_>) -> Result<Following, AllocError>
    ensures { IfOk result (IsFollowing (entries_of (found_of inner.now))) }
{
    Ok(Following {
        lost: option_of(alloc, inner, "lost")?,
        health: option_of(alloc, inner, "health")?,
        patience: option_of(alloc, inner, "patience")?,
        cut: option_of(alloc, inner, "cut")?,
    })
}

// What is followed, and where, by a parse.
fn followed_of(alloc: Global, inner: &ArgMatches<'_>) -> Result<Followed, AllocError>
    ensures { IfOk result (IsFollowed (entries_of (found_of inner.now))) }
{
    Ok(Followed {
        dir: file_of(alloc, inner, "dir")?,
        query: option_of(alloc, inner, "query")?,
        log: option_of(alloc, inner, "log")?,
    })
}
