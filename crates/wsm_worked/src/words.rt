//! The words of a command.

use clap::error::ErrorKind;
use std::alloc::Global;
use std::test::Fail;
use wsm_words::{WordsRefusal, command_of};

// The job of the words, as `Debug` writes it.
fn job(alloc: Global, words: &[&str]) -> Result<String, Fail> {
    match command_of(alloc, words) {
        Ok(job) => Ok(format!(in alloc; "{job:?}")?),
        Err(WordsRefusal::Words(error)) => Ok(format!(in alloc; "{error}")?),
        Err(WordsRefusal::Memory) => Err(Fail::from("out of memory")),
    }
}

const JOBS: [(&[&str], &str); 23] = [
    (
        &["wsm", "run", "q"],
        "Run(RunJob { program: false, from: None, metrics: None, keys: Named { file: None, takes_new: false, most: None }, query: \"q\", rows: None })",
    ),
    (
        &["wsm", "run", "q", "r"],
        "Run(RunJob { program: false, from: None, metrics: None, keys: Named { file: None, takes_new: false, most: None }, query: \"q\", rows: Some(\"r\") })",
    ),
    (
        &["wsm", "run", "--program", "p"],
        "Run(RunJob { program: true, from: None, metrics: None, keys: Named { file: None, takes_new: false, most: None }, query: \"p\", rows: None })",
    ),
    (
        &["wsm", "run", "p", "r", "--program"],
        "Run(RunJob { program: true, from: None, metrics: None, keys: Named { file: None, takes_new: false, most: None }, query: \"p\", rows: Some(\"r\") })",
    ),
    (
        &["wsm", "run", "--", "--program"],
        "Run(RunJob { program: false, from: None, metrics: None, keys: Named { file: None, takes_new: false, most: None }, query: \"--program\", rows: None })",
    ),
    (
        &["wsm", "run", "q", "-"],
        "Run(RunJob { program: false, from: None, metrics: None, keys: Named { file: None, takes_new: false, most: None }, query: \"q\", rows: None })",
    ),
    (
        &["wsm", "run", "-", "./-"],
        "Run(RunJob { program: false, from: None, metrics: None, keys: Named { file: None, takes_new: false, most: None }, query: \"-\", rows: Some(\"./-\") })",
    ),
    (
        &["wsm", "run", "--from", "s", "q", "l"],
        "Run(RunJob { program: false, from: Some(\"s\"), metrics: None, keys: Named { file: None, takes_new: false, most: None }, query: \"q\", rows: Some(\"l\") })",
    ),
    (
        &[
            "wsm",
            "run",
            "--keys",
            "n",
            "--new-keys",
            "--most-keys=9",
            "--metrics",
            "m",
            "q",
        ],
        "Run(RunJob { program: false, from: None, metrics: Some(\"m\"), keys: Named { file: Some(\"n\"), takes_new: true, most: Some(\"9\") }, query: \"q\", rows: None })",
    ),
    (
        &["wsm", "verify", "--keys", "9", "q"],
        "Verify(VerifyJob { query: false, from: None, keys: Some(\"9\"), program: \"q\" })",
    ),
    (
        &["wsm", "run", "p", "--from=-", "--program"],
        "Run(RunJob { program: true, from: Some(\"-\"), metrics: None, keys: Named { file: None, takes_new: false, most: None }, query: \"p\", rows: None })",
    ),
    (
        &["wsm", "compile", "q", "o"],
        "Compile(CompileJob { query: \"q\", out: \"o\" })",
    ),
    (
        &["wsm", "migrate", "p", "o"],
        "Migrate(MigrateJob { program: \"p\", out: \"o\" })",
    ),
    (
        &["wsm", "verify", "p"],
        "Verify(VerifyJob { query: false, from: None, keys: None, program: \"p\" })",
    ),
    (
        &["wsm", "verify", "--query", "q"],
        "Verify(VerifyJob { query: true, from: None, keys: None, program: \"q\" })",
    ),
    (
        &["wsm", "verify", "--query", "--from", "s", "q"],
        "Verify(VerifyJob { query: true, from: Some(\"s\"), keys: None, program: \"q\" })",
    ),
    (
        &["wsm", "explain", "p"],
        "Explain(ExplainJob { json: false, query: false, program: \"p\" })",
    ),
    (
        &["wsm", "explain", "q", "--query"],
        "Explain(ExplainJob { json: false, query: true, program: \"q\" })",
    ),
    (
        &["wsm", "explain", "--query", "--json", "q"],
        "Explain(ExplainJob { json: true, query: true, program: \"q\" })",
    ),
    (
        &["wsm", "rows", "s", "q", "l"],
        "Rows(RowsJob { program: false, source: \"s\", query: \"q\", rows: Some(\"l\") })",
    ),
    (
        &["wsm", "rows", "s", "--program", "p", "-"],
        "Rows(RowsJob { program: true, source: \"s\", query: \"p\", rows: None })",
    ),
    (
        &["wsm", "keep", "q"],
        "Keep(KeepJob { program: false, taken: None, most: None, query: \"q\", rows: None })",
    ),
    (
        &[
            "wsm",
            "keep",
            "--taken",
            "5",
            "--program",
            "p",
            "--most=9",
            "r",
        ],
        "Keep(KeepJob { program: true, taken: Some(\"5\"), most: Some(\"9\"), query: \"p\", rows: Some(\"r\") })",
    ),
];

#[test]
fn words_ask_for_jobs(rt: HostRuntime) -> Result<(), Fail> {
    for &(words, want) in &JOBS {
        let job = job(rt.alloc(), words)?;
        assert_eq!(rt; job.as_str(), want);
    }
    Ok(())
}

// Words that ask for no job, and what `clap` calls it.
const REFUSED: [(&[&str], ErrorKind); 9] = [
    (&["wsm", "--version"], ErrorKind::DisplayVersion),
    (&["wsm", "-V"], ErrorKind::DisplayVersion),
    (&["wsm", "--help"], ErrorKind::DisplayHelp),
    (&["wsm", "verify", "--help"], ErrorKind::DisplayHelp),
    (&["wsm", "walk"], ErrorKind::InvalidSubcommand),
    (&["wsm", "run"], ErrorKind::MissingRequiredArgument),
    (&["wsm", "run", "q", "r", "s"], ErrorKind::UnknownArgument),
    (&["wsm", "run", "q", "--from"], ErrorKind::InvalidValue),
    (&["wsm", "rows", "s"], ErrorKind::MissingRequiredArgument),
];

// What `clap` calls the refusal of the words, if it is one of theirs.
fn refusal(alloc: Global, words: &[&str]) -> Option<ErrorKind> {
    match command_of(alloc, words) {
        Ok(_job) => None,
        Err(WordsRefusal::Words(error)) => Some(error.kind()),
        Err(WordsRefusal::Memory) => None,
    }
}

// Want of memory is told for none of them where memory is there: no clause says so.
#[test]
fn refusals_are_told_as_themselves(rt: HostRuntime) {
    for &(words, want) in &REFUSED {
        assert_eq!(rt; refusal(rt.alloc(), words), Some(want));
    }
}

#[test]
fn the_version_is_told(rt: HostRuntime) -> Result<(), Fail> {
    let text = job(rt.alloc(), &["wsm", "--version"])?;
    let want =
        "wsm 1.2.0 (kit 000, logic 0000000000000000, commit 0000000000000000000000000000000000000000)\n";
    assert_eq!(rt; text.as_str(), want);
    Ok(())
}
