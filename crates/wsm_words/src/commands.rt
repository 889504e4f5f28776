//! The program's command, with its subcommands.

ghost use Rattle.std.specs.Prelude.{◌≡◌, map, IfOk};
ghost use Rattle.clap.specs.Words.{app_of, shape_of};
ghost use Rattle.wsm_words.specs.Words.{the_app, required_app, shape_by, usage_shape, with_shapes};

use crate::arguments::{Argument, command, with_arguments};
use crate::help;
use clap::Command;
use std::alloc::{AllocError, Global};

/// A subcommand.
#[derive(Clone, Copy)]
pub enum Subcommand {
    Run,
    Compile,
    Migrate,
    Verify,
    Explain,
    Deal,
    Rows,
    Keep,
    Watermarks,
    Live,
}

/// What a subcommand is called, what its help says of it, and what it takes.
#[derive(Clone, Copy)]
pub struct Usage<'a> {
    pub name: &'a str,
    pub about: &'a str,
    pub example: &'a str,
    pub arguments: &'a [Argument<'a>],
}

// All of them, as the help lists them.
const SUBCOMMANDS: [Subcommand; 10] = [
    Subcommand::Run,
    Subcommand::Compile,
    Subcommand::Migrate,
    Subcommand::Verify,
    Subcommand::Explain,
    Subcommand::Deal,
    Subcommand::Rows,
    Subcommand::Keep,
    Subcommand::Watermarks,
    Subcommand::Live,
];

/// The program's command, with its subcommands.
pub fn wsm_command<'a>(alloc: Global, version: &'a str) -> Result<Command<'a>, AllocError>
    ensures { IfOk result (λ c. app_of c ≡ the_app) }
{
    let wsm = with_subcommands(alloc, required_command(alloc, version)?, &SUBCOMMANDS)?;
    Ok(wsm)
}

// The command, and with these subcommands, in their order.
fn with_subcommands<'a>(
    alloc: Global,
    command: Command<'a>,
    subcommands: &[Subcommand],
) -> Result<Command<'a>, AllocError>
    ensures { IfOk result (λ c. app_of c ≡ with_shapes (app_of command.entry) (map shape_by subcommands.now)) }
{
    let mut command = command;
    for subcommand in subcommands {
        command = command.subcommand(command_of(alloc, *subcommand)?)?;
    }
    Ok(command)
}

// The command of a subcommand.
fn command_of<'a>(alloc: Global, subcommand: Subcommand) -> Result<Command<'a>, AllocError>
    ensures { IfOk result (λ c. shape_of c ≡ shape_by subcommand) }
{
    let usage = usage_of(subcommand);
    let named = command(alloc, usage.name, usage.about, usage.example);
    let whole = with_arguments(alloc, named, usage.arguments)?;
    Ok(whole)
}

// The usage of a subcommand. The table is a match, since its rows have long texts.
fn usage_of<'a>(subcommand: Subcommand) -> Usage<'a>
    ensures { usage_shape result ≡ shape_by subcommand }
{
    match subcommand {
        // `run [--program] [--from SOURCE] [--metrics FILE] [--keys FILE] [--new-keys] [--most-keys N] QUERY [ROWS]`
        Subcommand::Run => Usage {
            name: "run",
            about: help::RUN,
            example: help::RUN_EXAMPLE,
            arguments: &[
                Argument::Flag("program", help::IS_PROGRAM),
                Argument::Valued("from", "SOURCE", help::FROM),
                Argument::Valued("metrics", "FILE", help::METRICS),
                Argument::Valued("keys", "FILE", help::NAMES),
                Argument::Flag("new-keys", help::TAKES_NEW),
                Argument::Valued("most-keys", "N", help::MOST_KEYS),
                Argument::File("query", "QUERY", help::QUERY_OR_PROGRAM),
                Argument::RowsFile("ROWS", help::ROWS),
            ],
        },
        // `compile QUERY OUT`
        Subcommand::Compile => Usage {
            name: "compile",
            about: help::COMPILE,
            example: help::COMPILE_EXAMPLE,
            arguments: &[
                Argument::File("query", "QUERY", help::QUERY),
                Argument::File("out", "OUT", help::OUT),
            ],
        },
        // `migrate PROGRAM OUT`
        Subcommand::Migrate => Usage {
            name: "migrate",
            about: help::MIGRATE,
            example: help::MIGRATE_EXAMPLE,
            arguments: &[
                Argument::File("program", "PROGRAM", help::PROGRAM),
                Argument::File("out", "OUT", help::OUT),
            ],
        },
        // `verify [--query] [--from SOURCE] [--keys N] PROGRAM`
        Subcommand::Verify => Usage {
            name: "verify",
            about: help::VERIFY,
            example: help::VERIFY_EXAMPLE,
            arguments: &[
                Argument::Flag("query", help::IS_QUERY),
                Argument::Valued("from", "SOURCE", help::FITS),
                Argument::Valued("keys", "N", help::KEY_COUNT),
                Argument::File("program", "PROGRAM", help::PROGRAM_OR_QUERY),
            ],
        },
        // `explain [--json] [--query] PROGRAM`
        Subcommand::Explain => Usage {
            name: "explain",
            about: help::EXPLAIN,
            example: help::EXPLAIN_EXAMPLE,
            arguments: &[
                Argument::Flag("json", help::IS_JSON),
                Argument::Flag("query", help::IS_QUERY),
                Argument::File("program", "PROGRAM", help::PROGRAM_OR_QUERY),
            ],
        },
        // `deal [--keys-of] KEYS PARTS OUT [ROWS]`
        Subcommand::Deal => Usage {
            name: "deal",
            about: help::DEAL,
            example: help::DEAL_EXAMPLE,
            arguments: &[
                Argument::Flag("keys-of", help::IS_CLAUSE),
                Argument::File("keys", "KEYS", help::KEYS),
                Argument::File("parts", "PARTS", help::PARTS),
                Argument::File("out", "OUT", help::PARTS_OUT),
                Argument::RowsFile("ROWS", help::ROWS),
            ],
        },
        // `rows [--program] SOURCE QUERY [LOG]`
        Subcommand::Rows => Usage {
            name: "rows",
            about: help::LOG_ROWS,
            example: help::LOG_ROWS_EXAMPLE,
            arguments: &[
                Argument::Flag("program", help::IS_PROGRAM),
                Argument::File("source", "SOURCE", help::SOURCE),
                Argument::File("query", "QUERY", help::QUERY_OR_PROGRAM),
                Argument::RowsFile("LOG", help::LOG),
            ],
        },
        // `keep [--program] [--taken LINES] [--most BYTES] QUERY [ROWS]`
        Subcommand::Keep => Usage {
            name: "keep",
            about: help::KEEP,
            example: help::KEEP_EXAMPLE,
            arguments: &[
                Argument::Flag("program", help::IS_PROGRAM),
                Argument::Valued("taken", "LINES", help::TAKEN),
                Argument::Valued("most", "BYTES", help::MOST),
                Argument::File("query", "QUERY", help::QUERY_OR_PROGRAM),
                Argument::RowsFile("ROWS", help::KEPT_ROWS),
            ],
        },
        // `watermarks [--program] [--agree K] --bound BOUND [--step STEP] [--forget N] [--room N] [--source NAME] [--once CELL] [--last]
        // [--metrics FILE] QUERY [ROWS]`
        Subcommand::Watermarks => Usage {
            name: "watermarks",
            about: help::WATERMARKS,
            example: help::WATERMARKS_EXAMPLE,
            arguments: &[
                Argument::Flag("program", help::IS_PROGRAM),
                Argument::Valued("agree", "K", help::AGREE),
                Argument::Needed("bound", "BOUND", help::BOUND),
                Argument::Valued("step", "STEP", help::STEP),
                Argument::Valued("forget", "N", help::FORGET),
                Argument::Valued("room", "N", help::ROOM),
                Argument::Valued("source", "NAME", help::MARK_SOURCE),
                Argument::Valued("once", "CELL", help::ONCE),
                Argument::Flag("last", help::LAST),
                Argument::Valued("metrics", "FILE", help::METRICS),
                Argument::File("query", "QUERY", help::QUERY_OR_PROGRAM),
                Argument::RowsFile("ROWS", help::ROWS),
            ],
        },
        // `live [--program] [--from SOURCE] [--keys FILE] [--new-keys] [--most-keys N] [--lost WHERE] [--health FILE] [--patience SECONDS]
        // [--cut BYTES] [--position] DIR [QUERY] [LOG]`
        Subcommand::Live => Usage {
            name: "live",
            about: help::LIVE,
            example: help::LIVE_EXAMPLE,
            arguments: &[
                Argument::Flag("program", help::IS_PROGRAM),
                Argument::Valued("from", "SOURCE", help::SOURCE),
                Argument::Valued("keys", "FILE", help::NAMES),
                Argument::Flag("new-keys", help::TAKES_NEW),
                Argument::Valued("most-keys", "N", help::MOST_KEYS),
                Argument::Valued("lost", "WHERE", help::LOST),
                Argument::Valued("health", "FILE", help::HEALTH),
                Argument::Valued("patience", "SECONDS", help::PATIENCE),
                Argument::Valued("cut", "BYTES", help::CUT),
                Argument::Flag("position", help::POSITION),
                Argument::File("dir", "DIR", help::DIR),
                Argument::OtherFile("query", "QUERY", help::QUERY_OR_PROGRAM),
                Argument::OtherFile("log", "LOG", help::GROWING_LOG),
            ],
        },
    }
}

// The program's command, which wants a subcommand and tells its version.
fn required_command<'a>(alloc: Global, version: &'a str) -> Result<Command<'a>, AllocError>
    ensures { IfOk result (λ c. app_of c ≡ required_app) }
{
    let wsm = command(alloc, "wsm", help::ABOUT, help::EXAMPLE)
        .version(version)
        .subcommand_required(true)
        .bin_name("wsm")?;
    Ok(wsm)
}
