//! What a command takes: flags, options and files.

ghost use Rattle.std.specs.Prelude.{◌≡◌, false, map, IfOk};
ghost use Rattle.clap.specs.Words.{app_of, new_app, rule_of};
ghost use Rattle.wsm_words.specs.Words.{other_rule, rule_by, with_rules};

use clap::{Arg, ArgAction, Command};
use std::alloc::{AllocError, Global};

/// A command with the texts of its help.
pub fn command<'a>(alloc: Global, name: &'a str, about: &'a str, example: &'a str) -> Command<'a>
    ensures { app_of result ≡ new_app name.entry.now }
{
    Command::new(alloc, name).about(about).after_help(example)
}

/// What a command takes, each with what its help says of it.
#[derive(Clone, Copy)]
pub enum Argument<'a> {
    /// A flag, by its name.
    Flag(&'a str, &'a str),
    /// An option with one value: its name, and that of the value.
    Valued(&'a str, &'a str, &'a str),
    /// An option with one value, which has to be given.
    Needed(&'a str, &'a str, &'a str),
    /// A file that has to be named: by what it is asked for, and its name.
    File(&'a str, &'a str, &'a str),
    /// A file that may be named.
    OtherFile(&'a str, &'a str, &'a str),
    /// The file of the rows or of the log, which may be named last.
    RowsFile(&'a str, &'a str),
}

/// The command, and with these arguments, in their order.
pub fn with_arguments<'a>(
    alloc: Global,
    command: Command<'a>,
    arguments: &[Argument<'a>],
) -> Result<Command<'a>, AllocError>
    ensures { IfOk result (λ c. app_of c ≡ with_rules (app_of command.entry) (map rule_by arguments.now)) }
{
    let mut command = command;
    for argument in arguments {
        command = command.arg(arg_of(alloc, *argument))?;
    }
    Ok(command)
}

// What words say of an argument.
#[tactic(auto, unfolding(crate::specs::Words::file_rule, crate::specs::Words::flag_rule, crate::specs::Words::needed_rule, crate::specs::Words::option_rule, crate::specs::Words::other_rule, crate::specs::Words::rows_rule))]
fn arg_of<'a>(alloc: Global, argument: Argument<'a>) -> Arg<'a>
    ensures rule { rule_of result ≡ rule_by argument.entry }
    ensures local { result.global ≡ false }
{
    match argument {
        Argument::Flag(name, help) => Arg::new(alloc, name)
            .help(help)
            .long(name)
            .action(ArgAction::SetTrue),
        Argument::Valued(name, value, help) => valued(alloc, name, value, help).long(name),
        Argument::Needed(name, value, help) => {
            valued(alloc, name, value, help).long(name).required(true)
        }
        Argument::File(id, name, help) => valued(alloc, id, name, help).required(true),
        Argument::OtherFile(id, name, help) => valued(alloc, id, name, help),
        Argument::RowsFile(name, help) => valued(alloc, "rows", name, help),
    }
}

// What has one value, and needn't be given.
#[tactic(auto, unfolding(crate::specs::Words::other_rule))]
fn valued<'a>(alloc: Global, id: &'a str, value: &'a str, help: &'a str) -> Arg<'a>
    ensures rule { rule_of result ≡ other_rule id.entry.now }
    ensures local { result.global ≡ false }
{
    Arg::new(alloc, id).value_name(value).help(help)
}
