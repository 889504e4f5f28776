//! The program's words.

ghost use Rattle.std.specs.Prelude.{◌≡◌, true, IfOk, IfErr, map};
ghost use Rattle.clap.specs.Words.{fault_of, subcommand_of, takes};
ghost use Rattle.wsm_words.specs.Words.{the_app, AnswersFaults, IsJobOf, IsMemory};

use crate::commands::wsm_command;
use crate::job::Job;
use crate::jobs::job_of;
use crate::refusal::WordsRefusal;
use crate::version::version_text;
use std::alloc::Global;

/// The job that the words ask for, the program's own name first among them. A subcommand is
/// required: `run [--program] [--from SOURCE] [--metrics FILE] [--keys FILE] [--new-keys] [--most-keys N] QUERY [ROWS]`,
/// `compile QUERY OUT`, `migrate PROGRAM OUT`, `verify [--query] [--from SOURCE] [--keys N] PROGRAM`, `explain [--json] [--query] PROGRAM`,
/// `deal [--keys-of] KEYS PARTS OUT [ROWS]`, `rows [--program] SOURCE QUERY [LOG]`,
/// `keep [--program] [--taken LINES] [--most BYTES] QUERY [ROWS]`, `watermarks [--program] [--agree K] --bound BOUND
/// [--step STEP] [--forget N] [--room N] [--source NAME] [--once CELL] [--last] [--metrics FILE] QUERY [ROWS]` or
/// `live [--program] [--from SOURCE] [--keys FILE] [--new-keys] [--most-keys N] [--lost WHERE] [--health FILE] [--patience SECONDS]
/// [--cut BYTES] [--position] DIR [QUERY] [LOG]`.
/// Words that `clap` takes are refused for want of memory alone. Others are refused by a fault that `clap` finds in them, or for want of memory.
pub fn command_of(alloc: Global, words: &[&str]) -> Result<Job, WordsRefusal>
    ensures job { IfOk result (IsJobOf (subcommand_of the_app (map (λ s. s.now) words.now))) }
    ensures refused { IfErr result (λ e. takes the_app (map (λ s. s.now) words.now) ≡ true → IsMemory e) }
    ensures faults { AnswersFaults (fault_of the_app (map (λ s. s.now) words.now)) result }
{
    let version = version_text(alloc)?;
    let matches = wsm_command(alloc, version.as_str())?.try_get_matches_from(words)?;
    let job = job_of(alloc, &matches)?;
    Ok(job)
}
