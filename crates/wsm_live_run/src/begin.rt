//! A run over the lines of a log.

ghost use Rattle.std.specs.Prelude.{◌≡◌, [], IfErr, IfOk};
ghost use Rattle.wsm_turns.specs.Clocks.{AreClocks};
ghost use Rattle.wsm_live.specs.Live.{IsBehind, longest_of};
ghost use Rattle.wsm_live_run.specs.Turns.{taken_by, turn_of};
ghost use Rattle.wsm_live_run.specs.Seen.{Stands};
ghost use Rattle.wsm_keyed_intake.specs.Stops.{IsUnrun};
ghost use Rattle.wsm_live_run.specs.KeyedTurns.{keyed_turn_of};
ghost use Rattle.wsm_live_run.specs.KeyedSeen.{KeyedStands};

use crate::keyed_log_lines::KeyedLogLines;
use crate::log_lines::LogLines;
use std::alloc::{AllocError, Global};
use wsm_key_names::KeyNames;
use wsm_keyed_intake::KeyedLogStop;
use wsm_lines::Source;
use wsm_live::LiveRun;
use wsm_rules::Verified;
use wsm_turns::Clocks;

/// A run of which no line was taken.
///
/// # Errors
///
/// Memory was refused.
pub fn live_run(
    alloc: Global,
    verified: Verified,
    source: Source,
    clocks: Option<Clocks>,
) -> Result<LiveRun<LogLines>, AllocError>
    requires { AreClocks clocks }
    ensures behind { IfOk result (λ run. IsBehind turn_of Stands run (taken_by source clocks verified) []) }
    ensures longest { IfOk result (λ run. longest_of run ≡ source.longest) }
{
    let longest = source.longest;
    let lines = LogLines::open(alloc, verified, source, clocks)?;
    Ok(LiveRun::new(alloc, lines, longest))
}

/// The same by any number of names: these at first, and those that lines teach as long as there are fewer than so many.
///
/// # Errors
///
/// The program, the source or the clocks aren't run so, or memory was refused.
pub fn keyed_live_run(
    alloc: Global,
    verified: Verified,
    source: Source,
    clocks: Option<Clocks>,
    names: KeyNames,
    most: u32,
) -> Result<LiveRun<KeyedLogLines>, KeyedLogStop>
    requires { AreClocks clocks }
    ensures behind { IfOk result (λ run. IsBehind keyed_turn_of KeyedStands run
        (record { program = verified; source = source; clocks = clocks; names = names; most = most }) []) }
    ensures longest { IfOk result (λ run. longest_of run ≡ source.longest) }
    ensures unrun { IfErr result (IsUnrun (record { program = verified; source = source; clocks = clocks; names = names; most = most })) }
{
    let longest = source.longest;
    match KeyedLogLines::open(alloc, verified, source, clocks, names, most) {
        Ok(lines) => Ok(LiveRun::new(alloc, lines, longest)),
        Err(stop) => Err(stop),
    }
}
