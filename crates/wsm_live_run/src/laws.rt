//! What holds of runs over a growing log. The contract of each function is the law; a call of it does nothing.

ghost use Rattle.std.specs.Prelude.{◌≡◌, ℕ, List, Option};
ghost use Rattle.wsm_program.specs.Program.{Program};
ghost use Rattle.wsm_machine.specs.Meaning.{query_of};
ghost use Rattle.wsm_lines.specs.declared.source.Source.{Source};
ghost use Rattle.wsm_turns.specs.declared.clocks.Clocks.{Clocks};
ghost use Rattle.wsm_log_text.specs.LogText.{said, turns_text};
ghost use Rattle.wsm_live.specs.Told.{told};
ghost use Rattle.wsm_live_run.specs.Turns.{text_of, turn_by};
ghost use Rattle.wsm_keyed_intake.specs.KeyedLog.{KeyedLog, log_turns};
ghost use Rattle.wsm_live_run.specs.KeyedTurns.{keyed_turn_of};
ghost use Rattle.wsm_live_run.specs.KeyedSeen.{KeyedStands};

use crate::keyed_log_lines::KeyedLogLines;

/// The lines that are handed out, one behind the other, are what a run over the whole log writes in front of its end.
pub fn same_text()
    ensures { (s : Source) (clocks : Option Clocks) (p : Program) (lines : List (List ℕ)) →
        text_of (told (turn_by s clocks p) lines) ≡ turns_text (query_of p) clocks (said s clocks p.header.schema lines) }
{}

/// The same by any number of names: what was handed out for the lines that were taken is what a run over all of them writes in front of
/// its end, by all names that ever came.
pub fn same_keyed_text(taker: &KeyedLogLines)
    ensures { (g : KeyedLog) (lines : List (List ℕ)) → KeyedStands taker.now g lines → text_of (told (keyed_turn_of g) lines) ≡ log_turns g lines }
{}
