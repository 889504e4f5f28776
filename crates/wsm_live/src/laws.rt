//! What holds of runs over a growing log. The contract of each function is the law; a call of it does nothing.

ghost use Rattle.std.specs.Prelude.{◌≡◌, ◌<◌, ◌^◌, ◌++◌, ◌∷◌, [], ℕ, List, Some, length, true};
ghost use Rattle.wsm_numbered.specs.Numbered.{numbered};
ghost use Rattle.wsm_follow.specs.Ended.{ended_lines, kept_lines};
ghost use Rattle.wsm_journal.specs.Text.{Entry};
ghost use Rattle.wsm_protocol.specs.Runs.{IsRun};
ghost use Rattle.wsm_protocol.specs.World as world;
ghost use Rattle.wsm_protocol.specs.World.{cut_front, lines_of_chunk, with_chunk, log_of};
ghost use Rattle.wsm_protocol.specs.Steps.{Event};
ghost use Rattle.wsm_protocol.specs.Laws.{IsFrontOf, after_all};
ghost use Rattle.wsm_live.specs.Kept.{read_lines, rows_of};
ghost use Rattle.wsm_live.specs.Told.{Turn, handed_out, told, told_for, with_lines};
ghost use Rattle.wsm_live.specs.Head.{behind_row, cut_of, cut_row, cut_with, is_headed, name_in, own_row};
ghost use Rattle.wsm_live.specs.Live.{chunk_lines, lines_behind};
ghost use Rattle.wsm_live.specs.Protocol.{items_text, journal_by, run_by};

/// What is written and handed out hangs on lines, and not on the pieces that they come in.
pub fn one_piece()
    ensures lines { (turn : Turn) (before first second : List (List ℕ)) →
        told_for turn before (first ++ second) ≡ told_for turn before first ++ told_for turn (with_lines before first) second }
    ensures text { (turn : Turn) (before first second : List (List ℕ)) →
        handed_out turn before (first ++ second) ≡ handed_out turn before first ++ handed_out turn (with_lines before first) second }
    ensures all { (turn : Turn) (lines : List (List ℕ)) → told turn (with_lines [] lines) ≡ told_for turn [] lines }
{}

/// The lines of a text come back from its rows.
pub fn read_back()
    ensures { (longest : ℕ) (text : List ℕ) → read_lines longest (rows_of (ended_lines text)) ≡ kept_lines longest (ended_lines text) }
{}

/// A restart hands out what was handed out before, and behind it what was handed out for the journal's last record, whatever lines
/// the head stands for; and where all records but the last were cut it hands out what is for that one alone.
pub fn restarts_alike()
    ensures more { (turn : Turn) (before : List (List ℕ)) (longest : ℕ) (head : Entry) (chunks : List Entry) (more : Entry) →
        handed_out turn before (lines_behind longest (head ∷ (chunks ++ more ∷ []))) ≡ handed_out turn before (lines_behind longest (head ∷ chunks)) ++ handed_out turn (with_lines before (lines_behind longest (head ∷ chunks))) (read_lines longest more.rows) }
    ensures cut { (turn : Turn) (before : List (List ℕ)) (longest : ℕ) (head cut : Entry) (chunks : List Entry) (more : Entry) →
        handed_out turn before (lines_behind longest (head ∷ (chunks ++ more ∷ []))) ≡ handed_out turn before (lines_behind longest (head ∷ chunks)) ++ handed_out turn (with_lines before (lines_behind longest (head ∷ chunks))) (lines_behind longest (cut ∷ more ∷ [])) }
{}

/// A row that says what lines came to is read as that, and what stands behind the row of a head is read there, whatever name the head
/// has. With such a row behind its own it is headed as it was, and has the same name.
pub fn cuts_are_read()
    ensures row { (count sum : ℕ) (text : List ℕ) → count < 2 ^ 64 → sum < 2 ^ 32 → cut_of (cut_row count sum text) ≡ Some (cut_with count sum text) }
    ensures headed { (head rows more : List ℕ) → 23 < length head → is_headed head rows ≡ true → is_headed head (own_row head rows ++ more) ≡ true }
    ensures own { (head rows more : List ℕ) → 23 < length head → is_headed head rows ≡ true → own_row head (own_row head rows ++ more) ≡ own_row head rows }
    ensures behind { (head rows more : List ℕ) → 23 < length head → is_headed head rows ≡ true → behind_row head (own_row head rows ++ more) ≡ more }
    ensures name { (head rows more : List ℕ) → 23 < length head → is_headed head rows ≡ true → name_in (own_row head rows ++ more) ≡ name_in rows }
{}

/// A run over lines is one as the protocol asks for.
pub fn is_run()
    ensures { (turn : Turn) → IsRun (run_by turn) }
{}

/// A journal's records are the protocol's journal, whatever lines its head stands for: of one more its chunk is as much longer, what
/// is handed out at a restart and for a chunk are the protocol's items, as bytes, and a head alone that stands for all lines is what the
/// protocol's cut of all chunks leaves.
pub fn is_protocol()
    ensures behind { (turn : Turn) (longest : ℕ) (front : List (List ℕ)) (es : List Entry) →
        world.lines_behind (run_by turn) (journal_by turn longest front es) ≡ told_for turn (with_lines [] front) (lines_behind longest es) }
    ensures chunk { (turn : Turn) (longest : ℕ) (front : List (List ℕ)) (head : Entry) (chunks : List Entry) (more : Entry) →
        journal_by turn longest front (head ∷ (chunks ++ more ∷ []))
        ≡ with_chunk (journal_by turn longest front (head ∷ chunks)) (read_lines longest more.rows) }
    ensures more { (turn : Turn) (longest : ℕ) (front : List (List ℕ)) (head : Entry) (chunks : List Entry) (rows : List (List ℕ)) →
        lines_of_chunk (run_by turn) (journal_by turn longest front (head ∷ chunks)) rows
        ≡ told_for turn (with_lines (with_lines [] front) (chunk_lines longest chunks)) rows }
    ensures cut { (turn : Turn) (longest : ℕ) (front : List (List ℕ)) (head cut : Entry) (chunks : List Entry) →
        journal_by turn longest (front ++ chunk_lines longest chunks) (cut ∷ [])
        ≡ cut_front (run_by turn) (length chunks) (journal_by turn longest front (head ∷ chunks)) }
    ensures items { (count sum : ℕ) (lines : List (List ℕ)) → items_text sum (world.numbered count lines) ≡ numbered count sum lines }
{}

/// Whatever happens, and whatever dies at whichever moment, the table has the first lines that are written for the log, each once and
/// in their order.
pub fn exactly_once()
    ensures { (turn : Turn) (events : List Event) →
        IsFrontOf (after_all (run_by turn) events).table (told_for turn [] (log_of (after_all (run_by turn) events))) }
{
    wsm_protocol::laws::exactly_once();
}
