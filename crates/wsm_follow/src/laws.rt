//! What holds of positions, and of what a follower gives. The contract of each function is the law; a call
//! of it does nothing.

ghost use Rattle.std.specs.Prelude.{◌≡◌, ◌++◌, ℕ, List, Some, true};
ghost use Rattle.wsm_journal.specs.Text.{is_position};
ghost use Rattle.wsm_follow.specs.Follows.{Follows, Stand, lines_at, lines_in};
ghost use Rattle.wsm_follow.specs.Logs.{Log};
ghost use Rattle.wsm_follow.specs.Position.{IsPlace, Place, place_of, place_text};

/// Reading what was written gives the same place, and a journal takes its text for a position: at most
/// 1,024 bytes, and no line feed.
pub fn read_back()
    ensures read { (p : Place) → IsPlace p → place_of (place_text p) ≡ Some p }
    ensures position { (p : Place) → IsPlace p → is_position (place_text p) ≡ true }
{}

/// Where turns gave texts, each from where the one before it ended, their lines and those behind where they
/// ended are the lines behind where they began: each once, in order, none left out.
pub fn each_line_once()
    ensures { (longest : ℕ) (known : List Log) (from to : Stand) (texts : List (List ℕ)) → Follows longest known from texts to →
        lines_in longest texts ++ lines_at longest known to ≡ lines_at longest known from }
{}
