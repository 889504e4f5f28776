//! What holds of the lines of a source. The contract of each function is the law; a call of it does nothing.

ghost use Rattle.std.specs.Prelude.{◌≡◌, ◌<◌, ◌++◌, [], ℕ, List, None};
ghost use Rattle.wsm_fed.specs.Fed.{Stand, came_from, stand};
ghost use Rattle.wsm_fed.specs.Written.{ArePieces, IsFirst, Piece, chunks_of, written};

/// What a source writes is taken: each piece of a log, with the position behind it, and no fault is found.
pub fn read_back()
    ensures { (heard : ℕ) (position : List ℕ) (pieces : List Piece) → 0 < heard → ArePieces pieces →
        came_from (stand heard position [] 0) (written pieces) ≡ record { chunks = chunks_of pieces; fault = None } }
{}

/// Wherever a source is cut off, what was taken until then is a beginning of what is taken of all.
pub fn cut_anywhere()
    ensures { (s : Stand) (first more : List (List ℕ)) → IsFirst (came_from s first) (came_from s (first ++ more)) }
{}
