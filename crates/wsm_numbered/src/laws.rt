//! What holds of numbered lines. The contract of each function is the law; a call of it does nothing.

ghost use Rattle.std.specs.Prelude.{◌≡◌, ◌+◌, ◌++◌, ℕ, List, length};
ghost use Rattle.wsm_sums.specs.Crc.{sum_behind};
ghost use Rattle.wsm_numbered.specs.Numbered.{lines_in, numbered, sum_over};

/// Lines are numbered alike in whatever pieces they come, and the sum of lines is that of their text.
pub fn one_piece()
    ensures lines { (count sum : ℕ) (first second : List (List ℕ)) →
        numbered count sum (first ++ second) ≡ numbered count sum first ++ numbered (count + length first) (sum_over sum first) second }
    ensures sums { (sum : ℕ) (first second : List (List ℕ)) → sum_over sum (first ++ second) ≡ sum_over (sum_over sum first) second }
    ensures text { (sum : ℕ) (text : List ℕ) → sum_over sum (lines_in text) ≡ sum_behind sum text }
{}
