//! What holds of sums. The contract of each function is the law; a call of it does nothing.

ghost use Rattle.std.specs.Prelude.{◌≡◌, ◌++◌, ℕ, List};
ghost use Rattle.wsm_sums.specs.Crc.{sum_behind};

/// The sum of two texts behind one another is that of the second begun with the first's.
pub fn sums_go_on()
    ensures { (sum : ℕ) (first second : List ℕ) → sum_behind sum (first ++ second) ≡ sum_behind (sum_behind sum first) second }
{}
