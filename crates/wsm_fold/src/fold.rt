//! The five folds.

ghost use Rattle.std.specs.Prelude.{◌≡◌, ◌||◌, ◌&&◌, ◌≤ℤ◌, ◌+ℤ◌};
ghost use Rattle.std.specs.Int.{int_min, int_max};

/// A fold of a bag of values: the join of two, and what any join promises.
pub trait Fold {
    ghost use Rattle.std.specs.Prelude.{◌≡◌, ℕ};
    ghost use Rattle.wsm_fold.specs.Laws.{FoldLaws};

    /// What is folded: whole numbers or truths.
    type Item;

    // Two values in one.
    ghost joined: { Self.Item → Self.Item → Self.Item };

    // Whether two values may be joined by the machine: their join is a value again.
    ghost CanJoin: { Self.Item → Self.Item → Type 0 };

    // The order in which bounds are read.
    ghost AtMost: { Self.Item → Self.Item → Type 0 };

    // The fold of so many values that are all the same.
    ghost times: { ℕ → Self.Item → Self.Item };

    /// Two values in one.
    fn join(left: Self::Item, right: Self::Item) -> Self::Item
        requires { CanJoin left right }
        ensures { result ≡ joined left right };

    ghost laws: { FoldLaws joined AtMost times };
}

/// The sum of whole numbers.
pub struct Sum;

impl Fold for Sum {
    ghost use Rattle.std.specs.Prelude.{◌+ℤ◌, ◌*ℤ◌, ◌≤ℤ◌, pos, FitsSigned};
    ghost use Rattle.std.specs.Int.{w64};
    ghost use Rattle.wsm_fold.specs.Lawful.{sum_laws};

    type Item = i64;

    ghost joined = { ◌+ℤ◌ };

    ghost CanJoin = { λ x y. FitsSigned w64 (x +ℤ y) };

    ghost AtMost = { ◌≤ℤ◌ };

    ghost times = { λ n x. pos n *ℤ x };

    ghost laws = { sum_laws };

    fn join(left: i64, right: i64) -> i64 {
        left + right
    }
}

/// The least of whole numbers.
pub struct Min;

impl Fold for Min {
    ghost use Rattle.std.specs.Prelude.{◌≤ℤ◌};
    ghost use Rattle.std.specs.Int.{int_min};
    ghost use Rattle.wsm_fold.specs.Lawful.{min_laws};

    type Item = i64;

    ghost joined = { int_min };

    ghost CanJoin = { λ _ _. Unit {0} };

    ghost AtMost = { ◌≤ℤ◌ };

    ghost times = { λ _ x. x };

    ghost laws = { min_laws };

    fn join(left: i64, right: i64) -> i64 {
        left.min(right)
    }
}

/// The greatest of whole numbers.
pub struct Max;

impl Fold for Max {
    ghost use Rattle.std.specs.Prelude.{◌≤ℤ◌};
    ghost use Rattle.std.specs.Int.{int_max};
    ghost use Rattle.wsm_fold.specs.Lawful.{max_laws};

    type Item = i64;

    ghost joined = { int_max };

    ghost CanJoin = { λ _ _. Unit {0} };

    ghost AtMost = { ◌≤ℤ◌ };

    ghost times = { λ _ x. x };

    ghost laws = { max_laws };

    fn join(left: i64, right: i64) -> i64 {
        left.max(right)
    }
}

/// Whether some truth of a bag is true.
pub struct Any;

impl Fold for Any {
    ghost use Rattle.std.specs.Prelude.{◌||◌};
    ghost use Rattle.wsm_fold.specs.Lawful.{Implies, any_laws};

    type Item = bool;

    ghost joined = { ◌||◌ };

    ghost CanJoin = { λ _ _. Unit {0} };

    ghost AtMost = { Implies };

    ghost times = { λ _ x. x };

    ghost laws = { any_laws };

    fn join(left: bool, right: bool) -> bool {
        left | right
    }
}

/// Whether all truths of a bag are true.
pub struct All;

impl Fold for All {
    ghost use Rattle.std.specs.Prelude.{◌&&◌};
    ghost use Rattle.wsm_fold.specs.Lawful.{Implies, all_laws};

    type Item = bool;

    ghost joined = { ◌&&◌ };

    ghost CanJoin = { λ _ _. Unit {0} };

    ghost AtMost = { Implies };

    ghost times = { λ _ x. x };

    ghost laws = { all_laws };

    fn join(left: bool, right: bool) -> bool {
        left & right
    }
}
