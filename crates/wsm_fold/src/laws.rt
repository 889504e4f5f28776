//! What holds of every bag. The contract of each function is the law; a call of it does nothing.

ghost use Rattle.std.specs.Prelude.{◌≡◌, ℕ, ◌∷◌, List, Some, All, ℤ, ◌≤ℤ◌, length, map, slice_get, IsTrue, IsPermutation, IfSome};
ghost use Rattle.wsm_record.specs.declared.event.Value.{Value};
ghost use Rattle.wsm_record.specs.declared.event.Value.TheVariants.{Int};
ghost use Rattle.wsm_record.specs.declared.words.Kind.{Kind};
ghost use Rattle.wsm_fold.specs.Laws.{IsBetween};
ghost use Rattle.wsm_fold.specs.Fold.{fold_of, folds_of, are_of_kinds, column, folds_numbers, times, IsNumberBetween};

/// The folds of a bag don't depend on the order in which its rows are listed.
pub fn in_any_order()
    ensures { (kinds : List Kind) (xs ys : List (List Value)) → IsPermutation xs ys → folds_of kinds ys ≡ folds_of kinds xs }
{}

/// Each accumulator holds the fold of its own values: of the column of its place.
pub fn place_by_place()
    ensures { (kinds : List Kind) (rows : List (List Value)) (held : List Value)
        → All (λ row. IsTrue (are_of_kinds kinds row)) rows → folds_of kinds rows ≡ Some held
        → (a : ℕ) (kind : Kind) → slice_get kinds a ≡ Some kind → slice_get held a ≡ fold_of kind (column a rows) }
{}

/// Numbers within bounds have a fold within the bounds for as many: the bounds themselves for the
/// least and the greatest, the bounds times the number of values for the sum.
pub fn in_range()
    ensures { (kind : Kind) (lo hi : ℤ) (numbers : List ℤ) → IsTrue (folds_numbers kind) → All (IsBetween ◌≤ℤ◌ lo hi) numbers
        → IfSome (fold_of kind (map Int numbers)) (IsNumberBetween (times kind (length numbers) lo) (times kind (length numbers) hi)) }
{}
