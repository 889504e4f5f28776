//! What holds of the program of every checked query. The contract of each function is the law; a
//! call of it does nothing.

ghost use Rattle.std.specs.Prelude.{ℕ, List};
ghost use Rattle.wsm_record.specs.declared.event.Value.{Value};
ghost use Rattle.wsm_query.specs.Tree.{Query, Expr};
ghost use Rattle.wsm_check.specs.Terms.{Term};
ghost use Rattle.wsm_compiler.specs.Amounts.{ColumnsAddUp, TextsAddUp};
ghost use Rattle.wsm_compiler.specs.Accepted.{AcceptedExactly, AcceptedWithoutBudget, FaultlessExactly};
ghost use Rattle.wsm_compiler.specs.Folded.{FireMeans, FoldsHold, MeansTheSame};
ghost use Rattle.wsm_compiler.specs.Labelled.{LabelsAreRanges};
ghost use Rattle.wsm_compiler.specs.Lawful.{IsLawful, ParsedIsSpelt};
ghost use Rattle.wsm_compiler.specs.Longest.{NeededByStructure, NotLonger};
ghost use Rattle.wsm_compiler.specs.SameLines.{SameLines, TextMeans};
ghost use Rattle.wsm_compiler.specs.SameMeaning.{StandsForMeant, TotalOnPanes, TotalOnRecords, UpdatesHold};
ghost use Rattle.wsm_compiler.specs.Sections.{FireRuns, UpdateRuns, WhereRuns};
ghost use Rattle.wsm_compiler.specs.Sized.{SizesAreLengths};

/// The program is accepted exactly where the query's ranges fit and it states enough; its sections
/// have no fault exactly where they fit. One without BUDGET states what it needs.
pub fn accepted_exactly()
    ensures sections { (q : Query) → FaultlessExactly q }
    ensures program { (q : Query) → AcceptedExactly q }
    ensures without_budget { (q : Query) → AcceptedWithoutBudget q }
{}

/// Behind each column of a query whose ranges fit the verifier knows the column's range, on those of
/// the columns before it.
pub fn labels_are_ranges()
    ensures { (q : Query) → LabelsAreRanges q }
{}

/// What the program needs is found by the structure of the query's terms; tests that jumps make are
/// no longer than others.
pub fn needed_by_structure()
    ensures needed { (q : Query) → NeededByStructure q }
    ensures tests { (t : Term) → NotLonger t }
{}

/// The instructions of each section are as many as the checks count.
pub fn sizes_are_lengths()
    ensures { (q : Query) → SizesAreLengths q }
{}

/// A run of each section ends with what the query's expressions mean, where every number that they
/// meet has 64 bits, or traps at such a number or at a zero divisor.
pub fn sections_run()
    ensures selection { (q : Query) → WhereRuns q }
    ensures update { (q : Query) → UpdateRuns q }
    ensures fire { (q : Query) → FireRuns q }
{}

/// Where each accumulator holds what its aggregate means on a key's records, an expression means
/// the same on the accumulators as on the records, and so a run of FIRE ends with what the columns
/// and HAVING mean on the records.
pub fn means_the_same()
    ensures fire { (q : Query) → FireMeans q }
    ensures expressions { (q : Query) (key : ℕ) (records : List (List Value)) (accs : List Value) (a : ℕ) (e : Expr) → MeansTheSame q key records accs a e }
{}

/// What reading program bytes asks holds of the program, where the query's names are names and its
/// numbers have 64 bits: so they are and have in each query that is read of a text.
pub fn is_lawful()
    ensures program { (q : Query) → IsLawful q }
    ensures text { (text : List ℕ) (q : Query) → ParsedIsSpelt text q }
{}

/// The folds of what UPDATE gives of a key's records are what each aggregate means on them.
pub fn folds_hold()
    ensures values { (q : Query) → FoldsHold q }
    ensures runs { (q : Query) → UpdatesHold q }
{}

/// Of an accepted query each expression has a value on records and panes in range, and meets only
/// numbers of 64 bits.
pub fn total_in_range()
    ensures records { (q : Query) → TotalOnRecords q }
    ensures panes { (q : Query) → TotalOnPanes q }
{}

/// The query that an accepted program stands for is the one that its text means.
pub fn stands_for_meant()
    ensures { (q : Query) → StandsForMeant q }
{}

/// For every input the lines by an accepted program are those that the text means.
pub fn same_lines()
    ensures query { (q : Query) → SameLines q }
    ensures text { (text : List ℕ) (q : Query) → TextMeans text q }
{}

/// Without HAVING a column that is COUNT(*) or a SUM has over each firing what the records that it is computed over come to
/// together: one for each, or what the sum is taken of. So the laws of amounts and of the invoice hold of each text whose panes
/// discard, for these columns.
pub fn columns_add_up()
    ensures columns { (q : Query) → ColumnsAddUp q }
    ensures text { (text : List ℕ) (q : Query) → TextsAddUp text q }
{}
