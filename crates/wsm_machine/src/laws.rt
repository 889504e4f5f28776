//! What holds of every verified program. The contract of each function is the law; a call of it does
//! nothing.

ghost use Rattle.std.specs.Prelude.{◌≡◌, ◌≤◌, ◌+◌, ℕ, List, Some, Ok, pos, ◌≤ℤ◌, length, IsTrue};
ghost use Rattle.std.specs.List.{list_all};
ghost use Rattle.wsm_record.specs.declared.event.Value.{Value};
ghost use Rattle.wsm_fold.specs.Accumulators.{SumsFit};
ghost use Rattle.wsm_fold.specs.Fold.{folds_of};
ghost use Rattle.wsm_program.specs.declared.instr.SectionId.{SectionId};
ghost use Rattle.wsm_program.specs.Program.{Program, section, is_program};
ghost use Rattle.wsm_program.specs.declared.program.Costs.{Costs};
ghost use Rattle.wsm_rules.specs.Costs.{longest_path};
ghost use Rattle.wsm_rules.specs.Rules.{judge};
ghost use Rattle.wsm_machine.specs.declared.outcome.Outcome.TheVariants.{Done};
ghost use Rattle.wsm_machine.specs.Inputs.{Inputs};
ghost use Rattle.wsm_machine.specs.InRange.{in_range, are_folded_in, accs_in};
ghost use Rattle.wsm_machine.specs.Run.{run};

/// On inputs in range a section meets no trap, and executes at most as many instructions as its
/// longest path has.
pub fn runs_end()
    ensures done { (p : Program) (costs : Costs) (id : SectionId) (inputs : Inputs) → judge p ≡ Ok costs → IsTrue (is_program p) → IsTrue (in_range p id inputs)
        → (run p id inputs).outcome ≡ Done }
    ensures steps { (p : Program) (costs : Costs) (id : SectionId) (inputs : Inputs) → judge p ≡ Ok costs → IsTrue (is_program p) →
        IsTrue (in_range p id inputs)
        → (run p id inputs).steps ≤ longest_path (section p id) }
{}

/// Two bags of rows that UPDATE folded are joined in 64 bits, where they have together at most as
/// many rows as the program allows.
pub fn sums_fit()
    ensures { (p : Program) (costs : Costs) (rows more : List (List Value)) (held new : List Value) → judge p ≡ Ok costs
        → IsTrue (list_all (are_folded_in p) rows) → IsTrue (list_all (are_folded_in p) more) → pos (length rows + length more) ≤ℤ p.header.clock.records
        → folds_of p.header.kinds rows ≡ Some held → folds_of p.header.kinds more ≡ Some new → SumsFit p.header.kinds held new }
{}

/// What accumulators hold of rows that UPDATE folded is in the range that FIRE reads, where there
/// are at most as many rows as the program allows: in 64 bits, too.
pub fn held_in_range()
    ensures { (p : Program) (costs : Costs) (rows : List (List Value)) (held : List Value) → judge p ≡ Ok costs → IsTrue (is_program p)
        → IsTrue (list_all (are_folded_in p) rows) → pos (length rows) ≤ℤ p.header.clock.records → folds_of p.header.kinds rows ≡ Some held → IsTrue (accs_in p 0 p.header.kinds held) }
{}
