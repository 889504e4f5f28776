//! The same of every accepted program. The contract of each function is the law; a call of it does nothing.

ghost use Rattle.std.specs.Prelude.{◌≡◌, ℕ, IsTrue};
ghost use Rattle.wsm_record.specs.declared.words.Mode.TheVariants.{Accumulating, Retracting};
ghost use Rattle.wsm_record.specs.declared.words.Form.TheVariants.{Panes};
ghost use Rattle.wsm_semantics.specs.Amounts.{Amount, AddsAmounts, AmountsAddUp};
ghost use Rattle.wsm_semantics.specs.Invoice.{Invoices};
ghost use Rattle.wsm_program.specs.Program.{Program, is_program};
ghost use Rattle.wsm_machine.specs.Meaning.{query_of};
ghost use Rattle.wsm_amounts.specs.LastRows.{WritesEach, LastRowsAddUp};
ghost use Rattle.wsm_amounts.specs.Rises.{RisesAlike};

/// Where panes retract what they showed, a column that adds up comes, over all pane rows of some windows less all retract
/// rows of them, to what the records of these windows come to, once the windows were dropped.
pub fn amounts_add_up()
    ensures { (p : Program) → IsTrue (is_program p) → p.header.mode ≡ Retracting → (c : ℕ) (amount : Amount) → AddsAmounts (query_of p) c amount →
        AmountsAddUp (query_of p) c amount }
{}

/// So where each record is delivered at least once and taken when it first comes, what is shown of a span of time less what is
/// withdrawn of it is what its records come to.
pub fn invoice()
    ensures { (p : Program) → IsTrue (is_program p) → p.header.mode ≡ Retracting → (c : ℕ) (amount : Amount) → AddsAmounts (query_of p) c amount →
        Invoices (query_of p) c amount }
{}

/// Where panes accumulate and don't merge, the last row of a window that was dropped has in a column that adds up what all of
/// its records come to, if HAVING is true of each firing.
pub fn last_rows()
    ensures { (p : Program) → IsTrue (is_program p) → p.header.mode ≡ Accumulating → p.header.form ≡ Panes → WritesEach (query_of p) →
        (c : ℕ) (amount : Amount) → AddsAmounts (query_of p) c amount → LastRowsAddUp (query_of p) c amount }
{}

/// A rise of the watermark in one step writes as many rows of panes, retract rows too, as in two with nothing between them.
pub fn rises_alike()
    ensures { (p : Program) → IsTrue (is_program p) → p.header.form ≡ Panes → RisesAlike (query_of p) }
{}
