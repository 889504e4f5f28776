//! From a checked query to its program.

ghost use Rattle.std.specs.Prelude.{◌≡◌, IfOk, IsTrue};
ghost use Rattle.wsm_query.specs.Tree.{Query};
ghost use Rattle.wsm_check.specs.Parts.{parts_of};
ghost use Rattle.wsm_check.specs.Seen.{seen_parts};
ghost use Rattle.wsm_program.specs.Program.{is_budget};
ghost use Rattle.wsm_program.specs.declared.program.Costs.{Costs};
ghost use Rattle.wsm_rules.specs.Costs.{needed};
ghost use Rattle.wsm_compiler.specs.Program as spec;
ghost use Rattle.wsm_compiler.specs.Program.{assembled, program_of};

use crate::headers::header;
use crate::sections::{fire, selection, update};
use std::alloc::{AllocError, Global};
use wsm_check::Checked;
use wsm_program::{Costs, Program};
use wsm_query::Budget;
use wsm_verifier::Costed;

// What a program states until its need is known.
const LEAST: Costs = Costs {
    per_record: 1,
    per_pane: 1,
    held: 1,
};

/// The program of a checked query. Where the query has no BUDGET, the program states what it needs.
pub fn compile(alloc: Global, checked: Checked) -> Result<Program, AllocError>
    ensures { (q : Query) → seen_parts checked.parts ≡ parts_of q → IfOk result (λ p. p ≡ program_of q) }
{
    match checked.parts.budget {
        Some(clause) => program(alloc, checked, stated(clause)),
        None => {
            let (program, _need) = program_with_need(alloc, checked)?.into_parts();
            Ok(program)
        }
    }
}

/// The program of a checked query, as [`compile`] makes it, and what it needs: this is found once,
/// whether a BUDGET is stated or not.
pub fn compile_costed(alloc: Global, checked: Checked) -> Result<Costed, AllocError>
    ensures { (q : Query) → seen_parts checked.parts ≡ parts_of q → IfOk result (λ costed. costed ≡ program_of q) }
{
    match checked.parts.budget {
        Some(_) => Ok(Costed::of(alloc, compile(alloc, checked)?)?),
        None => program_with_need(alloc, checked),
    }
}

// The program that states what it needs.
fn program_with_need(alloc: Global, checked: Checked) -> Result<Costed, AllocError>
    requires { checked.parts.budget ≡ None }
    ensures { let parts = seen_parts checked.parts in IfOk result (λ costed. costed ≡ assembled parts (spec.stated (needed (assembled parts LEAST)) None)) }
{
    let program = program(alloc, checked, LEAST)?;
    Ok(Costed::of(alloc, program)?.stating_need())
}

// What a BUDGET clause states.
fn stated(clause: Budget) -> Costs
    ensures { (need : Costs) → result ≡ spec.stated need (Some clause) }
{
    Costs {
        per_record: clause.per_record.unsigned_abs(),
        per_pane: clause.per_pane.unsigned_abs(),
        held: clause.held.unsigned_abs(),
    }
}

// The program that states a budget.
fn program(alloc: Global, checked: Checked, budget: Costs) -> Result<Program, AllocError>
    requires { IsTrue (is_budget budget) }
    ensures { IfOk result (λ p. p ≡ assembled (seen_parts checked.parts) budget) }
{
    let parts = checked.parts;
    let selection = selection(alloc, &parts.condition)?;
    let update = update(alloc, &parts.foldings)?;
    let fire = fire(alloc, &parts.columns, &parts.having)?;
    let header = header(alloc, parts, budget)?;
    Ok(Program::of_parts(header, selection, update, fire))
}
