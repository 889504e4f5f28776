//! The sections of a program.

ghost use Rattle.std.specs.Prelude.{◌≡◌, ◌+◌, ◌≤◌, [], ◌∷◌, ◌++◌, length, map, option_map, IfOk, OnOk};
ghost use Rattle.wsm_check.specs.Seen.{seen_folding, seen_term};
ghost use Rattle.wsm_compiler.specs.TermCode.{ending_code, ending_size, firing_code, firing_size, foldings_code, foldings_size};

use crate::expressions::{add, push};
use std::alloc::{AllocError, Global};
use wsm_check::{Folding, Term};
use wsm_program::{Instr, Section};
use wsm_record::limits::{MAX_ACCUMULATORS, MAX_SECTION};

/// The section WHERE, which selects records.
pub fn selection(alloc: Global, condition: &Option<Term>) -> Result<Section, AllocError>
    requires { ending_size (option_map seen_term condition.now) ≤ MAX_SECTION }
    ensures { IfOk result (λ code. code.items ≡ ending_code 0 (option_map seen_term condition.now)) }
{
    let mut code = Vec::new(alloc);
    end_by(&mut code, condition)?;
    Ok(code)
}

/// The section UPDATE, which folds a record into each accumulator.
#[tactic(auto, using(crate::proofs::CodeParts::added))]
pub fn update(alloc: Global, foldings: &[Folding]) -> Result<Section, AllocError>
    requires size { foldings_size (map seen_folding foldings.now) ≤ MAX_SECTION }
    requires few { length foldings.now ≤ MAX_ACCUMULATORS }
    ensures { IfOk result (λ code. code.items ≡ foldings_code 0 0 (map seen_folding foldings.now)) }
{
    let mut code = Vec::new(alloc);
    for (number, folding) in foldings.iter().enumerate() {
        add(&mut code, &folding.operand)?;
        push(&mut code, Instr::Fold(number as u8))?;
    }
    push(&mut code, Instr::Return)?;
    Ok(code)
}

/// The section FIRE, which computes the columns of a pane, and whether they are a row.
#[tactic(auto, using(crate::proofs::CodeParts::added))]
pub fn fire(alloc: Global, columns: &[Term], having: &Option<Term>) -> Result<Section, AllocError>
    requires { firing_size (option_map seen_term having.now) (map seen_term columns.now) ≤ MAX_SECTION }
    ensures { IfOk result (λ code. code.items ≡ firing_code 0 (option_map seen_term having.now) (map seen_term columns.now)) }
{
    let mut code = Vec::new(alloc);
    for column in columns {
        add(&mut code, column)?;
    }
    end_by(&mut code, having)?;
    Ok(code)
}

// Adds a condition, which is true where there is none, and the end of the section.
#[tactic(auto, using(crate::proofs::CodeParts::added))]
fn end_by(code: &mut Section, condition: &Option<Term>) -> Result<(), AllocError>
    requires { length code.old.items + ending_size (option_map seen_term condition.now) ≤ MAX_SECTION }
    ensures { OnOk result (code.new.items ≡ code.old.items ++ ending_code (length code.old.items) (option_map seen_term condition.now)) }
{
    match condition {
        Some(term) => add(code, term)?,
        None => push(code, Instr::PushBool(true))?,
    }
    push(code, Instr::Return)
}
