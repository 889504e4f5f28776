//! From the text of a query, or the bytes of a program, to a program that was judged.

ghost use Rattle.std.specs.Prelude.{◌≡◌, ◌⊎◌, false, Ok, Some, IfOk, IfErr};
ghost use Rattle.wsm_query.specs.Seen.{seen};
ghost use Rattle.wsm_query.specs.Tree.{Query as QueryTree};
ghost use Rattle.wsm_bytecode.specs.Spelling.{spelling};
ghost use Rattle.wsm_check.specs.Checks.{IsChecked, refusal};
ghost use Rattle.wsm_check.specs.Parts.{parts_of};
ghost use Rattle.wsm_check.specs.Seen.{seen_parts};
ghost use Rattle.wsm_rules.specs.Costs.{needed};
ghost use Rattle.wsm_rules.specs.Rules.{judge};
ghost use Rattle.wsm_compiler.specs.Program.{program_of};
ghost use Rattle.wsm_inputs.specs.Ends.{hides_memory};
ghost use Rattle.wsm_inputs.specs.Inputs.{judged, EndsBefore, IsAccepted};
ghost use Rattle.wsm_inputs.specs.Judged.{text_judged, bytes_judged, compiled, EndsBy, RejectsBy};

use crate::end::End;
use crate::input::Input;
use std::alloc::{AllocError, Global};
use wsm_bytecode::{Program, decode, encode};
use wsm_check::{CheckRefusal, Checked, check};
use wsm_compiler::{compile, compile_costed};
use wsm_query::{Query, parse};
use wsm_rules::Verified;
use wsm_verifier::{Costed, verify_costed};

/// The program of a query's text: the text is read, checked and compiled.
pub(crate) fn program_of_text(alloc: Global, text: &[u8]) -> Result<Program, End>
    ensures compiled { IfOk result (λ p. (q : QueryTree) × (text_judged text.now ≡ Ok q) × (p ≡ program_of q)) }
    ensures refused { IfErr result (EndsBy (text_judged text.now)) }
    ensures memory_apart { IfErr result (λ end. hides_memory end ≡ false) }
{
    let checked = checked_of_text(alloc, text)?;
    Ok(compile(alloc, checked)?)
}

/// The accepted program of an input.
///
/// # Errors
///
/// [`End::Refused`] where the text is no query or a check refuses it, or the bytes spell no program,
/// [`End::Rejected`] where the verifier refuses the program, and else [`End::Memory`].
pub fn accepted_of(alloc: Global, input: Input<'_>) -> Result<Verified, End>
    ensures accepted { IfOk result (λ verified. IsAccepted input.entry verified) }
    ensures unaccepted { IfErr result (EndsBefore input.entry) }
    ensures memory_apart { IfErr result (λ end. hides_memory end ≡ false) }
{
    let costed = costed_of(alloc, input)?;
    verified(alloc, costed)
}

/// The program of an input, with what it needs. It isn't verified.
///
/// # Errors
///
/// [`End::Refused`] where the text is no query or a check refuses it, or the bytes spell no program; else
/// [`End::Memory`].
pub fn costed_of(alloc: Global, input: Input<'_>) -> Result<Costed, End>
    ensures read { IfOk result (λ costed. judged input.entry ≡ Ok costed) }
    ensures refused { IfErr result (EndsBy (judged input.entry)) }
    ensures memory_apart { IfErr result (λ end. hides_memory end ≡ false) }
{
    match input {
        Input::Text(text) => costed_of_text(alloc, text),
        Input::Program(bytes) => costed_of_bytes(alloc, bytes),
    }
}

// The program of a query's text, with what it needs.
fn costed_of_text(alloc: Global, text: &[u8]) -> Result<Costed, End>
    ensures compiled { IfOk result (λ costed. compiled (text_judged text.now) ≡ Ok costed) }
    ensures refused { IfErr result (EndsBy (compiled (text_judged text.now))) }
    ensures memory_apart { IfErr result (λ end. hides_memory end ≡ false) }
{
    let checked = checked_of_text(alloc, text)?;
    Ok(compile_costed(alloc, checked)?)
}

// The query of a text, as a checked one.
fn checked_of_text(alloc: Global, text: &[u8]) -> Result<Checked, End>
    ensures checked { IfOk result (λ checked. (q : QueryTree) × (text_judged text.now ≡ Ok q) × (seen_parts checked.parts ≡ parts_of q)) }
    ensures refused { IfErr result (EndsBy (text_judged text.now)) }
    ensures memory_apart { IfErr result (λ end. hides_memory end ≡ false) }
{
    let query = parse(alloc, text)?;
    Ok(checked_of(alloc, query)?)
}

// The query as a checked one.
fn checked_of(alloc: Global, query: Query) -> Result<Checked, CheckRefusal>
    ensures checked { IfOk result (λ _. IsChecked (seen query)) }
    ensures parts { IfOk result (λ checked. seen_parts checked.parts ≡ parts_of (seen query)) }
    ensures refused { IfErr result (λ why. (why ≡ CheckRefusal.Memory) ⊎ (refusal (seen query) ≡ Some why)) }
{
    match check(alloc, query) {
        Ok(checked) => Ok(checked),
        Err((_, refusal)) => Err(refusal),
    }
}

/// The program that bytes spell.
pub(crate) fn program_of_bytes(alloc: Global, bytes: &[u8]) -> Result<Program, End>
    ensures read { IfOk result (λ p. bytes_judged bytes.now ≡ Ok p) }
    ensures refused { IfErr result (EndsBy (bytes_judged bytes.now)) }
    ensures memory_apart { IfErr result (λ end. hides_memory end ≡ false) }
{
    Ok(decode(alloc, bytes)?)
}

/// The bytes that spell a program, which is let go.
pub(crate) fn spelled(alloc: Global, program: Program) -> Result<Vec<u8>, AllocError>
    ensures { IfOk result (λ bytes. bytes.items ≡ spelling program) }
{
    encode(alloc, &program)
}

// The program that bytes spell, with what it needs.
fn costed_of_bytes(alloc: Global, bytes: &[u8]) -> Result<Costed, End>
    ensures read { IfOk result (λ costed. bytes_judged bytes.now ≡ Ok costed) }
    ensures refused { IfErr result (EndsBy (bytes_judged bytes.now)) }
    ensures memory_apart { IfErr result (λ end. hides_memory end ≡ false) }
{
    let program = program_of_bytes(alloc, bytes)?;
    Ok(Costed::of(alloc, program)?)
}

/// The program as an accepted one.
pub(crate) fn verified(alloc: Global, costed: Costed) -> Result<Verified, End>
    ensures kept { IfOk result (λ verified. verified ≡ costed) }
    ensures accepted { IfOk result (λ _. judge costed ≡ Ok (needed costed)) }
    ensures rejected { IfErr result (RejectsBy (judge costed)) }
    ensures memory_apart { IfErr result (λ end. hides_memory end ≡ false) }
{
    match verify_costed(alloc, costed) {
        Ok(verified) => Ok(verified),
        Err((_, rejection)) => Err(End::from(rejection)),
    }
}
