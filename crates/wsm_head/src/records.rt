//! A program with another RECORDS.

ghost use Rattle.std.specs.Prelude.{◌≡◌, IfOk, IfSome};
ghost use Rattle.wsm_program.specs.Program.{Program as AnyProgram};
ghost use Rattle.wsm_head.specs.StandsFor.{program_with};

use std::alloc::{AllocError, Global};
use wsm_program::Program;
use wsm_rules::{Rejection, Rule, Verified};
use wsm_verifier::verify;

/// The program with so many RECORDS, verified anew; none where these are no number for a program, or more than the program was
/// verified with and it isn't accepted with them.
///
/// # Errors
///
/// Memory was refused.
pub fn with_records(
    alloc: Global,
    verified: Verified,
    records: i64,
) -> Result<Option<Verified>, AllocError>
    ensures { IfOk result (λ o. IfSome o (λ other. other ≡ program_with records verified)) }
{
    let (mut header, selection, update, fire) = verified.into_program().into_parts();
    header.clock.records = records;
    let Ok(program) = Program::new(header, selection, update, fire) else {
        return Ok(None);
    };
    match verify(alloc, program) {
        Ok(verified) => Ok(Some(verified)),
        Err((_, rejection)) => refused(rejection),
    }
}

// None, unless memory was refused.
fn refused(rejection: Rejection) -> Result<Option<Verified>, AllocError>
    ensures { (p : AnyProgram) → IfOk result (λ o. IfSome o (λ other. other ≡ p)) }
{
    match rejection.rule {
        Rule::Memory => Err(AllocError),
        _ => Ok(None),
    }
}
