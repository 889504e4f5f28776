//! Migrating the bytes of a program to the version that is written.

ghost use Rattle.std.specs.Prelude.{◌≡◌, false, Ok, IfOk, IfErr};
ghost use Rattle.wsm_program.specs.Program.{Program};
ghost use Rattle.wsm_bytecode.specs.Spelling.{spelling};
ghost use Rattle.wsm_inputs.specs.Ends.{hides_memory};
ghost use Rattle.wsm_inputs.specs.Judged.{bytes_judged, EndsBy};

use crate::end::End;
use crate::inputs::{program_of_bytes, spelled};
use std::alloc::Global;

/// The bytes of the same program in the version that is written. It isn't verified: the program is
/// what it was, and so are its acceptance, its costs and its answers.
///
/// # Errors
///
/// [`End::Refused`] with the first fault of the bytes from the left; else [`End::Memory`].
pub fn migrate(alloc: Global, bytes: &[u8]) -> Result<Vec<u8>, End>
    ensures migrated { IfOk result (λ newest. (p : Program) × (bytes_judged bytes.now ≡ Ok p) × (newest.items ≡ spelling p)) }
    ensures refused { IfErr result (EndsBy (bytes_judged bytes.now)) }
    ensures memory_apart { IfErr result (λ end. hides_memory end ≡ false) }
{
    let program = program_of_bytes(alloc, bytes)?;
    Ok(spelled(alloc, program)?)
}
