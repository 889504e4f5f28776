//! Compiling the text of a query.

ghost use Rattle.std.specs.Prelude.{◌≡◌, false, Ok, IfOk, IfErr};
ghost use Rattle.wsm_query.specs.Tree.{Query};
ghost use Rattle.wsm_bytecode.specs.Spelling.{spelling};
ghost use Rattle.wsm_compiler.specs.Program.{program_of};
ghost use Rattle.wsm_inputs.specs.Ends.{hides_memory};
ghost use Rattle.wsm_inputs.specs.Judged.{text_judged, EndsBy};

use crate::end::End;
use crate::inputs::{program_of_text, spelled};
use std::alloc::Global;

/// The bytes of the program of a query's text. It isn't verified.
///
/// # Errors
///
/// [`End::Refused`] with the first fault of the text, or the first check that refuses its query;
/// else [`End::Memory`].
pub fn compile_text(alloc: Global, text: &[u8]) -> Result<Vec<u8>, End>
    ensures compiled { IfOk result (λ bytes. (q : Query) × (text_judged text.now ≡ Ok q) × (bytes.items ≡ spelling (program_of q))) }
    ensures refused { IfErr result (EndsBy (text_judged text.now)) }
    ensures memory_apart { IfErr result (λ end. hides_memory end ≡ false) }
{
    let program = program_of_text(alloc, text)?;
    Ok(spelled(alloc, program)?)
}
