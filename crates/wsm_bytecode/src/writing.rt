//! From a program to its bytes.

ghost use Rattle.std.specs.Prelude.{◌≡◌, IfOk};
ghost use Rattle.wsm_bytecode.specs.Spelling.{spelling};

use crate::limits::MAGIC;
use crate::version::WRITTEN_VERSION;
use crate::writing::code::put_section;
use crate::writing::header::put_header;
use crate::writing::numbers::put_u8;
use std::alloc::{AllocError, Global};
use wsm_program::{Program, SectionId};

mod code;
mod header;
mod numbers;
mod schema;
mod version2;

/// The spelling of a program in version 2.
#[tactic(auto, unfolding(crate::specs::Spelling::spelling, crate::specs::Spelling::spelling_in))]
pub fn encode(alloc: Global, program: &Program) -> Result<Vec<u8>, AllocError>
    ensures { IfOk result (λ bytes. bytes.items ≡ spelling program.now) }
{
    let mut out = Vec::new(alloc);
    out.extend_from_slice(MAGIC)?;
    put_u8(&mut out, WRITTEN_VERSION.number())?;
    put_header(&mut out, program.header())?;
    put_section(&mut out, program.section(SectionId::Where))?;
    put_section(&mut out, program.section(SectionId::Update))?;
    put_section(&mut out, program.section(SectionId::Fire))?;
    Ok(out)
}
