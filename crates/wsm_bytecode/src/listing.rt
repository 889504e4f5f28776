//! The listing of a program: a line of text for each instruction.

ghost use Rattle.std.specs.Prelude.{◌≡◌, ◌++◌, IfOk, OnOk, string_bytes};
ghost use Rattle.wsm_bytecode.specs.Text.{text, section_text};

use std::alloc::{AllocError, Global};
use wsm_program::{Instr, Program, SectionId};

/// The lines of a program: section, place, name and operands in decimal, joined by one space.
///
/// Each line ends with a line feed. A section without instructions has no line.
#[tactic(auto, unfolding(crate::specs::Text::text))]
pub fn disassemble(alloc: Global, program: &Program) -> Result<String, AllocError>
    ensures { IfOk result (λ listing. string_bytes listing ≡ text program.now) }
{
    let mut listing = String::new(alloc);
    list_section(
        &mut listing,
        SectionId::Where,
        program.section(SectionId::Where),
    )?;
    list_section(
        &mut listing,
        SectionId::Update,
        program.section(SectionId::Update),
    )?;
    list_section(
        &mut listing,
        SectionId::Fire,
        program.section(SectionId::Fire),
    )?;
    Ok(listing)
}

fn list_section(listing: &mut String, id: SectionId, instrs: &[Instr]) -> Result<(), AllocError>
    ensures { OnOk result (string_bytes listing.new ≡ string_bytes listing.old ++ section_text id 0 instrs.now) }
{
    for (place, instr) in instrs.iter().enumerate() {
        write!(listing, "{id} {place} {instr}\n")?;
    }
    Ok(())
}
