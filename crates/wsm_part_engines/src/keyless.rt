//! Whether a program reads the key.

ghost use Rattle.std.specs.Prelude.{◌≡◌, ◌↔◌, true, IsTrue};
ghost use Rattle.wsm_part_programs.specs.Keyless.{reads_key as is_key, is_keyless as is_keyless_code, IsKeyless};

use wsm_program::{Instr, Program, SectionId};

/// Whether no section of a program reads the key.
pub fn is_keyless(program: &Program) -> bool
    ensures { IsTrue result ↔ IsKeyless program.now }
{
    reads_no_key(program.section(SectionId::Where))
        && reads_no_key(program.section(SectionId::Update))
        && reads_no_key(program.section(SectionId::Fire))
}

fn reads_no_key(code: &[Instr]) -> bool
    ensures { result ≡ is_keyless_code code.now }
{
    code.iter().all(|instruction| !reads_key(*instruction))
}

fn reads_key(instruction: Instr) -> bool
    ensures { result ≡ is_key instruction }
{
    match instruction {
        Instr::Key => true,
        _ => false,
    }
}
