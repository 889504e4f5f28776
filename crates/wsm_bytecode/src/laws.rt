//! What holds of the spellings of every program. The contract of each function is the law; a call of
//! it does nothing.

ghost use Rattle.std.specs.Prelude.{◌≡◌, List, ℕ, IsTrue, Ok};
ghost use Rattle.wsm_program.specs.Program.{Program, is_program};
ghost use Rattle.wsm_bytecode.specs.declared.version.Version.TheVariants.{One};
ghost use Rattle.wsm_bytecode.specs.Spelling.{spelling, spelling_in, spells, IsSpelling};
ghost use Rattle.wsm_bytecode.specs.Reading.{decode};

/// What is written of a program is read as that program, and so is the spelling that it has in
/// version 1 where it has no test of a field.
pub fn spellings_are_read()
    ensures written { (p : Program) → IsTrue (is_program p) → decode (spelling p) ≡ Ok p }
    ensures first { (p : Program) → IsTrue (is_program p) → IsTrue (spells One p) → decode (spelling_in One p) ≡ Ok p }
{}

/// Bytes spell one program, whichever version they name.
pub fn bytes_spell_one_program()
    ensures { (p q : Program) (bytes : List ℕ) → IsTrue (is_program p) → IsTrue (is_program q) → IsSpelling p bytes → IsSpelling q bytes → p ≡ q }
{}
