//! The law of parts by key, of every accepted program.

ghost use Rattle.std.specs.Prelude.{◌≡◌, ℕ, List, IsTrue};
ghost use Rattle.wsm_record.specs.declared.words.Form.TheVariants.{Panes};
ghost use Rattle.wsm_program.specs.Program.{Program, is_program};
ghost use Rattle.wsm_machine.specs.Meaning.{query_of};
ghost use Rattle.wsm_key_parts.specs.Parts.{IgnoresKeys};
ghost use Rattle.wsm_part_programs.specs.Keyless.{IsKeyless};
ghost use Rattle.wsm_part_programs.specs.Names.{RunsPart, WritesNames};

/// A front and parts of a program that writes panes write line by line what its query over any names writes, where each part has as
/// many keys as the program declares. Where it reads no key, this program is what each part runs.
pub fn together()
    ensures lines { (p : Program) → IsTrue (is_program p) → p.header.form ≡ Panes → (names : List (List ℕ)) → WritesNames p names }
    ensures program { (p : Program) → IsKeyless p → (names : List (List ℕ)) (part : ℕ) → RunsPart p names part }
{}

/// A program that reads no key means a query that goes by none.
pub fn ignores_keys()
    ensures { (p : Program) → IsKeyless p → IgnoresKeys (query_of p) }
{}
