//! A row of the table of instructions: what an instruction is, whatever its argument.

ghost use Rattle.std.specs.Prelude.{◌≡◌};
ghost use Rattle.wsm_program.specs.Rows as spec;

use crate::instr::SectionId;

/// What is known of an instruction by its opcode alone.
#[derive(Clone, Copy)]
pub(crate) struct Row {
    /// The byte that it begins with.
    pub(crate) code: u8,
    pub(crate) name: &'static str,
    pub(crate) stands: SectionSet,
    /// Whether its right operand must not be 0.
    pub(crate) divides: bool,
}

/// The sections where an instruction may stand.
#[derive(Clone, Copy)]
pub(crate) enum SectionSet {
    /// Each of them.
    All,
    /// Those that read a record.
    OfRecord,
    /// The update section.
    Update,
    /// The fire section.
    Fire,
}

impl SectionSet {
    /// Whether a section is one of them.
    pub(crate) fn has(self, section: SectionId) -> bool
        ensures { result ≡ spec.has self section }
    {
        match self {
            SectionSet::All => true,
            SectionSet::OfRecord => section != SectionId::Fire,
            SectionSet::Update => section == SectionId::Update,
            SectionSet::Fire => section == SectionId::Fire,
        }
    }
}
