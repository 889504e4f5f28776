//! Headers and programs.

ghost use Rattle.std.specs.Prelude.{◌≡◌, ◌≤◌, length, is_ok, IfOk, IfErr, IsTrue};
ghost use Rattle.wsm_record.specs.declared.limits.TheConstants.{MAX_SECTION};
ghost use Rattle.wsm_program.specs.Program.{section as section_of, is_budget, is_program, stating};
ghost use Rattle.wsm_program.specs.View.{header_of, program_of};

use crate::instr::{Instr, SectionId};
use crate::judging::is_lawful;
use crate::refusal::DecodeRefusal;
use std::marker::Model;
use wsm_admission::Clock;
use wsm_record::{CellType, Form, Kind, Mode, Schema};
use wsm_windows::Shape;

/// The instructions of a section, by their places.
pub type Section = Vec<Instr>;

/// What a program costs: the numbers that it states, or those that it needs.
#[derive(Clone, Copy, Debug, PartialEq, Eq)]
pub struct Costs {
    /// The most instructions for a record.
    pub per_record: u64,
    /// The most instructions for a pane that fires.
    pub per_pane: u64,
    /// The most panes that are held after a record.
    pub held: u64,
}

/// What a program declares before its sections. Times and spans are in units of event time.
pub struct Header {
    /// The keys and the fields of a record.
    pub schema: Schema,
    /// Its start is from 0 to 10^16, its skew and its lateness are from 0 to 10^12, and its records
    /// from 1 to 10^12.
    pub clock: Clock,
    /// How records are put into windows.
    pub shape: Shape,
    /// What a firing's columns are computed over.
    pub mode: Mode,
    /// How many unshown records make an early firing, from 1 to 10^12, or 0 where none does.
    pub early: i64,
    /// How many unshown records make a late firing, from 1 to 10^12, or 0 where none does.
    pub late: i64,
    /// What is written.
    pub form: Form,
    /// How each accumulator folds, of at most 16.
    pub kinds: Vec<Kind>,
    /// The types of the columns, 1 to 16 of them.
    pub columns: Vec<CellType>,
    /// What the program states of its cost: 1 to 10^18 instructions for a record and for a pane, and
    /// 1 to 100,000 panes.
    pub budget: Costs,
}

impl Drop for Header {
    fn drop(self) {
        let Header {
            schema: _,
            clock: _,
            shape: _,
            mode: _,
            early: _,
            late: _,
            form: _,
            kinds: _,
            columns: _,
            budget: _,
        } = self;
    }
}

/// A header and three sections. Their numbers lie in their ranges, and each operand names a field,
/// an accumulator or a name that there is. A jump's target may be any number.
pub struct Program {
    header: Header,
    selection: Section,
    update: Section,
    fire: Section,
}

impl Drop for Program {
    fn drop(self) {
        let Program {
            header: _,
            selection: _,
            update: _,
            fire: _,
        } = self;
    }
}

impl Model for Program {
    ghost use Rattle.std.specs.Prelude.{IsTrue};
    ghost use Rattle.wsm_program.specs.Program.{Program as ProgramValue, is_program};

    ghost Value = { ProgramValue };

    ghost use Rattle.wsm_program.specs.View.{program_of};

    ghost view = { λ a. program_of a.header a.selection.items a.update.items a.fire.items };

    ghost invariant = { λ a. IsTrue (is_program (program_of a.header a.selection.items a.update.items a.fire.items)) };
}

impl Program {
    /// Puts a program together, or refuses its parts by [`DecodeRefusal::Operand`], where reading
    /// its bytes would. It takes no memory.
    pub fn new(
        header: Header,
        selection: Section,
        update: Section,
        fire: Section,
    ) -> Result<Program, DecodeRefusal>
        ensures made { IfOk result (λ p. p ≡ program_of header selection.items update.items fire.items) }
        ensures lawful { is_ok result ≡ is_program (program_of header selection.items update.items fire.items) }
        ensures refused { IfErr result (λ refusal. refusal ≡ DecodeRefusal.Operand) }
    {
        if !is_lawful(&header, &selection, &update, &fire) {
            return Err(DecodeRefusal::Operand);
        }
        Ok(Program::of_parts(header, selection, update, fire))
    }

    /// Puts a program together of parts that were judged.
    pub fn of_parts(header: Header, selection: Section, update: Section, fire: Section) -> Program
        requires { IsTrue (is_program (program_of header selection.items update.items fire.items)) }
        ensures { result ≡ program_of header selection.items update.items fire.items }
    {
        Program {
            header,
            selection,
            update,
            fire,
        }
    }

    /// The same program, which states another budget. It takes no memory.
    pub fn stating(self, budget: Costs) -> Program
        requires { IsTrue (is_budget budget) }
        ensures { result ≡ stating self budget }
    {
        let Program {
            mut header,
            selection,
            update,
            fire,
        } = self;
        header.budget = budget;
        Program::of_parts(header, selection, update, fire)
    }

    /// Its header and its sections, in their order, of which another program may be put together.
    pub fn into_parts(self) -> (Header, Section, Section, Section)
        ensures { program_of result.0 result.1.items result.2.items result.3.items ≡ self }
    {
        let Program {
            header,
            selection,
            update,
            fire,
        } = self;
        (header, selection, update, fire)
    }

    /// What the program declares.
    pub fn header(&self) -> &Header
        ensures header { header_of result.now ≡ self.now.header }
        ensures lawful { IsTrue (is_program self.now) }
    {
        &self.header
    }

    /// The instructions of a section.
    pub fn section(&self, id: SectionId) -> &[Instr]
        ensures instructions { result.now ≡ section_of self.now id }
        ensures most { length result.now ≤ MAX_SECTION }
        ensures lawful { IsTrue (is_program self.now) }
    {
        match id {
            SectionId::Where => &self.selection,
            SectionId::Update => &self.update,
            SectionId::Fire => &self.fire,
        }
    }
}
