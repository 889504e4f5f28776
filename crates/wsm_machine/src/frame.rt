//! The state of a run, and what each instruction does with it.

ghost use Rattle.std.specs.Prelude.{◌≡◌, ◌≤◌, ◌∷◌, [], Some, None, true, length, drop, replicate, ℤ, FitsSigned, MatchResult};
ghost use Rattle.std.specs.Option.{SomeIff};
ghost use Rattle.std.specs.Int.{w64};
ghost use Rattle.wsm_record.specs.declared.words.CellType.TheVariants as types;
ghost use Rattle.wsm_record.specs.declared.cell.Cell.TheVariants as cells;
ghost use Rattle.wsm_record.specs.declared.limits.TheConstants.{MAX_ACCUMULATORS};
ghost use Rattle.wsm_program.specs.declared.operands.Operands.TheVariants.{Numbers, One, Alike};
ghost use Rattle.wsm_machine.specs.Step.{has_types};
ghost use Rattle.wsm_machine.specs.Steps.{operand_trap, Answers, AnswersNumber};

use crate::folds::Folds;
use crate::inputs::Inputs;
use crate::outcome::Trap;
use crate::stack::Stack;
use std::alloc::Global;
use wsm_program::{CellType, Instr, SectionId};
use wsm_record::limits::MAX_STACK;
use wsm_record::{Cell, Kind};

/// The section that runs, what it needs of the header, and what it reads.
#[derive(Clone, Copy)]
pub struct Setting<'a> {
    pub section: SectionId,
    pub code: &'a [Instr],
    pub kinds: &'a [Kind],
    pub columns: &'a [CellType],
    pub inputs: &'a Inputs<'a>,
}

/// Where a run goes after an instruction.
#[derive(Clone, Copy)]
pub enum Flow {
    /// To the next place.
    Next,
    /// To a later place.
    To(usize),
    /// To the end, by a return.
    End,
}

/// What a run has on its stack and has folded.
#[derive(Drop)]
pub struct Frame {
    pub stack: Stack,
    pub folds: Folds,
}

impl Frame {
    /// A run over so many accumulators, before its first instruction.
    pub fn open(alloc: Global, accumulators: usize) -> Self
        requires { accumulators ≤ MAX_ACCUMULATORS }
        ensures { result ≡ record { stack = []; folds = replicate accumulators None } }
    {
        Frame {
            stack: Stack::open(alloc),
            folds: Folds::open(accumulators),
        }
    }

    /// The two numbers on top, the left operand first.
    pub fn numbers(&self) -> Result<(i64, i64), Trap>
        ensures { MatchResult result
            (λ xy. self.now.stack ≡ cells.Int xy.1 ∷ cells.Int xy.0 ∷ drop 2 self.now.stack)
            (λ t. operand_trap Numbers self.now.stack ≡ Some t) }
    {
        match self.stack.top_two() {
            None => Err(Trap::Underflow),
            Some((Cell::Int(y), Cell::Int(x))) => Ok((x, y)),
            Some(_) => Err(Trap::WrongType),
        }
    }

    /// The number on top.
    pub fn number(&self) -> Result<i64, Trap>
        ensures { MatchResult result
            (λ x. self.now.stack ≡ cells.Int x ∷ drop 1 self.now.stack)
            (λ t. operand_trap (One types.Int) self.now.stack ≡ Some t) }
    {
        match self.stack.top() {
            None => Err(Trap::Underflow),
            Some(Cell::Int(x)) => Ok(x),
            Some(_) => Err(Trap::WrongType),
        }
    }

    /// The truth on top.
    pub fn truth(&self) -> Result<bool, Trap>
        ensures { MatchResult result
            (λ b. self.now.stack ≡ cells.Bool b ∷ drop 1 self.now.stack)
            (λ t. operand_trap (One types.Bool) self.now.stack ≡ Some t) }
    {
        match self.stack.top() {
            None => Err(Trap::Underflow),
            Some(Cell::Bool(b)) => Ok(b),
            Some(_) => Err(Trap::WrongType),
        }
    }

    /// The two values of one type on top, the left operand first.
    pub fn alike(&self) -> Result<(Cell, Cell), Trap>
        ensures { MatchResult result
            (λ xy. (self.now.stack ≡ xy.1 ∷ xy.0 ∷ drop 2 self.now.stack) × (has_types Alike self.now.stack ≡ true))
            (λ t. operand_trap Alike self.now.stack ≡ Some t) }
    {
        match self.stack.top_two() {
            None => Err(Trap::Underflow),
            Some((y, x)) if x.ty() == y.ty() => Ok((x, y)),
            Some(_) => Err(Trap::WrongType),
        }
    }

    /// Puts a value in the place of so many operands. Traps `StackFull`.
    pub fn answer(&mut self, popped: usize, cell: Cell) -> Result<Flow, Trap>
        requires { popped ≤ length self.old.stack }
        ensures { Answers popped cell self.old result self.new }
    {
        if self.stack.len() - popped == MAX_STACK {
            return Err(Trap::StackFull);
        }
        self.stack.replace(popped, cell);
        Ok(Flow::Next)
    }

    /// Puts a number in the place of so many operands. Traps `IntOverflow` where it has none, and
    /// `StackFull`.
    pub fn answer_number(&mut self, popped: usize, number: Option<i64>) -> Result<Flow, Trap>
        requires { popped ≤ length self.old.stack }
        ensures { (z : ℤ) → SomeIff number (FitsSigned w64 z) z → AnswersNumber popped z self.old result self.new }
    {
        match number {
            Some(n) => self.answer(popped, Cell::Int(n)),
            None => Err(Trap::IntOverflow),
        }
    }
}
