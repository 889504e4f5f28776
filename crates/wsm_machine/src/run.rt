//! Runs of a section.

ghost use Rattle.std.specs.Prelude.{◌≡◌, ◌≤◌, ℕ, Some, length, slice_get, IsTrue};
ghost use Rattle.wsm_program.specs.declared.instr.Instr.{Instr};
ghost use Rattle.wsm_program.specs.Program.{section as section_of};
ghost use Rattle.wsm_machine.specs.Inputs.{inputs_of, inputs_fit};
ghost use Rattle.wsm_machine.specs.Run.{run, run_at, ended};
ghost use Rattle.wsm_machine.specs.Steps.{HasOperand, setting_of, at};

use crate::folds::Folds;
use crate::frame::{Flow, Frame, Setting};
use crate::inputs::Inputs;
use crate::outcome::{Outcome, Trap};
use crate::stack::Stack;
use std::alloc::Global;
use wsm_program::{Program, SectionId};

/// How a run ended, what it cost, and what it left. At a trap the stack and the folds are those that
/// the trapping instruction found.
#[derive(Drop)]
pub struct Ran {
    /// By a return, or by which trap.
    pub outcome: Outcome,
    /// How many instructions were executed, one that trapped among them.
    pub steps: u64,
    /// The values that were left, or the result of WHERE and FIRE.
    pub stack: Stack,
    /// What UPDATE folds into each accumulator.
    pub folds: Folds,
}

/// Runs a section of a program, whether or not the program is verified. The allocator is asked for
/// nothing.
pub fn run_any(alloc: Global, program: &Program, section: SectionId, inputs: &Inputs) -> Ran
    requires { IsTrue (inputs_fit program.now.header (inputs_of inputs.now)) }
    ensures runs { result ≡ run program.now section (inputs_of inputs.now) }
    ensures bounded { result.steps ≤ length (section_of program.now section) }
{
    let header = program.header();
    let setting = Setting {
        section,
        code: program.section(section),
        kinds: &header.kinds,
        columns: &header.columns,
        inputs,
    };
    let mut frame = Frame::open(alloc, header.kinds.len());
    let (outcome, steps) = frame.run(&setting);
    let Frame { stack, folds } = frame;
    Ran {
        outcome,
        steps,
        stack,
        folds,
    }
}

impl Frame {
    /// Executes instructions from the first place on, and answers how the run ends and after how many.
    pub fn run(&mut self, setting: &Setting) -> (Outcome, u64)
        requires operands { (p : ℕ) (i : Instr) → slice_get setting.now.code.now p ≡ Some i → HasOperand (setting_of setting.now) i }
        requires places { length self.old.folds ≡ length setting.now.kinds.now }
        ensures { run_at (setting_of setting.now) (at 0 self.old) ≡ ended result.0 result.1 (at 0 self.new) }
    {
        let code = setting.code;
        let mut place = 0;
        let mut steps = 0;
        while place < code.len() {
            steps += 1;
            match self.step(setting, place, code[place]) {
                Ok(Flow::Next) => place += 1,
                Ok(Flow::To(target)) => place = target,
                Ok(Flow::End) => return (Outcome::Done, steps),
                Err(trap) => return (Outcome::Trap(trap), steps),
            }
        }
        (Outcome::Trap(Trap::BadJump), steps)
    }
}
