//! A program with what it needs.

ghost use Rattle.std.specs.Prelude.{◌≡◌, IfOk, IfErr, IsTrue};
ghost use Rattle.wsm_program.specs.Program.{is_budget, stating};
ghost use Rattle.wsm_rules.specs.Costs.{needed as needed_by};

use crate::costs::needed;
use std::alloc::{AllocFailed, Global};
use std::marker::Model;
use wsm_program::{Costs, Program};

/// A program with the numbers that it needs, found once. A clause sees the program alone.
#[derive(Drop)]
pub struct Costed {
    program: Program,
    costs: Costs,
}

impl Model for Costed {
    ghost use Rattle.std.specs.Prelude.{◌≡◌};
    ghost use Rattle.wsm_program.specs.Program.{Program as ProgramValue};
    ghost use Rattle.wsm_rules.specs.Costs.{needed};

    ghost Value = { ProgramValue };

    ghost view = { λ a. a.program };

    ghost invariant = { λ a. a.costs ≡ needed a.program };
}

impl Costed {
    /// Finds what a program needs, also one that would be refused.
    ///
    /// # Errors
    ///
    /// There was no memory: the program is handed back.
    pub fn of(alloc: Global, program: Program) -> Result<Costed, AllocFailed<Program>>
        ensures kept { IfOk result (λ costed. costed ≡ program) }
        ensures handed_back { IfErr result (λ failed. failed.value ≡ program) }
    {
        match needed(alloc, &program) {
            Ok(costs) => Ok(Costed { program, costs }),
            Err(_) => Err(AllocFailed { value: program }),
        }
    }

    /// The same program, which states what it needs. It needs the same, whatever it states.
    pub fn stating_need(self) -> Costed
        requires { IsTrue (is_budget (needed_by self)) }
        ensures { result ≡ stating self (needed_by self) }
    {
        let (program, costs) = self.into_parts();
        Costed {
            program: program.stating(costs),
            costs,
        }
    }

    /// The program.
    pub fn program(&self) -> &Program
        ensures { result.now ≡ self.now }
    {
        &self.program
    }

    /// The program, and the numbers that it needs.
    pub fn into_parts(self) -> (Program, Costs)
        ensures program { result.0 ≡ self }
        ensures costs { result.1 ≡ needed_by self }
    {
        (self.program, self.costs)
    }
}
