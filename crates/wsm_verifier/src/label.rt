//! What a place of a section is known to have.

ghost use Rattle.std.specs.Prelude.{◌≡◌, ℕ, cond, option_map, Some, IfOk, IfErr};
ghost use Rattle.wsm_program.specs.declared.Instr.{Instr};
ghost use Rattle.wsm_rules.specs.Labels.{Unreached, Differing, Reached, agree, hull_states, label_with};
ghost use Rattle.wsm_rules.specs.Rules.{Setting, fault_of};
ghost use Rattle.wsm_verifier.specs.Places.{state_in};
ghost use Rattle.wsm_verifier.specs.Turning.{label_kept};

use crate::state::State;
use std::marker::Model;
use std::mem;
use wsm_rules::Rule;

/// What a place is known to have: the hull of all that its edges carry.
#[derive(Drop)]
pub(crate) struct Label {
    kept: Kept,
}

#[derive(Drop)]
enum Kept {
    // No edge leads there.
    Unreached,
    // Its edges differ in height, types or folded accumulators.
    Differing,
    Reached(State),
}

impl Model for Label {
    ghost use Rattle.wsm_rules.specs.Labels.{Label as LabelValue};

    ghost Value = { LabelValue };

    ghost use Rattle.wsm_verifier.specs.Turning.{label_kept};

    ghost view = { λ a. label_kept a.kept };
}

impl Label {
    /// That of a place to which no edge leads.
    pub(crate) fn unreached() -> Label
        ensures { result ≡ Unreached }
    {
        Label {
            kept: Kept::Unreached,
        }
    }

    /// Joins what an edge carries. A state that differs from the one that is known leaves nothing.
    pub(crate) fn join(&mut self, state: State)
        ensures { self.new ≡ label_with state self.old }
    {
        self.kept = match mem::replace(&mut self.kept, Kept::Differing) {
            Kept::Unreached => Kept::Reached(state),
            Kept::Differing => Kept::Differing,
            Kept::Reached(known) => joined(state, &known),
        };
    }

    /// The state that is known, where there is one.
    pub(crate) fn state(&self) -> Option<&State>
        ensures { option_map (λ s. s.now) result ≡ state_in self.now }
    {
        match &self.kept {
            Kept::Unreached | Kept::Differing => None,
            Kept::Reached(state) => Some(state),
        }
    }

    /// The state that is known, or the rule that holds where there is none.
    pub(crate) fn into_state(self) -> Result<State, Rule>
        ensures state { IfOk result (λ state. self ≡ Reached state) }
        ensures fault { IfErr result (λ rule. (c : Setting) (p : ℕ) (i : Instr) → fault_of c p i self ≡ Some rule) }
    {
        match self.kept {
            Kept::Unreached => Err(Rule::Unreachable),
            Kept::Differing => Err(Rule::Join),
            Kept::Reached(state) => Ok(state),
        }
    }
}

// The hull of two states that agree.
fn joined(mut state: State, known: &State) -> Kept
    ensures { label_kept result ≡ cond (agree state known.now) (Reached (hull_states state known.now)) Differing }
{
    if !state.agrees(known) {
        return Kept::Differing;
    }
    state.widen(known);
    Kept::Reached(state)
}
