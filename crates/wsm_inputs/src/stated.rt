//! What an accepted program keeps to.

ghost use Rattle.std.specs.Prelude.{List};
ghost use Rattle.wsm_record.specs.Event.{Event};
ghost use Rattle.wsm_inputs.specs.Stated.{KeepsTo};

use wsm_engine::laws::{held_within, never_traps, spends_within};
use wsm_rules::Verified;

/// What an accepted program states holds of each event, behind each history: no section of it traps, and the panes that it holds and
/// the instructions that it takes are at most those that it states. The contract is the law; a call of it does nothing.
pub fn keeps_to_stated(verified: &Verified)
    ensures { (past : List Event) (e : Event) → KeepsTo verified.now past e }
{
    never_traps();
    held_within();
    spends_within();
    let _header = verified.program().header();
}
