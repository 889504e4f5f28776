//! FIRE run on a pane.

ghost use Rattle.std.specs.Prelude.{◌≡◌, ◌≤◌, None, Some, if◌then◌else◌, length, option_map, IfSome};
ghost use Rattle.wsm_record.specs.declared.limits.TheConstants.{MAX_COLUMNS};
ghost use Rattle.wsm_machine.specs.Sound.{MayFire};
ghost use Rattle.wsm_firing.specs.Due.{fired_by};
ghost use Rattle.wsm_firing.specs.Fires.{IsRun};

use crate::fire::Due;
use wsm_machine::{Inputs, Machine};
use wsm_panes::PaneView;
use wsm_record::Cell;
use wsm_rules::Verified;
use wsm_triggers::computed_over;

/// What FIRE comes to on a pane.
#[derive(Clone, Copy)]
pub struct Ran<'a> {
    /// The cells of its row, where they lie, if HAVING is true.
    pub row: Option<&'a [Cell]>,
    /// How many instructions were executed.
    pub steps: u64,
}

/// Runs FIRE on a pane that fires. Its row lies in the machine until that runs again.
#[inline(always)]
pub fn run<'a>(
    verified: &Verified,
    machine: &'a mut Machine,
    due: Due,
    pane: &PaneView<'_>,
) -> Ran<'a>
    requires { MayFire verified.now (fired_by verified.now.header.mode due pane.now) }
    ensures ran { IsRun verified.now due pane.now (option_map (λ cells. cells.now) result.row) result.steps }
    ensures wide { IfSome result.row (λ cells. length cells.now ≡ length verified.now.header.columns) }
    ensures few { IfSome result.row (λ cells. length cells.now ≤ MAX_COLUMNS) }
{
    let header = verified.program().header();
    let inputs = Inputs {
        key: due.spot.place.key,
        values: &[],
        count: computed_over(header.mode, pane.count(), pane.unshown()) as i64,
        accs: pane.folded().unwrap(),
    };
    let fired = machine.fire(verified, &inputs);
    Ran {
        row: written(fired.emits, fired.columns),
        steps: fired.steps,
    }
}

// The cells of a row, if it is written.
fn written(emits: bool, cells: &[Cell]) -> Option<&[Cell]>
    ensures { option_map (λ cells. cells.now) result ≡ (if emits then Some cells.now else None) }
{
    if emits { Some(cells) } else { None }
}
