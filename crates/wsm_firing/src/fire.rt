//! One firing.

ghost use Rattle.std.specs.Prelude.{◌≡◌, ◌<◌, ◌≤◌, ◌++◌, IfSome, option_map, length};
ghost use Rattle.wsm_record.specs.declared.limits.TheConstants.{MAX_COLUMNS};
ghost use Rattle.wsm_panes.specs.Held.{IsHeldAt};
ghost use Rattle.wsm_firing.specs.Due.{row_written};
ghost use Rattle.wsm_firing.specs.Operator.{AreReady};
ghost use Rattle.wsm_firing.specs.Fires.{CanFireDue, FiresDue, HasRun};

use crate::operator::WindowState;
use crate::run::Ran;
use crate::tally::Tally;
use crate::turn_rows::TurnRows;
use wsm_panes::Spot;
use wsm_record::{Cell, Form};
use wsm_rules::Verified;
use wsm_windows::PaneKind;

/// A pane that fires.
#[derive(Clone, Copy)]
pub struct Due {
    /// Which firing of the window it is.
    pub kind: PaneKind,
    /// Where it is held.
    pub spot: Spot,
}

impl WindowState {
    /// Fires a pane that is held, on which FIRE came to what is told. Its columns stand for it, of which
    /// the streams are told, and are written where rows are those of panes.
    #[inline(always)]
    pub(crate) fn fire(&mut self, verified: &Verified, tally: &mut Tally, due: Due, ran: Ran<'_>)
        requires ready { AreReady verified.now self.old.held self.old.streams }
        requires held { IsHeldAt self.old.held due.spot }
        requires can { CanFireDue verified.now due self.old tally.old }
        requires run { HasRun verified.now self.old.held due (option_map (λ cells. cells.now) ran.row) ran.steps }
        requires as_wide { IfSome ran.row (λ cells. length cells.now ≡ length verified.now.header.columns) }
        requires few { IfSome ran.row (λ cells. length cells.now ≤ MAX_COLUMNS) }
        ensures { FiresDue verified.now due self.old self.new tally.old tally.new }
    {
        let header = verified.program().header();
        self.streams.lose_held(&self.held, due.spot);
        self.held.fire_at(due.spot, header.mode, ran.row);
        self.streams.gain(ran.row);
        tally.count(ran.steps);
        write(header.form, &mut self.rows, due, ran.row);
    }
}

// Writes the row of a firing, where HAVING is true and rows are those of panes.
fn write(form: Form, rows: &mut TurnRows, due: Due, row: Option<&[Cell]>)
    requires room { length rows.old.written < rows.old.room }
    requires few { IfSome row (λ cells. length cells.now ≤ MAX_COLUMNS) }
    ensures rows { rows.new.written ≡ rows.old.written ++ row_written form due (option_map (λ cells. cells.now) row.entry) }
    ensures room { rows.new.room ≡ rows.old.room }
{
    if let (Form::Panes, Some(cells)) = (form, row) {
        rows.push_pane(due, cells);
    }
}
