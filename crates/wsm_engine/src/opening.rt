//! Reserving the room of a program's panes, rows and streams.

ghost use Rattle.std.specs.Prelude.{◌≡◌, [], IfOk};
ghost use Rattle.wsm_program.specs.View.{header_of};
ghost use Rattle.wsm_panes.specs.Held.{entries_of};
ghost use Rattle.wsm_engine.specs.Operator.{IsOf, last_relation, widths_of};

use std::alloc::{AllocError, Global};
use wsm_firing::{Streams, TurnRows, WindowOperator, WindowState};
use wsm_machine::Machine;
use wsm_panes::{HeldPanes, Widths};
use wsm_program::Header;
use wsm_rules::Verified;
use wsm_windows::live_bound;

/// The window operator of a program, with all room reserved.
///
/// # Errors
///
/// Where there is no memory for the room.
pub fn open_operator(alloc: Global, verified: &Verified) -> Result<WindowOperator, AllocError>
    ensures program { IfOk result (IsOf verified.now) }
    ensures panes { IfOk result (λ o. entries_of o.state.held ≡ []) }
    ensures relation { IfOk result (λ o. last_relation o.state.streams (entries_of o.state.held) ≡ []) }
    ensures rows { IfOk result (λ o. o.state.rows.written ≡ []) }
{
    let header = verified.program().header();
    let keys = header.schema.key_count();
    let live = live_bound(header.shape, header.clock.skew, header.clock.lateness) as usize;
    let room = keys * live;
    let state = WindowState {
        held: HeldPanes::open(alloc, keys, header.shape, live, widths(header))?,
        streams: Streams::open(alloc, header.form, room)?,
        rows: TurnRows::open(alloc, header.mode, room)?,
    };
    Ok(WindowOperator {
        machine: Machine::open(alloc),
        state,
    })
}

// How wide the panes of a program are.
fn widths(header: &Header) -> Widths
    ensures { result ≡ widths_of (header_of header.now) }
{
    Widths {
        accumulators: header.kinds.len(),
        columns: header.columns.len(),
        windows: header.mode.retracts(),
    }
}
