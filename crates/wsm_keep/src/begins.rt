//! Where the windows begin of rows that were written.

ghost use Rattle.std.specs.Prelude.{◌≡◌, ◌++◌, ◌∷◌, [], filter, OnOk};
ghost use Rattle.wsm_keep.specs.Begins as spec;
ghost use Rattle.wsm_keep.specs.Begins.{begins_beyond, begins_of};
ghost use Rattle.wsm_keep.specs.Items.{times_of};

use crate::firsts::Firsts;
use std::alloc::AllocError;
use wsm_semantics::OutRow;

// The key of a row of a window, and where the window begins.
#[derive(Clone, Copy)]
pub(crate) struct Begin {
    pub(crate) key: u32,
    pub(crate) start: i64,
}

/// Adds where the window of each row begins.
pub(crate) fn add_begins(begins: &mut Vec<Begin>, rows: &[OutRow]) -> Result<(), AllocError>
    ensures { OnOk result (begins.new.items ≡ begins.old.items ++ begins_of rows.now) }
{
    for row in rows {
        add_begin(begins, row)?;
    }
    Ok(())
}

// Adds where the window of a row begins, if it is one of a window.
fn add_begin(begins: &mut Vec<Begin>, row: &OutRow) -> Result<(), AllocError>
    ensures { OnOk result (begins.new.items ≡ begins.old.items ++ begins_of (row.now ∷ [])) }
{
    if let Some(begin) = begin_of(row) {
        begins.push(begin)?;
    }
    Ok(())
}

// Of a row of a window its key, and where the window begins.
fn begin_of(row: &OutRow) -> Option<Begin>
    ensures { result ≡ spec.begin_of row.now }
{
    match row {
        OutRow::Pane { key, window, .. } => Some(Begin {
            key: u32::from(*key),
            start: window.start,
        }),
        OutRow::Retract { key, window, .. } => Some(Begin {
            key: u32::from(*key),
            start: window.start,
        }),
        _ => None,
    }
}

/// Leaves those alone that begin at the first time of their key, or later.
pub(crate) fn leave_beyond(begins: &mut Vec<Begin>, firsts: &Firsts)
    ensures { begins.new.items ≡ filter (begins_beyond (times_of firsts.now)) begins.old.items }
{
    begins.retain(|begin| firsts.of(begin.key) <= begin.start);
}
