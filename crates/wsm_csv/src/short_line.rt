//! The line of a pane whose columns are a few numbers, written in one piece from its end on.

ghost use Rattle.std.specs.Prelude.{◌≡◌, ◌≤◌, ◌++◌, ◌∷◌, [], true, codes, drop, length, map, OnOk};
ghost use Rattle.std.specs.List.{list_all};
ghost use Rattle.wsm_semantics.specs.Text as text;
ghost use Rattle.wsm_csv.specs.Lines.{cells_text, is_a_number, number_text, window_cells};

use crate::few_numbers::{CELLS, TOGETHER, write_numbers};
use crate::from_end::write_text;
use crate::window_text::WindowText;
use std::alloc::AllocError;
use wsm_record::Cell;
use wsm_record::limits::MAX_NAME;
use wsm_windows::PaneKind;

/// The most bytes of the first cells of a pane's row, with a comma.
pub(crate) const FIRST: usize = 13;

// The most bytes of the line of a pane whose columns are a few numbers.
const LINE: usize = FIRST + MAX_NAME + CELLS + 1;

/// Adds the line of a pane with a short name, whose columns are a few numbers. The text is that of its
/// window.
pub(crate) fn add_short_line(
    kind: PaneKind,
    name: &[u8],
    window: &WindowText,
    numbers: &[Cell],
    out: &mut Vec<u8>,
) -> Result<(), AllocError>
    requires name { length name.now ≤ MAX_NAME }
    requires numbers { list_all is_a_number numbers.now ≡ true }
    requires few { length numbers.now ≤ TOGETHER }
    ensures { OnOk result (out.new.items ≡ out.old.items
        ++ ((codes "pane" ++ 44 ∷ text.kind_word kind ++ 44 ∷ [])
        ++ (name.now ++ (cells_text (window_cells window.now ++ map number_text numbers.now) ++ 10 ∷ [])))) }
{
    let mut line = [b'\n'; LINE];
    let columns = write_numbers(numbers, &mut line, LINE - 1);
    let start = window.write(&mut line, columns);
    let key = write_text(name, &mut line, start);
    let first = write_first(kind, &mut line, key);
    out.extend_from_slice(&line[first..])
}

/// Writes the first cells of the row of a pane that fires so, and a comma, so that they end at a
/// place, and tells where they begin. Each text has a length of its own that the compiler knows.
#[inline(always)]
pub(crate) fn write_first(kind: PaneKind, cells: &mut [u8], end: usize) -> usize
    requires room { FIRST ≤ end }
    requires within { end ≤ length cells.old }
    ensures begins { result ≤ end }
    ensures written { drop result cells.new ≡ (codes "pane" ++ 44 ∷ text.kind_word kind ++ 44 ∷ []) ++ drop end cells.old }
{
    match kind {
        PaneKind::Early => write_text(b"pane,early,", cells, end),
        PaneKind::OnTime => write_text(b"pane,on_time,", cells, end),
        PaneKind::Late => write_text(b"pane,late,", cells, end),
        PaneKind::Final => write_text(b"pane,final,", cells, end),
    }
}
