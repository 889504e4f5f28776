//! The text of a window, kept from one row to the next.

ghost use Rattle.std.specs.Prelude.{◌≡◌, ◌≤◌, ◌+◌, ◌++◌, drop, length};
ghost use Rattle.wsm_csv.specs.Lines.{cells_text, window_cells};

use crate::from_end::{CELL, write_cell, write_text};
use std::marker::Model;
use wsm_windows::Window;

/// The most bytes of a window's two cells, with a comma in front of each.
pub(crate) const WINDOW: usize = 2 * CELL;

/// The cells of the window that was written last. Panes that fire at one watermark mostly share their
/// window, whose numbers are made into text once. A clause sees the window.
#[derive(Drop)]
pub struct WindowText {
    window: Window,
    // The text is what stands here from a place on.
    cells: [u8; WINDOW],
    start: usize,
}

impl Model for WindowText {
    ghost use Rattle.std.specs.Prelude.{◌≡◌, ◌≤◌, drop, length};
    ghost use Rattle.wsm_windows.specs.declared.window.Window.{Window as OneWindow};
    ghost use Rattle.wsm_csv.specs.Lines.{cells_text, window_cells};
    ghost use Rattle.wsm_csv.specs.declared.window_text.TheConstants.{WINDOW};

    ghost Value = { OneWindow };

    ghost view = { λ a. a.window };

    ghost invariant = { λ a. (a.start ≤ WINDOW) × (length a.cells ≡ WINDOW) × (drop a.start a.cells ≡ cells_text (window_cells a.window)) };
}

impl WindowText {
    /// The text of a window.
    pub fn of(window: Window) -> WindowText
        ensures { result ≡ window }
    {
        let mut cells = [0; WINDOW];
        let end = write_cell(window.end, &mut cells, WINDOW);
        let start = write_cell(window.start, &mut cells, end);
        WindowText {
            window,
            cells,
            start,
        }
    }

    /// Has it be the text of a window.
    pub(crate) fn set(&mut self, window: Window)
        ensures { self.new ≡ window }
    {
        if self.window != window {
            self.renew(window);
        }
    }

    // Has it be the text of another window. Panes of one watermark mostly share theirs, so this stands
    // by itself.
    #[inline(never)]
    fn renew(&mut self, window: Window)
        ensures { self.new ≡ window }
    {
        *self = WindowText::of(window);
    }

    /// Writes the text so that it ends at a place, and tells where it begins. The places in front of it
    /// may be written too, as many as the longest text has.
    pub(crate) fn write(&self, cells: &mut [u8], end: usize) -> usize
        requires room { WINDOW ≤ end }
        requires within { end ≤ length cells.old }
        ensures start { end ≤ result + WINDOW }
        ensures begins { result ≤ end }
        ensures written { drop result cells.new ≡ cells_text (window_cells self.now) ++ drop end cells.old }
    {
        write_text(&self.cells, cells, end) + self.start
    }
}
