//! The columns of a row, inline.

ghost use Rattle.std.specs.Prelude.{◌≡◌, List, [], ◌∷◌, ◌++◌, length, nat_eq, ◌<◌, ◌≤◌};

use crate::cell::Cell;
use crate::limits::MAX_COLUMNS;
use std::marker::Model;

/// The columns of a row, at most [`MAX_COLUMNS`], held inline. A clause sees their cells.
#[derive(Clone, Copy, Debug)]
pub struct Columns {
    cells: [Cell; MAX_COLUMNS],
    len: usize,
}

impl Model for Columns {
    ghost use Rattle.std.specs.Prelude.{◌≡◌, ◌≤◌, ◌-◌, ◌++◌, List, length, take, drop, replicate, pos};
    ghost use Rattle.std.proofs.Common.{arith, sym, ap, ◌∙◌, take-append-drop, length-take-le};
    ghost use Rattle.wsm_record.specs.declared.cell.Cell.{Cell as OneCell};
    ghost use Rattle.wsm_record.specs.declared.cell.Cell.TheVariants.{Int};
    ghost use Rattle.wsm_record.specs.declared.limits.TheConstants.{MAX_COLUMNS};

    ghost Value = { List OneCell };

    ghost view = { λ c. take c.len c.cells };

    // The places behind the columns hold 0, so that equal columns are equal bit by bit.
    ghost invariant = { λ c. (c.len ≤ MAX_COLUMNS) × (length c.cells ≡ MAX_COLUMNS) × (drop c.len c.cells ≡ replicate (MAX_COLUMNS - c.len) (Int (pos 0))) };

    ghost inverse = { λ xs. record { cells = xs ++ replicate (MAX_COLUMNS - length xs) (Int (pos 0)); len = length xs } };

    ghost inverse_ok = { λ c h i. record {
      cells = (ap (λ n. take c.len c.cells ++ replicate (MAX_COLUMNS - n) (Int (pos 0))) (length-take-le c.len c.cells (omega (arith, h.0, h.1))) ∙ ap (λ rest. take c.len c.cells ++ rest) (sym h.2) ∙ take-append-drop c.len c.cells) i;
      len = length-take-le c.len c.cells (omega (arith, h.0, h.1)) i;
    } };
}

impl Columns {
    /// No columns.
    pub fn new() -> Columns
        ensures { result ≡ [] }
    {
        Columns {
            cells: [Cell::Int(0); MAX_COLUMNS],
            len: 0,
        }
    }

    /// Columns of these cells.
    pub fn of(cells: &[Cell]) -> Columns
        requires { length cells.now ≤ MAX_COLUMNS }
        ensures { result ≡ cells.now }
    {
        let mut columns = Columns::new();
        columns.fill(cells);
        columns
    }

    /// Has columns of these cells where there are none.
    pub fn fill(&mut self, cells: &[Cell])
        requires empty { self.old ≡ [] }
        requires few { length cells.now ≤ MAX_COLUMNS }
        ensures { self.new ≡ cells.now }
    {
        for cell in cells {
            self.push(*cell);
        }
    }

    /// The number of columns.
    pub fn len(&self) -> usize
        ensures { result ≡ length self.now }
    {
        self.len
    }

    /// Whether there are no columns.
    pub fn is_empty(&self) -> bool
        ensures { result ≡ nat_eq (length self.now) 0 }
    {
        self.len == 0
    }

    /// The cells, from the left.
    pub fn as_slice(&self) -> &[Cell]
        ensures { result.now ≡ self.now }
    {
        &self.cells[..self.len]
    }

    /// Adds a column on the right.
    pub fn push(&mut self, cell: Cell)
        requires { length self.old < MAX_COLUMNS }
        ensures { self.new ≡ self.old ++ cell ∷ [] }
    {
        self.cells[self.len] = cell;
        self.len += 1;
    }
}
