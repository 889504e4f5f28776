//! The order of rows.

ghost use Rattle.std.specs.Prelude.{◌≡◌};
ghost use Rattle.wsm_semantics.specs.Relation.{cell_cmp, row_cmp};

use std::cmp::Ordering;
use wsm_record::Cell;

/// How two rows compare: by their columns from the left.
#[inline(always)]
pub fn row_order(row: &[Cell], other: &[Cell]) -> Ordering
    ensures { result ≡ row_cmp row.now other.now }
{
    let mut i = 0;
    while i < row.len() && i < other.len() {
        match cell_order(&row[i], &other[i]) {
            Ordering::Equal => i += 1,
            order => return order,
        }
    }
    row.len().cmp(&other.len())
}

// How two cells compare, which are mostly numbers.
fn cell_order(cell: &Cell, other: &Cell) -> Ordering
    ensures { result ≡ cell_cmp cell.now other.now }
{
    if let (Cell::Int(a), Cell::Int(b)) = (cell, other) {
        a.cmp(b)
    } else {
        kind_order(cell, other)
    }
}

// Numbers by value, false before true, names by the numbers of their ENUM and their own.
#[inline(never)]
fn kind_order(cell: &Cell, other: &Cell) -> Ordering
    ensures { result ≡ cell_cmp cell.now other.now }
{
    match (cell, other) {
        (Cell::Int(a), Cell::Int(b)) => a.cmp(b),
        (Cell::Bool(a), Cell::Bool(b)) => a.cmp(b),
        (Cell::Enum(d, a), Cell::Enum(e, b)) => match d.cmp(e) {
            Ordering::Equal => a.cmp(b),
            order => order,
        },
        (Cell::Int(_), _) | (Cell::Bool(_), Cell::Enum(..)) => Ordering::Less,
        (Cell::Bool(_), _) | (Cell::Enum(..), _) => Ordering::Greater,
    }
}
