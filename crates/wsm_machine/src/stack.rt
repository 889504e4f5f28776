//! The stack of a run.

ghost use Rattle.std.specs.Prelude.{◌≡◌, ◌<◌, ◌≤◌, ◌+◌, List, [], ◌∷◌, length, reverse, drop, MatchOption};

use smallvec::SmallVec;
use std::alloc::Global;
use std::marker::Model;
use wsm_record::Cell;
use wsm_record::limits::MAX_STACK;

/// A stack of at most 32 values, all of them inline: it keeps an allocator and asks it for nothing.
/// A clause sees the values with the top first.
#[derive(Drop)]
pub struct Stack {
    cells: SmallVec<Cell, MAX_STACK>,
}

impl Model for Stack {
    ghost use Rattle.std.specs.Prelude.{◌≡◌, ◌≤◌, List, length, reverse};
    ghost use Rattle.wsm_record.specs.declared.cell.Cell.{Cell as OneCell};
    ghost use Rattle.wsm_record.specs.declared.limits.TheConstants.{MAX_STACK};

    ghost Value = { List OneCell };

    ghost view = { λ a. reverse a.cells.items };

    // No value lies in an allocation.
    ghost invariant = { λ a. (a.cells.capacity ≡ MAX_STACK) × (length a.cells.items ≤ MAX_STACK) };
}

impl Stack {
    /// An empty stack.
    pub fn open(alloc: Global) -> Self
        ensures { result ≡ [] }
    {
        Stack {
            cells: SmallVec::new(alloc),
        }
    }

    /// The values, the lowest first.
    pub fn cells(&self) -> &[Cell]
        ensures lowest_first { result.now ≡ reverse self.now }
        ensures room { length result.now ≤ MAX_STACK }
    {
        self.cells.as_slice()
    }

    pub(crate) fn len(&self) -> usize
        ensures len { result ≡ length self.now }
        ensures room { result ≤ MAX_STACK }
    {
        self.cells.len()
    }

    /// The top value, where there is one.
    pub(crate) fn top(&self) -> Option<Cell>
        ensures { MatchOption result (self.now ≡ []) (λ x. self.now ≡ x ∷ drop 1 self.now) }
    {
        match self.cells.as_slice() {
            [.., x] => Some(*x),
            _ => None,
        }
    }

    /// The top value and the one below it, where there are two.
    pub(crate) fn top_two(&self) -> Option<(Cell, Cell)>
        ensures { MatchOption result (length self.now < 2) (λ p. self.now ≡ p.0 ∷ p.1 ∷ drop 2 self.now) }
    {
        match self.cells.as_slice() {
            [.., x, y] => Some((*y, *x)),
            _ => None,
        }
    }

    /// Takes the top value away.
    pub(crate) fn pop(&mut self)
        requires { 0 < length self.old }
        ensures { self.new ≡ drop 1 self.old }
    {
        let len = self.cells.len() - 1;
        self.cells.truncate(len);
    }

    /// Puts a value in the place of the topmost ones.
    pub(crate) fn replace(&mut self, popped: usize, cell: Cell)
        requires operands { popped ≤ length self.old }
        requires room { length self.old < popped + MAX_STACK }
        ensures { self.new ≡ cell ∷ drop popped self.old }
    {
        let len = self.cells.len() - popped;
        self.cells.truncate(len);
        self.cells.push_reserved(cell);
    }
}
