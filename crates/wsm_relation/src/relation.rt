//! A relation at an instant.

ghost use Rattle.std.specs.Prelude.{◌≡◌, ◌<◌, ◌+◌, ◌≤◌, [], ◌∷◌, ◌++◌, length, nat_eq, drop, IfOk, vec_len, vec_capacity};
ghost use Rattle.wsm_semantics.specs.Relation.{with_row, without_one, difference};
ghost use Rattle.wsm_relation.specs.Rows.{IsInOrder, IsExcess, count_of};

use crate::rows::{append_all, append_difference, place_of};
use std::alloc::{AllocError, Global};
use std::marker::Model;
use wsm_record::Columns;

/// A bag of rows, in row order, with room for a number of them. The rows are held in places that
/// were reserved when it was opened, and only the places' addresses are moved, of all rows behind the
/// one that comes or goes: many rows that change between two instants belong into [`Changes`](crate::Changes).
#[derive(Drop)]
pub struct Relation {
    rows: Vec<Box<Columns>>,
    free: Vec<Box<Columns>>,
    columns: usize,
}

impl Model for Relation {
    ghost use Rattle.std.specs.Prelude.{◌≡◌, ◌≤◌, ◌+◌, vec_len, vec_capacity};
    ghost use Rattle.wsm_relation.specs.Rows.{rows_in, IsInOrder};
    ghost use Rattle.wsm_relation.specs.Bag.{Bag};

    ghost Value = { Bag };

    ghost view = { λ a. record { rows = rows_in a.rows.items; room = vec_len a.rows + vec_len a.free; columns = a.columns } };

    ghost invariant = { λ a. IsInOrder (rows_in a.rows.items) × (vec_len a.rows + vec_len a.free ≤ vec_capacity a.rows) × (vec_len a.rows + vec_len a.free ≤ vec_capacity a.free) };
}

impl Relation {
    /// No rows, with room for so many of at most 16 columns each. No later call takes memory.
    ///
    /// # Errors
    ///
    /// Where there is no memory for the room.
    pub fn open(alloc: Global, room: usize, columns: usize) -> Result<Self, AllocError>
        ensures { IfOk result (λ r. r ≡ record { rows = []; room = room; columns = columns }) }
    {
        let mut free = Vec::with_capacity(alloc, room)?;
        for _ in 0..room {
            free.push(Box::new(alloc, Columns::new())?).unwrap();
        }
        Ok(Relation {
            rows: Vec::with_capacity(alloc, room)?,
            free,
            columns,
        })
    }

    /// How many rows it holds, equal ones each.
    pub fn len(&self) -> usize
        ensures { result ≡ length self.now.rows }
    {
        self.rows.len()
    }

    /// Whether it holds no row.
    pub fn is_empty(&self) -> bool
        ensures { result ≡ nat_eq (length self.now.rows) 0 }
    {
        self.rows.is_empty()
    }

    /// A row, by its place in row order.
    pub fn get(&self, i: usize) -> &Columns
        requires { i < length self.now.rows }
        ensures { drop i self.now.rows ≡ result.now ∷ drop (i + 1) self.now.rows }
    {
        &self.rows[i]
    }

    /// Removes all rows.
    pub fn clear(&mut self)
        ensures { self.new ≡ record self.old { rows = [] } }
    {
        while let Some(place) = self.rows.pop() {
            self.free.push(place).unwrap();
        }
    }

    /// Adds a row, once more where it is there.
    pub fn add(&mut self, row: Columns)
        requires { length self.old.rows < self.old.room }
        ensures { self.new ≡ record self.old { rows = with_row row self.old.rows } }
    {
        let at = place_of(&self.rows, &row);
        let mut place = self.free.pop().unwrap();
        *place = row;
        self.rows.insert(at, place).unwrap();
    }

    /// Removes a row once.
    pub fn remove(&mut self, row: &Columns)
        requires { 0 < count_of row.now self.old.rows }
        ensures { self.new ≡ record self.old { rows = without_one row.now self.old.rows } }
    {
        let at = place_of(&self.rows, row);
        let place = self.rows.remove(at);
        self.free.push(place).unwrap();
    }
}

/// Appends what a relation gained since the one before: each row as many times as it has it more
/// often, in row order.
pub fn istream(before: &Relation, now: &Relation, out: &mut Vec<Columns>)
    requires { vec_len out.old + length now.now.rows ≤ vec_capacity out.old }
    ensures rows { out.new.items ≡ out.old.items ++ difference now.now.rows before.now.rows }
    ensures counts { IsExcess now.now.rows before.now.rows (difference now.now.rows before.now.rows) }
    ensures capacity { vec_capacity out.new ≡ vec_capacity out.old }
{
    append_difference(&now.rows, &before.rows, out);
}

/// Appends what a relation lost since the one before: each row as many times as it has it less
/// often, in row order.
pub fn dstream(before: &Relation, now: &Relation, out: &mut Vec<Columns>)
    requires { vec_len out.old + length before.now.rows ≤ vec_capacity out.old }
    ensures rows { out.new.items ≡ out.old.items ++ difference before.now.rows now.now.rows }
    ensures counts { IsExcess before.now.rows now.now.rows (difference before.now.rows now.now.rows) }
    ensures capacity { vec_capacity out.new ≡ vec_capacity out.old }
{
    append_difference(&before.rows, &now.rows, out);
}

/// Appends the rows of a relation, in row order.
pub fn rstream(now: &Relation, out: &mut Vec<Columns>)
    requires { vec_len out.old + length now.now.rows ≤ vec_capacity out.old }
    ensures rows { out.new.items ≡ out.old.items ++ now.now.rows }
    ensures order { IsInOrder now.now.rows }
    ensures capacity { vec_capacity out.new ≡ vec_capacity out.old }
{
    append_all(&now.rows, out);
}
