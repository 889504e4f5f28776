//! The lists that changes are kept in.

ghost use Rattle.std.specs.Prelude.{◌≡◌, ◌≢◌, ◌⊎◌, ◌<◌, ◌+◌, ◌≤◌, ◌/◌, [], length, List, pos, negsuc, ◌+ℤ◌, ◌<ℤ◌, ◌≤ℤ◌, IfOk};
ghost use Rattle.wsm_record.specs.declared.cell.Cell.{Cell};
ghost use Rattle.wsm_relation.specs.Kept.{HasNumbers, numbers_in};
ghost use Rattle.wsm_relation.specs.Delta.{ArePlaces, number_of, shifted, where_same};

use crate::steps::{Step, add_few, merge, sort_steps, sum_up, take_over};
use std::alloc::{AllocError, Global};
use std::marker::Model;
use std::mem::swap;
use wsm_record::Columns;

// More rows than any memory holds, so that the sum of what is told of a row is an i64.
const MOST_ROOM: usize = 1 << 62;

// So many changes are put where they go, which moves what is behind each, and more are merged, which moves all once.
const FEW: usize = 16;

/// What is told of rows behind what was summed up before, which stands. Each list has as many places,
/// which are reserved when they are opened.
#[derive(Drop)]
pub struct Lists {
    // The rows that are told, and those that stand, each where it was told.
    rows: Vec<Columns>,
    // For the rows that stand, where the others are left out.
    others: Vec<Columns>,
    told: Vec<Step>,
    standing: Vec<Step>,
    spare: Vec<Step>,
    places: usize,
    room: usize,
}

impl Model for Lists {
    ghost use Rattle.wsm_relation.specs.Kept.{Kept};
    ghost use Rattle.wsm_relation.specs.Reserved.{AreReserved};

    ghost Value = { Kept };

    ghost view = { λ a. record { rows = a.rows.items; told = a.told.items; standing = a.standing.items; room = a.room } };

    ghost invariant = { AreReserved };
}

impl Lists {
    /// No rows, with room for so many. No later call takes memory.
    ///
    /// # Errors
    ///
    /// Where there is no memory for the room.
    pub fn open(alloc: Global, room: usize) -> Result<Self, AllocError>
        ensures { IfOk result (λ l. l ≡ record { rows = []; told = []; standing = []; room = room }) }
    {
        if room > MOST_ROOM {
            return Err(AllocError);
        }
        let places = room + room / 2 + 1;
        Ok(Lists {
            rows: Vec::with_capacity(alloc, places)?,
            others: Vec::with_capacity(alloc, places)?,
            told: Vec::with_capacity(alloc, places)?,
            standing: Vec::with_capacity(alloc, places)?,
            spare: Vec::with_capacity(alloc, places)?,
            places,
            room,
        })
    }

    /// The rows that are told, and those that stand.
    pub fn rows(&self) -> &[Columns]
        ensures { result.now ≡ self.now.rows }
    {
        self.rows.as_slice()
    }

    /// What is told.
    pub fn told(&self) -> &[Step]
        ensures { result.now ≡ self.now.told }
    {
        self.told.as_slice()
    }

    /// What stands, in row order.
    pub fn standing(&self) -> &[Step]
        ensures steps { result.now ≡ self.now.standing }
        ensures places { ArePlaces (length self.now.rows) result.now }
    {
        self.standing.as_slice()
    }

    /// Sets all numbers to 0.
    pub fn clear(&mut self)
        ensures { self.new ≡ record self.old { rows = []; told = []; standing = [] } }
    {
        self.rows.clear();
        self.told.clear();
        self.standing.clear();
    }

    /// Adds to the number of a row.
    pub fn tell(&mut self, row: &Columns, step: i64)
        requires room { (number_of row.now (numbers_in self.old) ≢ pos 0) ⊎ (length (numbers_in self.old) < self.old.room) }
        requires step { (step ≡ pos 1) ⊎ (step ≡ negsuc 0) }
        requires low { step <ℤ pos 0 → i64.MIN ≤ℤ (number_of row.now (numbers_in self.old) +ℤ step) }
        requires high { pos 0 <ℤ step → (number_of row.now (numbers_in self.old) +ℤ step) ≤ℤ i64.MAX }
        ensures each { (r : List Cell) → number_of r (numbers_in self.new) ≡ number_of r (numbers_in self.old) +ℤ where_same r row.now step }
        ensures numbers { HasNumbers self.new (shifted row.now step (numbers_in self.old)) self.old.room }
    {
        self.make_place();
        let place = self.rows.len();
        self.rows.push_reserved(*row);
        self.told
            .push_reserved(Step::told(place, step, row.as_slice()));
    }

    /// Sums up what is told with what stands, in row order: then that is what stands, and nothing is told.
    pub fn settle(&mut self)
        ensures numbers { HasNumbers self.new (numbers_in self.old) self.old.room }
        ensures none { self.new.told ≡ [] }
    {
        if self.told.is_empty() {
            return;
        }
        let rows = self.rows.as_slice();
        sort_steps(rows, &mut self.told);
        sum_up(rows, &mut self.told, &mut self.spare);
        if self.standing.is_empty() {
            take_over(&mut self.spare, &mut self.standing);
            return;
        }
        if self.spare.len() <= FEW
            && self.spare.len() <= self.places.saturating_sub(self.standing.len())
        {
            add_few(rows, &mut self.spare, &mut self.standing);
            return;
        }
        merge(
            rows,
            &mut self.spare,
            self.standing.as_slice(),
            &mut self.told,
        );
        swap(&mut self.told, &mut self.standing);
        self.told.clear();
    }

    // Makes a place for one row more, where there is none: then the rows that stand are kept alone, which
    // are fewer than there are places.
    fn make_place(&mut self)
        ensures numbers { HasNumbers self.new (numbers_in self.old) self.old.room }
        ensures place { length self.new.rows ≤ self.new.room + self.new.room / 2 }
    {
        if self.rows.len() < self.places {
            return;
        }
        self.settle();
        self.gather();
    }

    // Has the rows that stand alone, each at the place that its step has in row order.
    fn gather(&mut self)
        requires { self.old.told ≡ [] }
        ensures numbers { HasNumbers self.new (numbers_in self.old) self.old.room }
        ensures place { length self.new.rows ≤ self.new.room + self.new.room / 2 }
    {
        let mut i = 0;
        while i < self.standing.len() {
            let step = self.standing[i];
            self.others.push_reserved(self.rows[step.place]);
            self.told.push_reserved(Step { place: i, ..step });
            i += 1;
        }
        swap(&mut self.rows, &mut self.others);
        swap(&mut self.standing, &mut self.told);
        self.others.clear();
        self.told.clear();
    }
}
