//! The engines of all parts, and the rows of the last event.

ghost use Rattle.std.specs.Prelude.{◌≡◌, ◌<◌, ◌≤◌, ℕ, [], length, map, All, IfOk, IsTrue, slice_get, Some};
ghost use Rattle.wsm_record.specs.declared.limits.TheConstants.{MAX_SOURCES};
ghost use Rattle.wsm_record.specs.Event.{event_of};
ghost use Rattle.wsm_windows.specs.Windows.{IsTime};
ghost use Rattle.wsm_semantics.specs.ByNumber.{row_by};
ghost use Rattle.wsm_program.specs.Program.{Program as AnyProgram, is_program};
ghost use Rattle.wsm_part_engines.specs.Fits.{number_of};
ghost use Rattle.wsm_part_engines.specs.Follows.{FollowRecord, FollowWatermark, MayTakeRecord};
ghost use Rattle.wsm_part_engines.specs.Ordered.{row_at, IsRow};
ghost use Rattle.wsm_part_engines.specs.Ready.{IsReady, MayTake};
ghost use Rattle.wsm_part_engines.specs.Takes.{SelectsRecord, TakesRecord, TakesWatermark};
ghost use Rattle.std.specs.List.{AllByRecursion};

use crate::opening::open_part;
use crate::ordering::{place_all, place_one};
use crate::row_place::RowPlace;
use crate::slots::{Fed, feed_all, feed_one, rows};
use std::alloc::{AllocError, Global};
use wsm_bytecode::encode;
use wsm_engine::Engine;
use wsm_program::Program;
use wsm_record::Event;
use wsm_semantics::OutRow;

/// A row of a part, whose key is a place of it.
#[derive(Clone, Copy)]
pub struct PartRow<'a> {
    /// The number of the part.
    pub part: u32,
    /// The row. Its key is a place of the part: that of `place` has the number `part * block + place`.
    pub row: &'a OutRow,
}

/// The engines of all parts.
#[derive(Drop)]
pub struct Engines {
    pub alloc: Global,
    /// The program of each, as it is spelled.
    pub bytes: Vec<u8>,
    /// By the numbers of the parts.
    pub slots: Vec<Option<Engine>>,
    /// The places of the rows of the last event, in their order.
    pub order: Vec<RowPlace>,
}

impl Engines {
    /// No part of the program is opened.
    ///
    /// # Errors
    ///
    /// Memory was refused.
    pub fn open(alloc: Global, program: &Program) -> Result<Engines, AllocError>
        ensures ready { IfOk result (λ e. IsReady program.now e) }
        ensures slots { IfOk result (λ e. e.slots.items ≡ []) }
        ensures order { IfOk result (λ e. e.order.items ≡ []) }
    {
        Ok(Engines {
            alloc,
            bytes: encode(alloc, program)?,
            slots: Vec::new(alloc),
            order: Vec::new(alloc),
        })
    }

    /// Takes a record that the front admits: feeds it to the engine of its part, which is opened at the marks of the sources if the part
    /// has none. The engine goes by these marks too, so it looks at no rule.
    ///
    /// # Errors
    ///
    /// Memory was refused.
    pub fn take_record(
        &mut self,
        marks: &[i64],
        part: u32,
        event: &Event,
    ) -> Result<Fed, AllocError>
        requires may { MayTakeRecord marks.now (event_of event.now) self.old }
        requires few { length marks.now ≤ MAX_SOURCES }
        requires times { All IsTime marks.now }
        requires cleared { self.old.order.items ≡ [] }
        ensures ready { (p : AnyProgram) → IsTrue (is_program p) → IsReady p self.old → IsReady p self.new }
        ensures follow { FollowRecord marks.now (event_of event.now) self.old self.new }
        ensures takes { (p : AnyProgram) → IsTrue (is_program p) → IsReady p self.old →
            IfOk result (λ fed. TakesRecord p marks.now part (event_of event.now) self.old self.new fed.fired) }
        ensures selects { (p : AnyProgram) → IsTrue (is_program p) → IsReady p self.old →
            IfOk result (λ fed. SelectsRecord p marks.now part (event_of event.now) self.old fed.selected) }
    {
        let place = part as usize;
        open_part(self.alloc, &self.bytes, marks, &mut self.slots, place)?;
        let fed = feed_one(&mut self.slots, place, event);
        place_one(&mut self.order, &self.slots, part)?;
        Ok(fed)
    }

    /// Takes a watermark: feeds it to each engine, and answers how many panes fire together, at most the greatest `u64`.
    ///
    /// # Errors
    ///
    /// Memory was refused.
    pub fn take_watermark(&mut self, event: &Event, values_fit: bool) -> Result<u64, AllocError>
        requires may { MayTake values_fit (event_of event.now) self.old }
        requires cleared { self.old.order.items ≡ [] }
        ensures ready { (p : AnyProgram) → IsReady p self.old → IsReady p self.new }
        ensures follow { FollowWatermark (event_of event.now) self.old self.new }
        ensures takes { IfOk result (λ panes. TakesWatermark (event_of event.now) self.old self.new panes) }
    {
        let fired = feed_all(&mut self.slots, event, values_fit);
        place_all(&mut self.order, &self.slots)?;
        Ok(fired)
    }

    /// A row of the last event.
    pub fn row(&self, i: usize) -> PartRow<'_>
        requires row { i < length self.now.order.items }
        requires rows { AllByRecursion (IsRow self.now.slots.items) self.now.order.items }
        ensures { (block : ℕ) →
            slice_get (map (row_at block self.now.slots.items) self.now.order.items) i ≡ Some (row_by (number_of block result.part) result.row.now) }
    {
        let place = self.order[i];
        PartRow {
            part: place.part,
            row: &rows(&self.slots, place.part as usize)[place.row],
        }
    }
}
