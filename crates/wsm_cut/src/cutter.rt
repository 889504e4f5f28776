//! The rows of a program that stay.

ghost use Rattle.std.specs.Prelude.{◌≡◌, ◌∷◌, ◌++◌, ℕ, List, [], Ok, false, length, map, IfOk, OnOk};
ghost use Rattle.wsm_record.specs.declared.words.Form.TheVariants.{Panes};
ghost use Rattle.wsm_record.specs.Event.{Event as AnyEvent};
ghost use Rattle.wsm_semantics.specs.Query.{mark};
ghost use Rattle.wsm_semantics.specs.FromWatermark.{dropped_times};
ghost use Rattle.wsm_semantics.specs.LastingRows.{rows_so_far};
ghost use Rattle.wsm_program.specs.Program.{Program as AnyProgram};
ghost use Rattle.wsm_machine.specs.Meaning.{query_of};
ghost use Rattle.wsm_keep.specs.Staying.{events_in, row_of, staying};
ghost use Rattle.wsm_keep.specs.Holds.{Written, read, text_of};
ghost use Rattle.wsm_keep.specs.Keeper.{AreAdded, IsTold, SelectsTaken, takes as takes_what};
ghost use Rattle.wsm_keep.specs.Begins.{HasBegun, begins_of};
ghost use Rattle.wsm_keep.specs.WrittenBeyond.{rows_beyond};
ghost use Rattle.wsm_cut.specs.Cutter.{Fits, IsReady};

use std::alloc::{AllocError, Global};
use wsm_keep::{Judged, Keeper, Remains, What};
use wsm_program::Program;
use wsm_semantics::OutRow;

/// What is kept of a program's rows so far.
#[derive(Drop)]
pub struct Cutter {
    keeper: Keeper,
}

impl Cutter {
    /// Before the first row of a program, at whose watermark it begins.
    pub fn open(alloc: Global, program: &Program, start: i64) -> Cutter
        ensures ready { IsReady result }
        ensures begins { result.keeper.begins.items ≡ [] }
        ensures fits { start ≡ mark (query_of program.now) [] → Fits program.now result [] }
    {
        let header = program.header();
        let lateness = header.clock.lateness;
        Cutter {
            keeper: Keeper::open(alloc, header.shape, lateness, header.form, start),
        }
    }

    /// Takes the rows that the turn of the next event writes, before that event, where they are counted.
    pub fn write(&mut self, rows: &[OutRow]) -> Result<(), AllocError>
        requires { IsReady self.old }
        ensures ready { IsReady self.new }
        ensures form { self.new.keeper.form ≡ self.old.keeper.form }
        ensures fits { (p : AnyProgram) (before : List Written) → Fits p self.old before → Fits p self.new before }
        ensures begins { OnOk result (self.new.keeper.begins.items ≡ self.old.keeper.begins.items ++ begins_of rows.now) }
    {
        self.keeper.write(rows)
    }

    /// Whether a row may stay whose event does this. Of another one no text is asked for.
    pub fn takes(&self, what: What) -> bool
        ensures { result ≡ takes_what self.now.keeper.form what }
    {
        self.keeper.takes(what)
    }

    /// Passes over the next row that is an event, which can't stay.
    pub fn pass_over(&mut self, judged: Judged)
        requires ready { IsReady self.old }
        requires passed { takes_what self.old.keeper.form judged.what ≡ false }
        ensures ready { IsReady self.new }
        ensures begins { self.new.keeper.begins ≡ self.old.keeper.begins }
        ensures fits { (p : AnyProgram) (rows : List Written) (e : AnyEvent) (text : List ℕ) → Fits p self.old rows → IsTold (query_of p) rows e judged →
            Fits p self.new ((Ok e, text) ∷ rows) }
    {
        self.keeper.pass_over(judged);
    }

    /// Takes the next row that is an event, with what is told of it and its text.
    pub fn take(&mut self, judged: Judged, text: &[u8]) -> Result<(), AllocError>
        requires ready { IsReady self.old }
        ensures ready { IsReady self.new }
        ensures fits { (p : AnyProgram) (rows : List Written) (e : AnyEvent) → Fits p self.old rows → IsTold (query_of p) rows e judged →
            OnOk result (Fits p self.new ((Ok e, text.now) ∷ rows)) }
        ensures begun { (p : AnyProgram) (rows : List Written) (e : AnyEvent) → let q = query_of p in let past = e ∷ events_in read rows in
            q.form ≡ Panes → Fits p self.old rows → IsTold q rows e judged → HasBegun q past self.old.keeper.begins.items →
            OnOk result (HasBegun q past self.new.keeper.begins.items) }
    {
        self.keeper.take(judged, text)
    }

    /// Adds the texts of the rows that stay, the oldest first, behind a text, and answers how many they are. The others go.
    pub fn add_staying(&mut self, texts: &mut Vec<u8>) -> Result<usize, AllocError>
        requires { IsReady self.old }
        ensures ready { IsReady self.new }
        ensures fits { (p : AnyProgram) (rows : List Written) → Fits p self.old rows → OnOk result (Fits p self.new rows) }
        ensures added { (p : AnyProgram) (rows : List Written) → Fits p self.old rows →
            IfOk result (AreAdded texts.old.items texts.new.items (staying read (query_of p) rows)) }
    {
        self.keeper.add_staying(texts)
    }

    /// What remains of the rows.
    pub fn finish(self) -> Result<Remains, AllocError>
        requires { IsReady self }
        ensures texts { (p : AnyProgram) (rows : List Written) → Fits p self rows →
            IfOk result (λ remains. map row_of remains.queue ≡ map text_of (staying read (query_of p) rows)) }
        ensures selected { (p : AnyProgram) (rows : List Written) → Fits p self rows → IfOk result (λ remains. SelectsTaken (query_of p) rows remains.queue) }
        ensures written { (p : AnyProgram) (rows : List Written) → let q = query_of p in let past = events_in read rows in
            q.form ≡ Panes → Fits p self rows → HasBegun q past self.keeper.begins.items →
            IfOk result (λ remains. remains.written ≡ length (rows_beyond (dropped_times q past) (rows_so_far q past))) }
    {
        self.keeper.finish()
    }
}
