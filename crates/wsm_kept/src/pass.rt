//! The pass over rows that are cut.

ghost use Rattle.std.specs.Prelude.{◌≡◌, List, IfErr, IfOk};
ghost use Rattle.csv.specs.Records.{fields_of};
ghost use Rattle.wsm_semantics.specs.Query.{Query};
ghost use Rattle.wsm_kept.specs.declared.end.KeepEnd.TheVariants.{Gone};
ghost use Rattle.wsm_kept.specs.Ends.{AreGone, FinishEnds, FirstEnds};
ghost use Rattle.wsm_kept.specs.Head.{Says};
ghost use Rattle.wsm_kept.specs.Kept.{Cells, counts_of, rows_of};
ghost use Rattle.wsm_kept.specs.Pass.{IsCutAs, IsLimit, IsOf};
ghost use Rattle.wsm_kept.specs.Stay.{IsStay};

use crate::asked::Asked;
use crate::counts::Counts;
use crate::cut::Cut;
use crate::end::KeepEnd;
use crate::head::Head;
use crate::own::writes_sessions;
use crate::row_text::put_text;
use crate::run::Run;
use crate::stay::{Stay, stay_of};
use csv::ByteRecord;
use std::alloc::{AllocError, Global};
use wsm_cut::Cutter;
use wsm_keep::Judged;
use wsm_rules::Verified;

/// What the rows so far come to.
pub struct Pass {
    // A run over the rows that are cut, and over the next one, where that isn't.
    run: Run,
    cutter: Cutter,
    // Whether the cutter is told of the rows that are written.
    is_counted: bool,
    // The text of the row that was kept last.
    text: Vec<u8>,
    // What a run over the rows that are cut comes to.
    counts: Counts,
    // What the first row says of those before it.
    head: Head,
    // How many lines a run over the rows that are cut writes at most.
    most: u64,
    asked: Asked,
}

impl Drop for Pass {
    fn drop(self) {
        let Pass {
            run: _,
            cutter: _,
            is_counted: _,
            text: _,
            counts: _,
            head: _,
            most: _,
            asked: _,
        } = self;
    }
}

impl Pass {
    ghost use Rattle.std.specs.Prelude.{◌≡◌, ◌≢◌, ◌<◌, ◌∷◌, ◌++◌, List, [], Ok, IfErr, IfOk, OnOk, false, true};
    ghost use Rattle.csv.specs.Records.{fields_of};
    ghost use Rattle.wsm_program.specs.Program.{Program};
    ghost use Rattle.wsm_machine.specs.Meaning.{query_of};
    ghost use Rattle.wsm_csv.specs.Cells.{event_of_cells};
    ghost use Rattle.wsm_cut.specs.Cutter as cutter;
    ghost use Rattle.wsm_kept.specs.Kept.{Cells, written};
    ghost use Rattle.wsm_record.specs.Event.{Event as AnyEvent};
    ghost use Rattle.wsm_semantics.specs.Relation.{turn_rows};
    ghost use Rattle.wsm_keep.specs.Holds.{Written, read};
    ghost use Rattle.wsm_keep.specs.Staying.{events_in};
    ghost use Rattle.wsm_kept.specs.declared.end.KeepEnd.TheVariants.{Memory, OtherRows};
    ghost use Rattle.wsm_kept.specs.Ends.{BeginEnds, FinishEnds, TakeEnds};
    ghost use Rattle.wsm_kept.specs.Pass.{Cuts, Fits, IsCutAs, Keeps, KeepsWritten, Taken};
    ghost use Rattle.wsm_kept.specs.Run.{HasRows, IsTurn, Tells};

    /// Before the first row.
    pub fn open(alloc: Global, verified: Verified, asked: Asked) -> Result<Pass, KeepEnd>
        ensures ready { IfOk result (λ pass. cutter.IsReady pass.cutter) }
        ensures asked { IfOk result (λ pass. pass.asked ≡ asked) }
        ensures fits { IfOk result (λ pass. Fits verified pass []) }
        ensures memory { IfErr result (λ end. end ≡ Memory) }
    {
        let head = Head::none();
        let most = most_of(asked.taken, &head)?;
        let is_counted = writes_sessions(&verified);
        let run = Run::open(alloc, verified)?;
        let cutter = run.cutter(alloc);
        Ok(Pass {
            run,
            cutter,
            is_counted,
            text: Vec::new(alloc),
            counts: Counts::none(),
            head,
            most,
            asked,
        })
    }

    /// Takes the next row, and answers whether it is cut. Else the pass ends in front of it.
    pub fn take(&mut self, alloc: Global, row: &ByteRecord) -> Result<bool, KeepEnd>
        requires { cutter.IsReady self.old.cutter }
        ensures asked { self.new.asked ≡ self.old.asked }
        ensures ready { cutter.IsReady self.new.cutter }
        ensures taken { (p : Program) (past : List Cells) → Fits p self.old past → IfOk result (Taken p self.new past (fields_of row.now)) }
        ensures ends { (p : Program) (past : List Cells) → Fits p self.old past → IfErr result (TakeEnds (query_of p) self.old.asked past (fields_of row.now)) }
    {
        self.begin(alloc, row)?;
        let told = self.run.take(row)?;
        if self.most < self.run.counts().lines {
            return self.stop();
        }
        self.keep(row, told)?;
        self.go_on()
    }

    // Takes what the first row says of those before it.
    fn begin(&mut self, alloc: Global, row: &ByteRecord) -> Result<(), KeepEnd>
        ensures asked { self.new.asked ≡ self.old.asked }
        ensures run { self.new.run ≡ self.old.run }
        ensures cutter { self.new.cutter ≡ self.old.cutter }
        ensures counted { self.new.is_counted ≡ self.old.is_counted }
        ensures begun { (p : Program) (past : List Cells) → Fits p self.old past → OnOk result (Cuts p self.new past (past ++ fields_of row.now ∷ [])) }
        ensures ends { (p : Program) (past : List Cells) → Fits p self.old past →
            IfErr result (λ end. (past ≡ []) × BeginEnds self.old.asked (fields_of row.now) end) }
    {
        if self.counts.rows == 0 {
            let head = head_for(alloc, self.asked.sum, row)?;
            self.most = most_of(self.asked.taken, &head)?;
            self.head = head;
        }
        Ok(())
    }

    // Ends the pass. The rows that the first one speaks of were there.
    fn stop(&self) -> Result<bool, KeepEnd>
        ensures stops { (p : Program) (past : List Cells) (row : Cells) → Cuts p self.now past (past ++ row ∷ []) →
            IfOk result (λ is_cut. (is_cut ≡ false) × Cuts p self.now past past) }
        ensures ends { IfErr result (λ end. (end ≡ OtherRows) × (self.now.counts.rows < self.now.head.kept)) }
    {
        if self.counts.rows < self.head.kept {
            return Err(KeepEnd::OtherRows);
        }
        Ok(false)
    }

    // Keeps a row of which this is told, if it may stay.
    fn keep(&mut self, row: &ByteRecord, told: Option<Judged>) -> Result<(), AllocError>
        requires { cutter.IsReady self.old.cutter }
        ensures ready { cutter.IsReady self.new.cutter }
        ensures cutter { (p : Program) (past : List Cells) →
            let q = query_of p in let before = written q past in let next = event_of_cells p.header.schema (fields_of row.now) in
            Tells q before next told → HasRows q (events_in read before) next self.old.run.engine.rows → Keeps p self.old.is_counted self.old.cutter before →
            OnOk result (Keeps p self.old.is_counted self.new.cutter (written q (past ++ fields_of row.now ∷ []))) }
        ensures others { self.new ≡ record self.old { cutter = self.new.cutter; text = self.new.text } }
    {
        match told {
            Some(judged) => self.keep_event(row, judged),
            None => Ok(()),
        }
    }

    // Keeps the row of an event that does this, if it may stay.
    fn keep_event(&mut self, row: &ByteRecord, judged: Judged) -> Result<(), AllocError>
        requires { cutter.IsReady self.old.cutter }
        ensures ready { cutter.IsReady self.new.cutter }
        ensures cutter { (p : Program) (past : List Cells) →
            let q = query_of p in let before = written q past in let next = event_of_cells p.header.schema (fields_of row.now) in
            IsTurn q before next judged → HasRows q (events_in read before) next self.old.run.engine.rows → Keeps p self.old.is_counted self.old.cutter before →
            OnOk result (Keeps p self.old.is_counted self.new.cutter (written q (past ++ fields_of row.now ∷ []))) }
        ensures others { self.new ≡ record self.old { cutter = self.new.cutter; text = self.new.text } }
    {
        self.tell_rows()?;
        if !self.cutter.takes(judged.what) {
            self.cutter.pass_over(judged);
            return Ok(());
        }
        put_text(row, &mut self.text)?;
        self.cutter.take(judged, &self.text)?;
        Ok(())
    }

    // Tells the cutter of the rows that the last turn wrote, where they are counted.
    fn tell_rows(&mut self) -> Result<(), AllocError>
        requires { cutter.IsReady self.old.cutter }
        ensures ready { cutter.IsReady self.new.cutter }
        ensures told { (p : Program) (before : List Written) (e : AnyEvent) → self.old.run.engine.rows ≡ turn_rows (query_of p) (events_in read before) e →
            Keeps p self.old.is_counted self.old.cutter before → OnOk result (KeepsWritten p self.old.is_counted self.new.cutter before e) }
        ensures others { self.new ≡ record self.old { cutter = self.new.cutter } }
    {
        if self.is_counted {
            self.cutter.write(self.run.rows())?;
        }
        Ok(())
    }

    // Goes on behind a row that is cut. Those that the first one speaks of write as many lines as it says.
    fn go_on(&mut self) -> Result<bool, KeepEnd>
        ensures counts { self.new ≡ record self.old { counts = self.old.run.counts } }
        ensures cut { IfOk result (λ is_cut. is_cut ≡ true) }
        ensures own { OnOk result (self.old.run.counts.rows ≡ self.old.head.kept → self.old.run.counts.lines ≡ self.old.head.own) }
        ensures ends { IfErr result (λ end. (end ≡ OtherRows) × (self.old.run.counts.rows ≡ self.old.head.kept)
            × (self.old.run.counts.lines ≢ self.old.head.own)) }
    {
        self.counts = self.run.counts();
        if self.counts.rows == self.head.kept && self.counts.lines != self.head.own {
            return Err(KeepEnd::OtherRows);
        }
        Ok(true)
    }

    /// What stands in the place of the rows that are cut.
    pub fn finish(self, alloc: Global, at_end: bool) -> Result<Cut, KeepEnd>
        requires { cutter.IsReady self.cutter }
        ensures cut { (p : Program) (past all : List Cells) → Cuts p self past all → IfOk result (IsCutAs (query_of p) self.asked self.head past at_end) }
        ensures ends { (p : Program) (past all : List Cells) → Cuts p self past all →
            IfErr result (FinishEnds (query_of p) self.asked self.head past at_end) }
    {
        let Pass {
            run,
            cutter,
            is_counted: _,
            text: _,
            counts,
            head,
            most: _,
            asked,
        } = self;
        let stay = stay_of(alloc, run.into_program(), cutter)?;
        cut_by(alloc, asked, head, counts, &stay, at_end)
    }
}

// What stands in the place of rows that come to these counts, and of which these stay.
fn cut_by(
    alloc: Global,
    asked: Asked,
    old: Head,
    counts: Counts,
    stay: &Stay,
    at_end: bool,
) -> Result<Cut, KeepEnd>
    ensures cut { (q : Query) (past : List Cells) → counts ≡ counts_of q (rows_of q past) → IsStay q past stay.now →
        IfOk result (IsCutAs q asked old past at_end) }
    ensures ends { (q : Query) (past : List Cells) → counts ≡ counts_of q (rows_of q past) → IsStay q past stay.now →
        IfErr result (FinishEnds q asked old past at_end) }
{
    if counts.rows < old.kept {
        return Err(KeepEnd::OtherRows);
    }
    let head = old.behind(asked.sum, stay.records, counts, stay.own);
    asked.check(&head, at_end)?;
    Ok(Cut {
        head,
        text: stay.behind(alloc, &head)?,
        at_end,
    })
}

// What the first row says of those before it, where it speaks of rows that were cut for this query.
fn head_for(alloc: Global, sum: u64, row: &ByteRecord) -> Result<Head, KeepEnd>
    ensures says { IfOk result (Says (fields_of row.now)) }
    ensures of { IfOk result (IsOf sum) }
    ensures ends { IfErr result (FirstEnds sum (fields_of row.now)) }
{
    let head = Head::of(alloc, row)?;
    if head == Head::none() {
        return Ok(head);
    }
    if head.kept == 0 {
        return Err(KeepEnd::BadHead);
    }
    if head.sum != sum {
        return Err(KeepEnd::OtherQuery);
    }
    Ok(head)
}

// How many lines rows with this head may write, of which so many of all were taken.
fn most_of(taken: Option<u64>, head: &Head) -> Result<u64, KeepEnd>
    ensures limit { IfOk result (IsLimit taken head.now) }
    ensures gone { IfErr result (λ end. (end ≡ Gone) × AreGone taken head.now) }
{
    let Some(taken) = taken else {
        return Ok(u64::MAX);
    };
    match taken.checked_sub(head.lines) {
        Some(left) => Ok(left.saturating_add(head.own)),
        None => Err(KeepEnd::Gone),
    }
}
