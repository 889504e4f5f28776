//! What is kept of the rows so far.

ghost use Rattle.std.specs.Prelude.{◌≡◌, ◌∷◌, ◌++◌, ℕ, List, [], Ok, false, length, map, unwrap_or, pos, ◌-ℤ◌, ◌≤ℤ◌, IfOk, IfSome, OnOk};
ghost use Rattle.wsm_record.specs.declared.words.Form.TheVariants.{Panes};
ghost use Rattle.wsm_record.specs.Event.{Event as AnyEvent};
ghost use Rattle.wsm_windows.specs.Windows.{IsShape, IsSpan};
ghost use Rattle.wsm_semantics.specs.Query.{Query, mark};
ghost use Rattle.wsm_semantics.specs.FromWatermark.{dropped_times};
ghost use Rattle.wsm_semantics.specs.LastingRows.{rows_so_far};
ghost use Rattle.wsm_keep.specs.Staying.{events_in, row_of, staying};
ghost use Rattle.wsm_keep.specs.Holds.{Written, read, text_of};
ghost use Rattle.wsm_keep.specs.Begins.{HasBegun, HasCounted, begins_of};
ghost use Rattle.wsm_keep.specs.WrittenBeyond.{rows_beyond};
ghost use Rattle.wsm_keep.specs.Keeper.{AreAdded, Fits, IsCut, IsLawfulQuery, IsTold, SelectsTaken};
ghost use Rattle.wsm_keep.specs.Keeper.{queue_at, queued_if, since_at, takes as takes_what};

use crate::begins::{Begin, add_begins, leave_beyond};
use crate::cut::firsts_at;
use crate::queue::Queue;
use crate::what::What;
use std::alloc::{AllocError, Global};
use std::mem;
use wsm_record::Form;
use wsm_semantics::OutRow;
use wsm_windows::{Shape, is_time};

// How many rows are in a queue at least before it is cut.
const FEW: usize = 4096;

// How many there are then for each that stayed at the last cut. Each cut looks at all of them.
const GROWTH: usize = 4;

/// What is told of an event: what it does, the watermark before where the event raises it, and the watermark then.
#[derive(Clone, Copy)]
pub struct Judged {
    pub what: What,
    pub rise: Option<i64>,
    pub mark: i64,
}

/// What remains of rows: those that stay, the oldest first; and how many rows were written, of those that were told, for
/// windows that begin beyond the times up to which records go.
#[derive(Drop)]
pub struct Remains {
    pub queue: Queue,
    pub written: usize,
}

/// The rows so far that may stay: where panes are written those that do something, and for streams all events since the last
/// rise of the watermark, behind what was queued before it.
#[derive(Drop)]
pub struct Keeper {
    shape: Shape,
    lateness: i64,
    form: Form,
    queue: Queue,
    since: Queue,
    // Of rows that were written, and told, where their windows begin: of those that may begin with records that stay.
    begins: Vec<Begin>,
    // The watermark before the last rise, or that of now where panes are written.
    before: i64,
    // How many rows the queue may have before it is cut.
    most: usize,
}

impl Keeper {
    /// Before the first row, of a query that begins at a watermark.
    pub fn open(alloc: Global, shape: Shape, lateness: i64, form: Form, start: i64) -> Keeper
        ensures shape { result.shape ≡ shape }
        ensures lateness { result.lateness ≡ lateness }
        ensures begins { result.begins.items ≡ [] }
        ensures fits { (q : Query) → IsLawfulQuery q → shape ≡ q.shape → lateness ≡ q.clock.lateness → form ≡ q.form → start ≡ mark q [] → Fits q result [] }
    {
        Keeper {
            shape,
            lateness,
            form,
            queue: Queue::new(alloc),
            since: Queue::new(alloc),
            begins: Vec::new(alloc),
            before: start,
            most: FEW,
        }
    }

    /// Takes the rows that the turn of the next event writes, before that event, where they are counted.
    pub fn write(&mut self, rows: &[OutRow]) -> Result<(), AllocError>
        ensures begins { OnOk result (self.new.begins.items ≡ self.old.begins.items ++ begins_of rows.now) }
        ensures others { self.new ≡ record self.old { begins = self.new.begins } }
    {
        add_begins(&mut self.begins, rows)
    }

    /// Whether a row may stay whose event does this. Of another one no text is asked for.
    pub fn takes(&self, what: What) -> bool
        ensures { result ≡ takes_what self.now.form what }
    {
        !(self.form == Form::Panes && what == What::Idle)
    }

    /// Passes over the next row that is an event, which can't stay.
    pub fn pass_over(&mut self, judged: Judged)
        requires { takes_what self.old.form judged.what ≡ false }
        ensures shape { self.new.shape ≡ self.old.shape }
        ensures lateness { self.new.lateness ≡ self.old.lateness }
        ensures begins { self.new.begins ≡ self.old.begins }
        ensures fits { (q : Query) (rows : List Written) (e : AnyEvent) (text : List ℕ) → IsLawfulQuery q → Fits q self.old rows → IsTold q rows e judged →
            Fits q self.new ((Ok e, text) ∷ rows) }
    {
        self.before = judged.mark;
    }

    /// Takes the next row that is an event, with what is told of it.
    pub fn take(&mut self, judged: Judged, text: &[u8]) -> Result<(), AllocError>
        requires shape { IsShape self.old.shape }
        requires lateness { IsSpan self.old.lateness }
        ensures shape { self.new.shape ≡ self.old.shape }
        ensures lateness { self.new.lateness ≡ self.old.lateness }
        ensures fits { (q : Query) (rows : List Written) (e : AnyEvent) → IsLawfulQuery q → Fits q self.old rows → IsTold q rows e judged →
            OnOk result (Fits q self.new ((Ok e, text.now) ∷ rows)) }
        ensures begun { (q : Query) (rows : List Written) (e : AnyEvent) → IsLawfulQuery q → q.form ≡ Panes → Fits q self.old rows → IsTold q rows e judged →
            HasBegun q (e ∷ events_in read rows) self.old.begins.items → OnOk result (HasBegun q (e ∷ events_in read rows) self.new.begins.items) }
    {
        self.queue_row(judged, text)?;
        if self.most <= self.queue.len() {
            self.cut()?;
        }
        Ok(())
    }

    // Queues a row.
    fn queue_row(&mut self, judged: Judged, text: &[u8]) -> Result<(), AllocError>
        ensures shape { self.new.shape ≡ self.old.shape }
        ensures lateness { self.new.lateness ≡ self.old.lateness }
        ensures begins { self.new.begins ≡ self.old.begins }
        ensures fits { (q : Query) (rows : List Written) (e : AnyEvent) → IsLawfulQuery q → Fits q self.old rows → IsTold q rows e judged →
            OnOk result (Fits q self.new ((Ok e, text.now) ∷ rows)) }
    {
        match self.form {
            Form::Panes => self.queue_for_panes(judged, text),
            _ => self.queue_for_streams(judged, text),
        }
    }

    // Queues a row that does something, where panes are written.
    fn queue_for_panes(&mut self, judged: Judged, text: &[u8]) -> Result<(), AllocError>
        ensures others { self.new ≡ record self.old { queue = self.new.queue; before = self.new.before } }
        ensures before { self.new.before ≡ judged.mark }
        ensures queue { OnOk result (self.new.queue ≡ queued_if judged.what text.now self.old.queue) }
    {
        self.before = judged.mark;
        match judged.what {
            What::Idle => Ok(()),
            what => self.queue.push(what, text),
        }
    }

    // Has a row wait for the next rise. At a rise all that waited are queued.
    fn queue_for_streams(&mut self, judged: Judged, text: &[u8]) -> Result<(), AllocError>
        ensures others { self.new ≡ record self.old { queue = self.new.queue; since = self.new.since; before = self.new.before } }
        ensures before { OnOk result (self.new.before ≡ unwrap_or judged.rise self.old.before) }
        ensures queue { OnOk result (self.new.queue ≡ queue_at judged.rise self.old.since self.old.queue) }
        ensures since { OnOk result (self.new.since ≡ (judged.what, text.now) ∷ since_at judged.rise self.old.since) }
    {
        if let Some(before) = judged.rise {
            self.before = before;
            let alloc = self.queue.allocator();
            let since = mem::replace(&mut self.since, Queue::new(alloc));
            self.queue.append(&since)?;
        }
        self.since.push(judged.what, text)
    }

    // Cuts the queue.
    fn cut(&mut self) -> Result<(), AllocError>
        requires shape { IsShape self.old.shape }
        requires lateness { IsSpan self.old.lateness }
        ensures shape { self.new.shape ≡ self.old.shape }
        ensures lateness { self.new.lateness ≡ self.old.lateness }
        ensures since { self.new.since ≡ self.old.since }
        ensures cut { (q : Query) (rows : List Written) → IsLawfulQuery q → Fits q self.old rows → OnOk result (IsCut q self.new rows) }
        ensures counted { (q : Query) (rows : List Written) → IsLawfulQuery q → q.form ≡ Panes → Fits q self.old rows →
            HasBegun q (events_in read rows) self.old.begins.items → OnOk result (HasCounted q (events_in read rows) self.new.begins.items) }
    {
        let Some(expired) = expired_at(self.before, self.lateness) else {
            return Err(AllocError);
        };
        let alloc = self.queue.allocator();
        let firsts = firsts_at(alloc, self.shape, expired, &self.queue)?;
        let queue = mem::replace(&mut self.queue, Queue::new(alloc));
        self.queue = queue.thinned(&firsts)?;
        leave_beyond(&mut self.begins, &firsts);
        self.most = self.queue.len().saturating_mul(GROWTH).max(FEW);
        Ok(())
    }

    /// Adds the texts of the rows that stay, the oldest first, behind a text, and answers how many they are. The others go.
    pub fn add_staying(&mut self, texts: &mut Vec<u8>) -> Result<usize, AllocError>
        requires shape { IsShape self.old.shape }
        requires lateness { IsSpan self.old.lateness }
        ensures shape { self.new.shape ≡ self.old.shape }
        ensures lateness { self.new.lateness ≡ self.old.lateness }
        ensures fits { (q : Query) (rows : List Written) → IsLawfulQuery q → Fits q self.old rows → OnOk result (Fits q self.new rows) }
        ensures added { (q : Query) (rows : List Written) → IsLawfulQuery q → Fits q self.old rows →
            IfOk result (AreAdded texts.old.items texts.new.items (staying read q rows)) }
    {
        self.cut()?;
        self.queue.add_texts(texts)?;
        self.since.add_texts(texts)?;
        count_of(&self.queue, &self.since)
    }

    /// What remains of the rows.
    pub fn finish(mut self) -> Result<Remains, AllocError>
        requires shape { IsShape self.shape }
        requires lateness { IsSpan self.lateness }
        ensures texts { (q : Query) (rows : List Written) → IsLawfulQuery q → Fits q self rows →
            IfOk result (λ remains. map row_of remains.queue ≡ map text_of (staying read q rows)) }
        ensures selected { (q : Query) (rows : List Written) → IsLawfulQuery q → Fits q self rows → IfOk result (λ remains. SelectsTaken q rows remains.queue) }
        ensures written { (q : Query) (rows : List Written) → IsLawfulQuery q → q.form ≡ Panes → Fits q self rows →
            HasBegun q (events_in read rows) self.begins.items →
            IfOk result (λ remains. let past = events_in read rows in remains.written ≡ length (rows_beyond (dropped_times q past) (rows_so_far q past))) }
    {
        self.cut()?;
        let Keeper {
            mut queue,
            since,
            begins,
            ..
        } = self;
        queue.append(&since)?;
        Ok(Remains {
            queue,
            written: begins.len(),
        })
    }
}

// How many rows two queues have.
fn count_of(older: &Queue, newer: &Queue) -> Result<usize, AllocError>
    ensures { IfOk result (λ count. count ≡ length (newer.now ++ older.now)) }
{
    let Some(count) = older.len().checked_add(newer.len()) else {
        return Err(AllocError);
    };
    Ok(count)
}

// The last end of windows that have expired at a watermark, which is a time.
fn expired_at(mark: i64, lateness: i64) -> Option<i64>
    requires { IsSpan lateness }
    ensures value { IfSome result (λ expired. expired ≡ mark -ℤ lateness) }
    ensures low { IfSome result (λ expired. (pos 0 -ℤ pos 1000000000000) ≤ℤ expired) }
    ensures high { IfSome result (λ expired. expired ≤ℤ pos 10000000000000000) }
{
    if is_time(mark) {
        Some(mark - lateness)
    } else {
        None
    }
}
