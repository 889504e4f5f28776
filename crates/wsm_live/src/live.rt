//! A run over a growing log, and its journal.

ghost use Rattle.std.specs.Prelude.{◌≡◌, ◌⊎◌, ◌++◌, ◌∷◌, [], List, ℕ, IfErr, IfOk, IsErrOf, OnErr, OnOk, false, true, length, map, option_map, slice_get, Some};
ghost use Rattle.wsm_journal.specs.Text.{Entry, are_rows, is_position};
ghost use Rattle.wsm_journal.specs.Reading.{read_journal};
ghost use Rattle.wsm_journal.specs.Folder.{bytes_of};
ghost use Rattle.wsm_journal.specs.Calls.{IfKnown, LeavesSince};
ghost use Rattle.wsm_journal.specs.Kept.{HasOneMore, IsCaused, IsOpen, entry_behind, folder_of, is_kept, last_of, records_in, records_of};
ghost use Rattle.wsm_journal.specs.Seen.{entry_seen};
ghost use Rattle.wsm_journal.specs.declared.journal_file.JournalFile.{JournalFile as AnyJournal};
ghost use Rattle.wsm_follow.specs.Ended.{ended_lines, kept_lines};
ghost use Rattle.wsm_live.specs.HeadSeen.{row_in};
ghost use Rattle.wsm_live.specs.Live.{AddsCut, GoneOn, IsBegun, IsBehind, IsCut, IsLeftBegun, IsLeftOpened, IsLeftOrCut, IsStill, IsUnfit, Opened, Resumed, Took, begun, chunk_lines, error_of, front_of, head_kept, journal_of, last_position, longest_of, name_kept, position_of, rows_of_text, run_of, taker_of};
ghost use Rattle.wsm_live.specs.declared.live.LiveError.TheVariants.{Memory};

use crate::cuts::replace_by_head;
use crate::head::{HeadRow, behind_row, is_headed, name_in, own_row};
use crate::rows::put_rows;
use crate::run::{LineTaker, LiveRun, rest_of};
use std::alloc::{AllocError, Global};
use wsm_journal::{
    FolderError, JournalError, JournalFile, JournalFolder, Record, ReplaceError, read_journal,
};

/// Why a run wasn't begun, or lines not taken.
#[derive(Clone, Copy, Debug, PartialEq, Eq)]
pub enum LiveError {
    /// There was no memory, or 2^64 - 1 lines were written.
    Memory,
    /// A call of the folder failed.
    Failed,
    /// No number is behind that of the last record.
    Full,
    /// A record isn't whole behind which another is, or the head can't be read.
    Damaged,
    /// The journal is of another run.
    Other,
}

impl From<AllocError> for LiveError {
    ghost from_gives = { λ _ e. e ≡ Memory };

    fn from(_: AllocError) -> Self {
        LiveError::Memory
    }
}

impl From<JournalError> for LiveError {
    ghost from_gives = { λ error e. e ≡ error_of error };

    fn from(error: JournalError) -> Self {
        match error {
            JournalError::Memory => LiveError::Memory,
            JournalError::Failed => LiveError::Failed,
            JournalError::Full => LiveError::Full,
            JournalError::Damaged => LiveError::Damaged,
        }
    }
}

// Puts bytes in the place of others.
fn put(bytes: &[u8], place: &mut Vec<u8>) -> Result<(), AllocError>
    ensures { OnOk result (place.new.items ≡ bytes.now) }
{
    place.clear();
    place.extend_from_slice(bytes)
}

// The position of the last record.
fn position_behind<'t>(first: &Record<'t>, chunks: &[Record<'t>]) -> &'t [u8]
    ensures { result.now ≡ last_position first.now.position.now (map entry_seen chunks.now) }
{
    match chunks.last() {
        Some(last) => last.position,
        None => first.position,
    }
}

// A run that took no line goes on behind what a journal's first record stands for.
fn resumed_behind<T: LineTaker>(
    run: LiveRun<T>,
    head: &[u8],
    first: &Record<'_>,
) -> Result<LiveRun<T>, LiveError>
    ensures { (chunks : List Entry) → IfOk result (λ r. Resumed T.turn T.stands T.states head.now (entry_seen first.now ∷ chunks) run r) }
{
    if !is_headed(head, first.rows) {
        return Err(LiveError::Other);
    }
    match run.resume(behind_row(head, first.rows))? {
        Some(run) => Ok(run),
        None => Err(LiveError::Damaged),
    }
}

// The same of a journal that has these records: behind nothing where it has none.
fn resumed<T: LineTaker>(
    run: LiveRun<T>,
    head: &[u8],
    records: &[Record<'_>],
) -> Result<LiveRun<T>, LiveError>
    ensures { IfOk result (λ r. Resumed T.turn T.stands T.states head.now (map entry_seen records.now) run r) }
{
    match records.first() {
        Some(first) => resumed_behind(run, head, first),
        None => Ok(run),
    }
}

// Puts the rows of a head that stands for a run's lines in the place of others, and answers whether it says what they came to.
fn put_head<T: LineTaker>(
    head: &[u8],
    run: &mut LiveRun<T>,
    rows: &mut Vec<u8>,
) -> Result<bool, AllocError>
    ensures rows { IfOk result (λ is_said. is_said ≡ true → AddsCut T.turn T.stands T.states run.old head.now rows.new.items) }
    ensures said { (by : T.By) (before : List (List ℕ)) → IsBehind T.turn T.stands run.old by before →
        IfOk result (λ is_said. is_said ≡ T.can_say (taker_of run.old) by before) }
    ensures still { OnOk result (IsStill T.turn T.stands run.old run.new) }
    ensures longest { longest_of run.new ≡ longest_of run.old }
{
    put(head, rows)?;
    run.save(rows)
}

/// The lines that the head of a journal stands for: how many lines were handed out for them, and the sum of those.
#[derive(Clone, Copy, Debug, PartialEq, Eq)]
pub struct Front {
    pub count: u64,
    pub sum: u32,
}

/// A run over a growing log: its journal, in which each line is on the disk before it is taken, and what it has come to.
#[derive(Drop)]
pub struct Live<F: JournalFolder, T: LineTaker> {
    journal: JournalFile<F>,
    run: LiveRun<T>,
    // What the journal's head stood for as it was opened.
    front: Front,
    // The row that the journal's head begins with, and the name in it.
    head: Vec<u8>,
    name: Vec<u8>,
    // Where in the log the last record stands.
    position: Vec<u8>,
    // What is kept next.
    rows: Vec<u8>,
}

impl<F: JournalFolder, T: LineTaker> Live<F, T> {
    ghost use Rattle.wsm_journal.specs.Kept.{IsOpen, records_of};

    /// Opens a folder's journal for a run that took no line. Where lines were cut the run goes on from what the head says that they
    /// came to. All lines behind the head are taken, and what is handed out for them is added. A journal without a record is begun
    /// with a head, at a position of the log.
    ///
    /// # Errors
    ///
    /// There was no memory, a call of the folder failed, a record isn't whole behind which another is, the head can't be read, or the
    /// journal has another one. Nothing is added, and the folder is handed back. A power cut at any moment, here as where it goes well,
    /// leaves what it might have left before, the records that are read now, or, where there is none, the new head or a part of it.
    pub fn open(
        alloc: Global,
        folder: F,
        run: LiveRun<T>,
        head: &HeadRow,
        begin: &[u8],
        out: &mut Vec<u8>,
    ) -> Result<Live<F, T>, (LiveError, F)>
        requires position { is_position begin.now ≡ true }
        ensures settled { IfOk result (λ live. IsOpen F.folder (journal_of live)) }
        ensures records { IfOk result (λ live. records_of F.folder (journal_of live)
            ≡ option_map (λ d. begun (row_in head.now) begin.now (records_in d)) (F.folder folder)) }
        ensures opened { IfOk result (λ live. IfKnown (F.folder folder)
            (λ d. Opened T.turn T.stands T.states (row_in head.now) begin.now (records_in d) run live out.old.items out.new.items)) }
        ensures kept { OnErr result (out.new.items ≡ out.old.items) }
        ensures any_moment { IfOk result
            (λ live. LeavesSince F.moment F.left_since folder (folder_of (journal_of live)) (IsLeftOpened (F.folder folder) (row_in head.now) begin.now)) }
        ensures any_moment_err { IfErr result (λ e. LeavesSince F.moment F.left_since folder e.1 (IsLeftOpened (F.folder folder) (row_in head.now) begin.now)) }
    {
        match JournalFile::open(alloc, folder) {
            Ok((journal, bytes)) => Live::opened(alloc, journal, run, &bytes, head, begin, out),
            Err((error, folder)) => Err((LiveError::from(error), folder)),
        }
    }

    // The same of a journal that was opened and has these bytes.
    fn opened(
        alloc: Global,
        journal: JournalFile<F>,
        run: LiveRun<T>,
        bytes: &[u8],
        head: &HeadRow,
        begin: &[u8],
        out: &mut Vec<u8>,
    ) -> Result<Live<F, T>, (LiveError, F)>
        requires settled { IsOpen F.folder journal }
        requires position { is_position begin.now ≡ true }
        ensures settled { IfOk result (λ live. IsOpen F.folder (journal_of live)) }
        ensures records { IfOk result (λ live. IsBegun (read_journal bytes.now).entries (last_of journal) (row_in head.now) begin.now
            (records_of F.folder journal) (records_of F.folder (journal_of live))) }
        ensures opened { IfOk result (λ live. Opened T.turn T.stands T.states (row_in head.now) begin.now
            (read_journal bytes.now).entries run live out.old.items out.new.items) }
        ensures kept { OnErr result (out.new.items ≡ out.old.items) }
        ensures any_moment { IfOk result
            (λ live. LeavesSince F.moment F.left_since (folder_of journal) (folder_of (journal_of live))
            (IsLeftBegun (F.folder (folder_of journal)) (read_journal bytes.now).entries (last_of journal) (row_in head.now) begin.now)) }
        ensures any_moment_err { IfErr result
            (λ e. LeavesSince F.moment F.left_since (folder_of journal) e.1
            (IsLeftBegun (F.folder (folder_of journal)) (read_journal bytes.now).entries (last_of journal) (row_in head.now) begin.now)) }
    {
        match read_journal(alloc, bytes) {
            Ok(read) => Live::opened_by(alloc, journal, run, &read.records, head, begin, out),
            Err(error) => Err((LiveError::from(error), journal.into_folder())),
        }
    }

    // The same of a journal that has these records.
    fn opened_by(
        alloc: Global,
        journal: JournalFile<F>,
        run: LiveRun<T>,
        records: &[Record<'_>],
        head: &HeadRow,
        begin: &[u8],
        out: &mut Vec<u8>,
    ) -> Result<Live<F, T>, (LiveError, F)>
        requires settled { IsOpen F.folder journal }
        requires position { is_position begin.now ≡ true }
        ensures settled { IfOk result (λ live. IsOpen F.folder (journal_of live)) }
        ensures records { IfOk result (λ live. IsBegun (map entry_seen records.now) (last_of journal) (row_in head.now) begin.now (records_of F.folder journal)
            (records_of F.folder (journal_of live))) }
        ensures opened { IfOk result (λ live. Opened T.turn T.stands T.states (row_in head.now) begin.now
            (map entry_seen records.now) run live out.old.items out.new.items) }
        ensures kept { OnErr result (out.new.items ≡ out.old.items) }
        ensures any_moment { IfOk result
            (λ live. LeavesSince F.moment F.left_since (folder_of journal) (folder_of (journal_of live))
            (IsLeftBegun (F.folder (folder_of journal)) (map entry_seen records.now) (last_of journal) (row_in head.now) begin.now)) }
        ensures any_moment_err { IfErr result
            (λ e. LeavesSince F.moment F.left_since (folder_of journal) e.1
            (IsLeftBegun (F.folder (folder_of journal)) (map entry_seen records.now) (last_of journal) (row_in head.now) begin.now)) }
    {
        match resumed(run, head.bytes(), records) {
            Ok(run) => {
                let front = Front {
                    count: run.count(),
                    sum: run.sum(),
                };
                let mut live = Live {
                    journal,
                    run,
                    front,
                    head: Vec::new(alloc),
                    name: Vec::new(alloc),
                    position: Vec::new(alloc),
                    rows: Vec::new(alloc),
                };
                match live.take_records(records, head, begin, out) {
                    Ok(()) => Ok(live),
                    Err(error) => Err((error, live.into_folder())),
                }
            }
            Err(error) => Err((error, journal.into_folder())),
        }
    }

    // Goes on over the records of its journal, where the run stands behind what their head stands for.
    fn take_records(
        &mut self,
        records: &[Record<'_>],
        head: &HeadRow,
        begin: &[u8],
        out: &mut Vec<u8>,
    ) -> Result<(), LiveError>
        requires settled { IsOpen F.folder (journal_of self.old) }
        requires position { is_position begin.now ≡ true }
        ensures settled { OnOk result (IsOpen F.folder (journal_of self.new)) }
        ensures records { OnOk result (IsBegun (map entry_seen records.now) (last_of (journal_of self.old)) (row_in head.now) begin.now
            (records_of F.folder (journal_of self.old)) (records_of F.folder (journal_of self.new))) }
        ensures gone_on { OnOk result (GoneOn T.turn T.stands (row_in head.now) begin.now (map entry_seen records.now)
            (run_of self.old) self.new out.old.items out.new.items) }
        ensures front { front_of self.new ≡ front_of self.old }
        ensures kept { OnErr result (out.new.items ≡ out.old.items) }
        ensures any_moment { LeavesSince F.moment F.left_since (folder_of (journal_of self.old)) (folder_of (journal_of self.new))
            (IsLeftBegun (F.folder (folder_of (journal_of self.old))) (map entry_seen records.now) (last_of (journal_of self.old))
            (row_in head.now) begin.now) }
    {
        match records.first() {
            Some(first) => self.go_on(first, records, head, out),
            None => self.begin_anew(head, begin),
        }
    }

    // Begins a journal without a record.
    fn begin_anew(&mut self, head: &HeadRow, begin: &[u8]) -> Result<(), LiveError>
        requires settled { IsOpen F.folder (journal_of self.old) }
        requires position { is_position begin.now ≡ true }
        ensures settled { OnOk result (IsOpen F.folder (journal_of self.new)) }
        ensures records { OnOk result (IsBegun [] (last_of (journal_of self.old)) (row_in head.now) begin.now (records_of F.folder (journal_of self.old))
            (records_of F.folder (journal_of self.new))) }
        ensures gone_on { (text : List ℕ) → OnOk result (GoneOn T.turn T.stands (row_in head.now) begin.now [] (run_of self.old) self.new text text) }
        ensures front { front_of self.new ≡ front_of self.old }
        ensures any_moment { LeavesSince F.moment F.left_since (folder_of (journal_of self.old)) (folder_of (journal_of self.new))
            (HasOneMore (F.folder (folder_of (journal_of self.old))) (entry_behind (last_of (journal_of self.old)) 0 (row_in head.now) begin.now)) }
    {
        let row = head.bytes();
        self.journal.append(0, row, begin)?;
        put(row, &mut self.head)?;
        put(name_in(row), &mut self.name)?;
        put(begin, &mut self.position)?;
        Ok(())
    }

    // Takes the lines of records behind their first one.
    fn go_on(
        &mut self,
        first: &Record<'_>,
        records: &[Record<'_>],
        head: &HeadRow,
        out: &mut Vec<u8>,
    ) -> Result<(), LiveError>
        requires first { Some first.now ≡ slice_get records.now 0 }
        ensures records { (begin : List ℕ) →
            OnOk result (IsBegun (map entry_seen records.now) (last_of (journal_of self.old)) (row_in head.now) begin
            (records_of F.folder (journal_of self.old)) (records_of F.folder (journal_of self.new))) }
        ensures gone_on { (begin : List ℕ) →
            OnOk result (GoneOn T.turn T.stands (row_in head.now) begin (map entry_seen records.now) (run_of self.old) self.new out.old.items out.new.items) }
        ensures kept { OnErr result (out.new.items ≡ out.old.items) }
        ensures others { (journal_of self.new ≡ journal_of self.old) × (front_of self.new ≡ front_of self.old) }
    {
        let chunks = rest_of(records);
        put(own_row(head.bytes(), first.rows), &mut self.head)?;
        put(name_in(first.rows), &mut self.name)?;
        put(position_behind(first, chunks), &mut self.position)?;
        self.run.take_all(chunks, out)?;
        Ok(())
    }

    /// Takes the lines of a text that have ended, behind which the log stands at a position. They are kept in the journal, on the
    /// disk, before they are taken, and what is handed out for them is added. Answers how many lines they are.
    ///
    /// # Errors
    ///
    /// There was no memory, a call of the folder failed, or no number is left. Nothing is added, and the journal has to be opened
    /// again.
    pub fn append(
        &mut self,
        text: &[u8],
        position: &[u8],
        out: &mut Vec<u8>,
    ) -> Result<usize, LiveError>
        requires settled { IsOpen F.folder (journal_of self.old) }
        requires position { is_position position.now ≡ true }
        ensures settled { OnOk result (IsOpen F.folder (journal_of self.new)) }
        ensures records { OnOk result (records_of F.folder (journal_of self.new)
            ≡ option_map (λ es. es ++ entry_behind (last_of (journal_of self.old)) (length (ended_lines text.now)) (rows_of_text text.now) position.now ∷ [])
            (records_of F.folder (journal_of self.old))) }
        ensures takes { OnOk result (Took T.turn T.stands (kept_lines (longest_of (run_of self.old)) (ended_lines text.now)) (run_of self.old)
            (run_of self.new) out.old.items out.new.items) }
        ensures longest { longest_of (run_of self.new) ≡ longest_of (run_of self.old) }
        ensures kept { OnErr result (out.new.items ≡ out.old.items) }
        ensures any_moment { LeavesSince F.moment F.left_since (folder_of (journal_of self.old)) (folder_of (journal_of self.new))
            (HasOneMore (F.folder (folder_of (journal_of self.old)))
            (entry_behind (last_of (journal_of self.old)) (length (ended_lines text.now)) (rows_of_text text.now) position.now)) }
        ensures front { front_of self.new ≡ front_of self.old }
        ensures position { OnOk result (position_of self.new ≡ position.now) }
        ensures count { IfOk result (λ count. count ≡ length (ended_lines text.now)) }
    {
        let count = put_rows(text, &mut self.rows)?;
        self.journal.append(count as u64, &self.rows, position)?;
        self.position.clear();
        self.position.extend_from_slice(position)?;
        self.run.take(&self.rows, out)?;
        Ok(count)
    }

    /// Puts a head in the place of all records: it says what the lines so far came to, and the run goes on behind it. Answers false
    /// where that can't be said now, or a journal can't have such a head; all is as it was then. A power cut at any moment leaves the journal as it was, or that head.
    ///
    /// # Errors
    ///
    /// There was no memory, or a call of the folder failed: [`ReplaceError`] says whether the journal and the run go on as they were.
    pub fn cut(&mut self, alloc: Global) -> Result<bool, ReplaceError>
        requires settled { IsOpen F.folder (journal_of self.old) }
        ensures settled { OnOk result (IsOpen F.folder (journal_of self.new)) }
        ensures cut { IfOk result (λ is_cut. is_cut ≡ true →
            IsCut T.turn T.stands T.states self.old (records_of F.folder (journal_of self.old)) (records_of F.folder (journal_of self.new))) }
        ensures uncut { IfOk result (λ is_cut. is_cut ≡ false → records_of F.folder (journal_of self.new) ≡ records_of F.folder (journal_of self.old)) }
        ensures said { (by : T.By) (before : List (List ℕ)) → IsBehind T.turn T.stands (run_of self.old) by before →
            IfOk result (λ is_cut. is_cut ≡ true → T.can_say (taker_of (run_of self.old)) by before ≡ true) }
        ensures unsaid { (by : T.By) (before : List (List ℕ)) → IsBehind T.turn T.stands (run_of self.old) by before →
            IfOk result (λ is_cut. is_cut ≡ false → (T.can_say (taker_of (run_of self.old)) by before ≡ false) ⊎ IsUnfit T.turn T.stands T.states self.old) }
        ensures still { OnOk result (IsStill T.turn T.stands (run_of self.old) (run_of self.new)) }
        ensures kept { IfErr result (λ e. is_kept e ≡ true →
            IsOpen F.folder (journal_of self.new) × (records_of F.folder (journal_of self.new) ≡ records_of F.folder (journal_of self.old))
            × IsStill T.turn T.stands (run_of self.old) (run_of self.new)) }
        ensures any_moment { LeavesSince F.moment F.left_since (folder_of (journal_of self.old)) (folder_of (journal_of self.new))
            (IsLeftOrCut T.turn T.stands T.states self.old (F.folder (folder_of (journal_of self.old)))) }
        ensures failed { IfErr result (IsCaused (F.has_failed (folder_of (journal_of self.new)))) }
        ensures longest { longest_of (run_of self.new) ≡ longest_of (run_of self.old) }
        ensures front { front_of self.new ≡ front_of self.old }
        ensures head { head_kept self.new ≡ head_kept self.old }
        ensures name { name_kept self.new ≡ name_kept self.old }
        ensures position { position_of self.new ≡ position_of self.old }
    {
        match put_head(&self.head, &mut self.run, &mut self.rows) {
            Ok(true) => replace_by_head(alloc, &mut self.journal, &self.rows, &self.position),
            Ok(false) => Ok(false),
            Err(error) => Err(ReplaceError::Either(FolderError::from(error))),
        }
    }

    /// Where in the log the last record stands.
    pub fn position(&self) -> &[u8]
        ensures { result.now ≡ position_of self.now }
    {
        &self.position
    }

    /// The name that the journal's head has.
    pub fn name(&self) -> &[u8]
        ensures { result.now ≡ name_kept self.now }
    {
        &self.name
    }

    /// What the journal's head stood for as it was opened: the lines that were handed out then are those behind it.
    pub fn front(&self) -> Front
        ensures { result ≡ front_of self.now }
    {
        self.front
    }

    /// The run.
    pub fn run(&self) -> &LiveRun<T>
        ensures { result.now ≡ run_of self.now }
    {
        &self.run
    }

    /// The folder.
    pub fn into_folder(self) -> F
        ensures { result ≡ folder_of (journal_of self) }
    {
        self.journal.into_folder()
    }
}
