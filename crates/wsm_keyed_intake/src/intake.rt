//! What the lines of a log so far come to, by any number of names.

ghost use Rattle.std.specs.Prelude.{◌≤◌, [], IfOk};
ghost use Rattle.wsm_watermarks.specs.declared.table.TheConstants.{MOST_CLOCKS};
ghost use Rattle.wsm_turns.specs.Clocks.{AreClocks, named_in};
ghost use Rattle.wsm_turns.specs.Named.{Knows};
ghost use Rattle.wsm_turns.specs.Turns.{start_of};
ghost use Rattle.wsm_turns.specs.Waits.{Hear};

use crate::passing::{identifiers_of, passes, stamp_among};
use std::alloc::{AllocError, Global};
use wsm_csv::{Device, DeviceFault, end_text, write_out};
use wsm_engine::Totals;
use wsm_key_names::KeyNames;
use wsm_keyed_told::KeyedTold;
use wsm_lines::{LineFault, LineRefusal, Source};
use wsm_log_text::{LogCounts, LogTotals, add_fault, note_first};
use wsm_named_lines::NamedLines;
use wsm_part_engines::Parts;
use wsm_turns::{
    ClockNames, Clocks, Identifiers, Listener, Stamp, Taker, Voice, Waiting, clocks_heard,
    count_in, named_in, open_clocks, open_names, silent_in, stamp_by, take_record, take_rest,
    tell_heard, voice_of,
};

/// Engines of parts and what stands between them and a log: the reader of lines by names, the clocks with their names and the records
/// that wait, and the identifiers of records that came. It has the bytes that are written for the last line.
pub struct KeyedIntake {
    pub(crate) told: KeyedTold,
    pub(crate) reader: NamedLines,
    pub(crate) waiting: Option<Waiting>,
    // The names of clocks, where lines name them.
    pub(crate) voices: Option<ClockNames>,
    pub(crate) identifiers: Identifiers,
    // The RECORDS of the query, of which the program of the parts may have those that are left.
    pub(crate) records: i64,
    // The first line.
    pub(crate) first: Vec<u8>,
    // The lines so far.
    pub(crate) taken: u64,
    // Those that were no event.
    pub(crate) faults: u64,
    // The records that were left out.
    pub(crate) doubles: u64,
    // Those that had no voice.
    pub(crate) silent: u64,
}

impl Drop for KeyedIntake {
    fn drop(self) {
        let KeyedIntake {
            told: _,
            reader: _,
            waiting: _,
            voices: _,
            identifiers: _,
            records: _,
            first: _,
            taken: _,
            faults: _,
            doubles: _,
            silent: _,
        } = self;
    }
}

impl KeyedIntake {
    ghost use Rattle.std.specs.Prelude.{◌≡◌, ◌++◌, ◌+◌, ◌<◌, ◌^◌, [], true, false, List, ℕ, Option, Some, Ok, IfOk, IfSome, OnErr, OnOk, length};
    ghost use Rattle.std.specs.Io.KnownBytes.{Appends};
    ghost use Rattle.wsm_record.specs.Event.{Event as AnyEvent};
    ghost use Rattle.wsm_admission.specs.Admission.{counter};
    ghost use Rattle.wsm_csv.specs.Device.{TakesPart};
    ghost use Rattle.wsm_program.specs.Program.{Program};
    ghost use Rattle.wsm_semantics.specs.Query.{mark};
    ghost use Rattle.wsm_lines.specs.Key.{are_same};
    ghost use Rattle.wsm_lines.specs.Reader.{clock_read, event_read};
    ghost use Rattle.wsm_turns.specs.declared.clocks.Clocks.{Clocks as AnyClocks};
    ghost use Rattle.wsm_turns.specs.Clocks.{AreClocks, count_in, named_in};
    ghost use Rattle.wsm_turns.specs.Named.{Knows};
    ghost use Rattle.wsm_turns.specs.Voices.{stamp_by, voiced};
    ghost use Rattle.wsm_turns.specs.Heard.{left_by};
    ghost use Rattle.wsm_turns.specs.Turns.{Kept, turn_by};
    ghost use Rattle.wsm_part_programs.specs.Names.{of_names};
    ghost use Rattle.wsm_key_names.specs.Reading.{by_names, is_named};
    ghost use Rattle.wsm_keyed_told.specs.Tells.{Serves};
    ghost use Rattle.wsm_log_text.specs.Counts.{counts_of};
    ghost use Rattle.wsm_log_text.specs.LogText.{Said, fault_count, fault_text, left_at, line_behind, turn_at, voiced_in, line_of};
    ghost use Rattle.wsm_keyed_intake.specs.KeyedLog.{KeyedLog, names_of, query_behind, said_by, setting_by};
    ghost use Rattle.wsm_keyed_intake.specs.GoesOn.{GoesOn, GoneOn};
    ghost use Rattle.wsm_keyed_intake.specs.Saved.{keeps_events};
    ghost use Rattle.wsm_keyed_intake.specs.Turns.{AreNamed, Ends, Fits, Goes, Holds, IsOpened, Speaks, Turned, spoken_read};

    /// Before the first line, by these names, of which there may be so many, with these clocks, where there are any.
    ///
    /// # Errors
    ///
    /// Memory was refused.
    pub fn open(
        alloc: Global,
        parts: Parts,
        source: Source,
        clocks: Option<Clocks>,
        names: KeyNames,
        most: u32,
    ) -> Result<KeyedIntake, AllocError>
        requires opened { IsOpened parts }
        requires texts { are_same source.key.names ≡ true }
        requires clocks { AreClocks clocks }
        requires named { AreNamed clocks }
        ensures fits { IfOk result (λ intake. Fits (record { program = parts.program; source = source; clocks = clocks; names = names; most = most }) intake []) }
        ensures goes_on { IfOk result (λ intake. GoesOn (record { program = parts.program; source = source; clocks = clocks; names = names; most = most }) intake []) }
    {
        let count = count_in(clocks, parts.block());
        let records = parts.header().clock.records;
        let (waiting, voices) = before_lines(alloc, clocks, count)?;
        let identifiers = identifiers_of(alloc, &parts);
        Ok(KeyedIntake {
            told: KeyedTold::of(alloc, parts, names),
            reader: NamedLines::new(alloc, source, most),
            waiting,
            voices,
            identifiers,
            records,
            first: Vec::new(alloc),
            taken: 0,
            faults: 0,
            doubles: 0,
            silent: 0,
        })
    }

    /// The same, and the events that the parts need are kept, so that another may go on from what this one comes to.
    ///
    /// # Errors
    ///
    /// Memory was refused.
    pub fn open_kept(
        alloc: Global,
        parts: Parts,
        source: Source,
        clocks: Option<Clocks>,
        names: KeyNames,
        most: u32,
    ) -> Result<KeyedIntake, AllocError>
        requires opened { IsOpened parts }
        requires texts { are_same source.key.names ≡ true }
        requires clocks { AreClocks clocks }
        requires named { AreNamed clocks }
        ensures goes_on { IfOk result (λ intake. GoesOn (record { program = parts.program; source = source; clocks = clocks; names = names; most = most }) intake []) }
        ensures keeps { IfOk result (λ intake. keeps_events intake ≡ true) }
    {
        let mut intake = KeyedIntake::open(alloc, parts, source, clocks, names, most)?;
        intake.told.keep(alloc);
        Ok(intake)
    }

    /// Takes the turn of a line. The bytes are then those that are written for it.
    ///
    /// # Errors
    ///
    /// Memory was refused.
    pub fn take(&mut self, line: &[u8]) -> Result<(), AllocError>
        ensures turned { (g : KeyedLog) (before : List (List ℕ)) → Fits g self.old before → OnOk result (Turned g self.new before line.now) }
        ensures goes_on { (g : KeyedLog) (before : List (List ℕ)) → GoesOn g self.old before → OnOk result (GoneOn g self.new before line.now) }
    {
        let Some(taken) = self.taken.checked_add(1) else {
            return Err(AllocError);
        };
        note_first(self.taken, line, &mut self.first)?;
        self.told.lines.clear();
        match self.reader.read(&mut self.told.names, line) {
            Ok(()) => {
                self.taken = taken;
                self.serve()
            }
            Err(LineRefusal::Fault(why)) => {
                self.taken = taken;
                self.refuse(why)
            }
            Err(LineRefusal::Memory) => Err(AllocError),
        }
    }

    // The turn of the event that was read, whose key has a name.
    fn serve(&mut self) -> Result<(), AllocError>
        requires { is_named self.old.told.names (event_read self.old.reader.reader) ≡ true }
        ensures { (clocks : Option AnyClocks) (p : Program) (all : List (List ℕ)) (k : Kept) (voices : List (List ℕ)) → Holds clocks p all self.old k →
            Knows (named_in clocks) self.old.voices voices → length k.stamps < self.old.taken →
            let v = voiced_in clocks (by_names all p.header.schema) voices (clock_read self.old.reader.reader) (Ok (event_read self.old.reader.reader)) in
            let x = spoken_read self.old.reader v.voice in
            OnOk result (Speaks clocks p all self.old self.new k v (turn_at (setting_by clocks p all) k self.old.taken (Ok x)) (left_at (setting_by clocks p all) k (Ok x))) }
    {
        let names = self.told.names.len();
        match stamp_among(names, self.told.schema(), self.reader.event()) {
            Some(stamp) => self.serve_stamped(stamp),
            None => self.told.take(self.taken, self.reader.event()),
        }
    }

    // The turn of the event that was read, with its stamp by its key.
    fn serve_stamped(&mut self, stamp: Stamp) -> Result<(), AllocError>
        requires { stamp.time < 2 ^ 63 }
        ensures { (clocks : Option AnyClocks) (p : Program) (all : List (List ℕ)) (k : Kept) (voices : List (List ℕ)) → Holds clocks p all self.old k →
            Knows (named_in clocks) self.old.voices voices → length k.stamps < self.old.taken → stamp.clock < length all →
            let v = voiced (named_in clocks) voices (clock_read self.old.reader.reader) in
            let x = spoken_read self.old.reader v.voice in
            OnOk result (Speaks clocks p all self.old self.new k v (turn_by (setting_by clocks p all) k self.old.taken (Some stamp) x) (left_by (Some stamp) x.identifier k.memory)) }
    {
        let voice = voice_of(&mut self.voices, self.reader.clock())?;
        self.silent = self.silent.saturating_add(silent_in(voice));
        self.serve_voiced(stamp, voice)
    }

    // The same by its voice. A double is left out; a record without a voice goes on at once.
    fn serve_voiced(&mut self, stamp: Stamp, voice: Voice) -> Result<(), AllocError>
        requires { stamp.time < 2 ^ 63 }
        ensures { (clocks : Option AnyClocks) (p : Program) (all : List (List ℕ)) (k : Kept) → Holds clocks p all self.old k → length k.stamps < self.old.taken →
            IfSome (stamp_by voice stamp) (λ s. s.clock < count_in clocks (length all)) →
            let x = spoken_read self.old.reader voice in
            OnOk result (Goes clocks p all self.old self.new k (turn_by (setting_by clocks p all) k self.old.taken (Some stamp) x) (left_by (Some stamp) x.identifier k.memory)) }
    {
        let is_new = passes(
            self.reader.identifier(),
            stamp.time,
            &self.told,
            &mut self.identifiers,
        )?;
        if !is_new {
            self.doubles = self.doubles.saturating_add(1);
            return Ok(());
        }
        match stamp_by(voice, stamp) {
            Some(stamp) => take_record(
                &mut self.waiting,
                stamp,
                self.taken,
                self.reader.event(),
                &mut self.told,
            ),
            None => self.told.take(self.taken, self.reader.event()),
        }
    }

    // The turn of a line that is no event.
    fn refuse(&mut self, why: LineFault) -> Result<(), AllocError>
        ensures text { OnOk result (self.new.told.lines.items ≡ self.old.told.lines.items ++ fault_text self.old.taken why) }
        ensures faults { (n : ℕ) → self.old.faults ≡ counter n → self.new.faults ≡ counter (n + 1) }
        ensures others { self.new ≡ record self.old { told = record self.old.told { lines = self.new.told.lines }; faults = self.new.faults } }
    {
        self.faults = self.faults.saturating_add(1);
        add_fault(self.taken, why, &mut self.told.lines)
    }

    /// Ends the turns: what waits is told. The bytes are then those behind all turns, with the last line, whose numbers are
    /// answered, and what is counted beside them.
    ///
    /// # Errors
    ///
    /// Memory was refused.
    pub fn end(&mut self) -> Result<LogTotals, AllocError>
        ensures { (g : KeyedLog) (lines : List (List ℕ)) → Fits g self.old lines → IfOk result (Ends g self.new lines) }
    {
        let counts = self.counts();
        self.told.lines.clear();
        take_rest(&self.waiting, &mut self.told)?;
        let totals = self.totals();
        end_text(totals, &mut self.told.lines)?;
        Ok(LogTotals { totals, counts })
    }

    /// What is counted of the lines so far.
    pub fn counts(&self) -> LogCounts
        ensures { (g : KeyedLog) (lines : List (List ℕ)) → Fits g self.now lines →
            result ≡ counts_of (query_behind g lines) g.clocks (said_by g (names_of g lines) lines) }
    {
        LogCounts {
            doubles: self.doubles,
            silent: self.silent,
            heard: clocks_heard(&self.waiting),
        }
    }

    /// Tells a listener what the clocks have come to, where there are any and it is told after as many lines.
    pub fn tell<L: Listener>(&self, listener: &mut L) {
        tell_heard(&self.waiting, self.taken, listener);
    }

    /// The bytes that are written for the last line.
    pub fn lines(&self) -> &[u8]
        ensures { result.now ≡ self.now.told.lines.items }
    {
        &self.told.lines
    }

    /// Gives a device the bytes. Where it can't, it took a beginning of them and has failed.
    pub fn write<D: Device>(&self, out: &mut D) -> Result<(), DeviceFault>
        requires { D.has_failed out.old ≡ false }
        ensures all { OnOk result (Appends (D.taken out.old) (D.taken out.new) self.now.told.lines.items) }
        ensures works { OnOk result (D.has_failed out.new ≡ false) }
        ensures part { OnErr result (TakesPart (D.taken out.old) (D.taken out.new) self.now.told.lines.items) }
        ensures fails { OnErr result (D.has_failed out.new ≡ true) }
    {
        write_out(out, &self.told.lines)
    }

    /// What all turns come to.
    pub fn totals(&self) -> Totals
        ensures { (p : Program) (past : List AnyEvent) (lines : List Said) → Serves p self.now.told past → self.now.taken ≡ length lines →
            self.now.faults ≡ counter (fault_count lines) →
            line_of result ≡ line_behind (of_names p self.now.told.names) lines past }
    {
        let totals = self.told.parts.totals();
        Totals {
            rows: self.taken,
            admitted: totals.admitted,
            late: totals.late,
            refused: self.faults.saturating_add(totals.refused),
            panes: totals.panes,
        }
    }

    /// The parts with what they told, the reader, and the RECORDS of the query.
    pub(crate) fn into_parts(self) -> (KeyedTold, NamedLines, i64)
        ensures told { result.0 ≡ self.told }
        ensures reader { result.1 ≡ self.reader }
        ensures records { result.2 ≡ self.records }
    {
        let KeyedIntake {
            told,
            reader,
            waiting: _,
            voices: _,
            identifiers: _,
            records,
            first: _,
            taken: _,
            faults: _,
            doubles: _,
            silent: _,
        } = self;
        (told, reader, records)
    }

    /// The watermark.
    pub fn mark(&self) -> i64
        ensures { (p : Program) (past : List AnyEvent) → Serves p self.now.told past → result ≡ mark (of_names p self.now.told.names) past }
    {
        self.told.mark()
    }

    /// How many lines were taken.
    pub fn taken(&self) -> u64
        ensures { result ≡ self.now.taken }
    {
        self.taken
    }

    /// The names, in their order.
    pub fn names(&self) -> &KeyNames
        ensures { result.now ≡ self.now.told.names }
    {
        &self.told.names
    }

    /// How many names there are.
    pub fn name_count(&self) -> usize
        ensures { result ≡ length self.now.told.names }
    {
        self.told.names.len()
    }

    /// How many parts have an engine.
    pub fn part_count(&self) -> usize {
        self.told.parts.opened()
    }
}

// So many clocks with what waits for them, and their names, before the first line.
fn before_lines(
    alloc: Global,
    clocks: Option<Clocks>,
    count: usize,
) -> Result<(Option<Waiting>, Option<ClockNames>), AllocError>
    requires clocks { AreClocks clocks }
    requires count { count ≤ MOST_CLOCKS }
    ensures waiting { IfOk result (λ made. Hear clocks count made.0 [] (start_of clocks) []) }
    ensures voices { IfOk result (λ made. Knows (named_in clocks) made.1 []) }
{
    let voices = open_names(alloc, named_in(clocks))?;
    let waiting = open_clocks(alloc, clocks, count)?;
    Ok((waiting, voices))
}
