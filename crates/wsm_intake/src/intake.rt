//! What the lines of a log so far come to.

ghost use Rattle.std.specs.Prelude.{◌≡◌, ◌<◌, ◌^◌, [], ℤ, Option, IfOk, IsTrue, OnOk, length, option_map};
ghost use Rattle.wsm_program.specs.Program.{Program, is_program};
ghost use Rattle.wsm_turns.specs.declared.clocks.Clocks.{Clocks as AnyClocks};
ghost use Rattle.wsm_turns.specs.Clocks.{AreClocks, count_in, named_in};
ghost use Rattle.wsm_turns.specs.Known.{Passes, Remembers};
ghost use Rattle.wsm_turns.specs.Named.{Knows};
ghost use Rattle.wsm_turns.specs.Turns.{Kept, start_of, watermark};
ghost use Rattle.wsm_turns.specs.Waits.{Hear};
ghost use Rattle.wsm_intake.specs.Tells.{Serves};
ghost use Rattle.wsm_intake.specs.Turns.{setting_by};

use crate::told::Told;
use std::alloc::{AllocError, Global};
use wsm_csv::{Device, DeviceFault, end_text, write_out};
use wsm_engine::Totals;
use wsm_lines::{LineFault, LineReader, LineRefusal, Source};
use wsm_log_text::{LogCounts, LogTotals, add_fault, note_first};
use wsm_rules::Verified;
use wsm_turns::{
    ClockNames, Clocks, Identifiers, Listener, Stamp, Taker, Voice, Waiting, clocks_heard,
    count_in, named_in, open_clocks, open_names, silent_in, stamp_by, stamp_of, take_record,
    take_rest, tell_heard, voice_of,
};

/// An engine and what stands between it and a log: the reader of lines by a source, its clocks with their names and the records that
/// wait, and the identifiers of records that came.
/// It has the bytes that are written for the last line.
pub struct Intake {
    pub(crate) told: Told,
    pub(crate) reader: LineReader,
    pub(crate) waiting: Option<Waiting>,
    // Those of clocks, where lines name them.
    pub(crate) names: Option<ClockNames>,
    pub(crate) identifiers: Identifiers,
    // The RECORDS of the query, of which the engine's program may have those that are left.
    pub(crate) records: i64,
    // The first line.
    pub(crate) first: Vec<u8>,
    // The lines so far.
    pub(crate) taken: u64,
    // Those that were no event.
    pub(crate) faults: u64,
    // The records that were left out.
    pub(crate) doubles: u64,
    // Those that had no voice.
    pub(crate) silent: u64,
}

impl Drop for Intake {
    fn drop(self) {
        let Intake {
            told: _,
            reader: _,
            waiting: _,
            names: _,
            identifiers: _,
            records: _,
            first: _,
            taken: _,
            faults: _,
            doubles: _,
            silent: _,
        } = self;
    }
}

impl Intake {
    ghost use Rattle.std.specs.Prelude.{◌≡◌, ◌++◌, ◌+◌, ◌<◌, ◌^◌, ◌∷◌, [], true, false, List, ℕ, ℤ, Option, Some, Ok, IfOk, IfSome, OnErr, OnOk, length};
    ghost use Rattle.std.specs.Io.KnownBytes.{Appends};
    ghost use Rattle.wsm_record.specs.Event.{Event as AnyEvent};
    ghost use Rattle.wsm_admission.specs.Admission.{counter};
    ghost use Rattle.wsm_csv.specs.Device.{TakesPart};
    ghost use Rattle.wsm_program.specs.Program.{Program};
    ghost use Rattle.wsm_machine.specs.Meaning.{query_of};
    ghost use Rattle.wsm_semantics.specs.Query.{mark};
    ghost use Rattle.wsm_lines.specs.declared.source.Source.{Source as AnySource};
    ghost use Rattle.wsm_lines.specs.Reader.{clock_read, event_read};
    ghost use Rattle.wsm_watermarks.specs.declared.stamp.Stamp.{Stamp as AnyStamp};
    ghost use Rattle.wsm_turns.specs.declared.clocks.Clocks.{Clocks as AnyClocks};
    ghost use Rattle.wsm_turns.specs.Clocks.{AreClocks, count_in, named_in};
    ghost use Rattle.wsm_turns.specs.Named.{Knows};
    ghost use Rattle.wsm_turns.specs.Voices.{stamp_by, voiced};
    ghost use Rattle.wsm_turns.specs.Heard.{left_by};
    ghost use Rattle.wsm_turns.specs.Turns.{Kept, turn_by};
    ghost use Rattle.wsm_log_text.specs.Counts.{counts_of};
    ghost use Rattle.wsm_log_text.specs.LogText.{Said, fault_count, fault_text, left_at, line_behind, said, turn_at, voiced_in, line_of};
    ghost use Rattle.wsm_intake.specs.Tells.{Serves};
    ghost use Rattle.wsm_intake.specs.Turns.{Ends, Fits, FitsBehind, Goes, Holds, Speaks, Turned, TurnedBehind, setting_by, spoken_read};
    ghost use Rattle.wsm_intake.specs.GoesOn.{GoesOn, GoneOn};
    ghost use Rattle.wsm_intake.specs.Saved.{keeps_events};

    /// Before the first line, with these clocks, where there are any.
    pub fn open(
        alloc: Global,
        verified: Verified,
        source: Source,
        clocks: Option<Clocks>,
    ) -> Result<Intake, AllocError>
        requires { AreClocks clocks }
        ensures fits { IfOk result (λ intake. Fits source clocks verified intake []) }
        ensures goes_on { IfOk result (λ intake. GoesOn source clocks verified intake []) }
    {
        let records = records_of(&verified);
        let identifiers = identifiers_of(alloc, &verified);
        let (told, waiting, names) = before_lines(alloc, verified, clocks)?;
        Ok(Intake {
            told,
            reader: LineReader::new(alloc, source),
            waiting,
            names,
            identifiers,
            records,
            first: Vec::new(alloc),
            taken: 0,
            faults: 0,
            doubles: 0,
            silent: 0,
        })
    }

    /// The same, and the events that the engine needs are kept, so that another may go on from what this one comes to.
    pub fn open_kept(
        alloc: Global,
        verified: Verified,
        source: Source,
        clocks: Option<Clocks>,
    ) -> Result<Intake, AllocError>
        requires { AreClocks clocks }
        ensures goes_on { IfOk result (λ intake. GoesOn source clocks verified intake []) }
        ensures keeps { IfOk result (λ intake. keeps_events intake ≡ true) }
    {
        let mut intake = Intake::open(alloc, verified, source, clocks)?;
        intake.told.keep(alloc);
        Ok(intake)
    }

    /// Takes the turn of a line. The bytes are then those that are written for it.
    pub fn take(&mut self, line: &[u8]) -> Result<(), AllocError>
        ensures turned { (s : AnySource) (clocks : Option AnyClocks) (p : Program) (before : List (List ℕ)) → Fits s clocks p self.old before →
            OnOk result (Turned s clocks p self.new before line.now) }
        ensures goes_on { (s : AnySource) (clocks : Option AnyClocks) (p : Program) (before : List (List ℕ)) → GoesOn s clocks p self.old before →
            OnOk result (GoneOn s clocks p self.new before line.now) }
    {
        self.take_line(line)
    }

    // The same, whatever is kept of the lines before.
    fn take_line(&mut self, line: &[u8]) -> Result<(), AllocError>
        ensures turned { (s : AnySource) (clocks : Option AnyClocks) (p : Program) (before : List (List ℕ)) → Fits s clocks p self.old before →
            OnOk result (Turned s clocks p self.new before line.now) }
        ensures behind { (s : AnySource) (clocks : Option AnyClocks) (p : Program) (records : ℤ) (k : Kept) (before : List (List ℕ)) →
            FitsBehind s clocks p records self.old k before → OnOk result (TurnedBehind s clocks p records self.new k before line.now) }
    {
        let Some(taken) = self.taken.checked_add(1) else {
            return Err(AllocError);
        };
        note_first(self.taken, line, &mut self.first)?;
        self.told.lines.clear();
        match self.reader.read(self.told.schema(), line) {
            Ok(()) => {
                self.taken = taken;
                self.serve()
            }
            Err(LineRefusal::Fault(why)) => {
                self.taken = taken;
                self.refuse(why)
            }
            Err(LineRefusal::Memory) => Err(AllocError),
        }
    }

    // The turn of the event that was read.
    fn serve(&mut self) -> Result<(), AllocError>
        ensures { (clocks : Option AnyClocks) (p : Program) (k : Kept) (names : List (List ℕ)) → Holds clocks p self.old k →
            Knows (named_in clocks) self.old.names names → length k.stamps < self.old.taken →
            let v = voiced_in clocks p.header.schema names (clock_read self.old.reader) (Ok (event_read self.old.reader)) in
            let x = spoken_read self.old.reader v.voice in
            OnOk result (Speaks clocks p self.old self.new k v (turn_at (setting_by clocks p) k self.old.taken (Ok x)) (left_at (setting_by clocks p) k (Ok x))) }
    {
        match stamp_of(self.told.schema(), self.reader.event()) {
            Some(stamp) => self.serve_stamped(stamp),
            None => self.told.take(self.taken, self.reader.event()),
        }
    }

    // The turn of the event that was read, with its stamp by its key.
    fn serve_stamped(&mut self, stamp: Stamp) -> Result<(), AllocError>
        requires { stamp.time < 2 ^ 63 }
        ensures { (clocks : Option AnyClocks) (p : Program) (k : Kept) (names : List (List ℕ)) → Holds clocks p self.old k →
            Knows (named_in clocks) self.old.names names → length k.stamps < self.old.taken → stamp.clock < length p.header.schema.keys →
            let v = voiced (named_in clocks) names (clock_read self.old.reader) in
            let x = spoken_read self.old.reader v.voice in
            OnOk result (Speaks clocks p self.old self.new k v (turn_by (setting_by clocks p) k self.old.taken (Some stamp) x) (left_by (Some stamp) x.identifier k.memory)) }
    {
        let voice = voice_of(&mut self.names, self.reader.clock())?;
        self.silent = self.silent.saturating_add(silent_in(voice));
        self.serve_voiced(stamp, voice)
    }

    // The same by its voice. A double is left out; a record without a voice goes on at once.
    fn serve_voiced(&mut self, stamp: Stamp, voice: Voice) -> Result<(), AllocError>
        requires { stamp.time < 2 ^ 63 }
        ensures { (clocks : Option AnyClocks) (p : Program) (k : Kept) → Holds clocks p self.old k → length k.stamps < self.old.taken →
            IfSome (stamp_by voice stamp) (λ s. s.clock < count_in clocks (length p.header.schema.keys)) →
            let x = spoken_read self.old.reader voice in
            OnOk result (Goes clocks p self.old self.new k (turn_by (setting_by clocks p) k self.old.taken (Some stamp) x) (left_by (Some stamp) x.identifier k.memory)) }
    {
        let is_new = passes(
            self.reader.identifier(),
            stamp.time,
            &self.told,
            &mut self.identifiers,
        )?;
        if !is_new {
            self.doubles = self.doubles.saturating_add(1);
            return Ok(());
        }
        match stamp_by(voice, stamp) {
            Some(stamp) => take_record(
                &mut self.waiting,
                stamp,
                self.taken,
                self.reader.event(),
                &mut self.told,
            ),
            None => self.told.take(self.taken, self.reader.event()),
        }
    }

    // The turn of a line that is no event.
    fn refuse(&mut self, why: LineFault) -> Result<(), AllocError>
        ensures text { OnOk result (self.new.told.lines.items ≡ self.old.told.lines.items ++ fault_text self.old.taken why) }
        ensures faults { (n : ℕ) → self.old.faults ≡ counter n → self.new.faults ≡ counter (n + 1) }
        ensures others { self.new ≡ record self.old { told = record self.old.told { lines = self.new.told.lines }; faults = self.new.faults } }
    {
        self.faults = self.faults.saturating_add(1);
        add_fault(self.taken, why, &mut self.told.lines)
    }

    /// Ends the turns: what waits is told. The bytes are then those behind all turns, with the last line, whose numbers are
    /// answered, and what is counted beside them.
    pub fn end(&mut self) -> Result<LogTotals, AllocError>
        ensures { (s : AnySource) (clocks : Option AnyClocks) (p : Program) (lines : List (List ℕ)) → Fits s clocks p self.old lines →
            IfOk result (Ends s clocks p self.new lines) }
    {
        let counts = self.counts();
        self.told.lines.clear();
        take_rest(&self.waiting, &mut self.told)?;
        let totals = self.totals();
        end_text(totals, &mut self.told.lines)?;
        Ok(LogTotals { totals, counts })
    }

    /// The engine with what it told, the reader, and the RECORDS of the query.
    pub(crate) fn into_parts(self) -> (Told, LineReader, i64)
        ensures told { result.0 ≡ self.told }
        ensures reader { result.1 ≡ self.reader }
        ensures records { result.2 ≡ self.records }
    {
        let Intake {
            told,
            reader,
            waiting: _,
            names: _,
            identifiers: _,
            records,
            first: _,
            taken: _,
            faults: _,
            doubles: _,
            silent: _,
        } = self;
        (told, reader, records)
    }

    /// The watermark of the program.
    pub fn mark(&self) -> i64
        ensures { (p : Program) (past : List AnyEvent) → Serves p self.now.told past → result ≡ mark (query_of p) past }
    {
        self.told.mark()
    }

    /// How many lines were taken.
    pub fn taken(&self) -> u64
        ensures { result ≡ self.now.taken }
    {
        self.taken
    }

    /// What is counted of the lines so far.
    pub fn counts(&self) -> LogCounts
        ensures { (s : AnySource) (clocks : Option AnyClocks) (p : Program) (lines : List (List ℕ)) → Fits s clocks p self.now lines →
            result ≡ counts_of (query_of p) clocks (said s clocks p.header.schema lines) }
    {
        LogCounts {
            doubles: self.doubles,
            silent: self.silent,
            heard: clocks_heard(&self.waiting),
        }
    }

    /// Tells a listener what the clocks have come to, where there are any and it is told after as many lines.
    pub fn tell<L: Listener>(&self, listener: &mut L) {
        tell_heard(&self.waiting, self.taken, listener);
    }

    /// The bytes that are written for the last line.
    pub fn lines(&self) -> &[u8]
        ensures { result.now ≡ self.now.told.lines.items }
    {
        &self.told.lines
    }

    /// Gives a device the bytes. Where it can't, it took a beginning of them and has failed.
    pub fn write<D: Device>(&self, out: &mut D) -> Result<(), DeviceFault>
        requires { D.has_failed out.old ≡ false }
        ensures all { OnOk result (Appends (D.taken out.old) (D.taken out.new) self.now.told.lines.items) }
        ensures works { OnOk result (D.has_failed out.new ≡ false) }
        ensures part { OnErr result (TakesPart (D.taken out.old) (D.taken out.new) self.now.told.lines.items) }
        ensures fails { OnErr result (D.has_failed out.new ≡ true) }
    {
        write_out(out, &self.told.lines)
    }

    /// What all turns come to.
    pub fn totals(&self) -> Totals
        ensures { (p : Program) (past : List AnyEvent) (lines : List Said) → Serves p self.now.told past → self.now.taken ≡ length lines →
            self.now.faults ≡ counter (fault_count lines) →
            line_of result ≡ line_behind (query_of p) lines past }
    {
        let totals = self.told.engine.totals();
        Totals {
            rows: self.taken,
            admitted: totals.admitted,
            late: totals.late,
            refused: self.faults.saturating_add(totals.refused),
            panes: totals.panes,
        }
    }
}

// What is told, the clocks with what waits for them, and their names, before the first line.
fn before_lines(
    alloc: Global,
    verified: Verified,
    clocks: Option<Clocks>,
) -> Result<(Told, Option<Waiting>, Option<ClockNames>), AllocError>
    requires { AreClocks clocks }
    ensures told { IfOk result (λ made. Serves verified made.0 []) }
    ensures waiting { IfOk result (λ made. Hear clocks (count_in clocks (length verified.header.schema.keys)) made.1 [] (start_of clocks) []) }
    ensures names { IfOk result (λ made. Knows (named_in clocks) made.2 []) }
{
    let told = Told::open(alloc, verified)?;
    let names = open_names(alloc, named_in(clocks))?;
    let count = count_in(clocks, told.schema().key_count());
    let waiting = open_clocks(alloc, clocks, count)?;
    Ok((told, waiting, names))
}

// The RECORDS of a program.
fn records_of(verified: &Verified) -> i64
    ensures records { result ≡ verified.now.header.clock.records }
    ensures lawful { IsTrue (is_program verified.now) }
{
    verified.program().header().clock.records
}

// No identifier of a program's records has come.
fn identifiers_of(alloc: Global, verified: &Verified) -> Identifiers
    ensures { (clocks : Option AnyClocks) (mark : ℤ) → Remembers (setting_by clocks verified.now) mark result [] }
{
    let header = verified.program().header();
    Identifiers::new(alloc, header.clock, header.shape)
}

// Whether a record with an identifier, if it has one, passes. Takes note of it then.
fn passes(
    identifier: Option<&[u8]>,
    time: u64,
    told: &Told,
    identifiers: &mut Identifiers,
) -> Result<bool, AllocError>
    requires { time < 2 ^ 63 }
    ensures { (clocks : Option AnyClocks) (p : Program) (k : Kept) → Serves p told.now k.fed →
        let w = setting_by clocks p in Remembers w (watermark w k.fed) identifiers.old k.memory →
        IfOk result (Passes w (watermark w k.fed) identifiers.new (option_map (λ t. t.now) identifier.entry) time k.memory) }
{
    match identifier {
        Some(identifier) => identifiers.pass(identifier, time, told.mark()),
        None => Ok(true),
    }
}
