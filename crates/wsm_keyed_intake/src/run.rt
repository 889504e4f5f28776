//! Runs over the lines of a log, by any number of names.

ghost use Rattle.std.specs.Prelude.{◌≡◌, ℕ, List, [], Option, Err, true, false, IfErr, IfOk, OnOk};
ghost use Rattle.wsm_log.specs.LinesOf.{AreAll};
ghost use Rattle.wsm_log.specs.Lines.{Follows};
ghost use Rattle.wsm_lines.specs.Key.{are_same};
ghost use Rattle.wsm_turns.specs.Clocks.{AreClocks};
ghost use Rattle.wsm_keyed_intake.specs.KeyedLog.{KeyedLog};
ghost use Rattle.wsm_keyed_intake.specs.Run.{Completes, EndsEarly, KeyedLogBroken, KeyedLogCounted, KeyedLogWritten, Stands};
ghost use Rattle.wsm_keyed_intake.specs.Turns.{AreNamed, Fits, IsOpened};

use crate::intake::KeyedIntake;
use std::alloc::Global;
use std::io::Read;
use wsm_csv::Device;
use wsm_key_names::KeyNames;
use wsm_lines::Source;
use wsm_log::Lines;
use wsm_log_rows::LogEnd;
use wsm_log_text::LogTotals;
use wsm_part_engines::Parts;
use wsm_turns::{Clocks, Listener};

/// What a run over a log by any number of names comes to: what one over a log comes to, how many names there are, and how many parts
/// have an engine.
#[derive(Clone, Copy)]
pub struct KeyedLogTotals {
    pub log: LogTotals,
    pub names: usize,
    pub parts: usize,
}

/// Runs the program of parts over the lines of a log, by a source that says how a line is read and that names each key by its own text,
/// with the watermarks of clocks, where there are any and they aren't those of keys, and by these names, of which there may be so many:
/// a new name that comes in a line that says an event is a key from then on, as long as there are fewer. Each line is read and its turn
/// taken, and the device is given the bytes of the turn before the next line is asked for. At last it is given what is written for the
/// records that wait, and the end row, and is flushed. A listener is told what the clocks come to after the first 1,000 lines and after
/// each 100,000.
///
/// # Errors
///
/// After [`LogEnd::Memory`] or [`LogEnd::ReadFailed`] the device took the bytes of the first lines, those of each turn whole;
/// after [`LogEnd::WriteFailed`] it took a beginning of the bytes.
pub fn run_parts<R: Read + Drop, D: Device, L: Listener>(
    alloc: Global,
    parts: Parts,
    source: Source,
    clocks: Option<Clocks>,
    names: KeyNames,
    most: u32,
    reader: R,
    out: &mut D,
    listener: &mut L,
) -> Result<KeyedLogTotals, LogEnd>
    requires works { D.has_failed out.old ≡ false }
    requires opened { IsOpened parts }
    requires texts { are_same source.key.names ≡ true }
    requires clocks { AreClocks clocks }
    requires named { AreNamed clocks }
    ensures completes { IfOk result (λ end. KeyedLogWritten (R.remaining reader)
        (record { program = parts.program; source = source; clocks = clocks; names = names; most = most }) (D.taken out.old) (D.taken out.new) end.log.totals) }
    ensures counts { IfOk result (λ end. KeyedLogCounted (R.remaining reader)
        (record { program = parts.program; source = source; clocks = clocks; names = names; most = most }) end.log.counts) }
    ensures ends_early { IfErr result (KeyedLogBroken (R.remaining reader)
        (record { program = parts.program; source = source; clocks = clocks; names = names; most = most }) (D.taken out.old) (D.taken out.new)) }
    ensures flushed { OnOk result (D.is_flushed out.new ≡ true) }
    ensures write_failed { result ≡ Err LogEnd.WriteFailed → D.has_failed out.new ≡ true }
{
    let longest = source.longest;
    let mut intake = KeyedIntake::open(alloc, parts, source, clocks, names, most)?;
    let mut lines = Lines::new(alloc, reader, longest)?;
    let log = take_log(&mut intake, &mut lines, out, listener)?;
    Ok(KeyedLogTotals {
        log,
        names: intake.name_count(),
        parts: intake.part_count(),
    })
}

// Runs an intake of which no line was taken over lines of which none was read.
fn take_log<R: Read + Drop, D: Device, L: Listener>(
    intake: &mut KeyedIntake,
    lines: &mut Lines<R>,
    out: &mut D,
    listener: &mut L,
) -> Result<LogTotals, LogEnd>
    requires { D.has_failed out.old ≡ false }
    ensures completes { (known : Option (List ℕ)) (g : KeyedLog) → Follows g.source.longest R.remaining known [] lines.old →
        Fits g intake.old [] → IfOk result (λ end. KeyedLogWritten known g (D.taken out.old) (D.taken out.new) end.totals) }
    ensures counts { (known : Option (List ℕ)) (g : KeyedLog) → Follows g.source.longest R.remaining known [] lines.old →
        Fits g intake.old [] → IfOk result (λ end. KeyedLogCounted known g end.counts) }
    ensures ends_early { (known : Option (List ℕ)) (g : KeyedLog) → Follows g.source.longest R.remaining known [] lines.old →
        Fits g intake.old [] → IfErr result (KeyedLogBroken known g (D.taken out.old) (D.taken out.new)) }
    ensures flushed { OnOk result (D.is_flushed out.new ≡ true) }
    ensures write_failed { result ≡ Err LogEnd.WriteFailed → D.has_failed out.new ≡ true }
{
    take_lines(intake, lines, out, listener)?;
    finish(intake, out)
}

// Takes the turn of each line, and gives the device its bytes before the next line is asked for.
fn take_lines<R: Read + Drop, D: Device, L: Listener>(
    intake: &mut KeyedIntake,
    lines: &mut Lines<R>,
    out: &mut D,
    listener: &mut L,
) -> Result<(), LogEnd>
    requires { D.has_failed out.old ≡ false }
    ensures taken { (known : Option (List ℕ)) (g : KeyedLog) → Follows g.source.longest R.remaining known [] lines.old → Fits g intake.old [] →
        IfOk result (λ _. (read : List (List ℕ)) × AreAll g.source.longest known read × Stands g read (D.taken out.old) (D.taken out.new) intake.new) }
    ensures ends_early { (known : Option (List ℕ)) (g : KeyedLog) → Follows g.source.longest R.remaining known [] lines.old →
        Fits g intake.old [] → IfErr result (KeyedLogBroken known g (D.taken out.old) (D.taken out.new)) }
    ensures works { OnOk result (D.has_failed out.new ≡ false) }
    ensures write_failed { result ≡ Err LogEnd.WriteFailed → D.has_failed out.new ≡ true }
{
    while lines.advance()? {
        intake.take(lines.line())?;
        intake.write(out)?;
        intake.tell(listener);
    }
    Ok(())
}

// Writes what stands behind all turns, and has all that was written leave.
fn finish<D: Device>(intake: &mut KeyedIntake, out: &mut D) -> Result<LogTotals, LogEnd>
    requires { D.has_failed out.old ≡ false }
    ensures completes { (known : Option (List ℕ)) (g : KeyedLog) (read : List (List ℕ)) (old : Option (List ℕ)) →
        AreAll g.source.longest known read → Stands g read old (D.taken out.old) intake.old →
        IfOk result (λ end. Completes known g read old (D.taken out.new) end.totals) }
    ensures counts { (known : Option (List ℕ)) (g : KeyedLog) (read : List (List ℕ)) (old : Option (List ℕ)) →
        AreAll g.source.longest known read → Stands g read old (D.taken out.old) intake.old →
        IfOk result (λ end. KeyedLogCounted known g end.counts) }
    ensures ends_early { (known : Option (List ℕ)) (g : KeyedLog) (read : List (List ℕ)) (old : Option (List ℕ)) →
        AreAll g.source.longest known read → Stands g read old (D.taken out.old) intake.old →
        IfErr result (EndsEarly known g read old (D.taken out.new)) }
    ensures flushed { OnOk result (D.is_flushed out.new ≡ true) }
    ensures write_failed { result ≡ Err LogEnd.WriteFailed → D.has_failed out.new ≡ true }
{
    let end = intake.end()?;
    intake.write(out)?;
    out.flush()?;
    Ok(end)
}
