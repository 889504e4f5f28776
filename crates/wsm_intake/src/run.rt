//! Runs over the lines of a log.

ghost use Rattle.std.specs.Prelude.{◌≡◌, ℕ, List, [], Option, Err, true, false, IfErr, IfOk, OnOk};
ghost use Rattle.wsm_program.specs.Program.{Program};
ghost use Rattle.wsm_lines.specs.declared.source.Source.{Source as AnySource};
ghost use Rattle.wsm_log.specs.LinesOf.{AreAll};
ghost use Rattle.wsm_log.specs.Lines.{Follows};
ghost use Rattle.wsm_machine.specs.Meaning.{query_of};
ghost use Rattle.wsm_turns.specs.declared.clocks.Clocks.{Clocks as AnyClocks};
ghost use Rattle.wsm_turns.specs.Clocks.{AreClocks};
ghost use Rattle.wsm_intake.specs.Run.{Completes, EndsEarly, LogBroken, LogCounted, LogWritten, Stands};
ghost use Rattle.wsm_intake.specs.Turns.{Fits};

use crate::intake::Intake;
use std::alloc::Global;
use std::io::Read;
use wsm_csv::Device;
use wsm_lines::Source;
use wsm_log::Lines;
use wsm_log_rows::LogEnd;
use wsm_log_text::LogTotals;
use wsm_rules::Verified;
use wsm_turns::{Clocks, Listener};

/// Runs a program over the lines of a log, by a source that says how a line is read, and with the watermarks of clocks,
/// where there are any. Each line is read and its turn taken, and the device is given the bytes of the turn before the next line is
/// asked for. At last it is given what is written for the records that wait, and the end row, and is flushed. The numbers of that row
/// are answered, and what is counted beside them. A listener is told what the clocks come to after the first 1,000 lines and after
/// each 100,000.
///
/// # Errors
///
/// After [`LogEnd::Memory`] or [`LogEnd::ReadFailed`] the device took the bytes of the first lines, those of each turn whole;
/// after [`LogEnd::WriteFailed`] it took a beginning of the bytes.
pub fn run_log<R: Read + Drop, D: Device, L: Listener>(
    alloc: Global,
    verified: Verified,
    source: Source,
    clocks: Option<Clocks>,
    reader: R,
    out: &mut D,
    listener: &mut L,
) -> Result<LogTotals, LogEnd>
    requires works { D.has_failed out.old ≡ false }
    requires clocks { AreClocks clocks }
    ensures completes { IfOk result (λ end. LogWritten (R.remaining reader) source clocks (D.taken out.old) (D.taken out.new) (query_of verified) end.totals) }
    ensures counts { IfOk result (λ end. LogCounted (R.remaining reader) source clocks (query_of verified) end.counts) }
    ensures ends_early { IfErr result (LogBroken (R.remaining reader) source clocks (D.taken out.old) (D.taken out.new) (query_of verified)) }
    ensures flushed { OnOk result (D.is_flushed out.new ≡ true) }
    ensures write_failed { result ≡ Err LogEnd.WriteFailed → D.has_failed out.new ≡ true }
{
    let longest = source.longest;
    let mut intake = Intake::open(alloc, verified, source, clocks)?;
    let mut lines = Lines::new(alloc, reader, longest)?;
    take_log(&mut intake, &mut lines, out, listener)
}

// Runs an intake of which no line was taken over lines of which none was read.
fn take_log<R: Read + Drop, D: Device, L: Listener>(
    intake: &mut Intake,
    lines: &mut Lines<R>,
    out: &mut D,
    listener: &mut L,
) -> Result<LogTotals, LogEnd>
    requires { D.has_failed out.old ≡ false }
    ensures completes { (known : Option (List ℕ)) (s : AnySource) (clocks : Option AnyClocks) (p : Program) → Follows s.longest R.remaining known [] lines.old →
        Fits s clocks p intake.old [] → IfOk result (λ end. LogWritten known s clocks (D.taken out.old) (D.taken out.new) (query_of p) end.totals) }
    ensures counts { (known : Option (List ℕ)) (s : AnySource) (clocks : Option AnyClocks) (p : Program) → Follows s.longest R.remaining known [] lines.old →
        Fits s clocks p intake.old [] → IfOk result (λ end. LogCounted known s clocks (query_of p) end.counts) }
    ensures ends_early { (known : Option (List ℕ)) (s : AnySource) (clocks : Option AnyClocks) (p : Program) →
        Follows s.longest R.remaining known [] lines.old → Fits s clocks p intake.old [] →
        IfErr result (LogBroken known s clocks (D.taken out.old) (D.taken out.new) (query_of p)) }
    ensures flushed { OnOk result (D.is_flushed out.new ≡ true) }
    ensures write_failed { result ≡ Err LogEnd.WriteFailed → D.has_failed out.new ≡ true }
{
    take_lines(intake, lines, out, listener)?;
    finish(intake, out)
}

// Takes the turn of each line, and gives the device its bytes before the next line is asked for.
fn take_lines<R: Read + Drop, D: Device, L: Listener>(
    intake: &mut Intake,
    lines: &mut Lines<R>,
    out: &mut D,
    listener: &mut L,
) -> Result<(), LogEnd>
    requires { D.has_failed out.old ≡ false }
    ensures taken { (known : Option (List ℕ)) (s : AnySource) (clocks : Option AnyClocks) (p : Program) → Follows s.longest R.remaining known [] lines.old →
        Fits s clocks p intake.old [] →
        IfOk result (λ _. (read : List (List ℕ)) × AreAll s.longest known read × Stands s clocks p read (D.taken out.old) (D.taken out.new) intake.new) }
    ensures ends_early { (known : Option (List ℕ)) (s : AnySource) (clocks : Option AnyClocks) (p : Program) →
        Follows s.longest R.remaining known [] lines.old → Fits s clocks p intake.old [] →
        IfErr result (LogBroken known s clocks (D.taken out.old) (D.taken out.new) (query_of p)) }
    ensures works { OnOk result (D.has_failed out.new ≡ false) }
    ensures write_failed { result ≡ Err LogEnd.WriteFailed → D.has_failed out.new ≡ true }
{
    while lines.advance()? {
        intake.take(lines.line())?;
        intake.write(out)?;
        intake.tell(listener);
    }
    Ok(())
}

// Writes what stands behind all turns, and has all that was written leave.
fn finish<D: Device>(intake: &mut Intake, out: &mut D) -> Result<LogTotals, LogEnd>
    requires { D.has_failed out.old ≡ false }
    ensures completes { (known : Option (List ℕ)) (s : AnySource) (clocks : Option AnyClocks) (p : Program) (read : List (List ℕ)) (old : Option (List ℕ)) →
        AreAll s.longest known read → Stands s clocks p read old (D.taken out.old) intake.old →
        IfOk result (λ end. Completes known s clocks (query_of p) read old (D.taken out.new) end.totals) }
    ensures counts { (known : Option (List ℕ)) (s : AnySource) (clocks : Option AnyClocks) (p : Program) (read : List (List ℕ)) (old : Option (List ℕ)) →
        AreAll s.longest known read → Stands s clocks p read old (D.taken out.old) intake.old →
        IfOk result (λ end. LogCounted known s clocks (query_of p) end.counts) }
    ensures ends_early { (known : Option (List ℕ)) (s : AnySource) (clocks : Option AnyClocks) (p : Program) (read : List (List ℕ)) (old : Option (List ℕ)) →
        AreAll s.longest known read → Stands s clocks p read old (D.taken out.old) intake.old →
        IfErr result (EndsEarly known s clocks (query_of p) read old (D.taken out.new)) }
    ensures flushed { OnOk result (D.is_flushed out.new ≡ true) }
    ensures write_failed { result ≡ Err LogEnd.WriteFailed → D.has_failed out.new ≡ true }
{
    let end = intake.end()?;
    intake.write(out)?;
    out.flush()?;
    Ok(end)
}
