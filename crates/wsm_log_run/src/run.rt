//! Runs over logs.

ghost use Rattle.std.specs.Prelude.{◌≡◌, false, List, IfOk};
ghost use Rattle.wsm_record.specs.Event.{Event};
ghost use Rattle.wsm_turns.specs.Clocks.{AreClocks};
ghost use Rattle.wsm_machine.specs.Meaning.{query_of};
ghost use Rattle.wsm_intake.specs.Run.{LogCounted, LogWritten};
ghost use Rattle.wsm_inputs.specs.declared.input.Input.{Input as AnyInput};
ghost use Rattle.wsm_inputs.specs.Inputs.{EndsAs, IsAccepted};
ghost use Rattle.wsm_inputs.specs.Stated.{KeepsTo};
ghost use Rattle.wsm_log_run.specs.Logs.{LogStops, totals_in};

use std::alloc::Global;
use std::io::Read;
use wsm_csv::Device;
use wsm_ends::end_of_log;
use wsm_inputs::{End, keeps_to_stated};
use wsm_intake::run_log as run_intake;
use wsm_lines::Source;
use wsm_log_text::LogTotals;
use wsm_rules::Verified;
use wsm_turns::{Clocks, Listener};

/// Runs an accepted program over the lines of a log, by a source that says how a line is read, and with the watermarks that
/// the log's clocks make, where it has any. Each line is read and its turn taken, and the device is given what is written for it before the
/// next line is asked for. At last it is given the end row, and is flushed. The numbers of that row are answered, and what is counted
/// beside them. A listener is told what the clocks come to after the first 1,000 lines and after each 100,000.
///
/// # Errors
///
/// After [`End::Memory`] or [`End::ReadFailed`] the device took the text of the first lines, that of each turn whole; after
/// [`End::WriteFailed`] it took a beginning of the text. No other end comes.
pub fn run_log<R: Read + Drop, D: Device, L: Listener>(
    alloc: Global,
    verified: Verified,
    source: Source,
    clocks: Option<Clocks>,
    reader: R,
    out: &mut D,
    listener: &mut L,
) -> Result<LogTotals, End>
    requires works { D.has_failed out.old ≡ false }
    requires clocks { AreClocks clocks }
    ensures ends { (input : AnyInput) → IsAccepted input verified →
        EndsAs input (LogWritten (R.remaining reader) source clocks (D.taken out.old) (D.taken out.new)) (LogStops (R.remaining reader) source clocks (D.taken out.old) (D.taken out.new))
        (D.taken out.old) (D.taken out.new) (D.is_flushed out.new) (D.has_failed out.new) (totals_in result) }
    ensures counts { IfOk result (λ totals. LogCounted (R.remaining reader) source clocks (query_of verified) totals.counts) }
    ensures stated { (past : List Event) (e : Event) → KeepsTo verified past e }
{
    keeps_to_stated(&verified);
    match run_intake(alloc, verified, source, clocks, reader, out, listener) {
        Ok(totals) => Ok(totals),
        Err(end) => Err(end_of_log(end)),
    }
}
