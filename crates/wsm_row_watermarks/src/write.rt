//! Writing the rows that lines of rows come to.

ghost use Rattle.std.specs.Prelude.{◌≡◌, ℕ, Bool, List, [], Option, Err, true, false, IfErr, IfOk, OnOk};
ghost use Rattle.wsm_log.specs.LinesOf.{AreAll};
ghost use Rattle.wsm_log.specs.Lines.{Follows};
ghost use Rattle.wsm_turns.specs.Clocks.{AreClocks};
ghost use Rattle.wsm_turns.specs.Turns.{Setting};
ghost use Rattle.wsm_row_watermarks.specs.Fits.{Fits};
ghost use Rattle.wsm_row_watermarks.specs.Run.{Completes, EndsEarly, IsBroken, IsWritten, Stands, setting_by};

use crate::counts::Totals;
use crate::text::LONGEST;
use crate::times::Times;
use crate::turns::RowTurns;
use std::alloc::Global;
use std::io::Read;
use wsm_csv::Device;
use wsm_log::Lines;
use wsm_log_rows::LogEnd;
use wsm_record::Schema;
use wsm_turns::{Clocks, Listener};

/// By what rows are taken.
#[derive(Drop)]
pub struct Rules {
    /// What the query declares. Watermarks are written of its first source.
    pub schema: Schema,
    /// Its clock and its windows.
    pub times: Times,
    /// The clocks by which watermarks are written; none are without them.
    pub clocks: Option<Clocks>,
    /// At which place of a record its identifier stands, from [`FIRST_PLACE`](crate::FIRST_PLACE) on, since its tag, its key and its
    /// time stand in front; none has one without, or at another place.
    pub once: Option<usize>,
    /// Whether the last watermark that there is ends the rows, where it isn't among them.
    pub last: bool,
}

/// Reads the lines of rows, and writes the rows that they come to. Each line is one row, always: one that is no row goes on as it is, but without the
/// cell of its identifier, or as `unread` where it would not be one row or is longer than 65,536 bytes. A watermark that stands among the rows goes on, and none that
/// is lower is written behind it. At the end what waits goes on. The device is given the rows of a line before the next line is asked for,
/// and is flushed at last. A listener is told what the clocks come to after the first 1,000 lines and after each 100,000. It is answered
/// what the rows came to.
///
/// # Errors
///
/// After [`LogEnd::Memory`] or [`LogEnd::ReadFailed`] the device took the rows of the first lines, those of each whole; after
/// [`LogEnd::WriteFailed`] it took a beginning of the rows.
pub fn write_watermarks<R: Read + Drop, D: Device, L: Listener>(
    alloc: Global,
    rules: Rules,
    reader: R,
    out: &mut D,
    listener: &mut L,
) -> Result<Totals, LogEnd>
    requires works { D.has_failed out.old ≡ false }
    requires clocks { AreClocks rules.clocks }
    ensures written { IfOk result (IsWritten (R.remaining reader) (setting_by rules) rules.once rules.last (D.taken out.old) (D.taken out.new)) }
    ensures broken { IfErr result (IsBroken (R.remaining reader) (setting_by rules) rules.once rules.last (D.taken out.old) (D.taken out.new)) }
    ensures flushed { OnOk result (D.is_flushed out.new ≡ true) }
    ensures write_failed { result ≡ Err LogEnd.WriteFailed → D.has_failed out.new ≡ true }
{
    let mut lines = Lines::new(alloc, reader, LONGEST)?;
    let mut turns = RowTurns::open(alloc, rules.schema, rules.times, rules.clocks, rules.once)?;
    write_rows(&mut turns, &mut lines, rules.last, out, listener)
}

// Takes lines of which none was read, and writes their rows.
fn write_rows<R: Read + Drop, D: Device, L: Listener>(
    turns: &mut RowTurns,
    lines: &mut Lines<R>,
    last: bool,
    out: &mut D,
    listener: &mut L,
) -> Result<Totals, LogEnd>
    requires { D.has_failed out.old ≡ false }
    ensures written { (known : Option (List ℕ)) (w : Setting) (once : Option ℕ) → Follows LONGEST R.remaining known [] lines.old → Fits w once turns.old [] →
        IfOk result (IsWritten known w once last (D.taken out.old) (D.taken out.new)) }
    ensures broken { (known : Option (List ℕ)) (w : Setting) (once : Option ℕ) → Follows LONGEST R.remaining known [] lines.old → Fits w once turns.old [] →
        IfErr result (IsBroken known w once last (D.taken out.old) (D.taken out.new)) }
    ensures flushed { OnOk result (D.is_flushed out.new ≡ true) }
    ensures write_failed { result ≡ Err LogEnd.WriteFailed → D.has_failed out.new ≡ true }
{
    take_lines(turns, lines, out, listener)?;
    finish(turns, last, out)
}

// Takes the turn of each line, and gives the device its rows before the next line is asked for.
fn take_lines<R: Read + Drop, D: Device, L: Listener>(
    turns: &mut RowTurns,
    lines: &mut Lines<R>,
    out: &mut D,
    listener: &mut L,
) -> Result<(), LogEnd>
    requires { D.has_failed out.old ≡ false }
    ensures taken { (known : Option (List ℕ)) (w : Setting) (once : Option ℕ) → Follows LONGEST R.remaining known [] lines.old → Fits w once turns.old [] →
        IfOk result (λ _. (read : List (List ℕ)) × AreAll LONGEST known read × Stands w once read (D.taken out.old) (D.taken out.new) turns.new) }
    ensures broken { (known : Option (List ℕ)) (w : Setting) (once : Option ℕ) (last : Bool) → Follows LONGEST R.remaining known [] lines.old →
        Fits w once turns.old [] → IfErr result (IsBroken known w once last (D.taken out.old) (D.taken out.new)) }
    ensures works { OnOk result (D.has_failed out.new ≡ false) }
    ensures write_failed { result ≡ Err LogEnd.WriteFailed → D.has_failed out.new ≡ true }
{
    while lines.advance()? {
        turns.take(lines.line())?;
        turns.write(out)?;
        turns.tell(listener);
    }
    Ok(())
}

// Writes what waits, and has all that was written leave.
fn finish<D: Device>(turns: &mut RowTurns, last: bool, out: &mut D) -> Result<Totals, LogEnd>
    requires { D.has_failed out.old ≡ false }
    ensures completes { (known : Option (List ℕ)) (w : Setting) (once : Option ℕ) (read : List (List ℕ)) (old : Option (List ℕ)) → AreAll LONGEST known read →
        Stands w once read old (D.taken out.old) turns.old →
        IfOk result (Completes known w once last read old (D.taken out.new)) }
    ensures ends_early { (known : Option (List ℕ)) (w : Setting) (once : Option ℕ) (read : List (List ℕ)) (old : Option (List ℕ)) → AreAll LONGEST known read →
        Stands w once read old (D.taken out.old) turns.old →
        IfErr result (EndsEarly known w once last read old (D.taken out.new)) }
    ensures flushed { OnOk result (D.is_flushed out.new ≡ true) }
    ensures write_failed { result ≡ Err LogEnd.WriteFailed → D.has_failed out.new ≡ true }
{
    let totals = turns.end(last)?;
    turns.write(out)?;
    out.flush()?;
    Ok(totals)
}
