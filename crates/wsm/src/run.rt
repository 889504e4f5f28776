//! Runs over rows.

ghost use Rattle.std.specs.Prelude.{◌≡◌, ◌≢◌, ℕ, List, [], Option, Err, true, false, IfErr, IfOk, OnOk};
ghost use Rattle.wsm_record.specs.Event.{Event};
ghost use Rattle.wsm_program.specs.Program.{Program as Value};
ghost use Rattle.wsm_csv.specs.Records.{AreAll};
ghost use Rattle.wsm_csv.specs.Rows.{Follows, error_of, read_end};
ghost use Rattle.wsm_machine.specs.Meaning.{query_of};
ghost use Rattle.wsm_inputs.specs.Ends.{hides_memory};
ghost use Rattle.wsm_inputs.specs.Inputs.{EndsAs};
ghost use Rattle.wsm_inputs.specs.Stated.{KeepsTo, Stated};
ghost use Rattle.wsm.specs.Written.{Cells, Completes, EndsEarly, InputWritten, RowsBroken, RowsWritten, TextWritten};
ghost use Rattle.wsm.specs.Fitting.{ByRanges, InputByRanges};
ghost use Rattle.wsm.specs.Turns.{Fits, Stands};

use crate::turns::Turns;
use std::alloc::Global;
use std::io::Read;
use wsm_csv::{Device, ReadEnd, Rows};
use wsm_engine::Totals;
use wsm_inputs::{End, Input, accepted_of, keeps_to_stated};
use wsm_rules::Verified;

/// Runs the query of a text over the rows of a reader, as [`run_over`] does.
///
/// # Errors
///
/// As [`run_input`].
pub fn run_query<R: Read + Drop, D: Device>(
    alloc: Global,
    text: &[u8],
    reader: R,
    out: &mut D,
) -> Result<Totals, End>
    requires { D.has_failed out.old ≡ false }
    ensures ends { EndsAs (Input.Text text.entry) (RowsWritten (R.remaining reader) (D.taken out.old) (D.taken out.new))
        (RowsBroken (R.remaining reader) (D.taken out.old) (D.taken out.new))
        (D.taken out.old) (D.taken out.new) (D.is_flushed out.new) (D.has_failed out.new) result }
    ensures well { IfOk result (TextWritten text.now (R.remaining reader) (D.taken out.old) (D.taken out.new)) }
    ensures ranges { ByRanges text.now result }
    ensures stated { Stated (Input.Text text.entry) result }
{
    run_over(alloc, Input::Text(text), reader, out)
}

/// Runs the program that bytes spell over the rows of a reader, as [`run_over`] does.
///
/// # Errors
///
/// As [`run_input`].
pub fn run_program<R: Read + Drop, D: Device>(
    alloc: Global,
    program: &[u8],
    reader: R,
    out: &mut D,
) -> Result<Totals, End>
    requires { D.has_failed out.old ≡ false }
    ensures ends { EndsAs (Input.Program program.entry) (RowsWritten (R.remaining reader) (D.taken out.old) (D.taken out.new))
        (RowsBroken (R.remaining reader) (D.taken out.old) (D.taken out.new))
        (D.taken out.old) (D.taken out.new) (D.is_flushed out.new) (D.has_failed out.new) result }
    ensures stated { Stated (Input.Program program.entry) result }
{
    run_over(alloc, Input::Program(program), reader, out)
}

/// Runs a query or a program over the rows of a reader's bytes, as [`run_input`] does, and makes the rows itself.
///
/// # Errors
///
/// As [`run_input`].
pub fn run_over<R: Read + Drop, D: Device>(
    alloc: Global,
    input: Input<'_>,
    reader: R,
    out: &mut D,
) -> Result<Totals, End>
    requires { D.has_failed out.old ≡ false }
    ensures ends { EndsAs input.entry (RowsWritten (R.remaining reader) (D.taken out.old) (D.taken out.new))
        (RowsBroken (R.remaining reader) (D.taken out.old) (D.taken out.new))
        (D.taken out.old) (D.taken out.new) (D.is_flushed out.new) (D.has_failed out.new) result }
    ensures well { IfOk result (InputWritten input.entry (R.remaining reader) (D.taken out.old) (D.taken out.new)) }
    ensures ranges { InputByRanges input.entry result }
    ensures stated { Stated input.entry result }
{
    let mut rows = Rows::new(alloc, reader);
    run_input(alloc, input, &mut rows, out)
}

/// Runs a query or a program over rows of which none was read. Each row is read and its turn taken, and the
/// device is given the lines of the turn before the next row is asked for. At last it is given the
/// end row, whose numbers are answered, and is flushed. The rows stay with the caller, whom
/// [`Rows::error`] tells what `csv` said where it ended them.
///
/// # Errors
///
/// [`End::Refused`] where the text is no query or a check refuses it, or the bytes spell no program, and
/// [`End::Rejected`] where the verifier refuses the program: then nothing is written. After [`End::Memory`] or
/// [`End::ReadFailed`] the device took the lines of the first rows, those of each turn whole; after
/// [`End::WriteFailed`] it took a beginning of the lines. [`End::ReadFailed`] comes only where the error of
/// the rows is of a read.
pub fn run_input<R: Read + Drop, D: Device>(
    alloc: Global,
    input: Input<'_>,
    rows: &mut Rows<R>,
    out: &mut D,
) -> Result<Totals, End>
    requires works { D.has_failed out.old ≡ false }
    requires fresh { (known : Option (List ℕ)) × Follows R.remaining known [] rows.old }
    ensures ends { (known : Option (List ℕ)) → Follows R.remaining known [] rows.old →
        EndsAs input.entry (RowsWritten known (D.taken out.old) (D.taken out.new)) (RowsBroken known (D.taken out.old) (D.taken out.new))
        (D.taken out.old) (D.taken out.new) (D.is_flushed out.new) (D.has_failed out.new) result }
    ensures well { (known : Option (List ℕ)) → Follows R.remaining known [] rows.old →
        IfOk result (InputWritten input.entry known (D.taken out.old) (D.taken out.new)) }
    ensures ranges { InputByRanges input.entry result }
    ensures stated { Stated input.entry result }
    ensures read_failed { result ≡ Err End.ReadFailed → read_end (error_of rows.new) ≡ ReadEnd.Failed }
{
    let verified = accepted_of(alloc, input)?;
    run_verified(alloc, verified, rows, out)
}

// Runs an accepted program over rows.
fn run_verified<R: Read + Drop, D: Device>(
    alloc: Global,
    verified: Verified,
    rows: &mut Rows<R>,
    out: &mut D,
) -> Result<Totals, End>
    requires { D.has_failed out.old ≡ false }
    ensures completes { (known : Option (List ℕ)) → Follows R.remaining known [] rows.old →
        IfOk result (RowsWritten known (D.taken out.old) (D.taken out.new) (query_of verified)) }
    ensures ends_early { (known : Option (List ℕ)) → Follows R.remaining known [] rows.old →
        IfErr result (RowsBroken known (D.taken out.old) (D.taken out.new) (query_of verified)) }
    ensures flushed { OnOk result (D.is_flushed out.new ≡ true) }
    ensures read_failed { result ≡ Err End.ReadFailed → read_end (error_of rows.new) ≡ ReadEnd.Failed }
    ensures write_failed { result ≡ Err End.WriteFailed → D.has_failed out.new ≡ true }
    ensures memory_apart { IfErr result (λ end. hides_memory end ≡ false) }
    ensures keeps { (past : List Event) (e : Event) → KeepsTo verified past e }
{
    keeps_to_stated(&verified);
    let mut turns = Turns::open(alloc, verified)?;
    take_rows(&mut turns, rows, out)?;
    finish(&mut turns, out)
}

// Takes the turn of each row, and gives the device its lines before the next row is asked for.
fn take_rows<R: Read + Drop, D: Device>(
    turns: &mut Turns,
    rows: &mut Rows<R>,
    out: &mut D,
) -> Result<(), End>
    requires { D.has_failed out.old ≡ false }
    ensures taken { (known : Option (List ℕ)) (p : Value) → Follows R.remaining known [] rows.old → Fits p turns.old [] →
        IfOk result (λ _. (cells : List Cells) × AreAll known cells × Stands p cells (D.taken out.old) (D.taken out.new) turns.new) }
    ensures ends_early { (known : Option (List ℕ)) (p : Value) → Follows R.remaining known [] rows.old → Fits p turns.old [] →
        IfErr result (λ end. (cells : List Cells) × EndsEarly known (query_of p) cells (D.taken out.old) (D.taken out.new) end) }
    ensures works { OnOk result (D.has_failed out.new ≡ false) }
    ensures read_failed { result ≡ Err End.ReadFailed → read_end (error_of rows.new) ≡ ReadEnd.Failed }
    ensures write_failed { result ≡ Err End.WriteFailed → D.has_failed out.new ≡ true }
    ensures memory_apart { IfErr result (λ end. hides_memory end ≡ false) }
{
    while rows.advance()? {
        turns.take(rows.row())?;
        turns.write(out)?;
    }
    Ok(())
}

// Writes the end row, and has all that was written leave.
fn finish<D: Device>(turns: &mut Turns, out: &mut D) -> Result<Totals, End>
    requires { D.has_failed out.old ≡ false }
    ensures completes { (known : Option (List ℕ)) (p : Value) (cells : List Cells) (old : Option (List ℕ)) → AreAll known cells →
        Stands p cells old (D.taken out.old) turns.old →
        IfOk result (λ totals. Completes known (query_of p) cells old (D.taken out.new) totals) }
    ensures flushed { OnOk result (D.is_flushed out.new ≡ true) }
    ensures ends_early { (known : Option (List ℕ)) (p : Value) (cells : List Cells) (old : Option (List ℕ)) → AreAll known cells →
        Stands p cells old (D.taken out.old) turns.old →
        IfErr result (λ end. EndsEarly known (query_of p) cells old (D.taken out.new) end) }
    ensures reads_none { result ≢ Err End.ReadFailed }
    ensures write_failed { result ≡ Err End.WriteFailed → D.has_failed out.new ≡ true }
    ensures memory_apart { IfErr result (λ end. hides_memory end ≡ false) }
{
    let totals = turns.end()?;
    turns.write(out)?;
    out.flush()?;
    Ok(totals)
}
