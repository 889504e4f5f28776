//! Writing what stands for rows, and the rows behind them.

ghost use Rattle.std.specs.Prelude.{◌≡◌, ◌≢◌, ◌++◌, ◌∷◌, ℕ, List, [], Option, Err, true, false, IfErr, IfOk, OnErr, OnOk};
ghost use Rattle.std.specs.Io.KnownBytes.{Appends};
ghost use Rattle.csv.specs.Records.{fields_of};
ghost use Rattle.csv.specs.Writing.{default_writer, row_text};
ghost use Rattle.wsm_semantics.specs.Query.{Query};
ghost use Rattle.wsm_csv.specs.Device.{TakesPart};
ghost use Rattle.wsm_csv.specs.Rows.{Follows, cells_of, error_of};
ghost use Rattle.csv.specs.declared.error.Error.{Error as CsvError};
ghost use Rattle.wsm_kept.specs.Kept.{Cells};
ghost use Rattle.wsm_kept.specs.Ends.{WriteEnds};
ghost use Rattle.wsm_kept.specs.Cut.{AreRead, Follow, FollowInPart, IsBegun, IsCut, IsWritten};

use crate::cut::Cut;
use crate::end::KeepEnd;
use crate::row_text::text_of;
use csv::ByteRecord;
use std::alloc::Global;
use std::io::Read;
use wsm_csv::{Device, Rows, write_out};

/// Writes what stands in the place of rows that were cut, and behind it the rows that come behind them.
///
/// # Errors
///
/// A read failed, memory was refused, or the device has failed. A beginning was written then.
pub fn write_cut<R: Read + Drop, D: Device>(
    alloc: Global,
    cut: &Cut,
    rows: &mut Rows<R>,
    out: &mut D,
) -> Result<(), KeepEnd>
    requires { D.has_failed out.old ≡ false }
    ensures written { (known : Option (List ℕ)) (q : Query) (sum : ℕ) (is : IsCut R.remaining known q sum rows.old cut.now) →
        OnOk result (IsWritten known q sum is.past is.old (D.taken out.old) (D.taken out.new)) }
    ensures begun { (known : Option (List ℕ)) (q : Query) (sum : ℕ) (is : IsCut R.remaining known q sum rows.old cut.now) →
        OnErr result (IsBegun known q sum is.past is.old (D.taken out.old) (D.taken out.new)) }
    ensures flushed { OnOk result (D.is_flushed out.new ≡ true) }
    ensures ends { IfErr result (WriteEnds (D.has_failed out.new) (error_of rows.new)) }
{
    write_out(out, &cut.text)?;
    write_rest(alloc, cut.at_end, rows, out)?;
    Ok(out.flush()?)
}

// Writes the rows behind those that were cut, if there are some.
fn write_rest<R: Read + Drop, D: Device>(
    alloc: Global,
    at_end: bool,
    rows: &mut Rows<R>,
    out: &mut D,
) -> Result<(), KeepEnd>
    requires { D.has_failed out.old ≡ false }
    ensures written { (known : Option (List ℕ)) (past : List Cells) → AreRead R.remaining known past rows.old at_end →
        OnOk result (Follow known past (D.taken out.old) (D.taken out.new)) }
    ensures begun { (known : Option (List ℕ)) (past : List Cells) → AreRead R.remaining known past rows.old at_end →
        OnErr result (FollowInPart known past (D.taken out.old) (D.taken out.new)) }
    ensures works { OnOk result (D.has_failed out.new ≡ false) }
    ensures ends { IfErr result (WriteEnds (D.has_failed out.new) (error_of rows.new)) }
{
    if at_end {
        Ok(())
    } else {
        write_behind(alloc, rows, out)
    }
}

// Writes the row that was read last, and those behind it.
fn write_behind<R: Read + Drop, D: Device>(
    alloc: Global,
    rows: &mut Rows<R>,
    out: &mut D,
) -> Result<(), KeepEnd>
    requires { D.has_failed out.old ≡ false }
    ensures written { (known : Option (List ℕ)) (past : List Cells) → Follows R.remaining known (past ++ cells_of rows.old ∷ []) rows.old →
        OnOk result (Follow known past (D.taken out.old) (D.taken out.new)) }
    ensures begun { (known : Option (List ℕ)) (past : List Cells) → Follows R.remaining known (past ++ cells_of rows.old ∷ []) rows.old →
        OnErr result (FollowInPart known past (D.taken out.old) (D.taken out.new)) }
    ensures works { OnOk result (D.has_failed out.new ≡ false) }
    ensures ends { IfErr result (WriteEnds (D.has_failed out.new) (error_of rows.new)) }
{
    hand_on(alloc, rows.row(), out)?;
    write_others(alloc, rows, out)
}

// Writes the rows that weren't read.
fn write_others<R: Read + Drop, D: Device>(
    alloc: Global,
    rows: &mut Rows<R>,
    out: &mut D,
) -> Result<(), KeepEnd>
    requires { D.has_failed out.old ≡ false }
    ensures written { (known : Option (List ℕ)) (past : List Cells) → Follows R.remaining known past rows.old →
        OnOk result (Follow known past (D.taken out.old) (D.taken out.new)) }
    ensures begun { (known : Option (List ℕ)) (past : List Cells) → Follows R.remaining known past rows.old →
        OnErr result (FollowInPart known past (D.taken out.old) (D.taken out.new)) }
    ensures works { OnOk result (D.has_failed out.new ≡ false) }
    ensures ends { IfErr result (WriteEnds (D.has_failed out.new) (error_of rows.new)) }
{
    while rows.advance()? {
        hand_on(alloc, rows.row(), out)?;
    }
    Ok(())
}

// Gives the device the text of a row.
fn hand_on<D: Device>(alloc: Global, row: &ByteRecord, out: &mut D) -> Result<(), KeepEnd>
    requires { D.has_failed out.old ≡ false }
    ensures all { OnOk result (Appends (D.taken out.old) (D.taken out.new) (row_text default_writer (fields_of row.now))) }
    ensures works { OnOk result (D.has_failed out.new ≡ false) }
    ensures part { OnErr result (TakesPart (D.taken out.old) (D.taken out.new) (row_text default_writer (fields_of row.now))) }
    ensures ends { (said : Option CsvError) → IfErr result (WriteEnds (D.has_failed out.new) said) }
{
    let text = text_of(alloc, row)?;
    Ok(write_out(out, &text)?)
}
