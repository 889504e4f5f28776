//! Dealing the rows of a reader.

ghost use Rattle.std.specs.Prelude.{◌≡◌, ◌⊎◌, ◌++◌, ◌∷◌, ℕ, List, [], Option, Err, IfOk, IfErr, OnOk, false, map};
ghost use Rattle.csv.specs.Records.{fields_of};
ghost use Rattle.wsm_csv.specs.Records.{AreAll};
ghost use Rattle.wsm_csv.specs.Rows.{Follows, error_of, read_end};
ghost use Rattle.wsm_deal.specs.Deal.{goal_of};
ghost use Rattle.wsm_deal.specs.Parts.{AreNew, Befores, Deals, Dealt, EachFlushed, EachHas, EachTook, EndsEarly, GivesEach, NoneFailed, SomeFailed, bytes_of, hands_of, out_of};

use crate::ahead::Ahead;
use crate::part::Part;
use crate::row_text::add_row;
use crate::shared_text::block_of;
use crate::shares::{Goal, Shares};
use csv::ByteRecord;
use std::alloc::{AllocError, Global};
use std::io::Read;
use wsm_csv::{Device, DeviceFault, ReadEnd, Rows};

/// How dealing ends early.
#[derive(Clone, Copy, Debug, PartialEq, Eq)]
pub enum DealEnd {
    /// The rows could not be read on.
    ReadFailed,
    /// Memory was refused.
    Memory,
    /// What takes a part has failed.
    WriteFailed,
}

impl From<AllocError> for DealEnd {
    ghost use Rattle.std.specs.Prelude.{◌≡◌};
    ghost use Rattle.wsm_deal.specs.declared.dealing.DealEnd.TheVariants.{Memory};

    ghost from_gives = { λ _ e. e ≡ Memory };

    fn from(_error: AllocError) -> DealEnd {
        DealEnd::Memory
    }
}

impl From<DeviceFault> for DealEnd {
    ghost use Rattle.std.specs.Prelude.{◌≡◌};
    ghost use Rattle.wsm_deal.specs.declared.dealing.DealEnd.TheVariants.{WriteFailed};

    ghost from_gives = { λ _ e. e ≡ WriteFailed };

    fn from(_fault: DeviceFault) -> DealEnd {
        DealEnd::WriteFailed
    }
}

impl From<ReadEnd> for DealEnd {
    ghost use Rattle.std.specs.Prelude.{◌≡◌};
    ghost use Rattle.wsm_deal.specs.Parts.{end_of_read};

    ghost from_gives = { λ r e. e ≡ end_of_read r };

    fn from(end: ReadEnd) -> DealEnd {
        match end {
            ReadEnd::Failed => DealEnd::ReadFailed,
            ReadEnd::Memory => DealEnd::Memory,
        }
    }
}

/// Deals the rows of a reader, of which none was read, to parts that are new ([`add_part`]): a record to the
/// part of its key, a watermark to each, and what is neither to the first. What was dealt is handed on before
/// more bytes are asked of the input, and where 64 KiB of it are kept for a part; at last each device is
/// flushed. A row for a part that isn't there is dropped.
///
/// # Errors
///
/// After an error each device took a beginning of the text of the rows that were dealt to its part.
/// [`DealEnd::ReadFailed`] comes only where the error of the rows is of a read, and
/// [`DealEnd::WriteFailed`] exactly where what takes one of the parts has failed.
pub fn deal<R: Read + Drop, D: Device>(
    shares: &Shares,
    rows: &mut Rows<Ahead<R>>,
    parts: &mut [Part<D>],
) -> Result<(), DealEnd>
    requires fresh { (known : Option (List ℕ)) × Follows (bytes_of R.remaining) known [] rows.old }
    requires new { AreNew D.taken parts.old }
    requires works { NoneFailed D.has_failed parts.old }
    ensures dealt { (known : Option (List ℕ)) (olds : Befores) → Follows (bytes_of R.remaining) known [] rows.old →
        EachHas D.taken olds (hands_of shares.now []) parts.old →
        IfOk result (λ _. (cells : List (List (List ℕ))) × Dealt D.taken known shares.now olds cells parts.new) }
    ensures ends_early { (known : Option (List ℕ)) (olds : Befores) → Follows (bytes_of R.remaining) known [] rows.old →
        EachHas D.taken olds (hands_of shares.now []) parts.old →
        IfErr result (λ _. (cells : List (List (List ℕ))) × EndsEarly D.taken known shares.now olds cells parts.new) }
    ensures read_failed { result ≡ Err DealEnd.ReadFailed → read_end (error_of rows.new) ≡ ReadEnd.Failed }
    ensures flushed { OnOk result (EachFlushed D.is_flushed parts.new) }
    ensures write_failed { result ≡ Err DealEnd.WriteFailed → SomeFailed D.has_failed parts.new }
    ensures device { SomeFailed D.has_failed parts.new → result ≡ Err DealEnd.WriteFailed }
{
    deal_rows(shares, rows, parts)?;
    finish(parts)?;
    Ok(())
}

/// Deals the rows of a reader's bytes, as [`deal`] does, and makes the rows itself.
///
/// # Errors
///
/// As [`deal`].
pub fn deal_over<R: Read + Drop, D: Device>(
    alloc: Global,
    shares: &Shares,
    reader: R,
    parts: &mut [Part<D>],
) -> Result<(), DealEnd>
    requires new { AreNew D.taken parts.old }
    requires works { NoneFailed D.has_failed parts.old }
    ensures dealt { (olds : Befores) → EachHas D.taken olds (hands_of shares.now []) parts.old →
        IfOk result (λ _. (cells : List (List (List ℕ))) × Dealt D.taken (R.remaining reader) shares.now olds cells parts.new) }
    ensures ends_early { (olds : Befores) → EachHas D.taken olds (hands_of shares.now []) parts.old →
        IfErr result (λ _. (cells : List (List (List ℕ))) × EndsEarly D.taken (R.remaining reader) shares.now olds cells parts.new) }
    ensures flushed { OnOk result (EachFlushed D.is_flushed parts.new) }
    ensures write_failed { result ≡ Err DealEnd.WriteFailed → SomeFailed D.has_failed parts.new }
    ensures device { SomeFailed D.has_failed parts.new → result ≡ Err DealEnd.WriteFailed }
{
    let ahead = Ahead::new(alloc, reader)?;
    let mut rows = Rows::new(alloc, ahead);
    deal(shares, &mut rows, parts)
}

/// Puts a part to which no row was dealt behind others of that kind.
///
/// # Errors
///
/// Memory was refused.
pub fn add_part<D: Device + Drop>(
    alloc: Global,
    parts: &mut Vec<Part<D>>,
    out: D,
) -> Result<(), AllocError>
    requires new { AreNew D.taken parts.old.items }
    requires works { NoneFailed D.has_failed parts.old.items }
    requires device { D.has_failed out ≡ false }
    ensures devices { OnOk result (map out_of parts.new.items ≡ map out_of parts.old.items ++ out ∷ []) }
    ensures new { OnOk result (AreNew D.taken parts.new.items) }
    ensures works { OnOk result (NoneFailed D.has_failed parts.new.items) }
{
    parts.push(Part::new(alloc, out))?;
    Ok(())
}

// Deals the rows of a reader. What was dealt last may not be handed on.
fn deal_rows<R: Read + Drop, D: Device>(
    shares: &Shares,
    rows: &mut Rows<Ahead<R>>,
    parts: &mut [Part<D>],
) -> Result<(), DealEnd>
    requires works { NoneFailed D.has_failed parts.old }
    ensures dealt { (known : Option (List ℕ)) (olds : Befores) → Follows (bytes_of R.remaining) known [] rows.old →
        EachHas D.taken olds (hands_of shares.now []) parts.old →
        IfOk result (λ _. (cells : List (List (List ℕ))) × AreAll known cells × EachHas D.taken olds (hands_of shares.now cells) parts.new) }
    ensures ends_early { (known : Option (List ℕ)) (olds : Befores) → Follows (bytes_of R.remaining) known [] rows.old →
        EachHas D.taken olds (hands_of shares.now []) parts.old →
        IfErr result (λ _. (cells : List (List (List ℕ))) × EndsEarly D.taken known shares.now olds cells parts.new) }
    ensures read_failed { result ≡ Err DealEnd.ReadFailed → read_end (error_of rows.new) ≡ ReadEnd.Failed }
    ensures write_failed { result ≡ Err DealEnd.WriteFailed → SomeFailed D.has_failed parts.new }
    ensures works { (result ≡ Err DealEnd.WriteFailed) ⊎ NoneFailed D.has_failed parts.new }
{
    let mut text = Vec::new(shares.allocator());
    while rows.advance()? {
        deal_row(shares, rows.row(), parts, &mut text)?;
        pass_on(rows, parts)?;
    }
    Ok(())
}

// Hands on what was dealt where the next row may wait for the input.
fn pass_on<R: Read + Drop, D: Device>(
    rows: &Rows<Ahead<R>>,
    parts: &mut [Part<D>],
) -> Result<(), DeviceFault>
    requires works { NoneFailed D.has_failed parts.old }
    ensures { GivesEach D.taken D.has_failed (EachHas D.taken) parts.old parts.new result }
{
    if rows.source().may_wait(rows.place()) {
        return hand_on(parts);
    }
    Ok(())
}

// Deals a row. The text of one that goes to each part is put in place of what is given.
#[inline(always)]
fn deal_row<D: Device>(
    shares: &Shares,
    row: &ByteRecord,
    parts: &mut [Part<D>],
    text: &mut Vec<u8>,
) -> Result<(), DealEnd>
    requires works { NoneFailed D.has_failed parts.old }
    ensures { Deals D.taken D.has_failed (goal_of shares.now (fields_of row.now)) (fields_of row.now) parts.old parts.new result }
{
    match shares.goal_of(row) {
        Goal::One(part) => deal_to_one(part, row, parts),
        Goal::All => deal_to_all(row, parts, text),
    }
}

// Deals a row to one part.
#[inline(always)]
fn deal_to_one<D: Device>(
    part: usize,
    row: &ByteRecord,
    parts: &mut [Part<D>],
) -> Result<(), DealEnd>
    requires works { NoneFailed D.has_failed parts.old }
    ensures { Deals D.taken D.has_failed (Goal.One part) (fields_of row.now) parts.old parts.new result }
{
    if part < parts.len() {
        parts[part].add(row)?;
    }
    Ok(())
}

// Deals a row to each part. Its text is made once.
#[inline(never)]
fn deal_to_all<D: Device>(
    row: &ByteRecord,
    parts: &mut [Part<D>],
    text: &mut Vec<u8>,
) -> Result<(), DealEnd>
    requires works { NoneFailed D.has_failed parts.old }
    ensures { Deals D.taken D.has_failed Goal.All (fields_of row.now) parts.old parts.new result }
{
    text.clear();
    add_row(row, text)?;
    let text = text.as_slice();
    let block = block_of(text);
    for part in parts.iter_mut() {
        part.add_text(row, text, &block)?;
    }
    Ok(())
}

// Gives each device the text that it wasn't handed.
#[inline(never)]
fn hand_on<D: Device>(parts: &mut [Part<D>]) -> Result<(), DeviceFault>
    requires works { NoneFailed D.has_failed parts.old }
    ensures { GivesEach D.taken D.has_failed (EachHas D.taken) parts.old parts.new result }
{
    for part in parts.iter_mut() {
        part.hand_on()?;
    }
    Ok(())
}

// Gives each device the text that it wasn't handed, and has all that it took leave.
fn finish<D: Device>(parts: &mut [Part<D>]) -> Result<(), DeviceFault>
    requires works { NoneFailed D.has_failed parts.old }
    ensures gives { GivesEach D.taken D.has_failed (EachTook D.taken) parts.old parts.new result }
    ensures flushed { OnOk result (EachFlushed D.is_flushed parts.new) }
{
    for part in parts.iter_mut() {
        part.finish()?;
    }
    Ok(())
}
