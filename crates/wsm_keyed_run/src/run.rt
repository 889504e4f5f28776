//! Runs over rows.

ghost use Rattle.std.specs.Prelude.{◌≡◌, ◌≢◌, ◌⊎◌, ℕ, List, [], Option, Err, true, false, IfErr, IfOk, OnOk};
ghost use Rattle.std.specs.Io.KnownBytes.{Keeps};
ghost use Rattle.wsm_csv.specs.Records.{AreAll};
ghost use Rattle.wsm_csv.specs.Rows.{Follows, error_of, read_end};
ghost use Rattle.wsm_inputs.specs.Ends.{hides_memory};
ghost use Rattle.wsm.specs.Written.{Cells};
ghost use Rattle.wsm_keyed_run.specs.Keyed.{Keyed};
ghost use Rattle.wsm_keyed_run.specs.Places.{IsByPlaces, IsOpened, IsUnrun};
ghost use Rattle.wsm_keyed_run.specs.Turns.{Fits, HasBlocks, Stands};
ghost use Rattle.wsm_keyed_run.specs.Written.{Completes, EndsEarly, KeyedBroken, KeyedOver, KeyedWritten, Stops};

use crate::places::{accepted_by_places, begins_with_keys, says_key};
use crate::turns::KeyedTurns;
use std::alloc::Global;
use std::io::Read;
use wsm_csv::{Device, ReadEnd, Rows};
use wsm_ends::KeyedStop;
use wsm_engine::Totals;
use wsm_inputs::End;
use wsm_key_names::KeyNames;
use wsm_part_engines::{Parts, PartsRefusal};
use wsm_record::Form;
use wsm_rules::Verified;

/// What a run came to: the numbers of its last line, how many names there are, and how many parts have an engine.
#[derive(Clone, Copy, Debug)]
pub struct KeyedTotals {
    pub totals: Totals,
    pub names: usize,
    pub parts: usize,
}

/// Runs the query of a text without a KEYS clause over rows of which none was read, by these names, of which there may be so many: a new
/// name that comes in a record is a key from then on, as long as there are fewer. Each row is read and its turn taken, and the device is
/// given the lines of the turn before the next row is asked for. At last it is given the end row, whose numbers are answered, and is
/// flushed. The rows stay with the caller.
///
/// # Errors
///
/// [`KeyedStop::KeysClause`], [`KeyedStop::ReadsKey`] and [`KeyedStop::Streams`], and [`End::Refused`] and [`End::Rejected`] as of the
/// text over places: then nothing is written. After [`End::Memory`] or [`End::ReadFailed`] the device took the lines of the first rows,
/// those of each turn whole; after [`End::WriteFailed`] it took a beginning of the lines.
pub fn run_keyed<R: Read + Drop, D: Device>(
    alloc: Global,
    text: &[u8],
    names: KeyNames,
    most: u32,
    rows: &mut Rows<R>,
    out: &mut D,
) -> Result<KeyedTotals, KeyedStop>
    requires works { D.has_failed out.old ≡ false }
    ensures completes { (known : Option (List ℕ)) → Follows R.remaining known [] rows.old →
        IfOk result (λ run. KeyedOver text.now names most known (D.taken out.old) (D.taken out.new) run.totals) }
    ensures ends_early { (known : Option (List ℕ)) → Follows R.remaining known [] rows.old →
        IfErr result (Stops text.now known names most (D.taken out.old) (D.taken out.new)) }
    ensures flushed { OnOk result (D.is_flushed out.new ≡ true) }
    ensures write_failed { result ≡ Err (KeyedStop.End End.WriteFailed) → D.has_failed out.new ≡ true }
{
    let parts = parts_of(alloc, text)?;
    let mut turns = KeyedTurns::of(alloc, parts, names, most);
    let totals = run_parts(&mut turns, rows, out)?;
    Ok(KeyedTotals {
        totals,
        names: turns.name_count(),
        parts: turns.part_count(),
    })
}

/// Runs the query of a text without a KEYS clause over the rows of a reader's bytes, as [`run_keyed`] does, and makes the rows itself.
///
/// # Errors
///
/// As [`run_keyed`].
pub fn run_keyed_over<R: Read + Drop, D: Device>(
    alloc: Global,
    text: &[u8],
    names: KeyNames,
    most: u32,
    reader: R,
    out: &mut D,
) -> Result<KeyedTotals, KeyedStop>
    requires works { D.has_failed out.old ≡ false }
    ensures completes { IfOk result (λ run. KeyedOver text.now names most (R.remaining reader) (D.taken out.old) (D.taken out.new) run.totals) }
    ensures ends_early { IfErr result (Stops text.now (R.remaining reader) names most (D.taken out.old) (D.taken out.new)) }
    ensures flushed { OnOk result (D.is_flushed out.new ≡ true) }
    ensures write_failed { result ≡ Err (KeyedStop.End End.WriteFailed) → D.has_failed out.new ≡ true }
{
    let mut rows = Rows::new(alloc, reader);
    run_keyed(alloc, text, names, most, &mut rows, out)
}

/// The accepted program of a text that says no KEY and has no KEYS clause, over as many places as a part may have.
pub fn checked_by_places(alloc: Global, text: &[u8]) -> Result<Verified, KeyedStop>
    ensures accepted { IfOk result (λ verified. IsByPlaces text.now verified) }
    ensures unrun { IfErr result (IsUnrun text.now) }
{
    if begins_with_keys(text) {
        return Err(KeyedStop::KeysClause);
    }
    if says_key(text) {
        return Err(KeyedStop::ReadsKey);
    }
    let verified = accepted_by_places(alloc, text)?;
    Ok(verified)
}

// The engines of a text without a KEYS clause before the first row.
fn parts_of(alloc: Global, text: &[u8]) -> Result<Parts, KeyedStop>
    ensures opened { IfOk result (IsOpened text.now) }
    ensures unrun { IfErr result (IsUnrun text.now) }
{
    let verified = checked_by_places(alloc, text)?;
    if verified.program().header().form != Form::Panes {
        return Err(KeyedStop::Streams);
    }
    match Parts::open(alloc, verified) {
        Ok(parts) => Ok(parts),
        Err(PartsRefusal::Streams) => Err(KeyedStop::Streams),
        Err(PartsRefusal::ReadsKey) => Err(KeyedStop::ReadsKey),
        Err(PartsRefusal::Memory) => Err(KeyedStop::End(End::Memory)),
    }
}

/// Takes the turns of rows, and at last writes the end row, as [`run_keyed`] does.
pub fn run_parts<R: Read + Drop, D: Device>(
    turns: &mut KeyedTurns,
    rows: &mut Rows<R>,
    out: &mut D,
) -> Result<Totals, End>
    requires works { D.has_failed out.old ≡ false }
    requires blocks { HasBlocks turns.old }
    ensures completes { (known : Option (List ℕ)) (k : Keyed) → Follows R.remaining known [] rows.old → Fits k turns.old [] →
        IfOk result (KeyedWritten known (D.taken out.old) (D.taken out.new) k) }
    ensures ends_early { (known : Option (List ℕ)) (k : Keyed) → Follows R.remaining known [] rows.old → Fits k turns.old [] →
        IfErr result (KeyedBroken known (D.taken out.old) (D.taken out.new) k) }
    ensures flushed { OnOk result (D.is_flushed out.new ≡ true) }
    ensures read_failed { result ≡ Err End.ReadFailed → read_end (error_of rows.new) ≡ ReadEnd.Failed }
    ensures write_failed { result ≡ Err End.WriteFailed → D.has_failed out.new ≡ true }
    ensures memory_apart { IfErr result (λ end. hides_memory end ≡ false) }
{
    take_rows(turns, rows, out)?;
    finish(turns, out)
}

// Takes the turn of each row, and gives the device its lines before the next row is asked for.
fn take_rows<R: Read + Drop, D: Device>(
    turns: &mut KeyedTurns,
    rows: &mut Rows<R>,
    out: &mut D,
) -> Result<(), End>
    requires works { D.has_failed out.old ≡ false }
    requires blocks { HasBlocks turns.old }
    ensures taken { (known : Option (List ℕ)) (k : Keyed) → Follows R.remaining known [] rows.old → Fits k turns.old [] →
        IfOk result (λ _. (cells : List Cells) × AreAll known cells × Stands k cells (D.taken out.old) (D.taken out.new) turns.new) }
    ensures ends_early { (known : Option (List ℕ)) (k : Keyed) → Follows R.remaining known [] rows.old → Fits k turns.old [] →
        IfErr result (λ end. (cells : List Cells) × EndsEarly known k cells (D.taken out.old) (D.taken out.new) end) }
    ensures works { OnOk result (D.has_failed out.new ≡ false) }
    ensures read_failed { result ≡ Err End.ReadFailed → read_end (error_of rows.new) ≡ ReadEnd.Failed }
    ensures write_failed { result ≡ Err End.WriteFailed → D.has_failed out.new ≡ true }
    ensures memory_apart { IfErr result (λ end. hides_memory end ≡ false) }
{
    while rows.advance()? {
        turns.take(rows.row())?;
        turns.write(out)?;
    }
    Ok(())
}

// Writes the end row, and has all that was written leave.
fn finish<D: Device>(turns: &mut KeyedTurns, out: &mut D) -> Result<Totals, End>
    requires { D.has_failed out.old ≡ false }
    ensures completes { (known : Option (List ℕ)) (k : Keyed) (cells : List Cells) (old : Option (List ℕ)) → AreAll known cells →
        Stands k cells old (D.taken out.old) turns.old →
        IfOk result (λ totals. Completes known k cells old (D.taken out.new) totals) }
    ensures flushed { OnOk result (D.is_flushed out.new ≡ true) }
    ensures ends_early { (known : Option (List ℕ)) (k : Keyed) (cells : List Cells) (old : Option (List ℕ)) → AreAll known cells →
        Stands k cells old (D.taken out.old) turns.old →
        IfErr result (λ end. EndsEarly known k cells old (D.taken out.new) end) }
    ensures reads_none { result ≢ Err End.ReadFailed }
    ensures write_failed { result ≡ Err End.WriteFailed → D.has_failed out.new ≡ true }
    ensures memory_apart { IfErr result (λ end. hides_memory end ≡ false) }
{
    let totals = turns.end()?;
    turns.write(out)?;
    out.flush()?;
    Ok(totals)
}
