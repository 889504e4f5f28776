//! A part of the rows, and what takes it.

ghost use Rattle.std.specs.Prelude.{◌≡◌, ◌++◌, option_map, OnOk};
ghost use Rattle.csv.specs.Records.{fields_of};
ghost use Rattle.wsm_deal.specs.PartText.{has_mark, is_marked, mark_before};

use crate::dealing::DealEnd;
use crate::row_text::add_row;
use crate::shared_text::{BLOCK, add_text};
use csv::ByteRecord;
use std::alloc::{AllocError, Global};
use wsm_csv::{Device, DeviceFault, write_out};

// How many bytes are kept before they are handed on.
const FULL: usize = 65_536;

/// A part of the rows: what takes their text, and the text that it wasn't handed yet.
#[derive(Drop)]
pub struct Part<D> {
    out: D,
    text: Vec<u8>,
    // Whether a row was dealt to it.
    begun: bool,
}

impl<D: Device> Part<D> {
    ghost use Rattle.std.specs.Prelude.{◌≡◌, ◌≤◌, ◌∷◌, ◌++◌, [], ℕ, List, length, take, Option, OnOk, true, false, if◌then◌else◌};
    ghost use Rattle.csv.specs.Records.{fields_of};
    ghost use Rattle.csv.specs.Writing.{default_writer, row_text};
    ghost use Rattle.wsm_deal.specs.Parts.{Gives, Has, TakesRow, Took, out_of};

    /// A part to which no row was dealt.
    pub fn new(alloc: Global, out: D) -> Part<D>
        ensures none { Has D.taken (D.taken out) [] result }
        ensures device { out_of result ≡ out }
    {
        Part {
            out,
            text: Vec::new(alloc),
            begun: false,
        }
    }

    /// Deals a row to the part. Where too much is kept it is handed on. An error is of memory, or of a device
    /// that has failed.
    #[inline(always)]
    pub(crate) fn add(&mut self, row: &ByteRecord) -> Result<(), DealEnd>
        requires works { D.has_failed (out_of self.old) ≡ false }
        ensures { TakesRow D.taken D.has_failed (fields_of row.now) self.old self.new result }
    {
        self.keep(row)?;
        self.hand_on_if_full()?;
        Ok(())
    }

    /// The same by the row's text. Where it is no longer than a block, the block begins with it.
    pub(crate) fn add_text(
        &mut self,
        row: &ByteRecord,
        text: &[u8],
        block: &[u8; BLOCK],
    ) -> Result<(), DealEnd>
        requires works { D.has_failed (out_of self.old) ≡ false }
        requires text { text.now ≡ row_text default_writer (fields_of row.now) }
        requires block { length text.now ≤ BLOCK → take (length text.now) block.now ≡ text.now }
        ensures { TakesRow D.taken D.has_failed (fields_of row.now) self.old self.new result }
    {
        self.keep_text(row, text, block)?;
        self.hand_on_if_full()?;
        Ok(())
    }

    // Deals a row to the part, whose text is kept.
    #[inline(always)]
    fn keep(&mut self, row: &ByteRecord) -> Result<(), AllocError>
        ensures adds { (old : Option (List ℕ)) (rows : List (List (List ℕ))) → Has D.taken old rows self.old →
            OnOk result (Has D.taken old (rows ++ fields_of row.now ∷ []) self.new) }
        ensures out { self.new.out ≡ self.old.out }
    {
        self.open(row)?;
        add_row(row, &mut self.text)
    }

    // The same by the row's text.
    fn keep_text(
        &mut self,
        row: &ByteRecord,
        text: &[u8],
        block: &[u8; BLOCK],
    ) -> Result<(), AllocError>
        requires text { text.now ≡ row_text default_writer (fields_of row.now) }
        requires block { length text.now ≤ BLOCK → take (length text.now) block.now ≡ text.now }
        ensures adds { (old : Option (List ℕ)) (rows : List (List (List ℕ))) → Has D.taken old rows self.old →
            OnOk result (Has D.taken old (rows ++ fields_of row.now ∷ []) self.new) }
        ensures out { self.new.out ≡ self.old.out }
    {
        self.open(row)?;
        add_text(text, block, &mut self.text)
    }

    // Begins the text where the row is the first.
    fn open(&mut self, row: &ByteRecord) -> Result<(), AllocError>
        ensures text { OnOk result (self.new.text.items ≡ self.old.text.items ++ (if self.old.begun then [] else mark_before (fields_of row.now))) }
        ensures begun { OnOk result (self.new.begun ≡ true) }
        ensures out { self.new.out ≡ self.old.out }
    {
        if self.begun {
            return Ok(());
        }
        self.begun = true;
        begin(row, &mut self.text)
    }

    // Hands on what is kept, where that is too much.
    fn hand_on_if_full(&mut self) -> Result<(), DeviceFault>
        requires works { D.has_failed (out_of self.old) ≡ false }
        ensures { Gives D.taken D.has_failed (Has D.taken) self.old self.new result }
    {
        if FULL <= self.text.len() {
            return self.hand_on();
        }
        Ok(())
    }

    /// Gives the device the text that it wasn't handed. An error is answered only where the device has failed.
    pub(crate) fn hand_on(&mut self) -> Result<(), DeviceFault>
        requires works { D.has_failed (out_of self.old) ≡ false }
        ensures gives { Gives D.taken D.has_failed (Has D.taken) self.old self.new result }
        ensures empty { OnOk result (self.new.text.items ≡ []) }
    {
        if self.text.is_empty() {
            return Ok(());
        }
        write_out(&mut self.out, &self.text)?;
        self.text.clear();
        Ok(())
    }

    /// Gives the device the text that it wasn't handed, and has all that it took leave. An error is answered
    /// only where the device has failed.
    pub(crate) fn finish(&mut self) -> Result<(), DeviceFault>
        requires works { D.has_failed (out_of self.old) ≡ false }
        ensures gives { Gives D.taken D.has_failed (Took D.taken) self.old self.new result }
        ensures flushed { OnOk result (D.is_flushed (out_of self.new) ≡ true) }
    {
        self.hand_on()?;
        self.out.flush()
    }
}

// Begins the text of a part, in front of its first row.
fn begin(row: &ByteRecord, text: &mut Vec<u8>) -> Result<(), AllocError>
    ensures { OnOk result (text.new.items ≡ text.old.items ++ mark_before (fields_of row.now)) }
{
    if begins_with_mark(row.get(0)) {
        text.extend_from_slice(b"\xEF\xBB\xBF")?;
    }
    Ok(())
}

fn begins_with_mark(cell: Option<&[u8]>) -> bool
    ensures { result ≡ is_marked (option_map (λ c. c.now) cell.entry) }
{
    match cell {
        Some(cell) => has_mark(cell),
        None => false,
    }
}

fn has_mark(cell: &[u8]) -> bool
    ensures { result ≡ has_mark cell.now }
{
    match cell {
        [a, b, c, ..] => *a == 0xEF && *b == 0xBB && *c == 0xBF,
        _ => false,
    }
}
