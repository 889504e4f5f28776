//! The row in front of rows that were cut.

ghost use Rattle.std.specs.Prelude.{◌≡◌, ◌≢◌, ◌≤◌, ◌++◌, ◌∷◌, ℕ, Some, true, false, option_map, slice_get, IfOk, OnOk};
ghost use Rattle.std.specs.Fmt.{decimal};
ghost use Rattle.csv.specs.Records.{fields_of};
ghost use Rattle.csv.specs.Writing.{default_writer, row_text};
ghost use Rattle.wsm_kept.specs.declared.head.Head.{Head as AnyHead};
ghost use Rattle.wsm_kept.specs.Head.{IsSaid, head_cells, head_text, is_tag, is_tagged};

use crate::counts::Counts;
use crate::end::KeepEnd;
use crate::row_text::text_of;
use csv::ByteRecord;
use itoa::Buffer;
use std::alloc::{AllocError, Global};

/// What rows that were cut stand for, as the row in front of them says it.
#[derive(Clone, Copy, Debug, PartialEq, Eq)]
pub struct Head {
    /// How many rows there were in all.
    pub rows: u64,
    /// How many lines a run over all of them has written.
    pub lines: u64,
    /// How many rows stand for them, with this one.
    pub kept: u64,
    /// How many lines a run over these writes.
    pub own: u64,
    /// The RECORDS by which a run over these takes as many records as one over all would: those that stay, and those that
    /// may still come. It is 0 where none stays and none may come, which no query says; by one with RECORDS 1 a record more
    /// is taken.
    pub records: u64,
    /// A sum of the query's text.
    pub sum: u64,
}

impl Head {
    ghost use Rattle.std.specs.Prelude.{◌≡◌, ◌++◌, IfErr, IfOk, OnOk};
    ghost use Rattle.csv.specs.Records.{fields_of};
    ghost use Rattle.csv.specs.Writing.{default_writer, row_text};
    ghost use Rattle.std.specs.Prelude.{unsigned_abs};
    ghost use Rattle.wsm_semantics.specs.Query.{Query};
    ghost use Rattle.wsm_kept.specs.declared.head.Head.{Head as AnyHead};
    ghost use Rattle.wsm_kept.specs.Ends.{HeadEnds};
    ghost use Rattle.wsm_kept.specs.Head.{IsSaid, Says, head_text, no_head};
    ghost use Rattle.wsm_kept.specs.Kept.{head_by};

    /// That of rows of which none is gone.
    pub fn none() -> Head
        ensures { result ≡ no_head }
    {
        Head {
            rows: 0,
            lines: 0,
            kept: 0,
            own: 0,
            records: 0,
            sum: 0,
        }
    }

    /// What the first row of some says of those before it.
    ///
    /// # Errors
    ///
    /// [`KeepEnd::BadHead`] where it begins as a head does and isn't written as one.
    pub fn of(alloc: Global, row: &ByteRecord) -> Result<Head, KeepEnd>
        ensures says { IfOk result (Says (fields_of row.now)) }
        ensures read { (h : AnyHead) → IsSaid h → row_text default_writer (fields_of row.now) ≡ head_text h → IfOk result (λ head. head ≡ h) }
        ensures ends { IfErr result (HeadEnds (fields_of row.now)) }
    {
        if !begins_as_head(row) {
            return Ok(Head::none());
        }
        let head = numbers_of(row);
        if is_written(alloc, row, &head)? {
            Ok(head)
        } else {
            Err(KeepEnd::BadHead)
        }
    }

    /// What rows stand for that followed on this, where a run over them comes to these counts, and one over what stands in
    /// their place to the others, by a program that takes so many records.
    pub fn behind(&self, sum: u64, records: u64, all: Counts, own: Counts) -> Head
        ensures { (q : Query) → unsigned_abs q.clock.records ≡ records → result ≡ head_by q sum self.now all own }
    {
        Head {
            rows: self.rows.saturating_add(all.rows.saturating_sub(self.kept)),
            lines: self
                .lines
                .saturating_add(all.lines.saturating_sub(self.own)),
            kept: own.rows,
            own: own.lines,
            records: records
                .saturating_sub(all.admitted)
                .saturating_add(own.admitted),
            sum,
        }
    }

    /// Adds the bytes of the row.
    #[tactic(auto, unfolding(crate::specs::Head::head_text))]
    pub fn add_text(&self, out: &mut Vec<u8>) -> Result<(), AllocError>
        ensures { OnOk result (out.new.items ≡ out.old.items ++ head_text self.now) }
    {
        out.extend_from_slice(b"kept")?;
        add_count(self.rows, out)?;
        add_count(self.lines, out)?;
        add_count(self.kept, out)?;
        add_count(self.own, out)?;
        add_count(self.records, out)?;
        add_count(self.sum, out)?;
        Ok(out.push(b'\n')?)
    }
}

// A comma and a number.
fn add_count(count: u64, out: &mut Vec<u8>) -> Result<(), AllocError>
    ensures { OnOk result (out.new.items ≡ out.old.items ++ 44 ∷ decimal count) }
{
    let mut digits = Buffer::new();
    out.push(b',')?;
    out.extend_from_slice(digits.format(count).as_bytes())
}

// Whether the first cell of a row is that of a head.
fn begins_as_head(row: &ByteRecord) -> bool
    ensures { result ≡ is_tagged (fields_of row.now) }
{
    is_tag(row.get(0))
}

fn is_tag(cell: Option<&[u8]>) -> bool
    ensures { result ≡ is_tag (option_map (λ c. c.now) cell.entry) }
{
    match cell {
        Some(cell) => cell == b"kept".as_slice(),
        None => false,
    }
}

// Whether a row is written as a head is.
fn is_written(alloc: Global, row: &ByteRecord, head: &Head) -> Result<bool, AllocError>
    ensures written { IfOk result (λ is. is ≡ true → row_text default_writer (fields_of row.now) ≡ head_text head.now) }
    ensures other { IfOk result (λ is. is ≡ false → row_text default_writer (fields_of row.now) ≢ head_text head.now) }
{
    let text = text_of(alloc, row)?;
    let mut own = Vec::new(alloc);
    head.add_text(&mut own)?;
    Ok(text.as_slice() == own.as_slice())
}

// The numbers in the cells of a row behind the first: those of a head, of a row that is written as one.
fn numbers_of(row: &ByteRecord) -> Head
    ensures { (h : AnyHead) → IsSaid h → fields_of row.now ≡ head_cells h → result ≡ h }
{
    Head {
        rows: number_at(row, 1),
        lines: number_at(row, 2),
        kept: number_at(row, 3),
        own: number_at(row, 4),
        records: number_at(row, 5),
        sum: number_at(row, 6),
    }
}

fn number_at(row: &ByteRecord, place: usize) -> u64
    ensures { (n : ℕ) → n ≤ 18446744073709551615 → slice_get (fields_of row.now) place ≡ Some (decimal n) → result ≡ n }
{
    match row.get(place) {
        Some(cell) => number_of(cell),
        None => 0,
    }
}

// The number that digits say.
fn number_of(cell: &[u8]) -> u64
    ensures { (n : ℕ) → n ≤ 18446744073709551615 → cell.now ≡ decimal n → result ≡ n }
{
    match str::from_utf8(cell) {
        Ok(text) => text.parse::<u64>().unwrap_or(0),
        Err(_) => 0,
    }
}
