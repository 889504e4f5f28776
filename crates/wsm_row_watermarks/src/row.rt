//! Lines taken apart.

ghost use Rattle.std.specs.Prelude.{◌≡◌, ◌<◌, ◌++◌, [], OnOk, get_or, length};
ghost use Rattle.csv.specs.Records.{fields_of};
ghost use Rattle.wsm_row_watermarks.specs.Lines.{cells_of, has_cell, joined, without};

use csv::ByteRecord;
use memchr::memchr;
use std::alloc::{AllocError, Global};

/// The first place of a record that may have its identifier: behind its tag, its key and its time.
pub const FIRST_PLACE: usize = 3;

/// The cells of a line, and the identifier of its record. The identifier stands in a cell of its own, which doesn't go on.
#[derive(Drop)]
pub struct Row {
    cells: ByteRecord,
    // All cells, where one doesn't go on.
    all: ByteRecord,
    // No byte: there is none.
    identifier: Vec<u8>,
}

impl Row {
    ghost use Rattle.std.specs.Prelude.{◌≡◌, ◌++◌, [], OnOk, None, Some, option_map};
    ghost use Rattle.csv.specs.Records.{fields_of};
    ghost use Rattle.wsm_row_watermarks.specs.Lines.{some_text, taken_of};

    /// Of no line.
    pub fn new(alloc: Global) -> Row {
        Row {
            cells: ByteRecord::new(alloc),
            all: ByteRecord::new(alloc),
            identifier: Vec::new(alloc),
        }
    }

    /// Takes a text apart, whose records may have their identifier at a place, from 0 on, and adds the text that goes on.
    pub fn read(
        &mut self,
        once: Option<usize>,
        text: &[u8],
        line: &mut Vec<u8>,
    ) -> Result<(), AllocError>
        ensures cells { OnOk result (fields_of self.new.cells ≡ (taken_of once text.now).cells) }
        ensures identifier { OnOk result (some_text self.new.identifier.items ≡ (taken_of once text.now).identifier) }
        ensures text { OnOk result (line.new.items ≡ line.old.items ++ (taken_of once text.now).text) }
    {
        self.identifier.clear();
        match once {
            None => self.read_whole(text, line),
            Some(place) => self.read_out(place, text, line),
        }
    }

    // All of a text goes on.
    fn read_whole(&mut self, text: &[u8], line: &mut Vec<u8>) -> Result<(), AllocError>
        ensures cells { OnOk result (fields_of self.new.cells ≡ (taken_of None text.now).cells) }
        ensures identifier { self.new.identifier ≡ self.old.identifier }
        ensures text { OnOk result (line.new.items ≡ line.old.items ++ text.now) }
    {
        read_cells(text, &mut self.cells)?;
        line.extend_from_slice(text)
    }

    // The identifier doesn't go on.
    fn read_out(&mut self, place: usize, text: &[u8], line: &mut Vec<u8>) -> Result<(), AllocError>
        requires { self.old.identifier.items ≡ [] }
        ensures cells { OnOk result (fields_of self.new.cells ≡ (taken_of (Some place) text.now).cells) }
        ensures identifier { OnOk result (some_text self.new.identifier.items ≡ (taken_of (Some place) text.now).identifier) }
        ensures text { OnOk result (line.new.items ≡ line.old.items ++ (taken_of (Some place) text.now).text) }
    {
        read_cells(text, &mut self.all)?;
        if !has_cell(&self.all, place) {
            return self.read_whole(text, line);
        }
        self.identifier
            .extend_from_slice(cell_at(&self.all, place))?;
        leave_out(&self.all, place, &mut self.cells)?;
        add_joined(&self.cells, line)
    }

    /// The cells.
    pub fn cells(&self) -> &ByteRecord
        ensures { result.now ≡ self.now.cells }
    {
        &self.cells
    }

    /// The identifier, if there is one.
    pub fn identifier(&self) -> Option<&[u8]>
        ensures { option_map (λ t. t.now) result ≡ some_text self.now.identifier.items }
    {
        if self.identifier.is_empty() {
            None
        } else {
            Some(&self.identifier)
        }
    }
}

// Reads the cells of a text.
fn read_cells(text: &[u8], cells: &mut ByteRecord) -> Result<(), AllocError>
    ensures { OnOk result (fields_of cells.new ≡ cells_of text.now) }
{
    cells.clear();
    let mut rest = text;
    while let Some(end) = memchr(b',', rest) {
        let (cell, behind) = rest.split_at(end);
        cells.push_field(cell)?;
        rest = &behind[1..];
    }
    cells.push_field(rest)
}

// A cell of a row.
fn cell_at(cells: &ByteRecord, place: usize) -> &[u8]
    requires { place < length (fields_of cells.now) }
    ensures { result.now ≡ get_or (fields_of cells.now) place [] }
{
    cells.get(place).unwrap()
}

// Whether a row is a record with a cell at a place behind its time.
fn has_cell(cells: &ByteRecord, place: usize) -> bool
    ensures { result ≡ has_cell place (fields_of cells.now) }
{
    FIRST_PLACE <= place && (place < cells.len() && cell_at(cells, 0) == b"r".as_slice())
}

// Reads the cells of a row but one.
fn leave_out(all: &ByteRecord, place: usize, cells: &mut ByteRecord) -> Result<(), AllocError>
    ensures { OnOk result (fields_of cells.new ≡ without place (fields_of all.now)) }
{
    cells.clear();
    for at in 0..all.len() {
        if at != place {
            cells.push_field(cell_at(all, at))?;
        }
    }
    Ok(())
}

// Adds the text of cells.
fn add_joined(cells: &ByteRecord, line: &mut Vec<u8>) -> Result<(), AllocError>
    ensures { OnOk result (line.new.items ≡ line.old.items ++ joined (fields_of cells.now)) }
{
    for at in 0..cells.len() {
        if at != 0 {
            line.push(b',')?;
        }
        line.extend_from_slice(cell_at(cells, at))?;
    }
    Ok(())
}
