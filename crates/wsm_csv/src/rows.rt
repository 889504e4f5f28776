//! The rows of a reader, one at a time.

ghost use Rattle.std.specs.Prelude.{◌≡◌, ◌≢◌, ◌<◌, ℕ, List, [], Option, Some, Ok, IfErr, option_map, true};
ghost use Rattle.csv.specs.Records.{fields_of};
ghost use Rattle.wsm_csv.specs.Rows.{read_end};

use csv::{ByteRecord, Error, Reader, ReaderBuilder};
use std::alloc::Global;
use std::io::Read;

/// Why the rows ended early.
#[derive(Clone, Copy, Debug, PartialEq, Eq)]
pub enum ReadEnd {
    /// A read of the bytes failed.
    Failed,
    /// Memory was refused, or 2^64 - 1 rows were read.
    Memory,
}

/// The rows of a reader: the records that `csv` finds in its bytes, one at a time, each in the place
/// of the one before. No row is a header, rows may differ in their number of cells, and cells are
/// the bytes as they stand.
#[derive(Drop)]
pub struct Rows<R> {
    reader: Reader<R>,
    row: ByteRecord,
    left: u64,
    error: Option<Error>,
}

impl<R: Read + Drop> Rows<R> {
    ghost use Rattle.wsm_csv.specs.Rows.{Advances, Follows, cells_of, error_of, has_ended, turns_left};

    /// The rows of the bytes that the reader has. None is read.
    pub fn new(alloc: Global, reader: R) -> Rows<R>
        ensures { Follows R.remaining (R.remaining reader) [] result }
    {
        Rows {
            reader: ReaderBuilder::new()
                .has_headers(false)
                .flexible(true)
                .from_reader(alloc, reader),
            row: ByteRecord::new(alloc),
            left: u64::MAX,
            error: None,
        }
    }

    /// Reads the next row, and answers whether there was one. After an error there is none, and it is
    /// kept: a failed read is told where that is one of a read, and want of memory else. `csv` has no
    /// clause on when it answers which, so none ties what is told to what happened: tests do.
    pub fn advance(&mut self) -> Result<bool, ReadEnd>
        ensures advances { (known : Option (List ℕ)) (rows : List (List (List ℕ))) → Follows R.remaining known rows self.old →
            Advances R.remaining known rows self.new result }
        ensures counts { result ≡ Ok true → turns_left self.new < turns_left self.old }
        ensures ended { has_ended self.old ≡ true → result ≢ Ok true }
        ensures told { IfErr result (λ end. end ≡ read_end (error_of self.new)) }
    {
        match self.left.checked_sub(1) {
            Some(left) => self.left = left,
            None => {
                self.error = None;
                return Err(ReadEnd::Memory);
            }
        }
        match self.reader.read_byte_record(&mut self.row) {
            Ok(found) => Ok(found),
            Err(error) => {
                let end = end_of(&error);
                self.error = Some(error);
                Err(end)
            }
        }
    }

    /// What `csv` said where it ended the rows.
    pub fn error(&self) -> Option<&Error>
        ensures { option_map (λ e. e.now) result ≡ error_of self.now }
    {
        self.error.as_ref()
    }

    /// What the rows are read from. Where it is ahead of [`Rows::place`], the reader has bytes that no
    /// row took yet.
    pub fn source(&self) -> &R {
        self.reader.get_ref()
    }

    /// How many bytes the rows so far took.
    pub fn place(&self) -> u64 {
        self.reader.position().byte()
    }

    /// The row that was read last.
    pub fn row(&self) -> &ByteRecord
        ensures { fields_of result.now ≡ cells_of self.now }
    {
        &self.row
    }
}

// A read that failed, or want of memory.
fn end_of(error: &Error) -> ReadEnd
    ensures { result ≡ read_end (Some error.now) }
{
    if error.is_io_error() {
        ReadEnd::Failed
    } else {
        ReadEnd::Memory
    }
}
