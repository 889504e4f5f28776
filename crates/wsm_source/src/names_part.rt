//! The file of names: lines TEXT,KEY.

ghost use Rattle.std.specs.Prelude.{◌≡◌, ◌⊎◌, ◌+◌, ◌<◌, ◌≤◌, ◌^◌, [], IfOk, IfErr, OnOk, Ok, Err, Some, None, length, position, bytes_eq, true};
ghost use Rattle.wsm_source.specs.Names.{begun, bad_line, end_line, at_start, in_plain, in_quotes, behind_quotes, in_key, behind_return, step, finish, lines_of, names_of};
ghost use Rattle.wsm_lines.specs.Text.{unmarked};

use std::alloc::Global;
use std::marker::Model;
use wsm_description::{Refusal, SourceFault, refuse};
use wsm_lines::Table;
use wsm_record::Schema;

// Where in a line of the file a byte stands.
#[derive(Clone, Copy)]
pub enum Within {
    /// At its beginning.
    Start,
    /// In a text without quotes.
    Plain,
    /// In a text in quotes.
    Quotes,
    /// Behind a quote of such a text.
    Closed,
    /// In the key.
    Key,
    /// Behind a carriage return at the key's end.
    Return,
}

// The file as far as it was read: the lines before as entries, the number of the line that it is in, and
// its text and key so far.
#[derive(Drop)]
struct NamesFile {
    table: Table,
    line: u64,
    text: Vec<u8>,
    key: Vec<u8>,
    within: Within,
}

impl Model for NamesFile {
    ghost use Rattle.wsm_source.specs.NamesRead.{NamesRead};

    ghost Value = { NamesRead };

    ghost view = { λ a. record { entries = a.table; line = a.line; text = a.text.items; key = a.key.items; within = a.within } };
}

// The refusal of a line.
fn bad_line(alloc: Global, line: u64) -> Refusal
    ensures { (result ≡ Refusal.Memory) ⊎ (result ≡ bad_line line) }
{
    refuse(alloc, SourceFault::BadLine(line), "key", "names")
}

impl NamesFile {
    fn new(alloc: Global) -> NamesFile
        ensures { result ≡ begun }
    {
        NamesFile {
            table: Table::new(alloc),
            line: 1,
            text: Vec::new(alloc),
            key: Vec::new(alloc),
            within: Within::Start,
        }
    }

    // The entry of a line that ends.
    fn end_line(&mut self, alloc: Global, schema: &Schema) -> Result<(), Refusal>
        requires { self.old.line + 1 < 2 ^ 64 }
        ensures ok { OnOk result (end_line schema.now.keys self.old ≡ Ok self.new) }
        ensures fault { IfErr result (λ r. (r ≡ Refusal.Memory) ⊎ (end_line schema.now.keys self.old ≡ Err r)) }
    {
        let Some(number) = schema.keys().number_of(self.key.as_slice()) else {
            return Err(bad_line(alloc, self.line));
        };
        self.table.add(alloc, self.text.as_slice(), number)?;
        self.text.clear();
        self.key.clear();
        self.line += 1;
        self.within = Within::Start;
        Ok(())
    }

    // A byte at the beginning of a line.
    fn at_start(&mut self, alloc: Global, byte: u8) -> Result<(), Refusal>
        ensures ok { OnOk result (at_start self.old byte ≡ Ok self.new) }
        ensures fault { IfErr result (λ r. (r ≡ Refusal.Memory) ⊎ (at_start self.old byte ≡ Err r)) }
    {
        if byte == b'"' {
            self.within = Within::Quotes;
            Ok(())
        } else {
            self.in_plain(alloc, byte)
        }
    }

    // A byte in a text without quotes.
    fn in_plain(&mut self, alloc: Global, byte: u8) -> Result<(), Refusal>
        ensures ok { OnOk result (in_plain self.old byte ≡ Ok self.new) }
        ensures fault { IfErr result (λ r. (r ≡ Refusal.Memory) ⊎ (in_plain self.old byte ≡ Err r)) }
    {
        if byte == b',' {
            self.within = Within::Key;
            Ok(())
        } else if byte == b'\n' || byte == b'"' {
            Err(bad_line(alloc, self.line))
        } else {
            self.text.push(byte)?;
            self.within = Within::Plain;
            Ok(())
        }
    }

    // A byte in quotes.
    fn in_quotes(&mut self, alloc: Global, byte: u8) -> Result<(), Refusal>
        ensures ok { OnOk result (in_quotes self.old byte ≡ Ok self.new) }
        ensures fault { IfErr result (λ r. (r ≡ Refusal.Memory) ⊎ (in_quotes self.old byte ≡ Err r)) }
    {
        if byte == b'"' {
            self.within = Within::Closed;
            Ok(())
        } else if byte == b'\n' {
            Err(bad_line(alloc, self.line))
        } else {
            self.text.push(byte)?;
            Ok(())
        }
    }

    // A byte behind a quote that may be the last.
    fn behind_quotes(&mut self, alloc: Global, byte: u8) -> Result<(), Refusal>
        ensures ok { OnOk result (behind_quotes self.old byte ≡ Ok self.new) }
        ensures fault { IfErr result (λ r. (r ≡ Refusal.Memory) ⊎ (behind_quotes self.old byte ≡ Err r)) }
    {
        if byte == b'"' {
            self.text.push(byte)?;
            self.within = Within::Quotes;
            Ok(())
        } else if byte == b',' {
            self.within = Within::Key;
            Ok(())
        } else {
            Err(bad_line(alloc, self.line))
        }
    }

    // A byte in the key.
    fn in_key(&mut self, alloc: Global, schema: &Schema, byte: u8) -> Result<(), Refusal>
        requires { self.old.line + 1 < 2 ^ 64 }
        ensures ok { OnOk result (in_key schema.now.keys self.old byte ≡ Ok self.new) }
        ensures fault { IfErr result (λ r. (r ≡ Refusal.Memory) ⊎ (in_key schema.now.keys self.old byte ≡ Err r)) }
    {
        if byte == b'\n' {
            self.end_line(alloc, schema)
        } else if byte == b'\r' {
            self.within = Within::Return;
            Ok(())
        } else {
            self.key.push(byte)?;
            Ok(())
        }
    }

    // A byte behind a carriage return.
    fn behind_return(&mut self, alloc: Global, schema: &Schema, byte: u8) -> Result<(), Refusal>
        requires { self.old.line + 1 < 2 ^ 64 }
        ensures ok { OnOk result (behind_return schema.now.keys self.old byte ≡ Ok self.new) }
        ensures fault { IfErr result (λ r. (r ≡ Refusal.Memory) ⊎ (behind_return schema.now.keys self.old byte ≡ Err r)) }
    {
        if byte == b'\n' {
            self.end_line(alloc, schema)
        } else {
            Err(bad_line(alloc, self.line))
        }
    }

    // One more byte.
    fn take(&mut self, alloc: Global, schema: &Schema, byte: u8) -> Result<(), Refusal>
        requires { self.old.line + 1 < 2 ^ 64 }
        ensures ok { OnOk result (step schema.now.keys self.old byte ≡ Ok self.new) }
        ensures fault { IfErr result (λ r. (r ≡ Refusal.Memory) ⊎ (step schema.now.keys self.old byte ≡ Err r)) }
    {
        match self.within {
            Within::Start => self.at_start(alloc, byte),
            Within::Plain => self.in_plain(alloc, byte),
            Within::Quotes => self.in_quotes(alloc, byte),
            Within::Closed => self.behind_quotes(alloc, byte),
            Within::Key => self.in_key(alloc, schema, byte),
            Within::Return => self.behind_return(alloc, schema, byte),
        }
    }

    // The table, where the file may end there.
    fn finish(mut self, alloc: Global, schema: &Schema) -> Result<Table, Refusal>
        requires { self.line + 1 < 2 ^ 64 }
        ensures ok { IfOk result (λ table. finish schema.now.keys self ≡ Ok table) }
        ensures fault { IfErr result (λ r. (r ≡ Refusal.Memory) ⊎ (finish schema.now.keys self ≡ Err r)) }
    {
        match self.within {
            Within::Start => Ok(self.table),
            Within::Key | Within::Return => {
                self.end_line(alloc, schema)?;
                Ok(self.table)
            }
            _ => Err(bad_line(alloc, self.line)),
        }
    }
}

// A text without the byte order mark that may stand in front of it.
fn unmarked(text: &[u8]) -> &[u8]
    ensures { result.now ≡ unmarked true text.now }
{
    match text.strip_prefix(b"\xef\xbb\xbf") {
        Some(rest) => rest,
        None => text,
    }
}

// The table of lines.
fn lines_of(alloc: Global, schema: &Schema, text: &[u8]) -> Result<Table, Refusal>
    ensures ok { IfOk result (λ table. lines_of schema.now.keys text.now ≡ Ok table) }
    ensures fault { IfErr result (λ r. (r ≡ Refusal.Memory) ⊎ (lines_of schema.now.keys text.now ≡ Err r)) }
{
    let mut file = NamesFile::new(alloc);
    for byte in text {
        file.take(alloc, schema, *byte)?;
    }
    file.finish(alloc, schema)
}

/// The table of a file of names, by the declared keys. A byte order mark in front is no part of it.
pub fn names_of(alloc: Global, schema: &Schema, text: &[u8]) -> Result<Table, Refusal>
    ensures ok { IfOk result (λ table. names_of schema.now.keys text.now ≡ Ok table) }
    ensures fault { IfErr result (λ r. (r ≡ Refusal.Memory) ⊎ (names_of schema.now.keys text.now ≡ Err r)) }
{
    lines_of(alloc, schema, unmarked(text))
}
