//! Where a value stands in a line, by its format.

ghost use Rattle.std.specs.Prelude.{◌≡◌, ◌⊎◌, ◌+◌, ◌<◌, ◌^◌, if◌then◌else◌, IfOk, IfErr, Ok, Err, Some, None, option_map};
ghost use Rattle.wsm_source.specs.Pointers.{text_or_none, start, end_name, escape, step, finish, pointer_of, path_of};
ghost use Rattle.wsm_source.specs.Places.{request_cell, cell_named, path_place, cell_place, place_of, place_if};

use std::alloc::{AllocError, Global};
use std::marker::Model;
use wsm_description::{Format, Refusal, SourceFault, refuse};
use wsm_lines::{Place, Words};
use wsm_values::Word;

/// A copy of bytes that are a text.
pub fn text_or_none(alloc: Global, bytes: &[u8]) -> Result<Option<Word>, AllocError>
    ensures { IfOk result (λ word. word ≡ text_or_none bytes.now) }
{
    match str::from_utf8(bytes) {
        Ok(text) => Ok(Some(Word::new(alloc, text)?)),
        Err(_) => Ok(None),
    }
}

// The number of a part of an access line behind its first six.
fn request_cell(name: &str) -> Option<usize>
    ensures { result ≡ request_cell name.now }
{
    if name == "bytes" {
        Some(6)
    } else if name == "referer" {
        Some(7)
    } else if name == "agent" {
        Some(8)
    } else if name == "method" {
        Some(9)
    } else if name == "path" {
        Some(10)
    } else if name == "protocol" {
        Some(11)
    } else {
        None
    }
}

// The number of a part of an access line.
fn cell_named(name: &str) -> Option<usize>
    ensures { result ≡ cell_named name.now }
{
    if name == "host" {
        Some(0)
    } else if name == "ident" {
        Some(1)
    } else if name == "user" {
        Some(2)
    } else if name == "time" {
        Some(3)
    } else if name == "request" {
        Some(4)
    } else if name == "status" {
        Some(5)
    } else {
        request_cell(name)
    }
}

// A JSON pointer, as far as it was read: the names before, the bytes of the one it is in, and whether a
// tilde was the last.
#[derive(Drop)]
struct Pointer {
    names: Vec<Word>,
    name: Vec<u8>,
    escaped: bool,
}

impl Model for Pointer {
    ghost use Rattle.wsm_source.specs.Pointers.{Pointed};

    ghost Value = { Pointed };

    ghost view = { λ a. record { names = a.names.items; name = a.name.items; escaped = a.escaped } };
}

impl Pointer {
    fn new(alloc: Global) -> Pointer
        ensures { result ≡ start }
    {
        Pointer {
            names: Vec::new(alloc),
            name: Vec::new(alloc),
            escaped: false,
        }
    }

    // Ends a name, where it is a text.
    fn end_name(&mut self, alloc: Global) -> Result<bool, AllocError>
        ensures { IfOk result (λ good. end_name self.old ≡ (if good then Some self.new else None)) }
    {
        match text_or_none(alloc, self.name.as_slice())? {
            Some(name) => {
                self.names.push(name)?;
                self.name.clear();
                Ok(true)
            }
            None => Ok(false),
        }
    }

    // A byte behind a tilde.
    fn escape(&mut self, byte: u8) -> Result<bool, AllocError>
        ensures { IfOk result (λ good. escape self.old byte ≡ (if good then Some self.new else None)) }
    {
        if byte == b'0' {
            self.name.push(b'~')?;
        } else if byte == b'1' {
            self.name.push(b'/')?;
        } else {
            return Ok(false);
        }
        self.escaped = false;
        Ok(true)
    }

    // One more byte; whether it may stand there.
    fn take(&mut self, alloc: Global, byte: u8) -> Result<bool, AllocError>
        ensures { IfOk result (λ good. step self.old byte ≡ (if good then Some self.new else None)) }
    {
        if self.escaped {
            return self.escape(byte);
        }
        if byte == b'/' {
            return self.end_name(alloc);
        }
        if byte == b'~' {
            self.escaped = true;
            return Ok(true);
        }
        self.name.push(byte)?;
        Ok(true)
    }

    // The names, where the pointer may end there.
    fn finish(mut self, alloc: Global) -> Result<Option<Words>, AllocError>
        ensures { IfOk result (λ names. finish self ≡ names) }
    {
        if self.escaped {
            return Ok(None);
        }
        match text_or_none(alloc, self.name.as_slice())? {
            Some(name) => {
                self.names.push(name)?;
                let Pointer {
                    names,
                    name: _name,
                    escaped: _escaped,
                } = self;
                Ok(Some(Words::new(names)))
            }
            None => Ok(None),
        }
    }
}

// The names of a JSON pointer behind its first slash.
fn pointer_of(alloc: Global, text: &[u8]) -> Result<Option<Words>, AllocError>
    ensures { IfOk result (λ names. names ≡ pointer_of text.now) }
{
    let mut pointer = Pointer::new(alloc);
    for byte in text {
        if !pointer.take(alloc, *byte)? {
            return Ok(None);
        }
    }
    pointer.finish(alloc)
}

// The names of members that lead to a value: of a pointer, or one.
fn path_of(alloc: Global, at: &str) -> Result<Option<Words>, AllocError>
    ensures { IfOk result (λ names. names ≡ path_of at.now) }
{
    match at.as_bytes() {
        [b'/', rest @ ..] => pointer_of(alloc, rest),
        _ => {
            let mut names = Vec::new(alloc);
            names.push(Word::new(alloc, at)?)?;
            Ok(Some(Words::new(names)))
        }
    }
}

// Where a value of JSON stands.
fn path_place(alloc: Global, section: &str, at: &str) -> Result<Place, Refusal>
    ensures ok { IfOk result (λ place. path_place section.now at.now ≡ Ok place) }
    ensures fault { IfErr result (λ r. (r ≡ Refusal.Memory) ⊎ (path_place section.now at.now ≡ Err r)) }
{
    match path_of(alloc, at)? {
        Some(names) => Ok(Place::Path(names)),
        None => Err(refuse(alloc, SourceFault::BadWord, section, "at")),
    }
}

// Where a value of an access line stands.
fn cell_place(alloc: Global, section: &str, at: &str) -> Result<Place, Refusal>
    ensures ok { IfOk result (λ place. cell_place section.now at.now ≡ Ok place) }
    ensures fault { IfErr result (λ r. (r ≡ Refusal.Memory) ⊎ (cell_place section.now at.now ≡ Err r)) }
{
    match cell_named(at) {
        Some(number) => Ok(Place::Column(number)),
        None => Err(refuse(alloc, SourceFault::BadWord, section, "at")),
    }
}

/// Where a value stands: in CSV in the column of this number, of those that are asked for, and in a row
/// behind its tag.
pub fn place_of(
    alloc: Global,
    format: Format,
    column: usize,
    section: &str,
    at: &str,
) -> Result<Place, Refusal>
    requires { column + 1 < 2 ^ 64 }
    ensures ok { IfOk result (λ place. place_of format column section.now at.now ≡ Ok place) }
    ensures fault { IfErr result (λ r. (r ≡ Refusal.Memory) ⊎ (place_of format column section.now at.now ≡ Err r)) }
{
    match format {
        Format::Json => path_place(alloc, section, at),
        Format::Access => cell_place(alloc, section, at),
        Format::Csv(_) => Ok(Place::Column(column)),
        Format::Rows => Ok(Place::Column(column + 1)),
    }
}

/// Where a value stands of which a place may be said.
pub fn place_if(
    alloc: Global,
    format: Format,
    column: usize,
    section: &str,
    at: Option<&str>,
) -> Result<Option<Place>, Refusal>
    requires { column + 1 < 2 ^ 64 }
    ensures ok { IfOk result (λ place. place_if format column section.now (option_map (λ s. s.now) at.entry) ≡ Ok place) }
    ensures fault { IfErr result (λ r. (r ≡ Refusal.Memory) ⊎ (place_if format column section.now (option_map (λ s. s.now) at.entry) ≡ Err r)) }
{
    match at {
        Some(at) => Ok(Some(place_of(alloc, format, column, section, at)?)),
        None => Ok(None),
    }
}
