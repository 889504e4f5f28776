//! Files that jobs read and write whole.

use std::fs;
use std::io::{self, ErrorKind, Write};
use std::rt::Files;
use wsm_csv::{Device, Guarded, write_out};
use wsm_inputs::{End, Input as Judged, accepted_of};
use wsm_rules::Verified;

/// The bytes of a file.
pub fn read<R: Files + AllocGlobal>(rt: &R, name: &String) -> Result<Vec<u8>, End> {
    match fs::read(rt, name.as_str()) {
        Ok(bytes) => Ok(bytes),
        Err(error) => Err(end_of(&error, End::ReadFailed)),
    }
}

/// The accepted program that a file has, or the program of its query.
pub fn accepted<R: Files + AllocGlobal>(
    rt: &R,
    program: bool,
    name: &String,
) -> Result<Verified, End> {
    let bytes = read(rt, name)?;
    accepted_of(rt.alloc(), input_of(program, &bytes))
}

/// The bytes of a program, or the text of a query.
pub fn input_of(program: bool, bytes: &[u8]) -> Judged<'_> {
    if program {
        Judged::Program(bytes)
    } else {
        Judged::Text(bytes)
    }
}

/// Writes all bytes, and has them leave.
pub fn write_all<W: Write + Drop>(bytes: &[u8], file: W) -> Result<bool, End> {
    let mut out = Guarded::new(file);
    write_out(&mut out, bytes)?;
    out.flush()?;
    Ok(true)
}

/// How a job ends where a file can't be opened, read or made: as given, but for want of memory.
pub fn end_of(error: &io::Error, end: End) -> End {
    match error.kind() {
        ErrorKind::OutOfMemory => End::Memory,
        _ => end,
    }
}
