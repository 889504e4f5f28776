//! A file that is written as a whole.

use crate::fault::{ReplaceFault, writing};
use crate::place::remove;
use std::fs::{self, File, OpenOptions};
use std::io::{self, ErrorKind, Write};
use std::rt::Files;

/// Puts a file of these bytes in the place of the one of this name, or where none is; a link is followed. It is written
/// beside it as `NAME.next`, synced and renamed, so who reads finds the old one whole, or the new one. One at a time may
/// do so, and nothing is left beside it of one that was killed. Where the name is that of no plain file, as of a pipe,
/// the bytes are written to that.
///
/// # Errors
///
/// There was no memory, or it can't be written.
pub fn put<R: Files<File = File> + AllocGlobal>(
    rt: &R,
    name: &str,
    bytes: &[u8],
) -> Result<(), ReplaceFault> {
    match fs::metadata(rt, name) {
        Ok(metadata) if metadata.is_file() => put_over(rt, name, bytes),
        Err(error) if error.kind() == ErrorKind::NotFound => put_at(rt, name, bytes),
        Err(error) => Err(writing(&error)),
        Ok(_) => answered(written_to(rt, name, bytes)),
    }
}

// Puts it in the place of a file, by whatever name that goes.
fn put_over<R: Files<File = File> + AllocGlobal>(
    rt: &R,
    name: &str,
    bytes: &[u8],
) -> Result<(), ReplaceFault> {
    match fs::canonicalize(rt, name) {
        Ok(path) => put_at(rt, path.into_string().as_str(), bytes),
        Err(error) => Err(writing(&error)),
    }
}

// Puts it at a path.
fn put_at<R: Files<File = File> + AllocGlobal>(
    rt: &R,
    path: &str,
    bytes: &[u8],
) -> Result<(), ReplaceFault> {
    let beside = format!(in rt.alloc(); "{path}.next")?;
    remove(rt, beside.as_str())?;
    answered(renamed(rt, path, beside.as_str(), bytes))
}

fn answered(done: io::Result<()>) -> Result<(), ReplaceFault> {
    match done {
        Ok(()) => Ok(()),
        Err(error) => Err(writing(&error)),
    }
}

fn renamed<R: Files<File = File>>(
    rt: &R,
    path: &str,
    beside: &str,
    bytes: &[u8],
) -> io::Result<()> {
    let mut options = OpenOptions::new();
    options.write(true).create_new(true);
    let mut file = options.open(rt, beside)?;
    file.write_all(bytes)?;
    file.sync_all()?;
    fs::rename(rt, beside, path)
}

fn written_to<R: Files<File = File>>(rt: &R, name: &str, bytes: &[u8]) -> io::Result<()> {
    let mut options = OpenOptions::new();
    options.write(true);
    options.open(rt, name)?.write_all(bytes)
}
