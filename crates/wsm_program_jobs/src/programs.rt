//! `wsm compile` and `wsm migrate`: programs that are written to files.

use std::fs::File;
use std::rt::Files;
use wsm_inputs::{End, compile_text, migrate};
use wsm_job::{Stop, end_of, read, write_all};
use wsm_words::{CompileJob, MigrateJob};

/// Writes the program of a query to a file.
pub fn compile<R: Files + AllocGlobal>(rt: &R, job: &CompileJob) -> Result<bool, Stop> {
    let text = read(rt, &job.query)?;
    let program = compile_text(rt.alloc(), &text)?;
    Ok(write(rt, &program, &job.out)?)
}

/// Writes a program to a file, in the version that is written.
pub fn migrated<R: Files + AllocGlobal>(rt: &R, job: &MigrateJob) -> Result<bool, Stop> {
    let bytes = read(rt, &job.program)?;
    let newest = migrate(rt.alloc(), &bytes)?;
    Ok(write(rt, &newest, &job.out)?)
}

// Writes the bytes of a program to a file. The file is made once the bytes are there.
fn write<R: Files>(rt: &R, bytes: &[u8], out: &String) -> Result<bool, End> {
    match File::create(rt, out.as_str()) {
        Ok(file) => write_all(bytes, file),
        Err(error) => Err(end_of(&error, End::WriteFailed)),
    }
}
