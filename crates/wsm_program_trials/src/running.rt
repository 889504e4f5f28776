//! Runs of programs, and what they come to.

use std::alloc::Global;
use wsm::{End, Guarded, Totals, run_program};

/// What a program writes for rows, and how it ends.
pub fn program_ran(alloc: Global, program: &[u8], rows: &[u8]) -> (Vec<u8>, Result<Totals, End>) {
    let mut out = Guarded::new(Vec::new(alloc));
    let end = run_program(alloc, program, rows, &mut out);
    (out.into_writer(), end)
}
