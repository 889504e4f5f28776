//! Runs of queries, and what they come to.

use std::alloc::Global;
use std::io::Read;
use wsm::{End, Guarded, Totals, run_query};

/// What a query writes for rows, and how it ends.
pub fn ran<R: Read + Drop>(alloc: Global, text: &[u8], rows: R) -> (Vec<u8>, Result<Totals, End>) {
    let mut out = Guarded::new(Vec::new(alloc));
    let end = run_query(alloc, text, rows, &mut out);
    (out.into_writer(), end)
}
