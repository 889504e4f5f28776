//! `wsm verify --keys`: what so many keys take.

use std::io;
use std::rt::Files;
use wsm_job::{Stop, WordsFault, number_in, read, write_all};
use wsm_key_memory::{bytes_of_keys, parts_of};
use wsm_keyed_run::checked_by_places;
use wsm_words::VerifyJob;

/// Writes how many parts so many keys of a query without a KEYS clause take, how many keys a part has, and how many panes it holds; then how
/// many bytes all of them take at most.
pub fn tell_parts<R: Files + AllocGlobal + Print>(
    rt: &R,
    job: &VerifyJob,
    keys: &String,
) -> Result<bool, Stop> {
    if job.from.is_some() {
        return Err(Stop::Words(WordsFault::KeysOfSource));
    }
    let keys = number_in(Some(keys), "--keys")?.unwrap_or(0);
    let query = read(rt, &job.program)?;
    let verified = checked_by_places(rt.alloc(), &query)?;
    let block = verified.program().header().schema.key_count() as u64;
    let parts = parts_of(block, keys);
    let panes = verified.costs().held;
    let bytes = bytes_of_keys(&verified, keys);
    let text = format!(in rt.alloc(); "parts,{parts},{block},{panes}\nbytes,{bytes}\n")?;
    Ok(write_all(text.as_bytes(), io::writer(rt))?)
}
