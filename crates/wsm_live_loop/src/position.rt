//! The last position of DIR.

ghost use Rattle.std.specs.Prelude.{◌≡◌, [], map, IfOk};
ghost use Rattle.wsm_journal.specs.Reading.{read_journal};
ghost use Rattle.wsm_journal.specs.Seen.{entry_seen};
ghost use Rattle.wsm_live.specs.Live.{last_position};

use crate::stop::{LiveStop, stop_of};
use std::alloc::{AllocError, Global};
use std::fs::File;
use std::rt::Files;
use wsm_journal::{Behind, FolderError, JournalFolder, Record, read_journal};
use wsm_live::LiveError;
use wsm_live_files::JournalFiles;

/// The position up to which DIR has all: that of its journal's last record, and nothing where it has none. It is read without the
/// lock, and nothing is changed.
///
/// # Errors
///
/// There was no memory, the journal can't be read, or it is damaged.
pub fn position_of<R>(rt: &R, dir: &str) -> Result<Vec<u8>, LiveStop>
where
    R: Files<File = File> + AllocGlobal,
{
    let mut files = JournalFiles::new(rt, dir)?;
    match files.read(rt.alloc()) {
        Ok(bytes) => position_in(rt.alloc(), &bytes),
        Err(FolderError::Memory) => Err(LiveStop::Memory),
        Err(FolderError::Failed) => Err(stop_of(LiveError::Failed, files.fault())),
    }
}

// That of the last whole record of a journal with these bytes.
fn position_in(alloc: Global, bytes: &[u8]) -> Result<Vec<u8>, LiveStop>
    ensures { IfOk result (λ position. position.items ≡ last_position [] (read_journal bytes.now).entries) }
{
    let read = read_journal(alloc, bytes)?;
    if read.behind == Behind::Damage {
        return Err(LiveStop::Damaged);
    }
    Ok(last_of(&read.records).to_vec(alloc)?)
}

// That of the last record.
fn last_of<'t>(records: &[Record<'t>]) -> &'t [u8]
    ensures { result.now ≡ last_position [] (map entry_seen records.now) }
{
    match records.last() {
        Some(last) => last.position,
        None => b"",
    }
}
