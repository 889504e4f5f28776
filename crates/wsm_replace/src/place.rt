//! Where a file lies that is replaced.

use crate::fault::{ReplaceFault, reading, writing};
use std::fs::{self, File, Metadata, OpenOptions, TryLockError};
use std::io::{self, ErrorKind};
use std::os::unix::fs::{MetadataExt, OpenOptionsExt, chown};
use std::path::Path;
use std::rt::Files;

// Who may read and write the new file until it stands in the place of the old one.
const OWNER_ALONE: u32 = 0o600;

/// Where a file `NAME` lies that is to be replaced, by one that is written beside it as `NAME.cut`. It holds the lock
/// of `NAME.lock` until it is let go; whoever else writes the file is to hold that too.
#[derive(Drop)]
pub struct Place {
    path: String,
    beside: String,
    _lock: File,
}

impl Place {
    /// The place of a file, by whatever name it goes; a link is followed. Another one that holds the lock is told as
    /// `Held`. Nothing is left beside it of one that was killed.
    pub fn of<R: Files<File = File> + AllocGlobal>(
        rt: &R,
        name: &str,
    ) -> Result<Place, ReplaceFault> {
        let path = match fs::canonicalize(rt, name) {
            Ok(path) => path.into_string(),
            Err(error) => return Err(reading(&error)),
        };
        let lock = format!(in rt.alloc(); "{path}.lock")?;
        let lock = locked(rt, lock.as_str())?;
        let beside = format!(in rt.alloc(); "{path}.cut")?;
        remove(rt, beside.as_str())?;
        Ok(Place {
            path,
            beside,
            _lock: lock,
        })
    }

    /// The file that is there, and what is known of it. `ReadFailed` where it is no plain file.
    pub fn old<R: Files<File = File>>(&self, rt: &R) -> Result<(File, Metadata), ReplaceFault> {
        let file = match File::open(rt, self.path.as_str()) {
            Ok(file) => file,
            Err(error) => return Err(reading(&error)),
        };
        match file.metadata() {
            Ok(metadata) if metadata.is_file() => Ok((file, metadata)),
            Ok(_) => Err(ReplaceFault::ReadFailed),
            Err(error) => Err(reading(&error)),
        }
    }

    /// Makes the new file, which its owner alone may read.
    pub fn new_file<R: Files<File = File>>(&self, rt: &R) -> Result<File, ReplaceFault> {
        let mut options = OpenOptions::new();
        options.write(true).create_new(true).mode(OWNER_ALONE);
        match options.open(rt, self.beside.as_str()) {
            Ok(file) => Ok(file),
            Err(error) => Err(writing(&error)),
        }
    }

    /// Puts the new file, which is written, in the place of the old one, of whose owner and rights it is then.
    pub fn replace<R: Files<File = File>>(
        &self,
        rt: &R,
        new: &File,
        was: &Metadata,
    ) -> Result<(), ReplaceFault> {
        let beside = self.beside.as_str();
        // One who doesn't own the file may not give it away.
        let _ = chown(rt, beside, Some(was.uid()), Some(was.gid()));
        match renamed(rt, new, was, self.path.as_str(), beside) {
            Ok(()) => Ok(()),
            Err(error) => Err(writing(&error)),
        }
    }

    /// Removes the new file, if it was made and still stands beside the old one.
    pub fn give_up<R: Files>(&self, rt: &R) -> Result<(), ReplaceFault> {
        remove(rt, self.beside.as_str())
    }
}

/// How many bytes a file has that was written.
pub fn size_of(file: &File) -> Result<u64, ReplaceFault> {
    match file.metadata() {
        Ok(metadata) => Ok(metadata.len()),
        Err(error) => Err(writing(&error)),
    }
}

// A file with its lock, which is made where it isn't there.
fn locked<R: Files<File = File>>(rt: &R, name: &str) -> Result<File, ReplaceFault> {
    let opened = OpenOptions::new()
        .read(true)
        .write(true)
        .create(true)
        .open(rt, name);
    let lock = match opened {
        Ok(lock) => lock,
        Err(error) => return Err(writing(&error)),
    };
    match lock.try_lock() {
        Ok(()) => Ok(lock),
        Err(TryLockError::WouldBlock) => Err(ReplaceFault::Held),
        Err(TryLockError::Error(error)) => Err(writing(&error)),
    }
}

/// Removes a file, if it is there.
pub fn remove<R: Files>(rt: &R, name: &str) -> Result<(), ReplaceFault> {
    match fs::remove_file(rt, name) {
        Ok(()) => Ok(()),
        Err(error) if error.kind() == ErrorKind::NotFound => Ok(()),
        Err(error) => Err(writing(&error)),
    }
}

fn renamed<R: Files<File = File>>(
    rt: &R,
    new: &File,
    was: &Metadata,
    path: &str,
    beside: &str,
) -> io::Result<()> {
    new.set_permissions(was.permissions())?;
    new.sync_all()?;
    fs::rename(rt, beside, path)?;
    match Path::new(path).parent() {
        Some(folder) => File::open(rt, folder)?.sync_all(),
        None => Ok(()),
    }
}
