//! The folder of a live run.

use crate::fault::{FileCall, FolderFault};
use crate::journal_files::{JournalFiles, names_synced};
use crate::taken::{Taken, Told, is_sinks};
use std::alloc::{AllocError, Global};
use std::fs::{self, DirBuilder, File, OpenOptions, TryLockError};
use std::io::{self, ErrorKind, Read};
use std::os::unix::fs::{DirBuilderExt, OpenOptionsExt};
use std::path::Path;
use std::rt::Files;

// Who may look into the folder, and who may read and write its lock.
const OWNERS_FOLDER: u32 = 0o700;

const OWNER_ALONE: u32 = 0o600;

// The most bytes that are read of what a sink told.
const MOST_TOLD: u64 = 64;

// What the files are called where a call failed.
const FOLDER: &str = "DIR";

const LOCK: &str = "DIR/lock";

const JOURNAL: &str = "DIR/journal";

const TAKEN: &str = "DIR/taken";

const HEALTH: &str = "the file of health";

/// The folder of a live run. It holds the lock until it is let go.
#[derive(Drop)]
pub struct LiveFolder<'r, R> {
    rt: &'r R,
    path: String,
    _lock: File,
}

impl<'r, R: Files<File = File> + AllocGlobal + Clone + Drop> LiveFolder<'r, R> {
    /// Holds the folder of a path, which is made where it isn't there, for its owner alone; its name is on the disk then.
    ///
    /// # Errors
    ///
    /// Another one holds it, there was no memory, or a call failed.
    pub fn hold(rt: &'r R, path: &str) -> Result<LiveFolder<'r, R>, FolderFault> {
        match made(rt, path) {
            Ok(()) => {}
            Err(error) => return Err(FolderFault::of(FOLDER, FileCall::Open, &error)),
        }
        let lock = format!(in rt.alloc(); "{path}/lock")?;
        let lock = locked(rt, lock.as_str())?;
        Ok(LiveFolder {
            rt,
            path: String::from_str(rt.alloc(), path)?,
            _lock: lock,
        })
    }

    /// The path of a file in it.
    ///
    /// # Errors
    ///
    /// Memory was refused.
    pub fn path_of(&self, file: &str) -> Result<String, AllocError> {
        let path = &self.path;
        format!(in self.rt.alloc(); "{path}/{file}")
    }

    /// Its journal.
    ///
    /// # Errors
    ///
    /// Memory was refused.
    pub fn journal(&self) -> Result<JournalFiles<'r, R>, AllocError> {
        JournalFiles::new(self.rt, self.path.as_str())
    }

    /// How many bytes its journal has; none where it isn't there.
    ///
    /// # Errors
    ///
    /// There was no memory, or it couldn't be looked at.
    pub fn journal_size(&self) -> Result<u64, FolderFault> {
        let path = self.path_of("journal")?;
        match fs::metadata(self.rt, path.as_str()) {
            Ok(metadata) => Ok(metadata.len()),
            Err(error) if error.kind() == ErrorKind::NotFound => Ok(0),
            Err(error) => Err(FolderFault::of(JOURNAL, FileCall::Read, &error)),
        }
    }

    /// What each sink told.
    ///
    /// # Errors
    ///
    /// There was no memory, or the folder or a sink's file couldn't be read.
    pub fn taken(&self) -> Result<Vec<Taken>, FolderFault> {
        let mut all = Vec::new(self.rt.alloc());
        for file in self.sinks()? {
            let told = self.told_by(file.as_str())?;
            all.push(Taken { file, told })?;
        }
        Ok(all)
    }

    // What a sink told by a file.
    fn told_by(&self, file: &str) -> Result<Option<Told>, FolderFault> {
        let path = self.path_of(file)?;
        match first_bytes(self.rt, path.as_str()) {
            Ok(bytes) => Ok(Told::of(&bytes)),
            Err(error) => Err(FolderFault::of(TAKEN, FileCall::Read, &error)),
        }
    }

    // The names of the files that sinks tell by.
    fn sinks(&self) -> Result<Vec<String>, FolderFault> {
        let mut names = Vec::new(self.rt.alloc());
        let entries = match fs::read_dir(self.rt, self.path.as_str()) {
            Ok(entries) => entries,
            Err(error) => return Err(FolderFault::of(FOLDER, FileCall::Read, &error)),
        };
        for entry in entries {
            match entry {
                Ok(entry) => add_sink(self.rt.alloc(), entry.file_name(), &mut names)?,
                Err(error) if error.kind() == ErrorKind::InvalidFilename => {}
                Err(error) => return Err(FolderFault::of(FOLDER, FileCall::Read, &error)),
            }
        }
        Ok(names)
    }
}

// Adds the name of a file, if a sink tells by it.
fn add_sink(alloc: Global, name: &str, names: &mut Vec<String>) -> Result<(), AllocError> {
    if is_sinks(name) {
        names.push(String::from_str(alloc, name)?)?;
    }
    Ok(())
}

/// Puts a text in the place of a file's: who reads it finds the old one whole, or the new one.
///
/// # Errors
///
/// There was no memory, or a call failed.
pub fn put_health<R: Files + AllocGlobal>(
    rt: &R,
    file: &str,
    text: &[u8],
) -> Result<(), FolderFault> {
    let beside = format!(in rt.alloc(); "{file}.next")?;
    match fs::write(rt, beside.as_str(), text) {
        Ok(()) => {}
        Err(error) => return Err(FolderFault::of(HEALTH, FileCall::Write, &error)),
    }
    match fs::rename(rt, beside.as_str(), file) {
        Ok(()) => Ok(()),
        Err(error) => Err(FolderFault::of(HEALTH, FileCall::Rename, &error)),
    }
}

// Makes a folder where it isn't there, and has its name reach the disk.
fn made<R: Files<File = File>>(rt: &R, path: &str) -> io::Result<()> {
    match DirBuilder::new().mode(OWNERS_FOLDER).create(rt, path) {
        Ok(()) => {}
        Err(error) if error.kind() == ErrorKind::AlreadyExists => {}
        Err(error) => return Err(error),
    }
    match Path::new(path).parent() {
        Some(parent) if !parent.as_str().is_empty() => names_synced(rt, parent.as_str()),
        _ => names_synced(rt, "."),
    }
}

// A file with its lock, which is made where it isn't there.
fn locked<R: Files<File = File>>(rt: &R, path: &str) -> Result<File, FolderFault> {
    let opened = OpenOptions::new()
        .read(true)
        .write(true)
        .create(true)
        .mode(OWNER_ALONE)
        .open(rt, path);
    let lock = match opened {
        Ok(lock) => lock,
        Err(error) => return Err(FolderFault::of(LOCK, FileCall::Open, &error)),
    };
    match lock.try_lock() {
        Ok(()) => Ok(lock),
        Err(TryLockError::WouldBlock) => Err(FolderFault::Held),
        Err(TryLockError::Error(error)) => Err(FolderFault::of(LOCK, FileCall::Open, &error)),
    }
}

// The first bytes of a file.
fn first_bytes<R: Files<File = File> + AllocGlobal>(rt: &R, path: &str) -> io::Result<Vec<u8>> {
    let mut bytes = Vec::new(rt.alloc());
    File::open(rt, path)?
        .take(MOST_TOLD)
        .read_to_end(&mut bytes)?;
    Ok(bytes)
}
