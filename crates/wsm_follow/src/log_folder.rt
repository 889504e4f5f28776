//! The folder of a log in a file system, of which no clause says anything.

ghost use Rattle.std.specs.Prelude.{None};

use crate::file::{FileId, is_same};
use crate::folder::{Ended, Folder, FolderFault};
use crate::names::ending_of;
use crate::order::Listed;
use std::alloc::{AllocError, Global};
use std::fs::{self, DirEntry, File, Metadata};
use std::io::{self, ErrorKind};
use std::os::unix::fs::{FileExt, MetadataExt};
use std::rt::Files;
use std::time::{Clock, Duration, Instant};

const NANOS: u64 = 1_000_000_000;

// A file that is open, so that it can be read on when it has another name or none.
#[derive(Drop)]
struct Opened {
    id: FileId,
    file: File,
    // Whether its name in the folder is on the disk.
    is_named: bool,
    // How many bytes it had when it grew last, and since when.
    still: Option<(u64, Instant)>,
}

/// The folder of a log in a file system.
#[derive(Drop)]
pub struct LogFolder<'r, R> {
    rt: &'r R,
    path: String,
    log: String,
    // For how long nothing comes to a log that has ended.
    patience: Duration,
    // The file that is followed, and another one.
    own: Option<Opened>,
    other: Option<Opened>,
    synced: Option<(FileId, u64)>,
}

impl From<io::Error> for FolderFault {
    fn from(error: io::Error) -> FolderFault {
        if error.kind() == ErrorKind::OutOfMemory {
            FolderFault::Memory
        } else {
            FolderFault::Failed
        }
    }
}

fn id_of(metadata: &Metadata) -> FileId {
    FileId {
        device: metadata.dev(),
        inode: metadata.ino(),
    }
}

// When its bytes changed last, in nanoseconds since 1970.
fn changed_of(metadata: &Metadata) -> u64 {
    let seconds = u64::try_from(metadata.mtime()).unwrap_or(0);
    let nanos = u64::try_from(metadata.mtime_nsec()).unwrap_or(0);
    seconds.saturating_mul(NANOS).saturating_add(nanos)
}

// None where the outcome is an error of this kind.
fn unless<T: Drop>(kind: ErrorKind, outcome: io::Result<T>) -> Result<Option<T>, FolderFault> {
    match outcome {
        Ok(value) => Ok(Some(value)),
        Err(error) if error.kind() == kind => Ok(None),
        Err(error) => Err(FolderFault::from(error)),
    }
}

fn is_open(opened: &Option<Opened>, id: FileId) -> bool {
    match opened {
        Some(opened) => is_same(opened.id, id),
        None => false,
    }
}

// Which file has a path, if one has.
fn file_at<R: Files>(rt: &R, path: &str) -> Result<Option<FileId>, FolderFault> {
    match unless(ErrorKind::NotFound, fs::symlink_metadata(rt, path))? {
        Some(metadata) => Ok(Some(id_of(&metadata))),
        None => Ok(None),
    }
}

// Opens the file of a path, if it is there, and this one.
fn opened_at<R: Files<File = File>>(
    rt: &R,
    path: &str,
    id: FileId,
) -> Result<Option<Opened>, FolderFault> {
    match unless(ErrorKind::NotFound, File::open(rt, path))? {
        Some(file) => opened_as(file, id),
        None => Ok(None),
    }
}

// A file that is open, if it is this one.
fn opened_as(file: File, id: FileId) -> Result<Option<Opened>, FolderFault> {
    if !is_same(id_of(&file.metadata()?), id) {
        return Ok(None);
    }
    Ok(Some(Opened {
        id,
        file,
        is_named: false,
        still: None,
    }))
}

// The file of a log by a name and by what is known of it, if it is a plain one.
fn listed_by(
    alloc: Global,
    log: &[u8],
    name: &str,
    metadata: &Metadata,
) -> Result<Option<Listed>, AllocError> {
    if !metadata.is_file() {
        return Ok(None);
    }
    let (size, changed) = (metadata.len(), changed_of(metadata));
    Listed::new(alloc, log, name.as_bytes(), id_of(metadata), size, changed)
}

// The path of a name in a folder.
fn path_of(alloc: Global, folder: &str, name: &str) -> Result<String, AllocError> {
    let mut path = String::from_str(alloc, folder)?;
    path.push_str("/")?;
    path.push_str(name)?;
    Ok(path)
}

impl<'r, R: Files<File = File> + AllocGlobal + Clock + Clone + Drop> LogFolder<'r, R> {
    /// The folder of this path with the log of this name. A log has ended when it has another name and
    /// nothing came to it for as long as `patience`.
    ///
    /// # Errors
    ///
    /// Memory was refused.
    pub fn new(
        rt: &'r R,
        path: &str,
        log: &str,
        patience: Duration,
    ) -> Result<LogFolder<'r, R>, AllocError> {
        Ok(LogFolder {
            rt,
            path: String::from_str(rt.alloc(), path)?,
            log: path_of(rt.alloc(), path, log)?,
            patience,
            own: None,
            other: None,
            synced: None,
        })
    }

    // The file of a log by a name, if it is one and still there.
    fn listed(&self, log: &[u8], name: &str) -> Result<Option<Listed>, FolderFault> {
        if ending_of(log, name.as_bytes()).is_none() {
            return Ok(None);
        }
        let path = path_of(self.rt.alloc(), self.path.as_str(), name)?;
        match unless(
            ErrorKind::NotFound,
            fs::symlink_metadata(self.rt, path.as_str()),
        )? {
            Some(metadata) => Ok(listed_by(self.rt.alloc(), log, name, &metadata)?),
            None => Ok(None),
        }
    }

    // Adds the file of an entry of the folder to others, if it is one of the log.
    fn add_listed(
        &self,
        log: &[u8],
        entry: io::Result<DirEntry<R>>,
        files: &mut Vec<Listed>,
    ) -> Result<(), FolderFault> {
        let Some(entry) = unless(ErrorKind::InvalidFilename, entry)? else {
            return Ok(());
        };
        if let Some(listed) = self.listed(log, entry.file_name())? {
            files.push(listed)?;
        }
        Ok(())
    }

    // Opens the file of a name, if it is this one.
    fn opened(&self, name: &str, id: FileId) -> Result<Option<Opened>, FolderFault> {
        let path = path_of(self.rt.alloc(), self.path.as_str(), name)?;
        match file_at(self.rt, path.as_str())? {
            Some(file) if is_same(file, id) => opened_at(self.rt, path.as_str(), id),
            _ => Ok(None),
        }
    }

    // Opens the file of an entry of the folder, if it is this one.
    fn opened_of(
        &self,
        entry: io::Result<DirEntry<R>>,
        id: FileId,
    ) -> Result<Option<Opened>, FolderFault> {
        match unless(ErrorKind::InvalidFilename, entry)? {
            Some(entry) => self.opened(entry.file_name(), id),
            None => Ok(None),
        }
    }

    // Looks for a file in the folder, and opens it.
    fn found(&self, id: FileId) -> Result<Option<Opened>, FolderFault> {
        for entry in fs::read_dir(self.rt, self.path.as_str())? {
            if let Some(opened) = self.opened_of(entry, id)? {
                return Ok(Some(opened));
            }
        }
        Ok(None)
    }

    // Opens a file beside the one that is followed, unless it is open.
    fn open_other(&mut self, id: FileId) -> Result<(), FolderFault> {
        if !is_open(&self.own, id) && !is_open(&self.other, id) {
            self.other = self.found(id)?;
        }
        Ok(())
    }

    // Follows a file from now on.
    fn open_own(&mut self, id: FileId) -> Result<(), FolderFault> {
        if is_open(&self.own, id) {
            return Ok(());
        }
        self.own = if is_open(&self.other, id) {
            self.other.take()
        } else {
            self.found(id)?
        };
        Ok(())
    }
}

// Whether nothing has come to a file of so many bytes for a while.
fn is_still<R: Clock>(
    rt: &R,
    opened: &mut Opened,
    size: u64,
    patience: Duration,
) -> Result<bool, FolderFault> {
    let now = Instant::now(rt)?;
    match opened.still {
        Some((last, since)) if last == size => Ok(patience <= now.duration_since(since)),
        _ => {
            opened.still = Some((size, now));
            Ok(patience.is_zero())
        }
    }
}

// What a file that has another name than the log came to, if it has ended.
fn ended_of<R: Clock>(
    rt: &R,
    opened: &mut Opened,
    patience: Duration,
) -> Result<Option<Ended>, FolderFault> {
    let metadata = opened.file.metadata()?;
    let ended = Ended {
        size: metadata.len(),
        changed: changed_of(&metadata),
    };
    if is_still(rt, opened, ended.size, patience)? {
        Ok(Some(ended))
    } else {
        Ok(None)
    }
}

// Has the bytes of a file reach the disk, and its name in the folder.
fn sync_opened<R: Files<File = File>>(
    rt: &R,
    folder: &str,
    opened: &mut Opened,
) -> Result<(), FolderFault> {
    opened.file.sync_data()?;
    if !opened.is_named {
        sync_names(rt, folder)?;
        opened.is_named = true;
    }
    Ok(())
}

// Has the names of a folder reach the disk.
fn sync_names<R: Files<File = File>>(rt: &R, folder: &str) -> io::Result<()> {
    File::open(rt, folder)?.sync_all()
}

impl<R: Files<File = File> + AllocGlobal + Clock + Clone + Drop> Folder for LogFolder<'_, R> {
    ghost logs = { λ _. None };

    ghost synced = { λ s. s.synced };

    fn list(&mut self, log: &[u8]) -> Result<Vec<Listed>, FolderFault> {
        let mut files = Vec::new(self.rt.alloc());
        for entry in fs::read_dir(self.rt, self.path.as_str())? {
            self.add_listed(log, entry, &mut files)?;
        }
        Ok(files)
    }

    fn size(&mut self, file: FileId) -> Result<Option<u64>, FolderFault> {
        self.open_own(file)?;
        match &self.own {
            Some(opened) => Ok(Some(opened.file.metadata()?.len())),
            None => Ok(None),
        }
    }

    fn read_at(
        &mut self,
        file: FileId,
        offset: u64,
        room: &mut [u8],
    ) -> Result<usize, FolderFault> {
        self.open_other(file)?;
        let opened = if is_open(&self.own, file) {
            &self.own
        } else {
            &self.other
        };
        match opened {
            Some(opened) => Ok(opened.file.read_at(room, offset)?),
            None => Ok(0),
        }
    }

    fn ended(&mut self, file: FileId) -> Result<Option<Ended>, FolderFault> {
        match file_at(self.rt, self.log.as_str())? {
            Some(log) if !is_same(log, file) && is_open(&self.own, file) => {}
            _ => return Ok(None),
        }
        match &mut self.own {
            Some(opened) => ended_of(self.rt, opened, self.patience),
            None => Ok(None),
        }
    }

    fn sync(&mut self, file: FileId, bytes: u64) -> Result<(), FolderFault> {
        self.open_own(file)?;
        let Some(opened) = &mut self.own else {
            return Err(FolderFault::Failed);
        };
        sync_opened(self.rt, self.path.as_str(), opened)?;
        self.synced = Some((file, bytes));
        Ok(())
    }
}
