//! The files of a journal.

ghost use Rattle.std.specs.Prelude.{◌≡◌, true, None};
ghost use Rattle.wsm_journal.specs.declared.folder.FolderError.TheVariants.{Failed};
ghost use Rattle.wsm_journal.specs.Calls.{HasCause};

use crate::fault::{FileCall, FileFault};
use std::alloc::{AllocError, Global};
use std::fs::{self, File, OpenOptions};
use std::io::{self, ErrorKind, Write};
use std::os::unix::fs::OpenOptionsExt;
use std::rt::Files;
use wsm_journal::{FolderError, JournalFolder};

// Who may read and write the journal.
const OWNER_ALONE: u32 = 0o600;

// What the journal and the folder are called where a call failed.
const JOURNAL: &str = "DIR/journal";

const FOLDER: &str = "DIR";

/// A journal's files in a folder of the file system: `journal`, and `journal.next`, which takes its name. What one who was killed has
/// left as `journal.next` is never read, and written over at the next start.
#[derive(Drop)]
pub struct JournalFiles<'r, R> {
    rt: &'r R,
    folder: String,
    journal: String,
    next: String,
    // The journal, at its end, and the file that is to take its name.
    own: Option<File>,
    beside: Option<File>,
    // Why a call has failed.
    fault: Option<FileFault>,
    has_failed: bool,
}

impl<'r, R: AllocGlobal> JournalFiles<'r, R> {
    /// The journal of a folder.
    ///
    /// # Errors
    ///
    /// Memory was refused.
    pub fn new(rt: &'r R, folder: &str) -> Result<JournalFiles<'r, R>, AllocError> {
        Ok(JournalFiles {
            rt,
            folder: String::from_str(rt.alloc(), folder)?,
            journal: format!(in rt.alloc(); "{folder}/journal")?,
            next: format!(in rt.alloc(); "{folder}/journal.next")?,
            own: None,
            beside: None,
            fault: None,
            has_failed: false,
        })
    }
}

impl<R> JournalFiles<'_, R> {
    ghost use Rattle.std.specs.Prelude.{◌≡◌, true};
    ghost use Rattle.wsm_journal.specs.declared.folder.FolderError.TheVariants.{Failed};
    ghost use Rattle.wsm_journal.specs.Calls.{HasCause};

    /// Why a call has failed, if one has.
    pub fn fault(&self) -> Option<FileFault> {
        self.fault
    }

    // What a call came to. Why it failed is kept.
    fn came_to<T: Drop>(
        &mut self,
        file: &'static str,
        call: FileCall,
        outcome: io::Result<T>,
    ) -> Result<T, FolderError>
        ensures { HasCause self.new.has_failed result }
    {
        match outcome {
            Ok(value) => Ok(value),
            Err(error) => Err(self.failed(file, call, error.kind())),
        }
    }

    // That a call failed, but for want of memory.
    fn failed(&mut self, file: &'static str, call: FileCall, kind: ErrorKind) -> FolderError
        ensures { result ≡ Failed → self.new.has_failed ≡ true }
    {
        if kind == ErrorKind::OutOfMemory {
            return FolderError::Memory;
        }
        self.fault = Some(FileFault { file, call, kind });
        self.has_failed = true;
        FolderError::Failed
    }
}

impl<R: Files<File = File>> JournalFiles<'_, R> {
    ghost use Rattle.wsm_journal.specs.Calls.{HasCause};

    // What a call on the file came to that is to take the journal's name. One that failed gives its room on the disk back.
    fn came_beside(&mut self, call: FileCall, outcome: io::Result<()>) -> Result<(), FolderError>
        ensures { HasCause self.new.has_failed result }
    {
        if outcome.is_err() {
            self.beside = None;
            let _ = fs::remove_file(self.rt, self.next.as_str());
        }
        self.came_to(JOURNAL, call, outcome)
    }
}

// Writes all bytes to a file that is open.
fn written(file: &mut Option<File>, bytes: &[u8]) -> io::Result<()> {
    match file {
        Some(file) => file.write_all(bytes),
        None => Err(io::Error::from(ErrorKind::NotFound)),
    }
}

// Has a file that is open reach the disk.
fn synced(file: &Option<File>) -> io::Result<()> {
    match file {
        Some(file) => file.sync_data(),
        None => Err(io::Error::from(ErrorKind::NotFound)),
    }
}

// Has the names of a folder reach the disk.
pub fn names_synced<R: Files<File = File>>(rt: &R, folder: &str) -> io::Result<()> {
    File::open(rt, folder)?.sync_all()
}

impl<R: Files<File = File> + AllocGlobal> JournalFolder for JournalFiles<'_, R> {
    ghost use Rattle.std.specs.Prelude.{◌≡◌, None};

    ghost folder = { λ _. None };

    ghost moment = { λ _. 0 };

    ghost left_since = { λ _ _ _. ⊥ };

    ghost has_failed = { λ s. s.has_failed };

    ghost counts_now = { λ f t left le may. may };

    ghost only_now = { λ f left since. since };

    fn read(&mut self, alloc: Global) -> Result<Vec<u8>, FolderError> {
        match fs::read(self.rt, self.journal.as_str()) {
            Err(error) if error.kind() == ErrorKind::NotFound => Ok(Vec::new(alloc)),
            outcome => self.came_to(JOURNAL, FileCall::Read, outcome),
        }
    }

    fn append(&mut self, bytes: &[u8]) -> Result<(), FolderError> {
        let outcome = written(&mut self.own, bytes);
        self.came_to(JOURNAL, FileCall::Write, outcome)
    }

    fn sync(&mut self) -> Result<(), FolderError> {
        let outcome = synced(&self.own);
        self.came_to(JOURNAL, FileCall::Sync, outcome)
    }

    fn create_next(&mut self) -> Result<(), FolderError> {
        let outcome = OpenOptions::new()
            .write(true)
            .create(true)
            .truncate(true)
            .mode(OWNER_ALONE)
            .open(self.rt, self.next.as_str());
        let file = self.came_to(JOURNAL, FileCall::Open, outcome)?;
        self.beside = Some(file);
        Ok(())
    }

    fn write_next(&mut self, bytes: &[u8]) -> Result<(), FolderError> {
        let outcome = written(&mut self.beside, bytes);
        self.came_beside(FileCall::Write, outcome)
    }

    fn sync_next(&mut self) -> Result<(), FolderError> {
        let outcome = synced(&self.beside);
        self.came_beside(FileCall::Sync, outcome)
    }

    fn rename(&mut self) -> Result<(), FolderError> {
        let outcome = fs::rename(self.rt, self.next.as_str(), self.journal.as_str());
        self.came_to(JOURNAL, FileCall::Rename, outcome)?;
        self.own = self.beside.take();
        Ok(())
    }

    fn sync_folder(&mut self) -> Result<(), FolderError> {
        let outcome = names_synced(self.rt, self.folder.as_str());
        self.came_to(FOLDER, FileCall::Sync, outcome)
    }
}
