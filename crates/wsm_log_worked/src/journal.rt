//! Journals whose sums are those of zlib, in a folder that is in memory.

ghost use Rattle.std.specs.Prelude.{◌≡◌, None, false};

use std::alloc::Global;
use std::test::Fail;
use wsm_journal::{Behind, FolderError, JournalFile, JournalFolder, read_journal};

const TEXT: &[u8] = b"w,60\nr,acme,70,5\nat,812,17,1,168801797,8:40\nat,813,0,0,2447198702,8:41\n";

// A folder of which nothing is known.
#[derive(Drop)]
struct Kept {
    journal: Vec<u8>,
    next: Vec<u8>,
}

impl JournalFolder for Kept {
    ghost use Rattle.std.specs.Prelude.{◌≡◌, None, false};

    ghost folder = { λ _. None };

    ghost moment = { λ _. 0 };

    ghost left_since = { λ _ _ _. ⊥ };

    ghost has_failed = { λ _. false };

    ghost counts_now = { λ f t left le may. may };

    ghost only_now = { λ f left since. since };

    fn read(&mut self, alloc: Global) -> Result<Vec<u8>, FolderError> {
        Ok(self.journal.to_vec(alloc)?)
    }

    fn append(&mut self, bytes: &[u8]) -> Result<(), FolderError> {
        Ok(self.journal.extend_from_slice(bytes)?)
    }

    fn sync(&mut self) -> Result<(), FolderError> {
        Ok(())
    }

    fn create_next(&mut self) -> Result<(), FolderError> {
        self.next.clear();
        Ok(())
    }

    fn write_next(&mut self, bytes: &[u8]) -> Result<(), FolderError> {
        Ok(self.next.extend_from_slice(bytes)?)
    }

    fn sync_next(&mut self) -> Result<(), FolderError> {
        Ok(())
    }

    fn rename(&mut self) -> Result<(), FolderError> {
        self.journal.clear();
        Ok(self.journal.extend_from_slice(&self.next)?)
    }

    fn sync_folder(&mut self) -> Result<(), FolderError> {
        Ok(())
    }
}

// What stands there without a record's last line is no record of it.
#[test]
fn goes_on_behind_whole_records(rt: HostRuntime) -> Result<(), Fail> {
    let alloc = rt.alloc();
    let mut torn = TEXT[..44].to_vec(alloc)?;
    torn.extend_from_slice(b"unread\n")?;
    let folder = Kept {
        journal: torn,
        next: Vec::new(alloc),
    };
    let Ok((mut file, bytes)) = JournalFile::open(alloc, folder) else {
        return Err(Fail::from("not opened"));
    };
    assert_eq!(rt; bytes.len(), 51);
    assert!(rt; file.append(0, b"", b"8:41").is_ok());
    let folder = file.into_folder();
    assert_eq!(rt; folder.journal.as_slice(), TEXT);
    Ok(())
}

#[test]
fn reads_records(rt: HostRuntime) -> Result<(), Fail> {
    let journal = read_journal(rt.alloc(), TEXT)?;
    assert_eq!(rt; journal.records.len(), 2);
    assert_eq!(rt; journal.size, 71);
    assert_eq!(rt; journal.behind, Behind::Nothing);
    Ok(())
}

// Other records take the place of those.
#[test]
fn replaces_records(rt: HostRuntime) -> Result<(), Fail> {
    let alloc = rt.alloc();
    let folder = Kept {
        journal: TEXT.to_vec(alloc)?,
        next: Vec::new(alloc),
    };
    let Ok((mut file, bytes)) = JournalFile::open(alloc, folder) else {
        return Err(Fail::from("not opened"));
    };
    let journal = read_journal(alloc, &bytes)?;
    assert!(rt; file.append(1, b"unread\n", b"").is_ok());
    assert!(rt; file.replace(alloc, &journal.records).is_ok());
    let folder = file.into_folder();
    assert_eq!(rt; folder.journal.as_slice(), TEXT);
    Ok(())
}
