//! Folders of a file system, of which no clause speaks.

use std::fs::{self, File};
use std::rt::Files;
use std::test::Fail;
use wsm_journal::{JournalFile, read_journal};
use wsm_live_files::{JournalFiles, LiveFolder, Told};

// How many whole records the journal of a folder has.
fn records_in<R: Files + AllocGlobal>(rt: &R, path: &str) -> Result<usize, Fail> {
    let bytes = fs::read(rt, path)?;
    Ok(read_journal(rt.alloc(), &bytes)?.records.len())
}

// One holds the folder at a time, and what is added to its journal is there behind a restart.
#[test]
fn keeps_a_journal(rt: HostRuntime) -> Result<(), Fail> {
    let _ = fs::remove_dir_all(&rt, "kept");
    let Ok(folder) = LiveFolder::hold(&rt, "kept") else {
        return Err(Fail::from("not held"));
    };
    assert!(rt; LiveFolder::hold(&rt, "kept").is_err());
    assert!(rt; folder.journal_size().is_ok_and(|size| size == 0));
    for count in 0..3 {
        let Ok((mut journal, _)) = JournalFile::open(rt.alloc(), folder.journal()?) else {
            return Err(Fail::from("not opened"));
        };
        assert_eq!(rt; records_in(&rt, "kept/journal")?, count);
        assert!(rt; journal.append(1, b":a\n", b"here").is_ok());
    }
    Ok(fs::remove_dir_all(&rt, "kept")?)
}

// What one who was killed has left beside the journal is passed over, and gone behind a start.
#[test]
fn passes_over_what_is_left_beside(rt: HostRuntime) -> Result<(), Fail> {
    let _ = fs::remove_dir_all(&rt, "left");
    let Ok(folder) = LiveFolder::hold(&rt, "left") else {
        return Err(Fail::from("not held"));
    };
    fs::write(&rt, "left/journal.next", ":a\nat,0,3,1,")?;
    let Ok((_, bytes)) = JournalFile::open(rt.alloc(), folder.journal()?) else {
        return Err(Fail::from("not opened"));
    };
    assert!(rt; bytes.is_empty());
    assert!(rt; fs::metadata(&rt, "left/journal.next").is_err());
    assert!(rt; folder.journal_size().is_ok_and(|size| size == 0));
    Ok(fs::remove_dir_all(&rt, "left")?)
}

// Where the journal can't be made it is told why.
#[test]
fn tells_why(rt: HostRuntime) -> Result<(), Fail> {
    let _ = fs::remove_dir_all(&rt, "told");
    fs::create_dir_all(&rt, "told/journal.next")?;
    let files = JournalFiles::new(&rt, "told")?;
    let Err((_, files)) = JournalFile::open(rt.alloc(), files) else {
        return Err(Fail::from("opened"));
    };
    let Some(fault) = files.fault() else {
        return Err(Fail::from("no fault"));
    };
    let told = format!(in rt.alloc(); "{fault}")?;
    assert_eq!(rt;
        told.as_str(),
        "DIR/journal can't be opened: is a directory"
    );
    Ok(fs::remove_dir_all(&rt, "told")?)
}

// What the only sink of a folder told.
fn told_in<R: Files<File = File> + AllocGlobal + Clone + Drop>(
    folder: &LiveFolder<'_, R>,
) -> Result<Option<Told>, Fail> {
    let Ok(all) = folder.taken() else {
        return Err(Fail::from("not read"));
    };
    match all.as_slice() {
        [taken] => Ok(taken.told),
        _ => Err(Fail::from("not one")),
    }
}

// What sinks told, but for what they are to rename.
#[test]
fn reads_what_sinks_told(rt: HostRuntime) -> Result<(), Fail> {
    let _ = fs::remove_dir_all(&rt, "sinks");
    let Ok(folder) = LiveFolder::hold(&rt, "sinks") else {
        return Err(Fail::from("not held"));
    };
    fs::write(&rt, "sinks/taken.table", "00ff00ff00ff00ff,7,4294967295\n")?;
    fs::write(&rt, "sinks/taken.table.next", "00ff")?;
    assert_eq!(rt;
        told_in(&folder)?,
        Told::of(b"00ff00ff00ff00ff,7,4294967295\n")
    );
    fs::write(&rt, "sinks/taken.table", "00ff00ff00ff00ff,7")?;
    assert_eq!(rt; told_in(&folder)?, None);
    Ok(fs::remove_dir_all(&rt, "sinks")?)
}
