//! Logs in a folder of a file system, of which no clause speaks.

use std::alloc::Global;
use std::fs::{self, File};
use std::io::{self, Write};
use std::rt::Files;
use std::test::Fail;
use std::time::Duration;
use wsm_follow::{
    Folder, FolderFault, Follower, LogFolder, Loss, Lost, Name, Position, Turn, beginning,
};

// The lines of all turns up to one that gives none.
fn next_lines<F: Folder>(
    alloc: Global,
    follower: &mut Follower,
    folder: &mut F,
) -> Result<Vec<u8>, FolderFault> {
    let mut lines = Vec::new(alloc);
    for _ in 0..100 {
        match follower.turn(folder)? {
            Turn::Lines => lines.extend_from_slice(follower.lines())?,
            Turn::Next(_) | Turn::Elsewhere => {}
            _ => break,
        }
    }
    Ok(lines)
}

// Whether those are these.
fn gives<F: Folder>(
    alloc: Global,
    follower: &mut Follower,
    folder: &mut F,
    wanted: &[u8],
) -> Result<bool, FolderFault> {
    let lines = next_lines(alloc, follower, folder)?;
    Ok(lines.as_slice() == wanted)
}

fn append<R: Files<File = File>>(rt: &R, path: &str, text: &[u8]) -> io::Result<()> {
    let mut options = File::options();
    options.append(true).create(true);
    options.open(rt, path)?.write_all(text)
}

fn name_of(alloc: Global, text: &[u8]) -> Result<Name, FolderFault> {
    match Name::new(alloc, text)? {
        Some(name) => Ok(name),
        None => Err(FolderFault::Failed),
    }
}

// Follows the log from its beginning on.
fn begun<F: Folder>(alloc: Global, folder: &mut F) -> Result<Follower, FolderFault> {
    match beginning(folder, name_of(alloc, b"log")?)? {
        Some(position) => Ok(Follower::new(alloc, name_of(alloc, b"log")?, position, 100)?),
        None => Err(FolderFault::Failed),
    }
}

// Goes on from the text of a position, as after a restart.
fn begun_again(alloc: Global, follower: &Follower) -> Result<Follower, FolderFault> {
    let mut text = Vec::new(alloc);
    follower.position().write(&mut text)?;
    match Position::read(alloc, text.as_slice())? {
        Some(position) => Ok(Follower::new(alloc, name_of(alloc, b"log")?, position, 100)?),
        None => Err(FolderFault::Failed),
    }
}

#[test]
fn over_rotations(rt: HostRuntime) -> Result<(), Fail> {
    let _ = fs::remove_dir_all(&rt, "renamed");
    fs::create_dir_all(&rt, "renamed")?;
    append(&rt, "renamed/log", b"1\n2\n3")?;
    let mut folder = LogFolder::new(&rt, "renamed", "log", Duration::ZERO)?;
    let mut follower = begun(rt.alloc(), &mut folder)?;
    assert!(rt; gives(rt.alloc(), &mut follower, &mut folder, b"1\n2\n")?);
    append(&rt, "renamed/log", b"\n4\n")?;
    fs::rename(&rt, "renamed/log", "renamed/log.1")?;
    append(&rt, "renamed/log", b"5\n")?;
    append(&rt, "renamed/log.1", b"late\n")?;
    assert!(rt; gives(rt.alloc(), &mut follower, &mut folder, b"3\n4\nlate\n5\n")?);
    append(&rt, "renamed/log", b"6\n")?;
    fs::rename(&rt, "renamed/log.1", "renamed/log.2")?;
    fs::rename(&rt, "renamed/log", "renamed/log.1")?;
    append(&rt, "renamed/log", b"7\n")?;
    let mut folder = LogFolder::new(&rt, "renamed", "log", Duration::ZERO)?;
    let mut follower = begun_again(rt.alloc(), &follower)?;
    assert!(rt; gives(rt.alloc(), &mut follower, &mut folder, b"6\n7\n")?);
    Ok(fs::remove_dir_all(&rt, "renamed")?)
}

#[test]
fn over_a_copy(rt: HostRuntime) -> Result<(), Fail> {
    let _ = fs::remove_dir_all(&rt, "copied");
    fs::create_dir_all(&rt, "copied")?;
    append(&rt, "copied/log", b"1\n2\n")?;
    let mut folder = LogFolder::new(&rt, "copied", "log", Duration::ZERO)?;
    let mut follower = begun(rt.alloc(), &mut folder)?;
    assert!(rt; gives(rt.alloc(), &mut follower, &mut folder, b"1\n2\n")?);
    append(&rt, "copied/log", b"3\n")?;
    fs::copy(&rt, "copied/log", "copied/log.1")?;
    File::options()
        .write(true)
        .open(&rt, "copied/log")?
        .set_len(0)?;
    append(&rt, "copied/log", b"4\n5\n6\n")?;
    assert!(rt; gives(rt.alloc(), &mut follower, &mut folder, b"3\n4\n5\n6\n")?);
    Ok(fs::remove_dir_all(&rt, "copied")?)
}

#[test]
fn told(rt: HostRuntime) -> Result<(), Fail> {
    let _ = fs::remove_dir_all(&rt, "told");
    fs::create_dir_all(&rt, "told")?;
    append(&rt, "told/log", b"1\n2\n")?;
    let mut folder = LogFolder::new(&rt, "told", "log", Duration::ZERO)?;
    let mut follower = begun(rt.alloc(), &mut folder)?;
    assert!(rt; gives(rt.alloc(), &mut follower, &mut folder, b"1\n2\n")?);
    File::options()
        .write(true)
        .open(&rt, "told/log")?
        .set_len(2)?;
    let lost = match follower.turn(&mut folder)? {
        Turn::Lost(lost) => Some(lost),
        _ => None,
    };
    assert_eq!(rt;
        lost,
        Some(Lost {
            loss: Loss::Shorter,
            read: 4,
            there: 2
        })
    );
    append(&rt, "told/log.1.gz", b"packed")?;
    let name = match follower.turn(&mut folder)? {
        Turn::Packed(name) => Some(name),
        _ => None,
    };
    assert!(rt; name.is_some_and(|n| n.as_slice() == b"log.1.gz".as_slice()));
    Ok(fs::remove_dir_all(&rt, "told")?)
}

// Of a line that is longer than a read its beginning is kept, and what the last read gave of it.
#[test]
fn a_long_line(rt: HostRuntime) -> Result<(), Fail> {
    let _ = fs::remove_dir_all(&rt, "long");
    fs::create_dir_all(&rt, "long")?;
    let line = vec![in rt.alloc(); b'x'; 200_000]?;
    append(&rt, "long/log", line.as_slice())?;
    append(&rt, "long/log", b"\n1\n")?;
    let mut folder = LogFolder::new(&rt, "long", "log", Duration::ZERO)?;
    let mut follower = begun(rt.alloc(), &mut folder)?;
    let lines = next_lines(rt.alloc(), &mut follower, &mut folder)?;
    assert_eq!(rt; lines.len(), 102 + 200_000 % 65_536 + 3);
    assert!(rt; lines.as_slice().ends_with(b"x\n1\n"));
    assert_eq!(rt; follower.position().offset, 200_003);
    Ok(fs::remove_dir_all(&rt, "long")?)
}
