//! Runs over a folder in memory of which a call fails: whatever was handed out before, a restart goes on as one run over all lines.

ghost use Rattle.std.specs.Prelude.{◌≡◌, None, true, false};

use std::alloc::{AllocError, Global};
use std::test::Fail;
use wsm_journal::{FolderError, JournalFolder};
use wsm_live::{HeadRow, LineTaker, Live, LiveError, LiveRun};

const NAME: &[u8] = b"0123456789abcdef";

const ALL: &[u8] = b"1,3300347044,1,a\n2,1898673321,2,b\n3,72064356,3,at,1\n4,2486224692,4,c\n";

// A folder of which nothing is known, and which serves so many calls.
#[derive(Drop)]
struct Kept {
    journal: Vec<u8>,
    next: Vec<u8>,
    calls: usize,
}

impl Kept {
    fn new(alloc: Global, calls: usize) -> Kept {
        Kept {
            journal: Vec::new(alloc),
            next: Vec::new(alloc),
            calls,
        }
    }

    fn call(&mut self) -> Result<(), FolderError> {
        match self.calls.checked_sub(1) {
            Some(calls) => {
                self.calls = calls;
                Ok(())
            }
            None => Err(FolderError::Failed),
        }
    }
}

impl JournalFolder for Kept {
    ghost use Rattle.std.specs.Prelude.{◌≡◌, None, true};

    ghost folder = { λ _. None };

    ghost moment = { λ _. 0 };

    ghost left_since = { λ _ _ _. ⊥ };

    ghost has_failed = { λ _. true };

    ghost counts_now = { λ f t left le may. may };

    ghost only_now = { λ f left since. since };

    fn read(&mut self, alloc: Global) -> Result<Vec<u8>, FolderError> {
        self.call()?;
        Ok(self.journal.to_vec(alloc)?)
    }

    // One that fails writes a half.
    fn append(&mut self, bytes: &[u8]) -> Result<(), FolderError> {
        let outcome = self.call();
        let end = if outcome.is_ok() {
            bytes.len()
        } else {
            bytes.len() / 2
        };
        self.journal.extend_from_slice(&bytes[..end])?;
        outcome
    }

    fn sync(&mut self) -> Result<(), FolderError> {
        self.call()
    }

    fn create_next(&mut self) -> Result<(), FolderError> {
        self.next.clear();
        self.call()
    }

    fn write_next(&mut self, bytes: &[u8]) -> Result<(), FolderError> {
        self.call()?;
        Ok(self.next.extend_from_slice(bytes)?)
    }

    fn sync_next(&mut self) -> Result<(), FolderError> {
        self.call()
    }

    fn rename(&mut self) -> Result<(), FolderError> {
        self.call()?;
        self.journal.clear();
        Ok(self.journal.extend_from_slice(&self.next)?)
    }

    fn sync_folder(&mut self) -> Result<(), FolderError> {
        self.call()
    }
}

// Writes each line with its number, up to nine.
#[derive(Drop)]
struct Counted {
    lines: u8,
    reads: bool,
    written: Vec<u8>,
}

impl LineTaker for Counted {
    ghost use Rattle.std.specs.Prelude.{ℕ, true};

    ghost By = { ℕ };

    ghost turn = { λ _ _ line. line };

    ghost stands = { λ _ _ _. ⊥ };

    ghost written = { λ c. c.written.items };

    ghost states = { λ _ _ _. ⊥ };

    ghost can_say = { λ _ _ _. true };

    fn take(&mut self, line: &[u8]) -> Result<(), AllocError> {
        self.lines = if self.lines < 9 { self.lines + 1 } else { 9 };
        self.written.clear();
        self.written.push(b'0' | self.lines)?;
        self.written.push(b',')?;
        self.written.extend_from_slice(line)?;
        Ok(self.written.push(b'\n')?)
    }

    fn written(&self) -> &[u8] {
        &self.written
    }

    fn save(&mut self, text: &mut Vec<u8>) -> Result<bool, AllocError> {
        text.push(self.lines)?;
        Ok(true)
    }

    fn resume(self, text: &[u8]) -> Result<Option<Self>, AllocError> {
        match text.first() {
            Some(lines) if self.reads => Ok(Some(Counted {
                lines: *lines,
                reads: true,
                written: self.written,
            })),
            _ => Ok(None),
        }
    }
}

// Opens a folder's journal for a run that reads cuts, or doesn't.
fn opened(
    alloc: Global,
    folder: Kept,
    sum: u32,
    reads: bool,
    out: &mut Vec<u8>,
) -> Result<Live<Kept, Counted>, (LiveError, Kept)> {
    let counted = Counted {
        lines: 0,
        reads,
        written: Vec::new(alloc),
    };
    let run = LiveRun::new(alloc, counted, 100);
    match HeadRow::new(alloc, NAME, sum) {
        Ok(Some(head)) => Live::open(alloc, folder, run, &head, b"0", out),
        _ => Err((LiveError::Memory, folder)),
    }
}

// Cuts a journal, where that is asked for; answers whether the run goes on.
fn cut(alloc: Global, live: &mut Live<Kept, Counted>, cuts: bool) -> bool {
    !cuts || live.cut(alloc) == Ok(true)
}

// Appends what is behind the run's position.
fn append_rest(
    alloc: Global,
    live: &mut Live<Kept, Counted>,
    cuts: bool,
    out: &mut Vec<u8>,
) -> Result<(), LiveError> {
    if live.position() == b"0".as_slice() {
        live.append(b"a\nb\n", b"1", out)?;
        if !cut(alloc, live, cuts) {
            return Ok(());
        }
    }
    if live.position() == b"1".as_slice() {
        live.append(b"at,1\n", b"2", out)?;
        if !cut(alloc, live, cuts) {
            return Ok(());
        }
    }
    if live.position() == b"2".as_slice() {
        live.append(b"c\nleft", b"3", out)?;
    }
    Ok(())
}

// Runs until a call fails.
fn run_on(alloc: Global, folder: Kept, cuts: bool, out: &mut Vec<u8>) -> Kept {
    match opened(alloc, folder, 7, true, out) {
        Ok(live) => {
            let mut live = live;
            let _ = append_rest(alloc, &mut live, cuts, out);
            live.into_folder()
        }
        Err((_, folder)) => folder,
    }
}

// The same folder, which serves calls again.
fn again(folder: Kept) -> Kept {
    Kept {
        journal: folder.journal,
        next: folder.next,
        calls: 100,
    }
}

// Whether a run that is killed at a call and begun again hands out all lines.
fn goes_on(alloc: Global, calls: usize) -> bool {
    let mut before = Vec::new(alloc);
    let folder = run_on(alloc, Kept::new(alloc, calls), false, &mut before);
    let mut behind = Vec::new(alloc);
    let _ = run_on(alloc, again(folder), false, &mut behind);
    ALL.starts_with(&before) && behind.as_slice() == ALL
}

// Whether a run that cuts, and is killed at a call and begun again, hands out the lines that are left, and none is missing.
fn goes_on_behind_cuts(alloc: Global, calls: usize) -> bool {
    let mut before = Vec::new(alloc);
    let folder = run_on(alloc, Kept::new(alloc, calls), true, &mut before);
    let mut behind = Vec::new(alloc);
    let _ = run_on(alloc, again(folder), true, &mut behind);
    ALL.starts_with(&before)
        && ALL.ends_with(&behind)
        && ALL.len() <= before.len().saturating_add(behind.len())
}

#[test]
fn goes_on_wherever_it_was_killed(rt: HostRuntime) -> Result<(), Fail> {
    for calls in 0..16 {
        assert!(rt; goes_on(rt.alloc(), calls));
    }
    Ok(())
}

#[test]
fn goes_on_wherever_it_was_killed_that_cuts(rt: HostRuntime) -> Result<(), Fail> {
    for calls in 0..32 {
        assert!(rt; goes_on_behind_cuts(rt.alloc(), calls));
    }
    Ok(())
}

#[test]
fn hands_out_what_is_behind_a_cut(rt: HostRuntime) -> Result<(), Fail> {
    let alloc = rt.alloc();
    let mut out = Vec::new(alloc);
    let folder = run_on(alloc, Kept::new(alloc, 100), true, &mut out);
    assert_eq!(rt; out.as_slice(), ALL);
    let mut behind = Vec::new(alloc);
    match opened(alloc, again(folder), 7, true, &mut behind) {
        Ok(live) => {
            assert_eq!(rt; live.run().count(), 4);
            assert_eq!(rt; live.name(), NAME);
        }
        Err(_) => return Err(Fail::from("not opened")),
    }
    assert!(rt; ALL.ends_with(&behind));
    assert!(rt; behind.starts_with(b"4,"));
    Ok(())
}

#[test]
fn is_refused_by_a_head_that_it_cannot_read(rt: HostRuntime) -> Result<(), Fail> {
    let alloc = rt.alloc();
    let mut out = Vec::new(alloc);
    let folder = run_on(alloc, Kept::new(alloc, 100), true, &mut out);
    match opened(alloc, again(folder), 7, false, &mut out) {
        Err((error, _)) => assert_eq!(rt; error, LiveError::Damaged),
        Ok(_) => return Err(Fail::from("opened")),
    }
    assert_eq!(rt; out.as_slice(), ALL);
    Ok(())
}

#[test]
fn is_refused_by_the_journal_of_another_run(rt: HostRuntime) -> Result<(), Fail> {
    let alloc = rt.alloc();
    let mut out = Vec::new(alloc);
    let folder = run_on(alloc, Kept::new(alloc, 100), false, &mut out);
    match opened(alloc, again(folder), 8, true, &mut out) {
        Err((error, _)) => assert_eq!(rt; error, LiveError::Other),
        Ok(_) => return Err(Fail::from("opened")),
    }
    assert_eq!(rt; out.as_slice(), ALL);
    Ok(())
}
