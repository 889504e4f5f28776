//! Programs of which a byte was changed, or the end cut off.

use crate::running::program_ran;
use crate::sides::Sides;
use std::alloc::Global;
use std::process::Abort;
use std::test::Fail;
use wsm::{DecodeRefusal, End, compile_text};
use wsm_bytecode::{decode, encode};
use wsm_engine::Engine;
use wsm_given::{
    BASE, BASE_PROGRAM, BASE_ROWS, BASE_TEXT, SESSION_ROWS, SESSION_TEXT, SESSIONS, STREAM,
    STREAM_ROWS, STREAM_TEXT, is_whole,
};
use wsm_verifier::{Verified, verify};

/// How bytes were taken.
#[derive(Clone, Copy, Debug, PartialEq, Eq)]
enum Taken {
    /// They are no program.
    Refused,
    /// They are a program that the verifier rejects.
    Rejected,
    /// They are a program that was accepted, and ran the rows to their end.
    Ran,
    /// Something else happened, which is never right.
    Wrong,
}

/// How many of a number of trials were taken in each way.
#[derive(Clone, Copy, Debug)]
struct Counts {
    refused: u32,
    rejected: u32,
    ran: u32,
    wrong: u32,
    /// Runs of a section by both machines, of the programs that ran.
    runs: u32,
}

impl Counts {
    const NONE: Counts = Counts {
        refused: 0,
        rejected: 0,
        ran: 0,
        wrong: 0,
        runs: 0,
    };

    fn add(&mut self, taken: Taken) {
        let count = match taken {
            Taken::Refused => &mut self.refused,
            Taken::Rejected => &mut self.rejected,
            Taken::Ran => &mut self.ran,
            Taken::Wrong => &mut self.wrong,
        };
        *count = count.saturating_add(1);
    }

    fn trials(&self) -> u32 {
        let right = self
            .refused
            .saturating_add(self.rejected)
            .saturating_add(self.ran);
        right.saturating_add(self.wrong)
    }

    // Tries bytes as a program, and where it runs both machines.
    fn try_bytes(&mut self, alloc: Global, bytes: &[u8], rows: &[u8]) {
        let taken = tried(alloc, bytes, rows);
        if taken != Taken::Ran {
            self.add(taken);
            return;
        }
        match run_by_both(alloc, bytes, rows) {
            Some(runs) => {
                self.add(Taken::Ran);
                self.runs = self.runs.saturating_add(runs);
            }
            None => self.add(Taken::Wrong),
        }
    }
}

// Whether bytes are refused, or else spell a program that is written as those bytes again.
fn read_again(alloc: Global, bytes: &[u8]) -> Taken {
    match decode(alloc, bytes) {
        Ok(program) => match encode(alloc, &program) {
            Ok(again) if again.as_slice() == bytes => Taken::Ran,
            _ => Taken::Wrong,
        },
        Err(DecodeRefusal::Memory) => Taken::Wrong,
        Err(_) => Taken::Refused,
    }
}

// How a run of a program over rows went.
fn run_again(alloc: Global, bytes: &[u8], rows: &[u8]) -> Taken {
    let (text, end) = program_ran(alloc, bytes, rows);
    match end {
        Ok(_) if is_whole(&text) => Taken::Ran,
        Err(End::Rejected(_)) if text.is_empty() => Taken::Rejected,
        _ => Taken::Wrong,
    }
}

fn tried(alloc: Global, bytes: &[u8], rows: &[u8]) -> Taken {
    match read_again(alloc, bytes) {
        Taken::Ran => run_again(alloc, bytes, rows),
        other => other,
    }
}

fn verified(alloc: Global, bytes: &[u8]) -> Option<Verified> {
    let program = decode(alloc, bytes).ok()?;
    verify(alloc, program).ok()
}

fn opened(alloc: Global, bytes: &[u8]) -> Option<Engine> {
    Engine::open(alloc, verified(alloc, bytes)?).ok()
}

// How many runs of an accepted program's sections both machines answer, on records of the rows; none
// where they don't answer alike, or the engine counts otherwise.
fn run_by_both(alloc: Global, bytes: &[u8], rows: &[u8]) -> Option<u32> {
    let verified = verified(alloc, bytes)?;
    run_beside(alloc, &verified, bytes, rows)
}

// The same of the program that the bytes are.
fn run_beside(alloc: Global, verified: &Verified, bytes: &[u8], rows: &[u8]) -> Option<u32> {
    let mut engine = opened(alloc, bytes)?;
    runs_of(alloc, verified, &mut engine, rows)
}

// The same with an engine of it.
fn runs_of(alloc: Global, verified: &Verified, engine: &mut Engine, rows: &[u8]) -> Option<u32> {
    let mut sides = Sides::open(alloc, verified);
    if sides.answer(engine, rows) {
        Some(sides.runs)
    } else {
        None
    }
}

// Each other value of the byte at a place.
fn change_byte(alloc: Global, bytes: &mut [u8], place: usize, rows: &[u8], counts: &mut Counts) {
    let Some(old) = bytes.get(place).copied() else {
        return;
    };
    for byte in 0..=u8::MAX {
        if byte != old {
            put(bytes, place, byte);
            counts.try_bytes(alloc, bytes, rows);
        }
    }
    put(bytes, place, old);
}

fn put(bytes: &mut [u8], place: usize, byte: u8) {
    if let Some(there) = bytes.get_mut(place) {
        *there = byte;
    }
}

// Each other value of each byte.
fn change_bytes(alloc: Global, bytes: &[u8], rows: &[u8]) -> Result<Counts, Fail> {
    let mut changed = bytes.to_vec(alloc)?;
    let mut counts = Counts::NONE;
    for place in 0..bytes.len() {
        change_byte(alloc, &mut changed, place, rows, &mut counts);
    }
    Ok(counts)
}

// How many of the proper beginnings are refused as cut off.
fn cut_off(alloc: Global, bytes: &[u8]) -> usize {
    let mut refused = 0usize;
    for len in 0..bytes.len() {
        if is_truncated(alloc, &bytes[..len]) {
            refused = refused.saturating_add(1);
        }
    }
    refused
}

fn is_truncated(alloc: Global, bytes: &[u8]) -> bool {
    matches!(decode(alloc, bytes), Err(DecodeRefusal::Truncated))
}

#[test]
fn beginnings_of_the_base_program(rt: HostRuntime) -> Result<(), Fail> {
    let compiled = compile_text(rt.alloc(), BASE)?;
    assert_eq!(rt; compiled.as_slice(), BASE_PROGRAM);
    assert_eq!(rt; cut_off(rt.alloc(), BASE_PROGRAM), 141);
    Ok(())
}

#[test]
fn beginnings_of_other_programs(rt: HostRuntime) -> Result<(), Fail> {
    let sessions = compile_text(rt.alloc(), SESSIONS)?;
    assert_eq!(rt; cut_off(rt.alloc(), &sessions), sessions.len());
    let stream = compile_text(rt.alloc(), STREAM)?;
    assert_eq!(rt; cut_off(rt.alloc(), &stream), stream.len());
    Ok(())
}

// Undamaged, the program writes so much for the rows.
fn writes<R: Abort + AllocGlobal>(rt: &R, program: &[u8], rows: &[u8], want: &[u8]) {
    let (text, end) = program_ran(rt.alloc(), program, rows);
    assert_eq!(rt; text.as_slice(), want, "{end:?}");
}

// Each change was tried, none was taken wrongly, each way is met, and of the programs that ran both
// machines ran a section or more.
fn are_right<R: Abort>(rt: &R, counts: &Counts, changes: u32) {
    assert_eq!(rt; counts.wrong, 0);
    assert_eq!(rt; counts.trials(), changes);
    assert!(rt;
        counts.refused > 0 && counts.rejected > 0 && counts.ran > 0,
        "{counts:?}"
    );
    assert!(rt; counts.runs >= counts.ran, "{counts:?}");
}

#[test]
fn changes_of_the_base_program(rt: HostRuntime) -> Result<(), Fail> {
    writes(&rt, BASE_PROGRAM, BASE_ROWS, BASE_TEXT);
    // Two records are kept, each with a run of each section.
    let runs = run_by_both(rt.alloc(), BASE_PROGRAM, BASE_ROWS);
    assert_eq!(rt; runs, Some(6));
    let counts = change_bytes(rt.alloc(), BASE_PROGRAM, BASE_ROWS)?;
    are_right(&rt, &counts, 141 * 255);
    Ok(())
}

#[test]
fn changes_of_a_program_of_sessions(rt: HostRuntime) -> Result<(), Fail> {
    let program = compile_text(rt.alloc(), SESSIONS)?;
    writes(&rt, &program, SESSION_ROWS, SESSION_TEXT);
    // Of seven records with values in their intervals six are kept.
    let runs = run_by_both(rt.alloc(), &program, SESSION_ROWS);
    assert_eq!(rt; runs, Some(19));
    let counts = change_bytes(rt.alloc(), &program, SESSION_ROWS)?;
    are_right(&rt, &counts, 253 * 255);
    Ok(())
}

#[test]
fn changes_of_a_program_of_a_stream(rt: HostRuntime) -> Result<(), Fail> {
    let program = compile_text(rt.alloc(), STREAM)?;
    writes(&rt, &program, STREAM_ROWS, STREAM_TEXT);
    // Five records are kept.
    let runs = run_by_both(rt.alloc(), &program, STREAM_ROWS);
    assert_eq!(rt; runs, Some(15));
    let counts = change_bytes(rt.alloc(), &program, STREAM_ROWS)?;
    are_right(&rt, &counts, 162 * 255);
    Ok(())
}
