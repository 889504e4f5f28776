//! Readers and devices that fail.

use crate::running::ran;
use std::alloc::Global;
use std::io;
use std::io::{Read, Write};
use std::process::Abort;
use std::test::Fail;
use wsm::{End, Guarded, Input, Rows, compile_text, run_input, run_query};
use wsm_given::{BASE, BASE_ROWS, BASE_TEXT, STREAM, STREAM_ROWS, STREAM_TEXT};

fn failure() -> io::Error {
    io::Error::from(io::ErrorKind::Other)
}

/// Gives a text, at most so many bytes a call, and fails where it is asked for more.
#[derive(Drop)]
struct FailsBehind<'a> {
    text: &'a [u8],
    most: usize,
}

impl Read for FailsBehind<'_> {
    fn read(&mut self, buf: &mut [u8]) -> io::Result<usize> {
        if self.text.is_empty() {
            return Err(failure());
        }
        let count = self.text.len().min(self.most).min(buf.len());
        let (first, rest) = self.text.split_at(count);
        buf[..count].copy_from_slice(first);
        self.text = rest;
        Ok(count)
    }
}

// What the stream writes for the rows that a beginning has whole, without its last line.
fn turns_of(alloc: Global, rows: &[u8]) -> Result<Vec<u8>, Fail> {
    let whole = match rows.iter().rposition(|byte| *byte == b'\n') {
        Some(last) => &rows[..=last],
        None => &rows[..0],
    };
    let (mut text, _) = ran(alloc, STREAM, whole);
    let end = text.iter().rposition(|byte| *byte == b'e').unwrap_or(0);
    text.truncate(end);
    Ok(text)
}

// What is written of the stream for a beginning of its rows, where the next read fails.
fn read_until(alloc: Global, len: usize, most: usize) -> (Vec<u8>, Option<End>) {
    let text = STREAM_ROWS.get(..len).unwrap_or(STREAM_ROWS);
    let (text, end) = ran(alloc, STREAM, FailsBehind { text, most });
    (text, end.err())
}

// The text is that of the turns of a beginning of the rows.
fn are_turns<R: Abort + AllocGlobal>(
    rt: &R,
    len: usize,
    most: usize,
    text: &[u8],
) -> Result<(), Fail> {
    assert!(rt; STREAM_TEXT.starts_with(text));
    let turns = turns_of(rt.alloc(), STREAM_ROWS.get(..len).unwrap_or(STREAM_ROWS))?;
    assert_eq!(rt; text, turns.as_slice(), "{len} bytes by {most}");
    Ok(())
}

#[test]
fn each_read_fails(rt: HostRuntime) -> Result<(), Fail> {
    for most in [1, 2, 3, 7, 64, 1_000] {
        for len in 0..=STREAM_ROWS.len() {
            let (text, end) = read_until(rt.alloc(), len, most);
            assert_eq!(rt; end, Some(End::ReadFailed), "{len} bytes by {most}");
            are_turns(&rt, len, most, &text)?;
        }
    }
    Ok(())
}

// What `csv` said stays with rows that the caller keeps.
#[test]
fn rows_tell_what_ended_them(rt: HostRuntime) -> Result<(), Fail> {
    let program = compile_text(rt.alloc(), BASE)?;
    let mut rows = Rows::new(rt.alloc(), BASE_ROWS);
    let mut out = Guarded::new(Vec::new(rt.alloc()));
    run_input(rt.alloc(), Input::Program(&program), &mut rows, &mut out)?;
    assert_eq!(rt; out.into_writer().as_slice(), BASE_TEXT);
    assert!(rt; rows.error().is_none());

    let reader = FailsBehind {
        text: STREAM_ROWS,
        most: 64,
    };
    let mut rows = Rows::new(rt.alloc(), reader);
    let mut out = Guarded::new(Vec::new(rt.alloc()));
    let end = run_input(rt.alloc(), Input::Text(STREAM), &mut rows, &mut out);
    assert_eq!(rt; end, Err(End::ReadFailed));
    assert!(rt; rows.error().is_some());
    Ok(())
}

/// Takes at most so many bytes a call, of so many calls and so many bytes in all. Then it fails once, or
/// takes nothing once, and would take all that is tried again.
#[derive(Drop)]
struct TakesFew {
    taken: Vec<u8>,
    most: usize,
    calls: usize,
    bytes: usize,
    takes_nothing: bool,
    fails_to_flush: bool,
    flushes: usize,
}

impl TakesFew {
    // Takes all.
    fn new(alloc: Global) -> TakesFew {
        TakesFew {
            taken: Vec::new(alloc),
            most: usize::MAX,
            calls: usize::MAX,
            bytes: usize::MAX,
            takes_nothing: false,
            fails_to_flush: false,
            flushes: 0,
        }
    }
}

impl Write for TakesFew {
    fn write(&mut self, buf: &[u8]) -> io::Result<usize> {
        if self.calls == 0 || self.bytes == 0 {
            self.calls = usize::MAX;
            self.bytes = usize::MAX;
            return if self.takes_nothing {
                Ok(0)
            } else {
                Err(failure())
            };
        }
        let count = buf.len().min(self.most).min(self.bytes);
        self.calls -= 1;
        self.bytes -= count;
        self.taken.extend_from_slice(&buf[..count])?;
        Ok(count)
    }

    fn flush(&mut self) -> io::Result<()> {
        self.flushes = self.flushes.saturating_add(1);
        if self.fails_to_flush {
            self.fails_to_flush = false;
            return Err(failure());
        }
        Ok(())
    }
}

// What a writer took of the stream, and how that ended early.
fn written(alloc: Global, writer: TakesFew) -> (Vec<u8>, Option<End>) {
    let mut out = Guarded::new(writer);
    let end = run_query(alloc, STREAM, STREAM_ROWS, &mut out);
    (out.into_writer().taken, end.err())
}

fn written_by_calls(
    alloc: Global,
    most: usize,
    calls: usize,
    takes_nothing: bool,
) -> (Vec<u8>, Option<End>) {
    let writer = TakesFew {
        most,
        calls,
        takes_nothing,
        ..TakesFew::new(alloc)
    };
    written(alloc, writer)
}

// So much was taken where a write failed.
fn is_beginning(rt: &impl Abort, text: &[u8], end: Option<End>, calls: usize, most: usize) {
    assert_eq!(rt; end, Some(End::WriteFailed), "{calls} calls of {most}");
    assert!(rt; STREAM_TEXT.starts_with(text), "{calls} calls of {most}");
    assert!(rt; calls <= text.len(), "{calls} calls of {most}");
}

// Each write of a number of bytes fails in turn, until all that is written was taken. Answers how
// many writes failed.
fn writes_fail<R: Abort + AllocGlobal>(rt: &R, most: usize, takes_nothing: bool) -> usize {
    for calls in 0..=STREAM_TEXT.len() {
        let (text, end) = written_by_calls(rt.alloc(), most, calls, takes_nothing);
        if end.is_none() {
            assert_eq!(rt; text.as_slice(), STREAM_TEXT, "{calls} calls of {most}");
            return calls;
        }
        is_beginning(rt, &text, end, calls, most);
    }
    STREAM_TEXT.len()
}

#[test]
fn each_write_fails(rt: HostRuntime) {
    // Four turns write something: 61, 81, 87 and 16 bytes.
    let cases = [(1, 245), (2, 124), (3, 83), (64, 6), (1_000, 4)];
    for (most, want) in cases {
        assert_eq!(rt; writes_fail(&rt, most, false), want, "by {most}");
        assert_eq!(rt; writes_fail(&rt, most, true), want, "by {most}");
    }
}

#[test]
fn a_number_of_bytes_is_taken(rt: HostRuntime) {
    for bytes in 0..STREAM_TEXT.len() {
        let writer = TakesFew {
            bytes,
            ..TakesFew::new(rt.alloc())
        };
        let (text, end) = written(rt.alloc(), writer);
        assert_eq!(rt; end, Some(End::WriteFailed), "{bytes} bytes");
        assert_eq!(rt; text.as_slice(), &STREAM_TEXT[..bytes], "{bytes} bytes");
    }
}

#[test]
fn the_last_flush_fails(rt: HostRuntime) {
    let writer = TakesFew {
        fails_to_flush: true,
        ..TakesFew::new(rt.alloc())
    };
    let (text, end) = written(rt.alloc(), writer);
    assert_eq!(rt; end, Some(End::WriteFailed));
    assert_eq!(rt; text.as_slice(), STREAM_TEXT);
}

// What is written leaves with the last line, and no flush is made for each turn.
#[test]
fn a_run_flushes_once(rt: HostRuntime) {
    let mut out = Guarded::new(TakesFew::new(rt.alloc()));
    let end = run_query(rt.alloc(), STREAM, STREAM_ROWS, &mut out);
    assert!(rt; end.is_ok());
    assert_eq!(rt; out.into_writer().flushes, 1);
}

#[test]
fn ten_bytes_are_taken(rt: HostRuntime) {
    let writer = TakesFew {
        bytes: 10,
        ..TakesFew::new(rt.alloc())
    };
    let mut out = Guarded::new(writer);
    let rows = b"r,a,5,7\nr,a,59,3\nw,60\n".as_slice();
    let end = run_query(rt.alloc(), BASE, rows, &mut out);
    assert_eq!(rt; end, Err(End::WriteFailed));
    assert_eq!(rt;
        out.into_writer().taken.as_slice(),
        b"pane,on_ti".as_slice()
    );
}
