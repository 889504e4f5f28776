//! Runs whose device fails, and when a run writes.

use std::alloc::{AllocError, Global};
use std::cell::Cell;
use std::io;
use std::io::{Read, Write};
use std::test::Fail;
use wsm::{End, Guarded, run_query};

const QUERY: &[u8] = b"KEYS a, b; FIELD n INT 0..100;
START 0; SKEW 100; LATENESS 10; RECORDS 1000;
SELECT COUNT(*), SUM(n) WINDOW FIXED 60 ACCUMULATING EMIT PANES;";

/// Takes a number of bytes, one at a time, and then fails.
#[derive(Drop)]
pub struct TakesFew {
    pub taken: Vec<u8>,
    pub left: usize,
}

impl Write for TakesFew {
    fn write(&mut self, buf: &[u8]) -> io::Result<usize> {
        if self.left == 0 || buf.is_empty() {
            return Err(io::Error::from(io::ErrorKind::Other));
        }
        self.taken.push(buf[0])?;
        self.left -= 1;
        Ok(1)
    }

    fn flush(&mut self) -> io::Result<()> {
        Ok(())
    }
}

// Two records stand in 2,000 windows each, which fire at once.
const MANY_WINDOWS: &[u8] = b"KEYS a, b; START 0; SKEW 0; LATENESS 0; RECORDS 2; SELECT COUNT(*)
WINDOW SLIDING 2000 EVERY 1 ACCUMULATING EMIT PANES;";

// The lines of their panes.
fn panes(alloc: Global) -> Result<String, AllocError> {
    let mut lines = String::new(alloc);
    for (start, end) in (-1999..1).zip(1..2001) {
        write!(
            lines,
            "pane,on_time,a,{start},{end},1\npane,on_time,b,{start},{end},1\n"
        )?;
    }
    Ok(lines)
}

#[test]
fn a_device_fails_in_a_turn_of_many_lines(rt: HostRuntime) -> Result<(), Fail> {
    let taken = Vec::new(rt.alloc());
    let mut out = Guarded::new(TakesFew {
        taken,
        left: 70_000,
    });
    let rows = b"r,a,0\nr,b,0\nw,2000\n".as_slice();
    let end = run_query(rt.alloc(), MANY_WINDOWS, rows, &mut out);
    assert_eq!(rt; end, Err(End::WriteFailed));
    let panes = panes(rt.alloc())?;
    assert!(rt; panes.len() > 70_000);
    assert_eq!(rt;
        Some(out.into_writer().taken.as_slice()),
        panes.as_bytes().get(..70_000)
    );
    Ok(())
}

// More rows than a run could give up at unseen.
const ROWS: usize = 5_000;

// Gives a row that is no event a call, and notes how many lines were written at the last.
#[derive(Drop)]
struct GivesRows<'a> {
    given: usize,
    lines: &'a Cell<usize>,
    noted: &'a Cell<usize>,
}

impl Read for GivesRows<'_> {
    fn read(&mut self, buf: &mut [u8]) -> io::Result<usize> {
        if self.given >= ROWS || buf.len() < 2 {
            return Ok(0);
        }
        self.noted.set(self.lines.get());
        self.given += 1;
        buf[0] = b'x';
        buf[1] = b'\n';
        Ok(2)
    }
}

// Counts the lines that it takes.
#[derive(Drop)]
struct CountsLines<'a>(&'a Cell<usize>);

impl Write for CountsLines<'_> {
    fn write(&mut self, buf: &[u8]) -> io::Result<usize> {
        let lines = buf.iter().filter(|byte| **byte == b'\n').count();
        self.0.set(self.0.get().saturating_add(lines));
        Ok(buf.len())
    }

    fn flush(&mut self) -> io::Result<()> {
        Ok(())
    }
}

#[test]
fn a_turn_is_written_before_the_next_row_is_read(rt: HostRuntime) -> Result<(), Fail> {
    let lines = Cell::new(0);
    let noted = Cell::new(0);
    let rows = GivesRows {
        given: 0,
        lines: &lines,
        noted: &noted,
    };
    let mut out = Guarded::new(CountsLines(&lines));
    let totals = run_query(rt.alloc(), QUERY, rows, &mut out)?;
    assert_eq!(rt; totals.refused, 5_000);
    assert_eq!(rt; noted.get(), 4_999);
    assert_eq!(rt; lines.get(), 5_001);
    Ok(())
}
