//! Rows out of a reader.

use std::io;
use std::io::Read;
use std::test::Fail;
use wsm_csv::{ReadEnd, Rows};

// Gives a text one byte a call, and fails at a call, if it is to.
#[derive(Drop)]
struct OneByte<'a> {
    text: &'a [u8],
    calls: usize,
    fails_at: Option<usize>,
}

impl Read for OneByte<'_> {
    fn read(&mut self, buf: &mut [u8]) -> io::Result<usize> {
        let call = self.calls;
        self.calls = call.saturating_add(1);
        if Some(call) == self.fails_at {
            return Err(io::Error::from(io::ErrorKind::Other));
        }
        let Some((first, rest)) = self.text.split_first() else {
            return Ok(0);
        };
        if buf.is_empty() {
            return Ok(0);
        }
        buf[0] = *first;
        self.text = rest;
        Ok(1)
    }
}

// How many rows there are, and how many cells they have in all.
fn count<R: Read + Drop>(rows: &mut Rows<R>) -> Result<(usize, usize), ReadEnd> {
    let mut found = 0usize;
    let mut cells = 0usize;
    'rows: while rows.advance()? {
        found = found.saturating_add(1);
        cells = cells.saturating_add(rows.row().len());
    }
    Ok((found, cells))
}

const TEXT: &[u8] = b"r,a,5,7\nw,60\r\n\n\"r\",b,6";

#[test]
fn a_row_has_its_cells_as_they_stand(rt: HostRuntime) -> Result<(), Fail> {
    let mut rows = Rows::new(rt.alloc(), b" r,\"a,b\", 5\n".as_slice());
    assert_eq!(rt; rows.advance(), Ok(true));
    for (i, want) in [b" r".as_slice(), b"a,b", b" 5"].iter().enumerate() {
        assert_eq!(rt; rows.row().get(i).ok_or("no cell")?, *want, "cell {i}");
    }
    assert_eq!(rt; rows.advance(), Ok(false));
    Ok(())
}

#[test]
fn a_failed_read_ends_the_rows(rt: HostRuntime) {
    for call in 0..24 {
        let failing = OneByte {
            text: TEXT,
            calls: 0,
            fails_at: Some(call),
        };
        let mut rows = Rows::new(rt.alloc(), failing);
        assert_eq!(rt; count(&mut rows), Err(ReadEnd::Failed), "at {call}");
        assert!(rt; rows.error().is_some(), "at {call}");
        assert_eq!(rt; rows.advance(), Ok(false), "after {call}");
    }
}
