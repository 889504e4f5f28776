//! Rows that are no event, or one that is refused.

use crate::running::ran;
use std::alloc::Global;
use std::process::Abort;
use std::test::Fail;
use wsm_csv::{RowRefusal, Rows, read_row};
use wsm_given::BASE;
use wsm_record::{Name, RowFault, Schema};

/// A field of each type.
const TYPES: &[u8] = b"KEYS a, b; FIELD n INT 0..100; FIELD on BOOL; FIELD color ENUM(red, blue);
START 0; SKEW 100; LATENESS 10; RECORDS 1000;
SELECT COUNT(*) WINDOW FIXED 60 ACCUMULATING EMIT PANES;";

// Rows, and what a query writes for them.
type Case = (&'static [u8], &'static [u8]);

fn all_write<R: Abort + AllocGlobal>(rt: &R, query: &[u8], cases: &[Case]) {
    for (rows, want) in cases {
        let (text, end) = ran(rt.alloc(), query, *rows);
        assert_eq!(rt; text.as_slice(), *want, "{end:?} of {rows:?}");
        assert!(rt; end.is_ok(), "{rows:?}");
    }
}

const NO_TEXT: [Case; 8] = [
    (
        b"\xff,a,5,7,true,red\n",
        b"refused,1,BadTag\nend,1,0,0,1,0\n",
    ),
    (
        b"r\x80,a,5,7,true,red\n",
        b"refused,1,BadTag\nend,1,0,0,1,0\n",
    ),
    (
        b"r,\xc3,5,7,true,red\n",
        b"refused,1,UnknownKey\nend,1,0,0,1,0\n",
    ),
    (
        b"r,a,\xff,7,true,red\n",
        b"refused,1,BadNumber\nend,1,0,0,1,0\n",
    ),
    (
        b"r,a,5,7\xe2\x82,true,red\n",
        b"refused,1,BadNumber\nend,1,0,0,1,0\n",
    ),
    (
        b"r,a,5,7,tru\xe9,red\n",
        b"refused,1,BadName\nend,1,0,0,1,0\n",
    ),
    (b"r,a,5,7,true,\0\n", b"refused,1,BadName\nend,1,0,0,1,0\n"),
    (b"w,\xf0\x9f\x98\n", b"refused,1,BadNumber\nend,1,0,0,1,0\n"),
];

#[test]
fn cells_that_are_no_text(rt: HostRuntime) {
    all_write(&rt, TYPES, &NO_TEXT);
}

const EMPTY: [Case; 8] = [
    (b",a,5,7,true,red\n", b"refused,1,BadTag\nend,1,0,0,1,0\n"),
    (
        b"r,,5,7,true,red\n",
        b"refused,1,UnknownKey\nend,1,0,0,1,0\n",
    ),
    (
        b"r,a,,7,true,red\n",
        b"refused,1,BadNumber\nend,1,0,0,1,0\n",
    ),
    (
        b"r,a,5,,true,red\n",
        b"refused,1,BadNumber\nend,1,0,0,1,0\n",
    ),
    (b"r,a,5,7,,red\n", b"refused,1,BadName\nend,1,0,0,1,0\n"),
    (b"r,a,5,7,true,\n", b"refused,1,BadName\nend,1,0,0,1,0\n"),
    (b"w,\n", b"refused,1,BadNumber\nend,1,0,0,1,0\n"),
    (b",,,,,\n", b"refused,1,BadTag\nend,1,0,0,1,0\n"),
];

#[test]
fn empty_cells(rt: HostRuntime) {
    all_write(&rt, TYPES, &EMPTY);
}

const OPEN: [Case; 5] = [
    (b"\"r,a,5,7\nw,60\n", b"refused,1,BadTag\nend,1,0,0,1,0\n"),
    (
        b"w,5\nr,\"a,5,7\nw,60\n",
        b"refused,2,CellCount\nend,2,0,0,1,0\n",
    ),
    (
        b"r,a,5,\"7\nw,60\n",
        b"refused,1,BadNumber\nend,1,0,0,1,0\n",
    ),
    (
        b"r,a,5,7\nw,\"60",
        b"pane,on_time,a,0,60,1,7\nend,2,1,0,0,1\n",
    ),
    (b"w,60\n\"", b"refused,2,BadTag\nend,2,0,0,1,0\n"),
];

// A quote that is not closed takes all that follows into its cell.
#[test]
fn open_quotes(rt: HostRuntime) {
    all_write(&rt, BASE, &OPEN);
}

const FIRST: [Case; 9] = [
    (b"x,a,z,7,no\n", b"refused,1,BadTag\nend,1,0,0,1,0\n"),
    (
        b"r,z,z,7,no,red\nr,a,z\n",
        b"refused,1,BadNumber\nrefused,2,CellCount\nend,2,0,0,2,0\n",
    ),
    (b"r,a,5,z,no,red\n", b"refused,1,BadNumber\nend,1,0,0,1,0\n"),
    (b"r,a,5,7,no,z\n", b"refused,1,BadName\nend,1,0,0,1,0\n"),
    (
        b"r,z,-1,101,true,red\n",
        b"refused,1,UnknownKey\nend,1,0,0,1,0\n",
    ),
    (
        b"r,a,-1,101,true,red\n",
        b"refused,1,FieldRange\nend,1,0,0,1,0\n",
    ),
    (
        b"r,a,-1,100,true,red\n",
        b"refused,1,TimeRange\nend,1,0,0,1,0\n",
    ),
    (
        b"r,a,10000000000000001,1,true,red\n",
        b"refused,1,TimeRange\nend,1,0,0,1,0\n",
    ),
    (
        b"w,-1\nw,0\n",
        b"refused,1,TimeRange\nrefused,2,NotRising\nend,2,0,0,2,0\n",
    ),
];

// Where more than one refusal holds, the first in the order of the rules is told.
#[test]
fn the_first_refusal_is_told(rt: HostRuntime) {
    all_write(&rt, TYPES, &FIRST);
}

// A row of a first cell, and as many more as are missing, each of them 7; the second is a key in a
// record.
fn row_of(alloc: Global, tag: &[u8], cells: usize) -> Result<Vec<u8>, Fail> {
    let mut row = tag.to_vec(alloc)?;
    for cell in 1..cells {
        let more = if cell == 1 && tag == b"r".as_slice() {
            b",a"
        } else {
            b",7"
        };
        row.extend_from_slice(more)?;
    }
    row.push(b'\n')?;
    Ok(row)
}

fn expect_row<R: Abort + AllocGlobal>(
    rt: &R,
    tag: &[u8],
    cells: usize,
    want: &[u8],
) -> Result<(), Fail> {
    let row = row_of(rt.alloc(), tag, cells)?;
    let (text, _) = ran(rt.alloc(), BASE, row.as_slice());
    assert_eq!(rt; text.as_slice(), want, "{cells} cells");
    Ok(())
}

#[test]
fn rows_of_any_length(rt: HostRuntime) -> Result<(), Fail> {
    let admitted = b"end,1,1,0,0,0\n".as_slice();
    let accepted = b"end,1,0,0,0,0\n".as_slice();
    let short_or_long = b"refused,1,CellCount\nend,1,0,0,1,0\n".as_slice();
    let untagged = b"refused,1,BadTag\nend,1,0,0,1,0\n".as_slice();
    for cells in 1..=40 {
        let record = if cells == 4 { admitted } else { short_or_long };
        let watermark = if cells == 2 { accepted } else { short_or_long };
        expect_row(&rt, b"r", cells, record)?;
        expect_row(&rt, b"w", cells, watermark)?;
        expect_row(&rt, b"x", cells, untagged)?;
        // A row of one empty cell would be an empty line, which is no record.
        if cells > 1 {
            expect_row(&rt, b"", cells, untagged)?;
        }
    }
    Ok(())
}

// `csv` gives no record without cells, but whoever reads rows by other means may have one.
fn refusal_of_no_cells(alloc: Global, schema: &Schema) -> Option<RowRefusal> {
    let rows = Rows::new(alloc, b"".as_slice());
    read_row(alloc, schema, rows.row()).err()
}

#[test]
fn a_row_without_cells(rt: HostRuntime) -> Result<(), Fail> {
    let keys = [Name::new(b"a").ok_or("a name")?];
    let schema = Schema::new(rt.alloc(), &keys, &[], &[])?;
    let refusal = refusal_of_no_cells(rt.alloc(), &schema);
    assert_eq!(rt; refusal, Some(RowRefusal::Fault(RowFault::BadTag)));
    Ok(())
}
