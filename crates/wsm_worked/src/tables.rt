//! The same rows through both tables of panes. Where each time is a multiple of 60, the session of a
//! record with a gap of 60 is its window of 60, and so is its window of 60 every 60: the list of
//! sessions and the ring of windows must come to the same lines.

use std::alloc::Global;
use std::process::Abort;
use std::test::Fail;
use wsm::{Guarded, run_query};

const SHAPES: [&str; 3] = ["FIXED 60", "SLIDING 60 EVERY 60", "SESSION 60"];

// What stands behind the shape, rows of keys a and b, and what is written.
#[derive(Clone, Copy)]
struct Case {
    clauses: &'static str,
    rows: &'static str,
    want: &'static str,
}

const PANES: Case = Case {
    clauses: "ACCUMULATING EMIT PANES",
    rows: "",
    want: "end,0,0,0,0,0\n",
};

const CASES: [Case; 9] = [
    PANES,
    // By end, then key, in whatever order they began.
    Case {
        rows: "r,b,60,1\nr,a,60,2\nr,a,0,4\nr,a,0,8\nw,300\n",
        want: "pane,on_time,a,0,60,2,12\npane,on_time,a,60,120,1,2\npane,on_time,b,60,120,1,1\nend,5,4,0,0,3\n",
        ..PANES
    },
    // A pane that fired takes a record more.
    Case {
        rows: "r,a,0,1\nw,60\nr,a,0,2\nw,180\n",
        want: "pane,on_time,a,0,60,1,1\npane,final,a,0,60,2,3\nend,4,2,0,0,2\n",
        ..PANES
    },
    // One was dropped, and its place is behind the watermark.
    Case {
        rows: "r,a,0,1\nw,180\nr,a,0,2\nr,a,60,4\nw,240\n",
        want: "pane,on_time,a,0,60,1,1\npane,final,a,60,120,1,4\nend,5,2,1,0,2\n",
        ..PANES
    },
    // Panes that fired are held in front of the one that is due.
    Case {
        rows: "r,a,0,1\nr,a,60,2\nr,b,120,4\nw,60\nw,120\nw,180\n",
        want: "pane,on_time,a,0,60,1,1\npane,on_time,a,60,120,1,2\npane,on_time,b,120,180,1,4\nend,6,3,0,0,3\n",
        ..PANES
    },
    Case {
        clauses: "ACCUMULATING EARLY EVERY 2 EMIT PANES",
        rows: "r,a,0,1\nr,b,0,1\nr,a,0,2\nw,60\n",
        want: "pane,early,a,0,60,2,3\npane,on_time,a,0,60,2,3\npane,on_time,b,0,60,1,1\nend,4,3,0,0,3\n",
    },
    Case {
        clauses: "RETRACTING EMIT PANES",
        rows: "r,a,0,1\nw,60\nr,a,0,2\nw,180\n",
        want: "pane,on_time,a,0,60,1,1\nretract,a,0,60,1,1\npane,final,a,0,60,2,3\nend,4,2,0,0,2\n",
    },
    Case {
        clauses: "ACCUMULATING EMIT ISTREAM",
        rows: "r,b,0,2\nr,a,0,1\nw,60\nr,a,0,4\nw,180\n",
        want: "istream,60,1,1\nistream,60,1,2\nistream,180,2,5\nend,5,3,0,0,3\n",
    },
    Case {
        clauses: "ACCUMULATING EMIT RSTREAM",
        rows: "r,b,0,2\nr,a,0,1\nw,60\n",
        want: "rstream,60,1,1\nrstream,60,1,2\nend,3,2,0,0,2\n",
    },
];

// What a query over windows of a shape writes for rows.
fn written(alloc: Global, shape: &str, case: Case) -> Result<Vec<u8>, Fail> {
    let (clauses, rows) = (case.clauses, case.rows);
    let text = format!(in alloc;
        "KEYS a, b; FIELD n INT 0..100; START 0; SKEW 1000; LATENESS 120; RECORDS 1000; SELECT COUNT(*), SUM(n) WINDOW {shape} {clauses};"
    )?;
    let mut out = Guarded::new(Vec::new(alloc));
    run_query(alloc, text.as_bytes(), rows.as_bytes(), &mut out)?;
    Ok(out.into_writer())
}

#[test]
fn each_case_through_both_tables(rt: HostRuntime) -> Result<(), Fail> {
    for case in CASES {
        for shape in SHAPES {
            let lines = written(rt.alloc(), shape, case)?;
            let rows = case.rows;
            assert_eq!(rt; lines.as_slice(), case.want.as_bytes(), "{shape}: {rows}");
        }
    }
    Ok(())
}
