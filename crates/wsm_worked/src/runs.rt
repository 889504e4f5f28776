//! Rows through queries, by their texts and by their programs.

use std::alloc::Global;
use std::process::Abort;
use std::test::Fail;
use wsm::{End, Guarded, Totals, compile_text, run_program, run_query};

/// The clauses of a query over keys a and b, rows for it, and what is written.
#[derive(Clone, Copy)]
pub struct Case {
    pub field: &'static str,
    // SOURCES and its end, or nothing.
    pub sources: &'static str,
    pub clock: &'static str,
    pub columns: &'static str,
    pub window: &'static str,
    pub form: &'static str,
    pub rows: &'static str,
    pub want: &'static str,
}

/// A query that counts and sums; the cases change some of its clauses.
pub const BASE: Case = Case {
    field: "n INT 0..100",
    sources: "",
    clock: "START 0; SKEW 100; LATENESS 10; RECORDS 1000",
    columns: "COUNT(*), SUM(n)",
    window: "FIXED 60 ACCUMULATING",
    form: "PANES",
    rows: "",
    want: "end,0,0,0,0,0\n",
};

/// A clock that takes no record behind the watermark.
pub const PROMPT: &str = "START 0; SKEW 100; LATENESS 0; RECORDS 1000";

// A query that counts alone, and admits no record behind the watermark.
const COUNT: Case = Case {
    clock: PROMPT,
    columns: "COUNT(*)",
    ..BASE
};

const TWO_RECORDS: Case = Case {
    rows: "r,a,5,7\nr,a,59,3\nw,60\n",
    want: "pane,on_time,a,0,60,2,10\nend,3,2,0,0,1\n",
    ..BASE
};

const TWO_SESSIONS: Case = Case {
    window: "SESSION 30 ACCUMULATING",
    rows: "r,a,10,1\nr,a,40,2\nw,100\n",
    want: "pane,on_time,a,10,40,1,1\npane,on_time,a,40,70,1,2\nend,3,2,0,0,2\n",
    ..BASE
};

const JOINED_SESSIONS: Case = Case {
    window: "SESSION 30 ACCUMULATING",
    rows: "r,a,0,1\nr,a,40,2\nr,a,20,4\nw,70\n",
    want: "pane,on_time,a,0,70,3,7\nend,4,3,0,0,1\n",
    ..BASE
};

const SLIDING: Case = Case {
    window: "SLIDING 60 EVERY 25 ACCUMULATING",
    rows: "r,a,5,1\nw,35\n",
    want: "pane,on_time,a,-50,10,1,1\npane,on_time,a,-25,35,1,1\nend,2,1,0,0,2\n",
    ..BASE
};

/// The text of the query.
pub fn text_of(alloc: Global, case: &Case) -> Result<String, Fail> {
    let (field, sources, clock) = (case.field, case.sources, case.clock);
    let (columns, window, form) = (case.columns, case.window, case.form);
    Ok(format!(in alloc;
        "KEYS a, b; FIELD {field}; {sources}{clock}; SELECT {columns} WINDOW {window} EMIT {form};"
    )?)
}

// What the query of a text writes for rows, and how it ends.
fn ran(alloc: Global, text: &str, rows: &str) -> (Vec<u8>, Result<Totals, End>) {
    let mut out = Guarded::new(Vec::new(alloc));
    let end = run_query(alloc, text.as_bytes(), rows.as_bytes(), &mut out);
    (out.into_writer(), end)
}

// What its program writes for them.
fn program_ran(alloc: Global, text: &str, rows: &str) -> Result<Vec<u8>, Fail> {
    let program = compile_text(alloc, text.as_bytes())?;
    let mut out = Guarded::new(Vec::new(alloc));
    run_program(alloc, &program, rows.as_bytes(), &mut out)?;
    Ok(out.into_writer())
}

// Each query writes what is wanted, and so does its program.
fn all_write<R: Abort + AllocGlobal>(rt: &R, cases: &[Case]) -> Result<(), Fail> {
    for case in cases {
        let text = text_of(rt.alloc(), case)?;
        let (written, end) = ran(rt.alloc(), text.as_str(), case.rows);
        assert_eq!(rt; written.as_slice(), case.want.as_bytes(), "{text}: {end:?}");
        assert!(rt; end.is_ok(), "{text}");
        let written = program_ran(rt.alloc(), text.as_str(), case.rows)?;
        assert_eq!(rt;
            written.as_slice(),
            case.want.as_bytes(),
            "the program of {text}"
        );
    }
    Ok(())
}

const FIXED: [Case; 7] = [
    BASE,
    TWO_RECORDS,
    Case {
        rows: "r,a,60,1\nw,60\n",
        want: "end,2,1,0,0,0\n",
        ..BASE
    },
    Case {
        rows: "w,60\nr,a,49,4\nr,a,50,6\nw,70\n",
        want: "pane,final,a,0,60,1,6\nend,4,1,1,0,1\n",
        ..BASE
    },
    Case {
        rows: "r,a,5,1\nr,a,65,2\nw,20\nr,a,120,4\nw,1000\n",
        want: "pane,on_time,a,0,60,1,1\npane,on_time,a,60,120,1,2\npane,on_time,a,120,180,1,4\nend,5,3,0,0,3\n",
        ..BASE
    },
    Case {
        columns: "COUNT(*) HAVING SUM(n) > 5",
        rows: "r,a,1,5\nr,b,1,6\nw,60\n",
        want: "pane,on_time,b,0,60,1\nend,3,2,0,0,2\n",
        ..BASE
    },
    Case {
        field: "color ENUM(red, blue)",
        columns: "KEY, color.blue, COUNT(*) > 1",
        rows: "r,b,1,red\nw,60\n",
        want: "pane,on_time,b,0,60,b,blue,false\nend,2,1,0,0,1\n",
        ..BASE
    },
];

#[test]
fn fixed_windows(rt: HostRuntime) -> Result<(), Fail> {
    all_write(&rt, &FIXED)
}

const COUNTS: [Case; 2] = [
    Case {
        rows: "r,a,5,7\nr,b,59,3\nw,60\nr,a,59,1\nw,60\n",
        want: "pane,on_time,a,0,60,1\npane,on_time,b,0,60,1\nrefused,5,NotRising\nend,5,2,1,1,2\n",
        ..COUNT
    },
    Case {
        rows: "r,a,100,1\nr,a,101,1\nx\n",
        want: "refused,2,TooFarAhead\nrefused,3,BadTag\nend,3,1,0,2,0\n",
        ..COUNT
    },
];

#[test]
fn counts_of_each_key(rt: HostRuntime) -> Result<(), Fail> {
    all_write(&rt, &COUNTS)
}

const REFUSED: [Case; 3] = [
    Case {
        rows: "r,a,100,1\nr,a,101,1\n",
        want: "refused,2,TooFarAhead\nend,2,1,0,1,0\n",
        ..BASE
    },
    Case {
        clock: "START 0; SKEW 100; LATENESS 10; RECORDS 2",
        rows: "r,a,1,1\nr,a,2,1\nr,a,3,1\nr,c,1,1\nr,a,1,101\nw,5\nw,5\n",
        want: "refused,3,RecordLimit\nrefused,4,UnknownKey\nrefused,5,FieldRange\nrefused,7,NotRising\nend,7,2,0,4,0\n",
        ..BASE
    },
    Case {
        rows: "x,1\nr,a,5\nr,a,5x,1\n",
        want: "refused,1,BadTag\nrefused,2,CellCount\nrefused,3,BadNumber\nend,3,0,0,3,0\n",
        ..BASE
    },
];

#[test]
fn refused_rows(rt: HostRuntime) -> Result<(), Fail> {
    all_write(&rt, &REFUSED)
}

const SESSIONS_AND_SLIDING: [Case; 5] = [
    TWO_SESSIONS,
    Case {
        clock: PROMPT,
        window: "SESSION 30 ACCUMULATING",
        rows: "r,a,10,1\nw,40\nr,a,39,2\nr,a,40,3\nw,70\n",
        want: "pane,on_time,a,10,40,1,1\npane,on_time,a,40,70,1,3\nend,5,2,1,0,2\n",
        ..BASE
    },
    JOINED_SESSIONS,
    Case {
        window: "SESSION 30 ACCUMULATING EARLY EVERY 4",
        rows: "r,a,0,1\nr,a,1,1\nr,a,40,1\nr,a,41,1\nr,a,20,1\n",
        want: "pane,early,a,0,71,5,5\nend,5,5,0,0,1\n",
        ..BASE
    },
    SLIDING,
];

#[test]
fn sessions_and_sliding_windows(rt: HostRuntime) -> Result<(), Fail> {
    all_write(&rt, &SESSIONS_AND_SLIDING)
}

const WITHOUT_LATENESS: [Case; 4] = [
    Case {
        clock: PROMPT,
        ..TWO_RECORDS
    },
    Case {
        clock: PROMPT,
        ..TWO_SESSIONS
    },
    Case {
        clock: PROMPT,
        ..JOINED_SESSIONS
    },
    Case {
        clock: PROMPT,
        ..SLIDING
    },
];

// Where nothing comes late, the lateness changes nothing.
#[test]
fn without_lateness(rt: HostRuntime) -> Result<(), Fail> {
    all_write(&rt, &WITHOUT_LATENESS)
}

const EARLY: [Case; 2] = [
    Case {
        window: "FIXED 60 DISCARDING EARLY EVERY 2",
        rows: "r,a,1,2\nr,a,2,3\nw,60\n",
        want: "pane,early,a,0,60,2,5\nend,3,2,0,0,1\n",
        ..BASE
    },
    Case {
        window: "FIXED 60 ACCUMULATING EARLY EVERY 2",
        rows: "r,a,1,2\nr,a,2,3\nw,60\n",
        want: "pane,early,a,0,60,2,5\npane,on_time,a,0,60,2,5\nend,3,2,0,0,2\n",
        ..BASE
    },
];

#[test]
fn early_panes(rt: HostRuntime) -> Result<(), Fail> {
    all_write(&rt, &EARLY)
}

const LATE_ROWS: &str = "r,a,55,1\nw,60\nr,a,56,2\nr,a,57,3\nr,a,58,4\nw,70\n";

const LATE: [Case; 3] = [
    Case {
        window: "FIXED 60 ACCUMULATING LATE EVERY 2",
        rows: LATE_ROWS,
        want: "pane,on_time,a,0,60,1,1\npane,late,a,0,60,3,6\npane,final,a,0,60,4,10\nend,6,4,0,0,3\n",
        ..BASE
    },
    Case {
        window: "FIXED 60 DISCARDING LATE EVERY 2",
        rows: LATE_ROWS,
        want: "pane,on_time,a,0,60,1,1\npane,late,a,0,60,2,5\npane,final,a,0,60,1,4\nend,6,4,0,0,3\n",
        ..BASE
    },
    Case {
        rows: "r,a,5,1\nw,80\nr,a,180,2\nw,250\n",
        want: "pane,on_time,a,0,60,1,1\npane,on_time,a,180,240,1,2\nend,4,2,0,0,2\n",
        ..BASE
    },
];

#[test]
fn late_panes(rt: HostRuntime) -> Result<(), Fail> {
    all_write(&rt, &LATE)
}

const STREAMS: [Case; 3] = [
    Case {
        form: "ISTREAM",
        rows: "r,a,1,1\nr,b,2,1\nw,60\nw,61\n",
        want: "istream,60,1\nistream,60,1\nend,4,2,0,0,2\n",
        ..COUNT
    },
    Case {
        form: "DSTREAM",
        rows: "r,a,1,1\nr,b,2,1\nw,60\nw,61\n",
        want: "dstream,61,1\ndstream,61,1\nend,4,2,0,0,2\n",
        ..COUNT
    },
    Case {
        clock: "START 0; SKEW 100; LATENESS 100; RECORDS 1000",
        columns: "COUNT(*)",
        window: "SESSION 30 ACCUMULATING",
        form: "RSTREAM",
        rows: "r,a,0,1\nr,a,40,1\nw,70\nr,a,20,1\nw,80\nw,170\n",
        want: "rstream,70,1\nrstream,70,1\nrstream,170,3\nend,6,3,0,0,3\n",
        ..BASE
    },
];

#[test]
fn streams(rt: HostRuntime) -> Result<(), Fail> {
    all_write(&rt, &STREAMS)
}

const LATE_SESSIONS: Case = Case {
    clock: "START 0; SKEW 100; LATENESS 100; RECORDS 1000",
    columns: "COUNT(*)",
    window: "SESSION 30 ACCUMULATING",
    ..BASE
};

const JOINED_STREAMS: [Case; 5] = [
    Case {
        form: "RSTREAM",
        rows: "r,a,0,1\nr,a,40,1\nr,a,20,1\nw,50\nw,70\nw,170\n",
        want: "rstream,70,3\nrstream,170,3\nend,6,3,0,0,1\n",
        ..LATE_SESSIONS
    },
    Case {
        form: "RSTREAM",
        rows: "r,a,0,1\nw,30\nr,a,40,1\nr,a,20,1\nw,50\nw,70\n",
        want: "rstream,30,1\nrstream,50,1\nrstream,70,3\nend,6,3,0,0,2\n",
        ..LATE_SESSIONS
    },
    Case {
        columns: "COUNT(*) HAVING COUNT(*) <> 3",
        form: "DSTREAM",
        rows: "r,a,0,1\nw,30\nr,a,40,1\nr,a,20,1\nw,50\nw,70\n",
        want: "dstream,70,1\nend,6,3,0,0,2\n",
        ..LATE_SESSIONS
    },
    Case {
        columns: "COUNT(*) HAVING COUNT(*) > 1",
        form: "DSTREAM",
        rows: "r,a,0,1\nr,a,40,1\nr,a,41,1\nw,71\nr,a,20,1\nw,72\nw,171\n",
        want: "dstream,72,2\nend,7,4,0,0,3\n",
        ..LATE_SESSIONS
    },
    Case {
        form: "DSTREAM",
        rows: "r,a,0,1\nr,a,40,1\nw,70\nr,a,20,1\nw,80\nw,170\nw,171\n",
        want: "dstream,80,1\ndstream,80,1\ndstream,171,3\nend,7,3,0,0,3\n",
        ..LATE_SESSIONS
    },
];

// Sessions that are joined where none, one or both of them fired.
#[test]
fn streams_of_joined_sessions(rt: HostRuntime) -> Result<(), Fail> {
    all_write(&rt, &JOINED_STREAMS)
}

const RETRACTING: [Case; 3] = [
    Case {
        window: "FIXED 60 RETRACTING EARLY EVERY 2",
        rows: "r,a,1,2\nr,a,2,3\nw,60\n",
        want: "pane,early,a,0,60,2,5\nretract,a,0,60,2,5\npane,on_time,a,0,60,2,5\nend,3,2,0,0,2\n",
        ..BASE
    },
    Case {
        window: "SESSION 30 RETRACTING",
        rows: "r,a,0,1\nr,a,40,1\nw,70\nr,a,20,1\nw,170\n",
        want: "pane,on_time,a,0,30,1\npane,on_time,a,40,70,1\nretract,a,0,30,1\nretract,a,40,70,1\npane,final,a,0,70,3\nend,5,3,0,0,3\n",
        ..LATE_SESSIONS
    },
    Case {
        columns: "COUNT(*) HAVING SUM(n) < 5",
        window: "FIXED 60 RETRACTING EARLY EVERY 1",
        rows: "r,a,1,2\nr,a,2,3\nw,60\n",
        want: "pane,early,a,0,60,1\nretract,a,0,60,1\nend,3,2,0,0,3\n",
        ..BASE
    },
];

// What stood for a pane is withdrawn before another row takes its place, for two sessions that are joined
// at once, and where HAVING is false now.
#[test]
fn retracting_panes(rt: HostRuntime) -> Result<(), Fail> {
    all_write(&rt, &RETRACTING)
}

const FROM_WINDOW: Case = Case {
    clock: "START 0; SKEW 100; LATENESS 10 FROM WINDOW; RECORDS 1000",
    ..BASE
};

const LATE_BY_WINDOWS: [Case; 2] = [
    Case {
        rows: "w,65\nr,a,5,4\nw,70\nr,a,6,1\n",
        want: "pane,final,a,0,60,1,4\nend,4,1,1,0,1\n",
        ..FROM_WINDOW
    },
    Case {
        window: "SLIDING 60 EVERY 25 ACCUMULATING",
        rows: "w,45\nr,a,5,1\nw,70\n",
        want: "pane,on_time,a,0,60,1,1\nend,3,1,0,0,1\n",
        ..FROM_WINDOW
    },
];

// A record is late where none of its windows is live, and enters those that are.
#[test]
fn lateness_from_the_window(rt: HostRuntime) -> Result<(), Fail> {
    all_write(&rt, &LATE_BY_WINDOWS)
}

const SOURCES: [Case; 1] = [Case {
    sources: "SOURCES x, y; ",
    rows: "r,a,5,7\nw,x,90\nr,a,50,3\nw,y,60\nw,z,70\nw,y,60\nw,y,80\n",
    want: "pane,on_time,a,0,60,2,10\nrefused,5,UnknownSource\nrefused,6,NotRising\nend,7,2,0,2,1\n",
    ..BASE
}];

// The watermark is the least of those of the sources.
#[test]
fn sources(rt: HostRuntime) -> Result<(), Fail> {
    all_write(&rt, &SOURCES)
}

const GUARDED: [Case; 1] = [Case {
    columns: "SUM(IF n <> 0 THEN 100 / n ELSE 0 END)",
    rows: "r,a,1,0\nr,a,2,3\nw,60\n",
    want: "pane,on_time,a,0,60,33\nend,3,2,0,0,1\n",
    ..BASE
}];

// A divisor is tested before it divides.
#[test]
fn guarded_divisors(rt: HostRuntime) -> Result<(), Fail> {
    all_write(&rt, &GUARDED)
}
