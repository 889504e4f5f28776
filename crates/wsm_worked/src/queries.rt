//! Queries as they are printed. Each text was worked out by hand.

use std::alloc::{AllocError, Global};
use std::process::Abort;
use std::test::*;
use wsm_query::{parse, print};

const HEAD: &str =
    "KEYS a, b;\nFIELD n INT 0..100;\nSTART 0; SKEW 100; LATENESS 10; RECORDS 1000;\nSELECT ";

const PRINTED_HEAD: &str =
    "KEYS a , b ; FIELD n INT 0 .. 100 ; START 0 ; SKEW 100 ; LATENESS 10 ; RECORDS 1000 ; SELECT ";

const PRINTED_TAIL: &str = " WINDOW FIXED 60 ACCUMULATING EMIT PANES ;";

const TAIL: &str = "\nWINDOW FIXED 60 ACCUMULATING\nEMIT PANES;\n";

// A query of these columns.
fn selecting(alloc: Global, columns: &str) -> Result<String, AllocError> {
    format!(in alloc; "{HEAD}{columns}{TAIL}")
}

// The text that a query's text is printed as.
fn printed(alloc: Global, text: &[u8]) -> Result<Vec<u8>, Fail> {
    let query = parse(alloc, text)?;
    Ok(print(alloc, &query)?)
}

// The text is printed as the other.
fn expect_printed(rt: &impl Abort, alloc: Global, text: &str, want: &str) -> Result<(), Fail> {
    let printed = printed(alloc, text.as_bytes())?;
    assert_eq!(rt; printed.as_slice(), want.as_bytes(), "{text}");
    Ok(())
}

// A query with each clause, and how it is printed.
const WHOLE: (&str, &str) = (
    "KEYS a; FIELD n INT -2..-1; FIELD c ENUM(x, y); FIELD b BOOL; SOURCES s,t; START 0; SKEW 0; LATENESS 0 FROM WINDOW; RECORDS 1; BUDGET RECORD 1 PANE 2 HELD 3; SELECT 1 WHERE b HAVING ALL(b) WINDOW SLIDING 6 EVERY 2 DISCARDING EARLY EVERY 1 LATE EVERY 2 EMIT RSTREAM;",
    "KEYS a ; FIELD n INT - 2 .. - 1 ; FIELD c ENUM ( x , y ) ; FIELD b BOOL ; SOURCES s , t ; START 0 ; SKEW 0 ; LATENESS 0 FROM WINDOW ; RECORDS 1 ; BUDGET RECORD 1 PANE 2 HELD 3 ; SELECT 1 WHERE b HAVING ALL ( b ) WINDOW SLIDING 6 EVERY 2 DISCARDING EARLY EVERY 1 LATE EVERY 2 EMIT RSTREAM ;",
);

// Columns, and how they are printed.
const FORMS: [(&str, &str); 11] = [
    ("COUNT(*),SUM(n)", "COUNT ( * ) , SUM ( n )"),
    ("7-(2-1)", "7 - ( 2 - 1 )"),
    ("007", "7"),
    ("1+2*3/4%5", "1 + 2 * 3 / 4 % 5"),
    ("NOT TRUE OR 1<=2 AND FALSE", "NOT TRUE OR 1 <= 2 AND FALSE"),
    ("(1=2)<>(3<4)", "( 1 = 2 ) <> ( 3 < 4 )"),
    ("(1>2)=(3>=4)", "( 1 > 2 ) = ( 3 >= 4 )"),
    ("color.red=color.blue", "color . red = color . blue"),
    (
        "IF KEY=KEY.a THEN -n ELSE --n END",
        "IF KEY = KEY . a THEN - n ELSE - - n END",
    ),
    (
        "MIN(n)+MAX(n)+SUM(-n)",
        "MIN ( n ) + MAX ( n ) + SUM ( - n )",
    ),
    ("ANY(n>1)OR ALL(TRUE)", "ANY ( n > 1 ) OR ALL ( TRUE )"),
];

#[test]
fn each_form_is_printed(rt: HostRuntime) -> Result<(), Fail> {
    let alloc = rt.alloc();
    expect_printed(&rt, alloc, WHOLE.0, WHOLE.1)?;
    for (columns, want) in &FORMS {
        let text = selecting(alloc, columns)?;
        let want = format!(in alloc; "{PRINTED_HEAD}{want}{PRINTED_TAIL}")?;
        expect_printed(&rt, alloc, text.as_str(), want.as_str())?;
    }
    Ok(())
}
