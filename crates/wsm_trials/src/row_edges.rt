//! Rows on both sides of each limit.

use crate::edges::{BASE, KEYS, names};
use crate::running::ran;
use std::alloc::Global;
use std::process::Abort;
use std::test::Fail;

fn expect_run<R: Abort + AllocGlobal>(
    rt: &R,
    text: &str,
    rows: &[u8],
    want: &[u8],
) -> Result<(), Fail> {
    let (written, end) = ran(rt.alloc(), text.as_bytes(), rows);
    assert_eq!(rt; written.as_slice(), want, "{text}: {end:?}");
    assert!(rt; end.is_ok(), "{text}");
    Ok(())
}

const GREATEST: &str =
    "KEYS a, b; FIELD n INT 0..9223372036854775807; START 0; SKEW 100; LATENESS 10; RECORDS 1; \nSELECT COUNT(*), SUM(n) WINDOW FIXED 60 ACCUMULATING EMIT PANES;";

const LATEST: &str =
    "KEYS a, b; FIELD n INT 0..100; START 9999999999999940; SKEW 100; LATENESS 10; RECORDS 1000; \nSELECT COUNT(*), SUM(n) WINDOW FIXED 60 ACCUMULATING EMIT PANES;";

#[test]
fn the_greatest_number_and_the_latest_time(rt: HostRuntime) -> Result<(), Fail> {
    expect_run(
        &rt,
        GREATEST,
        b"r,a,5,9223372036854775807\nw,60\n",
        b"pane,on_time,a,0,60,1,9223372036854775807\nend,2,1,0,0,1\n",
    )?;
    expect_run(
        &rt,
        LATEST,
        b"r,a,10000000000000000,1\nr,a,10000000000000001,1\nw,10000000000000000\n",
        b"refused,2,TimeRange\nend,3,1,0,1,0\n",
    )
}

// Both sides of a field's interval, of 64 bits, of SKEW, of LATENESS and of the latest time.
#[test]
fn numbers_of_rows(rt: HostRuntime) -> Result<(), Fail> {
    expect_run(
        &rt,
        BASE,
        b"r,a,0,0\nr,a,0,-1\nr,a,0,100\nr,a,0,101\n\
r,a,0,9223372036854775807\nr,a,0,9223372036854775808\n\
r,a,0,-9223372036854775808\nr,a,0,-9223372036854775809\n\
r,a,100,1\nr,a,101,1\nr,a,-1,1\nr,a,9223372036854775808,1\n\
w,0\nw,60\nw,60\nr,a,50,1\nr,a,49,1\nw,10000000000000000\nw,10000000000000001\n",
        b"refused,2,FieldRange\nrefused,4,FieldRange\nrefused,5,FieldRange\n\
refused,6,BadNumber\nrefused,7,FieldRange\nrefused,8,BadNumber\n\
refused,10,TooFarAhead\nrefused,11,TimeRange\nrefused,12,BadNumber\n\
refused,13,NotRising\npane,on_time,a,0,60,2,100\nrefused,15,NotRising\n\
pane,final,a,0,60,3,101\npane,on_time,a,60,120,1,1\nrefused,19,TimeRange\n\
end,19,4,1,12,3\n",
    )
}

// The last watermark at which a window takes records, and the first at which it takes none.
#[test]
fn ends_of_windows(rt: HostRuntime) -> Result<(), Fail> {
    let text = BASE.replacen(rt.alloc(), "LATENESS 10", "LATENESS 10 FROM WINDOW", 1)?;
    expect_run(
        &rt,
        text.as_str(),
        b"w,69\nr,a,0,1\nw,70\nr,a,59,1\n",
        b"pane,final,a,0,60,1,1\nend,4,1,1,0,1\n",
    )
}

// A record of each of a thousand keys, and one of a key more.
fn rows_of_keys(alloc: Global) -> Result<String, Fail> {
    let mut rows = String::new(alloc);
    for number in 0..1_001 {
        write!(rows, "r,n{number},5,1\n")?;
    }
    Ok(rows)
}

// The panes that the greatest number of keys can hold at once.
#[test]
fn a_record_of_each_of_a_thousand_keys(rt: HostRuntime) -> Result<(), Fail> {
    let keys = names(rt.alloc(), 1_000)?;
    let rows = rows_of_keys(rt.alloc())?;
    let text = BASE.replacen(rt.alloc(), KEYS, keys.as_str(), 1)?;
    let want = b"refused,1001,UnknownKey\nend,1001,1000,0,1,0\n";
    expect_run(&rt, text.as_str(), rows.as_bytes(), want)
}
