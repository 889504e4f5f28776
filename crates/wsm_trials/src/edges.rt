//! Numbers of a query on both sides of each limit.

use std::alloc::Global;
use std::process::Abort;
use std::test::Fail;
use wsm::compile_text;

/// A query of which the trials exchange a part.
pub const BASE: &str =
    "KEYS a, b; FIELD n INT 0..100; START 0; SKEW 100; LATENESS 10; RECORDS 1000; \nSELECT COUNT(*), SUM(n) WINDOW FIXED 60 ACCUMULATING EMIT PANES;";

// One with a window that is as long as a window may be.
const LONGEST: &str =
    "KEYS a, b; FIELD n INT 0..100; START 0; SKEW 100; LATENESS 10; RECORDS 1000; \nSELECT COUNT(*), SUM(n) WINDOW FIXED 1000000000000 ACCUMULATING EMIT PANES;";

/// Its keys.
pub const KEYS: &str = "a, b";

const FIELD: &str = "FIELD n INT 0..100;";

const COLUMNS: &str = "COUNT(*), SUM(n)";

const SHAPE: &str = "FIXED 60 ACCUMULATING";

// Why a query is refused, or "compiled".
fn answer(alloc: Global, text: &str) -> Result<String, Fail> {
    match compile_text(alloc, text.as_bytes()) {
        Ok(_) => Ok(String::from_str(alloc, "compiled")?),
        Err(end) => Ok(format!(in alloc; "{end}")?),
    }
}

fn expect<R: Abort + AllocGlobal>(rt: &R, text: &str, want: &str) -> Result<(), Fail> {
    let answer = answer(rt.alloc(), text)?;
    assert_eq!(rt; answer.as_str(), want, "{text}");
    Ok(())
}

// The answer to a query in which a part is another.
fn expect_with<R: Abort + AllocGlobal>(
    rt: &R,
    text: &str,
    part: &str,
    other: &str,
    want: &str,
) -> Result<(), Fail> {
    let text = text.replacen(rt.alloc(), part, other, 1)?;
    expect(rt, text.as_str(), want)
}

// The same for each of some parts.
fn expect_each<R: Abort + AllocGlobal>(
    rt: &R,
    text: &str,
    part: &str,
    cases: &[(&str, &str)],
) -> Result<(), Fail> {
    for &(other, want) in cases {
        expect_with(rt, text, part, other, want)?;
    }
    Ok(())
}

const FITS: &str = "compiled";

const CLOCK: &str = "C7 Limit in clock";

const STARTS: [(&str, &str); 2] = [
    ("START 10000000000000000", FITS),
    ("START 10000000000000001", CLOCK),
];

#[test]
fn starts(rt: HostRuntime) -> Result<(), Fail> {
    expect_each(&rt, BASE, "START 0", &STARTS)
}

const SKEWS: [(&str, &str); 3] = [
    ("SKEW 0", FITS),
    ("SKEW 1000000000000", FITS),
    ("SKEW 1000000000001", CLOCK),
];

#[test]
fn skews(rt: HostRuntime) -> Result<(), Fail> {
    expect_each(&rt, LONGEST, "SKEW 100", &SKEWS)
}

const LATENESSES: [(&str, &str); 5] = [
    ("LATENESS 0", FITS),
    ("LATENESS 1000000000000", FITS),
    ("LATENESS 1000000000001", CLOCK),
    ("LATENESS 1000000000000 FROM WINDOW", FITS),
    ("LATENESS 1000000000001 FROM WINDOW", CLOCK),
];

#[test]
fn latenesses(rt: HostRuntime) -> Result<(), Fail> {
    expect_each(&rt, LONGEST, "LATENESS 10", &LATENESSES)
}

const RECORDS: [(&str, &str); 4] = [
    ("RECORDS 0", CLOCK),
    ("RECORDS 1", FITS),
    ("RECORDS 1000000000000", FITS),
    ("RECORDS 1000000000001", CLOCK),
];

#[test]
fn numbers_of_records(rt: HostRuntime) -> Result<(), Fail> {
    expect_each(&rt, BASE, "RECORDS 1000", &RECORDS)
}

const SOURCES: &str = "C7 Limit in sources";

const NUMBERS_OF_SOURCES: [(&str, &str); 4] = [
    ("SOURCES s1; START", SOURCES),
    ("SOURCES s1, s2; START", FITS),
    (
        "SOURCES s1, s2, s3, s4, s5, s6, s7, s8, s9, s10, s11, s12, s13, s14, s15, s16; START",
        FITS,
    ),
    (
        "SOURCES s1, s2, s3, s4, s5, s6, s7, s8, s9, s10, s11, s12, s13, s14, s15, s16, s17; START",
        SOURCES,
    ),
];

#[test]
fn numbers_of_sources(rt: HostRuntime) -> Result<(), Fail> {
    expect_each(&rt, BASE, "START", &NUMBERS_OF_SOURCES)
}

const WINDOW: &str = "C7 Limit in window";

const WINDOWS: [(&str, &str); 14] = [
    ("FIXED 0 ACCUMULATING", WINDOW),
    ("FIXED 1 ACCUMULATING", FITS),
    ("FIXED 1000000000000 ACCUMULATING", FITS),
    ("FIXED 1000000000001 ACCUMULATING", WINDOW),
    ("SLIDING 60 EVERY 0 ACCUMULATING", WINDOW),
    ("SLIDING 60 EVERY 1 ACCUMULATING", FITS),
    ("SLIDING 60 EVERY 60 ACCUMULATING", FITS),
    ("SLIDING 60 EVERY 61 ACCUMULATING", WINDOW),
    ("SESSION 0 ACCUMULATING", WINDOW),
    ("SESSION 1 ACCUMULATING", FITS),
    ("SESSION 1000000000000 ACCUMULATING", FITS),
    ("SESSION 1000000000001 ACCUMULATING", WINDOW),
    // Two keys of 50,000 windows that are live at once, and of 50,001.
    ("SLIDING 49890 EVERY 1 ACCUMULATING", FITS),
    ("SLIDING 49891 EVERY 1 ACCUMULATING", "C7 Limit in code"),
];

#[test]
fn windows(rt: HostRuntime) -> Result<(), Fail> {
    expect_each(&rt, BASE, SHAPE, &WINDOWS)
}

const TRIGGER: &str = "C7 Limit in trigger";

const TRIGGERS: [(&str, &str); 8] = [
    ("FIXED 60 ACCUMULATING EARLY EVERY 0", TRIGGER),
    ("FIXED 60 ACCUMULATING EARLY EVERY 1", FITS),
    ("FIXED 60 ACCUMULATING EARLY EVERY 1000000000000", FITS),
    ("FIXED 60 ACCUMULATING EARLY EVERY 1000000000001", TRIGGER),
    ("FIXED 60 ACCUMULATING LATE EVERY 0", TRIGGER),
    ("FIXED 60 ACCUMULATING LATE EVERY 1", FITS),
    ("FIXED 60 ACCUMULATING LATE EVERY 1000000000000", FITS),
    ("FIXED 60 ACCUMULATING LATE EVERY 1000000000001", TRIGGER),
];

#[test]
fn triggers(rt: HostRuntime) -> Result<(), Fail> {
    expect_each(&rt, BASE, SHAPE, &TRIGGERS)
}

const BUDGET: &str = "C7 Limit in budget";

const BUDGETS: [(&str, &str); 10] = [
    ("BUDGET RECORD 0 PANE 1 HELD 1;\n", BUDGET),
    ("BUDGET RECORD 1 PANE 0 HELD 1;\n", BUDGET),
    ("BUDGET RECORD 1 PANE 1 HELD 0;\n", BUDGET),
    ("BUDGET RECORD 1 PANE 1 HELD 1;\n", FITS),
    ("BUDGET RECORD 1000000000000000000 PANE 1 HELD 1;\n", FITS),
    ("BUDGET RECORD 1000000000000000001 PANE 1 HELD 1;\n", BUDGET),
    ("BUDGET RECORD 1 PANE 1000000000000000000 HELD 1;\n", FITS),
    ("BUDGET RECORD 1 PANE 1000000000000000001 HELD 1;\n", BUDGET),
    ("BUDGET RECORD 1 PANE 1 HELD 100000;\n", FITS),
    ("BUDGET RECORD 1 PANE 1 HELD 100001;\n", BUDGET),
];

#[test]
fn budgets(rt: HostRuntime) -> Result<(), Fail> {
    expect_each(&rt, BASE, "\n", &BUDGETS)
}

const NUMBERS: [(&str, &str); 6] = [
    ("FIELD n INT 5..5;", FITS),
    ("FIELD n INT 5..4;", "C7 Limit in field 1"),
    (
        "FIELD n INT -9223372036854775807..9223372036854775807;",
        FITS,
    ),
    (
        "FIELD n INT 0..9223372036854775808;",
        "P3 NumberTooLarge at 1:27",
    ),
    (
        "FIELD n INT -9223372036854775808..0;",
        "P3 NumberTooLarge at 1:25",
    ),
    ("FIELD n INT 0..00000000000000000000000000007;", FITS),
];

const NAMES: [(&str, &str); 2] = [
    ("abcdefghijklmnopqrstuvwxyz_01234", FITS),
    (
        "abcdefghijklmnopqrstuvwxyz_012345",
        "P1 BadCharacter at 1:38",
    ),
];

#[test]
fn numbers(rt: HostRuntime) -> Result<(), Fail> {
    expect_each(&rt, BASE, FIELD, &NUMBERS)
}

#[test]
fn lengths_of_names(rt: HostRuntime) -> Result<(), Fail> {
    expect_each(&rt, BASE, KEYS, &NAMES)
}

// A text, so many times.
fn times(alloc: Global, text: &str, count: usize) -> Result<String, Fail> {
    let mut all = String::new(alloc);
    for _ in 0..count {
        all.push_str(text)?;
    }
    Ok(all)
}

/// So many names, from n0 on.
pub fn names(alloc: Global, count: usize) -> Result<String, Fail> {
    let mut all = String::from_str(alloc, "n0")?;
    for number in 1..count {
        write!(all, ", n{number}")?;
    }
    Ok(all)
}

// So many fields, from n on.
fn fields(alloc: Global, count: usize) -> Result<String, Fail> {
    let mut all = String::from_str(alloc, "FIELD n BOOL; ")?;
    for number in 1..count {
        write!(all, "FIELD n{number} INT 0..1; ")?;
    }
    Ok(all)
}

fn expect_keys<R: Abort + AllocGlobal>(rt: &R, count: usize, want: &str) -> Result<(), Fail> {
    let keys = names(rt.alloc(), count)?;
    expect_with(rt, BASE, KEYS, keys.as_str(), want)
}

#[test]
fn numbers_of_keys(rt: HostRuntime) -> Result<(), Fail> {
    expect_keys(&rt, 1_000, FITS)?;
    expect_keys(&rt, 1_001, "C7 Limit in keys")
}

fn expect_enum<R: Abort + AllocGlobal>(rt: &R, count: usize, want: &str) -> Result<(), Fail> {
    let names = names(rt.alloc(), count)?;
    let fields = format!(in rt.alloc(); "FIELD n INT 0..1; FIELD e ENUM({names});")?;
    expect_with(rt, BASE, FIELD, fields.as_str(), want)
}

#[test]
fn numbers_of_names(rt: HostRuntime) -> Result<(), Fail> {
    expect_enum(&rt, 1_000, FITS)?;
    expect_enum(&rt, 1_001, "C7 Limit in field 2")
}

fn expect_fields<R: Abort + AllocGlobal>(rt: &R, count: usize, want: &str) -> Result<(), Fail> {
    let fields = fields(rt.alloc(), count)?;
    let text = BASE.replacen(rt.alloc(), FIELD, fields.as_str(), 1)?;
    expect_with(rt, text.as_str(), COLUMNS, "ANY(n)", want)
}

#[test]
fn numbers_of_fields(rt: HostRuntime) -> Result<(), Fail> {
    expect_fields(&rt, 16, FITS)?;
    expect_fields(&rt, 17, "C7 Limit in field 17")
}

fn counts(alloc: Global, more: usize) -> Result<String, Fail> {
    let more = times(alloc, ", COUNT(*)", more)?;
    Ok(format!(in alloc; "COUNT(*){more}")?)
}

#[test]
fn numbers_of_columns(rt: HostRuntime) -> Result<(), Fail> {
    for (more, want) in [(15, FITS), (16, "C7 Limit in column 17")] {
        let columns = counts(rt.alloc(), more)?;
        expect_with(&rt, BASE, COLUMNS, columns.as_str(), want)?;
    }
    Ok(())
}

fn sums(alloc: Global, more: usize) -> Result<String, Fail> {
    let more = times(alloc, " + SUM(n)", more)?;
    Ok(format!(in alloc; "MAX(n){more}")?)
}

#[test]
fn numbers_of_accumulators(rt: HostRuntime) -> Result<(), Fail> {
    for (more, want) in [(15, FITS), (16, "C7 Limit in code")] {
        let columns = sums(rt.alloc(), more)?;
        expect_with(&rt, BASE, COLUMNS, columns.as_str(), want)?;
    }
    Ok(())
}

// What opens a column so often, what is inside, what closes it as often, and how often; and the answer.
type Nested = (
    &'static str,
    &'static str,
    &'static str,
    usize,
    &'static str,
);

fn nested(alloc: Global, case: &Nested) -> Result<String, Fail> {
    let (open, inside, close, count, _) = *case;
    let open = times(alloc, open, count)?;
    let close = times(alloc, close, count)?;
    Ok(format!(in alloc; "{open}{inside}{close}")?)
}

fn all_nested<R: Abort + AllocGlobal>(rt: &R, cases: &[Nested]) -> Result<(), Fail> {
    for case in cases {
        let columns = nested(rt.alloc(), case)?;
        expect_with(rt, BASE, COLUMNS, columns.as_str(), case.4)?;
    }
    Ok(())
}

const LEVELS: [Nested; 12] = [
    ("(", "7", ")", 24, FITS),
    ("(", "7", ")", 25, "P4 TooDeep at 2:32"),
    ("NOT ", "TRUE", "", 24, FITS),
    ("NOT ", "TRUE", "", 25, "P4 TooDeep at 2:104"),
    ("- ", "7", "", 24, FITS),
    ("- ", "7", "", 25, "P4 TooDeep at 2:56"),
    ("IF TRUE THEN ", "7", " ELSE 0 END", 24, FITS),
    (
        "IF TRUE THEN ",
        "7",
        " ELSE 0 END",
        25,
        "P4 TooDeep at 2:320",
    ),
    ("(", "COUNT(*)", ")", 23, FITS),
    ("(", "COUNT(*)", ")", 24, "P4 TooDeep at 2:32"),
    ("SUM(", "n", ")", 24, "C5 AggregateNested in column 1"),
    ("SUM(", "n", ")", 25, "P4 TooDeep at 2:104"),
];

#[test]
fn levels(rt: HostRuntime) -> Result<(), Fail> {
    all_nested(&rt, &LEVELS)
}

const CHAINS: [Nested; 8] = [
    ("", "7", " + 7", 64, FITS),
    ("", "7", " + 7", 65, "P4 TooDeep at 2:266"),
    ("", "7", " * 1", 64, FITS),
    ("", "7", " * 1", 65, "P4 TooDeep at 2:266"),
    ("", "TRUE", " OR TRUE", 64, FITS),
    ("", "TRUE", " OR TRUE", 65, "P4 TooDeep at 2:525"),
    ("", "TRUE", " AND TRUE", 64, FITS),
    ("", "TRUE", " AND TRUE", 65, "P4 TooDeep at 2:589"),
];

#[test]
fn chains(rt: HostRuntime) -> Result<(), Fail> {
    all_nested(&rt, &CHAINS)
}

// Seven sums, each of 129 instructions with its fold.
fn long_sums(alloc: Global) -> Result<String, Fail> {
    let more = times(alloc, " + n", 64)?;
    let sum = format!(in alloc; "SUM(n{more}), ")?;
    times(alloc, sum.as_str(), 7)
}

// Behind them a sum of a number and of so many more.
fn expect_sums<R: Abort + AllocGlobal>(
    rt: &R,
    first: &str,
    more: usize,
    want: &str,
) -> Result<(), Fail> {
    let long = long_sums(rt.alloc())?;
    let more = times(rt.alloc(), " + n", more)?;
    let columns = format!(in rt.alloc(); "{long}SUM({first}{more})")?;
    expect_with(rt, BASE, COLUMNS, columns.as_str(), want)
}

// The last sum has 88 instructions, or 89: with all folds and its return the update has 1,000, or one
// more.
#[test]
fn instructions_of_a_section(rt: HostRuntime) -> Result<(), Fail> {
    expect_sums(&rt, "-n", 43, FITS)?;
    expect_sums(&rt, "n", 44, "C7 Limit in code")
}

// A column that needs 24 places of the stack.
fn deep_column(alloc: Global) -> Result<String, Fail> {
    let open = times(alloc, "7 + (", 23)?;
    let close = times(alloc, ")", 23)?;
    Ok(format!(in alloc; "{open}7{close}")?)
}

// Behind so many columns.
fn expect_deep<R: Abort + AllocGlobal>(rt: &R, before: usize, want: &str) -> Result<(), Fail> {
    let before = times(rt.alloc(), "COUNT(*), ", before)?;
    let deep = deep_column(rt.alloc())?;
    let columns = format!(in rt.alloc(); "{before}{deep}")?;
    expect_with(rt, BASE, COLUMNS, columns.as_str(), want)
}

#[test]
fn places_of_the_stack(rt: HostRuntime) -> Result<(), Fail> {
    expect_deep(&rt, 8, FITS)?;
    expect_deep(&rt, 9, "C7 Limit in code")
}
