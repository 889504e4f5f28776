//! What examples and trials start from: queries, the bytes of their programs, rows for them, and what
//! is written. Each was worked out by hand, or stands in the formats. [`is_whole`] tells a run that ended.
#![tactic(auto)]

/// Counts the records of two keys in windows of 60, and sums a number.
pub const BASE: &[u8] = b"KEYS a, b;
FIELD n INT 0..100;
START 0; SKEW 100; LATENESS 10; RECORDS 1000;
SELECT COUNT(*), SUM(n)
WINDOW FIXED 60 ACCUMULATING
EMIT PANES;";

/// The base program of the format: keys a and b, a number n of 0 to 100, windows of 60 with a lateness
/// of 10, and of each firing how many records there are and the sum of their n. The lines are its magic
/// and version, its keys, its field, START to RECORDS, by what lateness is counted and its sources, its
/// windows, its mode, triggers and form, its accumulators and columns, the numbers that it states, and
/// the sections from byte [`SECTIONS`] on.
pub const BASE_PROGRAM: &[u8] = b"WSMP\x02\
\x02\0\x01a\x01b\
\x01\x01n\0\0\0\0\0\0\0\0\0\x64\0\0\0\0\0\0\0\
\0\0\0\0\0\0\0\0\x64\0\0\0\0\0\0\0\x0a\0\0\0\0\0\0\0\xe8\x03\0\0\0\0\0\0\
\0\0\
\0\x3c\0\0\0\0\0\0\0\
\x01\0\0\0\0\0\0\0\0\0\0\0\0\0\0\0\0\0\
\x01\0\x02\0\0\
\x05\0\0\0\0\0\0\0\x04\0\0\0\0\0\0\0\x06\0\0\0\0\0\0\0\
\x02\0\x02\x01P\
\x03\0\x04\0\x40\0P\
\x04\0\x07\x06\0\x02\x01P";

/// Where the sections of the base program begin.
pub const SECTIONS: usize = 121;

/// What stands before the sections of that program in version 1, which doesn't say by what lateness is
/// counted, and names no sources.
pub const BASE_HEADER_OF_VERSION_1: &[u8] = b"WSMP\x01\
\x02\0\x01a\x01b\
\x01\x01n\0\0\0\0\0\0\0\0\0\x64\0\0\0\0\0\0\0\
\0\0\0\0\0\0\0\0\x64\0\0\0\0\0\0\0\x0a\0\0\0\0\0\0\0\xe8\x03\0\0\0\0\0\0\
\0\x3c\0\0\0\0\0\0\0\
\x01\0\0\0\0\0\0\0\0\0\0\0\0\0\0\0\0\0\
\x01\0\x02\0\0\
\x05\0\0\0\0\0\0\0\x04\0\0\0\0\0\0\0\x06\0\0\0\0\0\0\0";

/// Two records and a watermark that fires their pane.
pub const BASE_ROWS: &[u8] = b"r,a,5,7\nr,a,59,3\nw,60\n";

/// What the base query writes for those rows.
pub const BASE_TEXT: &[u8] = b"pane,on_time,a,0,60,2,10\nend,3,2,0,0,1\n";

/// Sessions, both triggers, two ENUM fields and an accumulator of each kind.
pub const SESSIONS: &[u8] = b"KEYS a, b;
FIELD n INT -5..100; FIELD on BOOL; FIELD color ENUM(red, blue); FIELD size ENUM(big, small);
START 0; SKEW 100; LATENESS 40; RECORDS 1000;
SELECT COUNT(*), SUM(n), MIN(n), MAX(n), ANY(on), ALL(color = color.red), KEY
WHERE n <> 50 AND size = size.big HAVING COUNT(*) > 0
WINDOW SESSION 30 DISCARDING EARLY EVERY 2 LATE EVERY 1
EMIT PANES;";

/// Rows of sessions that are joined, fire early, on time and late, and of values that aren't taken.
pub const SESSION_ROWS: &[u8] = b"r,a,5,7,true,red,big\nr,b,5,-5,false,blue,big\n\
r,a,50,3,false,red,big\nr,a,30,100,true,blue,big\nr,a,31,50,true,blue,small\nw,70\n\
r,a,65,1,true,red,big\nr,a,66,200,true,red,big\nw,75\nr,b,80,1,true,green,big\nw,200\n\
r,b,160,2,false,red,big\n";

/// What the query of sessions writes for those rows.
pub const SESSION_TEXT: &[u8] = b"pane,early,a,5,80,3,110,3,100,true,false,a\n\
pane,on_time,b,5,35,1,-5,-5,-5,false,false,b\nrefused,8,FieldRange\nrefused,10,BadName\n\
pane,on_time,a,5,95,1,1,1,1,true,true,a\npane,late,b,160,190,1,2,2,2,false,true,b\n\
end,12,7,0,2,4\n";

/// A stream of the differences between instants.
pub const STREAM: &[u8] = b"KEYS a, b;
FIELD n INT 0..100;
START 0; SKEW 100; LATENESS 10; RECORDS 1000;
SELECT COUNT(*), SUM(n) > 5, KEY
WINDOW SLIDING 60 EVERY 25 ACCUMULATING EARLY EVERY 2
EMIT ISTREAM;";

/// Rows of both keys, with instants at which panes come to stand, change and are dropped.
pub const STREAM_ROWS: &[u8] =
    b"r,a,5,7\nr,b,30,3\nw,35\nr,a,34,0\nr,b,61,100\nw,60\nw,61\nr,a,90,1\nw,160\nw,300\n";

/// What the query of a stream writes for those rows.
pub const STREAM_TEXT: &[u8] = b"istream,35,1,false,b\nistream,35,1,true,a\nistream,35,1,true,a\n\
istream,60,1,false,b\nistream,60,2,true,a\nistream,60,2,true,a\nistream,60,2,true,b\n\
istream,160,1,false,a\nistream,160,1,false,a\nistream,160,1,false,a\nistream,160,1,true,b\n\
end,10,5,0,0,13\n";

/// Whether a text is that of a whole run: its last line is an end row.
pub fn is_whole(text: &[u8]) -> bool {
    let Some(lines) = text.strip_suffix(b"\n") else {
        return false;
    };
    match lines.rsplit(|byte| *byte == b'\n').next() {
        Some(last) => last.starts_with(b"end,"),
        None => false,
    }
}
