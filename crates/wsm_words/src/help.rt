//! What the program says of itself.

/// What the program does.
pub const ABOUT: &str =
    "Runs a query over a stream of timed rows, and writes a row for each pane of a window.";

/// A query, rows, and what comes of them.
pub const EXAMPLE: &str = "A query declares keys, fields, a clock and windows. This makes one:

  echo 'KEYS a, b;
  FIELD n INT 0..100;
  START 0; SKEW 100; LATENESS 10; RECORDS 1000;
  SELECT COUNT(*), SUM(n)
  WINDOW FIXED 60 ACCUMULATING
  EMIT PANES;' > sums.wsm

A row is a record, `r,KEY,TIME` and a cell for each field, or a watermark, `w,TIME` (`w,SOURCE,TIME`
where the query declares SOURCES):

  printf 'r,a,5,7\\nr,a,59,3\\nw,60\\n' | wsm run sums.wsm

For each pane that a watermark completes a row is written, and an end row last:

  pane,on_time,a,0,60,2,10
  end,3,2,0,0,1

The end row counts rows, admitted records, late records, refused rows and panes.
Nothing fires at the end of the rows: end them with a watermark.

Statuses:
  0  done, also after help and the version
  2  the words were refused
  3  a query's text, a program's bytes, keys or a source's text were refused
  4  a program was rejected
  5  memory was refused
  6  a file couldn't be opened or read
  7  the output failed
  8  another one holds the file of the rows, or the folder of a live run: again after a pause
  9  the rows or the folder aren't those of the query, or are damaged: somebody must look";

/// What the command `run` does.
pub const RUN: &str =
    "Runs a query or a program over rows or over a log, and writes to standard output.";

/// What the flag for a program says.
pub const IS_PROGRAM: &str = "QUERY is a program that `wsm compile` wrote";

/// What the option for a source says.
pub const FROM: &str = "ROWS is a log, whose lines are read by the source of this file";

/// What the option for what is counted says.
pub const METRICS: &str =
    "Write at the end to this file what was counted, as text that Prometheus reads";

/// What the option for names says.
pub const NAMES: &str =
    "The keys are the names of this file, one a line, and QUERY has no KEYS clause";

/// What the flag for new names says.
pub const TAKES_NEW: &str = "With --keys: a name that comes in a record is a key from then on";

/// What the option for the number of names says.
pub const MOST_KEYS: &str = "With --new-keys: so many keys at most, those of the file among them";

/// What the option for the number of keys says.
pub const KEY_COUNT: &str =
    "PROGRAM is the text of a query for `wsm run --keys`, to tell what N keys take";

/// What is run.
pub const QUERY_OR_PROGRAM: &str = "The file of the query's text, or of the program";

/// What the rows' file is.
pub const ROWS: &str = "The file of the rows; standard input where it is left out or `-`";

/// An example of the command `run`.
pub const RUN_EXAMPLE: &str = "With the query of `wsm --help`,

  printf 'r,a,5,7\\nr,a,59,3\\nw,60\\n' > rows.csv
  wsm run sums.wsm rows.csv

writes

  pane,on_time,a,0,60,2,10
  end,3,2,0,0,1

With --from ROWS is a log. A source says where its lines have the key, the time and the fields, and
how far the watermark stays behind the latest time:

  echo 'format = \"json\"
  [key]
  at = \"customer\"
  [time]
  at = \"time\"
  form = \"rfc3339\"
  [clock]
  bound = 60' > log.toml
  echo '{\"customer\":\"a\",\"time\":\"1970-01-01T00:00:05Z\",\"n\":7}
  {\"customer\":\"a\",\"time\":\"1970-01-01T00:00:59Z\",\"n\":3}
  {\"customer\":\"b\",\"time\":\"1970-01-01T00:02:00Z\",\"n\":1}' > log.json
  wsm run --from log.toml sums.wsm log.json

writes

  pane,on_time,a,0,60,2,10
  end,3,3,0,0,1

since the last line raises the watermark to 60, in front of its own record. What is refused is told
by the number of its line.

With --metrics counts.prom what was counted is written to that file at the end, in the place of what
was there. Of the log above it has

  # HELP wsm_lines_total Lines or rows that were read.
  # TYPE wsm_lines_total counter
  wsm_lines_total 3

and so on: records that were admitted, late and refused, panes, and of a log doubles, records that told
no time, how many waited at the end, and how many clocks speak and have to agree.

With --keys FILE a query may have any number of keys. Its text has no KEYS clause and doesn't say KEY,
it says EMIT PANES, and FILE has a name a line, any 1 to 255 bytes:

  tail -n +2 sums.wsm > text.wsm
  printf 'a\\nx, y\\n' > names
  printf 'r,a,5,7\\nr,b,9,3\\nw,60\\n' | wsm run --keys names text.wsm

writes

  refused,2,UnknownKey
  pane,on_time,a,0,60,1,7
  end,3,1,0,1,1

With --new-keys each name that comes in a record is a key from then on, up to --most-keys N of them:

  printf 'r,a,5,7\\nr,b,9,3\\nw,60\\n' | wsm run --keys names --new-keys text.wsm

writes

  pane,on_time,a,0,60,1,7
  pane,on_time,b,0,60,1,3
  end,3,2,0,0,2

and tells `new keys: 1` on standard error. Keys have the order of FILE, and then that in which they came.
`wsm verify --keys` tells what so many keys take.";

/// What the command `compile` does.
pub const COMPILE: &str = "Writes the program of a query to a file, without judging it.";

/// What the query's file is.
pub const QUERY: &str = "The file of the query's text";

/// What is written.
pub const OUT: &str = "The file that is written";

/// An example of the command `compile`.
pub const COMPILE_EXAMPLE: &str = "With the query of `wsm --help`,

  wsm compile sums.wsm sums.bin
  printf 'r,a,5,7\\nr,a,59,3\\nw,60\\n' | wsm run --program sums.bin

writes what the query does:

  pane,on_time,a,0,60,2,10
  end,3,2,0,0,1";

/// What the command `migrate` does.
pub const MIGRATE: &str = "Writes a program to a file in the newest version, without judging it.";

/// An example of the command `migrate`.
pub const MIGRATE_EXAMPLE: &str = "With the query of `wsm --help`,

  wsm compile sums.wsm sums.bin
  wsm migrate sums.bin new.bin
  wsm verify new.bin

writes

  accepted,5,4,6

A program of version 1, which an earlier `wsm compile` wrote, becomes one of version 2 that does
the same. One of version 2 is written as it is.";

/// What the command `verify` does.
pub const VERIFY: &str =
    "Tells whether a program is accepted, and what it may cost, and whether a source fits it.";

/// What the option for a source that is judged says.
pub const FITS: &str = "The file of a source, to tell whether it fits the query";

/// What the program's file is.
pub const PROGRAM: &str = "The file of the program";

/// What the flag for a query says.
pub const IS_QUERY: &str = "PROGRAM is the text of a query";

/// What the flag `--json` says.
pub const IS_JSON: &str = "Write what tools may ask, as JSON";

/// What is judged.
pub const PROGRAM_OR_QUERY: &str = "The file of the program, or of the query's text";

/// An example of the command `verify`.
pub const VERIFY_EXAMPLE: &str = "With the query of `wsm --help`,

  wsm compile sums.wsm sums.bin
  wsm verify sums.bin

writes

  accepted,5,4,6

and so does `wsm verify --query sums.wsm`, which makes no file. A record takes at most 5
instructions and a pane 4, and 6 panes are held at most. Of a program that is not accepted the
first fault is told, as `rejected,fire,2,MayDivideByZero`.

With the source of `wsm run --help`,

  wsm verify --query --from log.toml sums.wsm

writes the same line, since the source and the query fit each other. Of a source that doesn't fit
the first fault is told on standard error, and the status is 3.

With the text of `wsm run --help`, which has no KEYS clause,

  wsm verify --keys 50000 text.wsm

writes

  parts,50,1000,3000
  bytes,165107200

50000 keys are run in 50 parts of 1000, each of which holds at most 3000 panes, and take at most so
many bytes.";

/// What the command `explain` does.
pub const EXPLAIN: &str = "Lists a program, and tells whether it is accepted.";

/// An example of the command `explain`.
pub const EXPLAIN_EXAMPLE: &str = "With the query of `wsm --help`,

  wsm compile sums.wsm sums.bin
  wsm explain sums.bin

writes

  where 0 PUSHB 1
  where 1 RET
  update 0 FIELD 0
  update 1 FOLD 0
  update 2 RET
  fire 0 COUNT
  fire 1 ACC 0
  fire 2 PUSHB 1
  fire 3 RET
  accepted,5,4,6

and so does `wsm explain --query sums.wsm`, which makes no file. With --json

  wsm explain --json --query sums.wsm

writes one line with what tools may ask: the keys, the fields, the clock, the windows, the columns
with their places and how they add up, the code, what it needs, and the fault where there is one.";

/// What the command `deal` does.
pub const DEAL: &str =
    "Deals rows to parts by their keys, so that a query over many keys runs as several.";

/// What the flag for a clause says.
pub const IS_CLAUSE: &str = "OUT is the number of a part, whose KEYS clause is written";

/// What the file of the keys is.
pub const KEYS: &str = "The file of the keys, one a line";

/// What the number of parts is.
pub const PARTS: &str = "How many parts there are";

/// What the parts' files are.
pub const PARTS_OUT: &str = "What the names of the parts' files begin with: OUT0, OUT1, ..";

/// An example of the command `deal`.
pub const DEAL_EXAMPLE: &str = "The rows of four keys are dealt to two parts:

  printf '%s\\n' a b c d > keys
  printf 'r,a,5,7\\nr,d,59,3\\nw,60\\n' | wsm deal keys 2 part
  cat part1

writes

  r,d,59,3
  w,60

since part 1 has the keys c and d. A watermark goes to each part, and what is no event or of no
known key to part 0. The clause of a part's query is written by its number:

  wsm deal --keys-of keys 2 1

writes

  KEYS c, d;";

/// What the command `rows` does.
pub const LOG_ROWS: &str =
    "Writes the rows that a source reads of a log, one for each line, as `wsm run` takes them.";

/// What the source's file is.
pub const SOURCE: &str = "The file of the source by which the log's lines are read";

/// What the log's file is.
pub const LOG: &str = "The file of the log; standard input where it is left out or `-`";

/// An example of the command `rows`.
pub const LOG_ROWS_EXAMPLE: &str =
    "With the query of `wsm --help`, the source and the log of `wsm run --help`,

  wsm rows log.toml sums.wsm log.json

writes

  r,a,5,7
  r,a,59,3
  r,b,120,1

A line is one row, always, so watermarks aren't among them. A key that isn't declared is an empty
cell, and a line that gives no row is told by a word:

  echo '{\"customer\":\"a\",\"n\":7}' | wsm rows log.toml sums.wsm

writes

  unread,NoTime";

/// What the command `keep` does.
pub const KEEP: &str =
    "Cuts rows down to those that a run needs to go on: what it writes from there on is the same.";

/// What the option for the lines that were taken says.
pub const TAKEN: &str =
    "Rows are cut only whose lines are among the first LINES of all; else each row is";

/// What the option for the most bytes says.
pub const MOST: &str = "Rows are cut only among the first BYTES bytes; else all may be";

/// What the file of the rows that are cut is.
pub const KEPT_ROWS: &str =
    "The file of the rows, which is replaced; where it is left out or `-`, standard input is cut to standard output";

/// An example of the command `keep`.
pub const KEEP_EXAMPLE: &str = "With the query of `wsm --help`,

  printf 'r,a,5,7\\nr,a,59,3\\nw,60\\nr,b,70,1\\nw,80\\n' | wsm keep sums.wsm

writes

  kept,5,1,4,1,998,1646213666
  w,60
  r,b,70,1
  w,80

since the window of the first two records was dropped at 70. The first row says that 5 rows wrote
1 line, and that 4 rows stand for them, this one too, for which a run writes 1 line of its own: it
refuses the first row. So whoever takes the lines passes over 1, and the next one is line 2 of all. In
a line `refused,ROW,WORD` behind them ROW is greater by 5 - 4 over all rows. With RECORDS 998 as many
records are taken in all as without the cut; else RECORDS counts anew. The last number is a sum of
the query. A file that was cut may be cut again, for the same query.

A file is cut in place where it becomes smaller: `wsm keep sums.wsm rows.csv`. The new one is written
beside, synced and renamed, so a kill leaves the old file or the new one. It isn't cut while somebody
holds a lock (flock) on ROWS.lock: whoever appends to ROWS does, or is stopped before. Who reads it
begins anew. A last line without its line feed stays as it is.";

/// What the command `watermarks` does.
pub const WATERMARKS: &str =
    "Puts watermarks among rows, where the clocks of their keys have agreed on a time.";

/// What the option for how many clocks have to agree says.
pub const AGREE: &str =
    "How many keys have to agree on a time, 1 to 1000; 1 where it is left out, which believes each";

/// What the option for how far behind the watermark stays says.
pub const BOUND: &str = "How far behind the time that they agree on a watermark stays";

/// What the option for the steps of watermarks says.
pub const STEP: &str = "Watermarks are multiples of STEP; 1 where it is left out";

/// What the option for how long a key is heard says.
pub const FORGET: &str =
    "A key is heard while its last record is among the last N of all; 1000000 where it is left out";

/// What the option for how many records may wait says.
pub const ROOM: &str = "How many records may wait; 1000 where it is left out";

/// What the option for the source of the watermarks says.
pub const MARK_SOURCE: &str =
    "The source of QUERY of which watermarks are written, where it has SOURCES";

/// What the option for the cell of the identifier says.
pub const ONCE: &str =
    "Cell CELL of a record, from 4 on, is its identifier: one that came before is left out, and none goes on with it";

/// What the flag for the last watermark says.
pub const LAST: &str =
    "Ends the rows with a watermark that completes all windows; rows that go on must not have it";

/// An example of the command `watermarks`.
pub const WATERMARKS_EXAMPLE: &str = "With the query of `wsm --help`,

  printf 'r,a,5,7\\nr,b,59,3\\nr,a,64,1\\nr,b,62,1\\n' | wsm watermarks --agree 2 --bound 2 --step 5 sums.wsm

writes

  r,a,5,7
  r,b,59,3
  w,55
  r,a,64,1
  w,60
  r,b,62,1

Each key is a clock, which shows the time of its last record. A watermark stands BOUND behind the
latest time to which K clocks have come, down to a multiple of STEP, in front of the record that raises
it. So fewer than K clocks that are wrong at a time move none. A record that is more than SKEW ahead of
the watermark waits until it is near, and goes on then as a row anew; at the end all go. SKEW must be
BOUND + STEP - 1 or more.

Each line is one row: one that is no row goes on as it is, and as `unread` where it has a quote, or a
carriage return that doesn't end it, or is longer than 65,536 bytes. A line without a byte is left out.
A watermark among the rows goes on, and none that is lower is written behind it.

  printf 'r,a,5,x1,7\\nr,a,5,x1,7\\n' | wsm watermarks --bound 2 --once 4 sums.wsm

writes

  w,3
  r,a,5,7

An identifier is kept until a record of its time would be late by QUERY. A line that is no row goes on
without its cell too. At the end it tells on standard error how many lines were no rows, how many
records were late by QUERY, were left out, and waited until then, and where fewer than K keys speak.";

/// What the command `live` does.
pub const LIVE: &str =
    "Follows a log as it grows and is rotated, and hands out what a run over it writes, each line once by its number.";

/// What the folder of a live run is.
pub const DIR: &str = "The folder of the run, which is made where it isn't there";

/// What the log's file is.
pub const GROWING_LOG: &str =
    "The file of the log, which may be renamed, or copied and cut, as it grows; `-` for a source on standard input";

/// What the option for lost lines says.
pub const LOST: &str =
    "Where lines that were read are gone: `begin` goes on at the beginning of the log that is there";

/// What the option for the file of health says.
pub const HEALTH: &str =
    "The file of what the run has come to, for Prometheus; DIR/health where it is left out";

/// What the option for patience says.
pub const PATIENCE: &str =
    "A log that was renamed has ended once nothing came for so many seconds; 3 where it is left out";

/// What the option for cuts says.
pub const CUT: &str =
    "Cut the journal once it has grown by so many bytes, or an hour has gone; 16777216 where it is left out";

/// What the flag for the position says.
pub const POSITION: &str =
    "Write the position up to which DIR has all, and nothing else; DIR stands alone then";

/// An example of the command `live`.
pub const LIVE_EXAMPLE: &str =
    "With the query of `wsm --help`, the source and the log of `wsm run --help`,

  wsm live state --from log.toml sums.wsm log.json

writes

  live,3f6d0c1be2a94758,2034859011,0
  1,2178106104,pane,on_time,a,0,60,2,10

and goes on, until it is killed. The first line has the name that was drawn for DIR, the sum of the query
and the source, and the number of the line in front of the next one. A line is NUMBER,SUM,LINE: NUMBER
counts from 1 on, and SUM is the CRC-32 of all lines up to this one. They are the lines of
`wsm run --from` over all of the log, but for its end row.

A line of the log is on the disk in DIR before anything is written for it. Killed at any moment, also by
a power cut, and begun anew, it writes the lines with their numbers again, so who takes them passes over
those that he has. He may tell in DIR/taken what he has surely on his disk, as NAME,NUMBER,SUM of the
last line: he writes it beside, as DIR/taken.next, and renames it. Once all who tell so have all lines,
DIR is cut in its place to what lines to come need, by the time and the size of --cut: what was taken
isn't written again then, and the first line tells how many those are.

A source may write the lines on standard input, where LOG is `-`: a broker's, or a table's. It writes

  from,POSITION
  :LINE
  at,LINES,POSITION

first what `wsm live DIR --position` printed, then each line behind a colon, and now and then where it
stands: LINES is how many came since the last `at`, and POSITION bytes that it alone understands. What an
`at` stands behind is taken. At the end of standard input it ends with 0, and lines without an `at` come
again from their source.

It ends by itself with status 5, 6, 7 or 8, behind which it may be begun anew, or with 2, 3, 4 or 9,
where somebody must look: DIR is of another query or source, or is damaged, or lines that were read
are gone from the log, or are in a file that is packed.";
