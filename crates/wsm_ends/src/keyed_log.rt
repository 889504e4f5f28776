//! How a run over a log by any number of names ends early.

use std::fmt;
use wsm_log_rows::LogEnd;

/// How a run over a log by any number of names ends early. Its text is what the program prints behind its name, but for [`LogEnd`],
/// which has none.
#[derive(Clone, Copy, Debug, PartialEq, Eq)]
pub enum KeyedLogStop {
    /// The query writes a stream, and no panes; nothing was written.
    Streams,
    /// The query says KEY, the name of a record's key; nothing was written.
    ReadsKey,
    /// The source has a table of its keys; nothing was written.
    KeyTable,
    /// The clocks of the source are those of its keys; nothing was written.
    KeyClocks,
    /// As a run over a log ends.
    End(LogEnd),
}

impl fmt::Display for KeyedLogStop {
    fn fmt<W: fmt::Write>(&self, f: &mut fmt::Formatter<W>) -> fmt::Result {
        match self {
            KeyedLogStop::Streams => f.write_str("--keys takes a query that says EMIT PANES"),
            KeyedLogStop::ReadsKey => {
                f.write_str("--keys takes a query without KEY: it is the first cell of each row")
            }
            KeyedLogStop::KeyTable => {
                f.write_str("--keys takes a source whose keys are named by their own text")
            }
            KeyedLogStop::KeyClocks => {
                f.write_str("--keys takes a source whose clocks are named, or that has none")
            }
            KeyedLogStop::End(_) => f.write_str("the log ended early"),
        }
    }
}

impl From<LogEnd> for KeyedLogStop {
    ghost use Rattle.std.specs.Prelude.{◌≡◌};
    ghost use Rattle.wsm_ends.specs.declared.keyed_log.KeyedLogStop.TheVariants as stops;

    ghost from_gives = { λ end stop. stop ≡ stops.End end };

    fn from(end: LogEnd) -> KeyedLogStop {
        KeyedLogStop::End(end)
    }
}
