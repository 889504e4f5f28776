//! How a run over any number of keys ends early.

use std::fmt;
use wsm_inputs::End;

/// How a run over any number of keys ends early. Its text is what the program prints behind its name.
#[derive(Clone, Copy, Debug, PartialEq, Eq)]
pub enum KeyedStop {
    /// The text has a KEYS clause; nothing was written.
    KeysClause,
    /// The text says KEY, the name of a record's key; nothing was written.
    ReadsKey,
    /// The query writes a stream, and no panes; nothing was written.
    Streams,
    /// As a run of a query ends. Lines are counted with the clause of places in front, which has the first.
    End(End),
}

impl fmt::Display for KeyedStop {
    fn fmt<W: fmt::Write>(&self, f: &mut fmt::Formatter<W>) -> fmt::Result {
        match self {
            KeyedStop::KeysClause => {
                f.write_str("--keys takes a query without a KEYS clause: leave it out")
            }
            KeyedStop::ReadsKey => {
                f.write_str("--keys takes a query without KEY: it is the first cell of each row")
            }
            KeyedStop::Streams => f.write_str("--keys takes a query that says EMIT PANES"),
            KeyedStop::End(end) => write!(f, "{end}"),
        }
    }
}

impl From<End> for KeyedStop {
    ghost use Rattle.std.specs.Prelude.{◌≡◌};
    ghost use Rattle.wsm_ends.specs.declared.keyed.KeyedStop.TheVariants as stops;

    ghost from_gives = { λ end stop. stop ≡ stops.End end };

    fn from(end: End) -> KeyedStop {
        KeyedStop::End(end)
    }
}
