//! How a job ended early: what is told of it, and the status.

use std::alloc::{AllocError, AllocFailed};
use std::fmt;
use wsm_ends::{KeyedLogStop, KeyedStop, end_of_log};
use wsm_fed::FedFault;
use wsm_inputs::{End, InputRefusal, status_of};
use wsm_kept::KeepEnd;
use wsm_live_loop::LiveStop;
use wsm_replace::ReplaceFault;
use wsm_source::SourceRefusal;
use wsm_tokens::Position;

/// The words were refused.
pub const REFUSED_WORDS: u8 = 2;

// A source was refused, as a query's text may be.
const REFUSED_SOURCE: u8 = 3;

// A query that isn't run over any number of keys.
const REFUSED_QUERY: u8 = 3;

// Another one holds the file of the rows, or the folder of a live run: again after a pause.
const HELD_ROWS: u8 = 8;

// The rows or the folder aren't those of the query, or are damaged: somebody must look.
const UNFIT_ROWS: u8 = 9;

/// How a job ended early. Its text is what the program prints behind its name.
#[derive(Drop)]
pub enum Stop {
    /// Its source is refused; nothing was written.
    Source(SourceRefusal),
    /// Its words are no text, or don't go together; nothing was made or written.
    Words(WordsFault),
    /// Its rows aren't cut.
    Rows(RowsFault),
    /// A query isn't run over any number of keys; nothing was written.
    Keyed(KeyedStop),
    /// A log isn't run over by any number of keys; nothing was written.
    KeyedLog(KeyedLogStop),
    /// Its live run ends.
    Live(LiveStop),
    /// As a run of a query or a program ends, or because the input is none.
    End(End),
}

impl Stop {
    /// The exit status of the program.
    pub fn status(&self) -> u8 {
        match self {
            Stop::Source(SourceRefusal::Fault(_)) => REFUSED_SOURCE,
            Stop::Source(SourceRefusal::Memory) => status_of(End::Memory),
            Stop::Words(_) => REFUSED_WORDS,
            Stop::Rows(RowsFault::Held) => HELD_ROWS,
            Stop::Rows(_) => UNFIT_ROWS,
            Stop::Keyed(_) => REFUSED_QUERY,
            Stop::KeyedLog(_) => REFUSED_SOURCE,
            Stop::Live(stop) => status_of_live(stop),
            Stop::End(end) => status_of(*end),
        }
    }
}

impl fmt::Display for Stop {
    fn fmt<W: fmt::Write>(&self, f: &mut fmt::Formatter<W>) -> fmt::Result {
        match self {
            Stop::Source(refusal) => write!(f, "{refusal}"),
            Stop::Words(fault) => write!(f, "{fault}"),
            Stop::Rows(fault) => write!(f, "{fault}"),
            Stop::Keyed(stop) => write!(f, "{stop}"),
            Stop::KeyedLog(stop) => write!(f, "{stop}"),
            Stop::Live(stop) => write!(f, "{stop}"),
            Stop::End(end) => write!(f, "{end}"),
        }
    }
}

// The exit status of a live run that ends so.
fn status_of_live(stop: &LiveStop) -> u8 {
    match stop {
        LiveStop::Memory => status_of(End::Memory),
        LiveStop::Fed(FedFault::Memory) => status_of(End::Memory),
        LiveStop::NoLog => REFUSED_WORDS,
        LiveStop::Held | LiveStop::Fed(FedFault::Other) => HELD_ROWS,
        LiveStop::Log | LiveStop::Input => status_of(End::ReadFailed),
        LiveStop::File(fault) if fault.call.is_reading() => status_of(End::ReadFailed),
        LiveStop::File(_) | LiveStop::Out => status_of(End::WriteFailed),
        _ => UNFIT_ROWS,
    }
}

/// Why words that are taken one by one don't go together.
#[derive(Clone, Copy)]
pub enum WordsFault {
    /// One is no text.
    NoText,
    /// The keys of a part are asked for, and rows are named.
    RowsOfKeys,
    /// The file of the rows is that of a part.
    RowsAsPart(usize),
    /// The file of the keys is that of a part.
    KeysAsPart(usize),
    /// An option takes a number, and has none.
    NoNumber(&'static str),
    /// `--once` has no number of a cell in which an identifier may stand.
    NoCell,
    /// No clocks are as the words say, or the query's SKEW is too small for them.
    NoClocks,
    /// The query has sources and none of them is named, or one is named that it hasn't.
    NoSource,
    /// `--lost` has another word than `begin`: where lines are gone a run goes on nowhere else.
    NoPlace,
    /// A live run wants a source, a query and a log, and one that tells its position none of them.
    NoLive,
    /// `--lost` or `--patience` goes with standard input, which nobody renames and which loses no lines.
    NoFile,
    /// `--new-keys` or `--most-keys` goes without a file of names.
    NoNames,
    /// `--keys` goes with the bytes of a program, which has its keys.
    NotNamed,
    /// `--most-keys` goes without `--new-keys`.
    MostOfNone,
    /// `verify` has both `--keys` and `--from`: a source is judged for a query with its keys.
    KeysOfSource,
}

impl fmt::Display for WordsFault {
    fn fmt<W: fmt::Write>(&self, f: &mut fmt::Formatter<W>) -> fmt::Result {
        match self {
            WordsFault::NoText => f.write_str("a word is not UTF-8"),
            WordsFault::RowsOfKeys => f.write_str("--keys-of takes no ROWS"),
            WordsFault::RowsAsPart(part) => write!(f, "ROWS is the file of part {part}"),
            WordsFault::KeysAsPart(part) => write!(f, "KEYS is the file of part {part}"),
            WordsFault::NoNumber(option) => write!(f, "{option} takes a number"),
            WordsFault::NoCell => f.write_str("--once takes the number of a cell, from 4 on"),
            WordsFault::NoClocks => f.write_str(
                "K is 1 to 1000, STEP 1 or more, --room at most 1000000, and SKEW at least BOUND + STEP - 1",
            ),
            WordsFault::NoSource => f.write_str(
                "--source names one of the query's SOURCES, and is left out where it has none",
            ),
            WordsFault::NoPlace => f.write_str("--lost takes the word begin"),
            WordsFault::NoLive => {
                f.write_str("live takes --from SOURCE DIR QUERY LOG, or DIR --position")
            }
            WordsFault::NoFile => {
                f.write_str("--lost and --patience are for a LOG that is a file")
            }
            WordsFault::NoNames => f.write_str("--new-keys and --most-keys are for --keys"),
            WordsFault::NotNamed => f.write_str("--keys takes the text of a query"),
            WordsFault::KeysOfSource => f.write_str("verify takes --keys or --from"),
            WordsFault::MostOfNone => f.write_str("--most-keys is for --new-keys"),
        }
    }
}

/// Why rows aren't cut.
#[derive(Clone, Copy)]
pub enum RowsFault {
    /// Another one holds the lock of the file.
    Held,
    /// A row has a quote.
    Quote,
    /// The first row begins as a head does, and is none.
    BadHead,
    /// They were cut for another query.
    OtherQuery,
    /// Those behind the head aren't those that it speaks of.
    OtherRows,
    /// The rows of the lines that weren't taken are gone.
    Gone,
    /// They write fewer lines than were taken.
    FewerLines,
    /// They were cut, and somebody who held no lock wrote to the file meanwhile: what came was added.
    Written,
}

impl fmt::Display for RowsFault {
    fn fmt<W: fmt::Write>(&self, f: &mut fmt::Formatter<W>) -> fmt::Result {
        f.write_str(match self {
            RowsFault::Held => "ROWS is being written: ROWS.lock is held",
            RowsFault::Quote =>
                "ROWS has a quote, so where its rows end can't be told by its lines",
            RowsFault::BadHead => "the first row is none that keep wrote",
            RowsFault::OtherQuery => "the rows were kept for another query",
            RowsFault::OtherRows => "the rows behind the first one aren't those that it speaks of",
            RowsFault::Gone => "the rows of lines that weren't taken are no longer there",
            RowsFault::FewerLines => "more lines were taken than these rows write: they are others",
            RowsFault::Written =>
                "ROWS was written while it was cut: stop whoever writes it, or have it hold ROWS.lock",
        })
    }
}

impl From<End> for Stop {
    fn from(end: End) -> Stop {
        Stop::End(end)
    }
}

impl From<KeyedLogStop> for Stop {
    fn from(stop: KeyedLogStop) -> Stop {
        match stop {
            KeyedLogStop::End(end) => Stop::End(end_of_log(end)),
            stop => Stop::KeyedLog(stop),
        }
    }
}

impl From<KeyedStop> for Stop {
    fn from(stop: KeyedStop) -> Stop {
        match stop {
            KeyedStop::End(end) => Stop::End(without_places(end)),
            stop => Stop::Keyed(stop),
        }
    }
}

// The end of a text that stood behind the line of a clause of places, as of the text itself.
fn without_places(end: End) -> End {
    match end {
        End::Refused(InputRefusal::Text(fault, Position { line, column })) => {
            let line = line.saturating_sub(1);
            End::Refused(InputRefusal::Text(fault, Position { line, column }))
        }
        end => end,
    }
}

impl From<SourceRefusal> for Stop {
    fn from(refusal: SourceRefusal) -> Stop {
        Stop::Source(refusal)
    }
}

impl From<LiveStop> for Stop {
    fn from(stop: LiveStop) -> Stop {
        Stop::Live(stop)
    }
}

impl From<KeepEnd> for Stop {
    fn from(end: KeepEnd) -> Stop {
        match end {
            KeepEnd::BadHead => Stop::Rows(RowsFault::BadHead),
            KeepEnd::OtherQuery => Stop::Rows(RowsFault::OtherQuery),
            KeepEnd::OtherRows => Stop::Rows(RowsFault::OtherRows),
            KeepEnd::Gone => Stop::Rows(RowsFault::Gone),
            KeepEnd::FewerLines => Stop::Rows(RowsFault::FewerLines),
            KeepEnd::ReadFailed => Stop::End(End::ReadFailed),
            KeepEnd::Memory => Stop::End(End::Memory),
            KeepEnd::WriteFailed => Stop::End(End::WriteFailed),
        }
    }
}

impl From<ReplaceFault> for Stop {
    fn from(fault: ReplaceFault) -> Stop {
        match fault {
            ReplaceFault::Held => Stop::Rows(RowsFault::Held),
            ReplaceFault::Memory => Stop::End(End::Memory),
            ReplaceFault::ReadFailed => Stop::End(End::ReadFailed),
            ReplaceFault::WriteFailed => Stop::End(End::WriteFailed),
        }
    }
}

impl From<AllocError> for Stop {
    fn from(_error: AllocError) -> Stop {
        Stop::End(End::Memory)
    }
}

impl<T: Drop> From<AllocFailed<T>> for Stop {
    fn from(_error: AllocFailed<T>) -> Stop {
        Stop::End(End::Memory)
    }
}
