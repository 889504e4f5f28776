//! How a live run ends.

use std::alloc::{AllocError, AllocFailed};
use std::fmt;
use wsm_fed::{Broken, FedFault};
use wsm_follow::{FolderFault as LogFault, Loss, Lost};
use wsm_live::LiveError;
use wsm_live_files::{FileFault, FolderFault};

/// How a live run ends. Its text says what is the matter, and how it is mended.
#[derive(Debug, Drop)]
pub enum LiveStop {
    /// There was no memory.
    Memory,
    /// Another process holds DIR.
    Held,
    /// A call on a file of DIR failed.
    File(FileFault),
    /// The log, or the folder that it lies in, couldn't be read or synced.
    Log,
    /// Standard output takes no line more.
    Out,
    /// The path of the log names no file.
    NoLog,
    /// A record of the journal isn't whole behind which another is.
    Damaged,
    /// DIR is of another query or source.
    Other,
    /// No number is behind that of the journal's last record.
    Full,
    /// The journal's last position is none of a log.
    NoPosition,
    /// Standard input couldn't be read.
    Input,
    /// What the source writes on standard input can't be taken.
    Fed(FedFault),
    /// Lines that were read are gone from the log.
    Lost(Lost),
    /// The log goes on in a file of this name, which is packed.
    Packed(Vec<u8>),
    /// What a sink told by the file of this name can't be.
    Sink(String, SinkFault),
}

/// Why what a sink told can't be.
#[derive(Clone, Copy, Debug, PartialEq, Eq)]
pub enum SinkFault {
    /// It isn't a name, a count and a sum.
    NoText,
    /// It is of another DIR.
    OtherRun,
    /// It has more lines than were handed out.
    Ahead,
    /// It has fewer lines than are cut from the journal, so those that it lacks can't be handed out.
    Behind,
    /// Its lines are others.
    OtherLines,
}

impl fmt::Display for SinkFault {
    fn fmt<W: fmt::Write>(&self, f: &mut fmt::Formatter<W>) -> fmt::Result {
        f.write_str(match self {
            SinkFault::NoText =>
                "isn't NAME,COUNT,SUM: have the sink write it beside and rename it",
            SinkFault::OtherRun =>
                "is of another DIR: give the sink of this one a table of its own, or that DIR",
            SinkFault::Ahead =>
                "has more lines than were handed out: DIR is older than what the sink took, so put the newer one back",
            SinkFault::Behind =>
                "lacks lines that are cut from DIR/journal: its table has lost rows, or is another one, so put the table back, or begin anew with another DIR",
            SinkFault::OtherLines =>
                "has other lines than were handed out: give the sink of this DIR a table of its own",
        })
    }
}

// What is said of lines that are gone.
fn said(loss: Loss) -> &'static str {
    match loss {
        Loss::Gone => "its file is gone",
        Loss::Shorter => "its file is shorter",
        Loss::Other => "its file has other bytes",
    }
}

// What is said of a line of the source that breaks the protocol, behind its number.
fn put_broken<W: fmt::Write>(
    broken: Broken,
    number: u64,
    f: &mut fmt::Formatter<W>,
) -> fmt::Result {
    match broken {
        Broken::NoFrom => write!(f, "line {number} of standard input isn't from,POSITION"),
        Broken::NoLine => write!(
            f,
            "line {number} of standard input is neither :LINE nor at,LINES,POSITION"
        ),
        Broken::Lines(said, came) => write!(
            f,
            "line {number} of standard input says that {said} lines came since the last at, and {came} did"
        ),
        Broken::Position => write!(
            f,
            "line {number} of standard input has a POSITION of more than 1024 bytes"
        ),
        Broken::Large => write!(
            f,
            "line {number} of standard input: 16 MiB came without an at,LINES,POSITION"
        ),
    }
}

impl LiveStop {
    // The text of one that is said by a sentence alone.
    fn sentence(&self) -> &'static str {
        match self {
            LiveStop::Memory => "out of memory",
            LiveStop::Held => "DIR is held by another process: DIR/lock",
            LiveStop::Log => "LOG or its folder can't be read or synced",
            LiveStop::Out => "write failed",
            LiveStop::NoLog => "LOG names no file",
            LiveStop::Damaged =>
                "DIR/journal is damaged, a record isn't whole behind which another is: put back a copy of DIR",
            LiveStop::Other =>
                "DIR is of another query, source or kind of LOG: take these again, or another DIR",
            LiveStop::Input => "standard input can't be read",
            LiveStop::Fed(FedFault::Memory) => "out of memory",
            LiveStop::Fed(FedFault::Other) =>
                "the source goes on from another position than DIR's: have it ask wsm live DIR --position again",
            LiveStop::Full => "DIR/journal has no number left: take another DIR",
            LiveStop::NoPosition =>
                "DIR/journal's last position is none of a log: put back a copy of DIR",
            _ => "",
        }
    }
}

impl fmt::Display for LiveStop {
    fn fmt<W: fmt::Write>(&self, f: &mut fmt::Formatter<W>) -> fmt::Result {
        match self {
            LiveStop::File(fault) => write!(f, "{fault}"),
            LiveStop::Fed(FedFault::Line(number, broken)) => put_broken(*broken, *number, f),
            LiveStop::Lost(lost) => {
                let (why, read, there) = (said(lost.loss), lost.read, lost.there);
                write!(
                    f,
                    "LOG has lost {read} bytes that were read, {why}: put it back, or --lost begin reads the {there} bytes that are there"
                )
            }
            LiveStop::Packed(name) => {
                let name = str::from_utf8(name).unwrap_or("a file");
                write!(f, "LOG goes on in {name}, which is packed: unpack it there")
            }
            LiveStop::Sink(file, fault) => write!(f, "DIR/{file} {fault}"),
            other => f.write_str(other.sentence()),
        }
    }
}

impl From<AllocError> for LiveStop {
    fn from(_error: AllocError) -> LiveStop {
        LiveStop::Memory
    }
}

impl<T: Drop> From<AllocFailed<T>> for LiveStop {
    fn from(_error: AllocFailed<T>) -> LiveStop {
        LiveStop::Memory
    }
}

impl From<FolderFault> for LiveStop {
    fn from(fault: FolderFault) -> LiveStop {
        match fault {
            FolderFault::Held => LiveStop::Held,
            FolderFault::Memory => LiveStop::Memory,
            FolderFault::Failed(fault) => LiveStop::File(fault),
        }
    }
}

impl From<LogFault> for LiveStop {
    fn from(fault: LogFault) -> LiveStop {
        match fault {
            LogFault::Failed => LiveStop::Log,
            LogFault::Memory => LiveStop::Memory,
        }
    }
}

/// How a live run ends by an error of its journal, where a call of its files has failed so.
pub fn stop_of(error: LiveError, fault: Option<FileFault>) -> LiveStop {
    match (error, fault) {
        (LiveError::Failed, Some(fault)) => LiveStop::File(fault),
        (LiveError::Memory | LiveError::Failed, _) => LiveStop::Memory,
        (LiveError::Full, _) => LiveStop::Full,
        (LiveError::Damaged, _) => LiveStop::Damaged,
        (LiveError::Other, _) => LiveStop::Other,
    }
}
