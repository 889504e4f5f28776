//! The jobs that words ask for.

/// What the words ask for. Files are told by their names.
#[derive(Debug)]
pub enum Job {
    /// To run a query or a program.
    Run(RunJob),
    /// To write the program of a query.
    Compile(CompileJob),
    /// To write a program in the newest version of the bytes.
    Migrate(MigrateJob),
    /// To judge a program, and whether a source fits it.
    Verify(VerifyJob),
    /// To list a program, and to judge it; or to tell of it as JSON.
    Explain(ExplainJob),
    /// To deal rows to parts, or to write the keys of a part.
    Deal(DealJob),
    /// To write the rows of a log.
    Rows(RowsJob),
    /// To cut rows down to those that a run needs to go on.
    Keep(KeepJob),
    /// To write rows with watermarks among them.
    Watermarks(WatermarksJob),
    /// To follow a log, and hand out lines with their numbers.
    Live(LiveJob),
}

// A job is let go in one call, however many parts it has.
impl Drop for Job {
    fn drop(self) {
        match self {
            Job::Run(_job) => {}
            Job::Compile(_job) => {}
            Job::Migrate(_job) => {}
            Job::Verify(_job) => {}
            Job::Explain(_job) => {}
            Job::Deal(_job) => {}
            Job::Rows(_job) => {}
            Job::Keep(_job) => {}
            Job::Watermarks(_job) => {}
            Job::Live(_job) => {}
        }
    }
}

/// To run a query, or a program, over rows, or over the lines of a log.
#[derive(Debug, Drop)]
pub struct RunJob {
    /// Whether the file has the bytes of a program, and not the text of a query.
    pub program: bool,
    /// The file of the source by which the lines of a log are read; none where rows are run over.
    pub from: Option<String>,
    /// The file of what is counted, written at the end; none where none is asked for.
    pub metrics: Option<String>,
    /// Which keys a query without a KEYS clause has.
    pub keys: Named,
    /// The file of the query or the program.
    pub query: String,
    /// The file of the rows or of the log; standard input where none is named, or `-`.
    pub rows: Option<String>,
}

/// Which keys a query without a KEYS clause has, each number as the words say it.
#[derive(Debug)]
pub struct Named {
    /// The file of the names; none where the query's text has the keys.
    pub file: Option<String>,
    /// Whether a name that comes in a record is a key from then on.
    pub takes_new: bool,
    /// How many there may be; as many as there is memory for where it isn't said.
    pub most: Option<String>,
}

impl Drop for Named {
    fn drop(self) {
        let Named {
            file: _,
            takes_new: _,
            most: _,
        } = self;
    }
}

/// To write the program of a query.
#[derive(Debug, Drop)]
pub struct CompileJob {
    /// The file of the query's text.
    pub query: String,
    /// The file that is written.
    pub out: String,
}

/// To write a program in the newest version of the bytes.
#[derive(Debug, Drop)]
pub struct MigrateJob {
    /// The file of the program.
    pub program: String,
    /// The file that is written.
    pub out: String,
}

/// To tell whether a program, or that of a query, is accepted, and whether a source fits it.
#[derive(Debug, Drop)]
pub struct VerifyJob {
    /// Whether the file has the text of a query, and not the bytes of a program.
    pub query: bool,
    /// The file of the source that is judged too; none where the program alone is judged.
    pub from: Option<String>,
    /// For how many keys a query without a KEYS clause is judged; none where the file has the keys.
    pub keys: Option<String>,
    /// The file of the program or the query.
    pub program: String,
}

/// To list a program, or that of a query, and to tell whether it is accepted; or to tell of it as JSON.
#[derive(Debug, Drop)]
pub struct ExplainJob {
    /// Whether what tools may ask is told, as JSON.
    pub json: bool,
    /// Whether the file has the text of a query, and not the bytes of a program.
    pub query: bool,
    /// The file of the program or the query.
    pub program: String,
}

/// To deal rows to parts by their keys, or to write the keys of a part as a clause.
#[derive(Debug, Drop)]
pub struct DealJob {
    /// Whether the keys of one part are written.
    pub keys_of: bool,
    /// The file of the keys.
    pub keys: String,
    /// The number of parts.
    pub parts: String,
    /// What the names of the parts' files begin with, or the number of the part whose keys are written.
    pub out: String,
    /// The file of the rows; standard input where none is named, or `-`.
    pub rows: Option<String>,
}

/// To write the rows that a source reads of a log, as a run over it takes them.
#[derive(Debug, Drop)]
pub struct RowsJob {
    /// Whether the file has the bytes of a program, and not the text of a query.
    pub program: bool,
    /// The file of the source by which the log's lines are read.
    pub source: String,
    /// The file of the query or the program.
    pub query: String,
    /// The file of the log; standard input where none is named, or `-`.
    pub rows: Option<String>,
}

/// To cut rows down to those that a run needs to go on.
#[derive(Debug, Drop)]
pub struct KeepJob {
    /// Whether the file has the bytes of a program, and not the text of a query.
    pub program: bool,
    /// How many lines were taken of what a run over the rows writes; all of them where it isn't said.
    pub taken: Option<String>,
    /// How many bytes of the rows are looked at; all of them where it isn't said.
    pub most: Option<String>,
    /// The file of the query or the program.
    pub query: String,
    /// The file of the rows, which is replaced; standard input where none is named, or `-`.
    pub rows: Option<String>,
}

/// To write rows with watermarks among them.
#[derive(Debug, Drop)]
pub struct WatermarksJob {
    /// Whether the file has the bytes of a program, and not the text of a query.
    pub program: bool,
    /// By which agreement of clocks.
    pub agreement: Agreement,
    /// The source of which watermarks are written; none where the query has no sources.
    pub source: Option<String>,
    /// In which cell of a record, from 1 on, its identifier stands; none where records have none.
    pub once: Option<String>,
    /// Whether a watermark ends the rows that completes all windows.
    pub last: bool,
    /// The file of what is counted, written at the end; none where none is asked for.
    pub metrics: Option<String>,
    /// The file of the query or the program.
    pub query: String,
    /// The file of the rows; standard input where none is named, or `-`.
    pub rows: Option<String>,
}

/// By which agreement of clocks watermarks are written, each number as the words say it.
#[derive(Debug)]
pub struct Agreement {
    /// How many clocks have to agree.
    pub agree: Option<String>,
    /// How far behind the time that they agree on a watermark stays.
    pub bound: String,
    /// In which steps watermarks go.
    pub step: Option<String>,
    /// After how many records without one of its own a clock isn't heard.
    pub forget: Option<String>,
    /// How many records may wait.
    pub room: Option<String>,
}

impl Drop for Agreement {
    fn drop(self) {
        let Agreement {
            agree: _,
            bound: _,
            step: _,
            forget: _,
            room: _,
        } = self;
    }
}

/// To follow a log as it grows, and hand out lines with their numbers; or to tell how far that went.
#[derive(Debug, Drop)]
pub struct LiveJob {
    /// Whether the file has the bytes of a program, and not the text of a query.
    pub program: bool,
    /// The file of the source by which the lines are read; none is named to tell a position.
    pub from: Option<String>,
    /// Which keys a query without a KEYS clause has.
    pub keys: Named,
    /// Where to go on where lines that were read are gone; nowhere where it isn't said.
    pub lost: Option<String>,
    /// The file of what the run has come to; one in the folder where it isn't said.
    pub health: Option<String>,
    /// For how many seconds nothing comes to a log that has ended; some where it isn't said.
    pub patience: Option<String>,
    /// By how many bytes the journal grows until it is cut; some where it isn't said.
    pub cut: Option<String>,
    /// Whether the position is told up to which the folder has all.
    pub position: bool,
    /// The folder of the run.
    pub dir: String,
    /// The file of the query or the program; none is named to tell a position.
    pub query: Option<String>,
    /// The file of the log, or `-` for standard input; none is named to tell a position.
    pub log: Option<String>,
}
