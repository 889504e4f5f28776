//! The words of the program's command, and its help.
//!
//! [`command_of`] reads the words as `clap` means them, and answers the [`Job`] that they ask for, or
//! why they ask for none: they are wrong or ask for help or the version, and `clap`'s error has the text
//! to print, or memory ran out. [`number_of`] reads a word that is a number.
//!
//! ```rust
//! use wsm_words::{Job, command_of};
//!
//! let job = command_of(alloc, &["wsm", "compile", "sums.wsm", "sums.bin"])?;
//! if let Job::Compile(job) = &job {
//!     assert_eq!(rt; job.query.as_str(), "sums.wsm");
//!     assert_eq!(rt; job.out.as_str(), "sums.bin");
//! }
//! ```
#![tactic(auto)]

pub use job::{
    Agreement, CompileJob, DealJob, ExplainJob, Job, KeepJob, LiveJob, MigrateJob, Named, RowsJob,
    RunJob, VerifyJob, WatermarksJob,
};
pub use numbers::number_of;
pub use refusal::WordsRefusal;
pub use words::command_of;

mod arguments;
mod commands;
mod entries;
mod help;
mod job;
mod jobs;
mod numbers;
mod refusal;
mod version;
mod words;
