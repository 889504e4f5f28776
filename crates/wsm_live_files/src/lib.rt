//! The folder of a live run in a file system: its lock, its journal, what sinks told, and its health.
//!
//! ```text
//! DIR/lock        held by the one process that writes here
//! DIR/journal     the records of the run; journal.next while they are written anew
//! DIR/taken*      what a sink has surely on its disk, by the sink
//! DIR/health      what the run has come to, renewed while it lasts
//! ```
//!
//! [`LiveFolder`] holds DIR and its lock. [`JournalFiles`] is the folder that a journal's calls go to. [`Taken`] is what a sink
//! told of the run of a [`RunName`].
//!
//! What a file has no clause can say: of these calls it is proved that they are safe and end. `trials/live` tries what
//! they do to files.
#![tactic(auto)]

pub use fault::{FileCall, FileFault, FolderFault};
pub use folder::{LiveFolder, put_health};
pub use journal_files::JournalFiles;
pub use run_name::RunName;
pub use taken::{Taken, Told};

mod fault;
mod folder;
mod journal_files;
mod run_name;
mod taken;
