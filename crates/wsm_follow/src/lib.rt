//! The whole lines of a log that grows, in turns, over rotations.
//!
//! A [`Follower`] goes on from a [`Position`]. A turn gives the lines of one read of 64 KiB, or one longer
//! line, and the position is behind them: its text is kept with what was made of the lines, and read back
//! after a restart. A line that hasn't ended isn't given. Where the log was renamed and has ended, a turn
//! goes on to the one that came next, by the order of their names ([`Listed`]); where it was copied and cut,
//! to the copy that has the bytes which were read, as far as their sums tell it. Where a packed file is
//! needed, or the bytes that were read are gone, the turn says so and stays.
//!
//! The folder is a [`Folder`]; [`LogFolder`] is that of a file system.
#![tactic(auto)]

pub use choice::Loss;
pub use file::FileId;
pub use folder::{Ended, Folder, FolderFault};
pub use follower::{Follower, Lost, Turn, beginning, first_beginning};
pub use log_folder::LogFolder;
pub use order::Listed;
pub use position::{Name, Position};

mod choice;
mod file;
mod folder;
mod follower;
pub mod laws;
mod log_folder;
mod names;
mod numbers;
mod order;
mod position;
mod reading;
mod sums;
