//! The file of a source, with the files beside it that it names, and the names of any number of keys.
//!
//! A [`SourceFile`] is read once; [`SourceFile::bound`] says how the lines of a log are read for an accepted program, and by which clocks.
//! [`file_of_names`] says where names come from, [`names_in`] reads them, and [`most_of`] how many there may be.
#![tactic(auto)]

pub use names::{file_of_names, most_of, names_in};
pub use sources::{Bound, SourceFile, source_for};

mod names;
mod sources;
