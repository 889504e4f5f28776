//! Examples of what no clause says: that calls answer where memory is ample, what texts look like, whole
//! runs, and the words of a command. Each answer was worked out by hand or stands in the formats. There
//! are tests alone, in one crate, since the tests of a crate prove it once more.
//!
//! - `queries`, `compiling`: queries as they are printed, and what is evaluated of a compiled one
//! - `refusals`: the names of what refuses a schema
//! - `machine`: accepted sections on words
//! - `engine`: what records and watermarks cost, and what is held
//! - `rows`, `lines`: rows read, and what is written
//! - `runs`: rows through queries of each shape, mode and form, by their texts and by their programs
//! - `judging`: what is said of programs
//! - `devices`: what has been written where a device fails, or a row is read
//! - `tables`: the same rows through the list of sessions and through the ring of windows
//! - `words`: the words of a command
#![tactic(auto)]

#[cfg(test)]
mod compiling;
#[cfg(test)]
mod devices;
#[cfg(test)]
mod engine;
#[cfg(test)]
mod judging;
#[cfg(test)]
mod lines;
#[cfg(test)]
mod machine;
#[cfg(test)]
mod queries;
#[cfg(test)]
mod refusals;
#[cfg(test)]
mod rows;
#[cfg(test)]
mod runs;
#[cfg(test)]
mod tables;
#[cfg(test)]
mod words;
