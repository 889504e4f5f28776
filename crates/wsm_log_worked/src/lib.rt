//! Examples of what no clause says of logs and live runs: that calls answer where memory is ample, what texts look like, what a
//! file system does. Each answer was worked out by hand, or stands in the formats. There are tests alone, in one crate, since
//! the tests of a crate prove it once more. Those of the loop of a live run stand beside it: they reach into it.
//!
//! - `description`, `source`: sources as they are told of
//! - `values`, `log`: numbers and times, the lines of a reader
//! - `watermarks`, `doubles`: clocks that tell one after the other, identifiers that are forgotten
//! - `sums`, `numbered`, `journal`: texts whose sums zlib made
//! - `fed`, `follow`, `live_files`: a log in a folder, over rotations, and what a live run keeps
//! - `live`: runs over a folder of which a call fails
//! - `metrics`, `row_counts`: what monitors read
#![tactic(auto)]

#[cfg(test)]
mod description;
#[cfg(test)]
mod doubles;
#[cfg(test)]
mod fed;
#[cfg(test)]
mod follow;
#[cfg(test)]
mod journal;
#[cfg(test)]
mod live;
#[cfg(test)]
mod live_files;
#[cfg(test)]
mod log;
#[cfg(test)]
mod metrics;
#[cfg(test)]
mod numbered;
#[cfg(test)]
mod row_counts;
#[cfg(test)]
mod source;
#[cfg(test)]
mod sums;
#[cfg(test)]
mod values;
#[cfg(test)]
mod watermarks;
