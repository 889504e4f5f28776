//! What a live run is given.

use std::time::Duration;

/// What a live run is given, beside the run that takes its lines.
#[derive(Clone, Copy)]
pub struct Settings<'s> {
    /// The path of DIR.
    pub dir: &'s str,
    /// The path of the log.
    pub log: &'s str,
    /// The file that is written for monitors; `DIR/health` where there is none.
    pub health: Option<&'s str>,
    /// For how long nothing comes to a log that has ended.
    pub patience: Duration,
    /// Whether it goes on at the beginning of the log where lines that were read are gone.
    pub goes_on: bool,
    /// The sum of all that says what is written for lines.
    pub sum: u32,
    /// Of a line as many bytes are wanted.
    pub longest: usize,
    /// The journal is cut once it has grown by so many bytes since the last cut, or the start.
    pub cut: u64,
}
