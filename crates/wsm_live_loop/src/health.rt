//! What a live run has come to, as monitors read it.

use std::alloc::{AllocError, Global};
use wsm_metrics::{Measured, Metric, metrics_text};
use wsm_row_counts::Counts;

/// The numbers of a live run.
#[derive(Clone, Copy)]
pub struct Health {
    /// Lines of the log that were read since the start.
    pub lines: u64,
    /// Lines that were handed out, and of these the ones that the sink which is furthest behind doesn't have.
    pub handed: u64,
    pub untaken: u64,
    /// Bytes of the log's file that aren't in the journal.
    pub behind: u64,
    /// Seconds since a line came.
    pub quiet: u64,
    /// Bytes of the journal.
    pub journal: u64,
    /// When the journal was synced last, when it was cut last, 0 where it wasn't since the start, and when these numbers were
    /// taken, in seconds since 1970.
    pub synced: u64,
    pub cut: u64,
    pub now: u64,
}

impl Health {
    /// Its text, with what is counted by who takes the lines, and of the lines that were handed out.
    ///
    /// # Errors
    ///
    /// Memory was refused.
    pub fn text<T: Measured>(
        &self,
        alloc: Global,
        taker: &T,
        counts: &Counts,
    ) -> Result<Vec<u8>, AllocError> {
        let mut numbers = Vec::from_slice(alloc, &self.of_log())?;
        numbers.extend_from_slice(&self.of_journal())?;
        numbers.extend_from_slice(&self.of_sinks())?;
        taker.measure(&mut numbers)?;
        let mut text = metrics_text(alloc, &numbers)?;
        counts.kinds.write(
            "wsm_live_rows_total",
            "Lines that were handed out, by their first word.",
            &mut text,
        )?;
        counts.refused.write(
            "wsm_live_refused_total",
            "Rows that were refused, by why.",
            &mut text,
        )?;
        Ok(text)
    }

    // What was read of the log.
    fn of_log(&self) -> [Metric<'static>; 3] {
        [
            Metric::counter(
                "wsm_live_lines_total",
                "Lines of the log that were read since the start.",
                self.lines,
            ),
            Metric::gauge(
                "wsm_live_behind_bytes",
                "Bytes of the log's file that are not in the journal.",
                self.behind,
            ),
            Metric::gauge(
                "wsm_live_quiet_seconds",
                "Seconds since a line came.",
                self.quiet,
            ),
        ]
    }

    // What is kept, and when.
    fn of_journal(&self) -> [Metric<'static>; 4] {
        [
            Metric::gauge(
                "wsm_live_journal_bytes",
                "Bytes of the journal.",
                self.journal,
            ),
            Metric::gauge(
                "wsm_live_synced_seconds",
                "When the journal was synced last, since 1970.",
                self.synced,
            ),
            Metric::gauge(
                "wsm_live_cut_seconds",
                "When the journal was cut last, since 1970.",
                self.cut,
            ),
            Metric::gauge(
                "wsm_live_health_seconds",
                "When these numbers were taken, since 1970.",
                self.now,
            ),
        ]
    }

    // What was handed out.
    fn of_sinks(&self) -> [Metric<'static>; 2] {
        [
            Metric::counter(
                "wsm_live_handed_total",
                "Lines that were handed out.",
                self.handed,
            ),
            Metric::gauge(
                "wsm_live_untaken_lines",
                "Lines that a sink has not told that it has.",
                self.untaken,
            ),
        ]
    }
}
