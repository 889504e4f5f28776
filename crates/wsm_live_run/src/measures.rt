//! What is counted of the lines of a log, for monitors.

use crate::keyed_log_lines::KeyedLogLines;
use crate::log_lines::LogLines;
use std::alloc::AllocError;
use wsm_log_text::LogCounts;
use wsm_metrics::{Measured, Metric};
use wsm_turns::Heard;

impl Measured for LogLines {
    fn measure(&self, metrics: &mut Vec<Metric<'static>>) -> Result<(), AllocError> {
        let intake = self.intake();
        add_records(
            intake.mark(),
            intake.totals().late,
            intake.counts(),
            metrics,
        )
    }
}

impl Measured for KeyedLogLines {
    fn measure(&self, metrics: &mut Vec<Metric<'static>>) -> Result<(), AllocError> {
        let intake = self.intake();
        add_records(
            intake.mark(),
            intake.totals().late,
            intake.counts(),
            metrics,
        )?;
        metrics.extend_from_slice(&[
            Metric::gauge(
                "wsm_live_keys",
                "Keys that have a number.",
                intake.name_count() as u64,
            ),
            Metric::gauge(
                "wsm_live_new_keys",
                "Keys that came in records, and not from the file of keys.",
                self.new_names() as u64,
            ),
            Metric::gauge(
                "wsm_live_parts",
                "Parts of the keys that have an engine.",
                intake.part_count() as u64,
            ),
        ])
    }
}

// What the records come to.
fn add_records(
    mark: i64,
    late: u64,
    counts: LogCounts,
    metrics: &mut Vec<Metric<'static>>,
) -> Result<(), AllocError> {
    metrics.extend_from_slice(&[
        Metric::gauge(
            "wsm_live_watermark",
            "The watermark of the query, in its unit of time.",
            mark.unsigned_abs(),
        ),
        Metric::counter("wsm_live_late_total", "Records that were late.", late),
        Metric::counter(
            "wsm_live_doubled_total",
            "Records that were left out, since their identifier came before.",
            counts.doubles,
        ),
        Metric::counter(
            "wsm_live_silent_total",
            "Records that told no time, since their line names no clock or one more than there may be.",
            counts.silent,
        ),
    ])?;
    match counts.heard {
        Some(heard) => add_heard(heard, metrics),
        None => Ok(()),
    }
}

// What the clocks come to.
fn add_heard(heard: Heard, metrics: &mut Vec<Metric<'static>>) -> Result<(), AllocError> {
    metrics.extend_from_slice(&[
        Metric::gauge(
            "wsm_live_waiting_records",
            "Records that wait for the clocks.",
            heard.waiting as u64,
        ),
        Metric::gauge(
            "wsm_live_speaking_clocks",
            "Clocks that speak.",
            heard.voices as u64,
        ),
        Metric::gauge(
            "wsm_live_agreeing_clocks",
            "Clocks that have to agree on a time.",
            heard.agree as u64,
        ),
    ])
}
