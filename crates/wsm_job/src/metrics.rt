//! What was counted, written to a file.

use crate::stop::Stop;
use std::alloc::{AllocError, Global};
use std::fs::File;
use std::rt::Files;
use wsm_log_text::LogCounts;
use wsm_metrics::{Metric, metrics_text};
use wsm_replace::put;
use wsm_row_counts::Lines;
use wsm_row_watermarks::Totals as RowTotals;
use wsm_semantics::Totals;
use wsm_turns::Heard;

/// What a run came to: the numbers of its last line, what of a log is counted beside them, and what is counted of the lines that
/// were written, where that was asked for.
pub struct Ran {
    pub totals: Totals,
    pub counts: Option<LogCounts>,
    pub lines: Option<Lines>,
}

// It is let go in one call, however many parts it has.
impl Drop for Ran {
    fn drop(self) {
        let Ran {
            totals: _,
            counts: _,
            lines: _,
        } = self;
    }
}

/// Writes what a run came to to a file, if one is named.
pub fn write_run<R: Files<File = File> + AllocGlobal>(
    rt: &R,
    file: Option<&String>,
    ran: &Ran,
) -> Result<(), Stop> {
    let Some(file) = file else {
        return Ok(());
    };
    let text = text_of_run(rt.alloc(), ran)?;
    Ok(put(rt, file.as_str(), &text)?)
}

/// Writes what was counted of rows with watermarks among them to a file, if one is named.
pub fn write_rows<R: Files<File = File> + AllocGlobal>(
    rt: &R,
    file: Option<&String>,
    totals: RowTotals,
) -> Result<(), Stop> {
    let Some(file) = file else {
        return Ok(());
    };
    let metrics = of_rows(rt.alloc(), totals)?;
    let text = metrics_text(rt.alloc(), &metrics)?;
    Ok(put(rt, file.as_str(), &text)?)
}

// The text of what a run came to.
fn text_of_run(alloc: Global, ran: &Ran) -> Result<Vec<u8>, AllocError> {
    let mut metrics = of_run(alloc, ran.totals)?;
    if let Some(counts) = ran.counts {
        add_counts(counts, &mut metrics)?;
    }
    let mut text = metrics_text(alloc, &metrics)?;
    if let Some(lines) = &ran.lines {
        add_lines(lines, &mut text)?;
    }
    Ok(text)
}

// The numbers of the last line of a run.
fn of_run(alloc: Global, totals: Totals) -> Result<Vec<Metric<'static>>, AllocError> {
    Vec::from_slice(
        alloc,
        &[
            lines(totals.rows),
            Metric::counter(
                "wsm_records_admitted_total",
                "Records that were admitted.",
                totals.admitted,
            ),
            late(totals.late),
            Metric::counter(
                "wsm_lines_refused_total",
                "Lines or rows that were refused, without the late ones.",
                totals.refused,
            ),
            Metric::counter("wsm_panes_total", "Panes that fired.", totals.panes),
        ],
    )
}

// What is counted of a log beside them.
fn add_counts(counts: LogCounts, metrics: &mut Vec<Metric<'static>>) -> Result<(), AllocError> {
    metrics.push(doubles(counts.doubles))?;
    metrics.push(Metric::counter(
        "wsm_records_silent_total",
        "Records that told no time, since their line names no clock or one more than there may be.",
        counts.silent,
    ))?;
    add_heard(counts.heard, metrics)
}

// What is counted of the lines that were written.
fn add_lines(lines: &Lines, text: &mut Vec<u8>) -> Result<(), AllocError> {
    let counts = lines.counts();
    counts.kinds.write(
        "wsm_written_total",
        "Lines that were written, by their first word.",
        text,
    )?;
    counts.refused.write(
        "wsm_refused_total",
        "Lines or rows that were refused, by why.",
        text,
    )
}

// What is counted of rows that are given watermarks.
fn of_rows(alloc: Global, totals: RowTotals) -> Result<Vec<Metric<'static>>, AllocError> {
    let mut metrics = Vec::from_slice(
        alloc,
        &[
            lines(totals.counts.lines),
            Metric::counter(
                "wsm_lines_unread_total",
                "Lines that are no rows.",
                totals.counts.unread,
            ),
            late(totals.late),
            doubles(totals.counts.doubles),
        ],
    )?;
    add_heard(totals.heard, &mut metrics)?;
    Ok(metrics)
}

// What the clocks came to, where there are any.
fn add_heard(heard: Option<Heard>, metrics: &mut Vec<Metric<'static>>) -> Result<(), AllocError> {
    let Some(heard) = heard else {
        return Ok(());
    };
    metrics.extend_from_slice(&[
        Metric::counter(
            "wsm_records_timed_total",
            "Records that told a time.",
            heard.stamps,
        ),
        Metric::gauge(
            "wsm_records_waiting",
            "Records that waited for the clocks at the end.",
            heard.waiting as u64,
        ),
        Metric::gauge(
            "wsm_clocks_speaking",
            "Clocks that speak at the end.",
            heard.voices as u64,
        ),
        Metric::gauge(
            "wsm_clocks_agreeing",
            "Clocks that have to agree on a time.",
            heard.agree as u64,
        ),
    ])
}

fn lines(count: u64) -> Metric<'static> {
    Metric::counter("wsm_lines_total", "Lines or rows that were read.", count)
}

fn late(count: u64) -> Metric<'static> {
    Metric::counter("wsm_records_late_total", "Records that were late.", count)
}

fn doubles(count: u64) -> Metric<'static> {
    Metric::counter(
        "wsm_records_doubled_total",
        "Records that were left out, since their identifier came before.",
        count,
    )
}
