//! `wsm watermarks`: rows with watermarks among them, of files and standard input, to standard output.

ghost use Rattle.std.specs.Prelude.{ℕ, List, Option, IfOk};
ghost use Rattle.wsm_row_watermarks.specs.Run.{IsWritten, setting_by};
ghost use Rattle.wsm_turns.specs.Clocks.{AreClocks};

use std::alloc::Global;
use std::fs::File;
use std::io::{self, Eprint, Read};
use std::rt::Files;
use wsm_csv::Guarded;
use wsm_ends::end_of_log;
use wsm_inputs::End;
use wsm_job::{Stop, Teller, WordsFault, accepted, end_of, number_or, write_rows};
use wsm_log_text::LogCounts;
use wsm_record::Schema;
use wsm_row_watermarks::{FIRST_PLACE, Rules, Times, Totals, schema_by_source, write_watermarks};
use wsm_rules::Verified;
use wsm_turns::{Clocks, clocks_of};
use wsm_words::{Agreement, WatermarksJob, number_of};

/// Writes the rows of a file, or of standard input, with watermarks among them, tells what was odd, and writes what was
/// counted where that is asked for.
pub fn follow<R: Files<File = File> + AllocGlobal + Input + Print + Eprint>(
    rt: &R,
    job: &WatermarksJob,
) -> Result<bool, Stop> {
    let rules = rules_of(rt, job)?;
    let totals = written_of(rt, rules, job.rows.as_ref())?;
    tell(rt, totals);
    if !job.last {
        tell_open(rt, totals);
    }
    write_rows(rt, job.metrics.as_ref(), totals)?;
    Ok(true)
}

// Writes what the rows of a file come to, or of standard input.
fn written_of<R: Files<File = File> + AllocGlobal + Input + Print + Eprint>(
    rt: &R,
    rules: Rules,
    rows: Option<&String>,
) -> Result<Totals, End>
    requires { AreClocks rules.clocks }
{
    match rows {
        None => written(rt, rules, rt.reader()),
        Some(rows) => match File::open(rt, rows.as_str()) {
            Ok(rows) => written(rt, rules, rows),
            Err(error) => Err(end_of(&error, End::ReadFailed)),
        },
    }
}

// Hands the reader of the rows on. Where it ends well what all its lines come to was written.
fn written<R: AllocGlobal + Print + Eprint, I: Read + Drop>(
    rt: &R,
    rules: Rules,
    rows: I,
) -> Result<Totals, End>
    requires { AreClocks rules.clocks }
    ensures { IfOk result (λ totals. (old : Option (List ℕ)) × (new : Option (List ℕ)) ×
        IsWritten (I.remaining rows) (setting_by rules) rules.once rules.last old new totals) }
{
    let mut output = Guarded::new(io::writer(rt));
    let mut teller = Teller::new(rt);
    match write_watermarks(rt.alloc(), rules, rows, &mut output, &mut teller) {
        Ok(totals) => Ok(totals),
        Err(end) => Err(end_of_log(end)),
    }
}

// Tells how many lines are no rows, how many records were late, left out or waited, and whether too few clocks speak.
fn tell<R: Eprint>(rt: &R, totals: Totals) {
    let (unread, late) = (totals.counts.unread, totals.late);
    if unread != 0 {
        let _ = eprintln!(rt; "wsm: lines that are no rows: {unread}");
    }
    if late != 0 {
        let _ = eprintln!(rt; "wsm: records that are late: {late}");
    }
    Teller::new(rt).tell(LogCounts {
        doubles: totals.counts.doubles,
        silent: 0,
        heard: totals.heard,
    });
}

// Tells how far records go beyond the last watermark, where they do.
fn tell_open<R: Eprint>(rt: &R, totals: Totals) {
    let mark = totals.mark;
    if let Some(latest) = totals.latest {
        if mark <= latest {
            let time = latest.saturating_sub(mark).saturating_add(1);
            let _ = eprintln!(rt;
                "wsm: windows that are not complete: records go {time} beyond the last watermark, {mark}; --last completes all"
            );
        }
    }
}

// By what rows are taken.
fn rules_of<R: Files + AllocGlobal>(rt: &R, job: &WatermarksJob) -> Result<Rules, Stop>
    ensures { IfOk result (λ rules. AreClocks rules.clocks) }
{
    let verified = accepted(rt, job.program, &job.query)?;
    rules_for(rt.alloc(), &verified, job)
}

// The same for an accepted program.
fn rules_for(alloc: Global, verified: &Verified, job: &WatermarksJob) -> Result<Rules, Stop>
    ensures { IfOk result (λ rules. AreClocks rules.clocks) }
{
    let once = place_of(job.once.as_ref())?;
    let clocks = clocks_for(&job.agreement, verified)?;
    let schema = schema_for(
        alloc,
        &verified.program().header().schema,
        job.source.as_ref(),
    )?;
    Ok(Rules {
        schema,
        times: Times::of(verified),
        clocks: Some(clocks),
        once,
        last: job.last,
    })
}

// The place of the cell with an identifier, from 0 on.
fn place_of(cell: Option<&String>) -> Result<Option<usize>, Stop> {
    match cell {
        None => Ok(None),
        Some(word) => match number_of(word.as_str()) {
            Some(cell) if FIRST_PLACE < cell => Ok(Some(cell - 1)),
            _ => Err(Stop::Words(WordsFault::NoCell)),
        },
    }
}

// The clocks that the words ask for.
fn clocks_for(agreement: &Agreement, verified: &Verified) -> Result<Clocks, Stop>
    ensures { IfOk result (λ clocks. AreClocks (Some clocks)) }
{
    let agree = number_or(agreement.agree.as_ref(), "--agree", 1)?;
    let bound = number_or(Some(&agreement.bound), "--bound", 0)?;
    let step = number_or(agreement.step.as_ref(), "--step", 1)?;
    let forget = number_or(agreement.forget.as_ref(), "--forget", 1_000_000)?;
    let room = number_or(agreement.room.as_ref(), "--room", 1000)?;
    let clock = verified.program().header().clock;
    // The clock of a row is its key.
    match clocks_of(
        agree,
        bound,
        step,
        forget,
        room,
        None,
        clock.start,
        clock.skew,
    ) {
        Some(clocks) => Ok(clocks),
        None => Err(Stop::Words(WordsFault::NoClocks)),
    }
}

// What a query declares, with the source of the watermarks first.
fn schema_for(alloc: Global, schema: &Schema, source: Option<&String>) -> Result<Schema, Stop> {
    match schema_by_source(alloc, schema, bytes_of(source))? {
        Some(schema) => Ok(schema),
        None => Err(Stop::Words(WordsFault::NoSource)),
    }
}

// The bytes of a word, if it is given.
fn bytes_of(word: Option<&String>) -> Option<&[u8]> {
    match word {
        Some(word) => Some(word.as_bytes()),
        None => None,
    }
}
