//! `wsm keep`: what cutting rows does with files, standard input and standard output.

use std::alloc::Global;
use std::fs::{File, Metadata};
use std::io::{self, BufWriter, Eprint, Read, Write};
use std::rt::Files;
use wsm_csv::Guarded;
use wsm_explain::input_sum;
use wsm_inputs::{End, accepted_of};
use wsm_job::{RowsFault, Stop, input_of, number_in, read};
use wsm_kept::{Asked, Head, KeepEnd, cut_over};
use wsm_replace::{LinesFault, Place, ReplaceFault, WholeLines, size_of};
use wsm_rules::Verified;
use wsm_words::KeepJob;

// By what rows are cut, and which.
struct Wanted {
    verified: Verified,
    // Of the query's text or the program's bytes.
    sum: u64,
    // How many lines were taken of what a run over the rows writes; all where it isn't said.
    taken: Option<u64>,
    // How many bytes of the rows are looked at.
    most: u64,
}

impl Wanted {
    // Cuts lines, which are all that there are or the first of them, and writes what stands in their place and the rows behind them.
    fn cut<I: Read + Drop, W: Write>(
        self,
        alloc: Global,
        is_whole: bool,
        lines: &mut WholeLines<I>,
        out: &mut W,
    ) -> Result<Head, KeepEnd> {
        let Wanted {
            verified,
            sum,
            taken,
            most: _,
        } = self;
        let asked = Asked {
            sum,
            taken,
            is_whole,
        };
        let mut out = Guarded::new(out);
        cut_over(alloc, verified, asked, lines, &mut out)
    }
}

impl Drop for Wanted {
    fn drop(self) {
        let Wanted {
            verified: _,
            sum: _,
            taken: _,
            most: _,
        } = self;
    }
}

/// Cuts a file of rows in place, or standard input to standard output.
pub fn keep<R: Files<File = File> + AllocGlobal + Input + Print + Eprint>(
    rt: &R,
    job: &KeepJob,
) -> Result<bool, Stop> {
    let taken = number_in(job.taken.as_ref(), "--taken")?;
    let most = number_in(job.most.as_ref(), "--most")?;
    let wanted = wanted_of(rt, job, taken, most)?;
    match &job.rows {
        None => keep_input(rt, wanted)?,
        Some(rows) => keep_file(rt, wanted, rows)?,
    }
    Ok(true)
}

// What is asked for by the words and the file of the query.
fn wanted_of<R: Files + AllocGlobal>(
    rt: &R,
    job: &KeepJob,
    taken: Option<u64>,
    most: Option<u64>,
) -> Result<Wanted, End> {
    let bytes = read(rt, &job.query)?;
    let input = input_of(job.program, &bytes);
    let verified = accepted_of(rt.alloc(), input)?;
    let sum = input_sum(rt.alloc(), input)?;
    Ok(Wanted {
        verified,
        sum: u64::from(sum),
        taken,
        most: most.unwrap_or(u64::MAX),
    })
}

// Cuts standard input to standard output.
fn keep_input<R: AllocGlobal + Input + Print + Eprint>(rt: &R, wanted: Wanted) -> Result<(), Stop> {
    let is_whole = wanted.most == u64::MAX;
    let mut lines = WholeLines::new(rt.alloc(), rt.reader(), wanted.most)?;
    let head = cut_lines(rt.alloc(), wanted, is_whole, &mut lines, io::writer(rt))?;
    tell_head(rt, &head);
    Ok(())
}

// Cuts the rows of a reader, and writes what stands in their place and all that is behind them.
fn cut_lines<I: Read + Drop, W: Write + Drop>(
    alloc: Global,
    wanted: Wanted,
    is_whole: bool,
    lines: &mut WholeLines<I>,
    out: W,
) -> Result<Head, Stop> {
    let Ok(mut out) = BufWriter::new(alloc, out) else {
        return Err(Stop::End(End::Memory));
    };
    match wanted.cut(alloc, is_whole, lines, &mut out) {
        Ok(head) => {
            lines.hand_on(&mut out)?;
            Ok(head)
        }
        Err(end) => Err(stop_of(end, lines.fault())),
    }
}

// How it ends where rows aren't cut, which may lie at their lines.
fn stop_of(end: KeepEnd, fault: Option<LinesFault>) -> Stop {
    match fault {
        Some(LinesFault::Quote) => Stop::Rows(RowsFault::Quote),
        Some(LinesFault::Memory) => Stop::End(End::Memory),
        None => Stop::from(end),
    }
}

// Cuts a file in place, while nobody else may write it.
fn keep_file<R: Files<File = File> + AllocGlobal + Eprint>(
    rt: &R,
    wanted: Wanted,
    name: &String,
) -> Result<(), Stop> {
    let place = Place::of(rt, name.as_str())?;
    let done = keep_at(rt, wanted, &place);
    if done.is_err() {
        let _ = place.give_up(rt);
    }
    done
}

// Cuts a file that nobody else may write, by way of one beside it.
fn keep_at<R: Files<File = File> + AllocGlobal + Eprint>(
    rt: &R,
    wanted: Wanted,
    place: &Place,
) -> Result<(), Stop> {
    let (file, was) = place.old(rt)?;
    let mut lines = WholeLines::new(rt.alloc(), file, wanted.most)?;
    let mut new = place.new_file(rt)?;
    keep_lines(rt, wanted, place, &was, &mut lines, &mut new)
}

// The same of its lines, into that one.
fn keep_lines<R: Files<File = File> + AllocGlobal + Eprint>(
    rt: &R,
    wanted: Wanted,
    place: &Place,
    was: &Metadata,
    lines: &mut WholeLines<File>,
    new: &mut File,
) -> Result<(), Stop> {
    let is_whole = was.len() <= wanted.most;
    let head = cut_lines(rt.alloc(), wanted, is_whole, lines, &*new)?;
    put_in_place(rt, place, was, new, &head)?;
    add_what_came(lines, new)
}

// Puts the file beside it in its place, unless that is no smaller, and tells which it was.
fn put_in_place<R: Files<File = File> + Eprint>(
    rt: &R,
    place: &Place,
    was: &Metadata,
    new: &File,
    head: &Head,
) -> Result<(), ReplaceFault> {
    let size = size_of(new)?;
    if was.len() <= size {
        let _ = eprintln!(rt; "wsm: ROWS stays as it is, since it would be no smaller");
        return place.give_up(rt);
    }
    place.replace(rt, new, was)?;
    tell_head(rt, head);
    let _ = eprintln!(rt; "wsm: {was} bytes became {size}", was = was.len());
    Ok(())
}

// Adds to a file what came to the one before while it was cut, by somebody who held no lock.
fn add_what_came<I: Read + Drop>(lines: &mut WholeLines<I>, new: &mut File) -> Result<(), Stop> {
    if lines.hand_rest(new)? == 0 {
        Ok(())
    } else {
        Err(Stop::Rows(RowsFault::Written))
    }
}

// Tells what rows that were cut come to.
fn tell_head<R: Eprint>(rt: &R, head: &Head) {
    let Head {
        rows,
        lines,
        kept,
        own,
        records,
        sum: _,
    } = *head;
    let _ = eprintln!(rt;
        "wsm: {rows} rows wrote {lines} lines; {kept} stand for them, for which a run writes {own}; RECORDS {records} goes on"
    );
}
