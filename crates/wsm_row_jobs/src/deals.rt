//! `wsm deal`: what dealing does with files and standard input.

ghost use Rattle.std.specs.Prelude.{ℕ, List, OnOk};
ghost use Rattle.wsm_csv.specs.Records.{AreAll};

use std::alloc::{AllocError, Global};
use std::fs::{self, File};
use std::io::{self, Read};
use std::os::unix::fs::MetadataExt;
use std::rt::Files;
use wsm_csv::Guarded;
use wsm_deal::{Shares, SharesRefusal, add_part, deal_over};
use wsm_inputs::End;
use wsm_job::{Stop, WordsFault, end_of, read, write_all};
use wsm_words::{DealJob, number_of};

/// The name that standard input has among the files.
const STANDARD_INPUT: &str = "/dev/stdin";

/// Deals rows to parts, or tells the keys of one.
pub fn deal_or_tell<R: Files + AllocGlobal + Input + Print>(
    rt: &R,
    job: &DealJob,
) -> Result<bool, Stop> {
    if job.keys_of && job.rows.is_some() {
        return Err(Stop::Words(WordsFault::RowsOfKeys));
    }
    let shares = shares_of(rt, &job.keys, &job.parts)?;
    if job.keys_of {
        Ok(clause(rt, &shares, &job.out)?)
    } else {
        dealt(rt, &shares, job)
    }
}

// The keys of a file, for so many parts.
fn shares_of<R: Files + AllocGlobal>(rt: &R, keys: &String, parts: &String) -> Result<Shares, End> {
    let text = read(rt, keys)?;
    Ok(Shares::for_parts(rt.alloc(), &text, number_of(parts.as_str()))?)
}

// Writes the clause of a part's keys.
fn clause<R: AllocGlobal + Print>(rt: &R, shares: &Shares, part: &String) -> Result<bool, End> {
    let Some(part) = number_of(part.as_str()) else {
        return Err(End::from(SharesRefusal::BadNumber));
    };
    let text = shares.clause_of(rt.alloc(), part)?;
    write_all(&text, io::writer(rt))
}

// Deals a file of rows, or standard input, to the files of the parts.
fn dealt<R: Files + AllocGlobal + Input>(
    rt: &R,
    shares: &Shares,
    job: &DealJob,
) -> Result<bool, Stop> {
    match &job.rows {
        None => {
            require_others(rt, shares, job, STANDARD_INPUT)?;
            Ok(deal_to_files(rt, shares, &job.out, rt.reader())?)
        }
        Some(name) => match File::open(rt, name.as_str()) {
            Ok(rows) => {
                require_others(rt, shares, job, name.as_str())?;
                Ok(deal_to_files(rt, shares, &job.out, rows)?)
            }
            Err(error) => Err(Stop::End(end_of(&error, End::ReadFailed))),
        },
    }
}

// Refuses a part's file that is read: to make it would empty it.
fn require_others<R: Files + AllocGlobal>(
    rt: &R,
    shares: &Shares,
    job: &DealJob,
    rows: &str,
) -> Result<(), Stop> {
    let keys = job.keys.as_str();
    let rows_place = place_of(rt, rows);
    let keys_place = place_of(rt, keys);
    for number in 0..shares.parts() {
        let name = part_name(rt.alloc(), &job.out, number)?;
        let place = place_of(rt, name.as_str());
        if name.as_str() == rows || is_same(place, rows_place) {
            return Err(Stop::Words(WordsFault::RowsAsPart(number)));
        }
        if name.as_str() == keys || is_same(place, keys_place) {
            return Err(Stop::Words(WordsFault::KeysAsPart(number)));
        }
    }
    Ok(())
}

// The name of a part's file.
fn part_name(alloc: Global, out: &String, number: usize) -> Result<String, AllocError> {
    format!(in alloc; "{out}{number}")
}

// Where a file lies: its device, and its number there.
fn place_of<R: Files>(rt: &R, name: &str) -> Option<(u64, u64)> {
    let metadata = fs::metadata(rt, name).ok()?;
    Some((metadata.dev(), metadata.ino()))
}

// Whether both are there, at one place.
fn is_same(place: Option<(u64, u64)>, other: Option<(u64, u64)>) -> bool {
    place.is_some() && place == other
}

// Makes the files of the parts, and hands the reader of the rows on. Where it ends well all its rows were dealt.
fn deal_to_files<R: Files + AllocGlobal, I: Read + Drop>(
    rt: &R,
    shares: &Shares,
    out: &String,
    rows: I,
) -> Result<bool, End>
    ensures { OnOk result ((cells : List (List (List ℕ))) × AreAll (I.remaining rows) cells) }
{
    let mut parts = Vec::new(rt.alloc());
    for number in 0..shares.parts() {
        let name = part_name(rt.alloc(), out, number)?;
        match File::create(rt, name.as_str()) {
            Ok(file) => add_part(rt.alloc(), &mut parts, Guarded::new(file))?,
            Err(error) => return Err(end_of(&error, End::WriteFailed)),
        }
    }
    deal_over(rt.alloc(), shares, rows, &mut parts)?;
    Ok(true)
}
