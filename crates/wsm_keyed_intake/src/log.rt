//! Runs of accepted programs over logs, by any number of names.

ghost use Rattle.std.specs.Prelude.{◌≡◌, ◌↔◌, ℕ, List, [], Err, true, false, IfErr, IfOk, OnOk, IsTrue};
ghost use Rattle.wsm_lines.specs.Key.{are_same};
ghost use Rattle.wsm_turns.specs.Clocks.{AreClocks};
ghost use Rattle.wsm_keyed_intake.specs.Run.{KeyedLogCounted, KeyedLogWritten};
ghost use Rattle.wsm_keyed_intake.specs.Stops.{IsUnopened, IsUnrun, Stops};
ghost use Rattle.wsm_keyed_intake.specs.GoesOn.{GoesOn};
ghost use Rattle.wsm_keyed_intake.specs.Saved.{keeps_events};
ghost use Rattle.wsm_keyed_intake.specs.Turns.{AreNamed, IsOpened};

use crate::intake::KeyedIntake;
use crate::run::{KeyedLogTotals, run_parts};
use std::alloc::Global;
use std::io::Read;
use wsm_csv::Device;
use wsm_ends::KeyedLogStop;
use wsm_key_names::KeyNames;
use wsm_lines::{KeyNames as KeyNaming, Source};
use wsm_log_rows::LogEnd;
use wsm_part_engines::{Parts, PartsRefusal};
use wsm_rules::Verified;
use wsm_turns::{Clocks, Listener};

/// Runs an accepted program, whose keys are places of parts, over the lines of a log by any number of names, as [`run_parts`] does.
///
/// # Errors
///
/// Where the program, the source or the clocks aren't run so nothing is written.
pub fn run_keyed_log<R: Read + Drop, D: Device, L: Listener>(
    alloc: Global,
    verified: Verified,
    source: Source,
    clocks: Option<Clocks>,
    names: KeyNames,
    most: u32,
    reader: R,
    out: &mut D,
    listener: &mut L,
) -> Result<KeyedLogTotals, KeyedLogStop>
    requires works { D.has_failed out.old ≡ false }
    requires clocks { AreClocks clocks }
    ensures completes { IfOk result (λ end. KeyedLogWritten (R.remaining reader)
        (record { program = verified; source = source; clocks = clocks; names = names; most = most }) (D.taken out.old) (D.taken out.new) end.log.totals) }
    ensures counts { IfOk result (λ end. KeyedLogCounted (R.remaining reader)
        (record { program = verified; source = source; clocks = clocks; names = names; most = most }) end.log.counts) }
    ensures ends_early { IfErr result (Stops (R.remaining reader)
        (record { program = verified; source = source; clocks = clocks; names = names; most = most }) (D.taken out.old) (D.taken out.new)) }
    ensures flushed { OnOk result (D.is_flushed out.new ≡ true) }
    ensures write_failed { result ≡ Err (KeyedLogStop.End LogEnd.WriteFailed) → D.has_failed out.new ≡ true }
{
    let parts = parts_for(alloc, verified, &source, clocks)?;
    let totals = run_parts(
        alloc, parts, source, clocks, names, most, reader, out, listener,
    )?;
    Ok(totals)
}

/// What takes the lines of a log by any number of names, as [`run_keyed_log`] does, of which no line came, and keeps what it needs to go
/// on from a text.
///
/// # Errors
///
/// The program, the source or the clocks aren't run so, or memory was refused.
pub fn open_keyed_log(
    alloc: Global,
    verified: Verified,
    source: Source,
    clocks: Option<Clocks>,
    names: KeyNames,
    most: u32,
) -> Result<KeyedIntake, KeyedLogStop>
    requires { AreClocks clocks }
    ensures goes_on { IfOk result (λ intake.
        GoesOn (record { program = verified; source = source; clocks = clocks; names = names; most = most }) intake []) }
    ensures keeps { IfOk result (λ intake. keeps_events intake ≡ true) }
    ensures named { OnOk result (AreNamed clocks) }
    ensures unrun { IfErr result (IsUnrun (record { program = verified; source = source; clocks = clocks; names = names; most = most })) }
{
    let parts = parts_for(alloc, verified, &source, clocks)?;
    match KeyedIntake::open_kept(alloc, parts, source, clocks, names, most) {
        Ok(intake) => Ok(intake),
        Err(_) => Err(KeyedLogStop::End(LogEnd::Memory)),
    }
}

// The engines of a program before the first event, where it, the source and the clocks are run so.
fn parts_for(
    alloc: Global,
    verified: Verified,
    source: &Source,
    clocks: Option<Clocks>,
) -> Result<Parts, KeyedLogStop>
    ensures program { IfOk result (λ parts. parts.program ≡ verified) }
    ensures opened { IfOk result IsOpened }
    ensures texts { OnOk result (are_same source.now.key.names ≡ true) }
    ensures named { OnOk result (AreNamed clocks) }
    ensures unrun { (names : List (List ℕ)) (most : ℕ) →
        IfErr result (IsUnrun (record { program = verified; source = source.now; clocks = clocks; names = names; most = most })) }
{
    if !has_own_names(source) {
        return Err(KeyedLogStop::KeyTable);
    }
    if !are_named(clocks) {
        return Err(KeyedLogStop::KeyClocks);
    }
    match parts_of(alloc, verified) {
        Ok(parts) => Ok(parts),
        Err(stop) => Err(stop),
    }
}

// Whether a source names each key by its own text.
fn has_own_names(source: &Source) -> bool
    ensures { result ≡ are_same source.now.key.names }
{
    match &source.key.names {
        KeyNaming::Same => true,
        KeyNaming::Table { .. } => false,
        KeyNaming::Prefixes { .. } => false,
    }
}

// Whether clocks, if there are any, aren't those of keys.
fn are_named(clocks: Option<Clocks>) -> bool
    ensures { IsTrue result ↔ AreNamed clocks }
{
    match clocks {
        Some(clocks) => clocks.named.is_some(),
        None => true,
    }
}

// The engines of a program before the first event.
fn parts_of(alloc: Global, verified: Verified) -> Result<Parts, KeyedLogStop>
    ensures program { IfOk result (λ parts. parts.program ≡ verified) }
    ensures opened { IfOk result IsOpened }
    ensures unopened { IfErr result (IsUnopened verified) }
{
    match Parts::open(alloc, verified) {
        Ok(parts) => Ok(parts),
        Err(PartsRefusal::Streams) => Err(KeyedLogStop::Streams),
        Err(PartsRefusal::ReadsKey) => Err(KeyedLogStop::ReadsKey),
        Err(PartsRefusal::Memory) => Err(KeyedLogStop::End(LogEnd::Memory)),
    }
}
