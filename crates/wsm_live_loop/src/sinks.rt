//! What sinks told, against what was handed out.

ghost use Rattle.std.specs.Prelude.{◌≡◌, ◌++◌, ◌↔◌, All, Any, codes, decimal, IfErr, IfOk, IsSomeAnd, Some, IsTrue, MatchOption, min, string_bytes};
ghost use Rattle.wsm_live_loop.specs.declared.sinks.Handed.{Handed};
ghost use Rattle.wsm_live_loop.specs.Sinks.{front_of, has_line, IsEndedBy, IsLeast, IsRefusedBy, IsServedBy};

use crate::stop::{LiveStop, SinkFault};
use std::alloc::{AllocError, Global};
use wsm_live::Front;
use wsm_live_files::{RunName, Taken, Told};

/// What was handed out of a run.
#[derive(Clone, Copy)]
pub struct Handed<'h> {
    /// The run's name.
    pub name: Option<RunName>,
    /// How many lines.
    pub count: u64,
    /// What the journal's head stands for: the first ones, which are cut.
    pub front: Front,
    /// All of them behind those, where they are still there.
    pub lines: Option<&'h [u8]>,
}

impl Handed<'_> {
    ghost use Rattle.std.specs.Prelude.{◌≡◌, IfOk, IfSome, None};
    ghost use Rattle.wsm_live_loop.specs.Sinks.{has_sum, IsRefused, IsServed};

    // Why what a sink told can't be, if it can't.
    fn fault(self, alloc: Global, told: Told) -> Result<Option<SinkFault>, AllocError>
        ensures served { IfOk result (λ fault. fault ≡ None → IsServed self.entry told) }
        ensures refused { IfOk result (λ fault. IfSome fault (IsRefused self.entry told)) }
    {
        if !is_of(self.name, told.name) {
            return Ok(Some(SinkFault::OtherRun));
        }
        if self.count < told.count {
            return Ok(Some(SinkFault::Ahead));
        }
        if told.count < self.front.count {
            return Ok(Some(SinkFault::Behind));
        }
        if self.has_sum(alloc, told)? {
            Ok(None)
        } else {
            Ok(Some(SinkFault::OtherLines))
        }
    }

    // Whether the sum that a sink told is that of the lines that were handed out, as far as these are there.
    fn has_sum(self, alloc: Global, told: Told) -> Result<bool, AllocError>
        ensures { IfOk result (λ has. has ≡ has_sum self.entry told) }
    {
        if told.count == self.front.count {
            return Ok(told.sum == self.front.sum);
        }
        match self.lines {
            Some(lines) => {
                let front = front_of(alloc, told.count, told.sum)?;
                Ok(has_line(front.as_bytes(), lines))
            }
            None => Ok(true),
        }
    }
}

// What a numbered line begins with.
fn front_of(alloc: Global, number: u64, sum: u32) -> Result<String, AllocError>
    ensures { IfOk result (λ front. string_bytes front ≡ front_of number sum) }
{
    format!(in alloc; "{number},{sum},")
}

// Whether one of the lines of a text begins with these bytes.
fn has_line(front: &[u8], text: &[u8]) -> bool
    ensures { result ≡ has_line front.now text.now }
{
    text.split(|byte| *byte == b'\n')
        .any(|line| line.starts_with(front))
}

// Whether a run has this name.
fn is_of(name: Option<RunName>, told: RunName) -> bool
    ensures { IsTrue result ↔ (name ≡ Some told) }
{
    match name {
        Some(name) => name == told,
        None => false,
    }
}

/// How many lines the sink has that is furthest behind; none where no sink told. A file that can't be served is told with why.
///
/// # Errors
///
/// What a sink told can't be, or memory was refused.
pub fn least_taken(
    alloc: Global,
    all: &[Taken],
    handed: Handed<'_>,
) -> Result<Option<u64>, LiveStop>
    ensures served { IfOk result (λ _. All (IsServedBy handed.entry) all.now) }
    ensures least { IfOk result (λ least. IsLeast least all.now) }
    ensures refused { IfErr result (λ stop. Any (λ taken. IsEndedBy handed.entry taken stop) all.now) }
{
    let mut least = None;
    for taken in all {
        let count = taken_by(alloc, taken, handed)?;
        least = Some(less_of(least, count));
    }
    Ok(least)
}

// How many lines a sink has.
fn taken_by(alloc: Global, taken: &Taken, handed: Handed<'_>) -> Result<u64, LiveStop>
    ensures served { IfOk result (λ _. IsServedBy handed.entry taken.now) }
    ensures count { IfOk result (λ count. IsSomeAnd taken.now.told (λ told. told.count ≡ count)) }
    ensures refused { IfErr result (IsEndedBy handed.entry taken.now) }
{
    let Some(told) = taken.told else {
        return Err(fault_of(alloc, taken, SinkFault::NoText));
    };
    match handed.fault(alloc, told) {
        Ok(None) => Ok(told.count),
        Ok(Some(fault)) => Err(fault_of(alloc, taken, fault)),
        Err(_) => Err(LiveStop::Memory),
    }
}

// That what a sink told can't be, or that memory was refused.
fn fault_of(alloc: Global, taken: &Taken, fault: SinkFault) -> LiveStop
    ensures { (handed : Handed) → IsRefusedBy handed taken.now fault → IsEndedBy handed taken.now result }
{
    match String::from_str(alloc, taken.file.as_str()) {
        Ok(file) => LiveStop::Sink(file, fault),
        Err(_) => LiveStop::Memory,
    }
}

// The lesser count.
fn less_of(least: Option<u64>, count: u64) -> u64
    ensures { MatchOption least (result ≡ count) (λ least. result ≡ min least count) }
{
    match least {
        Some(least) => least.min(count),
        None => count,
    }
}
