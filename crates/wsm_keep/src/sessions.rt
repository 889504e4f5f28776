//! From which times on records of sessions stay.

ghost use Rattle.std.specs.Prelude.{◌≡◌, ◌∷◌, ℕ, List, map, ℤ, pos, ◌-ℤ◌, IfOk, OnOk};
ghost use Rattle.wsm_semantics.specs.FromWatermark as spec;
ghost use Rattle.wsm_semantics.specs.FromWatermark.{unparted_time};
ghost use Rattle.wsm_semantics.specs.Sessions.{sessions as sessions_of};
ghost use Rattle.wsm_keep.specs.Holds.{Queued, times_in};
ghost use Rattle.wsm_keep.specs.Items.{queue_of, times_of};
ghost use Rattle.wsm_keep.specs.OfKeys.{AreNone, AreOfKeys};

use crate::firsts::Firsts;
use crate::parting::Parting;
use crate::queue::{Item, Queue};
use crate::what::What;
use std::alloc::{AllocError, Global};
use wsm_sessions::Sessions;
use wsm_windows::{Window, is_time};

/// The first times of sessions that stay, where a time is given up to which records may go that it parts from none.
pub fn firsts_of_sessions(
    alloc: Global,
    parting: Parting,
    queue: &Queue,
) -> Result<Firsts, AllocError>
    ensures { IfOk result (λ f. (key : ℕ) → times_of f key ≡ unparted_time parting.gap parting.time (sessions_of parting.gap (times_in key queue.now))) }
{
    let keys = sessions_of_keys(alloc, parting, queue.items())?;
    let each = firsts_of_keys(alloc, parting, &keys)?;
    Ok(Firsts {
        each,
        others: parting.time + 1,
    })
}

// The first time of each key's sessions.
fn firsts_of_keys(
    alloc: Global,
    parting: Parting,
    keys: &[Sessions],
) -> Result<Vec<i64>, AllocError>
    ensures { IfOk result (λ each. map (λ first. first -ℤ pos 1) each.items ≡ map (λ s. unparted_time parting.gap parting.time s.windows) keys.now) }
{
    let mut each = Vec::new(alloc);
    for sessions in keys {
        each.push(first_of_key(sessions, parting))?;
    }
    Ok(each)
}

// The first time of a key's sessions.
fn first_of_key(sessions: &Sessions, parting: Parting) -> i64
    ensures { (result -ℤ pos 1) ≡ unparted_time parting.gap parting.time sessions.now.windows }
{
    for place in 0..sessions.len() {
        let window = sessions.at(place);
        if !is_beside(window, parting) {
            return window.start;
        }
    }
    parting.time + 1
}

// Whether a time doesn't part the session: all of its records come after it, or none.
fn is_beside(window: Window, parting: Parting) -> bool
    ensures { result ≡ spec.is_beside parting.gap parting.time window }
{
    parting.time < window.start || window.end <= parting.time + parting.gap
}

// The sessions of the records, key by key.
fn sessions_of_keys(
    alloc: Global,
    parting: Parting,
    items: &[Item],
) -> Result<Vec<Sessions>, AllocError>
    ensures { (texts : List ℕ) → IfOk result (λ keys. AreOfKeys parting.gap keys.items (queue_of texts items.now)) }
{
    let mut keys = none_of_keys(alloc, parting, &counts_of(alloc, items)?)?;
    for item in items {
        place(&mut keys, item.what)?;
    }
    Ok(keys)
}

// How many records each key has, up to the last that has one.
fn counts_of(alloc: Global, items: &[Item]) -> Result<Vec<usize>, AllocError> {
    let mut counts: Vec<usize> = Vec::new(alloc);
    for item in items {
        if let What::Selected(key, _) = item.what {
            let key = key as usize;
            if counts.len() <= key {
                counts.resize(key + 1, 0)?;
            }
            counts[key] = counts[key].saturating_add(1);
        }
    }
    Ok(counts)
}

// Room for the sessions of each key.
fn none_of_keys(
    alloc: Global,
    parting: Parting,
    counts: &[usize],
) -> Result<Vec<Sessions>, AllocError>
    ensures { IfOk result (λ keys. AreNone parting.gap keys.items) }
{
    let mut keys = Vec::new(alloc);
    for count in counts {
        keys.push(Sessions::open(alloc, parting.gap, *count)?)?;
    }
    Ok(keys)
}

// Has the record, if it is one, enter the sessions of its key. There is room for each that was counted.
fn place(keys: &mut Vec<Sessions>, what: What) -> Result<(), AllocError>
    ensures { (gap : ℤ) (queue : List Queued) (text : List ℕ) → AreOfKeys gap keys.old.items queue →
        OnOk result (AreOfKeys gap keys.new.items ((what, text) ∷ queue)) }
{
    let What::Selected(key, time) = what else {
        return Ok(());
    };
    let key = key as usize;
    if keys.len() <= key || !is_time(time) || !keys[key].admits(time) {
        return Err(AllocError);
    }
    keys[key].place(time);
    Ok(())
}
