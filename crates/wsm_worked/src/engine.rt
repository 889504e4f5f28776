//! What no clause says: that an engine is opened where memory is ample, and what it writes.

use std::alloc::Global;
use std::process::Abort;
use std::test::Fail;
use wsm_bytecode::decode;
use wsm_engine::{Engine, Reply};
use wsm_given::BASE_PROGRAM;
use wsm_record::{Event, Value};
use wsm_verifier::{Verified, verify};

// Places of bytes in it: its start, its lateness, its shape and the shape's first number, and the stated numbers
// for a record and for panes.
const START: usize = 31;

const LATENESS: usize = 47;

const SHAPE: usize = 65;

const SPAN: usize = 66;

const PER_RECORD: usize = 97;

const HELD: usize = 113;

// The base program with other bytes at some places.
fn verified(alloc: Global, changes: &[(usize, u8)]) -> Result<Verified, Fail> {
    let mut bytes = BASE_PROGRAM.to_vec(alloc)?;
    for (place, byte) in changes {
        if let Some(changed) = bytes.get_mut(*place) {
            *changed = *byte;
        }
    }
    let program = decode(alloc, &bytes)?;
    Ok(verify(alloc, program).map_err(|(_, rejection)| rejection)?)
}

fn opened(alloc: Global, changes: &[(usize, u8)]) -> Result<Engine, Fail> {
    let verified = verified(alloc, changes)?;
    Ok(Engine::open(alloc, verified).map_err(|_| "no memory")?)
}

// Feeds a record of a key, whose number is 1.
fn fed(alloc: Global, engine: &mut Engine, key: u32, time: i64) -> Result<Reply, Fail> {
    let values = [Value::Int(1)].to_vec(alloc)?;
    Ok(engine.feed(&Event::Record {
        key: Some(key),
        time,
        values,
    }))
}

// Feeds records of the first key at some times, of which each takes so many instructions.
fn records_take(
    rt: &impl Abort,
    alloc: Global,
    engine: &mut Engine,
    cases: &[(i64, u64)],
) -> Result<(), Fail> {
    for (time, steps) in cases {
        let reply = fed(alloc, engine, 0, *time)?;
        assert_eq!(rt; reply.record_steps, *steps, "at {time}");
        assert_eq!(rt; reply.fired, 0, "at {time}");
    }
    Ok(())
}

// Feeds a watermark at which one pane fires, of 4 instructions.
fn a_pane_takes_four(rt: &impl Abort, engine: &mut Engine, mark: i64) {
    let reply = engine.feed(&Event::Watermark {
        source: Some(0),
        time: mark,
    });
    assert_eq!(rt; reply.fired, 1);
    assert_eq!(rt; reply.pane_steps_max, 4);
    assert_eq!(rt; reply.pane_steps_total, 4);
    assert_eq!(rt; engine.rows().len(), 1);
}

// Feeds such records, and a watermark at which their one pane fires. What makes an engine does nothing
// else, since each way out of it drops the engine's parts.
fn pane_of_records(
    rt: &impl Abort,
    alloc: Global,
    engine: &mut Engine,
    cases: &[(i64, u64)],
    mark: i64,
) -> Result<(), Fail> {
    records_take(rt, alloc, engine, cases)?;
    a_pane_takes_four(rt, engine, mark);
    Ok(())
}

// The third record joins the sessions of the others, at a step for the sum.
#[test]
fn joined_sessions_take_a_step_more(rt: HostRuntime) -> Result<(), Fail> {
    let sessions = [(SHAPE, 2), (SPAN, 30), (PER_RECORD, 6), (HELD, 10)];
    let mut engine = opened(rt.alloc(), &sessions)?;
    let records = [(0, 5), (40, 5), (20, 6)];
    pane_of_records(&rt, rt.alloc(), &mut engine, &records, 70)
}

// Feeds records of both keys at some times, after which so many panes are held.
fn are_held(
    rt: &impl Abort,
    alloc: Global,
    engine: &mut Engine,
    times: &[i64],
    panes: usize,
) -> Result<(), Fail> {
    for time in times {
        fed(alloc, engine, 0, *time)?;
        fed(alloc, engine, 1, *time)?;
    }
    assert_eq!(rt; engine.held(), panes);
    assert_eq!(rt; engine.totals().admitted, 6);
    Ok(())
}

// Opens an engine, feeds such records to it, and asks how many panes it holds.
fn holds(
    rt: &impl Abort,
    alloc: Global,
    changes: &[(usize, u8)],
    times: &[i64],
    panes: usize,
) -> Result<(), Fail> {
    let mut engine = opened(alloc, changes)?;
    are_held(rt, alloc, &mut engine, times, panes)
}

// A window of a key is held once. No more are held than the program states: a window that is about to
// be dropped, and one as far ahead as the skew allows.
#[test]
fn as_many_panes_as_stated_are_held(rt: HostRuntime) -> Result<(), Fail> {
    holds(&rt, rt.alloc(), &[], &[0, 60, 100], 4)?;
    holds(&rt, rt.alloc(), &[(START, 59)], &[49, 119, 159], 6)
}
