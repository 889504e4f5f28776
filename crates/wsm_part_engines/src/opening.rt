//! An engine that is opened as its first record comes.

ghost use Rattle.std.specs.Prelude.{◌≡◌, ◌<◌, ◌≤◌, ◌^◌, ℕ, [], length, All, IfOk, IsTrue, None, OnErr, OnOk};
ghost use Rattle.wsm_record.specs.declared.limits.TheConstants.{MAX_SOURCES};
ghost use Rattle.wsm_windows.specs.Windows.{IsTime};
ghost use Rattle.wsm_program.specs.Program.{Program as AnyProgram, is_program};
ghost use Rattle.wsm_bytecode.specs.Spelling.{spelling};
ghost use Rattle.wsm_engine.specs.Meaning.{Fits};
ghost use Rattle.wsm_key_parts.specs.OpenedLate.{openers};
ghost use Rattle.wsm_part_engines.specs.Fits.{engine_at};
ghost use Rattle.wsm_part_engines.specs.Slots.{IsAt, Opens};

use crate::slots::{is_open, make_room, put};
use std::alloc::{AllocError, Global};
use wsm_bytecode::decode;
use wsm_engine::Engine;
use wsm_record::Event;
use wsm_rules::Verified;
use wsm_verifier::verify;

/// Opens the engine of a part that has none, of the program of these bytes, behind watermarks that bring its sources to their marks.
///
/// # Errors
///
/// Where there is no memory for the program or its room.
pub fn open_part(
    alloc: Global,
    bytes: &[u8],
    marks: &[i64],
    slots: &mut Vec<Option<Engine>>,
    part: usize,
) -> Result<(), AllocError>
    requires few_marks { length marks.now ≤ MAX_SOURCES }
    requires times { All IsTime marks.now }
    requires part { part < 2 ^ 32 }
    requires few { length slots.old.items ≤ 2 ^ 32 }
    ensures few { length slots.new.items ≤ 2 ^ 32 }
    ensures opens { OnOk result (Opens bytes.now marks.now part slots.old.items slots.new.items) }
    ensures same { OnErr result ((other : ℕ) → engine_at slots.new.items other ≡ engine_at slots.old.items other) }
{
    if is_open(slots, part) {
        Ok(())
    } else {
        open_closed(alloc, bytes, marks, slots, part)
    }
}

// Opens the engine of a part that has none. It stands apart, since the places of two engines are cleared where it begins, which each
// record paid for in 153 instructions.
#[cold]
fn open_closed(
    alloc: Global,
    bytes: &[u8],
    marks: &[i64],
    slots: &mut Vec<Option<Engine>>,
    part: usize,
) -> Result<(), AllocError>
    requires few_marks { length marks.now ≤ MAX_SOURCES }
    requires times { All IsTime marks.now }
    requires part { part < 2 ^ 32 }
    requires few { length slots.old.items ≤ 2 ^ 32 }
    requires closed { engine_at slots.old.items part ≡ None }
    ensures few { length slots.new.items ≤ 2 ^ 32 }
    ensures opens { OnOk result (Opens bytes.now marks.now part slots.old.items slots.new.items) }
    ensures same { OnErr result ((other : ℕ) → engine_at slots.new.items other ≡ engine_at slots.old.items other) }
{
    make_room(slots, part)?;
    let engine = open_at(alloc, bytes, marks)?;
    put(slots, part, engine);
    Ok(())
}

// An engine of the program of these bytes behind watermarks that bring its sources to their marks, in event time.
fn open_at(alloc: Global, bytes: &[u8], marks: &[i64]) -> Result<Engine, AllocError>
    requires few { length marks.now ≤ MAX_SOURCES }
    requires times { All IsTime marks.now }
    ensures { IfOk result (IsAt bytes.now marks.now) }
{
    let Ok(mut engine) = Engine::open(alloc, read(alloc, bytes)?) else {
        return Err(AllocError);
    };
    bring_to(&mut engine, marks);
    Ok(engine)
}

// The program of these bytes, verified anew.
fn read(alloc: Global, bytes: &[u8]) -> Result<Verified, AllocError>
    ensures { (p : AnyProgram) → IsTrue (is_program p) → bytes.now ≡ spelling p → IfOk result (λ verified. verified ≡ p) }
{
    let Ok(program) = decode(alloc, bytes) else {
        return Err(AllocError);
    };
    match verify(alloc, program) {
        Ok(verified) => Ok(verified),
        Err(_) => Err(AllocError),
    }
}

// Feeds an engine watermarks that bring its sources to their marks.
fn bring_to(engine: &mut Engine, marks: &[i64])
    requires opened { Fits engine.old [] }
    requires few { length marks.now ≤ MAX_SOURCES }
    requires times { All IsTime marks.now }
    ensures program { engine.new.program ≡ engine.old.program }
    ensures fits { Fits engine.new (openers engine.old.program.header.clock.start 0 marks.now) }
{
    let start = engine.program().header().clock.start;
    for source in (0..marks.len()).rev() {
        let time = marks[source];
        if start < time {
            let source = Some(source as u16);
            engine.feed(&Event::Watermark { source, time });
        }
    }
}
