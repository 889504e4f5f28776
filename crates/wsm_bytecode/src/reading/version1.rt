//! What version 1 of the bytes has of its own: lateness from a window's end is a shape, and several
//! sources are a form with their names behind it.

ghost use Rattle.std.specs.Prelude.{◌≡◌};
ghost use Rattle.wsm_bytecode.specs.Version1.{windows_at, output_at, settings_at, sources_by};
ghost use Rattle.wsm_bytecode.specs.Reading.{Gives, settings_seen};

use crate::limits::MAX_SOURCES;
use crate::reading::names::so_many_names;
use crate::reading::numbers::{byte_of, byte_within};
use crate::reading::settings::{
    Counting, Settings, form_of, mode_of, triggers_of, windows_of as windows_of_tag,
};
use crate::tags::{FORM_COUNT, SHAPE_COUNT, last_shape_tag};
use std::alloc::Global;
use wsm_program::DecodeRefusal;
use wsm_record::{Form, Mode, Names};
use wsm_windows::Shape;

#[tactic(auto, unfolding(crate::specs::Version1::settings_at))]
pub(crate) fn settings_of(alloc: Global, bytes: &[u8]) -> Result<(Settings, &[u8]), DecodeRefusal>
    ensures { Gives (λ x. (settings_seen x.0, x.1.now)) result (settings_at bytes.now) }
{
    let ((shape, from_window), rest) = windows_of(bytes)?;
    let (mode, rest) = mode_of(rest)?;
    let ((early, late), rest) = triggers_of(rest)?;
    let ((form, sources), rest) = output_of(alloc, rest, mode)?;
    let settings = Settings {
        shape,
        counting: Counting::of(from_window),
        mode,
        early,
        late,
        form,
        sources,
    };
    Ok((settings, rest))
}

// Tags behind those of the shapes are of fixed and sliding windows from whose ends lateness is counted.
#[tactic(auto, unfolding(crate::specs::Version1::windows_at))]
fn windows_of(bytes: &[u8]) -> Result<((Shape, bool), &[u8]), DecodeRefusal>
    ensures { Gives (λ x. (x.0, x.1.now)) result (windows_at bytes.now) }
{
    let (tag, rest) = byte_within(bytes, 0, SHAPE_COUNT + last_shape_tag(true))?;
    if tag < SHAPE_COUNT {
        windows_of_tag(rest, tag, false)
    } else {
        windows_of_tag(rest, tag - SHAPE_COUNT, true)
    }
}

// Tags behind those of the forms are forms of several sources. The form is judged before the sources are
// read.
#[tactic(auto, unfolding(crate::specs::Version1::output_at))]
fn output_of(
    alloc: Global,
    bytes: &[u8],
    mode: Mode,
) -> Result<((Form, Names), &[u8]), DecodeRefusal>
    ensures { Gives (λ x. ((x.0.0, x.0.1), x.1.now)) result (output_at mode bytes.now) }
{
    let (tag, rest) = byte_of(bytes)?;
    let form = form_of(
        if tag < FORM_COUNT {
            tag
        } else {
            tag - FORM_COUNT
        },
        mode,
    )?;
    let (sources, rest) = sources_of(alloc, rest, tag)?;
    Ok(((form, sources), rest))
}

#[tactic(auto, unfolding(crate::specs::Steps::sources_at))]
fn sources_of(alloc: Global, bytes: &[u8], tag: u8) -> Result<(Names, &[u8]), DecodeRefusal>
    ensures { Gives (λ x. (x.0, x.1.now)) result (sources_by tag bytes.now) }
{
    if tag < FORM_COUNT {
        return Ok((Names::with_capacity(alloc, 0)?, bytes));
    }
    let (count, rest) = byte_within(bytes, 2, MAX_SOURCES)?;
    so_many_names(alloc, rest, u16::from(count))
}
