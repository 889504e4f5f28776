//! What version 2 of the bytes has of its own: what lateness is counted from and the sources stand in front
//! of the shape.

ghost use Rattle.std.specs.Prelude.{◌≡◌};
ghost use Rattle.wsm_record.specs.Schema.{is_source_count};
ghost use Rattle.wsm_bytecode.specs.Steps.{sources_at};
ghost use Rattle.wsm_bytecode.specs.Version2.{windows_at, form_at, shown_at, settings_at};
ghost use Rattle.wsm_bytecode.specs.Reading.{Gives, settings_seen};

use crate::reading::names::so_many_names;
use crate::reading::numbers::{byte_of, byte_within, truth_of};
use crate::reading::settings::{
    Counting, Settings, form_of as form_of_tag, mode_of, triggers_of, windows_of as windows_of_tag,
};
use crate::tags::last_shape_tag;
use std::alloc::Global;
use wsm_program::DecodeRefusal;
use wsm_record::{Form, Mode, Names, is_source_count};
use wsm_windows::Shape;

// What a header has behind its windows and in front of its accumulators.
#[derive(Clone, Copy)]
struct Shown {
    mode: Mode,
    early: i64,
    late: i64,
    form: Form,
}

#[tactic(auto, unfolding(crate::specs::Version2::settings_at))]
pub(crate) fn settings_of(alloc: Global, bytes: &[u8]) -> Result<(Settings, &[u8]), DecodeRefusal>
    ensures { Gives (λ x. (settings_seen x.0, x.1.now)) result (settings_at bytes.now) }
{
    let (from_window, rest) = truth_of(bytes)?;
    let (sources, rest) = sources_of(alloc, rest)?;
    let ((shape, from_window), rest) = windows_of(rest, from_window)?;
    let (shown, rest) = shown_of(rest)?;
    let settings = Settings {
        shape,
        counting: Counting::of(from_window),
        mode: shown.mode,
        early: shown.early,
        late: shown.late,
        form: shown.form,
        sources,
    };
    Ok((settings, rest))
}

// What is shown of windows. The sources stay with the caller.
#[tactic(auto, unfolding(crate::specs::Version2::shown_at))]
fn shown_of(bytes: &[u8]) -> Result<(Shown, &[u8]), DecodeRefusal>
    ensures { Gives (λ x. ((x.0.mode, ((x.0.early, x.0.late), x.0.form)), x.1.now)) result (shown_at bytes.now) }
{
    let (mode, rest) = mode_of(bytes)?;
    let ((early, late), rest) = triggers_of(rest)?;
    let (form, rest) = form_of(rest, mode)?;
    let shown = Shown {
        mode,
        early,
        late,
        form,
    };
    Ok((shown, rest))
}

// None, or 2 to 16.
#[tactic(auto, unfolding(crate::specs::Steps::sources_at))]
fn sources_of(alloc: Global, bytes: &[u8]) -> Result<(Names, &[u8]), DecodeRefusal>
    ensures { Gives (λ x. (x.0, x.1.now)) result (sources_at is_source_count bytes.now) }
{
    let (count, rest) = byte_of(bytes)?;
    if !is_source_count(usize::from(count)) {
        return Err(DecodeRefusal::Operand);
    }
    so_many_names(alloc, rest, u16::from(count))
}

// Lateness isn't counted from the end of a session.
#[tactic(auto, unfolding(crate::specs::Version2::windows_at))]
fn windows_of(bytes: &[u8], from_window: bool) -> Result<((Shape, bool), &[u8]), DecodeRefusal>
    ensures { Gives (λ x. (x.0, x.1.now)) result (windows_at from_window bytes.now) }
{
    let (tag, rest) = byte_within(bytes, 0, last_shape_tag(from_window))?;
    windows_of_tag(rest, tag, from_window)
}

#[tactic(auto, unfolding(crate::specs::Version2::form_at))]
fn form_of(bytes: &[u8], mode: Mode) -> Result<(Form, &[u8]), DecodeRefusal>
    ensures { Gives (λ x. (x.0, x.1.now)) result (form_at mode bytes.now) }
{
    let (tag, rest) = byte_of(bytes)?;
    let form = form_of_tag(tag, mode)?;
    Ok((form, rest))
}
