//! What an event does, by what is replied to it.

ghost use Rattle.std.specs.Prelude.{◌≡◌, ◌∷◌, List, if◌then◌else◌, int_lt, Some, None};
ghost use Rattle.wsm_record.specs.Event.{event_of};
ghost use Rattle.wsm_semantics.specs.Query.{Query, effect_of, is_taken as is_taken_after, mark as mark_after};
ghost use Rattle.wsm_program.specs.Program.{Program};
ghost use Rattle.wsm_machine.specs.Meaning.{query_of};
ghost use Rattle.wsm_engine.specs.Meaning.{reply_to, selects_record};
ghost use Rattle.wsm_keep.specs.Holds.{Written, read};
ghost use Rattle.wsm_keep.specs.Staying.{events_in};
ghost use Rattle.wsm_keep.specs.Keeper.{IsTold};
ghost use Rattle.wsm_cut.specs.Judge as spec;

use wsm_engine::Reply;
use wsm_keep::{Judged, What};
use wsm_record::Event;

/// What an event does, by what an engine of the program replied to it, the watermark before and that behind it.
pub fn judge_event(event: &Event, reply: &Reply, before: i64, mark: i64) -> Judged
    ensures { (p : Program) (rows : List Written) → reply.now ≡ reply_to p (events_in read rows) (event_of event.now)
        → before ≡ mark_after (query_of p) (events_in read rows) → mark ≡ mark_after (query_of p) (event_of event.now ∷ events_in read rows)
        → IsTold (query_of p) rows (event_of event.now) result }
{
    let is_taken = reply.refusal.is_none();
    judge_told(event, is_taken, reply.selected, before, mark)
}

/// What an event does of which it is known whether it is taken and whether it is a record that is selected, with the watermark before
/// and that behind it.
pub fn judge_told(
    event: &Event,
    is_taken: bool,
    is_selected: bool,
    before: i64,
    mark: i64,
) -> Judged
    ensures { (q : Query) (rows : List Written) → is_taken ≡ is_taken_after q (events_in read rows) (event_of event.now)
        → is_selected ≡ selects_record (effect_of q (events_in read rows) (event_of event.now))
        → before ≡ mark_after q (events_in read rows) → mark ≡ mark_after q (event_of event.now ∷ events_in read rows)
        → IsTold q rows (event_of event.now) result }
{
    Judged {
        what: what_told(event, is_taken, is_selected),
        rise: rise_between(before, mark),
        mark,
    }
}

fn what_told(event: &Event, is_taken: bool, is_selected: bool) -> What
    ensures { result ≡ spec.what_told is_selected is_taken (event_of event.now) }
{
    if is_selected {
        selected(event)
    } else if is_taken {
        accepted(event)
    } else {
        What::Idle
    }
}

// What a record does that is selected.
fn selected(event: &Event) -> What
    ensures { result ≡ spec.what_selected (event_of event.now) }
{
    match event {
        Event::Record {
            key: Some(key),
            time,
            ..
        } => What::Selected(*key, *time),
        _ => What::Idle,
    }
}

// What an event does that is taken and selects no record.
fn accepted(event: &Event) -> What
    ensures { result ≡ spec.what_accepted (event_of event.now) }
{
    match event {
        Event::Watermark {
            source: Some(source),
            ..
        } => What::Accepted(*source),
        _ => What::Idle,
    }
}

// The watermark before, where it rose.
fn rise_between(before: i64, mark: i64) -> Option<i64>
    ensures { result ≡ (if int_lt before mark then Some before else None) }
{
    if before < mark { Some(before) } else { None }
}
