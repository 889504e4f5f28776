//! Events, and what they have in them.

ghost use Rattle.std.specs.Prelude.{◌≡◌, ◌++◌, List, ℕ, IfOk, OnOk, option_map};
ghost use Rattle.wsm_record.specs.Event.{event_of};
ghost use Rattle.wsm_saved.specs.Events.{EventFits, KeyFits, SourceFits, ValueFits, event_text, key_text, read_event, read_record, read_value, read_watermark, value_text};
ghost use Rattle.wsm_saved.specs.EventsBack.{event_reads_back, value_reads_back};

use crate::restoring::Restoring;
use crate::saved::{Saved, restore_all, save_all};
use crate::saving::{save_flag, save_number, save_signed};
use std::alloc::{AllocError, Global};
use wsm_record::{Event, Value};

// The number of a key or of a source, or none.
fn save_key(key: Option<u32>, out: &mut Vec<u8>) -> Result<(), AllocError>
    ensures text { OnOk result (out.new.items ≡ out.old.items ++ key_text key) }
    ensures fits { OnOk result (KeyFits key) }
{
    match key {
        Some(key) => {
            save_number(1, out)?;
            save_number(u64::from(key), out)
        }
        None => save_number(0, out),
    }
}

// The number of a source, or none.
fn save_source(source: Option<u16>, out: &mut Vec<u8>) -> Result<(), AllocError>
    ensures text { OnOk result (out.new.items ≡ out.old.items ++ key_text source) }
    ensures fits { OnOk result (SourceFits source) }
{
    save_key(source.map(u32::from), out)
}

impl Saved for Value {
    ghost use Rattle.wsm_record.specs.declared.event.Value.{Value as AnyValue};

    ghost Shown = { AnyValue };

    ghost shown = { λ v. v };

    ghost text = { value_text };

    ghost read = { read_value };

    ghost Fits = { ValueFits };

    ghost back = { value_reads_back };

    fn save(&self, out: &mut Vec<u8>) -> Result<(), AllocError> {
        match self {
            Value::Int(number) => {
                save_number(0, out)?;
                save_signed(*number, out)
            }
            Value::Bool(flag) => {
                save_number(1, out)?;
                save_flag(*flag, out)
            }
            Value::Enum(name) => {
                save_number(2, out)?;
                save_number(*name as u64, out)
            }
        }
    }

    fn restore(_alloc: Global, from: &mut Restoring<'_>) -> Result<Option<Value>, AllocError> {
        Ok(restore_value(from))
    }
}

// The value that comes next.
fn restore_value(from: &mut Restoring<'_>) -> Option<Value>
    ensures { option_map (λ v. (v, from.new)) result ≡ read_value from.old }
{
    match from.number()? {
        0 => Some(Value::Int(from.signed()?)),
        1 => Some(Value::Bool(from.flag()?)),
        2 => Some(Value::Enum(from.short()?)),
        _ => None,
    }
}

impl Saved for Event {
    ghost use Rattle.wsm_record.specs.Event.{Event as AnyEvent};

    ghost Shown = { AnyEvent };

    ghost shown = { event_of };

    ghost text = { event_text };

    ghost read = { read_event };

    ghost Fits = { EventFits };

    ghost back = { event_reads_back };

    fn save(&self, out: &mut Vec<u8>) -> Result<(), AllocError> {
        match self {
            Event::Record { key, time, values } => {
                save_number(0, out)?;
                save_key(*key, out)?;
                save_signed(*time, out)?;
                save_all(values, out)
            }
            Event::Watermark { source, time } => {
                save_number(1, out)?;
                save_source(*source, out)?;
                save_signed(*time, out)
            }
        }
    }

    fn restore(alloc: Global, from: &mut Restoring<'_>) -> Result<Option<Event>, AllocError> {
        match from.number() {
            Some(0) => restore_record(alloc, from),
            Some(1) => Ok(restore_watermark(from)),
            _ => Ok(None),
        }
    }
}

// What a record says, that comes next.
#[tactic(auto, unfolding(crate::specs::Events::read_record))]
fn restore_record(alloc: Global, from: &mut Restoring<'_>) -> Result<Option<Event>, AllocError>
    ensures { IfOk result (λ o. option_map (λ e. (event_of e, from.new)) o ≡ read_record from.old) }
{
    let Some(key) = from.key() else {
        return Ok(None);
    };
    let Some(time) = from.signed() else {
        return Ok(None);
    };
    let Some(values) = restore_all(alloc, from)? else {
        return Ok(None);
    };
    Ok(Some(Event::Record { key, time, values }))
}

// What a watermark says, that comes next.
#[tactic(auto, unfolding(crate::specs::Events::read_watermark))]
fn restore_watermark(from: &mut Restoring<'_>) -> Option<Event>
    ensures { option_map (λ e. (event_of e, from.new)) result ≡ read_watermark from.old }
{
    let source = from.source()?;
    let time = from.signed()?;
    Some(Event::Watermark { source, time })
}
