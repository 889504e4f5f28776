//! What a program declares, as JSON.

ghost use Rattle.std.specs.Prelude.{◌≡◌, IfOk, map};
ghost use Rattle.serde_json.specs.View.{view};
ghost use Rattle.wsm_record.specs.Fields.{field_seen};
ghost use Rattle.wsm_query.specs.Print as rule;
ghost use Rattle.wsm_explain.specs.Json.{list_data, or_null};
ghost use Rattle.wsm_explain.specs.Declarations.{clock_data, column_data, costs_data, field_data, firing_data, interval_data, range_data, trigger_data, window_data};

use crate::texts::{names_value, text_value};
use serde_json::{Value, json};
use std::alloc::{AllocError, Global};
use wsm_admission::Clock;
use wsm_interval::Interval;
use wsm_program::Costs;
use wsm_record::{CellType, DeclaredField, FieldType, Form, Mode};
use wsm_windows::Shape;

/// The fields, in their order.
pub fn fields_value(alloc: Global, fields: &[DeclaredField]) -> Result<Value, AllocError>
    ensures { IfOk result (λ v. view v ≡ list_data field_data (map field_seen fields.now)) }
{
    let mut list = Vec::with_capacity(alloc, fields.len())?;
    for field in fields {
        list.push(field_value(alloc, field)?)?;
    }
    Ok(Value::from(list))
}

fn field_value(alloc: Global, field: &DeclaredField) -> Result<Value, AllocError>
    ensures { IfOk result (λ v. view v ≡ field_data (field_seen field.now)) }
{
    let name = text_value(alloc, field.name.as_bytes())?;
    match &field.ty {
        FieldType::Int { lo, hi } => {
            let range = range_value(alloc, *lo, *hi)?;
            json!(in alloc; {"name": name, "range": range, "type": "INT"})
        }
        FieldType::Bool => json!(in alloc; {"name": name, "type": "BOOL"}),
        FieldType::Enum(names) => {
            let names = names_value(alloc, names)?;
            json!(in alloc; {"name": name, "names": names, "type": "ENUM"})
        }
    }
}

fn range_value(alloc: Global, least: i64, greatest: i64) -> Result<Value, AllocError>
    ensures { IfOk result (λ v. view v ≡ range_data least greatest) }
{
    json!(in alloc; {"greatest": greatest, "least": least})
}

/// An interval, where there is one.
pub fn maybe_interval(alloc: Global, range: Option<Interval>) -> Result<Value, AllocError>
    ensures { IfOk result (λ v. view v ≡ or_null interval_data range) }
{
    match range {
        Some(interval) => interval_value(alloc, interval),
        None => Ok(Value::Null),
    }
}

// The numbers from one end of an interval to the other.
fn interval_value(alloc: Global, interval: Interval) -> Result<Value, AllocError>
    ensures { IfOk result (λ v. view v ≡ interval_data interval) }
{
    range_value(alloc, interval.lo, interval.hi)
}

/// By which records and watermarks are admitted.
pub fn clock_value(alloc: Global, clock: &Clock) -> Result<Value, AllocError>
    ensures { IfOk result (λ v. view v ≡ clock_data clock.now) }
{
    json!(in alloc; {
        "from_window": clock.from_window,
        "lateness": clock.lateness,
        "records": clock.records,
        "skew": clock.skew,
        "start": clock.start
    })
}

/// How records are put into windows.
pub fn window_value(alloc: Global, shape: Shape) -> Result<Value, AllocError>
    ensures { IfOk result (λ v. view v ≡ window_data shape) }
{
    match shape {
        Shape::Fixed(size) => json!(in alloc; {"shape": "FIXED", "size": size, "slide": size}),
        Shape::Sliding(size, slide) => {
            json!(in alloc; {"shape": "SLIDING", "size": size, "slide": slide})
        }
        Shape::Session(gap) => json!(in alloc; {"gap": gap, "shape": "SESSION"}),
    }
}

/// When panes fire, what a firing is computed over, and what is written.
pub fn firing_value(
    alloc: Global,
    mode: Mode,
    early: i64,
    late: i64,
    form: Form,
) -> Result<Value, AllocError>
    ensures { IfOk result (λ v. view v ≡ firing_data mode early late form) }
{
    json!(in alloc; {
        "early": trigger_value(early),
        "form": form_word(form),
        "late": trigger_value(late),
        "mode": mode_word(mode)
    })
}

// After how many unshown records a pane fires; null for 0, where it doesn't.
fn trigger_value(count: i64) -> Value
    ensures { view result ≡ trigger_data count }
{
    if count == 0 {
        Value::Null
    } else {
        Value::from(count)
    }
}

fn mode_word(mode: Mode) -> &'static str
    ensures { result.now ≡ rule.mode_word mode }
{
    match mode {
        Mode::Accumulating => "ACCUMULATING",
        Mode::Discarding => "DISCARDING",
        Mode::Retracting => "RETRACTING",
    }
}

fn form_word(form: Form) -> &'static str
    ensures { result.now ≡ rule.form_word form }
{
    match form {
        Form::Panes => "PANES",
        Form::Istream => "ISTREAM",
        Form::Dstream => "DSTREAM",
        Form::Rstream => "RSTREAM",
    }
}

/// A column of a type, with the range of one of numbers, where that is known.
pub fn column_value(
    alloc: Global,
    ty: CellType,
    range: Option<Interval>,
) -> Result<Value, AllocError>
    ensures { IfOk result (λ v. view v ≡ column_data ty range) }
{
    match ty {
        CellType::Int => {
            let range = maybe_interval(alloc, range)?;
            json!(in alloc; {"range": range, "type": "INT"})
        }
        CellType::Bool => json!(in alloc; {"type": "BOOL"}),
        CellType::Enum(number) => json!(in alloc; {"enum": number, "type": "ENUM"}),
    }
}

/// Instructions for a record and for a pane, and panes.
pub fn costs_value(alloc: Global, costs: Costs) -> Result<Value, AllocError>
    ensures { IfOk result (λ v. view v ≡ costs_data costs) }
{
    json!(in alloc; {
        "held": costs.held,
        "pane": costs.per_pane,
        "record": costs.per_record
    })
}
