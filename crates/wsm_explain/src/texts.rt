//! Values of JSON for texts and names.

ghost use Rattle.std.specs.Prelude.{◌≡◌, IfOk};
ghost use Rattle.serde_json.specs.View.{view};
ghost use Rattle.wsm_explain.specs.Json.{list_data, text_data};

use serde_json::Value;
use std::alloc::{AllocError, Global};
use wsm_record::Names;

/// Bytes as a text; null where they are no UTF-8.
pub fn text_value(alloc: Global, bytes: &[u8]) -> Result<Value, AllocError>
    ensures { IfOk result (λ v. view v ≡ text_data bytes.now) }
{
    match str::from_utf8(bytes) {
        Ok(text) => Value::try_from_str(alloc, text),
        Err(_) => Ok(Value::Null),
    }
}

/// Names as texts, in their order.
pub fn names_value(alloc: Global, names: &Names) -> Result<Value, AllocError>
    ensures { IfOk result (λ v. view v ≡ list_data text_data names.now) }
{
    let mut list = Vec::with_capacity(alloc, names.len())?;
    for number in 0..names.len() {
        list.push(text_value(alloc, names.text_of(number as u16))?)?;
    }
    Ok(Value::from(list))
}
