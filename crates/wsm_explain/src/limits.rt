//! The limits that tools ask for.

ghost use Rattle.std.specs.Prelude.{◌≡◌, IfOk};
ghost use Rattle.serde_json.specs.View.{view};
ghost use Rattle.wsm_explain.specs.Limits.{limits_data};

use serde_json::{Value, json};
use std::alloc::{AllocError, Global};
use wsm_record::limits::{LATEST_TIME, LONGEST_SPAN, MAX_COLUMNS, MAX_FIELDS, MAX_NAME, MAX_NAMES};

/// How much a query may have: columns, fields, bytes of a name, keys and names of a field, the latest time and the longest
/// span.
pub fn limits_value(alloc: Global) -> Result<Value, AllocError>
    ensures { IfOk result (λ v. view v ≡ limits_data) }
{
    json!(in alloc; {
        "columns": MAX_COLUMNS,
        "fields": MAX_FIELDS,
        "latest": LATEST_TIME,
        "longest": LONGEST_SPAN,
        "name": MAX_NAME,
        "names": MAX_NAMES
    })
}
