//! Where what a record has stands in a line.

ghost use Rattle.std.specs.Prelude.{◌≡◌, ◌⊎◌, IfOk, IfErr, Ok, Err};
ghost use Rattle.toml.specs.View.{table_view};
ghost use Rattle.wsm_description.specs.RecordPart.{said_record, row_record, record_of};

use crate::description::{
    FieldDescriptions, FormDescription, Format, KeyDescription, KeyNaming, TimeDescription,
};
use crate::field_part::fields_of;
use crate::identifier_part::identifier_of;
use crate::key_part::key_of;
use crate::reading::require_absent;
use crate::refusal::Refusal;
use crate::time_part::time_of;
use std::alloc::Global;
use toml::Table;
use wsm_values::{Unit, Word};

/// What is said of a record.
#[derive(Drop)]
pub struct RecordDescription {
    pub key: KeyDescription,
    pub time: TimeDescription,
    pub fields: FieldDescriptions,
    pub identifier: Option<Word>,
}

// A record whose places are said.
fn said_record(alloc: Global, table: &Table) -> Result<RecordDescription, Refusal>
    ensures ok { IfOk result (λ d. said_record (table_view table.now) ≡ Ok d) }
    ensures fault { IfErr result (λ r. (r ≡ Refusal.Memory) ⊎ (said_record (table_view table.now) ≡ Err r)) }
{
    let key = key_of(alloc, table)?;
    let time = time_of(alloc, table)?;
    let fields = fields_of(alloc, table)?;
    let identifier = identifier_of(alloc, table)?;
    Ok(RecordDescription {
        key,
        time,
        fields,
        identifier,
    })
}

// A record of a row, of which nothing may be said.
fn row_record(alloc: Global, table: &Table) -> Result<RecordDescription, Refusal>
    ensures ok { IfOk result (λ d. row_record (table_view table.now) ≡ Ok d) }
    ensures fault { IfErr result (λ r. (r ≡ Refusal.Memory) ⊎ (row_record (table_view table.now) ≡ Err r)) }
{
    require_absent(alloc, "", table, "key")?;
    require_absent(alloc, "", table, "time")?;
    require_absent(alloc, "", table, "fields")?;
    require_absent(alloc, "", table, "identifier")?;
    Ok(RecordDescription {
        key: KeyDescription {
            at: Word::new(alloc, "key")?,
            naming: KeyNaming::Same,
        },
        time: TimeDescription {
            at: Word::new(alloc, "time")?,
            form: FormDescription::Epoch(Unit::Seconds),
            unit: Unit::Seconds,
        },
        fields: FieldDescriptions::new(Vec::new(alloc)),
        identifier: None,
    })
}

/// What is said of a record, by the format of its line.
pub fn record_of(alloc: Global, format: Format, table: &Table) -> Result<RecordDescription, Refusal>
    ensures ok { IfOk result (λ d. record_of format (table_view table.now) ≡ Ok d) }
    ensures fault { IfErr result (λ r. (r ≡ Refusal.Memory) ⊎ (record_of format (table_view table.now) ≡ Err r)) }
{
    match format {
        Format::Json | Format::Access | Format::Csv(_) => said_record(alloc, table),
        Format::Rows => row_record(alloc, table),
    }
}
