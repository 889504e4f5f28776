//! What is said of fields.

ghost use Rattle.std.specs.Prelude.{◌≡◌, ◌⊎◌, IfOk, IfErr, Ok, Err};
ghost use Rattle.toml.specs.View.{view, table_view};
ghost use Rattle.wsm_description.specs.FieldPart.{default_in, default_of, scale_of, is_group, decimal_of, truths_of, words_of, field_in, field_of, fields_in, fields_of};

use crate::description::{
    DecimalDescription, DefaultValue, Entries, FieldDescription, FieldDescriptions, Truths,
};
use crate::key_part::texts_of;
use crate::keys::{Section, require_known};
use crate::reading::{Mark, found, mark_at, number_at, table_at, word_at};
use crate::refusal::{Refusal, SourceFault, dotted, refuse};
use std::alloc::Global;
use toml::{Table, Value};
use wsm_values::Word;

/// The most digits behind the point that count.
pub const MOST_SCALE: u64 = 18;

// What a default says.
fn default_in(alloc: Global, section: &str, value: &Value) -> Result<DefaultValue, Refusal>
    ensures ok { IfOk result (λ d. default_in section.now (view value.now) ≡ Ok d) }
    ensures fault { IfErr result (λ r. (r ≡ Refusal.Memory) ⊎ (default_in section.now (view value.now) ≡ Err r)) }
{
    if let Some(text) = value.as_str() {
        return Ok(DefaultValue::Name(Word::new(alloc, text)?));
    }
    if let Some(number) = value.as_integer() {
        return Ok(DefaultValue::Whole(number));
    }
    match value.as_bool() {
        Some(truth) => Ok(DefaultValue::Truth(truth)),
        None => Err(refuse(alloc, SourceFault::BadType, section, "default")),
    }
}

// The default of a field.
fn default_of(alloc: Global, section: &str, table: &Table) -> Result<Option<DefaultValue>, Refusal>
    ensures ok { IfOk result (λ d. default_of section.now (table_view table.now) ≡ Ok d) }
    ensures fault { IfErr result (λ r. (r ≡ Refusal.Memory) ⊎ (default_of section.now (table_view table.now) ≡ Err r)) }
{
    match found(table, "default") {
        Some(value) => Ok(Some(default_in(alloc, section, value)?)),
        None => Ok(None),
    }
}

// How many digits behind the point count.
fn scale_of(alloc: Global, section: &str, table: &Table) -> Result<Option<u8>, Refusal>
    ensures ok { IfOk result (λ scale. scale_of section.now (table_view table.now) ≡ Ok scale) }
    ensures fault { IfErr result (λ r. (r ≡ Refusal.Memory) ⊎ (scale_of section.now (table_view table.now) ≡ Err r)) }
{
    match number_at(alloc, section, table, "scale", 0, MOST_SCALE)? {
        Some(scale) => Ok(Some(scale as u8)),
        None => Ok(None),
    }
}

// Whether groups are parted by another character than the point.
fn is_group(point: Option<u8>, group: Option<u8>) -> bool
    ensures { result ≡ is_group point group }
{
    match group {
        Some(byte) => byte != point.unwrap_or(b'.'),
        None => true,
    }
}

// How a decimal is written.
fn decimal_of(alloc: Global, section: &str, table: &Table) -> Result<DecimalDescription, Refusal>
    ensures ok { IfOk result (λ d. decimal_of section.now (table_view table.now) ≡ Ok d) }
    ensures fault { IfErr result (λ r. (r ≡ Refusal.Memory) ⊎ (decimal_of section.now (table_view table.now) ≡ Err r)) }
{
    let scale = scale_of(alloc, section, table)?;
    let point = mark_at(alloc, section, table, "point", Mark::Sign)?;
    let group = mark_at(alloc, section, table, "group", Mark::Sign)?;
    if is_group(point, group) {
        Ok(DecimalDescription {
            scale,
            point,
            group,
        })
    } else {
        Err(refuse(alloc, SourceFault::Conflict, section, "group"))
    }
}

// The words for true and false: both or neither, and two.
fn truths_of(alloc: Global, section: &str, table: &Table) -> Result<Option<Truths>, Refusal>
    ensures ok { IfOk result (λ t. truths_of section.now (table_view table.now) ≡ Ok t) }
    ensures fault { IfErr result (λ r. (r ≡ Refusal.Memory) ⊎ (truths_of section.now (table_view table.now) ≡ Err r)) }
{
    let yes = word_at(alloc, section, table, "true")?;
    let no = word_at(alloc, section, table, "false")?;
    match yes {
        None => match no {
            None => Ok(None),
            Some(_) => Err(refuse(alloc, SourceFault::Conflict, section, "false")),
        },
        Some(yes) => match no {
            None => Err(refuse(alloc, SourceFault::Conflict, section, "true")),
            Some(no) => {
                if yes.as_str() == no.as_str() {
                    Err(refuse(alloc, SourceFault::Conflict, section, "false"))
                } else {
                    Ok(Some(Truths { yes, no }))
                }
            }
        },
    }
}

// Further words for declared names.
fn words_of(alloc: Global, section: &str, table: &Table) -> Result<Option<Entries>, Refusal>
    ensures ok { IfOk result (λ words. words_of section.now (table_view table.now) ≡ Ok words) }
    ensures fault { IfErr result (λ r. (r ≡ Refusal.Memory) ⊎ (words_of section.now (table_view table.now) ≡ Err r)) }
{
    match table_at(alloc, section, table, "words")? {
        Some(words) => {
            let inner = dotted(alloc, section, "words")?;
            let entries = texts_of(alloc, inner.as_str(), words)?;
            Ok(Some(Entries::new(entries)))
        }
        None => Ok(None),
    }
}

// What is said of a field in its table.
fn field_in(
    alloc: Global,
    section: &str,
    name: &str,
    table: &Table,
) -> Result<FieldDescription, Refusal>
    ensures ok { IfOk result (λ f. field_in section.now name.now (table_view table.now) ≡ Ok f) }
    ensures fault { IfErr result (λ r. (r ≡ Refusal.Memory) ⊎ (field_in section.now name.now (table_view table.now) ≡ Err r)) }
{
    require_known(alloc, Section::Field, section, table)?;
    let decimal = decimal_of(alloc, section, table)?;
    let at = word_at(alloc, section, table, "at")?;
    let default = default_of(alloc, section, table)?;
    let truths = truths_of(alloc, section, table)?;
    let words = words_of(alloc, section, table)?;
    let name = Word::new(alloc, name)?;
    let at = match at {
        Some(at) => at,
        None => Word::new(alloc, name.as_str())?,
    };
    Ok(FieldDescription {
        name,
        at,
        decimal,
        default,
        truths,
        words,
    })
}

// What is said of a field.
fn field_of(alloc: Global, name: &str, value: &Value) -> Result<FieldDescription, Refusal>
    ensures ok { IfOk result (λ f. field_of name.now (view value.now) ≡ Ok f) }
    ensures fault { IfErr result (λ r. (r ≡ Refusal.Memory) ⊎ (field_of name.now (view value.now) ≡ Err r)) }
{
    match value.as_table() {
        Some(table) => {
            let section = dotted(alloc, "fields", name)?;
            field_in(alloc, section.as_str(), name, table)
        }
        None => Err(refuse(alloc, SourceFault::BadType, "fields", name)),
    }
}

// What is said of fields, in the order of their names' bytes.
fn fields_in(alloc: Global, table: &Table) -> Result<Vec<FieldDescription>, Refusal>
    ensures ok { IfOk result (λ fs. fields_in (table_view table.now) ≡ Ok fs.items) }
    ensures fault { IfErr result (λ r. (r ≡ Refusal.Memory) ⊎ (fields_in (table_view table.now) ≡ Err r)) }
{
    let mut fields = Vec::new(alloc);
    for (name, value) in table.iter() {
        let field = field_of(alloc, name.as_str(), value)?;
        fields.push(field)?;
    }
    Ok(fields)
}

/// What is said of fields.
pub fn fields_of(alloc: Global, table: &Table) -> Result<FieldDescriptions, Refusal>
    ensures ok { IfOk result (λ fs. fields_of (table_view table.now) ≡ Ok fs) }
    ensures fault { IfErr result (λ r. (r ≡ Refusal.Memory) ⊎ (fields_of (table_view table.now) ≡ Err r)) }
{
    match table_at(alloc, "", table, "fields")? {
        Some(fields) => Ok(FieldDescriptions::new(fields_in(alloc, fields)?)),
        None => Ok(FieldDescriptions::new(Vec::new(alloc))),
    }
}
