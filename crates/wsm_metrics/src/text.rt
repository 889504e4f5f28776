//! Metrics as text.

ghost use Rattle.std.specs.Prelude.{◌≡◌, ◌++◌, IfOk, OnOk, map};
ghost use Rattle.std.specs.List.{flat_map};
ghost use Rattle.wsm_metrics.specs.Seen.{labelled_seen, metric_seen};
ghost use Rattle.wsm_metrics.specs.Text.{begins_well, head_text, help_byte, kind_text, label_byte, labelled_text, labelled_texts, metric_text, metrics_text, name_byte, name_text, value_text};

use crate::metric::{Kind, Labelled, Metric, Values};
use itoa::Buffer;
use std::alloc::{AllocError, Global};

/// The text of metrics, one behind the other. No two should have one name.
///
/// # Errors
///
/// Memory was refused.
pub fn metrics_text(alloc: Global, metrics: &[Metric<'_>]) -> Result<Vec<u8>, AllocError>
    ensures { IfOk result (λ text. text.items ≡ metrics_text (map metric_seen metrics.now)) }
{
    let mut text = Vec::new(alloc);
    add_metrics(metrics, &mut text)?;
    Ok(text)
}

// Adds metrics, one behind the other.
fn add_metrics(metrics: &[Metric<'_>], text: &mut Vec<u8>) -> Result<(), AllocError>
    ensures { OnOk result (text.new.items ≡ text.old.items ++ metrics_text (map metric_seen metrics.now)) }
{
    match metrics.split_first() {
        Some((metric, metrics)) => {
            add_metric(metric, text)?;
            add_metrics(metrics, text)
        }
        None => Ok(()),
    }
}

// Adds a metric: what it means, its kind, and its values.
fn add_metric(metric: &Metric<'_>, text: &mut Vec<u8>) -> Result<(), AllocError>
    ensures { OnOk result (text.new.items ≡ text.old.items ++ metric_text (metric_seen metric.now)) }
{
    add_head(metric, text)?;
    match metric.values {
        Values::One(value) => {
            add_name(metric.name, text)?;
            add_value(value, text)
        }
        Values::By(label, values) => add_values(metric.name, label, values, text),
    }
}

// Adds the two lines in front of a metric's values.
fn add_head(metric: &Metric<'_>, text: &mut Vec<u8>) -> Result<(), AllocError>
    ensures { OnOk result (text.new.items ≡ text.old.items ++ head_text metric.now.name.now metric.now.help.now metric.now.kind) }
{
    text.extend_from_slice(b"# HELP ")?;
    add_name(metric.name, text)?;
    text.push(b' ')?;
    add_help(metric.help, text)?;
    text.extend_from_slice(b"\n# TYPE ")?;
    add_name(metric.name, text)?;
    text.extend_from_slice(kind_text(metric.kind))
}

// The end of the line that says the kind.
fn kind_text(kind: Kind) -> &'static [u8]
    ensures { result.now ≡ kind_text kind }
{
    match kind {
        Kind::Counter => b" counter\n",
        Kind::Gauge => b" gauge\n",
    }
}

// Adds a value for each word of a label.
fn add_values(
    name: &str,
    label: &str,
    values: &[Labelled<'_>],
    text: &mut Vec<u8>,
) -> Result<(), AllocError>
    ensures { OnOk result (text.new.items ≡ text.old.items ++ labelled_texts name.now label.now (map labelled_seen values.now)) }
{
    match values.split_first() {
        Some((labelled, values)) => {
            add_labelled(name, label, labelled, text)?;
            add_values(name, label, values, text)
        }
        None => Ok(()),
    }
}

// Adds the value of a word.
fn add_labelled(
    name: &str,
    label: &str,
    labelled: &Labelled<'_>,
    text: &mut Vec<u8>,
) -> Result<(), AllocError>
    ensures { OnOk result (text.new.items ≡ text.old.items ++ labelled_text name.now label.now (labelled_seen labelled.now)) }
{
    add_name(name, text)?;
    text.push(b'{')?;
    add_name(label, text)?;
    text.extend_from_slice(b"=\"")?;
    add_word(labelled.word, text)?;
    text.extend_from_slice(b"\"}")?;
    add_value(labelled.value, text)
}

// Adds a word of a label.
fn add_word(word: &str, text: &mut Vec<u8>) -> Result<(), AllocError>
    ensures { OnOk result (text.new.items ≡ text.old.items ++ flat_map label_byte word.now) }
{
    for byte in word.bytes() {
        add_label_byte(byte, text)?;
    }
    Ok(())
}

// Adds what ends the line of a value.
fn add_value(value: u64, text: &mut Vec<u8>) -> Result<(), AllocError>
    ensures { OnOk result (text.new.items ≡ text.old.items ++ value_text value) }
{
    let mut digits = Buffer::new();
    text.push(b' ')?;
    text.extend_from_slice(digits.format(value).as_bytes())?;
    Ok(text.push(b'\n')?)
}

// Adds a name.
fn add_name(name: &str, text: &mut Vec<u8>) -> Result<(), AllocError>
    ensures { OnOk result (text.new.items ≡ text.old.items ++ name_text name.now) }
{
    if !begins_well(name.as_bytes()) {
        text.push(b'_')?;
    }
    add_name_bytes(name, text)
}

// Adds the bytes of a name.
fn add_name_bytes(name: &str, text: &mut Vec<u8>) -> Result<(), AllocError>
    ensures { OnOk result (text.new.items ≡ text.old.items ++ map name_byte name.now) }
{
    for byte in name.bytes() {
        text.push(name_byte(byte))?;
    }
    Ok(())
}

// Whether a name begins with a byte that is no digit.
fn begins_well(name: &[u8]) -> bool
    ensures { result ≡ begins_well name.now }
{
    match name.split_first() {
        Some((first, _)) => !first.is_ascii_digit(),
        None => false,
    }
}

// A byte of a name: `_` in the place of one that stands in none.
fn name_byte(byte: u8) -> u8
    ensures { result ≡ name_byte byte }
{
    if byte.is_ascii_alphabetic() || byte.is_ascii_digit() {
        byte
    } else {
        b'_'
    }
}

// Adds what a metric means.
fn add_help(help: &str, text: &mut Vec<u8>) -> Result<(), AllocError>
    ensures { OnOk result (text.new.items ≡ text.old.items ++ flat_map help_byte help.now) }
{
    for byte in help.bytes() {
        add_help_byte(byte, text)?;
    }
    Ok(())
}

// Adds a byte of what a metric means.
fn add_help_byte(byte: u8, text: &mut Vec<u8>) -> Result<(), AllocError>
    ensures { OnOk result (text.new.items ≡ text.old.items ++ help_byte byte) }
{
    match byte {
        b'\\' => text.extend_from_slice(b"\\\\"),
        b'\n' => text.extend_from_slice(b"\\n"),
        byte => Ok(text.push(byte)?),
    }
}

// Adds a byte of a word of a label, where a quote would end it.
fn add_label_byte(byte: u8, text: &mut Vec<u8>) -> Result<(), AllocError>
    ensures { OnOk result (text.new.items ≡ text.old.items ++ label_byte byte) }
{
    match byte {
        b'"' => text.extend_from_slice(b"\\\""),
        byte => add_help_byte(byte, text),
    }
}
