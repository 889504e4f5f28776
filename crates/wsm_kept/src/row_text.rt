//! The text of a row.

ghost use Rattle.std.specs.Prelude.{◌≡◌, IfOk, OnOk};
ghost use Rattle.csv.specs.Records.{fields_of};
ghost use Rattle.csv.specs.Writing.{default_writer, row_text};

use csv::ByteRecord;
use std::alloc::{AllocError, Global};
use wsm_deal::add_row;

/// The text of a row, as `csv` writes it. It is read back as the row.
pub fn text_of(alloc: Global, row: &ByteRecord) -> Result<Vec<u8>, AllocError>
    ensures { IfOk result (λ text. text.items ≡ row_text default_writer (fields_of row.now)) }
{
    let mut text = Vec::new(alloc);
    put_text(row, &mut text)?;
    Ok(text)
}

/// Puts the text of a row in the place of another one.
pub fn put_text(row: &ByteRecord, text: &mut Vec<u8>) -> Result<(), AllocError>
    ensures { OnOk result (text.new.items ≡ row_text default_writer (fields_of row.now)) }
{
    text.clear();
    add_row(row, text)
}
