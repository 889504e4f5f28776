//! A name as a cell of CSV.

ghost use Rattle.std.specs.Prelude.{◌≡◌, ◌++◌, ◌∷◌, [], IfOk, OnOk};
ghost use Rattle.wsm_key_names.specs.Cell.{doubled, is_mark, kept_of, needs_quotes, quoted};

use std::alloc::{AllocError, Global};

/// What is kept of the cell of a name: nothing where the name is its own cell.
pub(crate) fn kept_cell(alloc: Global, name: &[u8]) -> Result<Vec<u8>, AllocError>
    ensures { IfOk result (λ cell. cell.items ≡ kept_of name.now) }
{
    let mut cell = Vec::new(alloc);
    if needs_quotes(name) {
        add_quoted(name, &mut cell)?;
    }
    Ok(cell)
}

fn needs_quotes(name: &[u8]) -> bool
    ensures { result ≡ needs_quotes name.now }
{
    name.iter().any(|byte| is_mark(*byte))
}

fn is_mark(byte: u8) -> bool
    ensures { result ≡ is_mark byte }
{
    byte == b',' || byte == b'"' || byte == b'\r' || byte == b'\n'
}

// Adds a name between quotes.
fn add_quoted(name: &[u8], out: &mut Vec<u8>) -> Result<(), AllocError>
    ensures { OnOk result (out.new.items ≡ out.old.items ++ quoted name.now) }
{
    out.push(b'"')?;
    for byte in name {
        add_doubled(*byte, out)?;
    }
    Ok(out.push(b'"')?)
}

// Adds a byte that stands between quotes.
fn add_doubled(byte: u8, out: &mut Vec<u8>) -> Result<(), AllocError>
    ensures { OnOk result (out.new.items ≡ out.old.items ++ doubled (byte ∷ [])) }
{
    if byte == b'"' {
        out.push(b'"')?;
    }
    Ok(out.push(byte)?)
}
