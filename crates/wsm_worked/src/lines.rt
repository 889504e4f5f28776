//! A line of what is written.

use std::alloc::Global;
use std::test::Fail;
use wsm_csv::row_text;
use wsm_record::{Cell, Columns, Name, Schema};
use wsm_semantics::OutRow;
use wsm_windows::Window;

// Keys a and b.
fn shop(alloc: Global) -> Result<Schema, Fail> {
    let keys = vec![in alloc; name(b"a")?, name(b"b")?]?;
    Ok(Schema::new(alloc, &keys, &[], &[])?)
}

fn columns_of(cells: &[Cell]) -> Columns {
    let mut columns = Columns::new();
    for cell in cells {
        if columns.len() < 16 {
            columns.push(*cell);
        }
    }
    columns
}

// The line of a row.
fn line(alloc: Global, row: &OutRow) -> Result<Vec<u8>, Fail> {
    let schema = shop(alloc)?;
    let mut out = Vec::new(alloc);
    row_text(&schema, row, &mut out)?;
    Ok(out)
}

// What was written is withdrawn under its key and its window.
#[test]
fn a_row_that_withdraws(rt: HostRuntime) -> Result<(), Fail> {
    let row = OutRow::Retract {
        key: 1,
        window: Window {
            start: -50,
            end: 10,
        },
        columns: columns_of(&[Cell::Int(2), Cell::Bool(true)]),
    };
    let line = line(rt.alloc(), &row)?;
    assert_eq!(rt; line.as_slice(), b"retract,b,-50,10,2,true\n".as_slice());
    Ok(())
}

#[test]
fn a_column_is_written_by_its_type(rt: HostRuntime) -> Result<(), Fail> {
    let columns = columns_of(&[Cell::Int(i64::MIN), Cell::Bool(false), Cell::Enum(0, 1)]);
    let line = line(rt.alloc(), &OutRow::Dstream { mark: 61, columns })?;
    assert_eq!(rt;
        line.as_slice(),
        b"dstream,61,-9223372036854775808,false,b\n".as_slice()
    );
    Ok(())
}

// A name, where the text is one.
fn name(text: &[u8]) -> Result<Name, Fail> {
    Ok(Name::new(text).ok_or("no name")?)
}
