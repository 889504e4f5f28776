//! Lists of rows in row order.

ghost use Rattle.std.specs.Prelude.{◌≡◌, ◌+◌, ◌≤◌, ◌++◌, length, vec_len, vec_capacity};
ghost use Rattle.wsm_semantics.specs.Relation.{difference};
ghost use Rattle.wsm_relation.specs.Memory.{HasItems};
ghost use Rattle.wsm_relation.specs.Rows.{rows_in, IsInOrder, passed};

use crate::order::row_order;
use std::cmp::Ordering;
use wsm_record::Columns;

/// How many of the rows stand before a row.
pub fn place_of(rows: &[Box<Columns>], row: &Columns) -> usize
    requires { IsInOrder (rows_in rows.now) }
    ensures place { result ≡ passed row.now (rows_in rows.now) }
    ensures within { result ≤ length rows.now }
{
    let mut low = 0;
    let mut high = rows.len();
    while low < high {
        let middle = low + (high - low) / 2;
        match row_order(row.as_slice(), rows[middle].as_slice()) {
            Ordering::Greater => low = middle + 1,
            _ => high = middle,
        }
    }
    low
}

/// Appends the rows.
pub fn append_all(rows: &[Box<Columns>], out: &mut Vec<Columns>)
    requires { vec_len out.old + length rows.now ≤ vec_capacity out.old }
    ensures { HasItems out.old out.new (out.old.items ++ rows_in rows.now) }
{
    let mut i = 0;
    while i < rows.len() {
        out.push_reserved(*rows[i]);
        i += 1;
    }
}

/// Appends the rows without the others, as bags: walks both lists side by side.
pub fn append_difference(rows: &[Box<Columns>], others: &[Box<Columns>], out: &mut Vec<Columns>)
    requires rows { IsInOrder (rows_in rows.now) }
    requires others { IsInOrder (rows_in others.now) }
    requires room { vec_len out.old + length rows.now ≤ vec_capacity out.old }
    ensures { HasItems out.old out.new (out.old.items ++ difference (rows_in rows.now) (rows_in others.now)) }
{
    let mut i = 0;
    let mut j = 0;
    while i < rows.len() {
        let order = if j < others.len() {
            row_order(rows[i].as_slice(), others[j].as_slice())
        } else {
            Ordering::Less
        };
        match order {
            Ordering::Less => {
                out.push_reserved(*rows[i]);
                i += 1;
            }
            Ordering::Equal => {
                i += 1;
                j += 1;
            }
            Ordering::Greater => j += 1,
        }
    }
}
