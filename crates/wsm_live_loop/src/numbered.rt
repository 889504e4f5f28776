//! What stands in numbered lines, `NUMBER,SUM,LINE`.

use std::alloc::AllocError;
use wsm_row_counts::Counts;

// The number, the sum and the rest of a numbered line.
fn parts_of(line: &str) -> Option<(u64, u32, &str)> {
    let (number, rest) = line.split_once(",")?;
    let (sum, rest) = rest.split_once(",")?;
    Some((number.parse::<u64>().ok()?, sum.parse::<u32>().ok()?, rest))
}

/// Counts the rows that stand in numbered lines.
///
/// # Errors
///
/// Memory was refused.
pub fn count_rows(lines: &[u8], counts: &mut Counts) -> Result<(), AllocError> {
    for line in lines.split(|byte| *byte == b'\n') {
        let Ok(text) = str::from_utf8(line) else {
            continue;
        };
        if let Some((_, _, row)) = parts_of(text) {
            counts.add(row)?;
        }
    }
    Ok(())
}
