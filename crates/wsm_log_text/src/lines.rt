//! What is written and kept of a line.

ghost use Rattle.std.specs.Prelude.{◌≡◌, ◌++◌, OnOk, if◌then◌else◌, nat_eq};
ghost use Rattle.wsm_log_text.specs.LogText.{fault_text};

use itoa::Buffer;
use std::alloc::AllocError;
use wsm_lines::LineFault;

/// Adds the line of a line that is no event.
///
/// # Errors
///
/// Memory was refused.
pub fn add_fault(number: u64, why: LineFault, lines: &mut Vec<u8>) -> Result<(), AllocError>
    ensures { OnOk result (lines.new.items ≡ lines.old.items ++ fault_text number why) }
{
    let mut digits = Buffer::new();
    lines.extend_from_slice(b"refused,")?;
    lines.extend_from_slice(digits.format(number).as_bytes())?;
    lines.push(b',')?;
    lines.extend_from_slice(why.word().as_bytes())?;
    Ok(lines.push(b'\n')?)
}

/// Keeps the first line, where none was taken before it.
///
/// # Errors
///
/// Memory was refused.
pub fn note_first(taken: u64, line: &[u8], first: &mut Vec<u8>) -> Result<(), AllocError>
    ensures { OnOk result (first.new.items ≡ (if nat_eq taken 0 then line.now else first.old.items)) }
{
    if taken == 0 {
        first.clear();
        first.extend_from_slice(line)
    } else {
        Ok(())
    }
}
