//! The texts of numbers.

ghost use Rattle.std.specs.Prelude.{◌≡◌, ◌<◌, ◌++◌, OnOk};
ghost use Rattle.wsm_saved.specs.Numbers.{flag_text, number_text, signed_text};

use itoa::Buffer;
use std::alloc::AllocError;

/// Adds a number.
///
/// # Errors
///
/// Memory was refused. A part may have been added.
#[tactic(auto, unfolding(crate::specs::Numbers::number_text))]
pub fn save_number(number: u64, out: &mut Vec<u8>) -> Result<(), AllocError>
    ensures { OnOk result (out.new.items ≡ out.old.items ++ number_text number) }
{
    if number < 10 {
        return save_digit(number as u8, out);
    }
    let mut digits = Buffer::new();
    out.extend_from_slice(digits.format(number).as_bytes())?;
    Ok(out.push(b',')?)
}

// Adds a number of one digit, as most are.
#[tactic(auto, unfolding(crate::specs::Numbers::number_text))]
fn save_digit(digit: u8, out: &mut Vec<u8>) -> Result<(), AllocError>
    requires { digit < 10 }
    ensures { OnOk result (out.new.items ≡ out.old.items ++ number_text digit) }
{
    out.extend_from_slice(&[b'0' + digit, b','])
}

/// Adds a number with a sign.
///
/// # Errors
///
/// Memory was refused. A part may have been added.
pub fn save_signed(number: i64, out: &mut Vec<u8>) -> Result<(), AllocError>
    ensures { OnOk result (out.new.items ≡ out.old.items ++ signed_text number) }
{
    save_number(number.cast_unsigned(), out)
}

/// Adds a truth.
///
/// # Errors
///
/// Memory was refused. A part may have been added.
pub fn save_flag(flag: bool, out: &mut Vec<u8>) -> Result<(), AllocError>
    ensures { OnOk result (out.new.items ≡ out.old.items ++ flag_text flag) }
{
    save_number(if flag { 1 } else { 0 }, out)
}
