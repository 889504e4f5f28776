//! Printed tokens, each behind a space.
//!
//! Each call adds to a text. After a refusal of memory the text has what it had, and perhaps a
//! beginning of what was to be added.

ghost use Rattle.std.specs.Prelude.{◌≡◌, ◌∷◌, [], OnOk};
ghost use Rattle.wsm_tokens.specs.Tokens.{Word, Mark};
ghost use Rattle.wsm_query.specs.Adds.{adds};
ghost use Rattle.wsm_query.specs.Print.{figures};

use itoa::Buffer;
use std::alloc::AllocError;
use wsm_tokens::Sign;

/// Adds a word.
pub fn word(text: &mut Vec<u8>, word: &[u8]) -> Result<(), AllocError>
    ensures { OnOk result (text.new.items ≡ adds text.old.items (Word word.now ∷ [])) }
{
    text.push(b' ')?;
    text.extend_from_slice(word)
}

/// Adds a sign.
pub fn sign(text: &mut Vec<u8>, sign: Sign) -> Result<(), AllocError>
    ensures { OnOk result (text.new.items ≡ adds text.old.items (Mark sign ∷ [])) }
{
    word(text, sign.text())
}

/// Adds a number, behind a minus sign where it is negative.
pub fn number(text: &mut Vec<u8>, value: i64) -> Result<(), AllocError>
    ensures { OnOk result (text.new.items ≡ adds text.old.items (figures value)) }
{
    if value < 0 {
        sign(text, Sign::Minus)?;
    }
    let mut digits = Buffer::new();
    word(text, digits.format(value.unsigned_abs()).as_bytes())
}
