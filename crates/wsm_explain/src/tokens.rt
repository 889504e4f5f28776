//! Going through the tokens of a text.

ghost use Rattle.std.specs.Prelude.{◌≡◌, is_some};
ghost use Rattle.wsm_tokens.specs.Read.{in_sight};

use wsm_tokens::Reader;

/// Whether a token is in sight.
pub fn has_token(reader: &Reader) -> bool
    ensures { result ≡ is_some (in_sight reader.now) }
{
    match reader.peek() {
        Some(_) => true,
        None => false,
    }
}
