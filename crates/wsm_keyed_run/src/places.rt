//! The program of a text without a KEYS clause, over places.

ghost use Rattle.std.specs.Prelude.{◌≡◌, ◌++◌, false, true, codes, IfErr, IfOk, OnOk};
ghost use Rattle.wsm_tokens.specs.Tokens.{tokens};
ghost use Rattle.wsm_tokens.specs.Read.{begins};
ghost use Rattle.wsm_inputs.specs.Ends.{hides_memory};
ghost use Rattle.wsm_keyed_run.specs.Places.{place_text, says, text_over, IsByPlaces, IsUnaccepted};

use itoa::Buffer;
use std::alloc::{AllocError, Global};
use wsm_inputs::{End, Input, accepted_of};
use wsm_record::limits::MAX_NAMES;
use wsm_rules::Verified;
use wsm_tokens::Reader;

/// Whether a text begins with a KEYS clause.
pub fn begins_with_keys(text: &[u8]) -> bool
    ensures { result ≡ begins (codes "KEYS") (tokens text.now) }
{
    Reader::new(text).begins(b"KEYS")
}

/// Whether a text says KEY, up to where no token can be read.
pub fn says_key(text: &[u8]) -> bool
    ensures { result ≡ true → says (codes "KEY") (tokens text.now) ≡ true }
{
    let mut reader = Reader::new(text);
    // Each token has a byte of its own.
    for _turn in 0..text.len() {
        if reader.begins(b"KEY") {
            return true;
        }
        reader.advance();
    }
    false
}

/// The accepted program of a text without a KEYS clause, over as many places as its checks and the verifier take,
/// up to [`MAX_NAMES`].
///
/// # Errors
///
/// Those of the text over one place where that isn't accepted; else [`End::Memory`].
pub fn accepted_by_places(alloc: Global, text: &[u8]) -> Result<Verified, End>
    ensures accepted { IfOk result (λ verified. IsByPlaces text.now verified) }
    ensures unaccepted { IfErr result (IsUnaccepted text.now) }
    ensures memory_apart { IfErr result (λ end. hides_memory end ≡ false) }
{
    match accepted_over(alloc, MAX_NAMES, text) {
        Ok(verified) => Ok(verified),
        Err(End::Memory) => Err(End::Memory),
        Err(_) => accepted_over_fewer(alloc, text),
    }
}

// The same over fewer than the most places.
fn accepted_over_fewer(alloc: Global, text: &[u8]) -> Result<Verified, End>
    ensures accepted { IfOk result (λ verified. IsByPlaces text.now verified) }
    ensures unaccepted { IfErr result (IsUnaccepted text.now) }
    ensures memory_apart { IfErr result (λ end. hides_memory end ≡ false) }
{
    let mut verified = accepted_over(alloc, 1, text)?;
    let mut least = 1;
    let mut most = MAX_NAMES - 1;
    while least < most {
        let middle = (least + most + 1) / 2;
        match accepted_over(alloc, middle, text) {
            Ok(over_middle) => {
                verified = over_middle;
                least = middle;
            }
            Err(End::Memory) => return Err(End::Memory),
            Err(_) => most = middle - 1,
        }
    }
    Ok(verified)
}

// The accepted program of a text over so many places.
fn accepted_over(alloc: Global, places: usize, text: &[u8]) -> Result<Verified, End>
    ensures accepted { IfOk result (λ verified. IsByPlaces text.now verified) }
    ensures unaccepted { IfErr result (IsUnaccepted text.now) }
    ensures memory_apart { IfErr result (λ end. hides_memory end ≡ false) }
{
    let text = text_over(alloc, places, text)?;
    accepted_of(alloc, Input::Text(&text))
}

// The text behind a clause of so many places.
fn text_over(alloc: Global, places: usize, text: &[u8]) -> Result<Vec<u8>, AllocError>
    ensures { IfOk result (λ over. over.items ≡ text_over places text.now) }
{
    let mut over = Vec::new(alloc);
    for place in 0..places {
        add_place(place, &mut over)?;
    }
    over.extend_from_slice(b";\n")?;
    over.extend_from_slice(text)?;
    Ok(over)
}

// Adds the name of a place, with what stands in front of it.
fn add_place(place: usize, text: &mut Vec<u8>) -> Result<(), AllocError>
    ensures { OnOk result (text.new.items ≡ text.old.items ++ place_text place) }
{
    let front: &[u8] = if place == 0 { b"KEYS p" } else { b", p" };
    let mut digits = Buffer::new();
    text.extend_from_slice(front)?;
    text.extend_from_slice(digits.format(place).as_bytes())
}
