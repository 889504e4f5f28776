//! The identifier of a line.
ghost use Rattle.std.specs.Prelude.{◌≡◌, IfErr, OnOk, Err, Ok};
ghost use Rattle.wsm_lines.specs.Fault.{IfFault};
ghost use Rattle.wsm_lines.specs.Identifier.{identifier_at, identifier_held, identifier_in, identifier_text, is_identifier};
ghost use Rattle.wsm_lines.specs.Seen.{scalar_seen, taken_seen};

use crate::fault::{LineFault, LineRefusal};
use crate::scalar::{Scalar, Taken, scalar_at};
use crate::short_text::{LONGEST_TEXT, ShortText};
use crate::source::Place;

/// Whether a text may be an identifier.
pub(crate) fn is_identifier(text: &[u8]) -> bool
    ensures { result ≡ is_identifier text.now }
{
    !text.is_empty() && text.len() <= LONGEST_TEXT
}

// Reads the identifier of a text in place of another.
fn read_text(text: &[u8], identifier: &mut ShortText) -> Result<(), LineRefusal>
    ensures identifier { OnOk result (identifier_text text.now ≡ Ok (identifier_held identifier.new)) }
    ensures fault { IfErr result (λ r. IfFault r (λ f. identifier_text text.now ≡ Err f)) }
{
    if !is_identifier(text) {
        return Err(LineRefusal::Fault(LineFault::BadIdentifier));
    }
    identifier.set(text);
    Ok(())
}

// Reads the identifier of what stands at its place in place of another.
fn read_scalar(scalar: Scalar<'_>, identifier: &mut ShortText) -> Result<(), LineRefusal>
    ensures identifier { OnOk result (identifier_in (scalar_seen scalar.entry) ≡ Ok (identifier_held identifier.new)) }
    ensures fault { IfErr result (λ r. IfFault r (λ f. identifier_in (scalar_seen scalar.entry) ≡ Err f)) }
{
    match scalar {
        Scalar::Absent => {
            identifier.clear();
            Ok(())
        }
        Scalar::Odd => Err(LineRefusal::Fault(LineFault::BadIdentifier)),
        Scalar::Text(text) | Scalar::Number(text) => read_text(text, identifier),
    }
}

/// Reads the identifier of a line in place of another. No byte stands there where it has none.
pub(crate) fn read_identifier(
    place: &Option<Place>,
    taken: &Taken<'_>,
    identifier: &mut ShortText,
) -> Result<(), LineRefusal>
    ensures identifier { OnOk result (identifier_at place.now (taken_seen taken.now) ≡ Ok (identifier_held identifier.new)) }
    ensures fault { IfErr result (λ r. IfFault r (λ f. identifier_at place.now (taken_seen taken.now) ≡ Err f)) }
{
    match place {
        Some(place) => read_scalar(scalar_at(taken, place), identifier),
        None => {
            identifier.clear();
            Ok(())
        }
    }
}
