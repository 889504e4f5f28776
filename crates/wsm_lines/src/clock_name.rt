//! The clock that a line names.
ghost use Rattle.std.specs.Prelude.{◌≡◌};
ghost use Rattle.wsm_lines.specs.ClockName.{clock_at, clock_in, clock_text};
ghost use Rattle.wsm_lines.specs.Identifier.{identifier_held};
ghost use Rattle.wsm_lines.specs.Seen.{scalar_seen, taken_seen};

use crate::identifier::is_identifier;
use crate::scalar::{Scalar, Taken, scalar_at};
use crate::short_text::ShortText;
use crate::source::Place;

// Reads the clock that a text names in place of another.
fn read_text(text: &[u8], clock: &mut ShortText)
    ensures { clock_text text.now ≡ identifier_held clock.new }
{
    if is_identifier(text) {
        clock.set(text);
    } else {
        clock.clear();
    }
}

// Reads the clock that is named by what stands at its place in place of another.
fn read_scalar(scalar: Scalar<'_>, clock: &mut ShortText)
    ensures { clock_in (scalar_seen scalar.entry) ≡ identifier_held clock.new }
{
    match scalar {
        Scalar::Absent | Scalar::Odd => {
            clock.clear();
        }
        Scalar::Text(text) | Scalar::Number(text) => read_text(text, clock),
    }
}

/// Reads the clock that a line names in place of another. No byte stands there where it names none.
pub(crate) fn read_clock(place: &Option<Place>, taken: &Taken<'_>, clock: &mut ShortText)
    ensures { clock_at place.now (taken_seen taken.now) ≡ identifier_held clock.new }
{
    match place {
        Some(place) => read_scalar(scalar_at(taken, place), clock),
        None => {
            clock.clear();
        }
    }
}
