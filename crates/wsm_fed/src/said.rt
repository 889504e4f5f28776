//! What a line of a source says.

ghost use Rattle.std.specs.Prelude.{◌≡◌, drop, bytes_eq, option_map};
ghost use Rattle.wsm_fed.specs.Fed.{at_said, from_said, line_said};

use wsm_journal::number_of;

/// The position that the first line says.
pub fn from_said(line: &[u8]) -> Option<&[u8]>
    ensures { option_map (λ t. t.now) result ≡ from_said line.now }
{
    if line.starts_with(b"from,") {
        Some(behind(line, 5))
    } else {
        None
    }
}

/// The line of a log that it is.
pub fn line_said(line: &[u8]) -> Option<&[u8]>
    ensures { option_map (λ t. t.now) result ≡ line_said line.now }
{
    if line.starts_with(b":") {
        Some(behind(line, 1))
    } else {
        None
    }
}

/// The number and the position of an `at`.
pub fn at_said(line: &[u8]) -> Option<(u64, &[u8])>
    ensures { option_map (λ p. (p.0, p.1.now)) result ≡ at_said line.now }
{
    if line.starts_with(b"at,") {
        number_of(behind(line, 3))
    } else {
        None
    }
}

/// Whether both are the same bytes.
pub fn is_same(one: &[u8], other: &[u8]) -> bool
    ensures { result ≡ bytes_eq one.now other.now }
{
    one == other
}

// What stands behind a place, or nothing.
fn behind(line: &[u8], place: usize) -> &[u8]
    ensures { result.now ≡ drop place line.now }
{
    &line[place.min(line.len())..]
}
