//! Instants as RFC 3339 writes them. A form is written as an example of it: a 0 stands for any digit, and a T for a T
//! of either case or a space.
ghost use Rattle.std.specs.Prelude.{◌≡◌, option_map};
ghost use Rattle.wsm_values.specs.Rfc3339.{stands_for, behind, behind_digits, behind_fraction};
ghost use Rattle.wsm_values.specs.Rfc3339.{is_hour, is_end, is_offset, is_rfc3339, rfc3339_instant};

use jiff_fmt::temporal;

// Whether a byte is what a letter of a form stands for.
fn stands_for(letter: u8, byte: u8) -> bool
    ensures { result ≡ stands_for letter byte }
{
    match letter {
        b'0' => byte.is_ascii_digit(),
        b'T' => byte == b'T' || byte == b't' || byte == b' ',
        _ => byte == letter,
    }
}

// What stands behind a form, where the text begins with it.
fn behind<'a>(form: &[u8], text: &'a [u8]) -> Option<&'a [u8]>
    ensures { option_map (λ rest. rest.now) result ≡ behind form.now text.now }
{
    let mut rest = text;
    for letter in form {
        let Some((byte, more)) = rest.split_first() else {
            return None;
        };
        if !stands_for(*letter, *byte) {
            return None;
        }
        rest = more;
    }
    Some(rest)
}

// What stands behind the digits that the text begins with.
fn behind_digits(text: &[u8]) -> &[u8]
    ensures { result.now ≡ behind_digits text.now }
{
    match text.split_first() {
        None => text,
        Some((byte, rest)) => {
            if byte.is_ascii_digit() {
                behind_digits(rest)
            } else {
                text
            }
        }
    }
}

// What stands behind the fraction of a second, if there is one.
fn behind_fraction(text: &[u8]) -> Option<&[u8]>
    ensures { option_map (λ rest. rest.now) result ≡ behind_fraction text.now }
{
    match text.split_first() {
        None => Some(text),
        Some((byte, rest)) => {
            if *byte == b'.' {
                let more = behind(b"0", rest)?;
                Some(behind_digits(more))
            } else {
                Some(text)
            }
        }
    }
}

// Whether two digits that the text begins with are below 24.
fn is_hour(text: &[u8]) -> bool
    ensures { result ≡ is_hour text.now }
{
    match text {
        [tens, ones, ..] => *tens < b'2' || (*tens == b'2' && *ones < b'4'),
        _ => false,
    }
}

// Whether the text is an offset and nothing else.
fn is_offset(text: &[u8]) -> bool
    ensures { result ≡ is_offset text.now }
{
    match text.split_first() {
        None => false,
        Some((byte, rest)) => match *byte {
            b'Z' | b'z' => rest.is_empty(),
            b'+' | b'-' => is_hour(rest) && is_end(behind(b"00:00", rest)),
            _ => false,
        },
    }
}

// Whether there is an end.
fn is_end(rest: Option<&[u8]>) -> bool
    ensures { result ≡ is_end (option_map (λ r. r.now) rest.entry) }
{
    match rest {
        None => false,
        Some(rest) => rest.is_empty(),
    }
}

/// Whether a text has the form of a `date-time` of RFC 3339, section 5.6: `2026-03-11T20:00:00.5+02:00`, with T and Z
/// in either case, a space for the T allowed, a fraction or none, and an offset, `Z` or hours below 24 and minutes.
/// Whether there is such a day or time isn't asked here.
pub fn is_rfc3339(text: &[u8]) -> bool
    ensures { result ≡ is_rfc3339 text.now }
{
    let Some(rest) = behind(b"0000-00-00T00:00:00", text) else {
        return false;
    };
    let Some(rest) = behind_fraction(rest) else {
        return false;
    };
    is_offset(rest)
}

/// The instant of a text in the form of RFC 3339, in nanoseconds since 1970: none where there is no such day or time. A
/// second of 60 is read as 59, whichever the minute; more than nine digits of a fraction are refused.
pub(crate) fn rfc3339_instant(text: &str) -> Option<i128>
    ensures { result ≡ rfc3339_instant text.now }
{
    if !is_rfc3339(text.as_bytes()) {
        return None;
    }
    match temporal::parse_timestamp(text.as_bytes()) {
        Ok(instant) => Some(instant.nanosecond),
        Err(_) => None,
    }
}
