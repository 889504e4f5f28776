//! Patterns of `strptime`: which directives the reader takes.
ghost use Rattle.std.specs.Prelude.{◌≡◌};
ghost use Rattle.wsm_values.specs.Pattern.{is_flag, is_letter, wider, in_colons, in_width, in_dot, step, is_pattern};

/// Where in a pattern a byte stands.
#[derive(Clone, Copy, Debug, PartialEq, Eq)]
pub enum Spot {
    /// In what stands for itself.
    Text,
    /// Behind the percent sign of a directive.
    Begun,
    /// Behind its flag, or in its width, which is so far this number.
    Width(u8),
    /// Behind so many colons.
    Colons(u8),
    /// Behind the dot of a fraction, in its width.
    Dot(u8),
}

// Whether a byte is a flag, which may stand behind the percent sign.
fn is_flag(byte: u8) -> bool
    ensures { result ≡ is_flag byte }
{
    b"-_^#0".contains(&byte)
}

// Whether a byte is the letter of a directive.
fn is_letter(byte: u8) -> bool
    ensures { result ≡ is_letter byte }
{
    b"%ABCDFGHIMNPRSTUVWYabdefghjklmnpstuwyz".contains(&byte)
}

// A width with a digit behind it, up to 255.
fn wider(width: u8, digit: u8) -> Option<u8>
    ensures { result ≡ wider width digit }
{
    let sum = width as u16 * 10 + digit as u16;
    if sum <= 255 { Some(sum as u8) } else { None }
}

// Behind one more byte, where colons may stand.
fn in_colons(count: u8, byte: u8) -> Option<Spot>
    ensures { result ≡ in_colons count byte }
{
    if byte == b':' {
        if count < 3 {
            Some(Spot::Colons(count + 1))
        } else {
            None
        }
    } else if byte == b'.' {
        Some(Spot::Dot(0))
    } else if is_letter(byte) {
        Some(Spot::Text)
    } else {
        None
    }
}

// Behind one more byte, where a width may stand.
fn in_width(width: u8, byte: u8) -> Option<Spot>
    ensures { result ≡ in_width width byte }
{
    if byte.is_ascii_digit() {
        Some(Spot::Width(wider(width, byte - b'0')?))
    } else {
        in_colons(0, byte)
    }
}

// Behind one more byte of a fraction.
fn in_dot(width: u8, byte: u8) -> Option<Spot>
    ensures { result ≡ in_dot width byte }
{
    if byte.is_ascii_digit() {
        Some(Spot::Dot(wider(width, byte - b'0')?))
    } else if byte == b'f' {
        Some(Spot::Text)
    } else {
        None
    }
}

impl Spot {
    // Behind one more byte, where it may stand there.
    fn step(self, byte: u8) -> Option<Spot>
        ensures { result ≡ step self byte }
    {
        match self {
            Spot::Text => {
                if byte == b'%' {
                    Some(Spot::Begun)
                } else {
                    Some(Spot::Text)
                }
            }
            Spot::Begun => {
                if is_flag(byte) {
                    Some(Spot::Width(0))
                } else {
                    in_width(0, byte)
                }
            }
            Spot::Width(width) => in_width(width, byte),
            Spot::Colons(count) => in_colons(count, byte),
            Spot::Dot(width) => in_dot(width, byte),
        }
    }
}

/// Whether each directive of a pattern is one that [`LocalForm`](crate::LocalForm) reads: a percent sign; a flag (`-`,
/// `_`, `^`, `#`, `0`), a width and up to three colons, each or none; and a letter. Behind a dot, and a width or none,
/// it is `f`. A pattern with another one, or that ends inside of one, reads no text. So does a zone by its name, `%Q`,
/// which isn't looked up.
pub fn is_pattern(pattern: &[u8]) -> bool
    ensures { result ≡ is_pattern pattern.now }
{
    let mut spot = Spot::Text;
    for byte in pattern {
        match spot.step(*byte) {
            Some(next) => spot = next,
            None => return false,
        }
    }
    spot == Spot::Text
}
