//! Decimals, read exactly.
ghost use Rattle.std.specs.Prelude.{◌≡◌};
ghost use Rattle.wsm_values.specs.Decimal.{grown, padded, ends_well, may_group, with_digit, with_point, with_group};
ghost use Rattle.wsm_values.specs.Decimal.{with_sign, step, finish, magnitude_of, signed, decimal_of, plain};

/// How a decimal is written, and in how many parts of one it is counted: with a scale of 2 in hundredths, so that
/// `12.5` is 1250.
#[derive(Clone, Copy, Debug, PartialEq, Eq)]
pub struct DecimalForm {
    /// What stands before the fraction. Neither a digit nor `-`.
    pub point: u8,
    /// What may stand between groups of three digits, the first of one to three. Neither a digit, `-` nor the point.
    pub group: Option<u8>,
    /// How many digits of a fraction count. A fraction may have fewer and not more.
    pub scale: u8,
}

/// As programs write decimals: a point, no groups, and so many digits of a fraction.
pub fn plain(scale: u8) -> DecimalForm
    ensures { result ≡ plain scale }
{
    DecimalForm {
        point: b'.',
        group: None,
        scale,
    }
}

/// What has been read of a decimal without its sign.
#[derive(Clone, Copy, Debug, PartialEq, Eq)]
pub struct Digits {
    /// The digits as a whole number.
    pub value: u64,
    /// The digits since the last sign, four for more than three.
    pub run: u8,
    /// There was a sign between groups.
    pub grouped: bool,
    /// How many digits the fraction may still have, once it began.
    pub left: Option<u8>,
}

// The number with a digit behind it, up to 2^63.
fn grown(value: u64, digit: u8) -> Option<u64>
    ensures { result ≡ grown value digit }
{
    let sum = value as u128 * 10 + digit as u128;
    if sum <= 1 << 63 {
        Some(sum as u64)
    } else {
        None
    }
}

// The number with so many zeros behind it.
pub(crate) fn padded(value: u64, zeros: u8) -> Option<u64>
    ensures { result ≡ padded value zeros }
{
    let mut sum = value;
    let mut left = zeros;
    while 0 < left {
        sum = grown(sum, 0)?;
        left -= 1;
    }
    Some(sum)
}

impl Digits {
    // Whether a number or its whole part may end here.
    fn ends_well(self) -> bool
        ensures { result ≡ ends_well self }
    {
        if self.grouped {
            self.run == 3
        } else {
            0 < self.run
        }
    }

    // Whether a sign between groups may come.
    fn may_group(self) -> bool
        ensures { result ≡ may_group self }
    {
        if self.grouped {
            self.run == 3
        } else {
            0 < self.run && self.run <= 3
        }
    }

    // What has been read with a digit more, which makes it this number.
    fn with_digit(self, value: u64) -> Option<Digits>
        ensures { result ≡ with_digit self self.left value }
    {
        match self.left {
            None => {
                let run = if self.run < 3 { self.run + 1 } else { 4 };
                Some(Digits {
                    value,
                    run,
                    grouped: self.grouped,
                    left: None,
                })
            }
            Some(0) => None,
            Some(left) => Some(Digits {
                value,
                run: self.run,
                grouped: self.grouped,
                left: Some(left - 1),
            }),
        }
    }

    // What has been read with the point.
    fn with_point(self, scale: u8) -> Option<Digits>
        ensures { result ≡ with_point scale self }
    {
        if !self.ends_well() {
            return None;
        }
        Some(Digits {
            value: self.value,
            run: self.run,
            grouped: self.grouped,
            left: Some(scale),
        })
    }

    // What has been read with a sign between groups.
    fn with_group(self) -> Option<Digits>
        ensures { result ≡ with_group self }
    {
        if !self.may_group() {
            return None;
        }
        Some(Digits {
            value: self.value,
            run: 0,
            grouped: true,
            left: None,
        })
    }

    // What has been read with a byte that is no digit.
    fn with_sign(self, form: DecimalForm, byte: u8) -> Option<Digits>
        ensures { result ≡ with_sign form self self.left byte }
    {
        if self.left.is_some() {
            None
        } else if byte == form.point {
            self.with_point(form.scale)
        } else if form.group == Some(byte) {
            self.with_group()
        } else {
            None
        }
    }

    // What has been read with one byte more.
    fn step(self, form: DecimalForm, byte: u8) -> Option<Digits>
        ensures { result ≡ step form self byte }
    {
        if byte.is_ascii_digit() {
            let value = grown(self.value, byte - b'0')?;
            self.with_digit(value)
        } else {
            self.with_sign(form, byte)
        }
    }

    // The number that was read, in parts.
    fn finish(self, form: DecimalForm) -> Option<u64>
        ensures { result ≡ finish form self }
    {
        match self.left {
            None => {
                if !self.ends_well() {
                    return None;
                }
                padded(self.value, form.scale)
            }
            Some(left) => {
                if form.scale <= left {
                    return None;
                }
                padded(self.value, left)
            }
        }
    }
}

// The parts that a decimal without its sign has.
pub(crate) fn magnitude_of(form: DecimalForm, text: &[u8]) -> Option<u64>
    ensures { result ≡ magnitude_of form text.now }
{
    let mut digits = Digits {
        value: 0,
        run: 0,
        grouped: false,
        left: None,
    };
    for byte in text {
        digits = digits.step(form, *byte)?;
    }
    digits.finish(form)
}

// The number with its sign, where it fits.
fn signed(negative: bool, parts: u64) -> Option<i64>
    ensures { result ≡ signed negative parts }
{
    if negative {
        if parts <= 1 << 63 {
            Some((0 - parts as i128) as i64)
        } else {
            None
        }
    } else if parts < 1 << 63 {
        Some(parts as i64)
    } else {
        None
    }
}

/// The parts that a decimal has, exactly: `-` or none, digits, and the point with at least one digit or none. None for
/// what is no such text (also `+1`, `1.`, `.5`, `1e3`), for more digits of a fraction than count, even zeros, and for
/// what 64 bits don't hold.
#[tactic(auto, unfolding(crate::specs::Decimal::decimal_of))]
pub fn decimal_of(form: DecimalForm, text: &[u8]) -> Option<i64>
    ensures { result ≡ decimal_of form text.now }
{
    match text.split_first() {
        None => None,
        Some((first, rest)) => {
            if *first == b'-' {
                signed(true, magnitude_of(form, rest)?)
            } else {
                signed(false, magnitude_of(form, text)?)
            }
        }
    }
}
