//! Words, signs and numbers.

ghost use Rattle.std.specs.Prelude.{◌≡◌};
ghost use Rattle.wsm_tokens.specs.Tokens.{sign_text};

/// A token of a query text. Words and signs are case sensitive.
#[derive(Clone, Copy, Debug)]
pub enum Token<'a> {
    /// A letter, then letters, digits and `_`, at most 32 bytes in all. It may be reserved.
    Word(&'a [u8]),
    Sign(Sign),
    /// Digits with a value of at most 9223372036854775807.
    Number(i64),
}

/// A sign of a query text.
#[derive(Clone, Copy, Debug, PartialEq, Eq)]
pub enum Sign {
    /// `,`
    Comma,
    /// `;`
    Semicolon,
    /// `(`
    Open,
    /// `)`
    Close,
    /// `.`
    Dot,
    /// `..`
    DotDot,
    /// `+`
    Plus,
    /// `-`
    Minus,
    /// `*`
    Star,
    /// `/`
    Slash,
    /// `%`
    Percent,
    /// `=`
    Equal,
    /// `<>`
    NotEqual,
    /// `<`
    Less,
    /// `<=`
    LessOrEqual,
    /// `>`
    Greater,
    /// `>=`
    GreaterOrEqual,
}

impl Sign {
    /// How it is written.
    pub fn text(self) -> &'static [u8]
        ensures { result.now ≡ sign_text self }
    {
        match self {
            Sign::Comma => b",",
            Sign::Semicolon => b";",
            Sign::Open => b"(",
            Sign::Close => b")",
            Sign::Dot => b".",
            Sign::DotDot => b"..",
            Sign::Plus => b"+",
            Sign::Minus => b"-",
            Sign::Star => b"*",
            Sign::Slash => b"/",
            Sign::Percent => b"%",
            Sign::Equal => b"=",
            Sign::NotEqual => b"<>",
            Sign::Less => b"<",
            Sign::LessOrEqual => b"<=",
            Sign::Greater => b">",
            Sign::GreaterOrEqual => b">=",
        }
    }
}
