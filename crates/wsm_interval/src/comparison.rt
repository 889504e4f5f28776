//! Comparisons of two numbers.

ghost use Rattle.std.specs.Prelude.{◌≡◌};
ghost use Rattle.wsm_interval.specs.Comparison as spec;

/// How a number is compared with another.
#[derive(Clone, Copy, Debug, PartialEq, Eq)]
pub enum Comparison {
    /// Whether they are equal.
    Eq,
    /// Whether they differ.
    Ne,
    /// Whether the first is less.
    Lt,
    /// Whether the first isn't greater.
    Le,
    /// Whether the first is greater.
    Gt,
    /// Whether the first isn't less.
    Ge,
}

impl Comparison {
    /// The one that is true of two numbers exactly where this one isn't.
    pub fn opposite(self) -> Comparison
        ensures { result ≡ spec.opposite self }
    {
        match self {
            Comparison::Eq => Comparison::Ne,
            Comparison::Ne => Comparison::Eq,
            Comparison::Lt => Comparison::Ge,
            Comparison::Le => Comparison::Gt,
            Comparison::Gt => Comparison::Le,
            Comparison::Ge => Comparison::Lt,
        }
    }

    /// Whether it is true of two numbers.
    pub fn is_true(self, x: i64, y: i64) -> bool
        ensures { result ≡ spec.is_true self x y }
    {
        match self {
            Comparison::Eq => x == y,
            Comparison::Ne => x != y,
            Comparison::Lt => x < y,
            Comparison::Le => x <= y,
            Comparison::Gt => x > y,
            Comparison::Ge => x >= y,
        }
    }
}
