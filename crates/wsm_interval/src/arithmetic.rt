//! Arithmetic on two numbers.

/// What is computed of two numbers, x and y.
#[derive(Clone, Copy, Debug, PartialEq, Eq)]
pub enum Arithmetic {
    /// x + y.
    Add,
    /// x - y.
    Sub,
    /// x * y.
    Mul,
    /// x / y, truncated toward 0.
    Div,
    /// The remainder of x / y, which has the sign of x.
    Rem,
}
