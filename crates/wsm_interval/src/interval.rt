//! Intervals and their arithmetic.

ghost use Rattle.std.specs.Prelude.{◌≡◌, ◌≤◌, ℤ, pos, neg_ℤ, ◌+ℤ◌, ◌-ℤ◌, ◌*ℤ◌, ◌≤ℤ◌, int_div, int_rem, unsigned_abs, IfSome};
ghost use Rattle.std.specs.Prelude.{true};
ghost use Rattle.wsm_interval.specs.Arithmetic.{result_of};
ghost use Rattle.wsm_interval.specs.Comparison.{is_true, opposite};
ghost use Rattle.wsm_interval.specs.Interval as spec;
ghost use Rattle.wsm_interval.specs.Interval.{Holds};
ghost use Rattle.wsm_interval.specs.Narrowing as narrowing;

use crate::arithmetic::Arithmetic;
use crate::comparison::Comparison;

/// The whole numbers from one end to the other, both of them inside.
#[derive(Clone, Copy, Debug, PartialEq, Eq)]
pub struct Interval {
    /// The least number inside.
    pub lo: i64,
    /// The greatest number inside.
    pub hi: i64,
}

impl Interval {
    /// Whether a number is inside.
    pub fn holds(self, n: i64) -> bool
        ensures { result ≡ spec.holds self n }
    {
        self.lo <= n && n <= self.hi
    }

    /// What the sum of a number of each can be.
    pub fn add(self, other: Interval) -> Option<Interval>
        ensures formula { result ≡ spec.add self other }
        ensures sums { (m n : ℤ) → Holds self m → Holds other n → IfSome result (λ z. Holds z (m +ℤ n)) }
    {
        let (a, b) = self.ends();
        let (c, d) = other.ends();
        within(a + c, b + d)
    }

    /// What a number of this less one of the other can be.
    pub fn sub(self, other: Interval) -> Option<Interval>
        ensures formula { result ≡ spec.sub self other }
        ensures differences { (m n : ℤ) → Holds self m → Holds other n → IfSome result (λ z. Holds z (m -ℤ n)) }
    {
        let (a, b) = self.ends();
        let (c, d) = other.ends();
        within(a - d, b - c)
    }

    /// What a number with the other sign can be.
    pub fn neg(self) -> Option<Interval>
        ensures formula { result ≡ spec.neg self }
        ensures negations { (m : ℤ) → Holds self m → IfSome result (λ z. Holds z (neg_ℤ m)) }
    {
        let (a, b) = self.ends();
        within(-b, -a)
    }

    /// What the product of a number of each can be.
    pub fn mul(self, other: Interval) -> Option<Interval>
        ensures formula { result ≡ spec.mul self other }
        ensures products { (m n : ℤ) → Holds self m → Holds other n → IfSome result (λ z. Holds z (m *ℤ n)) }
    {
        let (a, b) = self.ends();
        let (c, d) = other.ends();
        around(a * c, a * d, b * c, b * d)
    }

    /// What a number of this over one of the other, rounded towards zero, can be. `None` too where the
    /// other holds 0.
    pub fn div(self, other: Interval) -> Option<Interval>
        ensures formula { result ≡ spec.div self other }
        ensures quotients { (m n : ℤ) → Holds self m → Holds other n → IfSome result (λ z. Holds z (int_div m n)) }
    {
        if other.holds(0) {
            return None;
        }
        let (a, b) = self.ends();
        let (c, d) = other.ends();
        around(
            quotient(a, c),
            quotient(a, d),
            quotient(b, c),
            quotient(b, d),
        )
    }

    /// What is left of a number of this over one of the other, with the first one's sign, can be.
    /// `None` too where the other holds 0.
    pub fn rem(self, other: Interval) -> Option<Interval>
        ensures formula { result ≡ spec.rem self other }
        ensures remainders { (m n : ℤ) → Holds self m → Holds other n → IfSome result (λ z. Holds z (int_rem m n)) }
    {
        if other.holds(0) {
            return None;
        }
        let (a, b) = self.ends();
        let (c, d) = other.ends();
        let most = c.abs().max(d.abs()) - 1;
        within((-most).max(a.min(0)), most.min(b.max(0)))
    }

    /// What arithmetic on a number of this and one of the other can be. `None` too where the other
    /// divides and holds 0.
    pub fn compute(self, arithmetic: Arithmetic, other: Interval) -> Option<Interval>
        ensures formula { result ≡ spec.computed arithmetic self other }
        ensures results { (m n : ℤ) → Holds self m → Holds other n → IfSome result (λ z. Holds z (result_of arithmetic m n)) }
    {
        match arithmetic {
            Arithmetic::Add => self.add(other),
            Arithmetic::Sub => self.sub(other),
            Arithmetic::Mul => self.mul(other),
            Arithmetic::Div => self.div(other),
            Arithmetic::Rem => self.rem(other),
        }
    }

    /// The least interval that has both inside.
    pub fn hull(self, other: Interval) -> Interval
        ensures formula { result ≡ spec.hull self other }
        ensures this { (n : ℤ) → Holds self n → Holds result n }
        ensures that { (n : ℤ) → Holds other n → Holds result n }
    {
        Interval {
            lo: self.lo.min(other.lo),
            hi: self.hi.max(other.hi),
        }
    }

    /// What is left where a number inside, compared with another, is true. Where nothing would be
    /// left, all of it is.
    pub fn narrow(self, comparison: Comparison, c: i64) -> Interval
        ensures formula { result ≡ narrowing.narrow comparison c self }
        ensures kept { (n : ℤ) → Holds self n → is_true comparison n c ≡ true → Holds result n }
        // What this and the opposite comparison leave is all of it.
        ensures whole { spec.hull result (narrowing.narrow (opposite comparison) c self) ≡ self }
    {
        self.left_by(comparison, c as i128)
    }

    // The same, with room for the numbers beside c.
    fn left_by(self, comparison: Comparison, c: i128) -> Interval
        requires { unsigned_abs c ≤ 9223372036854775808 }
        ensures { result ≡ narrowing.narrow comparison c self }
    {
        let (lo, hi) = self.ends();
        match comparison {
            Comparison::Eq => self.part(c, c),
            Comparison::Ne => self.part(above(lo, c), below(hi, c)),
            Comparison::Lt => self.part(lo, c - 1),
            Comparison::Le => self.part(lo, c),
            Comparison::Gt => self.part(c + 1, hi),
            Comparison::Ge => self.part(c, hi),
        }
    }

    // What lies from one number to another, or all of it where nothing does.
    fn part(self, lo: i128, hi: i128) -> Interval
        ensures { result ≡ narrowing.part self lo hi }
    {
        let (a, b) = self.ends();
        let lo = a.max(lo);
        let hi = b.min(hi);
        if lo <= hi {
            Interval {
                lo: lo as i64,
                hi: hi as i64,
            }
        } else {
            self
        }
    }

    // Both ends, with room for their products.
    fn ends(self) -> (i128, i128)
        ensures low { result.0 ≡ self.lo }
        ensures high { result.1 ≡ self.hi }
    {
        (self.lo as i128, self.hi as i128)
    }
}

// The interval from one number to another, where both have 64 bits.
fn within(lo: i128, hi: i128) -> Option<Interval>
    ensures { result ≡ spec.within_i64 lo hi }
{
    let lo = i64::try_from(lo).ok()?;
    let hi = i64::try_from(hi).ok()?;
    Some(Interval { lo, hi })
}

// The interval from the least to the greatest of four numbers.
fn around(p: i128, q: i128, r: i128, s: i128) -> Option<Interval>
    ensures { result ≡ spec.around p q r s }
{
    within(p.min(q).min(r.min(s)), p.max(q).max(r.max(s)))
}

// A lower end, without a number.
fn above(lo: i128, c: i128) -> i128
    requires { unsigned_abs c ≤ 9223372036854775808 }
    ensures { result ≡ narrowing.above lo c }
{
    if lo == c { c + 1 } else { lo }
}

// An upper end, without a number.
fn below(hi: i128, c: i128) -> i128
    requires { unsigned_abs c ≤ 9223372036854775808 }
    ensures { result ≡ narrowing.below hi c }
{
    if hi == c { c - 1 } else { hi }
}

// A quotient, rounded towards zero. Over 0 it is 0: no interval that is in order asks for it.
fn quotient(a: i128, c: i128) -> i128
    requires size { unsigned_abs a ≤ 9223372036854775808 }
    requires divisor { unsigned_abs c ≤ 9223372036854775808 }
    ensures { result ≡ int_div a c }
{
    if c == 0 { 0 } else { a / c }
}
