//! Exact fractions in lowest terms.

ghost use Rattle.std.specs.Prelude.{◌≡◌, ℤ, pos, ◌+ℤ◌, ◌*ℤ◌, ◌≤◌, ◌<◌, ◌↔◌, IsTrue, IsSome, IfSome, unsigned_abs};
ghost use Rattle.std.specs.Int.{IsGcd};
ghost use Rattle.lrs_measure.specs.Fraction.{Fraction, IsEqual, IsLowest, IsQuotient, IsInRange, IsFloor, IsNearest, signed_as};

use std::fmt;
use std::marker::Model;

/// No numerator or denominator of a fraction is larger.
const LARGEST: u128 = 100_000_000_000_000_000_000_000_000_000_000_000_000;

/// The greatest common divisor, which is 0 for two zeros.
pub fn gcd(a: u128, b: u128) -> u128
    ensures { IsGcd a b result }
{
    let mut high = a;
    let mut low = b;
    while low != 0 {
        let rest = high % low;
        high = low;
        low = rest;
    }
    high
}

/// A number of this size, with the sign of `n`.
fn with_sign_of(n: i128, size: u128) -> i128
    requires { size ≤ LARGEST }
    ensures { result ≡ signed_as n size }
{
    if n < 0 { -(size as i128) } else { size as i128 }
}

/// A fraction in lowest terms.
#[derive(Clone, Copy, PartialEq, Eq)]
pub struct Frac {
    num: i128,
    den: u128,
}

impl Model for Frac {
    ghost use Rattle.lrs_measure.specs.Fraction.{Fraction, IsLowest, IsInRange};

    ghost Value = { Fraction };

    ghost use Rattle.lrs_measure.specs.FractionFields.{fraction_of, IsReduced, held};

    ghost view = { fraction_of };

    ghost invariant = { IsReduced };

    ghost inverse = { held };
}

impl Frac {
    pub fn new(n: i128, d: u128) -> Option<Frac>
        ensures in_range { IsSome result ↔ IsInRange n d }
        ensures value { IfSome result (λ q. IsQuotient q n d) }
        ensures lowest { IfSome result (λ q. IsLowest q) }
    {
        let size = n.unsigned_abs();
        if d == 0 || d > LARGEST || size > LARGEST {
            return None;
        }
        let divisor = gcd(size, d);
        Some(Frac {
            num: with_sign_of(n, size / divisor),
            den: d / divisor,
        })
    }

    /// The fraction of a whole number.
    pub fn of_whole(n: i64) -> Frac
        ensures { result ≡ record { num = n; den = 1 } }
    {
        Frac {
            num: n as i128,
            den: 1,
        }
    }

    /// Whether two fractions have one value. Since both are in lowest terms, `==` says the same.
    pub fn has_value_of(self, other: Frac) -> bool
        ensures value { IsTrue result ↔ IsEqual self other }
        ensures same { IsTrue result ↔ (self ≡ other) }
    {
        let _ = (self.den, other.den);
        self == other
    }

    pub fn num(self) -> i128
        ensures value { result ≡ self.num }
        ensures in_range { IsInRange self.num self.den }
        ensures lowest { IsLowest self }
    {
        self.num
    }

    pub fn den(self) -> u128
        ensures { result ≡ self.den }
    {
        self.den
    }

    pub fn is_whole(self) -> bool
        ensures { IsTrue result ↔ (self.den ≡ 1) }
    {
        self.den == 1
    }

    /// The greatest whole number that is not above the fraction, and how many of `1 / den` it is above that.
    fn split(self) -> (i128, u128)
        ensures value { self.num ≡ result.0 *ℤ pos self.den +ℤ pos result.1 }
        ensures rest { result.1 < self.den }
        ensures small { unsigned_abs result.0 ≤ LARGEST }
    {
        let den = self.den as i128;
        (self.num.div_euclid(den), self.num.rem_euclid(den) as u128)
    }

    /// The greatest whole number that is not above the fraction.
    pub fn floor(self) -> i128
        ensures { IsFloor self result }
    {
        let (down, _) = self.split();
        down
    }

    /// The nearest whole number, a half going up.
    pub fn nearest(self) -> i128
        ensures { IsNearest self result }
    {
        let (down, rest) = self.split();
        if rest >= self.den - rest {
            down + 1
        } else {
            down
        }
    }
}

impl fmt::Display for Frac {
    ghost use Rattle.std.specs.Prelude.{Some};
    ghost use Rattle.lrs_measure.specs.FractionTexts.{fraction_text};

    ghost output = { λ q. Some (fraction_text q) };

    fn fmt<W: fmt::Write>(&self, f: &mut fmt::Formatter<W>) -> fmt::Result {
        let num = self.num;
        if self.is_whole() {
            write!(f, "{num}")
        } else {
            let den = self.den;
            write!(f, "{num}/{den}")
        }
    }
}
