//! Fractions in range, and their calls, which tell where a result is out of range.

ghost use Rattle.std.specs.Prelude.{◌≤ℤ◌, ◌≤◌, ◌^◌, pos, unsigned_abs};
ghost use Rattle.fraction_laws.specs.Divisor.{AreCoprime};

use crate::wide::WideFraction;
use std::cmp::Ordering;
use std::fmt;
use thiserror::Error;

/// A fraction in lowest terms, whose numerator and denominator are at most 2^62 in absolute value.
#[derive(Clone, Copy, Debug, PartialEq, Eq)]
pub struct Fraction {
    pub num: i64,
    pub den: i64,
    pub ghost positive: { pos 1 ≤ℤ den },
    pub ghost lowest: { AreCoprime (unsigned_abs num) (unsigned_abs den) },
    pub ghost num_in_range: { unsigned_abs num ≤ 2 ^ 62 },
    pub ghost den_in_range: { unsigned_abs den ≤ 2 ^ 62 },
}

/// The quotient of `left` and `right`, in lowest terms, is out of range.
#[derive(Clone, Copy, Debug, PartialEq, Eq, Error)]
#[error("{left}/{right} is out of range")]
pub struct Overflow {
    pub left: i64,
    pub right: i64,
}

/// What was computed of `left` and `right`, in lowest terms, is out of range.
#[derive(Clone, Copy, Debug, PartialEq, Eq, Error)]
#[error("a result of {left} and {right} is out of range")]
pub struct FractionOverflow {
    pub left: Fraction,
    pub right: Fraction,
}

impl fmt::Display for Fraction {
    fn fmt<W: fmt::Write>(&self, f: &mut fmt::Formatter<W>) -> fmt::Result {
        write!(f, "{}/{}", self.num, self.den)
    }
}

impl Fraction {
    ghost use Rattle.std.specs.Prelude.{◌≡◌, ◌≢◌, ◌≤◌, ◌^◌, ◌*ℤ◌, ◌↔◌, IsErr, IfOk, IfErr, pos, unsigned_abs};
    ghost use Rattle.std.specs.Int.RustNames.{int_div};
    ghost use Rattle.fraction_laws.specs.Rational.{whole, inverse, neg_ℚ, ◌+ℚ◌, ◌-ℚ◌, ◌*ℚ◌, ◌/ℚ◌, ◌<ℚ◌};
    ghost use Rattle.bounded_fractions.specs.Range.{IsInRange};
    ghost use Rattle.bounded_fractions.specs.Value.{value_of};

    /// The quotient of two whole numbers. `Overflow` comes exactly where it leaves the range in lowest
    /// terms, and holds the two numbers.
    pub fn new(num: i64, den: i64) -> Result<Fraction, Overflow>
        requires { den ≢ pos 0 }
        ensures exact { IfOk result (λ r. value_of r ≡ whole num /ℚ whole den) }
        ensures overflow { IsErr result ↔ ¬ IsInRange (whole num /ℚ whole den) }
        ensures operands { IfErr result (λ e. e ≡ record { left = num; right = den }) }
    {
        WideFraction::quotient(num, den).fitted().ok_or(Overflow {
            left: num,
            right: den,
        })
    }

    /// The sum. `FractionOverflow` comes exactly where it leaves the range, and holds both operands.
    pub fn add(self, other: Fraction) -> Result<Fraction, FractionOverflow>
        ensures exact { IfOk result (λ r. value_of r ≡ value_of self +ℚ value_of other) }
        ensures overflow { IsErr result ↔ ¬ IsInRange (value_of self +ℚ value_of other) }
        ensures operands { IfErr result (λ e. e ≡ record { left = self; right = other }) }
    {
        WideFraction::sum(self, other)
            .fitted()
            .ok_or(FractionOverflow {
                left: self,
                right: other,
            })
    }

    /// The difference. `FractionOverflow` comes exactly where it leaves the range, and holds both
    /// operands.
    pub fn sub(self, other: Fraction) -> Result<Fraction, FractionOverflow>
        ensures exact { IfOk result (λ r. value_of r ≡ value_of self -ℚ value_of other) }
        ensures overflow { IsErr result ↔ ¬ IsInRange (value_of self -ℚ value_of other) }
        ensures operands { IfErr result (λ e. e ≡ record { left = self; right = other }) }
    {
        WideFraction::difference(self, other)
            .fitted()
            .ok_or(FractionOverflow {
                left: self,
                right: other,
            })
    }

    /// The product. `FractionOverflow` comes exactly where it leaves the range, and holds both operands.
    pub fn mul(self, other: Fraction) -> Result<Fraction, FractionOverflow>
        ensures exact { IfOk result (λ r. value_of r ≡ value_of self *ℚ value_of other) }
        ensures overflow { IsErr result ↔ ¬ IsInRange (value_of self *ℚ value_of other) }
        ensures operands { IfErr result (λ e. e ≡ record { left = self; right = other }) }
    {
        WideFraction::product(self, other)
            .fitted()
            .ok_or(FractionOverflow {
                left: self,
                right: other,
            })
    }

    /// The quotient by a number that isn't 0. `FractionOverflow` comes exactly where it leaves the range,
    /// and holds both operands.
    pub fn div(self, other: Fraction) -> Result<Fraction, FractionOverflow>
        requires { other.num ≢ pos 0 }
        ensures exact { IfOk result (λ r. value_of r ≡ value_of self /ℚ value_of other) }
        ensures overflow { IsErr result ↔ ¬ IsInRange (value_of self /ℚ value_of other) }
        ensures operands { IfErr result (λ e. e ≡ record { left = self; right = other }) }
    {
        WideFraction::ratio(self, other)
            .fitted()
            .ok_or(FractionOverflow {
                left: self,
                right: other,
            })
    }

    /// The exact order of the two numbers.
    pub fn compare(self, other: Fraction) -> Ordering
        ensures less { (result ≡ Ordering.Less) ↔ (value_of self <ℚ value_of other) }
        ensures equal { (result ≡ Ordering.Equal) ↔ (value_of self ≡ value_of other) }
        ensures greater { (result ≡ Ordering.Greater) ↔ (value_of other <ℚ value_of self) }
    {
        self.times(other.den_size())
            .cmp(&other.times(self.den_size()))
    }

    /// The number with the other sign.
    pub(crate) fn opposite(self) -> Fraction
        ensures { value_of result ≡ neg_ℚ (value_of self) }
    {
        Fraction {
            num: -self.num,
            den: self.den,
        }
    }

    /// 1 over the number.
    pub(crate) fn turned(self) -> Fraction
        requires { self.num ≢ pos 0 }
        ensures { value_of result ≡ inverse (value_of self) }
    {
        if self.num < 0 {
            return Fraction {
                num: -self.den,
                den: -self.num,
            };
        }
        Fraction {
            num: self.den,
            den: self.num,
        }
    }

    /// The numerator without its sign.
    pub(crate) fn num_size(self) -> u64
        ensures { result ≡ unsigned_abs self.num }
    {
        self.num.unsigned_abs()
    }

    /// The denominator, which has no sign.
    pub(crate) fn den_size(self) -> u64
        ensures { result ≡ unsigned_abs self.den }
    {
        self.den.unsigned_abs()
    }

    /// The numerator times a number that is no more than a denominator.
    pub(crate) fn times(self, factor: u64) -> i128
        requires { factor ≤ 2 ^ 62 }
        ensures { result ≡ self.num *ℤ pos factor }
    {
        i128::from(self.num) * i128::from(factor)
    }

    /// The numerator divided by a number that is no more than a denominator.
    pub(crate) fn part(self, divisor: u64) -> i128
        requires some { 1 ≤ divisor }
        requires no_more { divisor ≤ 2 ^ 62 }
        ensures { result ≡ int_div self.num (pos divisor) }
    {
        i128::from(self.num / divisor as i64)
    }
}
