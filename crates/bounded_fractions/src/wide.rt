//! Fractions in lowest terms that may be out of range: what two fractions give before it is looked whether it fits.

ghost use Rattle.std.specs.Prelude.{◌≤◌, unsigned_abs};
ghost use Rattle.fraction_laws.specs.Divisor.{AreCoprime};

use crate::divisor::{greatest_divisor, shared_divisor};
use crate::fraction::Fraction;

/// The greatest numerator and the greatest denominator.
const MOST: u128 = 1 << 62;

/// A fraction in lowest terms that may be out of range.
#[derive(Clone, Copy)]
pub struct WideFraction {
    num: i128,
    den: u128,
    ghost positive: { 1 ≤ den },
    ghost lowest: { AreCoprime (unsigned_abs num) den },
}

impl WideFraction {
    ghost use Rattle.std.specs.Prelude.{◌≡◌, ◌≢◌, ◌↔◌, IsNone, IfSome, pos};
    ghost use Rattle.fraction_laws.specs.Rational.{whole, ◌+ℚ◌, ◌-ℚ◌, ◌*ℚ◌, ◌/ℚ◌};
    ghost use Rattle.bounded_fractions.specs.Range.{IsInRange};
    ghost use Rattle.bounded_fractions.specs.Value.{value_of};
    ghost use Rattle.bounded_fractions.specs.Wide.{wide_value};

    /// The quotient of two whole numbers.
    pub fn quotient(num: i64, den: i64) -> WideFraction
        requires { den ≢ pos 0 }
        ensures { wide_value result ≡ whole num /ℚ whole den }
    {
        let divisor = greatest_divisor(num.unsigned_abs(), den.unsigned_abs());
        let part = i128::from(num) / i128::from(divisor);
        let rest = u128::from(den.unsigned_abs() / divisor);
        if den < 0 {
            return WideFraction {
                num: -part,
                den: rest,
            };
        }
        WideFraction {
            num: part,
            den: rest,
        }
    }

    /// The sum, over the least common denominator. What its numerator then has in common with that
    /// denominator is a part of what the two denominators have in common, so no long number is divided
    /// step by step.
    pub fn sum(left: Fraction, right: Fraction) -> WideFraction
        ensures { wide_value result ≡ value_of left +ℚ value_of right }
    {
        let left_den = left.den_size();
        let right_den = right.den_size();
        if left_den == right_den {
            return WideFraction::sum_over(left, right, left_den);
        }
        let shared = greatest_divisor(left_den, right_den);
        let left_part = left_den / shared;
        let num = left.times(right_den / shared) + right.times(left_part);
        let divisor = shared_divisor(num.unsigned_abs(), shared);
        WideFraction {
            num: num / i128::from(divisor),
            den: u128::from(left_part) * u128::from(right_den / divisor),
        }
    }

    /// The sum of two fractions over one denominator; whole numbers need no division.
    fn sum_over(left: Fraction, right: Fraction, den: u64) -> WideFraction
        requires left_is { unsigned_abs left.den ≡ den }
        requires right_is { unsigned_abs right.den ≡ den }
        ensures { wide_value result ≡ value_of left +ℚ value_of right }
    {
        let num = left.times(1) + right.times(1);
        if den == 1 {
            return WideFraction { num, den: 1 };
        }
        let divisor = shared_divisor(num.unsigned_abs(), den);
        WideFraction {
            num: num / i128::from(divisor),
            den: u128::from(den / divisor),
        }
    }

    /// The product: each numerator and the other denominator are divided before they are multiplied;
    /// whole numbers need no division.
    pub fn product(left: Fraction, right: Fraction) -> WideFraction
        ensures { wide_value result ≡ value_of left *ℚ value_of right }
    {
        let left_den = left.den_size();
        let right_den = right.den_size();
        if left_den == 1 && right_den == 1 {
            return WideFraction::whole_product(left, right);
        }
        let first = greatest_divisor(left.num_size(), right_den);
        let second = greatest_divisor(right.num_size(), left_den);
        WideFraction {
            num: left.part(first) * right.part(second),
            den: u128::from(left_den / second) * u128::from(right_den / first),
        }
    }

    /// The product of two whole numbers.
    fn whole_product(left: Fraction, right: Fraction) -> WideFraction
        requires left_is { unsigned_abs left.den ≡ 1 }
        requires right_is { unsigned_abs right.den ≡ 1 }
        ensures { wide_value result ≡ value_of left *ℚ value_of right }
    {
        WideFraction {
            num: left.times(1) * right.times(1),
            den: 1,
        }
    }

    /// The difference.
    pub fn difference(left: Fraction, right: Fraction) -> WideFraction
        ensures { wide_value result ≡ value_of left -ℚ value_of right }
    {
        WideFraction::sum(left, right.opposite())
    }

    /// The quotient of two fractions.
    pub fn ratio(left: Fraction, right: Fraction) -> WideFraction
        requires { right.num ≢ pos 0 }
        ensures { wide_value result ≡ value_of left /ℚ value_of right }
    {
        WideFraction::product(left, right.turned())
    }

    /// The fraction, where it is in range.
    pub fn fitted(self) -> Option<Fraction>
        ensures found { IfSome result (λ r. value_of r ≡ wide_value self) }
        ensures none { IsNone result ↔ ¬ IsInRange (wide_value self) }
    {
        if self.num.unsigned_abs() > MOST {
            return None;
        }
        if self.den > MOST {
            return None;
        }
        Some(Fraction {
            num: self.num as i64,
            den: self.den as i64,
        })
    }
}
