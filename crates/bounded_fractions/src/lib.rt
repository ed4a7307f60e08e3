//! Exact fractions in lowest terms whose numerator and denominator stay in range.
#![tactic(auto)]

ghost use Rattle.std.specs.Prelude.{◌≡◌};
ghost use Rattle.bounded_fractions.specs.Range.{IsInRange};
ghost use Rattle.bounded_fractions.specs.Value.{value_of};
ghost use Rattle.bounded_fractions.specs.declared.fraction.Fraction.{Fraction};

mod divisor;
mod fraction;
mod wide;

pub use fraction::{Fraction, FractionOverflow, Overflow};

/// Each fraction's value is in range, and two fractions of one value are one fraction.
pub fn value_laws()
    ensures in_range { (f : Fraction) → IsInRange (value_of f) }
    ensures same { (f g : Fraction) → value_of f ≡ value_of g → f ≡ g }
{}
