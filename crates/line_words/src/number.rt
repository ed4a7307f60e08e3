//! The numbers of a line.

ghost use Rattle.std.specs.Prelude.{◌≡◌, ◌≢◌, ◌≤◌, ◌≤ℤ◌, ℤ, pos, neg_ℤ, Some, IfNone, IfSome};
ghost use Rattle.cable_definitions.specs.Numeral.{spelling};
ghost use Rattle.cable_definitions.specs.Items.{IsWithin, within};
ghost use Rattle.line_words.specs.Numbers.{Is};
ghost use Rattle.line_words.specs.declared.number.Number.TheVariants.{Small};

use cable_text::{NumberFault, read_number};

/// The greatest weight, 2^76 over 2^20; the least is its negative.
const MOST_WEIGHT: i128 = 75_557_863_725_914_323_419_136;

/// A whole number that a word spells: one from -2^76 to 2^76, or another one.
#[derive(Clone, Copy)]
pub enum Number {
    Small(i128),
    Other,
}

/// The number that a word spells; none where it spells none.
pub(crate) fn number_of(word: &[u8]) -> Option<Number>
    ensures some { IfSome result (λ n. (z : ℤ) × (word.now ≡ spelling z) × Is n z) }
    ensures none { IfNone result ((z : ℤ) → word.now ≢ spelling z) }
{
    match read_number(word, -MOST_WEIGHT, MOST_WEIGHT) {
        Ok(value) => Some(Number::Small(value)),
        Err(NumberFault::Over) => Some(Number::Other),
        Err(NumberFault::NotDecimal) => None,
    }
}

/// The number as a weight; none where it is beyond one.
pub(crate) fn weight_of(number: Number) -> Option<i128>
    ensures some { IfSome result (λ w. number ≡ Small w) }
    ensures none { IfNone result ((z : ℤ) → Is number z → ¬ (IsWithin (within (Some z) (neg_ℤ (pos 75557863725914323419136)) (pos 75557863725914323419136)))) }
{
    match number {
        Number::Small(value) => Some(value),
        Number::Other => None,
    }
}

/// The number as a cost or a bound; none where it is beyond one.
pub(crate) fn sum_in(number: Number) -> Option<u64>
    ensures some { IfSome result (λ n. (number ≡ Small (pos n)) × (n ≤ 9223372036854775807)) }
    ensures none { IfNone result ((z : ℤ) → Is number z → ¬ (IsWithin (within (Some z) (pos 0) (pos 9223372036854775807)))) }
{
    match number {
        Number::Small(value) => {
            if value < 0 {
                return None;
            }
            if value > 9_223_372_036_854_775_807 {
                return None;
            }
            Some(value as u64)
        }
        Number::Other => None,
    }
}

/// The number where it is from `least` to `most`.
pub(crate) fn count_in(number: Number, least: u32, most: u32) -> Option<u32>
    ensures some { IfSome result (λ n. (number ≡ Small (pos n)) × (least ≤ n) × (n ≤ most)) }
    ensures none { IfNone result ((z : ℤ) → Is number z → ¬ (IsWithin (within (Some z) (pos least) (pos most)))) }
{
    match number {
        Number::Small(value) => {
            if value < i128::from(least) {
                return None;
            }
            if value > i128::from(most) {
                return None;
            }
            Some(value as u32)
        }
        Number::Other => None,
    }
}
