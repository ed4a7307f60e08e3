//! Numbers in words, read and written.

ghost use Rattle.std.specs.Prelude.{◌≡◌, ◌≢◌, ℕ, ℤ, ◌+◌, ◌-◌, ◌^◌, ◌<◌, ◌≤◌, ◌≤ℤ◌, ◌∷◌, length, drop, slice_index, EachIndex, IfOk, IfErr, IfSome, IfNone, IsTrue, ◌↔◌};
ghost use Rattle.cable_definitions.specs.Text.{number};
ghost use Rattle.cable_definitions.specs.Stream.{Writes};
ghost use Rattle.cable_definitions.specs.Numeral.{spelling, numeral};
ghost use Rattle.cable_text.specs.Number.{LiesOutside, IsDigit, IsNumeral, IsSpelling, value_after};

use crate::stream::{Failed, Sink};
use thiserror::Error;

/// Why a word isn't read as a number.
#[derive(Clone, Copy, Debug, PartialEq, Eq, Error)]
pub enum NumberFault {
    #[error("not a number")]
    NotDecimal,
    #[error("the number is out of range")]
    Over,
}

/// What a word spells: a number of 128 bits, one beyond these, or none.
enum Spelled {
    Value(i128),
    Beyond,
    Nothing,
}

/// The greatest number of 128 bits.
const MOST: u128 = 0x7fff_ffff_ffff_ffff_ffff_ffff_ffff_ffff;

/// Reads a word as a number from `least` to `most`: `0`, or an optional `-`, a digit from 1 to 9 and
/// any further digits, however many.
///
/// # Errors
///
/// `NotDecimal` where the word spells no number, `Over` where it spells one outside the range.
pub fn read_number(word: &[u8], least: i128, most: i128) -> Result<i128, NumberFault>
    ensures ok { IfOk result (λ z. word.now ≡ number z) }
    ensures within { IfOk result (λ z. (least ≤ℤ z) × (z ≤ℤ most)) }
    ensures not_decimal { IfErr result (λ e. e ≡ NumberFault.NotDecimal → (z : ℤ) → word.now ≢ spelling z) }
    ensures over { IfErr result (λ e. e ≡ NumberFault.Over → (z : ℤ) × (word.now ≡ spelling z) × LiesOutside least most z) }
{
    match spelled_by(word) {
        Spelled::Value(value) => {
            if value < least || most < value {
                return Err(NumberFault::Over);
            }
            Ok(value)
        }
        Spelled::Beyond => Err(NumberFault::Over),
        Spelled::Nothing => Err(NumberFault::NotDecimal),
    }
}

/// What the word spells.
fn spelled_by(word: &[u8]) -> Spelled
    ensures { IsSpelling word.now result }
{
    if word.is_empty() || word[0] != b'-' {
        return spelled_natural(word);
    }
    spelled_negative(&word[1..])
}

/// What a word that doesn't begin with `-` spells.
fn spelled_natural(word: &[u8]) -> Spelled
    requires { slice_index word.now 0 ≢ 45 }
    ensures { IsSpelling word.now result }
{
    if !is_numeral(word) {
        return Spelled::Nothing;
    }
    let Some(value) = digits_value(word) else {
        return Spelled::Beyond;
    };
    if value > MOST {
        return Spelled::Beyond;
    }
    Spelled::Value(value as i128)
}

/// What `-` and this word together spell.
fn spelled_negative(word: &[u8]) -> Spelled
    ensures { IsSpelling (45 ∷ word.now) result }
{
    if !is_numeral(word) {
        return Spelled::Nothing;
    }
    if word[0] == b'0' {
        return Spelled::Nothing;
    }
    let Some(value) = digits_value(word) else {
        return Spelled::Beyond;
    };
    if value > MOST + 1 {
        return Spelled::Beyond;
    }
    Spelled::Value(-1 - (value - 1) as i128)
}

/// Whether these bytes are a lone `0`, or digits that begin with another.
fn is_numeral(bytes: &[u8]) -> bool
    ensures { IsTrue result ↔ IsNumeral bytes.now }
{
    if bytes.is_empty() {
        return false;
    }
    if bytes[0] == b'0' {
        return bytes.len() == 1;
    }
    all_digits(bytes)
}

/// Whether each byte is a digit.
fn all_digits(bytes: &[u8]) -> bool
    ensures { IsTrue result ↔ EachIndex bytes.now (λ k. IsDigit (slice_index bytes.now k)) }
{
    bytes.iter().all(|byte| byte.is_ascii_digit())
}

/// The number that digits write; None only where it is above 2^127.
fn digits_value(digits: &[u8]) -> Option<u128>
    requires { EachIndex digits.now (λ k. IsDigit (slice_index digits.now k)) }
    ensures value { IfSome result (λ value. value ≡ value_after 0 digits.now) }
    ensures large { IfNone result (2 ^ 127 < value_after 0 digits.now) }
{
    let mut value = 0u128;
    for digit in digits {
        if value >= u128::MAX / 10 {
            return None;
        }
        value = value * 10 + (*digit - b'0') as u128;
    }
    Some(value)
}

/// Appends the one spelling of `value`: `0`, or an optional `-`, a digit from 1 to 9 and any further
/// digits.
///
/// # Errors
///
/// `Failed` only where the count of `out` rose or stands at its last value. Some first part of the
/// spelling was appended then.
pub fn push_number<O: Sink>(value: i128, out: &mut O) -> Result<(), Failed>
    ensures writes { Writes result (O.state out.old) (O.state out.new) (number value) }
{
    let mut text = [0u8; 40];
    let start = put_digits(value.unsigned_abs(), &mut text);
    if value >= 0 {
        return out.push(&text[start..]);
    }
    text[start - 1] = b'-';
    out.push(&text[start - 1..])
}

/// Puts the digits at the end of the text, and answers where they start.
fn put_digits(value: u128, text: &mut [u8; 40]) -> usize
    ensures room { 1 ≤ result }
    ensures within { result ≤ 40 }
    ensures digits { drop result text.new ≡ numeral value }
{
    if value == 0 {
        text[39] = b'0';
        return 39;
    }
    let mut start = 40;
    let mut left = value;
    while left > 0 {
        start -= 1;
        text[start] = b'0' + (left % 10) as u8;
        left /= 10;
    }
    start
}
