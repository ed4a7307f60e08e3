//! Greatest common divisors.

ghost use Rattle.std.specs.Prelude.{◌≤◌};
ghost use Rattle.std.specs.Int.{IsGcd};

/// The greatest common divisor, by Euclid's steps.
pub fn greatest_divisor(a: u64, b: u64) -> u64
    ensures { IsGcd a b result }
{
    let mut divisor = a;
    let mut rest = b;
    while rest != 0 {
        let next = divisor % rest;
        divisor = rest;
        rest = next;
    }
    divisor
}

/// The greatest common divisor of a wide number and a narrow one: its first step leaves a narrow rest.
pub fn shared_divisor(wide: u128, narrow: u64) -> u64
    requires { 1 ≤ narrow }
    ensures { IsGcd wide narrow result }
{
    greatest_divisor(narrow, (wide % u128::from(narrow)) as u64)
}
