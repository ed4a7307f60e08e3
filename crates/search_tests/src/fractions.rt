//! Calls on fractions, in range and out of it.

use bounded_fractions::{Fraction, FractionOverflow, Overflow};
use std::process::Abort;

const HALF: i64 = 1 << 61;

const MOST: i64 = 1 << 62;

/// The fraction of a numerator and a denominator that is in range.
fn fraction(rt: &impl Abort, num: i64, den: i64) -> Fraction {
    assert!(rt; den != 0);
    Fraction::new(num, den).expect(rt, "in range")
}

#[test]
fn sums_and_overflow(rt: HostRuntime) {
    let table = [
        ((1, 2), (1, 3), Some((5, 6))),
        ((1, 6), (2, 6), Some((1, 2))),
        ((3, -4), (1, 4), Some((-1, 2))),
        ((HALF, 1), (HALF, 1), Some((MOST, 1))),
        ((MOST, 1), (1, 1), None),
        ((1, HALF), (1, 3), None),
    ];
    for (left, right, want) in table {
        let left = fraction(&rt, left.0, left.1);
        let right = fraction(&rt, right.0, right.1);
        let got = left.add(right).map(|sum| (sum.num, sum.den));
        assert!(&rt; got == want.ok_or(FractionOverflow { left, right }));
    }
}

#[test]
fn each_call(rt: HostRuntime) {
    let left = fraction(&rt, 2, -3);
    let right = fraction(&rt, 5, 6);
    assert!(&rt; left.sub(right) == Ok(fraction(&rt, -3, 2)));
    assert!(&rt; left.mul(right) == Ok(fraction(&rt, -5, 9)));
    assert!(&rt; left.num != 0);
    assert!(&rt; right.div(left) == Ok(fraction(&rt, -5, 4)));
    assert!(&rt; left.compare(right).is_lt());
    assert!(&rt;
        Fraction::new(1, MOST + 1)
            == Err(Overflow {
                left: 1,
                right: MOST + 1
            })
    );
}
