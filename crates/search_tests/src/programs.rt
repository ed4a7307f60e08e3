//! Tables of one row or two, and the answer to each.

use bounded_fractions::Fraction;
use fraction_simplex::{Answer, FractionList, Table, solve};
use std::alloc::Global;
use std::process::Abort;
use std::test::Fail;

/// A fraction in range.
fn fraction(rt: &impl Abort, num: i64, den: i64) -> Fraction {
    assert!(rt; den != 0);
    Fraction::new(num, den).expect(rt, "in range")
}

/// The point and the multipliers of an optimal answer.
fn optimal_parts(answer: Answer) -> Option<(FractionList, FractionList)> {
    match answer {
        Answer::Optimal { point, multipliers } => Some((point, multipliers)),
        Answer::Infeasible { ray: _ray } => None,
        Answer::Unbounded {
            point: _point,
            ray: _ray,
        } => None,
    }
}

/// The ray of an infeasible answer.
fn infeasible_ray(answer: Answer) -> Option<FractionList> {
    match answer {
        Answer::Infeasible { ray } => Some(ray),
        Answer::Optimal {
            point: _point,
            multipliers: _multipliers,
        } => None,
        Answer::Unbounded {
            point: _point,
            ray: _ray,
        } => None,
    }
}

/// The point and the ray of an unbounded answer.
fn unbounded_parts(answer: Answer) -> Option<(FractionList, FractionList)> {
    match answer {
        Answer::Unbounded { point, ray } => Some((point, ray)),
        Answer::Infeasible { ray: _ray } => None,
        Answer::Optimal {
            point: _point,
            multipliers: _multipliers,
        } => None,
    }
}

/// The answer to a program of one row and two entries.
fn solved(
    rt: &impl Abort,
    alloc: Global,
    row: [i64; 2],
    right: i64,
    costs: [i64; 2],
) -> Result<Answer, Fail> {
    let mut table = Table::new(alloc, 1, 2)?;
    table.set(0, 0, fraction(rt, row[0], 1));
    table.set(0, 1, fraction(rt, row[1], 1));
    table.set_cost(0, fraction(rt, costs[0], 1));
    table.set_cost(1, fraction(rt, costs[1], 1));
    table.set_right(0, fraction(rt, right, 1));
    Ok(solve(alloc, &table)?)
}

#[test]
fn programs_of_one_row(rt: HostRuntime) -> Result<(), Fail> {
    // Least x + y with x + 2y = 4.
    let cheapest = solved(&rt, rt.alloc(), [1, 2], 4, [1, 1])?;
    let (point, multipliers) = optimal_parts(cheapest).ok_or("not optimal")?;
    assert!(&rt; point.as_slice() == [fraction(&rt, 0, 1), fraction(&rt, 2, 1)].as_slice());
    assert!(&rt; multipliers.as_slice() == [fraction(&rt, 1, 2)].as_slice());
    // x = -1, whatever the costs are.
    for costs in [[0, 0], [1, 0], [-1, -1]] {
        let impossible = solved(&rt, rt.alloc(), [1, 0], -1, costs)?;
        let ray = infeasible_ray(impossible).ok_or("not infeasible")?;
        assert!(&rt; ray.as_slice() == [fraction(&rt, -1, 1)].as_slice());
    }
    // Least -x with x - y = 0.
    let endless = solved(&rt, rt.alloc(), [1, -1], 0, [-1, 0])?;
    let (_point, ray) = unbounded_parts(endless).ok_or("not unbounded")?;
    assert!(&rt; ray.as_slice() == [fraction(&rt, 1, 1), fraction(&rt, 1, 1)].as_slice());
    Ok(())
}

/// Least -x with x + y = 2^62 and 3x - y = 1 asks for a result out of range.
#[test]
fn names_an_overflow(rt: HostRuntime) -> Result<(), Fail> {
    let mut table = Table::new(rt.alloc(), 2, 2)?;
    table.set(0, 0, fraction(&rt, 1, 1));
    table.set(0, 1, fraction(&rt, 1, 1));
    table.set_right(0, fraction(&rt, 1 << 62, 1));
    table.set(1, 0, fraction(&rt, 3, 1));
    table.set(1, 1, fraction(&rt, -1, 1));
    table.set_right(1, fraction(&rt, 1, 1));
    assert!(&rt; solve(rt.alloc(), &table).is_err());
    Ok(())
}
