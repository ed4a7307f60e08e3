//! The right side of a row.

ghost use Rattle.std.specs.Prelude.{◌≡◌, ◌≤◌, ◌*◌, length, sum_by, unsigned_abs};
ghost use Rattle.cable_definitions.specs.Arcs.{kind_of};
ghost use Rattle.cable_definitions.specs.Row.{right as right_of, inlet_limit, power_limit, rounded_up as rounded_up_of};
ghost use Rattle.cable_rows.specs.Sides.{amount_of};

use cable_definitions::row::RowKind;
use site_model::{Kind, Mode, Site};

/// What of its points a right side sums: the power that each feeds in, how many cables may end in it, or the most power that it takes as a substation.
#[derive(Clone, Copy)]
enum Amount {
    Power,
    Inlets,
    Limit,
}

/// How many cables may end in a point.
fn inlet_at(site: &Site, q: u32) -> u32
    ensures limit { result ≡ inlet_limit site.now.mode (kind_of site.now q) }
    ensures most { result ≤ 256 }
{
    match (site.kind(q), site.mode()) {
        (Kind::Substation { feeders, .. }, _) => feeders,
        (Kind::Turbine { .. }, Mode::Tree) => 255,
        (Kind::Turbine { .. }, Mode::Strings) => 1,
        (Kind::Bend, _) => 1,
    }
}

/// The most power that a point takes as a substation.
fn power_limit_at(site: &Site, q: u32) -> u32
    ensures limit { result ≡ power_limit (kind_of site.now q) }
    ensures most { result ≤ 300000 }
{
    match site.kind(q) {
        Kind::Substation { power, .. } => power,
        _ => 0,
    }
}

/// What of a point a right side counts.
fn amount_at(site: &Site, amount: Amount, q: u32) -> u32
    ensures amount { result ≡ amount_of site.now amount q }
    ensures most { result ≤ 300000 }
{
    match amount {
        Amount::Power => site.power(q),
        Amount::Inlets => inlet_at(site, q),
        Amount::Limit => power_limit_at(site, q),
    }
}

/// What a right side counts of at most 256 points together.
fn total(site: &Site, amount: Amount, members: &[u32]) -> u32
    requires { length members.now ≤ 256 }
    ensures total { result ≡ sum_by (amount_of site.now amount) members.now }
    ensures most { result ≤ 76800000 }
{
    let mut total = 0;
    for member in members {
        total += amount_at(site, amount, *member);
    }
    total
}

/// The quotient rounded up.
fn rounded_up(n: u32, k: u32) -> u32
    requires dividend { n ≤ 76800000 }
    requires divisor { 1 ≤ k }
    requires small { k ≤ 10000 }
    ensures quotient { result ≡ rounded_up_of n k }
    ensures most { result ≤ 76800000 }
{
    (n + (k - 1)) / k
}

/// The right side of a row.
pub(crate) fn right_side(site: &Site, kind: RowKind, members: &[u32]) -> i64
    requires { length members.now ≤ 256 }
    ensures value { result ≡ right_of site.now kind members.now }
    ensures small { unsigned_abs result ≤ 76800000 }
{
    match kind {
        RowKind::Out => 1,
        RowKind::Flow => i64::from(total(site, Amount::Power, members)),
        RowKind::Inlet => -i64::from(total(site, Amount::Inlets, members)),
        RowKind::Bend => 0,
        RowKind::Power => -i64::from(total(site, Amount::Limit, members)),
        RowKind::One => -1,
        RowKind::Cut => {
            let power = total(site, Amount::Power, members);
            i64::from(rounded_up(power, site.largest_capacity()))
        }
    }
}
