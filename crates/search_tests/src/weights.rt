//! The bound of a fork by weights that are improved from none.

ghost use Rattle.cable_definitions.specs.Arcs.{AreArcs};

use bound_value::{lawful, weigh};
use cable_definitions::row::RowKind;
use cable_rows::{RowPool, row_form};
use candidate_cables::Arcs;
use dual_weights::improve;
use node_works::{Decisions, Weights};
use sample_sites::site_of;
use site_model::Site;
use std::alloc::Global;
use std::test::Fail;

/// What a cost of one unit weighs.
const UNIT: i128 = 1_048_576;

/// The turbines of a fork.
const TURBINES: &str = "turbine A 0 1000 100\nturbine B -300 1400 100\nturbine C 300 1400 100\n";

/// A substation of this power and three turbines, and a charge on the pair of the substation and the first of them.
fn fork_site(alloc: Global, price: u64, power: u64, charge: u64) -> Result<Site, Fail> {
    let front = format!(in alloc;
        "site 1\nmode tree\ntype 400 {price}\nsubstation S 0 0 4 {power}\n"
    )?;
    let lines = format!(in alloc;
        "{}{TURBINES}charge S A {charge}\nend site\n",
        front.as_str()
    )?;
    site_of(alloc, lines.as_str())
}

/// Lists the rows of a kind on the three turbines.
fn list(pool: &mut RowPool, site: &Site, arcs: &Arcs, kind: RowKind) -> Result<(), Fail>
    requires { AreArcs site.now arcs.now }
{
    for turbine in 1..4u32 {
        row_form(site, arcs, kind, &[turbine])?;
        pool.add(site, arcs, kind, &[turbine])?;
    }
    Ok(())
}

/// The bound of a site with all arcs free, by the rows on the cables out of the three turbines and on their loads, after eight turns from no weights.
fn bound_of(alloc: Global, site: &Site) -> Result<i128, Fail> {
    let arcs = Arcs::new(alloc, site)?;
    let mut pool = RowPool::new(alloc)?;
    list(&mut pool, site, &arcs, RowKind::Out)?;
    list(&mut pool, site, &arcs, RowKind::Flow)?;
    let decisions = Decisions::new(alloc, arcs.len())?;
    let start = Weights::new(alloc)?;
    if !lawful(&pool, &start) {
        return Ok(-1);
    }
    let improved = improve(alloc, site, &arcs, &pool, &decisions, &start, 8)?;
    Ok(weigh(site, &arcs, &pool, &decisions, &improved.weights))
}

/// The steps alone reach 1,874.7, the turns 1,874.9996 of the 1,875 that these rows can say; the nearest arcs are worth 1,500.
#[test]
fn the_fork_is_bounded(rt: HostRuntime) -> Result<(), Fail> {
    let alloc = rt.alloc();
    let site = fork_site(alloc, 1, 10000, 1)?;
    let bound = bound_of(alloc, &site)?;
    assert!(&rt; bound >= 1874 * UNIT);
    assert!(&rt; bound <= 1876 * UNIT);
    for (price, power, charge) in [(0, 10000, 1), (1_000_000, 0, 1_000_000_000_000)] {
        let site = fork_site(alloc, price, power, charge)?;
        assert!(&rt; bound_of(alloc, &site)? >= 0);
    }
    Ok(())
}
