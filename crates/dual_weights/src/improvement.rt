//! Better weights of a node, with the shares of its arcs.

ghost use Rattle.std.specs.Prelude.{◌≡◌, ◌≤◌, ◌^◌, ℕ, ℤ, ◌≤ℤ◌, length, IfOk, All};
ghost use Rattle.cable_definitions.specs.Arcs.{AreArcs};
ghost use Rattle.cable_definitions.specs.Choice.{AreLawful, IsValue};
ghost use Rattle.cable_definitions.specs.Core.{HasLift};
ghost use Rattle.dual_weights.specs.Worth.{AreWorth};

use crate::steps::Dual;
use bound_shares::Shares;
use bound_value::{lawful, weigh};
use cable_rows::RowPool;
use candidate_cables::Arcs;
use node_works::{Decisions, Weights};
use row_lifts::{copied, lift_all};
use site_model::Site;
use std::alloc::{AllocError, Global};

/// Weights of a node over 2^20 of a cost unit, and for each arc its share over 2^20: how much of a cable it is on average at the points that the
/// volume method met, raised by an eighth, and at most a whole one.
#[derive(Drop)]
pub struct Improved {
    pub weights: Weights,
    pub shares: Shares,
}

/// Weights that the turns find, whatever they are worth. The shares become those of the arcs.
///
/// # Errors
///
/// `AllocError` where there is no memory.
fn found_weights(
    alloc: Global,
    site: &Site,
    arcs: &Arcs,
    pool: &RowPool,
    decisions: &Decisions,
    start: &Weights,
    turns: u32,
    shares: &mut Shares,
) -> Result<Weights, AllocError>
    ensures { IfOk result (λ _. length shares.new ≡ length shares.old) }
{
    let mut weights = Weights::new(alloc)?;
    let mut dual = Dual::new(alloc, site, arcs, pool, decisions, start)?;
    if turns > 0 && dual.node.is_open() {
        let value = dual.raise(pool, turns);
        dual.turn_all(alloc, site, pool, value, turns)?;
        dual.list(pool, &mut weights);
        dual.share(shares);
    }
    Ok(weights)
}

/// Found weights, where they are lawful and have a greater value in the node than the start, or else the start again: of lawful weights those that are
/// worth more. The arcs are those of the site, with one mark each.
///
/// # Errors
///
/// `AllocError` where there is no memory.
pub fn better_of(
    alloc: Global,
    site: &Site,
    arcs: &Arcs,
    pool: &RowPool,
    decisions: &Decisions,
    start: &Weights,
    found: Weights,
) -> Result<Weights, AllocError>
    requires arcs { AreArcs site.now arcs.now }
    requires marks { length decisions.now ≡ length arcs.now }
    requires lawful { AreLawful pool.now start.now }
    ensures lawful { IfOk result (AreLawful pool.now) }
    ensures worth { IfOk result (AreWorth site.now arcs.now pool.now decisions.now start.now) }
    ensures found { IfOk result (λ weights. AreLawful pool.now found → AreWorth site.now arcs.now pool.now decisions.now found weights) }
{
    let kept = copied(alloc, start)?;
    let before = weigh(site, arcs, pool, decisions, start);
    if !lawful(pool, &found) {
        return Ok(kept);
    }
    let after = weigh(site, arcs, pool, decisions, &found);
    if before < after {
        return Ok(found);
    }
    Ok(kept)
}

/// Better weights of a node, from lawful ones: 64 rounds of so many steps of the volume method (Barahona and Anbil, 2000) from the start, then so many
/// turns, each of which solves the rows of a few points exactly as a table and follows its multipliers where that raises the value. What they find is
/// kept where its value in the node is greater than the start's. At last each listed row that may weigh more is raised, until none can be. With 0 turns the
/// start is raised alone, and all shares are 0.
///
/// The weights are lawful, and their value in the node is at least the start's. The arcs are those of the site, with one mark each.
///
/// # Errors
///
/// `AllocError` where there is no memory.
pub fn improve(
    alloc: Global,
    site: &Site,
    arcs: &Arcs,
    pool: &RowPool,
    decisions: &Decisions,
    start: &Weights,
    turns: u32,
) -> Result<Improved, AllocError>
    requires arcs { AreArcs site.now arcs.now }
    requires marks { length decisions.now ≡ length arcs.now }
    requires lawful { AreLawful pool.now start.now }
    ensures lawful { IfOk result (λ improved. AreLawful pool.now improved.weights) }
    ensures value { IfOk result (λ improved. (before after : ℤ) → IsValue site.now arcs.now pool.now decisions.now start.now before
        → IsValue site.now arcs.now pool.now decisions.now improved.weights after → before ≤ℤ after) }
    ensures no_lift { IfOk result (λ improved. (row : ℕ) → ¬ (HasLift site.now arcs.now pool.now decisions.now improved.weights row)) }
    ensures shares { IfOk result (λ improved. length improved.shares ≡ length arcs.now) }
    ensures whole { IfOk result (λ improved. All (λ share. share ≤ 2 ^ 20) improved.shares) }
{
    let mut shares = Shares::new(alloc, arcs.len())?;
    let found = found_weights(
        alloc,
        site,
        arcs,
        pool,
        decisions,
        start,
        turns,
        &mut shares,
    )?;
    let mut weights = better_of(alloc, site, arcs, pool, decisions, start, found)?;
    lift_all(alloc, site, arcs, pool, decisions, &mut weights)?;
    Ok(Improved { weights, shares })
}
