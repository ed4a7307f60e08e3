//! The weights of a node.

ghost use Rattle.std.specs.Prelude.{◌≡◌, length, All, IfOk};
ghost use Rattle.cable_definitions.specs.Arcs.{AreArcs};
ghost use Rattle.cable_definitions.specs.Choice.{AreLawful};
ghost use Rattle.cable_definitions.specs.Row.{IsWellFormed};
ghost use Rattle.search_core.specs.Raised.{BeatLast, IsRaised};

use bound_shares::Shares;
use bound_value::weigh;
use cable_rows::RowPool;
use candidate_cables::Arcs;
use dual_weights::{Improved, better_of, improve};
use node_works::{Decisions, Weights};
use row_lifts::copied;
use site_model::Site;
use std::alloc::{AllocError, Global};
use turbine_weights::weigh_turbines;

/// Weights, their value in a node, over 2^20 of a cost unit, and the share of each arc that goes with them.
#[derive(Drop)]
pub(crate) struct Worth {
    pub(crate) weights: Weights,
    pub(crate) value: i128,
    pub(crate) shares: Shares,
}

/// The weights of a node's nearest arcs, or the last weights where these are worth more there, raised by so many turns, so that no listed row can weigh
/// more.
///
/// # Errors
///
/// `AllocError` where there is no memory.
pub(crate) fn improved_weights(
    alloc: Global,
    site: &Site,
    arcs: &Arcs,
    pool: &RowPool,
    decisions: &Decisions,
    last: &Weights,
    turns: u32,
) -> Result<Worth, AllocError>
    requires arcs { AreArcs site.now arcs.now }
    requires marks { length decisions.now ≡ length arcs.now }
    requires well_formed { All (IsWellFormed site.now arcs.now) pool.now }
    ensures raised { IfOk result (IsRaised site.now arcs.now pool.now decisions.now) }
    ensures last { IfOk result (λ worth. AreLawful pool.now last.now → BeatLast site.now arcs.now pool.now pool.now decisions.now last.now worth.weights) }
{
    let mut nearest = Weights::new(alloc)?;
    weigh_turbines(site, arcs, pool, decisions, &mut nearest);
    let found = copied(alloc, last)?;
    let start = better_of(alloc, site, arcs, pool, decisions, &nearest, found)?;
    let improved = improve(alloc, site, arcs, pool, decisions, &start, turns)?;
    let Improved { weights, shares } = improved;
    let value = weigh(site, arcs, pool, decisions, &weights);
    // The room of weights bounds how many there are.
    let _few = weights.as_slice();
    Ok(Worth {
        weights,
        value,
        shares,
    })
}
