//! The runs of the search, and what they found.

ghost use Rattle.std.specs.Prelude.{◌<◌, length, IfOk, IfSome, All};
ghost use Rattle.layout_search.specs.Named.{IsNamed};

use crate::beginning::first_state;
use crate::moves::Mover;
use crate::network::Network;
use crate::penalties::Penalties;
use crate::points::POINTS;
use candidate_cables::Arcs;
use layout_meaning::{Cable, Layout};
use site_model::Site;
use std::alloc::{AllocError, Global};

/// How many runs there are where there are few or many turbines.
const RUNS: u64 = 3;

/// How many turbines are few.
const FEW_TURBINES: usize = 40;

/// How many runs there are where the turbines are neither few nor many: which string leads to which substation is settled early in a run, so
/// further runs serve better than longer ones.
const MORE_RUNS: u64 = 4;

/// More turbines than these are many: there a run takes longest, and a fourth one found little.
const MOST_TURBINES: usize = 120;

/// What the first run is drawn from.
const FIRST_SEED: u64 = 5;

/// How often the threshold falls in a run.
const FALLS: usize = 256;

/// The most moves of a run for each turbine.
const MOST_MOVES: usize = 20000;

/// The cheapest state without faults that was met.
#[derive(Drop)]
pub(crate) struct Best {
    ends: [u8; POINTS],
    loads: [u32; POINTS],
    cost: Option<i64>,
}

/// A run of the search.
#[derive(Drop)]
struct Run<'a> {
    mover: Mover<'a>,
    penalties: Penalties,
    total: i128,
    moves: u8,
}

impl Best {
    /// None was met.
    fn new() -> Best {
        Best {
            ends: [0; POINTS],
            loads: [0; POINTS],
            cost: None,
        }
    }

    /// Whether a cost is less than that of what was met.
    fn is_beaten(&self, cost: i64) -> bool {
        match self.cost {
            None => true,
            Some(least) => cost < least,
        }
    }
}

impl<'a> Run<'a> {
    /// Raises or lowers the penalties, once in 256 moves.
    fn adapt(&mut self) {
        self.moves = self.moves.wrapping_add(1);
        if self.moves == 0 {
            self.penalties.adapt(self.mover.state.sums());
            self.total = self.penalties.total(self.mover.state.sums());
        }
    }

    /// Makes a move, and takes it back where it costs more than is allowed: evenly drawn from nothing to twice the threshold, which is in 1,024ths
    /// of a cost unit.
    fn step(&mut self, threshold: i128, best: &mut Best) {
        self.adapt();
        if !self.mover.propose() {
            return;
        }
        let total = self.penalties.total(self.mover.state.sums());
        let drawn = self.mover.generator.draw(1024);
        let allowed = threshold.wrapping_mul(drawn as i128) >> 19;
        if total.wrapping_sub(self.total) > allowed {
            self.mover.take_back();
            return;
        }
        self.total = total;
        self.keep(best);
    }

    /// Keeps the state where it has no faults and beats what was met.
    fn keep(&self, best: &mut Best) {
        let state = &self.mover.state;
        let sums = state.sums();
        if sums.is_legal() && best.is_beaten(sums.cost) {
            let ends = *state.ends();
            let loads = *state.loads();
            best.ends = ends;
            best.loads = loads;
            best.cost = Some(sums.cost);
        }
    }

    /// Makes so many moves at a threshold.
    fn step_often(&mut self, moves: usize, threshold: i128, best: &mut Best) {
        for step in 0..moves {
            self.step(threshold, best);
        }
    }

    /// Makes so many moves at each of the thresholds, from four tenths of what a cable between neighbours costs down to a fiftieth.
    fn cool(&mut self, moves: usize, mean_cost: i64, best: &mut Best) {
        let mut threshold = (mean_cost as i128).wrapping_mul(400 * 1024) / 1000;
        for fall in 0..FALLS {
            self.step_often(moves, threshold, best);
            threshold = threshold.wrapping_sub(threshold / 86);
        }
    }
}

/// How many moves a run makes at each threshold: in all up to 20,000 for each turbine, on small sites fewer.
fn moves_at_once(turbines: usize) -> usize {
    let turbines = turbines.min(POINTS);
    let each = (5000 + 1000 * turbines).min(MOST_MOVES);
    (each * turbines / FALLS).max(1)
}

/// How many runs there are for so many turbines.
fn runs_for(turbines: usize) -> u64 {
    if turbines <= FEW_TURBINES || turbines > MOST_TURBINES {
        RUNS
    } else {
        MORE_RUNS
    }
}

/// Makes a run from the shortest ways.
fn make_run(network: &Network, seed: u64, best: &mut Best) {
    if let Some(state) = first_state(network) {
        let penalties = Penalties::new(network.mean_cost(), network.farm.capacity());
        let total = penalties.total(state.sums());
        let mut run = Run {
            mover: Mover::new(network, state, seed),
            penalties,
            total,
            moves: 0,
        };
        let moves = moves_at_once(network.farm.turbines().len());
        run.keep(best);
        run.cool(moves, network.mean_cost(), best);
    }
}

/// The cable from one point to another, of the cheapest type that bears a load. None where none does, or where the end isn't of the site.
fn cable_between(site: &Site, from: u32, to: u32, load: u32) -> Option<Cable>
    requires { from < length site.now.points }
    ensures { IfSome result (IsNamed site.now) }
{
    if to as usize >= site.points().len() {
        return None;
    }
    match site.cheapest(from, to, load) {
        None => None,
        Some((grade, cost)) => Some(Cable { from, to, grade }),
    }
}

/// The cables of the cheapest state that was met, each of the cheapest type that bears its load. None where none does, or where some point isn't
/// of the site.
fn layout_of(alloc: Global, site: &Site, best: &Best) -> Result<Option<Layout>, AllocError>
    ensures { IfOk result (λ found. IfSome found (All (IsNamed site.now))) }
{
    let mut layout = Layout::new(alloc)?;
    for p in 0..site.points().len().min(POINTS) {
        let end = best.ends[p];
        if end as usize != p {
            match cable_between(site, p as u32, end as u32, best.loads[p]) {
                None => return Ok(None),
                Some(cable) => {
                    let _ = layout.push(cable);
                }
            }
        }
    }
    Ok(Some(layout))
}

/// The cheapest layout that some runs of the search met, for `judge` to judge: nothing is promised of it but that its cables, of which there are
/// at most 256, name points and cable types of the site. None where no state without faults was met. It ends, and an error comes for want of
/// memory alone.
pub fn search_layout(alloc: Global, site: &Site, arcs: &Arcs) -> Result<Option<Layout>, AllocError>
    ensures { IfOk result (λ found. IfSome found (All (IsNamed site.now))) }
{
    let network = Network::new(alloc, site, arcs)?;
    let mut best = Best::new();
    for number in 0..runs_for(network.farm.turbines().len()) {
        make_run(&network, FIRST_SEED.wrapping_add(number), &mut best);
    }
    if best.cost.is_none() {
        return Ok(None);
    }
    layout_of(alloc, site, &best)
}
