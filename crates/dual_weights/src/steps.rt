//! The volume method: steps along the average of the gaps, of a length that falls by a fixed schedule. See Barahona and Anbil, "The volume algorithm:
//! producing primal solutions with a subgradient method", Mathematical Programming 87 (2000).

use crate::gaps::{Sums, find_gaps, no_sums};
use crate::node::{Link, Node, Spot};
use crate::rows::{DualRow, MOST_WEIGHT, dual_rows, is_on_load, is_on_set};
use crate::value::{Pick, PointWeights, SetBits, fill_extras, no_weights, places_of, value_of};
use cable_rows::RowPool;
use candidate_cables::Arcs;
use node_works::{Decisions, Weights};
use site_model::{CableType, Site};
use std::alloc::{AllocError, Global};

/// How many rounds of steps of one length there are.
const ROUNDS: u32 = 64;

/// A whole use of an arc.
const WHOLE: i64 = 1_048_576;

/// The dual weights of a node, with what the steps keep: the point at which the tried weights have their value, and the average use of each link, over
/// 2^20.
#[derive(Drop)]
pub(crate) struct Dual {
    pub(crate) node: Node,
    pub(crate) rows: Vec<DualRow>,
    pub(crate) uses: Vec<i64>,
    picks: Vec<Pick>,
    pub(crate) weights: PointWeights,
    sums: Sums,
    sets: SetBits,
    has_sets: bool,
    link_places: Vec<u32>,
    unit: i64,
}

/// Half the greatest capacity of the types, in power units: the unit in which gaps of loads are measured.
fn load_unit(types: &[CableType]) -> i64 {
    let mut most = 0;
    for cable_type in types {
        most = most.max(cable_type.capacity);
    }
    i64::from(most / 2)
}

/// Whether one of the rows is on a set.
fn has_set(rows: &[DualRow]) -> bool {
    for row in rows {
        if is_on_set(row.kind) {
            return true;
        }
    }
    false
}

/// The gap of a row along which a step goes: none where the row asks for a least side, has no weight and isn't broken.
fn direction(row: &DualRow) -> i64 {
    if row.gap < 0 && row.weight <= 0 && !row.is_equation {
        return 0;
    }
    row.gap
}

/// The sum of the squares of the directions, over 2^16.
fn square_sum(rows: &[DualRow]) -> i128 {
    let mut sum: i128 = 0;
    for row in rows {
        let along = i128::from(direction(row));
        sum = sum.wrapping_add(along.wrapping_mul(along));
    }
    sum >> 16
}

/// The length of a step from weights of this value, in weight over 2^20 for a gap of 1.
fn stride_of(rows: &[DualRow], best: i128, pace: i128) -> i128 {
    let reach = (best >> 4).clamp(1, 19_342_813_113_834_066_795_298_816);
    let wide = reach.wrapping_mul(pace).wrapping_mul(1_048_576);
    let stride = wide.wrapping_div(square_sum(rows).max(1));
    stride.clamp(0, 1_180_591_620_717_411_303_424)
}

/// Tries the weight of a row after a step of this length.
fn move_row(row: &mut DualRow, stride: i128) {
    let way = stride.wrapping_mul(i128::from(direction(row))) >> 36;
    let least = if row.is_equation { -MOST_WEIGHT } else { 0 };
    row.trial = row.weight.wrapping_add(way).clamp(least, MOST_WEIGHT);
}

/// The share of the last point in the average after so many steps, over 2^16.
fn share_after(steps: i64) -> i64 {
    65_536i64
        .wrapping_div_euclid(steps.max(1).saturating_add(1))
        .max(2_048)
}

/// What lies between two numbers, at a share over 2^16 of the way.
fn between(from: i64, to: i64, share: i64) -> i64 {
    from.wrapping_add(to.wrapping_sub(from).wrapping_mul(share) >> 16)
}

impl Dual {
    /// The dual weights of a node that begin with these weights.
    ///
    /// # Errors
    ///
    /// `AllocError` where there is no memory.
    pub(crate) fn new(
        alloc: Global,
        site: &Site,
        arcs: &Arcs,
        pool: &RowPool,
        decisions: &Decisions,
        start: &Weights,
    ) -> Result<Dual, AllocError> {
        let node = Node::new(alloc, site, arcs, decisions)?;
        let rows = dual_rows(alloc, site, pool, start)?;
        let count = node.links.len();
        Ok(Dual {
            uses: vec![in alloc; 0; count]?,
            picks: Vec::with_capacity(alloc, count)?,
            weights: no_weights(),
            sums: no_sums(),
            sets: SetBits::new(rows.as_slice(), pool),
            has_sets: has_set(rows.as_slice()),
            link_places: places_of(alloc, node.links.as_slice(), arcs.len())?,
            unit: load_unit(site.types()),
            node,
            rows,
        })
    }

    /// The value of the tried weights, over 2^20 of a cost unit, with the point at which it is reached.
    pub(crate) fn value(&mut self, pool: &RowPool) -> i128 {
        let rows = self.rows.as_slice();
        if self.has_sets {
            fill_extras(
                &mut self.node,
                &self.sets,
                self.link_places.as_slice(),
                pool,
                rows,
            );
        }
        value_of(&mut self.node, rows, &mut self.weights, &mut self.picks)
    }

    /// Finds by how much the point breaks each row.
    fn find(&mut self, pool: &RowPool) {
        find_gaps(
            &self.node,
            pool,
            &self.sets,
            self.has_sets,
            &mut self.sums,
            self.picks.as_slice(),
            self.rows.as_mut_slice(),
            self.unit,
        );
    }

    /// Tries weights a step of this length on.
    fn advance(&mut self, stride: i128) {
        let of_load = stride.wrapping_div(i128::from(self.unit.max(1)));
        for row in &mut self.rows {
            let own = if is_on_load(row.kind) {
                of_load
            } else {
                stride
            };
            move_row(row, own);
        }
    }

    /// Takes the point into the average with this share.
    fn average(&mut self, share: i64) {
        for row in &mut self.rows {
            row.gap = between(row.gap, row.found, share);
        }
        for own in &mut self.uses {
            *own = between(*own, 0, share);
        }
        self.add_picks(share);
    }

    /// Adds a share of a use to each link of the point.
    fn add_picks(&mut self, share: i64) {
        for pick in &self.picks {
            if let Some(own) = self.uses.get_mut(pick.place) {
                *own = own.wrapping_add(share.wrapping_mul(16)).min(WHOLE);
            }
        }
    }

    /// Makes the kept weights the tried ones.
    pub(crate) fn try_kept(&mut self) {
        for row in &mut self.rows {
            row.trial = row.weight;
        }
    }

    /// What a use of a link out of a point leaves of this cost in cost units at this load, under the weights that were valued last.
    pub(crate) fn reduced_at(&self, spot: &Spot, link: &Link, cost: u64, load: i64) -> i128 {
        self.weights.reduced_at(spot, link, cost, load)
    }

    /// Keeps the tried weights.
    pub(crate) fn keep(&mut self) {
        for row in &mut self.rows {
            row.weight = row.trial;
        }
    }

    /// A step from weights of this value. Answers the value of the weights that are kept.
    fn step(&mut self, pool: &RowPool, best: i128, pace: i128, steps: i64) -> i128 {
        let stride = stride_of(self.rows.as_slice(), best, pace);
        self.advance(stride);
        let value = self.value(pool);
        self.find(pool);
        self.average(share_after(steps));
        if value <= best {
            return best;
        }
        self.keep();
        value
    }

    /// So many steps of one pace, after some others. Answers the value of the weights that are kept.
    fn round(&mut self, pool: &RowPool, best: i128, pace: i128, done: i64, turns: u32) -> i128 {
        let mut value = best;
        let mut steps = done;
        for _ in 0..turns {
            steps = steps.saturating_add(1);
            value = self.step(pool, value, pace, steps);
        }
        value
    }

    /// Raises the weights by 64 rounds of so many steps. Answers their value, over 2^20 of a cost unit.
    pub(crate) fn raise(&mut self, pool: &RowPool, turns: u32) -> i128 {
        let mut value = self.value(pool);
        self.find(pool);
        self.average(65_536);
        let mut pace: i128 = 65_536;
        let mut done: i64 = 0;
        for _ in 0..ROUNDS {
            value = self.round(pool, value, pace, done, turns);
            done = done.saturating_add(i64::from(turns));
            pace = pace.wrapping_mul(7).wrapping_div(8);
        }
        value
    }
}
