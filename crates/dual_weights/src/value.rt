//! The value of dual weights, and a point at which it is reached.

ghost use Rattle.std.specs.Prelude.{◌<◌};

use crate::node::{Grade, Link, Node, Spot, idle_links_of, links_of};
use crate::rows::DualRow;
use cable_definitions::row::RowKind;
use cable_rows::RowPool;
use std::alloc::{AllocError, Global};

/// The dual weights by the points at which they count: of each unit of load out of and into a point, and of each cable out of and into it.
#[derive(Drop)]
pub(crate) struct PointWeights {
    load_out: [i128; 256],
    load_in: [i128; 256],
    use_out: [i128; 256],
    use_in: [i128; 256],
}

/// A cable of the point at which the value is reached: the place of its link, its ends, and its load in power units.
#[derive(Clone, Copy)]
pub(crate) struct Pick {
    pub(crate) place: usize,
    pub(crate) from: u8,
    pub(crate) to: u8,
    pub(crate) load: i64,
}

/// What a use of an arc leaves of its cost, over 2^20 of a cost unit, and the load at which it leaves the least.
#[derive(Clone, Copy)]
struct Left {
    slack: i128,
    load: i64,
}

/// For each point the numbers of the sets that contain it, a bit for each.
#[derive(Drop)]
pub(crate) struct SetBits {
    bits: [[u64; 4]; 256],
}

impl SetBits {
    /// The bits of the sets of these rows.
    pub(crate) fn new(rows: &[DualRow], pool: &RowPool) -> SetBits {
        let mut sets = SetBits {
            bits: [[0; 4]; 256],
        };
        for row in rows {
            if let RowKind::Cut = row.kind {
                sets.enter(members_of(pool, row.row), row.place);
            }
        }
        sets
    }

    /// Enters the members of a set of this number.
    fn enter(&mut self, members: &[u32], set: u8) {
        let word = set as usize / 64;
        let bit = 1u64 << (set % 64);
        for member in members {
            let p = (*member % 256) as usize;
            self.bits[p][word] |= bit;
        }
    }

    /// Whether a point is in a set.
    pub(crate) fn has(&self, point: u8, set: u8) -> bool {
        let word = self.bits[point as usize][set as usize / 64];
        (word >> (set % 64)) & 1 == 1
    }

    /// The sets of a word of 64 that contain the first point and not the second.
    pub(crate) fn left_by(&self, from: u8, to: u8, word: usize) -> u64
        requires { word < 4 }
    {
        self.bits[from as usize][word] & !self.bits[to as usize][word]
    }
}

/// The members of a row; none where it isn't listed.
pub(crate) fn members_of(pool: &RowPool, row: u32) -> &[u32] {
    if row < pool.len() {
        pool.members(row)
    } else {
        &[]
    }
}

/// No weights.
pub(crate) fn no_weights() -> PointWeights {
    PointWeights {
        load_out: [0; 256],
        load_in: [0; 256],
        use_out: [0; 256],
        use_in: [0; 256],
    }
}

impl PointWeights {
    /// Forgets the weights at these points.
    fn clear(&mut self, spots: &[Spot]) {
        for spot in spots {
            let p = spot.at as usize;
            self.load_out[p] = 0;
            self.load_in[p] = 0;
            self.use_out[p] = 0;
            self.use_in[p] = 0;
        }
    }

    /// Adds the weight of a row of a kind on a point.
    fn add(&mut self, kind: RowKind, point: u8, weight: i128) {
        let p = point as usize;
        match kind {
            RowKind::Flow => {
                self.load_out[p] = self.load_out[p].wrapping_add(weight);
                self.load_in[p] = self.load_in[p].wrapping_add(weight);
            }
            RowKind::Power => self.load_in[p] = self.load_in[p].wrapping_add(weight),
            RowKind::Inlet => self.use_in[p] = self.use_in[p].wrapping_add(weight),
            RowKind::Bend => {
                self.use_out[p] = self.use_out[p].wrapping_add(weight);
                self.use_in[p] = self.use_in[p].wrapping_add(weight);
            }
            RowKind::Out | RowKind::One | RowKind::Cut => {}
        }
    }

    /// Replaces the weights by the tried ones of these rows, and answers the weighted sum of the right sides.
    fn fill(&mut self, rows: &[DualRow]) -> i128 {
        let mut total: i128 = 0;
        for row in rows {
            total = total.wrapping_add(row.trial.wrapping_mul(i128::from(row.right)));
            self.add(row.kind, row.place, row.trial);
        }
        total
    }

    /// What a use of a link out of a spot leaves of its cost.
    fn left_of(&self, grades: &[Grade], spot: &Spot, link: &Link) -> Left {
        let (p, q) = (spot.at as usize, link.to as usize);
        let on_load = self.load_out[p].wrapping_sub(self.load_in[q]);
        let own = self.use_in[q]
            .wrapping_sub(self.use_out[p])
            .wrapping_sub(link.extra);
        let Left { slack, load } = least_use(grades, link, spot.least, on_load);
        Left {
            slack: slack.wrapping_add(own),
            load,
        }
    }
}

impl PointWeights {
    /// What a use of a link out of a spot leaves of this cost in cost units at this load.
    pub(crate) fn reduced_at(&self, spot: &Spot, link: &Link, cost: u64, load: i64) -> i128 {
        let (p, q) = (spot.at as usize, link.to as usize);
        let on_load = self.load_out[p].wrapping_sub(self.load_in[q]);
        let own = self.use_in[q]
            .wrapping_sub(self.use_out[p])
            .wrapping_sub(link.extra);
        left_at(cost, on_load, load).wrapping_add(own)
    }
}

/// What a use leaves of this cost in cost units where each unit of its load counts as `on_load`.
fn left_at(cost: u64, on_load: i128, load: i64) -> i128 {
    (i128::from(cost) << 20).wrapping_sub(on_load.wrapping_mul(i128::from(load)))
}

/// The least that a use of a link leaves of its cost, where each unit of its load counts as `on_load`.
fn least_use(grades: &[Grade], link: &Link, least: i64, on_load: i128) -> Left {
    if on_load <= 0 {
        return Left {
            slack: left_at(link.least_cost, on_load, least),
            load: least,
        };
    }
    let mut best = Left {
        slack: i128::MAX,
        load: least,
    };
    for grade in grades {
        let cost = link
            .metres
            .wrapping_mul(grade.rate)
            .wrapping_add(link.charge);
        let slack = left_at(cost, on_load, grade.capacity);
        if grade.capacity >= least && slack < best.slack {
            best = Left {
                slack,
                load: grade.capacity,
            };
        }
    }
    best
}

/// Adds what the weight of a row on a set counts the links out of its members as: a cut counts those that leave it.
fn add_cut(node: &mut Node, sets: &SetBits, members: &[u32], row: &DualRow) {
    for member in members {
        let Some(spot) = node.spots.get(*member as usize) else {
            continue;
        };
        add_leaving(node.links.as_mut_slice(), sets, spot, row);
    }
}

/// Adds the weight of a cut to the links out of a point that leave it.
fn add_leaving(links: &mut [Link], sets: &SetBits, spot: &Spot, row: &DualRow) {
    let rest = spot.rest.min(links.len());
    let first = spot.first.min(rest);
    for link in &mut links[first..rest] {
        if !sets.has(link.to, row.place) {
            link.extra = link.extra.wrapping_add(row.trial);
        }
    }
}

/// Takes the weight of a row on arcs from the links of its members.
fn take_one(links: &mut [Link], link_places: &[u32], members: &[u32], weight: i128) {
    for member in members {
        let Some(place) = link_places.get(*member as usize) else {
            continue;
        };
        if let Some(link) = links.get_mut(*place as usize) {
            link.extra = link.extra.wrapping_sub(weight);
        }
    }
}

/// For each arc the place of its link, or a place past all links.
///
/// # Errors
///
/// `AllocError` where there is no memory.
pub(crate) fn places_of(alloc: Global, links: &[Link], arcs: u32) -> Result<Vec<u32>, AllocError> {
    let mut places = vec![in alloc; u32::MAX; arcs as usize]?;
    for (place, link) in links.iter().enumerate() {
        if let (Some(own), Ok(place)) = (places.get_mut(link.arc as usize), u32::try_from(place)) {
            *own = place;
        }
    }
    Ok(places)
}

/// Counts what the rows on sets count each link as anew.
pub(crate) fn fill_extras(
    node: &mut Node,
    sets: &SetBits,
    link_places: &[u32],
    pool: &RowPool,
    rows: &[DualRow],
) {
    for link in &mut node.links {
        link.extra = 0;
    }
    for row in rows {
        if row.trial != 0 {
            let members = members_of(pool, row.row);
            match row.kind {
                RowKind::Cut => add_cut(node, sets, members, row),
                RowKind::One => {
                    take_one(node.links.as_mut_slice(), link_places, members, row.trial)
                }
                _ => {}
            }
        }
    }
}

/// Notes a cable. There is room for each link.
fn note(picks: &mut Vec<Pick>, pick: Pick) {
    let _ = picks.push(pick);
}

/// Picks the link of least slack out of a turbine, and answers its slack.
fn pick_least(
    spot: &mut Spot,
    links: &[Link],
    grades: &[Grade],
    weights: &PointWeights,
    picks: &mut Vec<Pick>,
) -> i128 {
    let mut low = i128::MAX;
    let mut pick = Pick {
        place: spot.first,
        from: spot.at,
        to: spot.at,
        load: spot.least,
    };
    for (offset, link) in links_of(links, spot).iter().enumerate() {
        let Left { slack, load } = weights.left_of(grades, spot, link);
        if slack < low {
            low = slack;
            pick.place = spot.first.wrapping_add(offset);
            pick.to = link.to;
            pick.load = load;
        }
    }
    spot.low = low;
    if low == i128::MAX {
        return 0;
    }
    note(picks, pick);
    low
}

/// Picks each link out of a point that is marked used or has a slack below 0, and answers the sum of their slacks.
fn pick_all(
    spot: &Spot,
    links: &[Link],
    grades: &[Grade],
    weights: &PointWeights,
    picks: &mut Vec<Pick>,
) -> i128 {
    let mut sum: i128 = 0;
    for (offset, link) in links_of(links, spot).iter().enumerate() {
        let Left { slack, load } = weights.left_of(grades, spot, link);
        if link.is_used || slack < 0 {
            sum = sum.wrapping_add(slack);
            note(
                picks,
                Pick {
                    place: spot.first.wrapping_add(offset),
                    from: spot.at,
                    to: link.to,
                    load,
                },
            );
        }
    }
    sum
}

/// The least slack of the free links out of a turbine under the weights that were valued last, over 2^20 of a cost unit: of a turbine with a used link those
/// beside it. `i128::MAX` where there is none.
pub(crate) fn least_free(node: &Node, weights: &PointWeights, spot: &Spot) -> i128 {
    if !spot.is_fixed {
        return spot.low;
    }
    let mut low = i128::MAX;
    for link in idle_links_of(node.links.as_slice(), spot) {
        low = low.min(weights.left_of(node.grades.as_slice(), spot, link).slack);
    }
    low
}

/// The value of the tried weights of these rows, over 2^20 of a cost unit, where each row on the cables out of a turbine has its best weight. The picks
/// become a point at which it is reached.
pub(crate) fn value_of(
    node: &mut Node,
    rows: &[DualRow],
    weights: &mut PointWeights,
    picks: &mut Vec<Pick>,
) -> i128 {
    weights.clear(node.spots.as_slice());
    let mut total = weights.fill(rows);
    picks.clear();
    let links = node.links.as_slice();
    let grades = node.grades.as_slice();
    for spot in &mut node.spots {
        let part = if spot.is_turbine && !spot.is_fixed {
            pick_least(spot, links, grades, weights, picks)
        } else {
            pick_all(spot, links, grades, weights, picks)
        };
        total = total.wrapping_add(part);
    }
    total
}
