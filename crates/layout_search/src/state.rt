//! A state of the search: where the cable out of each point ends, and what is wrong with that.

use crate::farm::{Farm, Role};
use crate::network::Network;
use crate::points::{POINTS, PointSet};
use crate::segments::MOST_SEGMENTS;

/// The most changes of a move: it turns at most 256 cables.
const MOST_CHANGES: usize = 640;

/// The most segments that a move lays or takes away: two a change.
const MOST_TOUCHED: usize = 1280;

/// The cost of a state, and its faults.
#[derive(Clone, Copy)]
pub(crate) struct Sums {
    /// In cost units, each cable with the cheapest type that bears its load.
    pub(crate) cost: i64,
    /// Pairs of cables that clash.
    pub(crate) clashes: i64,
    /// What cables bear too much.
    pub(crate) overload: i64,
    /// Cables that end where there is no room for more.
    pub(crate) excess: i64,
    /// What substations get too much, in power units.
    pub(crate) power: i64,
}

impl Sums {
    /// Whether there is no fault.
    pub(crate) fn is_legal(&self) -> bool {
        if self.clashes != 0 || self.overload != 0 {
            return false;
        }
        self.excess == 0 && self.power == 0
    }
}

/// Where the cable out of a point ended before.
#[derive(Clone, Copy)]
struct Change {
    point: u8,
    end: u8,
}

/// A segment on which a move laid a cable, or from which it took one away.
#[derive(Clone, Copy)]
struct Touched {
    segment: usize,
    laid: bool,
}

/// A state. The end of a point from which no cable starts is the point itself.
#[derive(Drop)]
pub(crate) struct State {
    ends: [u8; POINTS],
    loads: [u32; POINTS],
    inlets: [u32; POINTS],
    metres: [i64; POINTS],
    /// How many cables clashed with each segment when the move began.
    struck: [u16; MOST_SEGMENTS],
    touched: [Touched; MOST_TOUCHED],
    touched_count: usize,
    sums: Sums,
    marked: Sums,
    changes: [Change; MOST_CHANGES],
    count: usize,
}

/// The points that cables lead into a point: the first eight of them, and how many there are.
#[derive(Clone, Copy)]
pub(crate) struct Inlets {
    points: [u8; 8],
    count: usize,
}

impl Inlets {
    /// No point.
    pub(crate) fn new() -> Inlets {
        Inlets {
            points: [0; 8],
            count: 0,
        }
    }

    /// Adds a point.
    pub(crate) fn push(&mut self, p: u8) {
        if self.count < 8 {
            self.points[self.count] = p;
        }
        self.count = self.count.saturating_add(1);
    }

    /// How many there are.
    pub(crate) fn len(&self) -> usize {
        self.count
    }

    /// The first eight.
    pub(crate) fn as_slice(&self) -> &[u8] {
        &self.points[..self.count.min(8)]
    }
}

/// The points by their numbers: each one's cable ends in itself.
fn own_numbers() -> [u8; POINTS] {
    let mut ends = [0; POINTS];
    for p in 0..=u8::MAX {
        ends[p as usize] = p;
    }
    ends
}

impl State {
    /// A state without cables.
    pub(crate) fn new(farm: &Farm) -> State {
        let none = Sums {
            cost: 0,
            clashes: 0,
            overload: 0,
            excess: 0,
            power: 0,
        };
        State {
            ends: own_numbers(),
            loads: farm.powers(),
            inlets: [0; POINTS],
            metres: [0; POINTS],
            struck: [0; MOST_SEGMENTS],
            touched: [Touched {
                segment: 0,
                laid: false,
            }; MOST_TOUCHED],
            touched_count: 0,
            sums: none,
            marked: none,
            changes: [Change { point: 0, end: 0 }; MOST_CHANGES],
            count: 0,
        }
    }

    /// The cost and the faults.
    pub(crate) fn sums(&self) -> &Sums {
        &self.sums
    }

    /// Where the cable out of each point ends.
    pub(crate) fn ends(&self) -> &[u8; POINTS] {
        &self.ends
    }

    /// The load of the cable out of each point, in power units.
    pub(crate) fn loads(&self) -> &[u32; POINTS] {
        &self.loads
    }

    /// Where the cable out of a point ends: in the point itself where there is none.
    pub(crate) fn end(&self, p: u8) -> u8 {
        self.ends[p as usize]
    }

    /// Whether a cable starts in a point.
    pub(crate) fn starts(&self, p: u8) -> bool {
        self.ends[p as usize] != p
    }

    /// The points that cables lead into a point.
    pub(crate) fn inlets(&self, network: &Network, p: u8) -> Inlets {
        let mut inlets = Inlets::new();
        for from in network.joined(p) {
            if self.ends[*from as usize] == p {
                inlets.push(*from);
            }
        }
        inlets
    }

    /// Whether the walk of a point passes another.
    pub(crate) fn passes(&self, from: u8, p: u8) -> bool {
        let mut at = from;
        for step in 0..POINTS {
            if at == p {
                return true;
            }
            let next = self.ends[at as usize];
            if next == at {
                return false;
            }
            at = next;
        }
        false
    }

    /// The points that the walk of a point passes.
    pub(crate) fn walk(&self, from: u8) -> PointSet {
        let mut passed = PointSet::new();
        let mut at = from;
        for step in 0..POINTS {
            passed.insert(at);
            let next = self.ends[at as usize];
            if next == at {
                return passed;
            }
            at = next;
        }
        passed
    }

    /// Adds to the load of the cable out of a point, with what it costs and bears too much.
    fn carry(&mut self, farm: &Farm, p: u8, weight: u32) {
        let p = p as usize;
        let before = self.loads[p];
        let after = before.wrapping_add(weight);
        self.loads[p] = after;
        let rise = farm.price(after).wrapping_sub(farm.price(before));
        let excess = farm.overload(after).wrapping_sub(farm.overload(before));
        self.sums.cost = self
            .sums
            .cost
            .wrapping_add(self.metres[p].wrapping_mul(rise));
        self.sums.overload = self.sums.overload.wrapping_add(excess);
    }

    /// Adds to what comes into the last point of a walk.
    fn arrive(&mut self, farm: &Farm, p: u8, weight: u32) {
        let room = farm.room(p);
        let p = p as usize;
        let before = self.loads[p];
        let after = before.wrapping_add(weight);
        self.loads[p] = after;
        let over = after.saturating_sub(room) as i64;
        let less = before.saturating_sub(room) as i64;
        self.sums.power = self.sums.power.wrapping_add(over).wrapping_sub(less);
    }

    /// Adds to the loads on the walk of a point.
    fn shift(&mut self, farm: &Farm, from: u8, weight: u32) {
        let mut at = from;
        for step in 0..POINTS {
            let next = self.ends[at as usize];
            if next == at {
                self.arrive(farm, at, weight);
                return;
            }
            self.carry(farm, at, weight);
            at = next;
        }
    }

    /// Adds to the loads on the walk of a point, and leaves the sums.
    fn shift_loads(&mut self, from: u8, weight: u32) {
        let mut at = from;
        for step in 0..POINTS {
            let load = self.loads[at as usize];
            self.loads[at as usize] = load.wrapping_add(weight);
            let next = self.ends[at as usize];
            if next == at {
                return;
            }
            at = next;
        }
    }

    /// Notes that a cable was laid on a segment, or taken away from it.
    fn touch(&mut self, segment: usize, laid: bool) {
        if self.touched_count < MOST_TOUCHED {
            self.touched[self.touched_count] = Touched { segment, laid };
            self.touched_count += 1;
        }
    }

    /// How many cables clash with a segment: those that did when the move began, and what it changed since. The tests take the row of the touched
    /// segment, which is most often at hand since a cable lay there.
    fn clashes_with(&self, network: &Network, segment: usize) -> i64 {
        let mut count = match self.struck.as_slice().get(segment) {
            None => 0,
            Some(count) => *count as i64,
        };
        for place in 0..self.touched_count.min(MOST_TOUCHED) {
            let touched = self.touched[place];
            if network.segments.do_clash(touched.segment, segment) {
                count = count.wrapping_add(if touched.laid { 1 } else { -1 });
            }
        }
        count
    }

    /// How many cables clash with the one on a segment: none where there is no clash at all.
    fn clashes_of(&self, network: &Network, segment: usize) -> i64 {
        if self.sums.clashes == 0 {
            0
        } else {
            self.clashes_with(network, segment)
        }
    }

    /// Counts for 64 segments, of which bits say which, one cable more or less that clashes with them.
    fn strike_word(&mut self, first: usize, word: u64, laid: bool) {
        let mut left = word;
        for step in 0..64 {
            if left == 0 {
                return;
            }
            let segment = first.wrapping_add(left.trailing_zeros() as usize);
            if segment < MOST_SEGMENTS {
                let count = self.struck[segment];
                self.struck[segment] = if laid {
                    count.wrapping_add(1)
                } else {
                    count.wrapping_sub(1)
                };
            }
            left &= left.wrapping_sub(1);
        }
    }

    /// Counts for the segments that clash with one that a cable was laid on it, or taken away.
    fn strike(&mut self, network: &Network, touched: Touched) {
        let mut first = 0usize;
        for word in network.segments.clashes_of(touched.segment) {
            self.strike_word(first, *word, touched.laid);
            first = first.wrapping_add(64);
        }
    }

    /// Counts a cable that starts in a point to an end, which is laid or taken away, with so many clashes.
    fn count_cable(&self, network: &Network, p: u8, segment: usize, clashes: i64) -> Sums {
        let load = self.loads[p as usize];
        let (metres, charge) = match network.segments.get(segment) {
            None => (0, 0),
            Some(cable) => (cable.metres, cable.charge),
        };
        Sums {
            cost: metres
                .wrapping_mul(network.farm.price(load))
                .wrapping_add(charge),
            clashes,
            overload: network.farm.overload(load),
            excess: 0,
            power: 0,
        }
    }

    /// Takes away the cable out of a point.
    fn take_away(&mut self, network: &Network, p: u8) {
        let end = self.ends[p as usize];
        if end == p {
            return;
        }
        let segment = network.segments.number(p, end);
        let clashes = self.clashes_of(network, segment);
        self.touch(segment, false);
        let cable = self.count_cable(network, p, segment, clashes);
        self.sums.cost = self.sums.cost.wrapping_sub(cable.cost);
        self.sums.clashes = self.sums.clashes.wrapping_sub(cable.clashes);
        self.sums.overload = self.sums.overload.wrapping_sub(cable.overload);
        let inlets = self.inlets[end as usize];
        if inlets > network.farm.most_inlets(end) {
            self.sums.excess = self.sums.excess.wrapping_sub(1);
        }
        self.inlets[end as usize] = inlets.wrapping_sub(1);
        self.ends[p as usize] = p;
        let load = self.loads[p as usize];
        self.shift(&network.farm, end, 0u32.wrapping_sub(load));
    }

    /// Lays a cable from a point in which none starts, where a segment leads to its end.
    fn lay(&mut self, network: &Network, p: u8, q: u8) {
        let segment = network.segments.number(p, q);
        let Some(pair) = network.segments.get(segment) else {
            return;
        };
        let clashes = self.clashes_with(network, segment);
        self.touch(segment, true);
        let cable = self.count_cable(network, p, segment, clashes);
        self.metres[p as usize] = pair.metres;
        self.sums.cost = self.sums.cost.wrapping_add(cable.cost);
        self.sums.clashes = self.sums.clashes.wrapping_add(cable.clashes);
        self.sums.overload = self.sums.overload.wrapping_add(cable.overload);
        let inlets = self.inlets[q as usize].wrapping_add(1);
        if inlets > network.farm.most_inlets(q) {
            self.sums.excess = self.sums.excess.wrapping_add(1);
        }
        self.inlets[q as usize] = inlets;
        let load = self.loads[p as usize];
        self.shift(&network.farm, q, load);
        self.ends[p as usize] = q;
    }

    /// Ends the cable out of a point in another one; in the point itself: takes it away. It isn't noted.
    pub(crate) fn set_end(&mut self, network: &Network, p: u8, q: u8) {
        self.take_away(network, p);
        if q != p {
            self.lay(network, p, q);
        }
    }

    /// Ends the cable out of a point in another one, or takes it away, and notes where it ended before.
    pub(crate) fn change(&mut self, network: &Network, p: u8, q: u8) {
        if self.count < MOST_CHANGES {
            let end = self.ends[p as usize];
            self.changes[self.count] = Change { point: p, end };
            self.count += 1;
            self.set_end(network, p, q);
        }
    }

    /// Takes away the cables out of a bend that none leads into, and out of those behind it.
    pub(crate) fn release(&mut self, network: &Network, from: u8) {
        let mut at = from;
        for step in 0..POINTS {
            if network.farm.role(at) != Role::Bend || self.inlets[at as usize] != 0 {
                return;
            }
            let next = self.ends[at as usize];
            if next == at {
                return;
            }
            self.change(network, at, at);
            at = next;
        }
    }

    /// Begins a move: what follows can be undone, and what was done stays.
    pub(crate) fn mark(&mut self, network: &Network) {
        for place in 0..self.touched_count.min(MOST_TOUCHED) {
            let touched = self.touched[place];
            self.strike(network, touched);
        }
        self.touched_count = 0;
        self.count = 0;
        let sums = self.sums;
        self.marked = sums;
    }

    /// Whether something was changed since the move began.
    pub(crate) fn is_changed(&self) -> bool {
        self.count != 0
    }

    /// Puts back what was changed since the move began.
    pub(crate) fn undo(&mut self, network: &Network) {
        for step in 0..MOST_CHANGES {
            if self.count == 0 {
                break;
            }
            self.count -= 1;
            if self.count < MOST_CHANGES {
                let change = self.changes[self.count];
                self.put_back(network, change);
            }
        }
        self.touched_count = 0;
        let sums = self.marked;
        self.sums = sums;
    }

    /// Ends the cable out of a point where it ended before, and leaves the sums.
    fn put_back(&mut self, network: &Network, change: Change) {
        let p = change.point;
        let load = self.loads[p as usize];
        let end = self.ends[p as usize];
        if end != p {
            self.inlets[end as usize] = self.inlets[end as usize].wrapping_sub(1);
            self.ends[p as usize] = p;
            self.shift_loads(end, 0u32.wrapping_sub(load));
        }
        if change.end != p {
            self.lay_again(network, p, change.end, load);
        }
    }

    /// Lays a cable that was laid before, and leaves the sums.
    fn lay_again(&mut self, network: &Network, p: u8, q: u8, load: u32) {
        let segment = network.segments.number(p, q);
        if let Some(pair) = network.segments.get(segment) {
            self.metres[p as usize] = pair.metres;
            self.inlets[q as usize] = self.inlets[q as usize].wrapping_add(1);
            self.shift_loads(q, load);
            self.ends[p as usize] = q;
        }
    }
}
