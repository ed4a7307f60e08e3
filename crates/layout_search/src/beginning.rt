//! The state that a run begins with: each turbine's shortest way to a substation.

use crate::farm::Role;
use crate::network::Network;
use crate::points::{POINTS, PointSet};
use crate::state::State;

/// Shortest ways from points to substations over segments, as far as they are known (Dijkstra, 1959).
#[derive(Drop)]
struct Ways {
    /// In metres.
    distances: [i64; POINTS],
    /// The next point on the way.
    next: [u8; POINTS],
    settled: PointSet,
}

impl Ways {
    /// The ways of the substations alone.
    fn new(network: &Network) -> Ways {
        let mut distances = [i64::MAX; POINTS];
        for p in 0..=u8::MAX {
            if network.farm.role(p) == Role::Substation {
                distances[p as usize] = 0;
            }
        }
        Ways {
            distances,
            next: [0; POINTS],
            settled: PointSet::new(),
        }
    }

    /// The point of the shortest way that isn't settled.
    fn nearest(&self) -> Option<u8> {
        let mut least = i64::MAX;
        let mut found = None;
        for p in 0..=u8::MAX {
            let distance = self.distances[p as usize];
            if distance < least && !self.settled.contains(p) {
                least = distance;
                found = Some(p);
            }
        }
        found
    }

    /// Settles a point, and shortens the ways of the points that segments join to it.
    fn settle(&mut self, network: &Network, p: u8) {
        self.settled.insert(p);
        let distance = self.distances[p as usize];
        for from in network.joined(p) {
            if network.farm.role(*from) != Role::Substation {
                self.shorten(network, *from, p, distance);
            }
        }
    }

    /// Shortens the way of a point where it is shorter over another one of this distance.
    fn shorten(&mut self, network: &Network, from: u8, over: u8, distance: i64) {
        let segment = network.segments.number(from, over);
        if let Some(pair) = network.segments.get(segment) {
            let length = distance.saturating_add(pair.metres);
            if length < self.distances[from as usize] {
                self.distances[from as usize] = length;
                self.next[from as usize] = over;
            }
        }
    }

    /// The shortest ways of all points.
    fn find(network: &Network) -> Ways {
        let mut ways = Ways::new(network);
        for step in 0..POINTS {
            match ways.nearest() {
                None => return ways,
                Some(p) => ways.settle(network, p),
            }
        }
        ways
    }

    /// Takes the way of a turbine into a state, up to the first point whose cable is laid. False where there is no way.
    fn take(&self, network: &Network, state: &mut State, turbine: u8) -> bool {
        let mut at = turbine;
        for step in 0..POINTS {
            if !self.settled.contains(at) {
                return false;
            }
            if network.farm.role(at) == Role::Substation || state.starts(at) {
                return true;
            }
            let next = self.next[at as usize];
            state.set_end(network, at, next);
            at = next;
        }
        false
    }
}

/// The state of the shortest ways of all turbines, which may break rules. None where some turbine has no way.
pub(crate) fn first_state(network: &Network) -> Option<State> {
    let ways = Ways::find(network);
    let mut state = State::new(&network.farm);
    for turbine in network.farm.turbines() {
        if !ways.take(network, &mut state, *turbine) {
            return None;
        }
    }
    Some(state)
}
