//! The moves of the search. Each is drawn, and changes where few or many cables end; what it may break is counted by the state.

use crate::farm::Role;
use crate::generator::Generator;
use crate::network::Network;
use crate::points::{POINTS, PointSet, Trail};
use crate::state::{Inlets, State};

/// Of how many moves the following are meant.
const MOVES: usize = 250;

/// How many moves are exchanges.
const EXCHANGES: usize = 140;

/// How many moves are exchanges or swaps.
const SWAPS: usize = 190;

/// How many moves are exchanges, swaps or relocations.
const RELOCATIONS: usize = 240;

/// A state with what moves are drawn from.
#[derive(Drop)]
pub(crate) struct Mover<'a> {
    pub(crate) network: &'a Network,
    pub(crate) state: State,
    pub(crate) generator: Generator,
    trail: Trail,
}

impl<'a> Mover<'a> {
    /// Moves from a state, drawn from a number on.
    pub(crate) fn new(network: &'a Network, state: State, seed: u64) -> Mover<'a> {
        Mover {
            network,
            state,
            generator: Generator::new(seed),
            trail: Trail::new(),
        }
    }

    /// Makes a move that is drawn. False where nothing was changed.
    pub(crate) fn propose(&mut self) -> bool {
        self.state.mark(self.network);
        let turbines = self.network.farm.turbines();
        let drawn = self.generator.draw(turbines.len());
        let Some(turbine) = turbines.get(drawn).copied() else {
            return false;
        };
        let kind = self.generator.draw(MOVES);
        if kind < EXCHANGES {
            self.exchange(turbine)
        } else if kind < SWAPS {
            self.swap(turbine)
        } else if kind < RELOCATIONS {
            self.relocate(turbine)
        } else {
            self.bend(turbine)
        }
    }

    /// One of some points.
    fn draw_of(&mut self, points: &[u8]) -> Option<u8> {
        let drawn = self.generator.draw(points.len());
        points.get(drawn).copied()
    }

    /// A point near another one, the nearer of two turbines or a substation.
    fn pick(&mut self, p: u8) -> Option<u8> {
        let near = self.network.near(p);
        let turbines = self.network.near_turbines(p);
        let mut drawn = self.generator.draw(near.len());
        if drawn < turbines {
            drawn = drawn.min(self.generator.draw(turbines));
        }
        near.get(drawn).copied()
    }

    /// Whether a segment joins two points.
    fn is_listed(&self, p: u8, q: u8) -> bool {
        self.network.segments.has(p, q)
    }

    /// Whether what stands at a point is a turbine.
    fn is_turbine(&self, p: u8) -> bool {
        self.network.farm.role(p) == Role::Turbine
    }

    /// Ends the cable out of a point elsewhere.
    fn change(&mut self, p: u8, q: u8) {
        self.state.change(self.network, p, q);
    }

    /// Takes back what the move did.
    pub(crate) fn take_back(&mut self) {
        self.state.undo(self.network);
    }

    /// Takes back what the move did, and answers that nothing was changed.
    fn give_up(&mut self) -> bool {
        self.take_back();
        false
    }

    /// Exchanges a cable on the walk of a turbine for one from the turbine to a near point; what is cut off is turned round (Esau and Williams
    /// 1966, where the cable that is given up is the turbine's own).
    fn exchange(&mut self, turbine: u8) -> bool {
        let Some(q) = self.pick(turbine) else {
            return false;
        };
        if q == self.state.end(turbine) {
            return false;
        }
        let walk = self.state.walk(q);
        if walk.contains(turbine) {
            return false;
        }
        self.trail.begin(turbine);
        if self.generator.draw(2) == 0 {
            self.go_on(turbine, &walk);
        }
        let drawn = self.generator.draw(self.trail.len());
        let place = self.no_bend(drawn);
        self.turn(place, q);
        true
    }

    /// Goes on with the trail from a turbine along its walk up to, but without, the first substation or the first point of another walk.
    fn go_on(&mut self, turbine: u8, other: &PointSet) {
        let mut at = turbine;
        for step in 0..POINTS {
            at = self.state.end(at);
            if other.contains(at) || self.network.farm.role(at) == Role::Substation {
                return;
            }
            self.trail.push(at);
        }
    }

    /// The last place of the trail, up to this one, where no bend stands.
    fn no_bend(&self, last: usize) -> usize {
        let mut place = last;
        for step in 0..POINTS {
            if self.network.farm.role(self.trail.point(place)) != Role::Bend {
                return place;
            }
            place = place.saturating_sub(1);
        }
        place
    }

    /// Ends the cable out of the trail's first point elsewhere, and turns the cables on the trail round up to a place, whose cable is given up.
    fn turn(&mut self, place: usize, q: u8) {
        let last = self.state.end(self.trail.point(place));
        let mut to = q;
        for at in 0..place.saturating_add(1) {
            let p = self.trail.point(at);
            self.change(p, to);
            to = p;
        }
        self.state.release(self.network, last);
    }

    /// Lets two near turbines swap the ends of their cables (2-opt*, Potvin and Rousseau 1995).
    fn swap(&mut self, turbine: u8) -> bool {
        let Some(other) = self.pick(turbine) else {
            return false;
        };
        let end = self.state.end(turbine);
        let other_end = self.state.end(other);
        if end == other_end || !self.is_turbine(other) {
            return false;
        }
        if !self.is_listed(turbine, other_end) || !self.is_listed(other, end) {
            return false;
        }
        if self.state.passes(other, turbine) || self.state.passes(turbine, other) {
            return false;
        }
        self.change(turbine, other_end);
        self.change(other, end);
        true
    }

    /// Takes a turbine out of where it stands in its string or tree, and puts it in before or behind a near point, or lets a cable be joined
    /// to it.
    fn relocate(&mut self, turbine: u8) -> bool {
        let Some(q) = self.pick(turbine) else {
            return false;
        };
        let end = self.state.end(turbine);
        let inlets = self.state.inlets(self.network, turbine);
        if inlets.len() > 3 || !self.are_listed(&inlets, end) {
            return false;
        }
        let place = self.generator.draw(3);
        if (place == 0 && inlets.len() == 0) || (place == 2 && !self.is_turbine(q)) {
            return false;
        }
        self.end_all(&inlets, end);
        let made = if place == 2 {
            self.put_before(turbine, q)
        } else {
            self.put_behind(turbine, q, end, place == 1)
        };
        if !made {
            return self.give_up();
        }
        self.state.release(self.network, end);
        self.state.is_changed()
    }

    /// Whether segments join points to one.
    fn are_listed(&self, points: &Inlets, end: u8) -> bool {
        for p in points.as_slice() {
            if !self.is_listed(*p, end) {
                return false;
            }
        }
        true
    }

    /// Ends the cables out of points in one.
    fn end_all(&mut self, points: &Inlets, end: u8) {
        for p in points.as_slice() {
            self.change(*p, end);
        }
    }

    /// Puts a turbine that no cable leads into on the cable out of another one. False where that can't be.
    fn put_before(&mut self, turbine: u8, q: u8) -> bool {
        let end = self.state.end(q);
        if end == turbine || !self.is_listed(turbine, end) {
            return false;
        }
        self.change(turbine, end);
        self.change(q, turbine);
        true
    }

    /// Joins a turbine that no cable leads into to a point, and, where that is wanted and the point is a turbine, ends one of the cables into the
    /// point in the turbine. False where that can't be.
    fn put_behind(&mut self, turbine: u8, q: u8, end: u8, between: bool) -> bool {
        if q != end {
            self.change(turbine, q);
        }
        if !between || !self.is_turbine(q) {
            return true;
        }
        let inlets = self.state.inlets(self.network, q);
        if inlets.len() > 8 {
            return false;
        }
        let joinable = self.joinable(&inlets, turbine);
        let drawn = self.generator.draw(joinable.len());
        match joinable.as_slice().get(drawn).copied() {
            None => !self.network.farm.is_of_strings(),
            Some(from) => {
                self.change(from, turbine);
                true
            }
        }
    }

    /// Those of some points that a segment joins to another one.
    fn joinable(&self, points: &Inlets, to: u8) -> Inlets {
        let mut joinable = Inlets::new();
        for p in points.as_slice() {
            if *p != to && self.is_listed(*p, to) {
                joinable.push(*p);
            }
        }
        joinable
    }

    /// Leads the cable out of a turbine over a near bend, which may be a used one whose cable then ends elsewhere.
    fn bend(&mut self, turbine: u8) -> bool {
        let network = self.network;
        let Some(b) = self.draw_of(network.near_bends(turbine)) else {
            return false;
        };
        let Some(q) = self.pick_behind(turbine, b) else {
            return false;
        };
        if q == turbine || self.state.passes(q, turbine) {
            return false;
        }
        if self.state.starts(b) {
            return self.move_bend(turbine, b, q);
        }
        match self.way_out(b, q) {
            None => self.give_up(),
            Some(to) => self.lead_over(turbine, b, to),
        }
    }

    /// Where a cable over a bend may end: where the turbine's cable ends, or near the turbine, or near the bend.
    fn pick_behind(&mut self, turbine: u8, b: u8) -> Option<u8> {
        let from = match self.generator.draw(3) {
            0 => self.state.end(turbine),
            1 => turbine,
            _ => b,
        };
        if from == turbine || self.network.farm.role(from) == Role::Bend {
            self.pick(from)
        } else {
            Some(from)
        }
    }

    /// Ends the cable out of a used bend elsewhere, where the turbine's cable leads into it.
    fn move_bend(&mut self, turbine: u8, b: u8, q: u8) -> bool {
        let before = self.state.end(b);
        if self.state.end(turbine) != b || before == q || !self.is_listed(b, q) {
            return false;
        }
        if self.state.passes(q, b) {
            return false;
        }
        self.change(b, q);
        self.state.release(self.network, before);
        true
    }

    /// Where the cable out of a bend ends so that it leads to a point: there, or sometimes in a second bend, whose cable ends there. None where
    /// that can't be.
    fn way_out(&mut self, b: u8, q: u8) -> Option<u8> {
        let network = self.network;
        let bends = network.near_bends(b);
        if bends.len() == 0 || self.generator.draw(4) != 0 {
            return Some(q);
        }
        let second = self.draw_of(bends)?;
        if self.state.starts(second) || !self.is_listed(second, q) {
            return None;
        }
        self.change(second, q);
        Some(second)
    }

    /// Leads the cable out of a turbine over an unused bend to a point.
    fn lead_over(&mut self, turbine: u8, b: u8, to: u8) -> bool {
        if !self.is_listed(b, to) {
            return self.give_up();
        }
        let before = self.state.end(turbine);
        self.change(b, to);
        self.change(turbine, b);
        self.state.release(self.network, before);
        true
    }
}
