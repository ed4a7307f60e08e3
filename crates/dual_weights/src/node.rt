//! The arcs that a node leaves, point by point, with what they cost.

ghost use Rattle.std.specs.Prelude.{◌<◌, length};

use candidate_cables::Arcs;
use node_works::{Decisions, Mark};
use site_model::{CableType, Kind, Site};
use std::alloc::{AllocError, Global};

/// A cable type: its capacity in power units, and its cost in cost units a metre at that load.
#[derive(Clone, Copy)]
pub(crate) struct Grade {
    pub(crate) capacity: i64,
    pub(crate) rate: u64,
}

/// An arc that may be used: its number, its end, what a use of it costs, and what the dual weights of the rows on more than one of its ends count it as,
/// over 2^20 of a cost unit.
#[derive(Clone, Copy)]
pub(crate) struct Link {
    pub(crate) arc: u32,
    pub(crate) to: u8,
    pub(crate) is_used: bool,
    pub(crate) metres: u64,
    pub(crate) charge: u64,
    pub(crate) least_cost: u64,
    pub(crate) extra: i128,
}

/// A point and the places of the links out of it, from `first` up to `past`. A turbine has one cable out of it: where one of its arcs is marked used, its
/// free arcs stand behind the used ones, up to `rest`, and no step looks at them. `least` is the least load out of the point, and `low` is the least slack
/// of a turbine's links.
#[derive(Clone, Copy)]
pub(crate) struct Spot {
    pub(crate) at: u8,
    pub(crate) is_turbine: bool,
    pub(crate) is_fixed: bool,
    pub(crate) least: i64,
    pub(crate) first: usize,
    pub(crate) past: usize,
    pub(crate) rest: usize,
    pub(crate) low: i128,
}

/// The arcs that a node leaves, in order of start.
#[derive(Drop)]
pub(crate) struct Node {
    pub(crate) grades: Vec<Grade>,
    pub(crate) spots: Vec<Spot>,
    pub(crate) links: Vec<Link>,
}

/// The number of a point in a byte; a site has at most 256 points.
pub(crate) fn point_number(p: u32) -> u8 {
    (p % 256) as u8
}

/// What a metre of a type costs at a load, without the charge.
fn rate_of(cable_type: &CableType, load: u32) -> u64 {
    let load = u64::from(load);
    let loss = u64::from(cable_type.loss).wrapping_mul(load.wrapping_mul(load));
    u64::from(cable_type.price).wrapping_add(loss)
}

/// The least rate at a load of the types that bear it.
fn least_rate(types: &[CableType], load: u32) -> u64 {
    let mut least = u64::MAX;
    for cable_type in types {
        if load <= cable_type.capacity {
            least = least.min(rate_of(cable_type, load));
        }
    }
    least
}

/// The types of a site as grades.
fn grades_of(alloc: Global, types: &[CableType]) -> Result<Vec<Grade>, AllocError> {
    let mut grades = Vec::with_capacity(alloc, types.len())?;
    for cable_type in types {
        grades.push(Grade {
            capacity: i64::from(cable_type.capacity),
            rate: rate_of(cable_type, cable_type.capacity),
        })?;
    }
    Ok(grades)
}

/// Whether an arc with a mark can be a cable, where one out of its start is marked used or not.
fn is_left(mark: Option<&Mark>, is_fixed: bool) -> bool {
    match mark {
        Some(Mark::Used) => true,
        Some(Mark::Free) => !is_fixed,
        _ => false,
    }
}

/// Whether an arc with a mark is free beside one out of its start that is marked used.
fn is_idle(mark: Option<&Mark>, is_fixed: bool) -> bool {
    is_fixed && matches!(mark, Some(Mark::Free))
}

/// Whether a mark is that of a used arc.
fn is_used(mark: Option<&Mark>) -> bool {
    matches!(mark, Some(Mark::Used))
}

/// Whether one of some arcs is marked used.
fn has_used(marks: &[Mark], first: u32, past: u32) -> bool {
    for arc in first..past {
        if is_used(marks.get(arc as usize)) {
            return true;
        }
    }
    false
}

/// Adds a link for each arc from `first` up to `past` that is left.
fn add_links(
    links: &mut Vec<Link>,
    arcs: &Arcs,
    marks: &[Mark],
    spot: &Spot,
    first: u32,
    past: u32,
    rate: u64,
) -> Result<(), AllocError> {
    for arc in first..past {
        let mark = marks.get(arc as usize);
        if is_left(mark, spot.is_fixed) {
            links.push(link_of(arcs, arc, is_used(mark), rate))?;
        }
    }
    Ok(())
}

/// Adds a link for each arc from `first` up to `past` that is free beside a used one.
fn add_idle_links(
    links: &mut Vec<Link>,
    arcs: &Arcs,
    marks: &[Mark],
    spot: &Spot,
    first: u32,
    past: u32,
    rate: u64,
) -> Result<(), AllocError> {
    for arc in first..past {
        if is_idle(marks.get(arc as usize), spot.is_fixed) {
            links.push(link_of(arcs, arc, false, rate))?;
        }
    }
    Ok(())
}

/// The link of an arc.
fn link_of(arcs: &Arcs, number: u32, is_used: bool, rate: u64) -> Link {
    let Some(arc) = arcs.as_slice().get(number as usize) else {
        return Link {
            arc: number,
            to: 0,
            is_used,
            metres: 0,
            charge: 0,
            least_cost: 0,
            extra: 0,
        };
    };
    let metres = u64::from(arc.length);
    Link {
        arc: number,
        to: point_number(arc.to),
        is_used,
        metres,
        charge: arc.charge,
        least_cost: metres.wrapping_mul(rate).wrapping_add(arc.charge),
        extra: 0,
    }
}

/// A point without its links.
fn spot_of(p: u32, kind: Kind, is_marked: bool, first: usize) -> Spot {
    let is_turbine = kind.is_turbine();
    Spot {
        at: point_number(p),
        is_turbine,
        is_fixed: is_turbine && is_marked,
        least: i64::from(kind.least_load()),
        first,
        past: first,
        rest: first,
        low: 0,
    }
}

impl Node {
    /// What the decisions leave of the arcs of a site.
    ///
    /// # Errors
    ///
    /// `AllocError` where there is no memory.
    pub(crate) fn new(
        alloc: Global,
        site: &Site,
        arcs: &Arcs,
        decisions: &Decisions,
    ) -> Result<Node, AllocError> {
        let mut node = Node {
            grades: grades_of(alloc, site.types())?,
            spots: Vec::new(alloc),
            links: Vec::with_capacity(alloc, arcs.len() as usize)?,
        };
        for p in 0..site.points().len() as u32 {
            node.add_spot(site, arcs, decisions, p)?;
        }
        Ok(node)
    }

    /// Adds a point with its links.
    fn add_spot(
        &mut self,
        site: &Site,
        arcs: &Arcs,
        decisions: &Decisions,
        p: u32,
    ) -> Result<(), AllocError>
        requires { p < length site.now.points }
    {
        let marks = decisions.as_slice();
        let (first, past) = arcs.out_of(p);
        let kind = site.points()[p as usize].kind;
        let mut spot = spot_of(p, kind, has_used(marks, first, past), self.links.len());
        let rate = least_rate(site.types(), kind.least_load());
        add_links(&mut self.links, arcs, marks, &spot, first, past, rate)?;
        spot.past = self.links.len();
        add_idle_links(&mut self.links, arcs, marks, &spot, first, past, rate)?;
        spot.rest = self.links.len();
        self.spots.push(spot)?;
        Ok(())
    }

    /// Whether each turbine has an arc out of it that may be used.
    pub(crate) fn is_open(&self) -> bool {
        for spot in &self.spots {
            if spot.is_turbine && spot.first == spot.past {
                return false;
            }
        }
        true
    }
}

/// The links out of a point.
pub(crate) fn links_of<'a>(links: &'a [Link], spot: &Spot) -> &'a [Link] {
    let past = spot.past.min(links.len());
    let first = spot.first.min(past);
    &links[first..past]
}

/// The links of the free arcs out of a turbine with a used one.
pub(crate) fn idle_links_of<'a>(links: &'a [Link], spot: &Spot) -> &'a [Link] {
    let rest = spot.rest.min(links.len());
    let past = spot.past.min(rest);
    &links[past..rest]
}
