//! The points of a site with the segments between near ones.

use crate::farm::{Farm, Role};
use crate::near::{list_choices, nearest};
use crate::points::{POINTS, PointLists};
use crate::segments::Segments;
use candidate_cables::Arcs;
use site_model::Site;
use std::alloc::{AllocError, Global};

/// How many near turbines a point has.
const NEAR_TURBINES: usize = 12;

/// How many near substations a point has: feeders may be long.
const NEAR_SUBSTATIONS: usize = 4;

/// How many near bends a turbine has.
const NEAR_BENDS: usize = 6;

/// How many near bends a bend has.
const BENDS_OF_BENDS: usize = 4;

/// The points of a site with the segments between near ones.
#[derive(Drop)]
pub(crate) struct Network {
    pub(crate) farm: Farm,
    pub(crate) segments: Segments,
    near: PointLists,
    near_turbines: [u8; POINTS],
    near_bends: PointLists,
    joined: PointLists,
    cost_of_near: i64,
}

impl Network {
    /// Reads a site and its candidate arcs.
    pub(crate) fn new(alloc: Global, site: &Site, arcs: &Arcs) -> Result<Network, AllocError> {
        let farm = Farm::new(alloc, site)?;
        let count = farm.len();
        let segments = Segments::new(alloc, count)?;
        let mut network = Network {
            farm,
            segments,
            near: PointLists::new(alloc),
            near_turbines: [0; POINTS],
            near_bends: PointLists::new(alloc),
            joined: PointLists::new(alloc),
            cost_of_near: 0,
        };
        network.list_all(alloc, arcs, count)?;
        network.segments.list_clashes(alloc, site)?;
        Ok(network)
    }

    /// Lists the near points and the segments of so many points.
    fn list_all(&mut self, alloc: Global, arcs: &Arcs, count: usize) -> Result<(), AllocError> {
        for number in 0..count {
            if let Ok(p) = u8::try_from(number) {
                self.list_near(alloc, arcs, p)?;
                self.list_bends(alloc, arcs, p)?;
            }
        }
        for number in 0..count {
            if let Ok(p) = u8::try_from(number) {
                self.list_joined(p, count)?;
            }
        }
        Ok(())
    }

    /// Lists the turbines and substations near a point; a substation has none.
    fn list_near(&mut self, alloc: Global, arcs: &Arcs, p: u8) -> Result<(), AllocError> {
        let turbines = nearest(alloc, &self.farm, arcs, p, Role::Turbine, NEAR_TURBINES)?;
        if self.farm.role(p) == Role::Turbine {
            if let Some(first) = turbines.get(0) {
                self.cost_of_near = self.cost_of_near.saturating_add(first.cost);
            }
        }
        list_choices(&mut self.near, &mut self.segments, p, turbines.as_slice())?;
        self.near_turbines[p as usize] = u8::try_from(turbines.len()).unwrap_or(0);
        let substations = nearest(
            alloc,
            &self.farm,
            arcs,
            p,
            Role::Substation,
            NEAR_SUBSTATIONS,
        )?;
        list_choices(
            &mut self.near,
            &mut self.segments,
            p,
            substations.as_slice(),
        )?;
        self.near.end_list()
    }

    /// Lists the bends near a point.
    fn list_bends(&mut self, alloc: Global, arcs: &Arcs, p: u8) -> Result<(), AllocError> {
        let most = if self.farm.role(p) == Role::Bend {
            BENDS_OF_BENDS
        } else {
            NEAR_BENDS
        };
        let bends = nearest(alloc, &self.farm, arcs, p, Role::Bend, most)?;
        list_choices(
            &mut self.near_bends,
            &mut self.segments,
            p,
            bends.as_slice(),
        )?;
        self.near_bends.end_list()
    }

    /// Lists the points that segments join to a point.
    fn list_joined(&mut self, p: u8, count: usize) -> Result<(), AllocError> {
        for number in 0..count {
            if let Ok(q) = u8::try_from(number) {
                if self.segments.has(p, q) {
                    self.joined.push(q)?;
                }
            }
        }
        self.joined.end_list()
    }

    /// The turbines and then the substations near a point, the cheapest first.
    pub(crate) fn near(&self, p: u8) -> &[u8] {
        self.near.of(p)
    }

    /// How many of the near points are turbines.
    pub(crate) fn near_turbines(&self, p: u8) -> usize {
        self.near_turbines[p as usize] as usize
    }

    /// The bends near a point, the cheapest first.
    pub(crate) fn near_bends(&self, p: u8) -> &[u8] {
        self.near_bends.of(p)
    }

    /// The points that segments join to a point.
    pub(crate) fn joined(&self, p: u8) -> &[u8] {
        self.joined.of(p)
    }

    /// What a cable to the nearest turbine costs at the largest capacity, in the mean over the turbines and at least 1, in cost units.
    pub(crate) fn mean_cost(&self) -> i64 {
        let count = self.farm.turbines().len().max(1).min(POINTS) as i64;
        (self.cost_of_near / count).max(1)
    }
}
