//! What the search reads of the points and the cable types of a site.

use crate::points::POINTS;
use site_model::{CableType, Kind, Mode, Site};
use std::alloc::{AllocError, Global};

/// What stands at a point.
#[derive(Clone, Copy, PartialEq, Eq)]
pub(crate) enum Role {
    Turbine,
    Substation,
    Bend,
}

/// The points of a site, by their numbers, and what cables cost a metre.
#[derive(Drop)]
pub(crate) struct Farm {
    roles: [Role; POINTS],
    powers: [u32; POINTS],
    most_inlets: [u32; POINTS],
    rooms: [u32; POINTS],
    count: usize,
    strings: bool,
    turbines: Vec<u8>,
    capacity: u32,
    prices: Vec<i64>,
}

/// What a metre of the cheapest type that bears a load costs, in cost units.
fn price_of(types: &[CableType], load: u32) -> i64 {
    let square = (load as i64).wrapping_mul(load as i64);
    let mut least = i64::MAX;
    for cable_type in types {
        if cable_type.capacity >= load {
            let loss = (cable_type.loss as i64).wrapping_mul(square);
            least = least.min((cable_type.price as i64).wrapping_add(loss));
        }
    }
    least
}

/// What a metre costs at each load up to the largest capacity.
fn all_prices(alloc: Global, types: &[CableType], capacity: u32) -> Result<Vec<i64>, AllocError> {
    let mut prices = Vec::new(alloc);
    for load in 0..capacity.saturating_add(1) {
        prices.push(price_of(types, load))?;
    }
    Ok(prices)
}

impl Farm {
    /// Reads a site.
    pub(crate) fn new(alloc: Global, site: &Site) -> Result<Farm, AllocError> {
        let capacity = site.largest_capacity();
        let prices = all_prices(alloc, site.types(), capacity)?;
        let mut farm = Farm {
            roles: [Role::Bend; POINTS],
            powers: [0; POINTS],
            most_inlets: [1; POINTS],
            rooms: [u32::MAX; POINTS],
            count: 0,
            strings: matches!(site.mode(), Mode::Strings),
            turbines: Vec::new(alloc),
            capacity,
            prices,
        };
        for point in site.points() {
            farm.add(point.kind)?;
        }
        Ok(farm)
    }

    /// Adds the next point.
    fn add(&mut self, kind: Kind) -> Result<(), AllocError> {
        let Ok(p) = u8::try_from(self.count) else {
            return Ok(());
        };
        self.count = self.count.wrapping_add(1);
        if kind.is_turbine() {
            self.turbines.push(p)?;
        }
        self.place(p, kind);
        Ok(())
    }

    /// Notes what stands at a point.
    fn place(&mut self, p: u8, kind: Kind) {
        let p = p as usize;
        match kind {
            Kind::Bend => {}
            Kind::Turbine { power } => {
                self.roles[p] = Role::Turbine;
                self.powers[p] = power;
                self.most_inlets[p] = if self.strings { 1 } else { u32::MAX };
            }
            Kind::Substation { feeders, power } => {
                self.roles[p] = Role::Substation;
                self.most_inlets[p] = feeders;
                self.rooms[p] = power;
            }
        }
    }

    /// How many points there are.
    pub(crate) fn len(&self) -> usize {
        self.count
    }

    /// The turbines in their order.
    pub(crate) fn turbines(&self) -> &[u8] {
        self.turbines.as_slice()
    }

    /// Whether cables may join in no turbine.
    pub(crate) fn is_of_strings(&self) -> bool {
        self.strings
    }

    /// What stands at a point.
    pub(crate) fn role(&self, p: u8) -> Role {
        self.roles[p as usize]
    }

    /// What each point feeds in, in power units.
    pub(crate) fn powers(&self) -> [u32; POINTS] {
        self.powers
    }

    /// How many cables may end in a point.
    pub(crate) fn most_inlets(&self, p: u8) -> u32 {
        self.most_inlets[p as usize]
    }

    /// What power may come into a point, in power units.
    pub(crate) fn room(&self, p: u8) -> u32 {
        self.rooms[p as usize]
    }

    /// The largest capacity of a cable type, in power units.
    pub(crate) fn capacity(&self) -> u32 {
        self.capacity
    }

    /// What a metre costs at the largest capacity, in cost units.
    pub(crate) fn full_price(&self) -> i64 {
        match self.prices.get(self.capacity as usize) {
            Some(price) => *price,
            None => 0,
        }
    }

    /// What a metre costs at a load, in cost units; at one that no type bears as much as at the largest capacity.
    pub(crate) fn price(&self, load: u32) -> i64 {
        match self.prices.get(load as usize) {
            Some(price) => *price,
            None => self.full_price(),
        }
    }

    /// What a load counts as overload: 0 where a type bears it, else what it has above the largest capacity and a tenth of that, so that one
    /// unit too much isn't cheap.
    pub(crate) fn overload(&self, load: u32) -> i64 {
        if load <= self.capacity {
            return 0;
        }
        let excess = load.wrapping_sub(self.capacity);
        (excess as i64).wrapping_add((self.capacity / 10) as i64)
    }
}
