//! Cables with the loads that they carry.

ghost use Rattle.std.specs.Prelude.{◌≡◌, ◌≤◌, ◌<◌, ℕ, List, slice_index};
ghost use Rattle.layout_meaning.specs.Loads.{AreLoads, IsTally, Marks, AddsAlong};

use crate::ends::end_count;
use crate::outgoing::Outgoing;
use crate::walks::MOST_STEPS;
use cable_definitions::cable::Cable;
use site_model::Site;
use std::marker::Model;

/// The most points of a site.
const POINTS: usize = 256;

/// The cables of a site with the load of the cable out of each point. It is seen as the site and the cables, and takes no memory.
#[derive(Drop)]
pub struct Flows<'a> {
    site: &'a Site,
    outgoing: Outgoing<'a>,
    loads: [u32; 256],
}

impl<'a> Model for Flows<'a> {
    ghost use Rattle.layout_meaning.specs.Partial.{SitePart};
    ghost use Rattle.layout_meaning.specs.Loads.{AreLoads};

    ghost Value = { SitePart };

    ghost view = { λ flows. record { site = flows.site.now; cables = flows.outgoing } };

    ghost invariant = { λ flows. AreLoads flows.site.now flows.outgoing flows.loads };
}

impl<'a> Flows<'a> {
    ghost use Rattle.std.specs.Prelude.{◌≡◌, ℕ, ◌≤◌, ◌<◌, length, slice_index};
    ghost use Rattle.cable_definitions.specs.Site.{IsValid};
    ghost use Rattle.cable_definitions.specs.Walk.{load as load_of, load_into as load_into_of, ends_in};
    ghost use Rattle.layout_meaning.specs.Typed.{JoinPoints};

    /// The cables with their loads: one walk from each turbine tells them.
    pub fn new(site: &'a Site, outgoing: Outgoing<'a>) -> Flows<'a>
        ensures { result ≡ record { site = site.now; cables = outgoing.entry } }
    {
        let loads = all_loads(site, &outgoing);
        Flows {
            site,
            outgoing,
            loads,
        }
    }

    /// The site.
    pub fn site(&self) -> &Site
        ensures value { result.now ≡ self.now.site }
        ensures valid { IsValid self.now.site }
    {
        self.site
    }

    /// The cables, with the first one out of each point at hand.
    pub fn outgoing(&self) -> &Outgoing<'a>
        ensures { result.now ≡ self.now.cables }
    {
        &self.outgoing
    }

    /// The cables in their order.
    pub fn cables(&self) -> &[Cable]
        ensures { result.now ≡ self.now.cables }
    {
        self.outgoing.cables()
    }

    /// The load of the cable out of a point of the site, in power units.
    pub fn load(&self, p: u32) -> u32
        requires { p < length self.now.site.points }
        ensures value { result ≡ load_of self.now.site self.now.cables p }
        ensures small { result ≤ 256000 }
    {
        self.loads[p as usize]
    }

    /// The sum of the loads of the cables that end in a point, in power units. The condition is at most 256 cables between points of the site.
    pub fn load_into(&self, p: u32) -> u32
        requires few { length self.now.cables ≤ 256 }
        requires points { JoinPoints self.now.site self.now.cables }
        ensures { result ≡ load_into_of self.now.site self.now.cables p }
    {
        let cables = self.cables();
        let mut total: u32 = 0;
        for cable in cables {
            if cable.to == p {
                total += self.load(cable.from);
            }
        }
        total
    }

    /// How many cables end in a point.
    pub fn ends(&self, p: u32) -> usize
        ensures { result ≡ ends_in self.now.cables p }
    {
        end_count(&self.outgoing, p)
    }

    /// The loads alone, in power units, by the points' numbers.
    pub fn into_loads(self) -> [u32; 256]
        ensures { (p : ℕ) → p < length self.entry.site.points → slice_index result p ≡ load_of self.entry.site self.entry.cables p }
    {
        self.loads
    }
}

/// Marks a point that a walk stands at, and adds a power to its load where it wasn't marked before.
fn pass_by(loads: &mut [u32; POINTS], met: &mut [bool; POINTS], at: u32, power: u32)
    requires small { (p : ℕ) → p < 256 → slice_index loads.old p ≤ 257000 }
    requires power { power ≤ 1000 }
    ensures tally { (base : List ℕ) → IsTally base power met.old loads.old → IsTally base power met.new loads.new }
    ensures met { Marks at met.old met.new }
{
    let point = at as usize;
    if point < POINTS && !met[point] {
        met[point] = true;
        loads[point] += power;
    }
}

/// Adds a power to the load of each point that the walk of `t` passes, once also where a walk in a circle comes again.
fn add_along(loads: &mut [u32; POINTS], cables: &Outgoing, t: u32, power: u32)
    requires small { (p : ℕ) → p < 256 → slice_index loads.old p ≤ 256000 }
    requires power { power ≤ 1000 }
    ensures { AddsAlong cables.now t power loads.old loads.new }
{
    let mut met = [false; POINTS];
    let mut at = t;
    for step in 0..MOST_STEPS {
        pass_by(loads, &mut met, at, power);
        match cables.cable_out(at) {
            None => return,
            Some(next) => at = next.to,
        }
    }
    pass_by(loads, &mut met, at, power);
}

/// The loads, in power units, of the cables out of all points of a site, by the points' numbers: one walk from each turbine.
fn all_loads(site: &Site, cables: &Outgoing) -> [u32; 256]
    ensures { AreLoads site.now cables.now result }
{
    let mut loads = [0; POINTS];
    for t in 0..site.points().len() as u32 {
        let power = site.power(t);
        if power > 0 {
            add_along(&mut loads, cables, t, power);
        }
    }
    loads
}
