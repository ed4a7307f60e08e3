//! The points where a flow may end, and the turbine that comes next.

ghost use Rattle.std.specs.Prelude.{◌≡◌, ◌<◌, ◌⊎◌, ◌↔◌, ℕ, length, slice_get, slice_set, replicate, Some, IsTrue, IfSome, IfNone, true, false};
ghost use Rattle.cable_definitions.specs.declared.cable.Arc.{Arc};
ghost use Rattle.cable_definitions.specs.Arcs.{kind_of, is_turbine as is_turbine_of, is_substation as is_substation_of};
ghost use Rattle.cut_makers.specs.Ends.{is_end, IsWaiting};

use bound_shares::Shares;
use candidate_cables::Arcs;
use site_model::Site;
use std::marker::Model;

/// Adds the shares of the arcs into a point to what their starts share with ends. The sums stay far below the greatest number, since each is of at
/// most 255 shares of at most 2^20.
fn add_shared(shared: &mut [u32; 256], arcs: &Arcs, shares: &Shares, p: u32)
    requires starts { (a : ℕ) (arc : Arc) → slice_get arcs.now a ≡ Some arc → arc.from < 256 }
    requires shares { length shares.now ≡ length arcs.now }
{
    for a in arcs.into(p) {
        let from = arcs.get(*a).from as usize;
        shared[from] = shared[from].saturating_add(shares.get(*a));
    }
}

/// Points where a flow may end, with the sum of the shares of the arcs from each point to these, which only says what turbine comes next.
#[derive(Drop)]
pub(crate) struct Ends {
    is_end: [bool; 256],
    shared: [u32; 256],
}

impl Model for Ends {
    ghost use Rattle.std.specs.Prelude.{◌≡◌, List, Bool, length};

    ghost Value = { List Bool };

    ghost view = { λ e. e.is_end };

    ghost invariant = { λ e. length e.is_end ≡ 256 };
}

impl Ends {
    /// The substations.
    pub(crate) fn new(site: &Site, arcs: &Arcs, shares: &Shares) -> Ends
        requires starts { (a : ℕ) (arc : Arc) → slice_get arcs.now a ≡ Some arc → arc.from < 256 }
        requires shares { length shares.now ≡ length arcs.now }
        ensures size { length result ≡ 256 }
        ensures substations { (p : ℕ) → is_end result p ≡ is_substation_of (kind_of site.now p) }
    {
        let mut ends = Ends {
            is_end: [false; 256],
            shared: [0; 256],
        };
        for p in 0..site.points().len() as u32 {
            if site.points()[p as usize].kind.is_substation() {
                ends.add(arcs, shares, p);
            }
        }
        ends
    }

    /// Whether a flow may end in a point.
    pub(crate) fn has(&self, p: u32) -> bool
        requires { p < 256 }
        ensures { result ≡ is_end self.now p }
    {
        self.is_end[p as usize]
    }

    /// Lets a flow end in one more point.
    pub(crate) fn add(&mut self, arcs: &Arcs, shares: &Shares, p: u32)
        requires point { p < 256 }
        requires starts { (a : ℕ) (arc : Arc) → slice_get arcs.now a ≡ Some arc → arc.from < 256 }
        requires shares { length shares.now ≡ length arcs.now }
        ensures { self.new ≡ slice_set self.old p true }
    {
        self.is_end[p as usize] = true;
        add_shared(&mut self.shared, arcs, shares, p);
    }

    /// Whether a point is a turbine where no flow may end yet.
    fn is_waiting(&self, site: &Site, p: u32) -> bool
        requires { p < length site.now.points }
        ensures { IsTrue result ↔ IsWaiting site.now self.now p }
    {
        let points = site.points();
        if self.has(p) {
            return false;
        }
        points[p as usize].kind.is_turbine()
    }

    /// Of a turbine that was seen, if any, and another one the one that shares more with ends, or the first where they are even.
    fn nearer(&self, seen: Option<u32>, other: u32) -> u32
        requires seen { IfSome seen (λ p. p < 256) }
        requires other { other < 256 }
        ensures { (seen ≡ Some result) ⊎ (result ≡ other) }
    {
        match seen {
            None => other,
            Some(p) => {
                if self.shared[p as usize] >= self.shared[other as usize] {
                    p
                } else {
                    other
                }
            }
        }
    }

    /// Of the turbines where no flow may end yet the one that shares most with ends, since most of its flow goes over one arc. None where there is
    /// no such turbine.
    pub(crate) fn next_turbine(&self, site: &Site) -> Option<u32>
        ensures some { IfSome result (IsWaiting site.now self.now) }
        ensures none { IfNone result ((p : ℕ) → is_turbine_of (kind_of site.now p) ≡ true → is_end self.now p ≡ true) }
    {
        let mut next = None;
        for other in 0..site.points().len() as u32 {
            if self.is_waiting(site, other) {
                next = Some(self.nearer(next, other));
            }
        }
        next
    }
}
