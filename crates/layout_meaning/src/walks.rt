//! Walks along the cables, and the loads that add up along them.

ghost use Rattle.std.specs.Prelude.{◌≡◌, ◌≤◌};
ghost use Rattle.cable_definitions.specs.Walk.{passes as passes_by, load as load_of, walk_end as walk_end_of, most_steps};

use crate::outgoing::Outgoing;
use cable_definitions::cable::Cable;
use site_model::Site;

/// The most steps of a walk: one for each point that a site may have.
pub(crate) const MOST_STEPS: u32 = 256;

/// Where the walk of a point ends.
pub(crate) fn walk_end(cables: &Outgoing, p: u32) -> u32
    ensures { result ≡ walk_end_of most_steps cables.now p }
{
    let mut at = p;
    for step in 0..MOST_STEPS {
        match cables.cable_out(at) {
            None => return at,
            Some(next) => at = next.to,
        }
    }
    at
}

/// Whether the walk of `t` passes `p`.
fn passes(cables: &Outgoing, p: u32, t: u32) -> bool
    ensures { result ≡ passes_by cables.now p t }
{
    let mut at = t;
    for step in 0..MOST_STEPS {
        if at == p {
            return true;
        }
        match cables.cable_out(at) {
            None => return false,
            Some(cable) => at = cable.to,
        }
    }
    at == p
}

/// The load of the cable out of a point, where the cables out of all points are at hand.
fn load_at(site: &Site, cables: &Outgoing, p: u32) -> u32
    ensures value { result ≡ load_of site.now cables.now p }
    ensures small { result ≤ 256000 }
{
    let mut total: u32 = 0;
    for t in 0..site.points().len() as u32 {
        if passes(cables, p, t) {
            total += site.power(t);
        }
    }
    total
}

/// The load of the cable out of a point: the sum of the powers, in power units, of the turbines whose walk passes it.
pub fn load(site: &Site, cables: &[Cable], p: u32) -> u32
    ensures value { result ≡ load_of site.now cables.now p }
    ensures small { result ≤ 256000 }
{
    load_at(site, &Outgoing::new(cables), p)
}
