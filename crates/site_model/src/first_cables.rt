//! The sum of the cheapest first cables: what the turbines' own powers cost on their way to the next point.

ghost use Rattle.std.specs.Prelude.{◌≡◌, ℕ, ◌<◌, ◌≤◌, IsTrue, length, IfSome, IfNone, ◌+◌};
ghost use Rattle.cable_definitions.specs.Site.{IsValid};
ghost use Rattle.cable_definitions.specs.Arcs.{IsCandidate, is_turbine as is_turbine_of, kind_of, power_of as power_of_point};
ghost use Rattle.cable_definitions.specs.Budget.{IsLeastOut, IsNearest};
ghost use Rattle.site_model.specs.Best.{IsLeastBelow, IsShare, most_cost, least_with as lesser_of};

use crate::Site;
use cable_definitions::site::Kind;

impl Site {
    /// The sum, over the turbines, of the cheapest first cables, in cost units: the least cost of a candidate arc out of the turbine, with
    /// its own power as load. None exactly where some turbine has no candidate arc.
    pub fn nearest(&self) -> Option<u64>
        ensures none { IfNone result ((p : ℕ) × IsTrue (is_turbine_of (kind_of self.now p)) × ((q : ℕ) → ¬ (IsCandidate self.now p q))) }
        ensures total { IfSome result (λ total. IsNearest self.now total) }
    {
        let mut total = 0;
        for p in 0..self.points().len() as u32 {
            total += self.least_or_zero(p)?;
        }
        Some(total)
    }

    /// What a point adds to this sum: a turbine the least cost out of it, another point nothing.
    fn least_or_zero(&self, p: u32) -> Option<u64>
        requires { p < length self.now.points }
        ensures none { IfNone result (IsTrue (is_turbine_of (kind_of self.now p)) × ((q : ℕ) → ¬ (IsCandidate self.now p q))) }
        ensures share { IfSome result (λ cost. IsShare self.now p cost (kind_of self.now p)) }
        ensures small { IfSome result (λ cost. cost ≤ most_cost) }
    {
        let point = &self.points()[p as usize];
        match point.kind {
            Kind::Turbine { power } => self.least_out(p, power),
            _ => Some(0),
        }
    }

    /// The least cost of a candidate arc out of a point of this power, with the power as load.
    fn least_out(&self, p: u32, power: u32) -> Option<u64>
        requires point { p < length self.now.points }
        requires power { power ≡ power_of_point self.now p }
        ensures none { IfNone result ((q : ℕ) → ¬ (IsCandidate self.now p q)) }
        ensures least { IfSome result (λ cost. IsLeastOut self.now p cost) }
        ensures small { IfSome result (λ cost. cost ≤ most_cost) }
    {
        let mut least = None;
        for q in 0..self.points().len() as u32 {
            least = self.lesser_of_ends(least, p, q, power);
        }
        least
    }

    /// The least cost out of a point to the points up to `q`, from that to those before it.
    fn lesser_of_ends(&self, least: Option<u64>, p: u32, q: u32, power: u32) -> Option<u64>
        requires from { p < length self.now.points }
        requires to { q < length self.now.points }
        requires power { power ≡ power_of_point self.now p }
        requires valid { IsValid self.now }
        requires least { IsLeastBelow self.now p q least }
        ensures { IsLeastBelow self.now p (q + 1) result }
    {
        if !self.is_candidate(p, q) {
            return least;
        }
        match self.cheapest(p, q, power) {
            None => least,
            Some((_, cost)) => Some(lesser(least, cost)),
        }
    }
}

/// The lesser of two costs, of which the first may be missing.
fn lesser(least: Option<u64>, cost: u64) -> u64
    ensures { result ≡ lesser_of least cost }
{
    match least {
        None => cost,
        Some(least) => least.min(cost),
    }
}
