//! What cables cost.

ghost use Rattle.std.specs.Prelude.{◌≡◌, ℕ, ◌<◌, ◌≤◌, length, IfSome, IfNone, ◌+◌};
ghost use Rattle.cable_definitions.specs.Arcs.{cost_by, cost_of, Bears, IsCheapest};
ghost use Rattle.site_model.specs.Best.{IsBestBelow};
ghost use Rattle.site_model.specs.Measured.{IsMeasured};

use crate::Site;
use cable_definitions::cable::Arc;
use cable_definitions::site::CableType;
use plane_geometry::length;

impl Site {
    /// The arc from one point to another, with its length in metres and the charge in cost units on its pair. It need not be a candidate.
    pub fn arc_between(&self, from: u32, to: u32) -> Arc
        requires from { from < length self.now.points }
        requires to { to < length self.now.points }
        ensures start { result.from ≡ from }
        ensures end { result.to ≡ to }
        ensures measured { IsMeasured self.now result }
    {
        let start = &self.points()[from as usize];
        let end = &self.points()[to as usize];
        Arc {
            from,
            to,
            length: length(start.at, end.at),
            charge: self.pair_charge(from, to),
        }
    }

    /// The cost in cost units of a cable on an arc with the length and the charge of its pair, of a type by its number, that carries a load
    /// in power units: its length times the type's price and its loss at that load, and the charge. No distance is measured anew.
    pub fn cost_on(&self, arc: Arc, grade: u32, load: u32) -> u64
        requires arc { IsMeasured self.now arc }
        requires grade { grade < length self.now.types }
        requires load { load ≤ 10000 }
        ensures { result ≡ cost_of self.now arc.from arc.to grade load }
    {
        let cable_type = self.types()[grade as usize];
        cable_cost(arc.length, cable_type, load, arc.charge)
    }

    /// The cost in cost units of a cable from one point to another, of a type by its number, that carries a load in power units: its
    /// length times the type's price and its loss at that load, and the charge on the pair.
    pub fn arc_cost(&self, from: u32, to: u32, grade: u32, load: u32) -> u64
        requires from { from < length self.now.points }
        requires to { to < length self.now.points }
        requires grade { grade < length self.now.types }
        requires load { load ≤ 10000 }
        ensures { result ≡ cost_of self.now from to grade load }
    {
        self.cost_on(self.arc_between(from, to), grade, load)
    }

    /// The type that bears a load in power units at the least cost on an arc with the length and the charge of its pair, with that cost in
    /// cost units: of the cheapest types the one of least number. None exactly where no type bears the load.
    pub fn cheapest_on(&self, arc: Arc, load: u32) -> Option<(u32, u64)>
        requires { IsMeasured self.now arc }
        ensures none { IfNone result ((grade : ℕ) → ¬ (Bears self.now grade load)) }
        ensures grade { IfSome result (λ best. IsCheapest self.now arc.from arc.to load best.0) }
        ensures cost { IfSome result (λ best. best.1 ≡ cost_of self.now arc.from arc.to best.0 load) }
    {
        let mut best = None;
        for grade in 0..self.types().len() as u32 {
            best = self.better_of_types(best, arc, load, grade);
        }
        best
    }

    /// The type that bears a load in power units at the least cost on a cable from one point to another, with that cost in cost units: of
    /// the cheapest types the one of least number. None exactly where no type bears the load.
    pub fn cheapest(&self, from: u32, to: u32, load: u32) -> Option<(u32, u64)>
        requires from { from < length self.now.points }
        requires to { to < length self.now.points }
        ensures none { IfNone result ((grade : ℕ) → ¬ (Bears self.now grade load)) }
        ensures grade { IfSome result (λ best. IsCheapest self.now from to load best.0) }
        ensures cost { IfSome result (λ best. best.1 ≡ cost_of self.now from to best.0 load) }
    {
        self.cheapest_on(self.arc_between(from, to), load)
    }

    /// The best of the types up to this one, from the best of those before it.
    fn better_of_types(
        &self,
        best: Option<(u32, u64)>,
        arc: Arc,
        load: u32,
        grade: u32,
    ) -> Option<(u32, u64)>
        requires arc { IsMeasured self.now arc }
        requires grade { grade < length self.now.types }
        requires best { IsBestBelow self.now arc.from arc.to load grade best }
        ensures { IsBestBelow self.now arc.from arc.to load (grade + 1) result }
    {
        if load > self.types()[grade as usize].capacity {
            return best;
        }
        let cost = self.cost_on(arc, grade, load);
        match best {
            Some((_, least)) if least <= cost => best,
            _ => Some((grade, cost)),
        }
    }
}

/// The cost of a cable of this length and type that carries a load, on a pair with this charge.
fn cable_cost(metres: u32, cable_type: CableType, load: u32, charge: u64) -> u64
    requires metres { metres ≤ 2828428 }
    requires price { cable_type.price ≤ 1000000 }
    requires loss { cable_type.loss ≤ 100 }
    requires load { load ≤ 10000 }
    requires charge { charge ≤ 1000000000000 }
    ensures { result ≡ cost_by metres cable_type load charge }
{
    let load = u64::from(load);
    let loss = u64::from(cable_type.loss) * load * load;
    u64::from(metres) * (u64::from(cable_type.price) + loss) + charge
}
