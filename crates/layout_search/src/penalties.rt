//! What faults count, which rises while there are faults and falls while there are none.

use crate::state::Sums;

/// What a unit of each fault counts, in cost units.
#[derive(Clone, Copy)]
pub(crate) struct Penalties {
    clash: Penalty,
    overload: Penalty,
    excess: Penalty,
    power: Penalty,
}

/// What a unit of a fault counts now and as the search begins, in cost units.
#[derive(Clone, Copy)]
struct Penalty {
    first: i64,
    now: i64,
}

impl Penalty {
    /// A penalty of at least 1.
    fn new(first: i64) -> Penalty {
        let first = first.max(1);
        Penalty { first, now: first }
    }

    /// Raises the penalty by a thirty-second, up to 64 times the first one, where there are such faults; else lowers it by a sixty-fourth, down
    /// to a quarter of the first one.
    fn adapt(&mut self, faults: i64) {
        let now = self.now;
        if faults > 0 {
            let more = now.wrapping_add(now / 32).wrapping_add(1);
            self.now = more.min(self.first.saturating_mul(64));
        } else {
            let less = now.wrapping_sub(now / 64);
            self.now = less.max(self.first / 4).max(1);
        }
    }

    /// What so many units count.
    fn count(&self, faults: i64) -> i128 {
        (self.now as i128).wrapping_mul(faults as i128)
    }
}

impl Penalties {
    /// Penalties for a farm where a cable between neighbours costs so much, of cable types of this largest capacity.
    pub(crate) fn new(mean_cost: i64, capacity: u32) -> Penalties {
        let base = mean_cost.wrapping_add(mean_cost / 2);
        let by_unit = base.wrapping_mul(2) / (capacity.max(1) as i64);
        Penalties {
            clash: Penalty::new(base),
            overload: Penalty::new(by_unit),
            excess: Penalty::new(base),
            power: Penalty::new(by_unit),
        }
    }

    /// Raises or lowers each.
    pub(crate) fn adapt(&mut self, sums: &Sums) {
        self.clash.adapt(sums.clashes);
        self.overload.adapt(sums.overload);
        self.excess.adapt(sums.excess);
        self.power.adapt(sums.power);
    }

    /// The cost of a state with its penalties.
    pub(crate) fn total(&self, sums: &Sums) -> i128 {
        (sums.cost as i128)
            .wrapping_add(self.clash.count(sums.clashes))
            .wrapping_add(self.overload.count(sums.overload))
            .wrapping_add(self.excess.count(sums.excess))
            .wrapping_add(self.power.count(sums.power))
    }
}
