//! What weighted rows count an arc as.

ghost use Rattle.std.specs.Prelude.{◌≡◌, ◌*◌, ◌^◌, ◌≤◌, ◌<◌, ◌*ℤ◌, length, unsigned_abs, slice_get, Some};
ghost use Rattle.cable_definitions.specs.declared.cable.Arc.{Arc as AnArc};
ghost use Rattle.cable_definitions.specs.Arcs.{AreArcs};
ghost use Rattle.cable_definitions.specs.Choice.{AreLawful, weighted_on_use, weighted_on_load};

use crate::RowPool;
use candidate_cables::Arcs;
use site_model::Site;

/// What weighted rows count a use of an arc as, and what they count each unit of its load as, over 2^20 of a cost unit.
#[derive(Clone, Copy)]
pub struct Counts {
    pub on_use: i128,
    pub on_load: i128,
}

impl Counts {
    ghost use Rattle.std.specs.Prelude.{◌≡◌, ◌^◌, ◌≤◌, ◌+ℤ◌, unsigned_abs};

    /// These counts and others, added.
    pub(crate) fn with(self, others: Counts) -> Counts
        requires own_use { unsigned_abs self.on_use ≤ 2 ^ 87 }
        requires own_load { unsigned_abs self.on_load ≤ 2 ^ 87 }
        requires other_use { unsigned_abs others.on_use ≤ 2 ^ 86 }
        requires other_load { unsigned_abs others.on_load ≤ 2 ^ 86 }
        ensures on_use { result.on_use ≡ self.on_use +ℤ others.on_use }
        ensures on_load { result.on_load ≡ self.on_load +ℤ others.on_load }
    {
        Counts {
            on_use: self.on_use + others.on_use,
            on_load: self.on_load + others.on_load,
        }
    }
}

/// A count of a row times the row's weight, over 2^20 of a cost unit.
pub fn weighted(weight: i128, count: i64) -> i128
    requires weight { unsigned_abs weight ≤ 2 ^ 76 }
    requires count { unsigned_abs count ≤ 76800000 }
    ensures product { result ≡ weight *ℤ count }
    ensures small { unsigned_abs result ≤ 2 ^ 76 * unsigned_abs count }
{
    weight * i128::from(count)
}

/// What rows with these weights, which are lawful and at most 1,024, count an arc as. The arcs are those of the site. It takes no memory.
pub fn weighted_counts(
    site: &Site,
    arcs: &Arcs,
    pool: &RowPool,
    weights: &[(u32, i128)],
    arc: u32,
) -> Counts
    requires arcs { AreArcs site.now arcs.now }
    requires lawful { AreLawful pool.now weights.now }
    requires few { length weights.now ≤ 1024 }
    requires arc { arc < length arcs.now }
    ensures on_use { (a : AnArc) → slice_get arcs.now arc ≡ Some a → result.on_use ≡ weighted_on_use pool.now weights.now arc a }
    ensures on_load { (a : AnArc) → slice_get arcs.now arc ≡ Some a → result.on_load ≡ weighted_on_load pool.now weights.now a }
    ensures on_use_small { unsigned_abs result.on_use ≤ 2 ^ 86 }
    ensures on_load_small { unsigned_abs result.on_load ≤ 2 ^ 86 }
{
    let mut sum = Counts {
        on_use: 0,
        on_load: 0,
    };
    for weight in weights {
        let (on_use, on_load) = pool.coefficients(site, arcs, weight.0, arc);
        sum = Counts {
            on_use: sum.on_use + weighted(weight.1, i64::from(on_use)),
            on_load: sum.on_load + weighted(weight.1, i64::from(on_load)),
        };
    }
    sum
}
