//! What weights count by the ends of arcs, summed once for all arcs.

ghost use Rattle.std.specs.Prelude.{◌≡◌, ℕ, ◌*◌, ◌^◌, ◌≤◌, ◌<◌, ℤ, pos, ◌+ℤ◌, ◌*ℤ◌, length, unsigned_abs, slice_index_or, AllPairs};
ghost use Rattle.cable_definitions.specs.Choice.{AreLawful};
ghost use Rattle.cable_definitions.specs.Row.{is_member, one_if};
ghost use Rattle.cable_rows.specs.Sums.{sign, IsTable, ArePointSums, AreSmallSums};

use crate::{Counts, RowPool, weighted_counts};
use cable_definitions::row::RowKind;
use candidate_cables::{Arc, Arcs};
use node_works::Weights;
use site_model::Site;

/// What a table sums: counts of a use or of each unit of load, by the start or by the end of an arc.
#[derive(Clone, Copy)]
enum Part {
    UseFrom,
    UseTo,
    LoadFrom,
    LoadTo,
}

/// What weights on rows count by the ends of arcs, summed for each of 256 points: of each use and of each unit of load, by the start and by the end.
/// Rows that count arcs by more than one of their ends are left out. It takes no memory beside its own.
#[derive(Drop)]
pub struct PointSums {
    use_from: [i128; 256],
    use_to: [i128; 256],
    load_from: [i128; 256],
    load_to: [i128; 256],
}

/// As what a row counts an arc by one of its ends that is a member.
fn sign_of(part: Part, kind: RowKind) -> i64
    ensures sign { result ≡ sign part kind }
    ensures small { unsigned_abs result ≤ 1 }
{
    match (part, kind) {
        (Part::UseFrom, RowKind::Out | RowKind::Bend) => 1,
        (Part::UseTo, RowKind::Inlet | RowKind::Bend) => -1,
        (Part::LoadFrom, RowKind::Flow) => 1,
        (Part::LoadTo, RowKind::Flow | RowKind::Power) => -1,
        _ => 0,
    }
}

/// Adds a weight at each of some points.
fn add(table: &mut [i128; 256], members: &[u32], weight: i128)
    requires weight { unsigned_abs weight ≤ 2 ^ 76 }
    requires small { (p : ℕ) → p < 256 → unsigned_abs (slice_index_or table.old p (pos 0)) ≤ 2 ^ 86 }
    requires ascending { AllPairs (λ m n. m < n) members.now }
    ensures { (p : ℕ) → p < 256 → slice_index_or table.new p (pos 0) ≡ slice_index_or table.old p (pos 0) +ℤ weight *ℤ one_if (is_member members.now p) }
{
    for member in members {
        if *member < 256 {
            table[*member as usize] += weight;
        }
    }
}

/// A sign times a weight.
fn signed(sign: i64, weight: i128) -> i128
    requires sign { unsigned_abs sign ≤ 1 }
    requires weight { unsigned_abs weight ≤ 2 ^ 76 }
    ensures product { result ≡ weight *ℤ sign }
    ensures small { unsigned_abs result ≤ 2 ^ 76 }
{
    weight * i128::from(sign)
}

/// The table of what weights count by one end of arcs.
fn table_of(pool: &RowPool, weights: &Weights, part: Part) -> [i128; 256]
    requires { AreLawful pool.now weights.now }
    ensures { IsTable part pool.now weights.now result }
{
    let mut table = [0; 256];
    for own in weights.as_slice() {
        let sign = sign_of(part, pool.kind(own.0));
        if sign != 0 {
            add(&mut table, pool.members(own.0), signed(sign, own.1));
        }
    }
    table
}

impl PointSums {
    ghost use Rattle.std.specs.Prelude.{◌≡◌, ◌^◌, ◌≤◌, ◌<◌, List, ℕ, ℤ, [], pos, ◌+ℤ◌, length, unsigned_abs, slice_get, slice_index_or, Some};
    ghost use Rattle.cable_definitions.specs.declared.cable.Arc.{Arc as AnArc};
    ghost use Rattle.cable_definitions.specs.Arcs.{AreArcs};
    ghost use Rattle.cable_definitions.specs.Choice.{AreLawful};
    ghost use Rattle.cable_definitions.specs.Row.{Row};
    ghost use Rattle.cable_rows.specs.Sums.{ArePointSums, AreSmallSums, AreSummed, AreCounts};

    /// The sums of no weights.
    pub fn new() -> PointSums
        ensures { (rows : List Row) → ArePointSums rows [] result }
    {
        PointSums {
            use_from: [0; 256],
            use_to: [0; 256],
            load_from: [0; 256],
            load_to: [0; 256],
        }
    }

    /// Sums anew, for these weights.
    pub fn sum_up(&mut self, pool: &RowPool, weights: &Weights)
        requires { AreLawful pool.now weights.now }
        ensures sums { ArePointSums pool.now weights.now self.new }
        ensures small { AreSmallSums self.new }
        ensures few { length weights.now ≤ 1024 }
    {
        // A list of weights is short, which its slice tells.
        let _short = weights.as_slice();
        self.use_from = table_of(pool, weights, Part::UseFrom);
        self.use_to = table_of(pool, weights, Part::UseTo);
        self.load_from = table_of(pool, weights, Part::LoadFrom);
        self.load_to = table_of(pool, weights, Part::LoadTo);
    }

    /// What the sums are at the two ends of an arc.
    fn at_ends(&self, from: u32, to: u32) -> Counts
        requires from { from < 256 }
        requires to { to < 256 }
        requires small { AreSmallSums self.now }
        ensures on_use { result.on_use ≡ slice_index_or self.now.use_from from (pos 0) +ℤ slice_index_or self.now.use_to to (pos 0) }
        ensures on_load { result.on_load ≡ slice_index_or self.now.load_from from (pos 0) +ℤ slice_index_or self.now.load_to to (pos 0) }
        ensures on_use_small { unsigned_abs result.on_use ≤ 2 ^ 87 }
        ensures on_load_small { unsigned_abs result.on_load ≤ 2 ^ 87 }
    {
        Counts {
            on_use: self.use_from[from as usize] + self.use_to[to as usize],
            on_load: self.load_from[from as usize] + self.load_to[to as usize],
        }
    }

    /// What weights count an arc as, of which these are the sums. `others` are lawful weights that count the arc as those of the weights do whose rows
    /// count arcs by more than one of their ends. The arcs are those of the site. It takes no memory.
    pub fn counts(
        &self,
        site: &Site,
        arcs: &Arcs,
        pool: &RowPool,
        others: &[(u32, i128)],
        arc: u32,
    ) -> Counts
        requires arcs { AreArcs site.now arcs.now }
        requires small { AreSmallSums self.now }
        requires lawful { AreLawful pool.now others.now }
        requires few { length others.now ≤ 1024 }
        requires arc { arc < length arcs.now }
        ensures { (weights : List (ℕ × ℤ)) (a : AnArc) → slice_get arcs.now arc ≡ Some a → AreSummed pool.now weights self.now others.now arc a → AreCounts pool.now weights arc a result }
    {
        // The points of a site come with the fact that it is valid, so that there are at most 256.
        let _points = site.points();
        let Arc { from, to, .. } = arcs.get(arc);
        self.at_ends(from, to)
            .with(weighted_counts(site, arcs, pool, others, arc))
    }
}
