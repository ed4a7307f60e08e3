//! Weights on rows that count arcs by more than one of their ends.

ghost use Rattle.std.specs.Prelude.{◌≡◌, ◌<◌, length, slice_get, Some, All};
ghost use Rattle.std.specs.List.{list_any};
ghost use Rattle.cable_definitions.specs.Choice.{AreLawful};
ghost use Rattle.cable_definitions.specs.Row.{Row};
ghost use Rattle.cable_rows.specs.Sums.{is_set_kind, sets_of, is_between as is_between_of, may_count as may_count_of, AreNear};

use crate::RowPool;
use cable_definitions::row::RowKind;
use candidate_cables::Arcs;
use node_works::Weights;
use std::marker::Model;

/// The most weights of a list.
const MOST_WEIGHTS: usize = 1024;

/// Some of at most 1,024 weights, seen as a list. It takes no memory beside its own.
#[derive(Drop)]
pub struct WeightList {
    weights: [(u32, i128); MOST_WEIGHTS],
    count: usize,
}

impl Model for WeightList {
    ghost use Rattle.std.specs.Prelude.{List, ℕ, ℤ, take, ◌≤◌};

    ghost Value = { List (ℕ × ℤ) };

    ghost view = { λ w. take w.count w.weights };

    ghost invariant = { λ w. w.count ≤ 1024 };
}

impl WeightList {
    ghost use Rattle.std.specs.Prelude.{◌≡◌, ◌<◌, ◌≤◌, [], ◌∷◌, ◌++◌, length};

    /// No weights.
    pub fn new() -> WeightList
        ensures { result ≡ [] }
    {
        WeightList {
            weights: [(0, 0); MOST_WEIGHTS],
            count: 0,
        }
    }

    /// The weights in their order.
    pub fn as_slice(&self) -> &[(u32, i128)]
        ensures value { result.now ≡ self.now }
        ensures few { length self.now ≤ 1024 }
    {
        &self.weights[..self.count]
    }

    /// Leaves no weight.
    fn clear(&mut self)
        ensures { self.new ≡ [] }
    {
        self.count = 0;
    }

    /// Adds a weight at the end.
    fn push(&mut self, weight: (u32, i128))
        requires { length self.old < 1024 }
        ensures { self.new ≡ self.old ++ weight ∷ [] }
    {
        let count = self.count;
        if count < MOST_WEIGHTS {
            self.weights[count] = weight;
            self.count = count + 1;
        }
    }
}

/// Whether a row counts arcs by more than one of their ends.
fn is_set(pool: &RowPool, row: u32) -> bool
    requires { row < length pool.now }
    ensures { (r : Row) → slice_get pool.now row ≡ Some r → result ≡ is_set_kind r.kind }
{
    match pool.kind(row) {
        RowKind::One | RowKind::Cut => true,
        _ => false,
    }
}

/// Replaces `sets` by the weights on rows that count arcs by more than one of their ends. The weights have to be lawful. It takes no memory.
pub fn find_sets(pool: &RowPool, weights: &Weights, sets: &mut WeightList)
    requires { AreLawful pool.now weights.now }
    ensures { sets.new ≡ sets_of pool.now weights.now }
{
    sets.clear();
    for own in weights.as_slice() {
        if is_set(pool, own.0) {
            sets.push(*own);
        }
    }
}

/// Whether a number is one from `first` up to `past`.
fn is_between(first: u32, past: u32, number: u32) -> bool
    ensures { result ≡ is_between_of first past number }
{
    if number < first {
        return false;
    }
    number < past
}

/// Whether a member is one from `first` up to `past`.
fn has_between(members: &[u32], first: u32, past: u32) -> bool
    ensures { result ≡ list_any (λ m. is_between_of first past m) members.now }
{
    for member in members {
        if is_between(first, past, *member) {
            return true;
        }
    }
    false
}

/// Whether a row on sets may count an arc out of a point, where these arcs are those from `first` up to `past`.
fn may_count(pool: &RowPool, row: u32, p: u32, first: u32, past: u32) -> bool
    requires { row < length pool.now }
    ensures { (r : Row) → slice_get pool.now row ≡ Some r → result ≡ may_count_of p first past r.kind r.members }
{
    match pool.kind(row) {
        RowKind::One => has_between(pool.members(row), first, past),
        RowKind::Cut => pool.has_point(row, p),
        _ => true,
    }
}

/// Replaces `near` by the weights on those rows on sets that may count an arc out of a point. It takes no memory.
pub fn find_near(arcs: &Arcs, pool: &RowPool, sets: &WeightList, p: u32, near: &mut WeightList)
    requires { All (λ w. w.0 < length pool.now) sets.now }
    ensures { AreNear arcs.now pool.now sets.now p near.new }
{
    near.clear();
    let (first, past) = arcs.out_of(p);
    for own in sets.as_slice() {
        if may_count(pool, own.0, p, first, past) {
            near.push(*own);
        }
    }
}

/// Replaces `near`, which is so for point `at`, by the weights that are so for another point. It takes no memory.
pub fn turn_to(
    arcs: &Arcs,
    pool: &RowPool,
    sets: &WeightList,
    at: u32,
    p: u32,
    near: &mut WeightList,
)
    requires listed { All (λ w. w.0 < length pool.now) sets.now }
    requires near { AreNear arcs.now pool.now sets.now at near.old }
    ensures { AreNear arcs.now pool.now sets.now p near.new }
{
    if at == p {
        return;
    }
    find_near(arcs, pool, sets, p, near);
}
