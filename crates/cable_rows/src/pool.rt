//! Well-formed rows by their numbers, in a room that is taken once.

ghost use Rattle.std.specs.Prelude.{◌≡◌, ◌≢◌, ◌+◌, ◌≤◌, ◌<◌, ◌↔◌, ℕ, List, [], ◌∷◌, ◌++◌, length, sum_by, unsigned_abs, slice_get, Some, IfOk, OnOk, OnErr, IsOk, IsTrue, All, AllPairs, slice_index_or, false};
ghost use Rattle.cable_definitions.specs.declared.cable.Arc.{Arc as AnArc};
ghost use Rattle.cable_definitions.specs.Arcs.{AreArcs};
ghost use Rattle.cable_definitions.specs.declared.cable.Cable.{Cable};
ghost use Rattle.cable_definitions.specs.Layout.{IsLegal};
ghost use Rattle.cable_definitions.specs.Row.{Row, IsWellFormed, Holds, is_member, has_one_member, is_equation as is_equation_of, right as right_of, on_use, on_load};

use crate::coefficients::{minus_one_if, of_ends};
use crate::sides::right_side;
use cable_definitions::row::RowKind;
use candidate_cables::{Arc, Arcs};
use site_model::Site;
use std::alloc::{AllocError, Global};
use std::marker::Model;

/// The most rows of a pool.
const MOST_ROWS: usize = 16_384;

/// The most members of all rows of a pool together.
const MOST_MEMBERS: usize = 1_048_576;

/// There is no room for a row: 16,384 rows are listed already, or their members together with those of the row would be more than
/// 1,048,576.
#[derive(Clone, Copy, Debug, PartialEq, Eq, thiserror::Error)]
#[error("there is no room for the row")]
pub struct Full;

/// A row of a pool: its members stand in the pool's list from `start` up to `end`, and `has` tells of each point whether it is one of them;
/// of a row on arcs it tells nothing.
#[derive(Drop)]
pub(crate) struct StoredRow {
    kind: RowKind,
    start: u32,
    end: u32,
    has: [bool; 256],
}

/// Well-formed rows by their numbers, which begin at 0. There are at most 16,384, with at most 1,048,576 members together, and their room
/// is taken when the pool is made.
#[derive(Drop)]
pub struct RowPool {
    rows: Vec<StoredRow>,
    members: Vec<u32>,
}

impl Model for RowPool {
    ghost use Rattle.std.specs.Prelude.{List, ◌≤◌, vec_capacity};
    ghost use Rattle.cable_definitions.specs.Row.{Row};

    ghost Value = { List Row };

    ghost use Rattle.cable_rows.specs.Pool.{pool_rows, IsPool};

    ghost view = { λ p. pool_rows p.members.items p.rows.items };

    ghost invariant = { λ p. IsPool p.rows.items p.members.items (vec_capacity p.rows) (vec_capacity p.members) };
}

impl RowPool {
    /// No rows, with room for 16,384 rows and 1,048,576 members.
    ///
    /// # Errors
    ///
    /// `AllocError` where there is no memory for that room.
    pub fn new(alloc: Global) -> Result<RowPool, AllocError>
        ensures { IfOk result (λ pool. pool ≡ []) }
    {
        let rows = Vec::with_capacity(alloc, MOST_ROWS)?;
        let members = Vec::with_capacity(alloc, MOST_MEMBERS)?;
        Ok(RowPool { rows, members })
    }

    /// How many rows there are: at most 16,384.
    pub fn len(&self) -> u32
        ensures count { result ≡ length self.now }
        ensures most { result ≤ 16384 }
    {
        self.rows.len() as u32
    }

    /// The kind of a row.
    pub fn kind(&self, row: u32) -> RowKind
        requires { row < length self.now }
        ensures { (r : Row) → slice_get self.now row ≡ Some r → result ≡ r.kind }
    {
        self.rows[row as usize].kind
    }

    /// The members of a row in their order, which is ascending: at most 256.
    pub fn members(&self, row: u32) -> &[u32]
        requires { row < length self.now }
        ensures members { (r : Row) → slice_get self.now row ≡ Some r → result.now ≡ r.members }
        ensures few { length result.now ≤ 256 }
        ensures ascending { (r : Row) → slice_get self.now row ≡ Some r → AllPairs (λ m n. m < n) r.members }
        ensures one { (r : Row) → slice_get self.now row ≡ Some r → IsTrue (has_one_member r.kind) → length r.members ≡ 1 }
    {
        let stored = &self.rows[row as usize];
        &self.members[stored.start as usize..stored.end as usize]
    }

    /// Whether a row asks that both its sides are equal; another row asks that its left side is at least its right side.
    pub fn is_equation(&self, row: u32) -> bool
        requires { row < length self.now }
        ensures { (r : Row) → slice_get self.now row ≡ Some r → result ≡ is_equation_of r.kind }
    {
        match self.kind(row) {
            RowKind::Out | RowKind::Flow | RowKind::Bend => true,
            RowKind::Inlet | RowKind::Power | RowKind::One | RowKind::Cut => false,
        }
    }

    /// The right side of a row: a number of cables, or power units for `Flow` and `Power`.
    pub fn right(&self, site: &Site, row: u32) -> i64
        requires { row < length self.now }
        ensures value { (r : Row) → slice_get self.now row ≡ Some r → result ≡ right_of site.now r.kind r.members }
        ensures small { unsigned_abs result ≤ 76800000 }
    {
        right_side(site, self.kind(row), self.members(row))
    }

    /// Whether a point is a member of a row on points.
    pub fn has_point(&self, row: u32, p: u32) -> bool
        requires { row < length self.now }
        ensures { (r : Row) → slice_get self.now row ≡ Some r → r.kind ≢ RowKind.One → result ≡ is_member r.members p }
    {
        let stored = &self.rows[row as usize];
        if p < 256 {
            return stored.has[p as usize];
        }
        false
    }

    /// Whether an arc is a member of a row on arcs.
    fn has_arc(&self, row: u32, arc: u32) -> bool
        requires { row < length self.now }
        ensures { (r : Row) → slice_get self.now row ≡ Some r → r.kind ≡ RowKind.One → result ≡ is_member r.members arc }
    {
        match self.members(row).binary_search(&arc) {
            Ok(_) => true,
            Err(_) => false,
        }
    }

    /// What a row counts a use of an arc as, and what it counts each unit of the arc's load as.
    pub fn coefficients(&self, site: &Site, arcs: &Arcs, row: u32, arc: u32) -> (i8, i8)
        requires arcs { AreArcs site.now arcs.now }
        requires row { row < length self.now }
        requires arc { arc < length arcs.now }
        ensures on_use { (r : Row) (a : AnArc) → slice_get self.now row ≡ Some r → slice_get arcs.now arc ≡ Some a → result.0 ≡ on_use r.kind r.members arc a.from a.to }
        ensures on_load { (r : Row) (a : AnArc) → slice_get self.now row ≡ Some r → slice_get arcs.now arc ≡ Some a → result.1 ≡ on_load r.kind r.members a.from a.to }
    {
        let kind = self.kind(row);
        if let RowKind::One = kind {
            return (minus_one_if(self.has_arc(row, arc)), 0);
        }
        let Arc { from, to, .. } = arcs.get(arc);
        of_ends(kind, self.has_point(row, from), self.has_point(row, to))
    }

    /// Lists a row, which has to be well formed, and answers its number; such a row holds of every legal layout. It takes no memory.
    ///
    /// # Errors
    ///
    /// `Full` exactly where 16,384 rows are listed already or the members of all rows with these would be more than 1,048,576; nothing
    /// changes then.
    pub fn add(
        &mut self,
        site: &Site,
        arcs: &Arcs,
        kind: RowKind,
        members: &[u32],
    ) -> Result<u32, Full>
        requires arcs { AreArcs site.now arcs.now }
        requires well_formed { IsWellFormed site.now arcs.now (record { kind = kind; members = members.now }) }
        ensures room { IsOk result ↔ ((length self.old < 16384) × (sum_by (λ r. length r.members) self.old + length members.now ≤ 1048576)) }
        ensures number { IfOk result (λ row. row ≡ length self.old) }
        ensures listed { OnOk result (self.new ≡ self.old ++ record { kind = kind; members = members.now } ∷ []) }
        ensures holds { OnOk result ((cables : List Cable) → IsLegal site.now cables → Holds site.now arcs.now (record { kind = kind; members = members.now }) cables) }
        ensures full { OnErr result (self.new ≡ self.old) }
    {
        // The points of a site come with the fact that it is valid.
        let _points = site.points();
        let row = self.rows.len();
        let start = self.members.len();
        if row >= MOST_ROWS {
            return Err(Full);
        }
        if members.len() > MOST_MEMBERS - start {
            return Err(Full);
        }
        let stored = StoredRow {
            kind,
            start: start as u32,
            end: (start + members.len()) as u32,
            has: table_of(kind, members),
        };
        match self.members.extend_from_slice(members) {
            Ok(()) => {}
            Err(_) => return Err(Full),
        }
        self.rows.push_reserved(stored);
        Ok(row as u32)
    }
}

/// For each of 256 points whether it is a member of a row on points; of a row on arcs it tells nothing.
fn table_of(kind: RowKind, members: &[u32]) -> [bool; 256]
    requires { kind ≢ RowKind.One → All (λ m. m < 256) members.now }
    ensures table { kind ≢ RowKind.One → (p : ℕ) → slice_index_or result p false ≡ is_member members.now p }
    ensures size { length result ≡ 256 }
{
    let mut has = [false; 256];
    if let RowKind::One = kind {
        return has;
    }
    for member in members {
        has[*member as usize] = true;
    }
    has
}
