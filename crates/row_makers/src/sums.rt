//! The sums of the shares of the arcs that leave points.

ghost use Rattle.std.specs.Prelude.{◌≡◌, ◌≢◌, ◌<◌, ◌≤◌, ◌+◌, ◌*◌, ℕ, [], ◌∷◌, length, slice_get, slice_index_or, Some, IfOk};
ghost use Rattle.cable_definitions.specs.declared.cable.Arc.{Arc};
ghost use Rattle.cable_definitions.specs.Arcs.{AreArcs};
ghost use Rattle.bound_shares.specs.Shares.{shares_where, leaving_shares};
ghost use Rattle.row_makers.specs.Sums.{starts_in, goes, ends_in_substation, JoinsPoints};
ghost use Rattle.row_makers.specs.Tried.{turbines_and_bends};

use bound_shares::Shares;
use candidate_cables::Arcs;
use site_model::Site;
use std::alloc::{AllocError, Global};
use std::marker::Model;

/// For each of 256 points the sum of the shares of the arcs that start there.
fn sums_out(arcs: &Arcs, shares: &Shares) -> [u64; 256]
    requires points { (a : ℕ) (arc : Arc) → slice_get arcs.now a ≡ Some arc → JoinsPoints arc }
    requires shares { length shares.now ≡ length arcs.now }
    ensures size { length result ≡ 256 }
    ensures sums { (p : ℕ) → p < 256 → slice_index_or result p 0 ≡ shares_where (starts_in p) arcs.now shares.now }
    ensures small { (p : ℕ) → p < 256 → slice_index_or result p 0 ≤ 68719476736 }
{
    let mut sums = [0; 256];
    for a in 0..arcs.len() {
        let from = arcs.get(a).from as usize;
        sums[from] += u64::from(shares.get(a));
    }
    sums
}

/// A table of so many zeros.
fn zeros(alloc: Global, cells: usize) -> Result<Vec<u64>, AllocError>
    ensures size { IfOk result (λ table. length table.items ≡ cells) }
    ensures zeros { IfOk result (λ table. (k : ℕ) → slice_index_or table.items k 0 ≡ 0) }
{
    vec![in alloc; 0; cells]
}

/// For each two of 256 points the sum of the shares of the arcs from one to the other, in place 256 p + q from p to q.
fn sums_between(alloc: Global, arcs: &Arcs, shares: &Shares) -> Result<Vec<u64>, AllocError>
    requires points { (a : ℕ) (arc : Arc) → slice_get arcs.now a ≡ Some arc → JoinsPoints arc }
    requires shares { length shares.now ≡ length arcs.now }
    ensures size { IfOk result (λ sums. length sums.items ≡ 65536) }
    ensures sums { IfOk result (λ sums. (p q : ℕ) → p < 256 → q < 256 → slice_index_or sums.items (256 * p + q) 0 ≡ shares_where (goes p q) arcs.now shares.now) }
{
    let mut sums = zeros(alloc, 65536)?;
    for a in 0..arcs.len() {
        let arc = arcs.get(a);
        let place = 256 * arc.from as usize + arc.to as usize;
        sums[place] += u64::from(shares.get(a));
    }
    Ok(sums)
}

/// The sum of the shares of the arcs into substations.
fn sum_into_substations(site: &Site, arcs: &Arcs, shares: &Shares) -> u64
    requires { length shares.now ≡ length arcs.now }
    ensures { result ≡ shares_where (ends_in_substation site.now) arcs.now shares.now }
{
    let mut total = 0;
    for a in 0..arcs.len() {
        if site.kind(arcs.get(a).to).is_substation() {
            total += u64::from(shares.get(a));
        }
    }
    total
}

/// The shares of a site's arcs, summed by the points that the arcs join. They are seen as the arcs and their shares.
#[derive(Drop)]
pub(crate) struct Sums<'a> {
    arcs: &'a Arcs,
    shares: &'a Shares,
    out: [u64; 256],
    between: Vec<u64>,
}

impl<'a> Model for Sums<'a> {
    ghost use Rattle.row_makers.specs.Sums.{SharedArcs, AreSums};

    ghost Value = { SharedArcs };

    ghost view = { λ s. record { arcs = s.arcs.now; shares = s.shares.now } };

    ghost invariant = { λ s. AreSums s.arcs.now s.shares.now s.out s.between.items };
}

impl<'a> Sums<'a> {
    ghost use Rattle.row_makers.specs.Sums.{AreSums};

    /// The sums of the shares of a site's arcs.
    pub(crate) fn new(
        alloc: Global,
        site: &Site,
        arcs: &'a Arcs,
        shares: &'a Shares,
    ) -> Result<Sums<'a>, AllocError>
        requires arcs { AreArcs site.now arcs.now }
        requires shares { length shares.now ≡ length arcs.now }
        ensures { IfOk result (λ sums. sums ≡ record { arcs = arcs.now; shares = shares.now }) }
    {
        // The points of a site come with the fact that it is valid.
        let _points = site.points();
        let out = sums_out(arcs, shares);
        let between = sums_between(alloc, arcs, shares)?;
        Ok(Sums {
            arcs,
            shares,
            out,
            between,
        })
    }

    /// The sum of the shares that leave a point.
    pub(crate) fn leaving_one(&self, p: u32) -> u64
        requires { p < 256 }
        ensures { result ≡ leaving_shares (p ∷ []) self.now.arcs self.now.shares }
    {
        self.out[p as usize]
    }

    /// The sum of the shares that leave two points.
    pub(crate) fn leaving_two(&self, p: u32, q: u32) -> u64
        requires first { p < 256 }
        requires second { q < 256 }
        requires different { p ≢ q }
        ensures { result ≡ leaving_shares (p ∷ q ∷ []) self.now.arcs self.now.shares }
    {
        let (p, q) = (p as usize, q as usize);
        let both = self.out[p] + self.out[q];
        both - self.between[256 * p + q] - self.between[256 * q + p]
    }

    /// The sum of the shares that leave the turbines and bends of a site: those of the arcs into a substation.
    pub(crate) fn leaving_all(&self, site: &Site) -> u64
        requires { AreArcs site.now self.now.arcs }
        ensures { result ≡ leaving_shares (turbines_and_bends site.now) self.now.arcs self.now.shares }
    {
        sum_into_substations(site, self.arcs, self.shares)
    }
}
