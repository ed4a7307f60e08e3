//! What a site says of its points and its cable types by their numbers.

ghost use Rattle.std.specs.Prelude.{◌≡◌, ◌≤◌, ◌<◌, ◌↔◌, IsTrue, length, IfSome, IfNone, Any};
ghost use Rattle.cable_definitions.specs.Site.{IsKind, IsValid};
ghost use Rattle.cable_definitions.specs.Text.{name_of};
ghost use Rattle.cable_definitions.specs.Layout.{SamePair, PairsClash};
ghost use Rattle.cable_definitions.specs.Arcs.{kind_of, power_of, capacity_of, largest_capacity};

use crate::Site;
use cable_definitions::site::Kind;
use plane_geometry::clash;

impl Site {
    /// The kind of a point by its number. A number past the points counts as a bend.
    pub fn kind(&self, p: u32) -> Kind
        ensures kind { result ≡ kind_of self.now p }
        ensures valid { IsKind result }
    {
        let points = self.points();
        if p as usize >= points.len() {
            return Kind::Bend;
        }
        points[p as usize].kind
    }

    /// What a point feeds in, in power units: a turbine its power, another point or a number past the points nothing.
    pub fn power(&self, p: u32) -> u32
        ensures power { result ≡ power_of self.now p }
        ensures most { result ≤ 1000 }
    {
        self.kind(p).power()
    }

    /// The name of a point by its number, as bytes. A number past the points has no bytes.
    pub fn name(&self, p: u32) -> &[u8]
        ensures { result.now ≡ name_of self.now p }
    {
        match self.points().get(p as usize) {
            None => &[],
            Some(point) => point.name.as_slice(),
        }
    }

    /// The number of the point with a name. None exactly where no point has it.
    pub fn number_of(&self, name: &[u8]) -> Option<u32>
        ensures some { IfSome result (λ p. (p < length self.now.points) × (name_of self.now p ≡ name.now)) }
        ensures none { IfNone result (¬ (Any (λ p. p.name ≡ name.now) self.now.points)) }
        ensures valid { IsValid self.now }
    {
        for (number, point) in self.points().iter().enumerate() {
            if is_name(point.name.as_slice(), name) {
                return Some(number as u32);
            }
        }
        None
    }

    /// The capacity of a cable type by its number, in power units; 0 past the types.
    pub fn capacity(&self, grade: u32) -> u32
        ensures capacity { result ≡ capacity_of self.now grade }
        ensures most { result ≤ 10000 }
    {
        let types = self.types();
        if grade as usize >= types.len() {
            return 0;
        }
        types[grade as usize].capacity
    }

    /// The largest capacity of the cable types, in power units.
    pub fn largest_capacity(&self) -> u32
        ensures largest { result ≡ largest_capacity self.now }
        ensures some { 1 ≤ result }
        ensures most { result ≤ 10000 }
    {
        let mut most = 0;
        for cable_type in self.types() {
            most = most.max(cable_type.capacity);
        }
        most
    }

    /// Whether the points `a` and `b` are another unordered pair than `c` and `d`, and the segments of the two pairs clash.
    pub fn pairs_clash(&self, a: u32, b: u32, c: u32, d: u32) -> bool
        requires first { a < length self.now.points }
        requires second { b < length self.now.points }
        requires third { c < length self.now.points }
        requires fourth { d < length self.now.points }
        ensures { IsTrue result ↔ PairsClash self.now a b c d }
    {
        if is_same_pair(a, b, c, d) {
            return false;
        }
        let points = self.points();
        let start = points[a as usize].at;
        let end = points[b as usize].at;
        let other_start = points[c as usize].at;
        let other_end = points[d as usize].at;
        clash(start, end, other_start, other_end)
    }
}

/// Whether the bytes of a point's name are these.
fn is_name(own_name: &[u8], name: &[u8]) -> bool
    ensures { IsTrue result ↔ (own_name.now ≡ name.now) }
{
    own_name == name
}

/// Whether `a` and `b` are the unordered pair of `c` and `d`.
fn is_same_pair(a: u32, b: u32, c: u32, d: u32) -> bool
    ensures { IsTrue result ↔ SamePair a b c d }
{
    if a == c && b == d {
        return true;
    }
    a == d && b == c
}
