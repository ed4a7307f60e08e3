//! Lists of cables with the first cable out of each point at hand.

ghost use Rattle.std.specs.Prelude.{◌≡◌, ◌↔◌, IsTrue, take, length};
ghost use Rattle.cable_definitions.specs.Walk.{cable_out as cable_out_of};
ghost use Rattle.cable_definitions.specs.Layout.{Starts};
ghost use Rattle.layout_meaning.specs.Outgoing.{AreFirst};

use cable_definitions::cable::Cable;
use std::marker::Model;

/// How many point numbers have their cable at hand.
const POINTS: usize = 256;

/// A list of cables, with the first one out of each point at hand.
#[derive(Drop)]
pub struct Outgoing<'a> {
    cables: &'a [Cable],
    first: [Option<Cable>; POINTS],
}

impl<'a> Model for Outgoing<'a> {
    ghost use Rattle.std.specs.Prelude.{List};
    ghost use Rattle.cable_definitions.specs.declared.cable.Cable.{Cable};
    ghost use Rattle.layout_meaning.specs.Outgoing.{AreFirst};

    ghost Value = { List Cable };

    ghost view = { λ outgoing. outgoing.cables.now };

    ghost invariant = { λ outgoing. AreFirst outgoing.cables.now outgoing.first };
}

/// The first cable out of each point number below 256.
fn first_out(cables: &[Cable]) -> [Option<Cable>; POINTS]
    ensures { AreFirst cables.now result }
{
    let mut first = [None; POINTS];
    for cable in cables {
        let p = cable.from as usize;
        if p < POINTS {
            first[p] = first[p].or(Some(*cable));
        }
    }
    first
}

impl<'a> Outgoing<'a> {
    /// The list with its first cables at hand.
    pub fn new(cables: &'a [Cable]) -> Outgoing<'a>
        ensures { result ≡ cables.now }
    {
        let first = first_out(cables);
        Outgoing { cables, first }
    }

    /// The list of cables.
    pub fn cables(&self) -> &[Cable]
        ensures { result.now ≡ self.now }
    {
        self.cables
    }

    /// The first cable that starts in a point.
    pub fn cable_out(&self, p: u32) -> Option<Cable>
        ensures { result ≡ cable_out_of self.now p }
    {
        let point = p as usize;
        if point < POINTS {
            self.first[point]
        } else {
            find_out(self.cables, p)
        }
    }

    /// Whether some cable starts in a point.
    pub fn starts(&self, p: u32) -> bool
        ensures { IsTrue result ↔ Starts self.now p }
    {
        self.cable_out(p).is_some()
    }
}

/// The first cable of a list that starts in a point.
fn find_out(cables: &[Cable], p: u32) -> Option<Cable>
    ensures { result ≡ cable_out_of cables.now p }
{
    for cable in cables {
        if cable.from == p {
            return Some(*cable);
        }
    }
    None
}
