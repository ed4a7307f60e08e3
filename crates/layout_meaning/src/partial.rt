//! Grown parts that are made cable by cable.

use crate::joining::{JoinFault, is_joined, joining};
use crate::layout::Layout;
use crate::outgoing::Outgoing;
use crate::part::part_blocked;
use site_model::Site;
use std::alloc::{AllocError, Global};
use std::marker::Model;

/// A grown part of a site, whose cables have the cheapest types that bear their loads. It is seen as the site and the cables.
#[derive(Drop)]
pub struct PartialLayout<'a> {
    site: &'a Site,
    layout: Layout,
}

impl<'a> Model for PartialLayout<'a> {
    ghost use Rattle.layout_meaning.specs.Partial.{SitePart, IsCheapPart};

    ghost Value = { SitePart };

    ghost view = { λ part. record { site = part.site.now; cables = part.layout } };

    ghost invariant = { λ part. IsCheapPart part.site.now part.layout };
}

impl<'a> PartialLayout<'a> {
    ghost use Rattle.std.specs.Prelude.{◌≡◌, ℕ, List, [], ◌≤◌, ◌↔◌, Err, IfOk, OnOk, OnErr, IsTrue, length};
    ghost use Rattle.cable_definitions.specs.declared.cable.Cable.{Cable};
    ghost use Rattle.cable_definitions.specs.declared.cable.Rule.{Rule};
    ghost use Rattle.cable_definitions.specs.Arcs.{IsCandidate, kind_of, is_turbine};
    ghost use Rattle.cable_definitions.specs.Layout.{Starts};
    ghost use Rattle.cable_definitions.specs.Part.{IsGrown, IsTarget, IsBlocked, AreCheapTyped, IsFirstBrokenOfPart};
    ghost use Rattle.layout_laws.specs.Typable.{extended_by};
    ghost use Rattle.layout_meaning.specs.Joining.{IsTaken, IsUnjoined, IsFreeArc, NeverGrown};

    /// A part of no cable, with room for 256. The error is want of memory.
    pub fn new(alloc: Global, site: &'a Site) -> Result<PartialLayout<'a>, AllocError>
        ensures { IfOk result (λ part. part ≡ record { site = site.now; cables = [] }) }
    {
        let layout = Layout::new(alloc)?;
        Ok(PartialLayout { site, layout })
    }

    /// Whether point `p` is a turbine of the site that starts a cable; not so at a number past the points. It takes no memory.
    pub fn joined(&self, p: u32) -> bool
        ensures { IsTrue result ↔ (IsTrue (is_turbine (kind_of self.now.site p)) × Starts self.now.cables p) }
    {
        is_joined(self.site, &Outgoing::new(self.layout.cables()), p)
    }

    /// The cables, in the order in which they were added: a grown part, each cable with the cheapest type that bears its load.
    pub fn layout(&self) -> &Layout
        ensures value { result.now ≡ self.now.cables }
        ensures grown { IsGrown self.now.site self.now.cables }
        ensures cheapest { AreCheapTyped self.now.site self.now.cables self.now.cables }
    {
        &self.layout
    }

    /// The cables, in the order in which they were added: a grown part, each cable with the cheapest type that bears its load.
    pub fn into_layout(self) -> Layout
        ensures value { result ≡ self.entry.cables }
        ensures grown { IsGrown self.entry.site self.entry.cables }
        ensures cheapest { AreCheapTyped self.entry.site self.entry.cables self.entry.cables }
    {
        self.layout
    }

    /// Adds the arc from `from` to `to` behind the other cables, and gives all cables the cheapest types that bear their loads. A refusal
    /// says the first cause that holds, and changes nothing:
    /// `Joined` where `from` is no turbine or is joined already;
    /// `Target` where `to` is neither a joined turbine nor a substation;
    /// `Candidate` where no candidate arc leads from the one to the other;
    /// `Breaks` where no types make the part with this arc grown, with the first rule other than `Unjoined`, and its two numbers, that these
    /// cables break when each has its cheapest type, or type 0 where no type bears its load.
    /// It takes no memory.
    pub fn try_join(&mut self, from: u32, to: u32) -> Result<(), JoinFault>
        ensures joined { (result ≡ Err JoinFault.Joined) ↔ IsTaken self.old.site self.old.cables from }
        ensures target { (result ≡ Err JoinFault.Target)
            ↔ (IsUnjoined self.old.site self.old.cables from × (¬ IsTarget self.old.site self.old.cables to)) }
        ensures candidate { (result ≡ Err JoinFault.Candidate)
            ↔ (IsUnjoined self.old.site self.old.cables from × IsTarget self.old.site self.old.cables to × (¬ IsCandidate self.old.site from to)) }
        ensures breaks { ((rule : Rule) × (a : ℕ) × (b : ℕ) × (result ≡ Err (JoinFault.Breaks rule a b)))
            ↔ (IsFreeArc self.old.site self.old.cables from to × NeverGrown self.old.site self.old.cables from to) }
        ensures broken_rule { (rule : Rule) (a b : ℕ) → result ≡ Err (JoinFault.Breaks rule a b)
            → (typed : List Cable) → AreCheapTyped self.old.site (extended_by self.old.cables from to) typed
            → IsFirstBrokenOfPart self.old.site typed rule a b }
        ensures added { OnOk result (AreCheapTyped self.old.site (extended_by self.old.cables from to) self.new.cables) }
        ensures grown { OnOk result (IsGrown self.old.site self.new.cables) }
        ensures same_site { self.new.site ≡ self.old.site }
        ensures unchanged { OnErr result (self.new ≡ self.old) }
    {
        match joining(self.site, self.layout.cables(), from, to) {
            Err(fault) => Err(fault),
            Ok(typed) => {
                self.layout.replace(typed.as_slice());
                Ok(())
            }
        }
    }

    /// Whether `turbine` is a turbine of the site that isn't joined, and no candidate arc from there to a joined turbine or to a substation
    /// makes a grown part when it is added, whatever types all cables are given. It takes no memory.
    pub fn blocked(&self, turbine: u32) -> bool
        ensures { IsTrue result ↔ IsBlocked self.now.site self.now.cables turbine }
    {
        part_blocked(self.site, &self.layout, turbine)
    }
}
