//! A list of cables in a room that is taken once.

use cable_definitions::cable::Cable;
use std::alloc::{AllocError, Global};
use std::marker::Model;

/// The most cables of a layout.
pub(crate) const MOST_CABLES: usize = 256;

/// A layout has 256 cables already.
#[derive(Clone, Copy, Debug, PartialEq, Eq, thiserror::Error)]
#[error("a layout has at most 256 cables")]
pub struct LayoutFull;

/// A list of at most 256 cables, whose room is taken when it is made.
#[derive(Drop)]
pub struct Layout {
    cables: Vec<Cable>,
}

impl Model for Layout {
    ghost use Rattle.std.specs.Prelude.{List, ◌≤◌, vec_len, vec_capacity};
    ghost use Rattle.cable_definitions.specs.declared.cable.Cable.{Cable};

    ghost Value = { List Cable };

    ghost view = { λ layout. layout.cables.items };

    ghost invariant = { λ layout. (vec_len layout.cables ≤ 256) × (256 ≤ vec_capacity layout.cables) };
}

impl Layout {
    ghost use Rattle.std.specs.Prelude.{◌≡◌, ◌<◌, ◌≤◌, ◌↔◌, [], ◌∷◌, ◌++◌, length, OnOk, OnErr, IfOk, IsOk, IsErr, AllPairs};
    ghost use Rattle.std.specs.List.Sorted.{IsPermutation};
    ghost use Rattle.layout_laws.specs.Alike.{StartsDiffer, SameOuts};
    ghost use Rattle.layout_meaning.specs.Order.{ComesBefore};

    /// A layout of no cable, with room for 256.
    ///
    /// # Errors
    ///
    /// `AllocError` where there is no memory.
    pub fn new(alloc: Global) -> Result<Layout, AllocError>
        ensures { IfOk result (λ layout. layout ≡ []) }
    {
        let cables = Vec::with_capacity(alloc, MOST_CABLES)?;
        Ok(Layout { cables })
    }

    /// Adds a cable at the end; `LayoutFull` exactly where there are 256 already. It takes no memory.
    pub fn push(&mut self, cable: Cable) -> Result<(), LayoutFull>
        ensures full { IsErr result ↔ (length self.old ≡ 256) }
        ensures ok { OnOk result (self.new ≡ self.old ++ cable ∷ []) }
        ensures err { OnErr result (self.new ≡ self.old) }
    {
        if self.cables.len() >= MOST_CABLES {
            return Err(LayoutFull);
        }
        match self.cables.push(cable) {
            Ok(()) => Ok(()),
            Err(_) => Err(LayoutFull),
        }
    }

    /// The cables in their order.
    pub fn cables(&self) -> &[Cable]
        ensures value { result.now ≡ self.now }
        ensures at_most { length self.now ≤ 256 }
    {
        self.cables.as_slice()
    }

    /// Leaves no cable, and keeps the room.
    pub fn clear(&mut self)
        ensures { self.new ≡ [] }
    {
        self.cables.clear();
    }

    /// Replaces the cables by these. It takes no memory.
    pub fn replace(&mut self, cables: &[Cable])
        requires { length cables.now ≤ 256 }
        ensures { self.new ≡ cables.now }
    {
        self.clear();
        for cable in cables {
            let _ = self.push(*cable);
        }
    }

    /// Puts the cables in ascending order of start, then end, then type. It takes no memory.
    pub fn arrange(&mut self)
        ensures same_cables { IsPermutation self.old self.new }
        ensures in_order { AllPairs ComesBefore self.new }

        // Where no two cables start alike, that is so afterwards too, and walks are the same.
        ensures starts_differ { StartsDiffer self.old → StartsDiffer self.new }
        ensures same_outs { StartsDiffer self.old → SameOuts self.old self.new }
    {
        self.cables
            .sort_unstable_by_key(|cable| (cable.from, cable.to, cable.grade));
    }
}
