//! Cables with the cheapest types that bear their loads.

ghost use Rattle.std.specs.Prelude.{◌≡◌, ℕ, ◌≤◌, ◌<◌, length};
ghost use Rattle.cable_definitions.specs.Part.{AreCheapTyped};
ghost use Rattle.layout_laws.specs.Cheapest.{IsCheapestOrZero};
ghost use Rattle.layout_meaning.specs.Typed.{JoinPoints};

use crate::flows::Flows;
use crate::layout::MOST_CABLES;
use crate::outgoing::Outgoing;
use cable_definitions::cable::Cable;
use site_model::Site;
use std::marker::Model;

/// A list of at most 256 cables, which takes no memory beside itself.
#[derive(Drop)]
pub struct CableList {
    cables: [Cable; MOST_CABLES],
    count: usize,
}

impl Model for CableList {
    ghost use Rattle.std.specs.Prelude.{List, take, ◌≤◌};
    ghost use Rattle.cable_definitions.specs.declared.cable.Cable.{Cable};

    ghost Value = { List Cable };

    ghost view = { λ list. take list.count list.cables };

    ghost invariant = { λ list. list.count ≤ 256 };
}

impl CableList {
    ghost use Rattle.std.specs.Prelude.{◌≡◌, ◌<◌, ◌≤◌, length, [], ◌∷◌, ◌++◌};

    /// No cable.
    pub fn new() -> CableList
        ensures { result ≡ [] }
    {
        let none = Cable {
            from: 0,
            to: 0,
            grade: 0,
        };
        CableList {
            cables: [none; MOST_CABLES],
            count: 0,
        }
    }

    /// The cables in their order.
    pub fn as_slice(&self) -> &[Cable]
        ensures value { result.now ≡ self.now }
        ensures few { length self.now ≤ 256 }
    {
        &self.cables[..self.count]
    }

    /// Adds a cable at the end.
    pub fn push(&mut self, cable: Cable)
        requires { length self.old < 256 }
        ensures { self.new ≡ self.old ++ cable ∷ [] }
    {
        let count = self.count;
        if count < MOST_CABLES {
            self.cables[count] = cable;
            self.count = count + 1;
        }
    }
}

/// The cheapest type that bears a load, or type 0 where none does.
fn cheapest_or_zero(site: &Site, from: u32, to: u32, load: u32) -> u32
    requires from { from < length site.now.points }
    requires to { to < length site.now.points }
    ensures { IsCheapestOrZero site.now from to load result }
{
    match site.cheapest(from, to, load) {
        None => 0,
        Some((grade, cost)) => grade,
    }
}

/// The cables, each with the cheapest type that bears its load, or with type 0 where no type does. It takes no memory.
pub fn cheapest_types(flows: &Flows) -> CableList
    requires few { length flows.now.cables ≤ 256 }
    requires points { JoinPoints flows.now.site flows.now.cables }
    ensures { AreCheapTyped flows.now.site flows.now.cables result }
{
    let site = flows.site();
    let cables = flows.cables();
    let mut typed = CableList::new();
    for cable in cables {
        let carried = flows.load(cable.from);
        typed.push(Cable {
            from: cable.from,
            to: cable.to,
            grade: cheapest_or_zero(site, cable.from, cable.to, carried),
        });
    }
    typed
}

/// The cables, each with the cheapest type that bears its load, or with type 0 where no type does. It takes no memory.
pub fn with_cheapest_types(site: &Site, cables: &[Cable]) -> CableList
    requires few { length cables.now ≤ 256 }
    requires points { JoinPoints site.now cables.now }
    ensures { AreCheapTyped site.now cables.now result }
{
    cheapest_types(&Flows::new(site, Outgoing::new(cables)))
}
