//! The layout that a search begins with, and how a layout is settled.

ghost use Rattle.std.specs.Prelude.{◌≡◌, IfOk};
ghost use Rattle.cable_definitions.specs.Arcs.{AreArcs};
ghost use Rattle.cable_definitions.specs.Layout.{IsLegal};
ghost use Rattle.search_parts.specs.Start.{AreInOrder, CanBegin, IsIncumbent, IsSettledBest, BeatsStraight};

use candidate_cables::Arcs;
use layout_meaning::{Layout, Verdict, judge};
use site_model::Site;
use start_layout::{Start, greedy, improve_layout};
use std::alloc::{AllocError, Global};

/// A legal layout and its cost, which was judged once.
#[derive(Drop)]
pub struct Settled {
    pub layout: Layout,
    pub cost: u64,
}

/// What a search begins with, in ascending order of start: a settled layout with its cost; or where none was found a grown part, and a turbine that can't be
/// joined to it.
#[derive(Drop)]
pub enum Incumbent {
    Known(Settled),
    Part { part: Layout, turbine: u32 },
}

/// What to begin with: the layout that the greedy growth or the straight layout gives, settled; or the part that was grown, where neither gives one.
///
/// # Errors
///
/// `AllocError` where there is no memory.
pub fn first_incumbent(alloc: Global, site: &Site, arcs: &Arcs) -> Result<Incumbent, AllocError>
    requires { AreArcs site.now arcs.now }
    ensures begins { IfOk result (CanBegin site.now) }
    ensures straight { IfOk result (BeatsStraight site.now) }
{
    match greedy(alloc, site, arcs)? {
        Start::Stuck { part, turbine } => {
            let mut part = part;
            part.arrange();
            Ok(Incumbent::Part { part, turbine })
        }
        Start::Found(layout, _) => {
            let settled = settle_layout(alloc, site, arcs, &layout)?;
            Ok(Incumbent::Known(settled))
        }
    }
}

/// A settled layout in ascending order of start that costs no more than this one, with its cost. It is this one where that is settled and in that order.
///
/// # Errors
///
/// `AllocError` where there is no memory.
pub fn settle_layout(
    alloc: Global,
    site: &Site,
    arcs: &Arcs,
    layout: &Layout,
) -> Result<Settled, AllocError>
    requires arcs { AreArcs site.now arcs.now }
    requires legal { IsLegal site.now layout.now }
    ensures { IfOk result (λ settled. IsSettledBest site.now layout.now settled.layout settled.cost) }
{
    let mut better = improve_layout(alloc, site, arcs, layout)?;
    better.arrange();
    Ok(with_cost(site, better))
}

/// A legal layout, in ascending order of start, with its cost.
fn with_cost(site: &Site, layout: Layout) -> Settled
    requires legal { IsLegal site.now layout }
    requires in_order { AreInOrder layout }
    ensures same { result.layout ≡ layout }
    ensures best { IsIncumbent site.now layout result.cost }
{
    match judge(site, &layout) {
        Verdict::Legal(cost) => Settled { layout, cost },
        // A legal layout breaks no rule.
        Verdict::Broken(..) => unreachable!(),
    }
}
