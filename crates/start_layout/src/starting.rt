//! A layout to begin with: what was searched, the straight layout, or what is grown turbine by turbine.

ghost use Rattle.std.specs.Prelude.{◌≡◌, ℕ, ◌≤◌, ◌⊎◌, List, IfOk, IfSome, IfNone};
ghost use Rattle.cable_definitions.specs.declared.cable.Cable.{Cable as ACable};
ghost use Rattle.cable_definitions.specs.Arcs.{AreArcs};
ghost use Rattle.cable_definitions.specs.Layout.{IsLegal, cost as cost_of_all};
ghost use Rattle.cable_definitions.specs.Part.{IsStraight, IsBlocked};
ghost use Rattle.start_layout.specs.Starting.{AllBlocked, IsStart, IsIncumbent, IsLegalAtMost};

use crate::growing::{all_choices, join_all, join_by_saving};
use crate::straight::straight_layout;
use candidate_cables::Arcs;
use layout_meaning::{Layout, PartialLayout, Verdict, judge};
use layout_search::search_layout;
use site_model::Site;
use std::alloc::{AllocError, Global};

/// A layout to begin with, or a part of one to which some turbine can't be joined.
#[derive(Drop)]
pub enum Start {
    /// A legal layout, and its cost in cost units.
    Found(Layout, u64),
    /// A grown part, and a turbine that is blocked there.
    Stuck { part: Layout, turbine: u32 },
}

/// A legal layout, and its cost in cost units.
#[derive(Drop)]
pub(crate) struct Incumbent {
    pub(crate) layout: Layout,
    pub(crate) cost: u64,
}

/// A layout to begin with: the cheaper of the straight layout and the one that a search met, where one of them is legal. Else it is grown turbine by
/// turbine by the greatest saving against the cheapest cable to a substation, after Esau and Williams (1966). Where that isn't legal either it is the part
/// that was grown, with a turbine that is blocked there; that says nothing of other layouts. An error comes for want of memory alone.
pub fn greedy(alloc: Global, site: &Site, arcs: &Arcs) -> Result<Start, AllocError>
    requires { AreArcs site.now arcs.now }
    ensures found { IfOk result (λ start. (layout : List ACable) (price : ℕ) → start ≡ Start.Found layout price
        → IsLegal site.now layout × (cost_of_all site.now layout ≡ price)) }
    ensures straight { IfOk result (λ start. (straight : List ACable) → IsStraight site.now straight → IsLegal site.now straight
        → (layout : List ACable) × (price : ℕ) × (start ≡ Start.Found layout price) × (price ≤ cost_of_all site.now straight)) }
    ensures stuck { IfOk result (λ start. (part : List ACable) (turbine : ℕ) → start ≡ Start.Stuck part turbine
        → IsBlocked site.now part turbine) }
{
    let searched = judged(site, search_layout(alloc, site, arcs)?);
    let straight = straight_layout(alloc, site, arcs)?;
    match cheaper(site, searched, straight) {
        None => Ok(grow(alloc, site, arcs)?),
        Some(incumbent) => Ok(Start::Found(incumbent.layout, incumbent.cost)),
    }
}

/// A layout with its cost. None exactly where there is none or it isn't legal.
fn judged(site: &Site, layout: Option<Layout>) -> Option<Incumbent>
    ensures some { IfSome result (IsIncumbent site.now) }
    ensures none { IfNone result (IfSome layout (λ cables. ¬ (IsLegal site.now cables))) }
    ensures same { IfSome result (λ incumbent. IfSome layout (λ cables. incumbent.layout ≡ cables)) }
{
    match layout {
        None => None,
        Some(layout) => match judge(site, &layout) {
            Verdict::Broken(rule, a, b) => None,
            Verdict::Legal(cost) => Some(Incumbent { layout, cost }),
        },
    }
}

/// The cheaper of an incumbent and the straight layout, where one of them is legal.
fn cheaper(site: &Site, incumbent: Option<Incumbent>, straight: Option<Layout>) -> Option<Incumbent>
    requires { IfSome incumbent (IsIncumbent site.now) }
    ensures incumbent { IfSome result (IsIncumbent site.now) }
    ensures within { IfSome straight (λ cables. IsLegal site.now cables → IsLegalAtMost (cost_of_all site.now cables) result) }
{
    match judged(site, straight) {
        None => incumbent,
        Some(straight) => Some(lesser(incumbent, straight)),
    }
}

/// The cheaper of an incumbent and another one, the first where they cost the same.
fn lesser(incumbent: Option<Incumbent>, other: Incumbent) -> Incumbent
    ensures within { result.cost ≤ other.cost }
    ensures either { (result ≡ other) ⊎ (incumbent ≡ Some result) }
{
    match incumbent {
        None => other,
        Some(least) => {
            if other.cost < least.cost {
                other
            } else {
                least
            }
        }
    }
}

/// What is grown by the greatest saving.
fn grow(alloc: Global, site: &Site, arcs: &Arcs) -> Result<Start, AllocError>
    requires { AreArcs site.now arcs.now }
    ensures { IfOk result (IsStart site.now) }
{
    let mut choices = all_choices(alloc, site, arcs)?;
    let mut part = PartialLayout::new(alloc, site)?;
    join_by_saving(site, &mut part, choices.as_mut_slice());
    join_all(&mut part, site.points().len() as u32);
    Ok(start_of(site, part))
}

/// The part as a layout, or with the first turbine that isn't joined.
fn start_of(site: &Site, part: PartialLayout) -> Start
    requires site { part.site ≡ site.now }
    requires blocked { AllBlocked part.site part.cables }
    ensures { IsStart site.now result }
{
    let layout = part.into_layout();
    match judge(site, &layout) {
        Verdict::Legal(cost) => Start::Found(layout, cost),
        Verdict::Broken(rule, turbine, other) => Start::Stuck {
            part: layout,
            turbine,
        },
    }
}
