//! A part that is grown turbine by turbine, the greatest saving first.

ghost use Rattle.std.specs.Prelude.{◌≡◌, ℕ, ◌<◌, ◌≤◌, length, IsTrue, IfSome};
ghost use Rattle.cable_definitions.specs.Arcs.{AreArcs};
ghost use Rattle.cable_definitions.specs.Part.{IsBlocked};
ghost use Rattle.layout_meaning.specs.Joining.{IsUnjoined};
ghost use Rattle.start_layout.specs.Starting.{AllBlocked};

use candidate_cables::Arcs;
use layout_meaning::{Outgoing, PartialLayout};
use site_model::Site;
use std::alloc::{AllocError, Global};

/// An arc out of a turbine, its cost, and the saving of Esau and Williams negated: what it costs more than a cable to the nearest substation, each
/// at the turbine's own power; and whether the arc was tried, which is done once.
#[derive(Clone, Copy)]
pub(crate) struct Choice {
    from: u32,
    to: u32,
    cost: u64,
    negative_saving: i128,
    tried: bool,
}

/// The cost of a cable from a point to the nearest substation, at the point's own power, whether or not it may run there; the greatest cost
/// where there is no substation, or no type that bears the power.
fn substation_cost(site: &Site, from: u32) -> u64
    requires from { from < length site.now.points }
{
    let power = site.power(from);
    let mut least = u64::MAX;
    for to in 0..site.points().len() as u32 {
        if site.kind(to).is_substation() {
            if let Some((grade, cost)) = site.cheapest(from, to, power) {
                least = least.min(cost);
            }
        }
    }
    least
}

/// Lists the arcs out of a turbine.
fn list_choices(
    choices: &mut Vec<Choice>,
    site: &Site,
    arcs: &Arcs,
    turbine: u32,
) -> Result<(), AllocError>
    requires arcs { AreArcs site.now arcs.now }
    requires turbine { turbine < length site.now.points }
{
    let power = site.power(turbine);
    let direct = substation_cost(site, turbine);
    let count = site.points().len();
    let (first, past) = arcs.out_of(turbine);
    for number in first..past {
        let to = arcs.get(number).to;
        if (to as usize) < count {
            if let Some((grade, cost)) = site.cheapest(turbine, to, power) {
                choices.push(Choice {
                    from: turbine,
                    to,
                    cost,
                    negative_saving: cost as i128 - direct as i128,
                    tried: false,
                })?;
            }
        }
    }
    Ok(())
}

/// The arcs out of all turbines: the greatest saving first, then the cheapest arc; of equal ones in their order.
pub(crate) fn all_choices(
    alloc: Global,
    site: &Site,
    arcs: &Arcs,
) -> Result<Vec<Choice>, AllocError>
    requires { AreArcs site.now arcs.now }
{
    let mut choices = Vec::new(alloc);
    for turbine in 0..site.points().len() as u32 {
        if site.kind(turbine).is_turbine() {
            list_choices(&mut choices, site, arcs, turbine)?;
        }
    }
    choices.sort_by_key(|choice| (choice.negative_saving, choice.cost))?;
    Ok(choices)
}

/// Whether an arc wasn't tried, starts in a turbine that isn't joined, and ends in a joined turbine or a substation.
fn is_open(site: &Site, part: &Outgoing, choice: Choice) -> bool {
    if choice.tried {
        return false;
    }
    if part.starts(choice.from) {
        return false;
    }
    if part.starts(choice.to) {
        return true;
    }
    site.kind(choice.to).is_substation()
}

/// The first open arc from a place on.
fn next_choice(site: &Site, part: &PartialLayout, choices: &[Choice], place: usize) -> Option<usize>
    ensures { IfSome result (λ next. next < length choices.now) }
{
    let outgoing = Outgoing::new(part.layout().cables());
    for next in place..choices.len() {
        if is_open(site, &outgoing, choices[next]) {
            return Some(next);
        }
    }
    None
}

/// Joins turbines one after another, each time by the first open arc that can be added.
pub(crate) fn join_by_saving(site: &Site, part: &mut PartialLayout, choices: &mut [Choice])
    ensures { part.new.site ≡ part.old.site }
{
    let mut place = 0;
    for attempt in 0..choices.len() {
        match next_choice(site, part, choices, place) {
            None => return,
            Some(next) => {
                let choice = choices[next];
                choices[next].tried = true;
                match part.try_join(choice.from, choice.to) {
                    Ok(()) => place = 0,
                    Err(fault) => place = next + 1,
                }
            }
        }
    }
}

/// Joins a turbine by the first arc that can be added. False where it is joined or blocked.
fn join_turbine(part: &mut PartialLayout, turbine: u32, count: u32) -> bool
    requires { count ≡ length part.old.site.points }
    ensures same_site { part.new.site ≡ part.old.site }
    ensures joined { IsTrue result → length part.old.cables < length part.new.cables }
    ensures most { length part.new.cables ≤ 256 }
    ensures unchanged { ¬ (IsTrue result) → part.new ≡ part.old }
    ensures blocked { ¬ (IsTrue result) → IsUnjoined part.old.site part.old.cables turbine → IsBlocked part.old.site part.old.cables turbine }
{
    let _part = part.layout().cables();
    if part.joined(turbine) {
        return false;
    }
    for to in 0..count {
        match part.try_join(turbine, to) {
            Err(fault) => {}
            Ok(()) => {
                let _more = part.layout().cables();
                return true;
            }
        }
    }
    false
}

/// Joins the first turbine that isn't blocked. False where each turbine is joined or blocked.
fn join_some(part: &mut PartialLayout, count: u32) -> bool
    requires { count ≡ length part.old.site.points }
    ensures same_site { part.new.site ≡ part.old.site }
    ensures joined { IsTrue result → length part.old.cables < length part.new.cables }
    ensures most { IsTrue result → length part.new.cables ≤ 256 }
    ensures unchanged { ¬ (IsTrue result) → part.new ≡ part.old }
    ensures blocked { ¬ (IsTrue result) → AllBlocked part.old.site part.old.cables }
{
    for turbine in 0..count {
        if join_turbine(part, turbine, count) {
            return true;
        }
    }
    false
}

/// Joins turbines until each is joined or blocked.
pub(crate) fn join_all(part: &mut PartialLayout, count: u32)
    requires { count ≡ length part.old.site.points }
    ensures same_site { part.new.site ≡ part.old.site }
    ensures blocked { AllBlocked part.new.site part.new.cables }
{
    while join_some(part, count) {}
}
