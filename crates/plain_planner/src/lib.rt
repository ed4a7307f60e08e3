//! The cheapest legal layout of a small site, by trying every choice of one end for each turbine. It
//! takes exponential time, and is meant for sites of few points, with which other planners are compared.
#![tactic(auto)]

ghost use Rattle.std.specs.Prelude.{◌≡◌, ◌≢◌, ◌+◌, ◌<◌, ◌≤◌, ◌↔◌, IsTrue, length, vec_len, All, AllPairs, IfOk, OnOk, IfSome, IfNone};
ghost use Rattle.cable_definitions.specs.Layout.{IsLegal, cost, Least, HasNone};
ghost use Rattle.plain_planner.specs.Choices.{Ascends, Completes, IsBestTried, IsJudgement, cheaper as cheaper_of};

use layout_meaning::{Cable, Layout, Verdict, judge_cables};
use site_model::{Kind, Point, Site};
use std::alloc::{AllocError, Global};

/// The cheapest legal layout of a site without bends and with one cable type, with its cost in cost
/// units and its cables in ascending order of start; None exactly where no layout is legal. The error
/// is want of memory.
pub fn cheapest_layout(alloc: Global, site: &Site) -> Result<Option<(Layout, u64)>, AllocError>
    requires one_type { length site.now.types ≡ 1 }
    requires no_bends { All (λ p. p.kind ≢ Kind.Bend) site.now.points }
    ensures none { IfOk result (λ best. IfNone best (HasNone site.now)) }
    ensures legal { IfOk result (λ best. IfSome best (λ b. IsLegal site.now b.0)) }
    ensures cost { IfOk result (λ best. IfSome best (λ b. b.1 ≡ cost site.now b.0)) }
    ensures least { IfOk result (λ best. IfSome best (λ b. Least site.now b.1)) }
    ensures in_order { IfOk result (λ best. IfSome best (λ b. AllPairs (λ c d. c.from < d.from) b.0)) }
{
    let mut chosen = Vec::new(alloc);
    best_from(alloc, site, 0, &mut chosen)
}

/// Whether the site has one cable type and no bend, as `cheapest_layout` asks.
pub fn is_plain(site: &Site) -> bool
    ensures { IsTrue result ↔ ((length site.now.types ≡ 1) × All (λ p. p.kind ≢ Kind.Bend) site.now.points) }
{
    if site.types().len() != 1 {
        return false;
    }
    has_no_bend(site.points())
}

/// Whether none of the points is a bend.
fn has_no_bend(points: &[Point]) -> bool
    ensures { IsTrue result ↔ All (λ p. p.kind ≢ Kind.Bend) points.now }
{
    for point in points {
        if let Kind::Bend = point.kind {
            return false;
        }
    }
    true
}

/// The cheapest legal layout that completes the cables chosen for the turbines before point `p`.
fn best_from(
    alloc: Global,
    site: &Site,
    p: u32,
    chosen: &mut Vec<Cable>,
) -> Result<Option<(Layout, u64)>, AllocError>
    requires within { p ≤ length site.now.points }
    requires count { vec_len chosen.old ≤ p }
    requires before { All (λ c. c.from < p) chosen.old.items }
    requires in_order { Ascends chosen.old.items }
    ensures same { OnOk result (chosen.new.items ≡ chosen.old.items) }
    ensures best { IfOk result (λ best. IsBestTried site.now (Completes site.now chosen.old.items p) best) }
{
    let points = site.points();
    if p as usize == points.len() {
        return judged(alloc, site, chosen.as_slice());
    }
    let point = &points[p as usize];
    let Kind::Turbine { .. } = point.kind else {
        return best_from(alloc, site, p + 1, chosen);
    };
    let mut best = None;
    for to in 0..points.len() as u32 {
        chosen.push(Cable {
            from: p,
            to,
            grade: 0,
        })?;
        let found = best_from(alloc, site, p + 1, chosen)?;
        chosen.pop();
        best = cheaper(best, found);
    }
    Ok(best)
}

/// The cables as a layout with its cost, or none where they are not legal.
fn judged(alloc: Global, site: &Site, cables: &[Cable]) -> Result<Option<(Layout, u64)>, AllocError>
    requires { length cables.now ≤ 256 }
    ensures { IfOk result (λ found. IsJudgement site.now cables.now found) }
{
    match judge_cables(site, cables) {
        Verdict::Broken(..) => Ok(None),
        Verdict::Legal(cost) => {
            let layout = layout_of(alloc, cables)?;
            Ok(Some((layout, cost)))
        }
    }
}

/// A layout of these cables.
fn layout_of(alloc: Global, cables: &[Cable]) -> Result<Layout, AllocError>
    requires { length cables.now ≤ 256 }
    ensures { IfOk result (λ layout. layout ≡ cables.now) }
{
    let mut layout = Layout::new(alloc)?;
    for cable in cables {
        let _ = layout.push(*cable);
    }
    Ok(layout)
}

/// The one of two layouts that costs less, and of equal costs the known one.
fn cheaper(known: Option<(Layout, u64)>, found: Option<(Layout, u64)>) -> Option<(Layout, u64)>
    ensures { result ≡ cheaper_of known found }
{
    match (known, found) {
        (None, found) => found,
        (known, None) => known,
        (Some(known), Some(found)) => {
            if found.1 < known.1 {
                Some(found)
            } else {
                Some(known)
            }
        }
    }
}
