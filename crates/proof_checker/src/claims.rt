//! A claim against a layout and the least bound.

ghost use Rattle.std.specs.Prelude.{◌≡◌, ℕ, ◌≤◌, List, ◌↔◌, IsTrue, OnOk, IfOk, IfErr};
ghost use Rattle.cable_definitions.specs.Layout.{IsLegal, cost as cost_of};
ghost use Rattle.cable_definitions.specs.Row.{Row};
ghost use Rattle.cable_definitions.specs.Tree.{ProofState as AnyKept, LayoutAgrees, BoundAgrees, Agrees, IsLeastBound, AllDead};
ghost use Rattle.cable_definitions.specs.Refusal.{IsClaimRefused, IsLeastCause};
ghost use Rattle.proof_checker.specs.State.{kept_from};
ghost use Rattle.proof_checker.specs.Answers.{IsClosingBound};

use branch_tree::Tree;
use cable_definitions::claim::{Cause, Claim};
use layout_meaning::{Layout, Verdict, judge, part_blocked};
use site_model::Site;

/// What an accepted document says of all legal layouts: each costs at least so many cost units, or there is none.
#[derive(Clone, Copy, Debug, PartialEq, Eq)]
pub enum Bound {
    Least(u64),
    NoLayout,
}

/// Whether the layout is legal at this cost.
fn has_cost(site: &Site, layout: &Layout, cost: u64) -> bool
    ensures { IsTrue result ↔ IsLegal site.now layout.now × (cost_of site.now layout.now ≡ cost) }
{
    match judge(site, layout) {
        Verdict::Legal(found) => found == cost,
        Verdict::Broken(rule, a, b) => false,
    }
}

/// Whether the layout is as the claim says.
fn layout_agrees(site: &Site, layout: &Layout, claim: Claim) -> bool
    ensures { IsTrue result ↔ LayoutAgrees site.now layout.now claim }
{
    match claim {
        Claim::Optimal(cost) => has_cost(site, layout, cost),
        Claim::Gap { cost, bound } => has_cost(site, layout, cost),
        Claim::Partial { bound, stuck } => part_blocked(site, layout, stuck),
        Claim::Infeasible => layout.cables().is_empty(),
    }
}

/// Whether this is the least bound over the leaves that aren't dead.
fn has_least(tree: &Tree, bound: u64) -> bool
    ensures { (rows : List Row) → IsTrue result ↔ IsLeastBound (kept_from rows tree.now) bound }
{
    match tree.least() {
        None => false,
        Some(least) => least == i128::from(bound),
    }
}

/// Whether all leaves are dead.
fn all_dead(tree: &Tree) -> bool
    ensures { (rows : List Row) → IsTrue result ↔ AllDead (kept_from rows tree.now) }
{
    match tree.least() {
        None => true,
        Some(_) => false,
    }
}

/// Whether this is the least bound over the leaves that aren't dead, with the whole budget worked.
fn has_worked(tree: &Tree, budget: u32, bound: u64) -> bool
    ensures { (rows : List Row) → IsTrue result ↔ IsLeastBound (kept_from rows tree.now) bound × ((kept_from rows tree.now).works ≡ budget) }
{
    if tree.works() != budget {
        return false;
    }
    has_least(tree, bound)
}

/// Whether the bound of a gap is as the claim says: the least bound, below the cost, with the whole budget worked.
fn has_gap(tree: &Tree, budget: u32, cost: u64, bound: u64) -> bool
    ensures { (rows : List Row) → IsTrue result ↔ BoundAgrees budget (kept_from rows tree.now) (Claim.Gap cost bound) }
{
    if bound >= cost {
        return false;
    }
    has_worked(tree, budget, bound)
}

/// Whether the bound is as the claim says.
fn bound_agrees(tree: &Tree, budget: u32, claim: Claim) -> bool
    ensures { (rows : List Row) → IsTrue result ↔ BoundAgrees budget (kept_from rows tree.now) claim }
{
    match claim {
        Claim::Optimal(cost) => has_least(tree, cost),
        Claim::Gap { cost, bound } => has_gap(tree, budget, cost, bound),
        Claim::Partial { bound, stuck } => has_worked(tree, budget, bound),
        Claim::Infeasible => all_dead(tree),
    }
}

/// What a claim says of all legal layouts.
fn bound_of(claim: Claim) -> Bound
    ensures { (n : ℕ) (kept : AnyKept) → BoundAgrees n kept claim → IsClosingBound kept result }
{
    match claim {
        Claim::Optimal(cost) => Bound::Least(cost),
        Claim::Gap { cost, bound } => Bound::Least(bound),
        Claim::Partial { bound, stuck } => Bound::Least(bound),
        Claim::Infeasible => Bound::NoLayout,
    }
}

/// What a claim says of all legal layouts, where the layout and the tree agree with it. It takes no memory.
///
/// # Errors
///
/// `Layout` where the layout isn't as the claim says, else `Verdict` where the bound isn't.
pub(crate) fn check_claim(
    site: &Site,
    tree: &Tree,
    budget: u32,
    layout: &Layout,
    claim: Claim,
) -> Result<Bound, Cause>
    ensures agrees { OnOk result ((rows : List Row) → Agrees site.now budget (kept_from rows tree.now) layout.now claim) }
    ensures bound { IfOk result (λ bound. (rows : List Row) → IsClosingBound (kept_from rows tree.now) bound) }
    ensures refused { IfErr result (λ cause. (rows : List Row) → IsLeastCause (IsClaimRefused site.now budget (kept_from rows tree.now) layout.now claim) cause) }
{
    if !layout_agrees(site, layout, claim) {
        return Err(Cause::Layout);
    }
    if !bound_agrees(tree, budget, claim) {
        return Err(Cause::Verdict);
    }
    Ok(bound_of(claim))
}
