//! Whether a node is dead, and why.

ghost use Rattle.std.specs.Prelude.{◌≡◌, pos, nat_abs, ◌≤ℤ◌, ◌<◌, ◌↔◌, IsTrue, IfSome, IfNone, length};
ghost use Rattle.cable_definitions.specs.declared.row.Why.{Why as AReason};
ghost use Rattle.cable_definitions.specs.Arcs.{AreArcs};
ghost use Rattle.cable_definitions.specs.Tree.{IsDead, ceiling as ceiling_of};

use crate::flows::{find_flow_reason, is_flow_reason};
use crate::node::NodeBox;
use crate::pairs::{find_pair, is_used_pair};
use crate::rows::{cannot_meet, find_row};
use arc_choices::ceiling;
use cable_definitions::row::Why;
use cable_rows::RowPool;
use candidate_cables::Arcs;
use node_works::Decisions;
use site_model::Site;

/// Whether a bound is above a ceiling.
fn is_above(bound: i128, ceiling: u64) -> bool
    requires { pos 0 ≤ℤ bound }
    ensures { IsTrue result ↔ (ceiling < nat_abs bound) }
{
    bound as u128 > u128::from(ceiling)
}

impl<'a> NodeBox<'a> {
    /// Whether a reason is true of the node with this bound, in cost units, where these rows are listed and this is the ceiling of the site. A
    /// number that is none of the rows, arcs or points makes no reason true. It takes no memory.
    pub fn is_dead(&self, pool: &RowPool, bound: i128, ceiling: u64, why: Why) -> bool
        requires not_negative { pos 0 ≤ℤ bound }
        requires ceiling { ceiling ≡ ceiling_of self.now.site self.now.arcs }
        ensures { IsTrue result ↔ IsDead self.now.site self.now.arcs pool.now self.now.marks (nat_abs bound) why }
    {
        match why {
            Why::Row(row) => {
                if row >= pool.len() {
                    return false;
                }
                cannot_meet(self, pool, row)
            }
            Why::Pair(a, b) => is_used_pair(self, a, b),
            Why::Ceiling => is_above(bound, ceiling),
            Why::Load(_) | Why::Loop(_) | Why::Power(_) => {
                is_flow_reason(self.site, self.used.cables(), why)
            }
        }
    }

    /// A reason that is true of the node with this bound, in cost units, where these rows are listed and this is the ceiling of the site; none
    /// exactly where no reason is. It takes no memory.
    pub fn find_dead(&self, pool: &RowPool, bound: i128, ceiling: u64) -> Option<Why>
        requires not_negative { pos 0 ≤ℤ bound }
        requires ceiling { ceiling ≡ ceiling_of self.now.site self.now.arcs }
        ensures dead { IfSome result (IsDead self.now.site self.now.arcs pool.now self.now.marks (nat_abs bound)) }
        ensures none { IfNone result ((why : AReason) → ¬ (IsDead self.now.site self.now.arcs pool.now self.now.marks (nat_abs bound) why)) }
    {
        if let Some((a, b)) = find_pair(self) {
            return Some(Why::Pair(a, b));
        }
        if let Some(why) = find_flow_reason(self.site, self.used.cables()) {
            return Some(why);
        }
        if let Some(row) = find_row(self, pool) {
            return Some(Why::Row(row));
        }
        if is_above(bound, ceiling) {
            return Some(Why::Ceiling);
        }
        None
    }
}

/// Whether a reason is true of a node with these decisions and this bound, in cost units, where these rows are listed. A number that is
/// none of the rows, arcs or points makes no reason true. It takes no memory.
pub fn is_dead(
    site: &Site,
    arcs: &Arcs,
    pool: &RowPool,
    decisions: &Decisions,
    bound: i128,
    why: Why,
) -> bool
    requires arcs { AreArcs site.now arcs.now }
    requires count { length decisions.now ≡ length arcs.now }
    requires not_negative { pos 0 ≤ℤ bound }
    ensures { IsTrue result ↔ IsDead site.now arcs.now pool.now decisions.now (nat_abs bound) why }
{
    NodeBox::new(site, arcs, decisions).is_dead(pool, bound, ceiling(site, arcs), why)
}

/// A reason that is true of a node with these decisions and this bound, in cost units, where these rows are listed; none exactly where no
/// reason is. It takes no memory.
pub fn find_dead(
    site: &Site,
    arcs: &Arcs,
    pool: &RowPool,
    decisions: &Decisions,
    bound: i128,
) -> Option<Why>
    requires arcs { AreArcs site.now arcs.now }
    requires count { length decisions.now ≡ length arcs.now }
    requires not_negative { pos 0 ≤ℤ bound }
    ensures dead { IfSome result (IsDead site.now arcs.now pool.now decisions.now (nat_abs bound)) }
    ensures none { IfNone result ((why : AReason) → ¬ (IsDead site.now arcs.now pool.now decisions.now (nat_abs bound) why)) }
{
    NodeBox::new(site, arcs, decisions).find_dead(pool, bound, ceiling(site, arcs))
}
