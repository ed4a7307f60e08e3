//! A row listed or refused.

ghost use Rattle.std.specs.Prelude.{◌≡◌, IfErr, OnOk, OnErr};
ghost use Rattle.cable_definitions.specs.Arcs.{AreArcs};
ghost use Rattle.cable_definitions.specs.Row.{IsWellFormed};
ghost use Rattle.cable_definitions.specs.Tree.{IsListed};
ghost use Rattle.cable_definitions.specs.Refusal.{IsRowRefused, IsLeastCause};
ghost use Rattle.branch_tree.specs.State.{TreeState};
ghost use Rattle.proof_checker.specs.State.{kept_from};

use cable_definitions::claim::Cause;
use cable_definitions::row::RowKind;
use cable_rows::{RowPool, row_form};
use candidate_cables::Arcs;
use site_model::Site;

/// Lists a well-formed row, where there is room.
fn add_row(
    site: &Site,
    arcs: &Arcs,
    pool: &mut RowPool,
    kind: RowKind,
    members: &[u32],
) -> Result<(), Cause>
    requires arcs { AreArcs site.now arcs.now }
    requires well_formed { IsWellFormed site.now arcs.now (record { kind = kind; members = members.now }) }
    ensures listed { OnOk result ((tree : TreeState)
        → IsListed site.now arcs.now (kept_from pool.old tree) (record { kind = kind; members = members.now }) (kept_from pool.new tree)) }
    ensures refused { IfErr result (λ cause. (tree : TreeState)
        → IsLeastCause (IsRowRefused site.now arcs.now (kept_from pool.old tree) (record { kind = kind; members = members.now })) cause) }
    ensures same { OnErr result (pool.new ≡ pool.old) }
{
    match pool.add(site, arcs, kind, members) {
        Ok(_) => Ok(()),
        Err(_) => Err(Cause::Limit),
    }
}

/// Lists a row that is well formed, where there is room. It takes no memory.
///
/// # Errors
///
/// `Row` where the row isn't well formed, else `Limit` where the rows or their members exceed their limit; nothing changes then.
pub(crate) fn list_row(
    site: &Site,
    arcs: &Arcs,
    pool: &mut RowPool,
    kind: RowKind,
    members: &[u32],
) -> Result<(), Cause>
    requires { AreArcs site.now arcs.now }
    ensures listed { OnOk result ((tree : TreeState)
        → IsListed site.now arcs.now (kept_from pool.old tree) (record { kind = kind; members = members.now }) (kept_from pool.new tree)) }
    ensures refused { IfErr result (λ cause. (tree : TreeState)
        → IsLeastCause (IsRowRefused site.now arcs.now (kept_from pool.old tree) (record { kind = kind; members = members.now })) cause) }
    ensures same { OnErr result (pool.new ≡ pool.old) }
{
    match row_form(site, arcs, kind, members) {
        Err(_) => Err(Cause::Row),
        Ok(()) => add_row(site, arcs, pool, kind, members),
    }
}
