//! Rows and marks by their tables.

ghost use Rattle.std.specs.Prelude.{◌≡◌, length, IfOk};
ghost use Rattle.cable_definitions.specs.Arcs.{AreArcs};

use cable_rows::{RowKind, RowPool, row_form};
use candidate_cables::Arcs;
use node_works::{Decisions, Mark};
use site_model::Site;
use std::alloc::{AllocError, Global};
use std::test::Fail;

/// Lists a row that has to be well formed.
pub(crate) fn list(
    pool: &mut RowPool,
    site: &Site,
    arcs: &Arcs,
    kind: RowKind,
    members: &[u32],
) -> Result<u32, Fail>
    requires { AreArcs site.now arcs.now }
{
    row_form(site, arcs, kind, members)?;
    Ok(pool.add(site, arcs, kind, members)?)
}

/// A pool of these rows, which have to be well formed.
pub(crate) fn listed(
    alloc: Global,
    site: &Site,
    arcs: &Arcs,
    rows: &[(RowKind, &[u32])],
) -> Result<RowPool, Fail>
    requires { AreArcs site.now arcs.now }
{
    let mut pool = RowPool::new(alloc)?;
    for row in rows {
        list(&mut pool, site, arcs, row.0, row.1)?;
    }
    Ok(pool)
}

/// The decisions that give these arcs these marks, and leave the others free.
pub(crate) fn marked(
    alloc: Global,
    arcs: &Arcs,
    marks: &[(u32, Mark)],
) -> Result<Decisions, AllocError>
    ensures { IfOk result (λ decisions. length decisions ≡ length arcs.now) }
{
    let mut decisions = Decisions::new(alloc, arcs.len())?;
    for chosen in marks {
        if chosen.0 < arcs.len() {
            decisions.set(chosen.0, chosen.1);
        }
    }
    Ok(decisions)
}
