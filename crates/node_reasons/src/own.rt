//! The arcs that a row may count: those out of some points, and some more by their numbers.

ghost use Rattle.std.specs.Prelude.{◌≡◌, ◌≤◌, ◌<◌, length, slice_get, Some, AllPairs};
ghost use Rattle.cable_definitions.specs.Arcs.{AreArcs};
ghost use Rattle.cable_definitions.specs.Row.{Row};
ghost use Rattle.node_reasons.specs.Own.{start_points, AreFurther};

use cable_definitions::row::RowKind;
use cable_rows::RowPool;
use candidate_cables::Arcs;
use site_model::Site;

/// The points by whose arcs out a row counts.
pub(crate) fn points_of(pool: &RowPool, row: u32) -> &[u32]
    requires { row < length pool.now }
    ensures points { (r : Row) → slice_get pool.now row ≡ Some r → result.now ≡ start_points r.kind r.members }
    ensures ascending { AllPairs (λ m n. m < n) result.now }
    ensures few { length result.now ≤ 256 }
{
    match pool.kind(row) {
        RowKind::Out | RowKind::Flow | RowKind::Bend | RowKind::Cut => pool.members(row),
        RowKind::Inlet | RowKind::Power | RowKind::One => &[],
    }
}

/// The numbers of the arcs that a row may count beside those out of these points.
pub(crate) fn further_arcs<'a>(
    site: &Site,
    arcs: &'a Arcs,
    pool: &'a RowPool,
    row: u32,
) -> &'a [u32]
    requires arcs { AreArcs site.now arcs.now }
    requires row { row < length pool.now }
    ensures { (r : Row) → slice_get pool.now row ≡ Some r → AreFurther arcs.now r result.now }
{
    match pool.kind(row) {
        RowKind::Out | RowKind::Cut => &[],
        RowKind::One => pool.members(row),
        RowKind::Flow | RowKind::Inlet | RowKind::Bend | RowKind::Power => {
            let members = pool.members(row);
            let _few = arcs.len();
            arcs.into(members[0])
        }
    }
}
