//! Rows of single points.

ghost use Rattle.std.specs.Prelude.{◌≡◌, ℕ, ◌+◌, ◌<◌, [], ◌++◌, length, IsTrue};
ghost use Rattle.cable_definitions.specs.Arcs.{AreArcs};
ghost use Rattle.cable_definitions.specs.Row.{speaks_of as speaks_of_kind, has_one_member};
ghost use Rattle.cable_definitions.specs.Core.{rows_of, points_where, first_rows};
ghost use Rattle.proof_laws.specs.Decided.{HasPointRows};
ghost use Rattle.search_progress.specs.Lists.{Lists, AreFew, point_where};

use cable_rows::{RowKind, RowPool, speaks_of};
use candidate_cables::Arcs;
use site_model::Site;

/// Lists the row of a kind on a point, where it speaks of the point and the pool has room.
fn list_row(site: &Site, arcs: &Arcs, pool: &mut RowPool, kind: RowKind, point: u32)
    requires arcs { AreArcs site.now arcs.now }
    requires single { IsTrue (has_one_member kind) }
    requires point { point < length site.now.points }
    ensures lists { Lists site.now arcs.now pool.old pool.new }
    ensures few { (most : ℕ) → AreFew pool.old most → AreFew pool.new (most + 1) }
    ensures row { AreFew pool.old 1280 → pool.new ≡ pool.old ++ rows_of kind (point_where (speaks_of_kind kind) site.now point) }
{
    if !speaks_of(kind, site.points()[point as usize].kind) {
        return;
    }
    let _ = pool.add(site, arcs, kind, &[point]);
}

/// Lists the rows of a kind on single points, in order of point, as far as the pool has room.
fn list_rows_of(site: &Site, arcs: &Arcs, pool: &mut RowPool, kind: RowKind)
    requires arcs { AreArcs site.now arcs.now }
    requires single { IsTrue (has_one_member kind) }
    ensures lists { Lists site.now arcs.now pool.old pool.new }
    ensures few { (most : ℕ) → AreFew pool.old most → AreFew pool.new (most + 256) }
    ensures rows { AreFew pool.old 1024 → pool.new ≡ pool.old ++ rows_of kind (points_where (speaks_of_kind kind) site.now) }
{
    let count = site.points().len() as u32;
    for point in 0..count {
        list_row(site, arcs, pool, kind, point);
    }
}

/// Lists the rows with which a search begins: those on the cables out of turbines, into points, and through bends, each in order of point.
pub(crate) fn list_first_rows(site: &Site, arcs: &Arcs, pool: &mut RowPool)
    requires arcs { AreArcs site.now arcs.now }
    requires empty { pool.old ≡ [] }
    ensures lists { Lists site.now arcs.now [] pool.new }
    ensures few { AreFew pool.new 768 }
    ensures rows { pool.new ≡ first_rows site.now }
    ensures listed { HasPointRows site.now arcs.now pool.new }
{
    list_rows_of(site, arcs, pool, RowKind::Out);
    list_rows_of(site, arcs, pool, RowKind::Inlet);
    list_rows_of(site, arcs, pool, RowKind::Bend);
}

/// Lists the rows on the loads of single points, which node 1 is worked with: what comes into a point goes out of it, and a substation takes no more
/// than its power.
pub fn list_load_rows(site: &Site, arcs: &Arcs, pool: &mut RowPool)
    requires { AreArcs site.now arcs.now }
    ensures lists { Lists site.now arcs.now pool.old pool.new }
    ensures few { (most : ℕ) → AreFew pool.old most → AreFew pool.new (most + 512) }
{
    list_rows_of(site, arcs, pool, RowKind::Flow);
    list_rows_of(site, arcs, pool, RowKind::Power);
}
