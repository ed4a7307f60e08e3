//! Rows that can't be met in a node.

ghost use Rattle.std.specs.Prelude.{◌≡◌, ℕ, ◌<◌, ◌↔◌, IsTrue, IfSome, IfNone, length, slice_get, Some};
ghost use Rattle.cable_definitions.specs.Row.{Row};
ghost use Rattle.cable_definitions.specs.Tree.{CannotMeet};

use crate::boxed_row::BoxedRow;
use crate::node::NodeBox;
use cable_rows::RowPool;

/// Whether a row can't be met in the box of a node.
pub(crate) fn cannot_meet(node: &NodeBox, pool: &RowPool, row: u32) -> bool
    requires { row < length pool.now }
    ensures { (r : Row) → slice_get pool.now row ≡ Some r → (IsTrue result ↔ CannotMeet node.now.site node.now.arcs node.now.marks r) }
{
    let boxed = BoxedRow {
        site: node.site,
        arcs: node.arcs,
        decisions: node.decisions,
        pool,
        row,
        largest: node.site.largest_capacity(),
    };
    boxed.cannot_be_met()
}

/// A row that can't be met in the box of a node.
pub(crate) fn find_row(node: &NodeBox, pool: &RowPool) -> Option<u32>
    ensures some { IfSome result (λ row. (r : Row) × (slice_get pool.now row ≡ Some r) × CannotMeet node.now.site node.now.arcs node.now.marks r) }
    ensures none { IfNone result ((row : ℕ) (r : Row) → slice_get pool.now row ≡ Some r → ¬ (CannotMeet node.now.site node.now.arcs node.now.marks r)) }
{
    for row in 0..pool.len() {
        if cannot_meet(node, pool, row) {
            return Some(row);
        }
    }
    None
}
