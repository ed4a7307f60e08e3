//! What the cables cost together.

ghost use Rattle.std.specs.Prelude.{◌≡◌, ℕ, ◌≤◌, length};
ghost use Rattle.cable_definitions.specs.Layout.{KeepsRange, KeepsCapacity, cost as cost_of_all};

use crate::flows::Flows;

/// The sum of the costs of all cables, each at its load, in cost units.
pub(crate) fn total_cost(flows: &Flows) -> u64
    requires count { length flows.now.cables ≤ 256 }
    requires range { (i : ℕ) → KeepsRange flows.now.site flows.now.cables i }
    requires capacity { (p : ℕ) → KeepsCapacity flows.now.site flows.now.cables p }
    ensures { result ≡ cost_of_all flows.now.site flows.now.cables }
{
    let site = flows.site();
    let cables = flows.cables();
    let mut total: u64 = 0;
    for cable in cables {
        let carried = flows.load(cable.from);
        total += site.arc_cost(cable.from, cable.to, cable.grade, carried);
    }
    total
}
