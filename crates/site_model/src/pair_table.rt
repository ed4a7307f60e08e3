//! A table of the rules on the pairs of points, in which a rule is looked up by its points.

ghost use Rattle.std.specs.Prelude.{◌≡◌, ◌<◌, IfOk, All, length, slice_set, is_some, Some, None};
ghost use Rattle.site_model.specs.Ruled.{pair_place, rule_in};

use cable_definitions::site::PairRule;
use std::alloc::{AllocError, Global};

/// A table of this many places, without a rule.
pub(crate) fn empty_table(alloc: Global, size: usize) -> Result<Vec<Option<PairRule>>, AllocError>
    ensures size { IfOk result (λ table. length table.items ≡ size) }
    ensures empty { IfOk result (λ table. All (λ rule. rule ≡ None) table.items) }
{
    vec![in alloc; None; size]
}

/// The place of two points in a table that has 256 points in a row.
fn pair_place(a: u32, b: u32) -> usize
    requires first { a < 256 }
    requires second { b < 256 }
    ensures { result ≡ pair_place a b }
{
    a as usize * 256 + b as usize
}

/// The rule that the table has at two points.
pub(crate) fn rule_in(table: &[Option<PairRule>], a: u32, b: u32) -> Option<PairRule>
    requires size { length table.now ≡ 65536 }
    requires first { a < 256 }
    requires second { b < 256 }
    ensures { result ≡ rule_in table.now a b }
{
    table[pair_place(a, b)]
}

/// Whether the table has a rule at two points.
pub(crate) fn has_rule(table: &[Option<PairRule>], a: u32, b: u32) -> bool
    requires size { length table.now ≡ 65536 }
    requires first { a < 256 }
    requires second { b < 256 }
    ensures { result ≡ is_some (rule_in table.now a b) }
{
    rule_in(table, a, b).is_some()
}

/// Enters the rule on two points, in either order.
pub(crate) fn enter(table: &mut Vec<Option<PairRule>>, a: u32, b: u32, rule: PairRule)
    requires size { length table.old.items ≡ 65536 }
    requires first { a < 256 }
    requires second { b < 256 }
    ensures { table.new.items ≡ slice_set (slice_set table.old.items (pair_place a b) (Some rule)) (pair_place b a) (Some rule) }
{
    table[pair_place(a, b)] = Some(rule);
    table[pair_place(b, a)] = Some(rule);
}
