//! The least and the greatest of what a row counts.

ghost use Rattle.std.specs.Prelude.{◌≡◌, ◌≤◌, ◌⊎◌, pos, ◌+ℤ◌, ◌≤ℤ◌};
ghost use Rattle.cable_definitions.specs.Choice.{AtMost, AtLeast};
ghost use Rattle.node_reasons.specs.Extents.{used_value, IsExtremeUse, IsUpTo};

/// The least and the greatest of what a row counts.
#[derive(Clone, Copy)]
pub(crate) struct Extent {
    pub(crate) least: i64,
    pub(crate) greatest: i64,
}

/// What a used arc counts as at a load, by what its use and each unit of load count as.
fn value_at(counts: (i8, i8), load: u32) -> i64
    requires { load ≤ 10000 }
    ensures value { result ≡ used_value counts.0 counts.1 load }
    ensures small { IsUpTo 2000000 result }
{
    i64::from(counts.0) + i64::from(counts.1) * i64::from(load)
}

/// The extent of what a used arc counts as at the loads from one to another.
pub(crate) fn extent_of_use(counts: (i8, i8), low: u32, high: u32) -> Extent
    requires order { low ≤ high }
    requires small { high ≤ 10000 }
    ensures least { IsExtremeUse AtMost counts.0 counts.1 low high result.least }
    ensures greatest { IsExtremeUse AtLeast counts.0 counts.1 low high result.greatest }
    ensures least_small { IsUpTo 2000000 result.least }
    ensures greatest_small { IsUpTo 2000000 result.greatest }
{
    let at_low = value_at(counts, low);
    let at_high = value_at(counts, high);
    if counts.1 >= 0 {
        return Extent {
            least: at_low,
            greatest: at_high,
        };
    }
    Extent {
        least: at_high,
        greatest: at_low,
    }
}

/// The lesser of the least and nothing.
pub(crate) fn least_or_none(used: Extent) -> i64
    ensures { ((result ≡ used.least) × (used.least ≤ℤ pos 0)) ⊎ ((result ≡ pos 0) × (pos 0 ≤ℤ used.least)) }
{
    if used.least < 0 { used.least } else { 0 }
}

/// The greater of the greatest and nothing.
pub(crate) fn greatest_or_none(used: Extent) -> i64
    ensures { ((result ≡ used.greatest) × (pos 0 ≤ℤ used.greatest)) ⊎ ((result ≡ pos 0) × (used.greatest ≤ℤ pos 0)) }
{
    if used.greatest > 0 { used.greatest } else { 0 }
}

/// No arcs count as nothing.
pub(crate) fn nothing() -> Extent
    ensures least { result.least ≡ pos 0 }
    ensures greatest { result.greatest ≡ pos 0 }
{
    Extent {
        least: 0,
        greatest: 0,
    }
}

/// Two extents added.
pub(crate) fn added(first: Extent, second: Extent) -> Extent
    requires first_least { IsUpTo 100000000000000 first.least }
    requires first_greatest { IsUpTo 100000000000000 first.greatest }
    requires second_least { IsUpTo 1000000000000 second.least }
    requires second_greatest { IsUpTo 1000000000000 second.greatest }
    ensures least { result.least ≡ first.least +ℤ second.least }
    ensures greatest { result.greatest ≡ first.greatest +ℤ second.greatest }
{
    Extent {
        least: first.least + second.least,
        greatest: first.greatest + second.greatest,
    }
}
