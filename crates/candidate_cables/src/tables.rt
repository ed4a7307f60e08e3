//! The tables beside the list of arcs: for each point its first arc, and the arcs that end in it.

ghost use Rattle.std.specs.Prelude.{◌≡◌, ◌≤◌, length, IfOk, AllPairs};
ghost use Rattle.cable_definitions.specs.Arcs.{ArcBefore};
ghost use Rattle.candidate_cables.specs.Tables.{IsFirstFrom, AreFirst, AreNumbersInto, AreAllInto};

use cable_definitions::cable::Arc;
use std::alloc::{AllocError, Global};
use std::marker::Model;

/// A list of numbers of arcs.
#[derive(Drop)]
pub(crate) struct Numbers {
    numbers: Vec<u32>,
}

impl Model for Numbers {
    ghost use Rattle.std.specs.Prelude.{List, ℕ};

    ghost Value = { List ℕ };

    ghost view = { λ n. n.numbers.items };
}

impl Numbers {
    /// The numbers as a slice.
    pub(crate) fn as_slice(&self) -> &[u32]
        ensures { result.now ≡ self.now }
    {
        self.numbers.as_slice()
    }
}

/// The number of the first arc that starts in a point or in one after it, or the count of the arcs where there is none.
fn first_from(arcs: &[Arc], p: u32) -> u32
    requires in_order { AllPairs ArcBefore arcs.now }
    requires count { length arcs.now ≤ 65280 }
    ensures { IsFirstFrom arcs.now p result }
{
    for (number, arc) in arcs.iter().enumerate() {
        if arc.from >= p {
            return number as u32;
        }
    }
    arcs.len() as u32
}

/// For each of so many points the number of the first arc that starts there or later.
pub(crate) fn first_numbers(alloc: Global, arcs: &[Arc], count: u32) -> Result<Vec<u32>, AllocError>
    requires in_order { AllPairs ArcBefore arcs.now }
    requires count { length arcs.now ≤ 65280 }
    ensures first { IfOk result (λ first. AreFirst arcs.now first.items) }
    ensures count { IfOk result (λ first. length first.items ≡ count) }
{
    let mut first = Vec::new(alloc);
    for p in 0..count {
        first.push(first_from(arcs, p))?;
    }
    Ok(first)
}

/// The numbers of the arcs that end in a point.
fn numbers_into(alloc: Global, arcs: &[Arc], q: u32) -> Result<Numbers, AllocError>
    requires { length arcs.now ≤ 65280 }
    ensures { IfOk result (AreNumbersInto arcs.now q) }
{
    let mut numbers = Vec::new(alloc);
    for (number, arc) in arcs.iter().enumerate() {
        if arc.to == q {
            numbers.push(number as u32)?;
        }
    }
    Ok(Numbers { numbers })
}

/// For each of so many points the numbers of the arcs that end there.
pub(crate) fn all_into(alloc: Global, arcs: &[Arc], count: u32) -> Result<Vec<Numbers>, AllocError>
    requires { length arcs.now ≤ 65280 }
    ensures into { IfOk result (λ into. AreAllInto arcs.now into.items) }
    ensures count { IfOk result (λ into. length into.items ≡ count) }
{
    let mut into = Vec::new(alloc);
    for q in 0..count {
        into.push(numbers_into(alloc, arcs, q)?)?;
    }
    Ok(into)
}
