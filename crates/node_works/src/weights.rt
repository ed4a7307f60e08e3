//! Weights on rows.

use std::alloc::{AllocError, Global};
use std::marker::Model;

/// The most weights of a list.
const MOST_WEIGHTS: usize = 1024;

/// A list of weights has 1,024 of them already.
#[derive(Clone, Copy, Debug, PartialEq, Eq, thiserror::Error)]
#[error("there are at most 1,024 weights")]
pub struct WeightsFull;

/// Weights on rows, over 2^20 of a cost unit, seen as a list of pairs of a row's number and its weight. There are at
/// most 1,024, and their room is taken when the list is made.
#[derive(Drop)]
pub struct Weights {
    weights: Vec<(u32, i128)>,
}

impl Model for Weights {
    ghost use Rattle.std.specs.Prelude.{List, ℕ, ℤ, ◌≤◌, vec_len, vec_capacity};

    ghost Value = { List (ℕ × ℤ) };

    ghost view = { λ w. w.weights.items };

    ghost invariant = { λ w. (vec_len w.weights ≤ 1024) × (1024 ≤ vec_capacity w.weights) };
}

impl Weights {
    ghost use Rattle.std.specs.Prelude.{◌≡◌, ◌≤◌, ◌↔◌, [], ◌∷◌, ◌++◌, length, OnOk, OnErr, IfOk, IsErr};

    /// No weights, with room for 1,024.
    ///
    /// # Errors
    ///
    /// `AllocError` where there is no memory for that room.
    pub fn new(alloc: Global) -> Result<Weights, AllocError>
        ensures { IfOk result (λ w. w ≡ []) }
    {
        let weights = Vec::with_capacity(alloc, MOST_WEIGHTS)?;
        Ok(Weights { weights })
    }

    /// Adds the weight of a row, over 2^20 of a cost unit, at the end. It takes no memory.
    ///
    /// # Errors
    ///
    /// `WeightsFull` exactly where there are 1,024 already; nothing changes then.
    pub fn push(&mut self, row: u32, weight: i128) -> Result<(), WeightsFull>
        ensures full { IsErr result ↔ (length self.old ≡ 1024) }
        ensures ok { OnOk result (self.new ≡ self.old ++ (row, weight) ∷ []) }
        ensures err { OnErr result (self.new ≡ self.old) }
    {
        if self.weights.len() >= MOST_WEIGHTS {
            return Err(WeightsFull);
        }
        match self.weights.push((row, weight)) {
            Ok(()) => Ok(()),
            Err(_) => Err(WeightsFull),
        }
    }

    /// The weights in their order.
    pub fn as_slice(&self) -> &[(u32, i128)]
        ensures value { result.now ≡ self.now }
        ensures at_most { length self.now ≤ 1024 }
    {
        self.weights.as_slice()
    }

    /// Leaves no weight, and keeps the room.
    pub fn clear(&mut self)
        ensures { self.new ≡ [] }
    {
        self.weights.clear();
    }
}
