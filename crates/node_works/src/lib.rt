//! What is decided of a node's arcs, weights on rows, and what is done with a node.
#![tactic(auto)]

mod decisions;
mod weights;
mod work;

pub use cable_definitions::row::Mark;
pub use decisions::Decisions;
pub use weights::{Weights, WeightsFull};
pub use work::Work;
