//! Which weights on rows are lawful, their value in a node, and the bound that it gives.
#![tactic(auto)]

mod lawfulness;
mod value;

pub use arc_choices::{ceiling, least_choice};
pub use lawfulness::lawful;
pub use node_works::{Decisions, Mark, Weights, WeightsFull, Work};
pub use value::{rounded_bound, weigh};
