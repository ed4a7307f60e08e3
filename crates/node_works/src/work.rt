//! What is done with a node.

use crate::Weights;
use cable_definitions::row::Act;

/// What is done with a node: its number, the weights that raise its bound, and an act.
#[derive(Drop)]
pub struct Work {
    pub node: u32,
    pub weights: Weights,
    pub act: Act,
}
