//! Reasons why a node is dead, and the layout of a node that is full.
#![tactic(auto)]

mod boxed_row;
mod dead;
mod extent;
mod flows;
mod full;
mod node;
mod own;
mod pairs;
mod rows;
mod used;

pub use cable_definitions::row::Why;
pub use dead::{find_dead, is_dead};
pub use full::{full_layout, is_full};
pub use node::NodeBox;
